// Opening the next block: the spare is erased, the live values of the oldest block are copied to it, and the head is sealed; then the spare is the head.
// Each function says with Did what it did to the chip. Whatever stands in the index and on the chip, no call traps, and no page is written that isn't blank.
#![tactic(auto)]

ghost use Rattle.std.specs.Prelude.{◌+◌, ◌-◌, ◌*◌, ◌%◌, ◌≤◌, ◌<◌, ◌≡◌, true, length};
ghost use Rattle.chip.specs.Chip.{blank_at};
ghost use Rattle.chip.specs.Lent.{Same};
ghost use Rattle.ring_log.specs.Log.{FIRST};
ghost use Rattle.ring_log.specs.Ring.{most_blocks};
ghost use Rattle.clean.specs.Ends.{Sane, Few};
ghost use Rattle.clean.specs.Steps.{Turns};
ghost use Rattle.opening.specs.Ends.{RoomWithin};
ghost use Rattle.opening.specs.Steps.{Clears, Seals, Fills, Opens, Rooms};

use chip::{Chip, Halt};
use clean::Place;
use ring_log::Head;

// The spare is erased, but in the first round: then it is blank, and a cut erase could leave it looking sealed.
fn clear_spare(chip: &mut Chip<'_>, head: Head, first: bool) -> Result<(), Halt>
    requires sized { (4 ≤ head.blocks) × (head.blocks ≤ most_blocks) × (length chip.old.bytes.now ≡ 4096 * head.blocks) × (head.block < head.blocks) }
    requires is_first { first ≡ blank_at chip.old.bytes.now (16 * ((head.block + 2) % head.blocks) + 15) }
    ensures same { Same chip.old chip.new }
    ensures right { Clears head.blocks head.block chip.old.noise.now chip.old.bytes.now chip.old.fuse.now chip.new.bytes.now chip.new.fuse.now result }
    ensures unchanged { first ≡ true → chip.new.bytes.now ≡ chip.old.bytes.now }
{
    if first {
        return Ok(());
    }
    chip.erase(head.spare())
}

// The head is sealed, and the spare, k of whose places are used, is the head.
fn seal_head(chip: &mut Chip<'_>, head: Head, k: usize) -> Result<usize, Halt>
    requires { (4 ≤ head.blocks) × (head.blocks ≤ most_blocks) × (length chip.old.bytes.now ≡ 4096 * head.blocks) × (head.block < head.blocks) × (k ≤ 15) }
    ensures same { Same chip.old chip.new }
    ensures right { Seals head.blocks head.block k chip.old.noise.now chip.old.bytes.now chip.old.fuse.now chip.new.bytes.now chip.new.fuse.now result }
    ensures few { Few result }
{
    let p = 16 * head.block + ring_log::PLACES;
    chip.write(p, &record::seal())?;
    Ok(k)
}

// The live values of the oldest block go to the spare. In the first round it has none.
fn copy_live(chip: &mut Chip<'_>, index: &mut [u32], head: Head, first: bool) -> Result<usize, Halt>
    requires sane { Sane head.blocks chip.old.bytes.now index.old chip.old.noise.now (length index.old) head.block }
    requires first_blank { first ≡ true → blank_at chip.old.bytes.now (16 * ((head.block + 2) % head.blocks) + 15) ≡ true }
    ensures same { Same chip.old chip.new }
    ensures right { Turns head.blocks (length index.old) head.block 0 15 0 chip.old.noise.now chip.old.bytes.now chip.old.fuse.now index.old chip.new.bytes.now chip.new.fuse.now index.new result }
    ensures few { Few result }
{
    if first {
        return Ok(0);
    }
    clean::clean(chip, index, head)
}

// The live values of the oldest block go to the spare, and the head is sealed.
fn fill_spare(
    chip: &mut Chip<'_>,
    index: &mut [u32],
    head: Head,
    first: bool,
) -> Result<usize, Halt>
    requires sane { Sane head.blocks chip.old.bytes.now index.old chip.old.noise.now (length index.old) head.block }
    requires first_blank { first ≡ true → blank_at chip.old.bytes.now (16 * ((head.block + 2) % head.blocks) + 15) ≡ true }
    ensures same { Same chip.old chip.new }
    ensures right { Fills head.blocks (length index.old) head.block chip.old.noise.now chip.old.bytes.now chip.old.fuse.now index.old chip.new.bytes.now chip.new.fuse.now index.new result }
    ensures few { Few result }
{
    let k = copy_live(chip, index, head, first)?;
    seal_head(chip, head, k)
}

// The next block is opened, where the head is full. Answers how many of its places are used. In the first round the oldest block isn't sealed.
pub fn open_next(chip: &mut Chip<'_>, index: &mut [u32], head: Head) -> Result<usize, Halt>
    requires { Sane head.blocks chip.old.bytes.now index.old chip.old.noise.now (length index.old) head.block }
    ensures same { Same chip.old chip.new }
    ensures right { Opens head.blocks (length index.old) head.block chip.old.noise.now chip.old.bytes.now chip.old.fuse.now index.old chip.new.bytes.now chip.new.fuse.now index.new result }
    ensures few { Few result }
{
    let first = chip::blank_at(chip.bytes(), 16 * head.oldest() + ring_log::PLACES);
    clear_spare(chip, head, first)?;
    fill_spare(chip, index, head, first)
}

// The cursor after an opening: the oldest block has left the log, and its places are passed.
fn back(passed: usize) -> usize
    ensures { result ≡ passed - 15 + FIRST }
{
    if passed < ring_log::PLACES {
        ring_log::FIRST
    } else {
        passed - ring_log::RECORDS
    }
}

// The looks left after it: those of the oldest block were made by the opening.
fn fewer(left: usize, passed: usize) -> usize
    ensures { result ≡ left - (15 - passed) }
{
    let made = ring_log::PLACES.saturating_sub(passed);
    left.saturating_sub(made)
}

// The head is full: the next block is opened, until one has room; as often as there are blocks but two, at most. (It is given no `Place`: there is no next one.)
pub fn make_room(
    chip: &mut Chip<'_>,
    index: &mut [u32],
    head: Head,
    passed: usize,
    left: usize,
) -> Result<Place, Halt>
    requires { Sane head.blocks chip.old.bytes.now index.old chip.old.noise.now (length index.old) head.block }
    ensures same { Same chip.old chip.new }
    ensures right { Rooms head.blocks (length index.old) head.block passed left chip.old.noise.now chip.old.bytes.now chip.old.fuse.now index.old chip.new.bytes.now chip.new.fuse.now index.new result }
    ensures within { RoomWithin head.blocks passed left result }
{
    let mut place = Place {
        head,
        next: ring_log::PLACES,
        passed,
        left,
    };
    for _ in 0..head.blocks - 2 {
        place = Place {
            next: open_next(chip, index, place.head)?,
            head: place.head.next(),
            passed: back(place.passed),
            left: fewer(place.left, place.passed),
        };
        if place.next < ring_log::PLACES {
            return Ok(place);
        }
    }
    Err(Halt::Dirty)
}
