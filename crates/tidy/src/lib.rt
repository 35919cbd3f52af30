// A place for the record that a put or a delete writes: first a few places behind the cursor are swept, and where the head is full the next block is opened and
// the rest of them swept. Whatever stands in the index and on the chip, no call traps, and no page is written that isn't blank. What each function did is said
// in specs/Steps.antt.
#![tactic(auto)]

ghost use Rattle.std.specs.Prelude.{◌+◌, ◌-◌, ◌*◌, ◌≤◌, ◌<◌, length};
ghost use Rattle.chip.specs.Lent.{Same};
ghost use Rattle.ring_log.specs.Call.{cursor, begin};
ghost use Rattle.clean.specs.Ends.{Sane};
ghost use Rattle.opening.specs.Ends.{RoomWithin};
ghost use Rattle.tidy.specs.Steps.{Places};

use chip::{Chip, Halt};
use clean::Place;
use ring_log::Head;

// How many places a call looks at.
const LOOKS: usize = 8;

// The looks that are left after an opening.
fn sweep_on(chip: &mut Chip<'_>, index: &mut [u32], place: Place) -> Result<Place, Halt>
    requires { Sane place.head.blocks chip.old.bytes.now index.old chip.old.noise.now (length index.old) place.head.block × (place.next < 15) }
    ensures same { Same chip.old chip.new }
    ensures right { Places 0 place.left place.head.blocks (length index.old) place.head.block place.next (cursor place.passed place.left 14) chip.old.noise.now chip.old.bytes.now chip.old.fuse.now index.old chip.new.bytes.now chip.new.fuse.now index.new result }
    ensures within { RoomWithin place.head.blocks place.passed place.left result }
{
    sweep::sweep(chip, index, place, 14)
}

// The head is full: room is made, and the rest of the looks; a place is left for the record. (It is given no `Place`: there is no next one.)
fn make_more(
    chip: &mut Chip<'_>,
    index: &mut [u32],
    head: Head,
    passed: usize,
    left: usize,
) -> Result<Place, Halt>
    requires { Sane head.blocks chip.old.bytes.now index.old chip.old.noise.now (length index.old) head.block }
    ensures same { Same chip.old chip.new }
    ensures right { Places (head.blocks - 2) (16 * (head.blocks - 2) + left) head.blocks (length index.old) head.block 15 (cursor passed left 15) chip.old.noise.now chip.old.bytes.now chip.old.fuse.now index.old chip.new.bytes.now chip.new.fuse.now index.new result }
    ensures within { RoomWithin head.blocks passed left result }
{
    let place = opening::make_room(chip, index, head, passed, left)?;
    sweep_on(chip, index, place)
}

// A place for the record: first up to 8 places behind the cursor are looked at, and what is live there is carried to the head. (It is given no `Place`: the looks
// that are left are counted from here on.)
pub fn make_place(
    chip: &mut Chip<'_>,
    index: &mut [u32],
    head: Head,
    next: usize,
    passed: usize,
) -> Result<Place, Halt>
    requires { Sane head.blocks chip.old.bytes.now index.old chip.old.noise.now (length index.old) head.block × (next ≤ 15) }
    ensures same { Same chip.old chip.new }
    ensures right { Places (head.blocks - 2) (16 * (head.blocks - 2) + 16) head.blocks (length index.old) head.block next (begin passed) chip.old.noise.now chip.old.bytes.now chip.old.fuse.now index.old chip.new.bytes.now chip.new.fuse.now index.new result }
    ensures within { RoomWithin head.blocks passed 8 result }
{
    let from = Place {
        head,
        next,
        passed,
        left: LOOKS,
    };
    let place = sweep::sweep(chip, index, from, ring_log::PLACES)?;
    if place.next < ring_log::PLACES {
        return Ok(place);
    }
    make_more(chip, index, head, place.passed, place.left)
}
