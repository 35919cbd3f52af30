// One record more (document 01, section 3): the key is looked for, room is made, the record written at the end of the head, and the index brought up to it.
// What it answers is said in specs/Steps.antt; put and delete, and what they test first, are in the crate `change`.
// The index is a slice that is lent, and longer than its n entries (no heap); `note` is a bool as in `record::encode`.
#![tactic(auto)]

ghost use Rattle.std.specs.Prelude.{◌≡◌, ◌+◌, ◌*◌, ◌≤◌, ◌<◌, length, take};
ghost use Rattle.chip.specs.Lent.{Same};
ghost use Rattle.ring_log.specs.Ring.{room, most_blocks};
ghost use Rattle.index.specs.Answers.{Within};
ghost use Rattle.lent.specs.Ended.{number_due};
ghost use Rattle.clean.specs.Ends.{Sane};
ghost use Rattle.append.specs.declared.Unmade.TheVariants.{Denied, Halted};
ghost use Rattle.append.specs.Steps.{Keyed, ChangeWithin, ChangeKept, is_missing, denial, entered, Appends, Alters};

use chip::{Chip, Halt};
use clean::Place;
use lent::Refusal;
use ring_log::Head;

// What a change that was made left: the head, its next place, the number of keys and the cursor.
#[derive(Clone, Copy)]
pub struct Made {
    pub head: Head,
    pub next: usize,
    pub keys: usize,
    pub passed: usize,
}

// Why none was made: it is refused, and nothing was done; or it ended early.
#[derive(Clone, Copy)]
pub enum Unmade {
    Denied(Refusal),
    Halted(Halt),
}

impl From<Refusal> for Unmade {
    ghost from_gives = { λ r u. u ≡ Denied r };

    fn from(r: Refusal) -> Unmade {
        Unmade::Denied(r)
    }
}

impl From<Halt> for Unmade {
    ghost from_gives = { λ e u. u ≡ Halted e };

    fn from(e: Halt) -> Unmade {
        Unmade::Halted(e)
    }
}

// The index is brought up to the record on page p: a value is put in, and of a note its key is taken out. Answers the number of keys.
fn enter(index: &mut [u32], n: usize, found: Result<usize, usize>, note: bool, p: usize) -> usize
    requires { (n < length index.old) × Within n found × (p < 16 * most_blocks) }
    ensures within { result ≤ n + 1 }
    ensures right { take result index.new ≡ entered note found p (take n index.old) }
{
    if note {
        return index::take_out(index, n, found);
    }
    index::put_in(index, n, found, p as u32)
}

// The record is written to the next place of the head, and the index brought up to it.
fn append(
    chip: &mut Chip<'_>,
    index: &mut [u32],
    place: Place,
    n: usize,
    found: Result<usize, usize>,
    note: bool,
    key: &[u8],
    value: &[u8],
) -> Result<Made, Halt>
    requires sized { (4 ≤ place.head.blocks) × (place.head.blocks ≤ most_blocks) × (length chip.old.bytes.now ≡ 4096 * place.head.blocks) × (place.head.block < place.head.blocks) × (place.next < 15) }
    requires entries { (n < length index.old) × Within n found × Keyed key.now value.now × (place.passed < 4294967296) }
    ensures same { Same chip.old chip.new }
    ensures right { Appends place.head.blocks place.head.block place.next place.passed n found note key.now value.now chip.old.noise.now chip.old.bytes.now chip.old.fuse.now index.old chip.new.bytes.now chip.new.fuse.now index.new result }
    ensures within { ChangeWithin place.head.blocks n result }
{
    let p = 16 * place.head.block + place.next;
    chip.write(p, &record::encode(note, key, value))?;
    let keys = enter(index, n, found, note, p);
    Ok(Made {
        head: place.head,
        next: place.next + 1,
        keys,
        passed: place.passed,
    })
}

// The refusals 4 and 3.
fn denied(found: Result<usize, usize>, note: bool, n: usize, b: usize) -> Result<(), Refusal>
    requires { (b ≤ most_blocks) × (n ≤ room b) }
    ensures { number_due result ≡ denial note (is_missing found) n b }
{
    if found.is_ok() {
        return Ok(());
    }
    if note {
        return Err(Refusal::NoValue);
    }
    let left = ring_log::room(b) - n;
    if left < 1 {
        return Err(Refusal::NoRoom);
    }
    Ok(())
}

// A value is put, or a note of a deletion. The first n words of the index are its entries: the slice is lent (no heap) and longer, as a put needs it. (`note` is a
// bool as in `record::encode`; a `Place` begins in `tidy`.)
pub fn make_change(
    chip: &mut Chip<'_>,
    index: &mut [u32],
    head: Head,
    next: usize,
    passed: usize,
    n: usize,
    note: bool,
    key: &[u8],
    value: &[u8],
) -> Result<Made, Unmade>
    requires sane { Sane head.blocks chip.old.bytes.now index.old chip.old.noise.now n head.block × (next ≤ 15) }
    requires entries { (n < length index.old) × Keyed key.now value.now × (n ≤ room head.blocks) × (passed < 4294967296) }
    ensures same { Same chip.old chip.new }
    ensures right { Alters head.blocks head.block next passed n note key.now value.now chip.old.noise.now chip.old.bytes.now chip.old.fuse.now index.old chip.new.bytes.now chip.new.fuse.now index.new result }
    ensures within { ChangeWithin head.blocks n result }
    ensures kept { ChangeKept chip.old.bytes.now chip.old.fuse.now index.old chip.new.bytes.now chip.new.fuse.now index.new result }
{
    let found = index::find(chip.bytes(), &index[..n], key);
    denied(found, note, n, head.blocks)?;
    let place = tidy::make_place(chip, &mut index[..n], head, next, passed)?;
    Ok(append(chip, index, place, n, found, note, key, value)?)
}
