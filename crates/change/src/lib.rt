// Put and delete (document 01, section 3): a record is written at the end of the head, and the index brought up to it. They require nothing of their caller.
// How they end is said in specs/Changed.antt.
#![tactic(auto)]

ghost use Rattle.std.specs.Prelude.{◌≡◌, ◌≤◌, ◌<◌, length, OnOk};
ghost use Rattle.chip.specs.Lent.{Same};
ghost use Rattle.lent.specs.Area.{Checked};
ghost use Rattle.lent.specs.Ended.{answer_of, number_due};
ghost use Rattle.change.specs.Changed.{PutEnds, DeleteEnds};
ghost use Rattle.append.specs.Steps.{Keyed};
ghost use Rattle.change.specs.Steps.{put_number, Words, Settles, Runs};

use append::{Made, Unmade};
use chip::{Chip, Halt};
use lent::{Refusal, Standing};
use ring_log::Head;

// The area and the answer after a change: the new numbers are put down where it was made, and the mark where the power went.
fn settle(work: &mut [u32], change: Result<Made, Unmade>) -> Result<usize, Refusal>
    requires { (16 ≤ length work.old) × Words change }
    ensures { Settles work.old work.new change (answer_of result) }
{
    match change {
        Ok(made) => {
            let standing = Standing {
                head: made.head.block as u32,
                next: made.next as u32,
                keys: made.keys as u32,
                passed: made.passed as u32,
            };
            lent::note_down(work, standing);
            Ok(0)
        }
        Err(Unmade::Denied(refusal)) => Err(refusal),
        Err(Unmade::Halted(Halt::Dark)) => {
            work[lent::MARK] = lent::GONE;
            Err(Refusal::PowerGone)
        }
        Err(Unmade::Halted(Halt::Dirty)) => Err(Refusal::NotStarted),
    }
}

// The body of put and delete, once all is tested. (A word of the area becomes an index by `as`, here and elsewhere: there is no From<u32> for usize, and TryFrom
// would have a failure that can't happen. `note` is a bool as in `record::encode`.)
fn run_change(
    chip: &mut Chip<'_>,
    work: &mut [u32],
    note: bool,
    key: &[u8],
    value: &[u8],
) -> Result<usize, Refusal>
    requires { Checked chip.old.bytes.now work.old × Keyed key.now value.now × (length chip.old.noise.now ≡ 4096) }
    ensures same { Same chip.old chip.new }
    ensures right { Runs note key.now value.now chip.old.noise.now chip.old.bytes.now chip.old.fuse.now work.old chip.new.bytes.now chip.new.fuse.now work.new (answer_of result) }
{
    let head = Head {
        block: work[lent::HEAD] as usize,
        blocks: chip.bytes().len() / 4096,
    };
    let next = work[lent::NEXT] as usize;
    let n = work[lent::KEYS] as usize;
    let passed = work[lent::CURSOR] as usize;
    let index = &mut work[lent::INDEX..];
    let change = append::make_change(chip, index, head, next, passed, n, note, key, value);
    settle(work, change)
}

// Refusals 1 and 2 of what is to be put: the key can't be printed, the value is too long.
fn put_refusal(key: &[u8], value: &[u8]) -> Result<(), Refusal>
    ensures right { number_due result ≡ put_number key.now value.now }
    ensures keyed { OnOk result (Keyed key.now value.now) }
{
    lent::key_refusal(key)?;
    if !ring_log::is_printed(key) {
        return Err(Refusal::BadKey);
    }
    if record::MOST_VALUE < value.len() {
        return Err(Refusal::LongValue);
    }
    Ok(())
}

// The key has the value from now on, whether or not it had one. Its bytes must be such as can be printed. (Lent one by one: the C interface.)
pub fn put(
    chip: &mut [u8],
    work: &mut [u32],
    fuse: &mut u64,
    noise: &[u8; 4096],
    key: &[u8],
    value: &[u8],
) -> Result<usize, Refusal>
    ensures { PutEnds noise.now chip.old fuse.old work.old key.now value.now chip.new fuse.new work.new (answer_of result) }
{
    lent::first_refusal(chip, work, fuse, put_refusal(key, value))?;
    run_change(&mut Chip::new(chip, fuse, noise), work, false, key, value)
}

// The key has no value any more. Any key is taken, so that old ones can be removed. (Lent one by one: the C interface.)
pub fn delete(
    chip: &mut [u8],
    work: &mut [u32],
    fuse: &mut u64,
    noise: &[u8; 4096],
    key: &[u8],
) -> Result<usize, Refusal>
    ensures { DeleteEnds noise.now chip.old fuse.old work.old key.now chip.new fuse.new work.new (answer_of result) }
{
    lent::first_refusal(chip, work, fuse, lent::key_refusal(key))?;
    run_change(&mut Chip::new(chip, fuse, noise), work, true, key, &[])
}
