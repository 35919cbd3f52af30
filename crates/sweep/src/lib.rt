// Cleaning by the way: before its record each put and delete looks at a few places of the log, from a cursor on, and carries what is live there to the head. It
// goes on while the cursor is in its zone, the first next + (B - 2) places of the log: what stands there is old enough to be carried without an erase more, and
// an opening finds little or nothing left to copy. Whatever stands in the index and on the chip, and whatever the cursor is, no call traps, and no page is
// written that isn't blank. What each function did is said in specs/Steps.antt.
#![tactic(auto)]

ghost use Rattle.std.specs.Prelude.{◌+◌, ◌-◌, ◌*◌, ◌≤◌, ◌<◌, ◌≡◌, length, IfOk};
ghost use Rattle.chip.specs.Lent.{Same};
ghost use Rattle.ring_log.specs.Log.{page_of, log_place};
ghost use Rattle.ring_log.specs.Ring.{most_blocks};
ghost use Rattle.clean.specs.Ends.{Sane};
ghost use Rattle.sweep.specs.Ends.{OneMore, SweptWithin};
ghost use Rattle.sweep.specs.Steps.{Passes, Sweeps};

use chip::{Chip, Halt};
use clean::Place;
use ring_log::Head;

// The page of log place p.
fn page_at_log(head: Head, p: usize) -> usize
    requires { (4 ≤ head.blocks) × (head.blocks ≤ most_blocks) × (head.block < head.blocks) × (p < 15 + (head.blocks - 2)) }
    ensures right { result ≡ page_of head.blocks (log_place head.blocks (head.block + head.blocks) p) }
    ensures within { 256 * result + 256 ≤ 4096 * head.blocks }
{
    16 * head.after(2 + (p - ring_log::FIRST) / ring_log::RECORDS)
        + ring_log::FIRST
        + (p - ring_log::FIRST) % ring_log::RECORDS
}

// The place at the cursor is looked at. A live value is carried to place `next` of the head. Answers how many places of the head are used then. (No `Place`: the
// looks that are left are the loop's.)
fn pass(
    chip: &mut Chip<'_>,
    index: &mut [u32],
    head: Head,
    next: usize,
    passed: usize,
) -> Result<usize, Halt>
    requires sane { Sane head.blocks chip.old.bytes.now index.old chip.old.noise.now (length index.old) head.block }
    requires places { (next < 15) × (passed < next + (head.blocks - 2)) }
    ensures same { Same chip.old chip.new }
    ensures right { Passes head.blocks (length index.old) head.block next passed chip.old.noise.now chip.old.bytes.now chip.old.fuse.now index.old chip.new.bytes.now chip.new.fuse.now index.new result }
    ensures more { OneMore next result }
{
    let q = page_at_log(head, passed);
    match clean::is_live(chip.bytes(), index, q) {
        Some(j) => {
            let page = chip::page_at(chip.bytes(), q);
            clean::carry(chip, index, head.block, next, j, &page)
        }
        None => Ok(next),
    }
}

// Up to `left` places are looked at, while the head has fewer than `top` pages and the cursor is in its zone. Answers where the next record goes then.
pub fn sweep(chip: &mut Chip<'_>, index: &mut [u32], from: Place, top: usize) -> Result<Place, Halt>
    requires sane { Sane from.head.blocks chip.old.bytes.now index.old chip.old.noise.now (length index.old) from.head.block }
    requires places { (from.next ≤ 15) × (top ≤ 15) }
    ensures same { Same chip.old chip.new }
    ensures right { Sweeps from.head.blocks (length index.old) from.head.block from.next from.passed from.left top chip.old.noise.now chip.old.bytes.now chip.old.fuse.now index.old chip.new.bytes.now chip.new.fuse.now index.new result }
    ensures within { SweptWithin from.next top from.passed from.left result }
    ensures head { IfOk result (λ w. w.head ≡ from.head) }
{
    let head = from.head;
    let mut place = from;
    // (the looks that are left are part of the answer: a `for` would count them a second time)
    while 0 < place.left && place.next < top && place.passed < place.next + (head.blocks - 2) {
        place = Place {
            head,
            next: pass(chip, index, head, place.next, place.passed)?,
            passed: place.passed + 1,
            left: place.left - 1,
        };
    }
    Ok(place)
}
