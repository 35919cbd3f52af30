// The ring (document 03, section 3): its head, its next place, and where its log begins, found by the seals. Nothing is written. The ring itself is defined in
// the crate `ring_log` (specs/Ring.antt), what these functions answer in specs/Seals.antt.
#![tactic(auto)]

ghost use Rattle.std.specs.Prelude.{not, ◌≡◌, ◌≤◌, ◌<◌, ◌*◌, ◌+◌, ◌-◌, length};
ghost use Rattle.chip.specs.Chip.{blank_at};
ghost use Rattle.ring_log.specs.Ring.{chip_of, most_blocks, next_to};
ghost use Rattle.ring.specs.Seals.{head_by, SealsSay, blank_from, FindsBegin};

use ring_log::Head;

// Whether block x is sealed.
fn sealed(chip: &[u8], x: usize) -> bool
    requires { 4096 * x + 4096 ≤ length chip.now }
    ensures { result ≡ not (blank_at chip.now (16 * x + 15)) }
{
    !chip::blank_at(chip, 16 * x + ring_log::PLACES)
}

// What the seals say: the head, whether block 0 is sealed, and how many blocks are.
#[derive(Clone, Copy)]
pub struct Seals {
    pub head: Head,
    pub first: bool,
    pub count: usize,
}

// The head, as far as it was found: block x, if it isn't sealed while the one before it is and no such block was passed. (0 for none yet, as `head_by` of
// specs/Seals.antt has it: if none comes, the head is block 0.)
fn head_by(head: usize, before: bool, here: bool, x: usize) -> usize
    ensures { result ≡ head_by head before here x }
{
    if (head == 0) & before & !here {
        x
    } else {
        head
    }
}

// Each seal is looked at once. (The number of blocks alone, and no `Head`: there is none yet.)
pub fn look_at_seals(chip: &[u8], b: usize) -> Seals
    requires { (4 ≤ b) × (b ≤ most_blocks) × (length chip.now ≡ 4096 * b) }
    ensures { SealsSay b (chip_of chip.now) result }
{
    let first = sealed(chip, 0);
    let mut head = 0;
    let mut count = usize::from(first);
    let mut before = first;
    for x in 1..b {
        let here = sealed(chip, x);
        head = head_by(head, before, here, x);
        count += usize::from(here);
        before = here;
    }
    Seals {
        head: Head {
            block: head,
            blocks: b,
        },
        first,
        count,
    }
}

// Whether the pages from this one up to end are blank.
fn blank_from(chip: &[u8], from: usize, end: usize) -> bool
    requires { (256 * end ≤ length chip.now) × (from ≤ end) }
    ensures { result ≡ blank_from (chip_of chip.now) from (end - from) }
{
    (from..end).all(|p| chip::blank_at(chip, p))
}

// Where the log of the ring with the head h begins, in blocks after h: 2, at the oldest block; in the first round at block 0, since the blocks before it are
// blank. None if the chip is no such ring. All blocks but h and the spare are sealed if so many are; and since no earlier block could be the head, all below h
// are if block 0 is.
pub fn find_begin(chip: &[u8], seals: Seals) -> Option<usize>
    requires { (4 ≤ seals.head.blocks) × (seals.head.blocks ≤ most_blocks) × (length chip.now ≡ 4096 * seals.head.blocks) × SealsSay seals.head.blocks (chip_of chip.now) seals }
    ensures { FindsBegin seals.head.blocks (chip_of chip.now) seals.head.block result }
{
    let h = seals.head.block;
    let b = seals.head.blocks;
    if (h == 0) & seals.first {
        return None;
    }
    let spare = seals.head.spare();
    if seals.count + 2 == b + usize::from(sealed(chip, spare)) {
        return Some(2);
    }
    if (h != 0) & !seals.first {
        return None;
    }
    if !blank_from(chip, 16 * h + 16, 16 * b) {
        return None;
    }
    Some(if h + 2 < b { b - h } else { 2 })
}

// The next place of block h: after the last of its places that isn't blank.
pub fn find_next(chip: &[u8], h: usize) -> usize
    requires { 4096 * h + 4096 ≤ length chip.now }
    ensures within { result ≤ 15 }
    ensures right { result ≡ next_to (chip_of chip.now) h 15 }
{
    for j in (0..ring_log::PLACES).rev() {
        if !chip::blank_at(chip, 16 * h + j) {
            return j + 1;
        }
    }
    0
}
