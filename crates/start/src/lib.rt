// Start (document 01, section 3): the ring is found by its seals (the crate `ring`), and its log replayed into the index. It writes nothing to the chip, and
// requires nothing of its caller. How it ends is said in specs/Started.antt.
#![tactic(auto)]

ghost use Rattle.std.specs.Prelude.{◌≡◌, ◌≤◌, ◌<◌, ◌*◌, ◌+◌, ◌-◌, ◌%◌, length, take, get_or};
ghost use Rattle.ring_log.specs.Log.{pages};
ghost use Rattle.ring_log.specs.Ring.{chip_of, table_at, most_blocks};
ghost use Rattle.lent.specs.Area.{blocks_of, Sized};
ghost use Rattle.lent.specs.Ended.{answer_of};
ghost use Rattle.ring.specs.Seals.{Begins};
ghost use Rattle.start.specs.Least.{blocks_after, log_place_of, least_of};
ghost use Rattle.start.specs.Replay.{Replays, ReplaysTo, Readies};
ghost use Rattle.start.specs.Started.{StartEnds};

use lent::{Refusal, Standing};
use record::Kind;
use ring_log::Head;

// What page p says is replayed. Answers the number of keys, which stands beside a slice that is lent (no heap) and longer.
fn replay_page(chip: &[u8], index: &mut [u32], n: usize, p: usize) -> usize
    requires { (256 * p + 256 ≤ length chip.now) × (p < 16 * most_blocks) × (n < length index.old) }
    ensures within { result ≤ n + 1 }
    ensures right { Replays chip.now p (take n index.old) (take result index.new) }
{
    let page = chip::page_at(chip, p);
    let Some(kind) = record::kind_of(&page) else {
        return n;
    };
    let found = index::find(chip, &index[..n], record::key_on(&page));
    match kind {
        Kind::Value => index::put_in(index, n, found, p as u32),
        Kind::Note => index::take_out(index, n, found),
    }
}

// What the places of block x say is replayed.
fn replay_block(chip: &[u8], index: &mut [u32], n0: usize, x: usize) -> usize
    requires { (4096 * x + 4096 ≤ length chip.now) × (x < most_blocks) × (n0 + 15 ≤ length index.old) }
    ensures within { result ≤ n0 + 15 }
    ensures right { ReplaysTo chip.now x 15 (take n0 index.old) (take result index.new) }
{
    let mut n = n0;
    for j in 0..ring_log::PLACES {
        n = replay_page(chip, index, n, 16 * x + j);
    }
    n
}

// The log, from where it begins to the head, is replayed into the index.
fn replay(chip: &[u8], index: &mut [u32], head: Head, begin: usize) -> usize
    requires sized { (4 ≤ head.blocks) × (head.blocks ≤ most_blocks) × (length chip.now ≡ 4096 * head.blocks) × (head.block < head.blocks) × (16 * head.blocks ≤ length index.old) }
    requires begins { Begins head.blocks (chip_of chip.now) head.block begin }
    ensures within { result ≤ 15 * (head.blocks - 1) }
    ensures right { take result index.new ≡ pages head.blocks (table_at head.blocks (chip_of chip.now) head.block) }
{
    let mut n = 0;
    for k in begin..=head.blocks {
        n = replay_block(chip, index, n, head.after(k));
    }
    n
}

// How many blocks after block t block x comes, in a ring of b.
#[tactic(auto, using(crate::proofs::Cursor::after_below, crate::proofs::Cursor::after_above))]
fn blocks_after(t: u32, b: u32, x: u32) -> u32
    requires { (t < b) × (b ≤ most_blocks) }
    ensures right { result ≡ blocks_after t b x }
    ensures small { result ≤ x + b }
{
    if x < t { x + b - t } else { x - t }
}

// The log place of page q, where block t is the oldest.
fn log_place(t: u32, b: u32, q: u32) -> u32
    requires { (t < b) × (b ≤ most_blocks) }
    ensures { result ≡ log_place_of t b q }
{
    ring_log::RECORDS as u32 * blocks_after(t, b, q / 16) + q % 16
}

// The least log place of the entries; `end` if there is none.
fn least(index: &[u32], head: Head, end: u32) -> u32
    requires { (head.block < head.blocks) × (4 ≤ head.blocks) × (head.blocks ≤ most_blocks) }
    ensures { result ≡ least_of ((head.block + 2) % head.blocks) head.blocks end index.now (length index.now) }
{
    let t = head.oldest() as u32;
    let b = head.blocks as u32;
    index.iter().fold(end, |p, q| p.min(log_place(t, b, *q)))
}

// The area is made ready for a head.
fn make_ready(chip: &[u8], work: &mut [u32], head: Head, begin: usize) -> Result<usize, Refusal>
    requires sized { Sized chip.now work.old × (head.blocks ≡ blocks_of chip.now) × (head.block < head.blocks) × (get_or work.old 0 0 ≡ 0) }
    requires begins { Begins head.blocks (chip_of chip.now) head.block begin }
    ensures { Readies chip.now head.block work.new (answer_of result) }
{
    let next = ring::find_next(chip, head.block);
    let n = replay(chip, &mut work[lent::INDEX..], head, begin);
    if ring_log::room(head.blocks) < n {
        return Err(Refusal::NotStarted);
    }
    let end = ring_log::RECORDS * (head.blocks - 2) + next;
    let passed = least(&work[lent::INDEX..lent::INDEX + n], head, end as u32);
    let standing = Standing {
        head: head.block as u32,
        next: next as u32,
        keys: n as u32,
        passed,
    };
    lent::note_down(work, standing);
    work[lent::MARK] = lent::READY;
    Ok(0)
}

// Reads the chip and makes the store ready; the map is the one that was there. It writes nothing to the chip.
pub fn start(chip: &[u8], work: &mut [u32], fuse: &u64) -> Result<usize, Refusal>
    ensures { StartEnds chip.now fuse.now work.old work.new (answer_of result) }
{
    let b = lent::blocks(chip, work)?;
    if *fuse == 0 {
        return Err(Refusal::PowerGone);
    }
    work[lent::MARK] = lent::UNREADY;
    let seals = ring::look_at_seals(chip, b);
    let Some(begin) = ring::find_begin(chip, seals) else {
        return Err(Refusal::NotStarted);
    };
    make_ready(chip, work, seals.head, begin)
}
