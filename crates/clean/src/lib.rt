// Cleaning (document 03, section 3): the live values of the oldest block are copied to the spare, one by one, and the index is brought up to each copy.
// Whatever stands in the index and on the chip, no call traps, and no page is written that isn't blank. What each function did is said in specs/Steps.antt.
#![tactic(auto)]

ghost use Rattle.std.specs.Prelude.{◌+◌, ◌*◌, ◌≤◌, ◌<◌, ◌≡◌, length};
ghost use Rattle.chip.specs.Lent.{Same};
ghost use Rattle.ring_log.specs.Ring.{most_blocks};
ghost use Rattle.clean.specs.Ends.{Sane, LiveWithin, Few, elsewhere, unlisted};
ghost use Rattle.clean.specs.Steps.{Judges, Carries, Turns};

use chip::{Chip, Halt};
use page::Page;
use ring_log::Head;

// Where the next record goes: the head, and the place of its block; the cursor, and the looks left to this call.
#[derive(Clone, Copy)]
pub struct Place {
    pub head: Head,
    pub next: usize,
    pub passed: usize,
    pub left: usize,
}

// Whether page q holds a live value: the newest record of its key, by the index. If so, where its entry stands. Of the page the beginning is read, 32 bytes;
// what it says isn't asked: where the index is right, an entry is the page of a value.
pub fn is_live(chip: &[u8], index: &[u32], q: usize) -> Option<usize>
    requires { 256 * q + 256 ≤ length chip.now }
    ensures within { LiveWithin (length index.now) result }
    ensures right { Judges chip.now index.now (length index.now) q result }
{
    let begins = chip::beginning_at(chip, q);
    match index::find(chip, index, record::key_on(&begins)) {
        Ok(j) if index[j] as usize == q => Some(j),
        _ => None,
    }
}

// The page of a live value, whose entry is j, is made anew at place k of block x, and its entry is that page. Answers how many places are used then.
#[tactic(auto, using(crate::proofs::Carries::carry_full))]
pub fn carry(
    chip: &mut Chip<'_>,
    index: &mut [u32],
    x: usize,
    k: usize,
    j: usize,
    page: &Page,
) -> Result<usize, Halt>
    requires sized { (x < most_blocks) × (4096 * x + 4096 ≤ length chip.old.bytes.now) }
    requires entry { j < length index.old }
    ensures same { Same chip.old chip.new }
    ensures right { Carries x k j page.now chip.old.noise.now chip.old.bytes.now chip.old.fuse.now index.old chip.new.bytes.now chip.new.fuse.now index.new result }
    ensures few { Few result }
{
    if ring_log::PLACES <= k {
        return Err(Halt::Dirty);
    }
    let p = 16 * x + k;
    chip.write(p, &record::anew(page))?;
    index[j] = p as u32;
    Ok(k + 1)
}

// Place i of the oldest block is looked at. Its page is read if it is to be copied.
fn look_at(
    chip: &mut Chip<'_>,
    index: &mut [u32],
    head: Head,
    i: usize,
    k: usize,
) -> Result<usize, Halt>
    requires sane { Sane head.blocks chip.old.bytes.now index.old chip.old.noise.now (length index.old) head.block }
    requires places { (i < 15) × (k ≤ 15) }
    ensures same { Same chip.old chip.new }
    ensures right { Turns head.blocks (length index.old) head.block i 1 k chip.old.noise.now chip.old.bytes.now chip.old.fuse.now index.old chip.new.bytes.now chip.new.fuse.now index.new result }
    ensures few { Few result }
{
    let q = 16 * head.oldest() + i;
    match is_live(chip.bytes(), index, q) {
        Some(j) => {
            let page = chip::page_at(chip.bytes(), q);
            carry(chip, index, head.spare(), k, j, &page)
        }
        None => Ok(k),
    }
}

// Whether page p is in another block than x.
fn is_elsewhere(p: u32, x: u32) -> bool
    ensures { result ≡ elsewhere x p }
{
    !(p / 16 == x)
}

// Whether none of these entries is a page of block x. All of them are passed over: so the compiler vectorises the loop.
fn unlisted_run(run: &[u32], x: u32) -> bool
    ensures { result ≡ unlisted x run.now (length run.now) }
{
    let mut ok = true;
    for p in run {
        ok = ok & is_elsewhere(*p, x);
    }
    ok
}

// Whether none of the entries is a page of block x. After a run of 64 that has one none is looked at.
fn is_unlisted(index: &[u32], x: u32) -> bool
    ensures { result ≡ unlisted x index.now (length index.now) }
{
    for run in index.chunks(64) {
        if !unlisted_run(run, x) {
            return false;
        }
    }
    true
}

// The live values of the oldest block are copied to the spare. Of a block that has none by the index nothing is read. Answers how many were copied.
pub fn clean(chip: &mut Chip<'_>, index: &mut [u32], head: Head) -> Result<usize, Halt>
    requires { Sane head.blocks chip.old.bytes.now index.old chip.old.noise.now (length index.old) head.block }
    ensures same { Same chip.old chip.new }
    ensures right { Turns head.blocks (length index.old) head.block 0 15 0 chip.old.noise.now chip.old.bytes.now chip.old.fuse.now index.old chip.new.bytes.now chip.new.fuse.now index.new result }
    ensures few { Few result }
{
    if is_unlisted(index, head.oldest() as u32) {
        return Ok(0);
    }
    let mut k = 0;
    for i in 0..ring_log::PLACES {
        k = look_at(chip, index, head, i, k)?;
    }
    Ok(k)
}
