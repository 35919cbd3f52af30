// The chip (document 01, section 1) and its fault script (docs/FAULTS.md): read, erase a block, write a page, whole or cut short.
// This is the only crate that looks at the chip's bytes, by `read`, or changes them, by `erase` and `write`: on a float a driver stands in their place
// (docs/PORT-OTHER.md). What an operation leaves is said in specs/Chip.antt, what a run of them did in specs/Play.antt.
// `fuse` is the number of the fault script: 0, the power is gone; 1, it goes during the next operation; more, it stays on for that one.
#![tactic(auto)]

ghost use Rattle.std.specs.Prelude.{◌≡◌, true, ◌+◌, ◌-◌, ◌*◌, ◌≤◌, length, take, drop, replicate};
ghost use Rattle.page.specs.Page.{each};
ghost use Rattle.page.specs.Look.{look_of};
ghost use Rattle.chip.specs.Lent.{Same, Lit, Erases, Writes};
ghost use Rattle.chip.specs.Chip.{page_at, beginning, blank_at, turned, power, erased, written};

use page::{Look, Page};

// What ends a call before its end: the power went, or a page that was to be written isn't blank.
#[derive(Clone, Copy)]
pub enum Halt {
    Dark,
    Dirty,
}

// What a call that may change the chip is lent of it: its bytes, the number of the fault script, and what a cut leaves. They are changed here alone.
#[derive(Drop)]
pub struct Chip<'a> {
    bytes: &'a mut [u8],
    fuse: &'a mut u64,
    noise: &'a [u8; 4096],
}

impl<'a> Chip<'a> {
    pub fn new(chip: &'a mut [u8], fuse: &'a mut u64, noise: &'a [u8; 4096]) -> Chip<'a>
        ensures bytes { (result.bytes.ghost_name ≡ chip.entry.ghost_name) × (result.bytes.now ≡ chip.old) }
        ensures fuse { (result.fuse.ghost_name ≡ fuse.entry.ghost_name) × (result.fuse.now ≡ fuse.old) }
        ensures noise { result.noise.now ≡ noise.now }
    {
        Chip {
            bytes: chip,
            fuse,
            noise,
        }
    }

    // Its bytes, to be read.
    pub fn bytes(&self) -> &[u8]
        ensures { result.now ≡ self.now.bytes.now }
    {
        self.bytes
    }

    // The power is on, or it has gone.
    fn lit(&self) -> Result<(), Halt>
        ensures { Lit self.now.fuse.now result }
    {
        if *self.fuse == 0 {
            return Err(Halt::Dark);
        }
        Ok(())
    }

    // Erases block b.
    pub fn erase(&mut self, b: usize) -> Result<(), Halt>
        requires { 4096 * b + 4096 ≤ length self.old.bytes.now }
        ensures same { Same self.old self.new }
        ensures right { Erases b self.old.noise.now self.old.bytes.now self.old.fuse.now self.new.bytes.now self.new.fuse.now result }
    {
        erase(self.bytes, b, self.fuse, self.noise);
        self.lit()
    }

    // Writes page p, if it is blank.
    pub fn write(&mut self, p: usize, new: &Page) -> Result<(), Halt>
        requires { 256 * p + 256 ≤ length self.old.bytes.now }
        ensures same { Same self.old self.new }
        ensures right { Writes p new.now self.old.noise.now self.old.bytes.now self.old.fuse.now self.new.bytes.now self.new.fuse.now result }
    {
        if !blank_at(self.bytes(), p) {
            return Err(Halt::Dirty);
        }
        write(self.bytes, p, new, self.fuse, self.noise);
        self.lit()
    }
}

// The bytes of the chip from byte `at` on, as many as `to` has.
pub fn read(chip: &[u8], at: usize, to: &mut [u8])
    requires { at + length to.old ≤ length chip.now }
    ensures { to.new ≡ take (length to.old) (drop at chip.now) }
{
    // no copy_from_slice: it is called, not taken in, and a search in the index takes half as many instructions again
    for i in 0..to.len() {
        to[i] = chip[at + i];
    }
}

// N bytes of the chip, from byte `at` on.
fn bytes_at<const N: usize>(chip: &[u8], at: usize) -> [u8; N]
    requires { at + N ≤ length chip.now }
    ensures { result ≡ take N (drop at chip.now) }
{
    let mut bytes = [0u8; N];
    read(chip, at, &mut bytes);
    bytes
}

// The bytes of page p. (That it lies within the chip, each of these asks: a chip's size is known when it is lent, and no type can have it.)
#[tactic(auto, unfolding(crate::specs::Chip::page_at))]
pub fn page_at(chip: &[u8], p: usize) -> Page
    requires { 256 * p + 256 ≤ length chip.now }
    ensures { result ≡ page_at chip.now p }
{
    bytes_at::<256>(chip, 256 * p)
}

// The beginning of page p, its first 32 bytes: a search needs no more.
pub fn beginning_at(chip: &[u8], p: usize) -> [u8; 32]
    requires { 256 * p + 256 ≤ length chip.now }
    ensures { result ≡ beginning (page_at chip.now p) }
{
    bytes_at::<32>(chip, 256 * p)
}

// Whether page p is blank, so that it may be written.
#[tactic(auto, unfolding(crate::specs::Chip::blank_at))]
pub fn blank_at(chip: &[u8], p: usize) -> bool
    requires { 256 * p + 256 ≤ length chip.now }
    ensures { result ≡ blank_at chip.now p }
{
    let page = page_at(chip, p);
    page::is_blank(&page)
}

// What page p is: blank, sound or spoilt.
pub fn look_at(chip: &[u8], p: usize) -> Look
    requires { 256 * p + 256 ≤ length chip.now }
    ensures { result ≡ look_of (page_at chip.now p) }
{
    let page = page_at(chip, p);
    page::look_at(&page)
}

// The byte y laid over x: bits that are 1 in y become 1, or those that are 0 there become 0. (`set` is a bool, and no closure in its place: what a write
// leaves is said by `turned` of specs/Chip.antt, and a closure would have to promise it first.)
fn laid(x: u8, y: u8, set: bool) -> u8
    ensures { result ≡ turned set x y }
{
    if set { x | y } else { x & y }
}

// The bytes of src are laid over those of dst.
fn lay(dst: &mut [u8], src: &[u8], set: bool)
    requires { length dst.old ≤ length src.now }
    ensures { dst.new ≡ each (turned set) dst.old src.now }
{
    for (i, x) in dst.iter_mut().enumerate() {
        *x = laid(*x, src[i], set);
    }
}

// The bytes of src in the place of those of dst. (No copy_from_slice: with it the library for C would ask for memmove, beside memcpy and memset.)
fn copy_over(dst: &mut [u8], src: &[u8])
    requires { length dst.old ≡ length src.now }
    ensures { dst.new ≡ src.now }
{
    for (i, x) in dst.iter_mut().enumerate() {
        *x = src[i];
    }
}

// Erases block b.
pub fn erase(chip: &mut [u8], b: usize, fuse: &mut u64, noise: &[u8; 4096])
    requires { 4096 * b + 4096 ≤ length chip.old }
    ensures chip_after { chip.new ≡ erased (power fuse.old) noise.now b chip.old }
    ensures fuse_after { fuse.new ≡ fuse.old - 1 }
{
    let f = *fuse;
    if f == 0 {
        return;
    }
    let a = 4096 * b;
    let block = &mut chip[a..a + 4096];
    *fuse = f - 1;
    // cut short, any bytes may stand there: those of the noise
    if f == 1 {
        copy_over(block, noise);
    } else {
        block.fill(255);
    }
}

// Writes page p, which is blank: by the maker's rules no other page may be written.
pub fn write(chip: &mut [u8], p: usize, new: &Page, fuse: &mut u64, noise: &[u8; 4096])
    requires sized { 256 * p + 256 ≤ length chip.old }
    requires blank { blank_at chip.old p ≡ true }
    ensures chip_after { chip.new ≡ written (power fuse.old) noise.now p new.now chip.old }
    ensures fuse_after { fuse.new ≡ fuse.old - 1 }
{
    let f = *fuse;
    if f == 0 {
        return;
    }
    let a = 256 * p;
    let page = &mut chip[a..a + 256];
    *fuse = f - 1;
    lay(page, new, false);
    if f == 1 {
        lay(page, noise, true);
    }
}
