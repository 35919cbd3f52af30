// Erase and write under the fault scripts 0 (the power is gone), 1 (it goes during the operation) and 2 (it stays), each with noise of all zeros,
// of all ones, mixed, and forged: a block full of sound pages. For each: the page's first byte and its last two, the sums of the page's halves, what the
// page is, what is left of the script, and how many bytes elsewhere changed.
#![tactic(auto)]

ghost use Rattle.std.specs.Prelude.{◌≡◌, ◌≤◌, length};

use chip::{Chip, Halt};
use page::Page;
use std::io;
use std::ops::Range;
use trying::{NOISES, Noise, Says};

// What the fault scripts cut.
#[derive(Clone, Copy)]
enum Operation {
    Write,
    Erase,
}

impl Operation {
    fn run(self, chip: &mut Chip<'_>) -> Result<(), Halt>
        requires { length chip.old.bytes.now ≡ 8192 }
    {
        match self {
            Operation::Write => chip.write(2, &value(b"new")),
            Operation::Erase => chip.erase(0),
        }
    }

    fn name(self) -> &'static str {
        match self {
            Operation::Write => "write",
            Operation::Erase => "erase",
        }
    }

    // The page that is shown after it.
    fn page(self) -> usize
        ensures { result ≤ 2 }
    {
        match self {
            Operation::Write => 2,
            Operation::Erase => 1,
        }
    }

    // The bytes that it may change.
    fn reach(self) -> Range<usize> {
        match self {
            Operation::Write => 512..768,
            Operation::Erase => 0..4096,
        }
    }
}

// What is printed of a noise.
fn title(noise: Noise) -> &'static str {
    match noise {
        Noise::Zeros => "all zeros:",
        Noise::Ones => "all ones: ",
        Noise::Mixed => "mixed:    ",
        Noise::Forged => "forged:   ",
        Noise::Kept => "kept:     ",
    }
}

// The sum of the bytes of half a page, so that no byte of it goes untold.
fn sum(half: &[u8]) -> u64
    requires { length half.now ≤ 128 }
{
    half.iter().map(|b| u64::from(*b)).sum()
}

// The first byte and the last two, the sums of its halves, and what it is.
fn print_page(rt: &impl Print, page: &Page) -> io::Result<()> {
    print!(rt; " {:02x} {:02x}{:02x}", page[0], page[254], page[255])?;
    print!(rt; ", sums {} {}", sum(&page[..128]), sum(&page[128..]))?;
    let blank = if page::is_blank(page) { ", blank" } else { "" };
    let sound = if page::is_sound(page) { ", sound" } else { "" };
    print!(rt; "{blank}{sound}, says {}", Says(record::kind_of(page)))
}

// The page of a value of the key `key`.
fn value(value: &[u8]) -> Page
    requires { length value.now ≤ 96 }
{
    record::encode(false, b"key", value)
}

// The chip has a value on page 1 and on page 17, and is blank else.
fn lay_out(chip: &mut Chip<'_>) -> Result<(), Halt>
    requires { length chip.old.bytes.now ≡ 8192 }
{
    chip.erase(0)?;
    chip.erase(1)?;
    chip.write(1, &value(b"old"))?;
    chip.write(17, &value(b"other"))
}

// Such a chip, of two blocks. The power stays on, so that nothing halts. (try_pages has a twin of it, of another size and with another writer: one function of
// both would take a const and a closure for four lines.)
fn set_up(bytes: &mut [u8; 8192]) {
    let mut fuse = 9;
    let _ = lay_out(&mut Chip::new(bytes, &mut fuse, &[0u8; 4096]));
}

// The operation under a fault script, with a noise, on such a chip, which is then compared with it.
fn try_cut(
    rt: &impl Print,
    before: &[u8; 8192],
    operation: Operation,
    script: u64,
    noise: Noise,
) -> io::Result<()> {
    let mut after = *before;
    let mut fuse = script;
    let left = noise.bytes(&value(b"forged"));
    let _ = operation.run(&mut Chip::new(&mut after, &mut fuse, &left));
    print!(rt;
        "{}, script {script}, noise {}",
        operation.name(),
        title(noise)
    )?;
    print_page(rt, &chip::page_at(&after, operation.page()))?;
    let Range { start, end } = operation.reach();
    let elsewhere = trying::changed(before, &after, start, end);
    println!(rt; ", left of the script {fuse}, changed elsewhere {elsewhere}")
}

fn main(rt: HostRuntime) -> io::Result<()> {
    let mut before = [0u8; 8192];
    set_up(&mut before);
    for noise in &NOISES[..4] {
        for script in 0..3 {
            try_cut(&rt, &before, Operation::Write, script, *noise)?;
            try_cut(&rt, &before, Operation::Erase, script, *noise)?;
        }
    }
    Ok(())
}
