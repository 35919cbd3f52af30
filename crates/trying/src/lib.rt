// What the programs try_* have in common: the lines and words of a script, the noises that they cut with, pages of the old form, which the store reads and no
// longer writes, and how they print.
#![tactic(auto)]

mod noise;
mod words;

ghost use Rattle.std.specs.Prelude.{◌≡◌, ◌<◌, ◌≤◌, length};

pub use noise::{NOISES, Noise, Unnamed};
use page::Page;
use record::Kind;
use std::io::Read;
use std::{fmt, io};
pub use words::{LONGEST, Text, bytes, count_lines, ends_line, lines, numeral, without_end, word};

// The most bytes of standard input that a program reads.
const MOST_INPUT: u64 = 65536;

// Standard input, or as much of it as is read.
pub fn input(rt: &(impl Input + AllocGlobal)) -> io::Result<Vec<u8>> {
    let mut script = Vec::new(rt.alloc());
    rt.reader().take(MOST_INPUT).read_to_end(&mut script)?;
    Ok(script)
}

// The page of the new form whose payload stands in the first 254 bytes of the buffer: behind it comes the number of its 0 bits.
#[tactic(auto, using(page::proofs::Filling::two_zeros))]
pub fn new_page(payload: Page) -> Page {
    let mut page = payload;
    page[254] = 0;
    page[255] = 0;
    page::fill(&mut page, 254);
    page
}

// The page of the old form whose payload stands in the first half of the buffer, but for byte 0, which is 1. Behind it comes the flipped copy.
pub fn old_page(payload: &Page) -> Page {
    let mut page = *payload;
    page[0] = 1;
    for i in 0..128 {
        page[128 + i] = !page[i];
    }
    page
}

// How many of sixteen bytes the two differ in: counted in bytes, it takes a few instructions.
fn unlike_of_sixteen(before: &[u8; 16], after: &[u8; 16]) -> u8
    ensures { result ≤ 16 }
{
    let mut n = 0;
    for i in 0..16 {
        n += u8::from(before[i] != after[i]);
    }
    n
}

// How many bytes the two differ in. (By an index, and sixteen at a time: a zip takes three times as long.)
fn unlike(before: &[u8], after: &[u8]) -> u64
    requires { length before.now ≡ length after.now }
    ensures { result ≤ length before.now }
{
    let (blocks, rest) = before.as_chunks::<16>();
    let (blocks_after, rest_after) = after.as_chunks::<16>();
    let mut n = 0;
    for i in 0..blocks.len() {
        n += u64::from(unlike_of_sixteen(&blocks[i], &blocks_after[i]));
    }
    for i in 0..rest.len() {
        n += u64::from(rest[i] != rest_after[i]);
    }
    n
}

// How many bytes outside [from, to) the two chips differ in.
pub fn changed(before: &[u8], after: &[u8], from: usize, to: usize) -> u64 {
    let n = before.len().min(after.len());
    let head = from.min(n);
    let tail = from.max(to).min(n);
    unlike(&before[..head], &after[..head]) + unlike(&before[tail..n], &after[tail..n])
}

// What a page says: a value, a note, or nothing.
#[derive(Clone, Copy)]
pub struct Says(pub Option<Kind>);

impl fmt::Display for Says {
    fn fmt<W: fmt::Write>(&self, f: &mut fmt::Formatter<W>) -> fmt::Result {
        f.write_str(match self.0 {
            Some(Kind::Value) => "a value",
            Some(Kind::Note) => "a note",
            None => "nothing",
        })
    }
}

// ---- a report of 512 numbers, 64 of each kind. Its rows are text, a row a line: the kind, the slot of the first number, how many numbers, and the name.

// KIND SLOT N NAME, the name from column 8 on. (The tally is an array with no length beside it, since a row may run on into the next kind; a number becomes an
// index by `as`, which the check proves whole, where TryFrom would have a failure that can't happen.)
fn print_row(rt: &impl Print, row: &[u8], tally: &[u64; 512]) -> io::Result<()> {
    let Some(name) = row.get(8..) else {
        return Ok(());
    };
    rt.write_all(name)?;
    let kind = (numeral(row, 0) % 8) as usize;
    let from = 64 * kind + (numeral(row, 1) % 64) as usize;
    for i in from..from + numeral(row, 2) as usize {
        print!(rt; " {}", tally[i % 512])?;
    }
    println!(rt)
}

// Writes the rows, each with its numbers.
pub fn report(rt: &impl Print, rows: &[u8], tally: &[u64; 512]) -> io::Result<()> {
    for row in rows.split(|b| *b == b'\n') {
        print_row(rt, row, tally)?;
    }
    Ok(())
}

#[cfg(test)]
mod tests {
    use super::*;
    use std::test::Fail;

    #[test]
    fn changes_are_counted(rt: HostRuntime) -> Result<(), Fail> {
        assert_eq!(rt; changed(b"abcd", b"xbyz", 0, 0), 3);
        assert_eq!(rt; changed(b"abcd", b"xbyz", 1, 3), 2);
        assert_eq!(rt; changed(b"abcd", b"xbyz", 3, 1), 3);
        assert_eq!(rt; changed(b"abcd", b"xb", 1, 9), 1);
        assert_eq!(rt; changed(b"ab", b"xbyz", 9, 0), 1);
        Ok(())
    }

    #[test]
    fn a_line_is_read(rt: HostRuntime) -> Result<(), Fail> {
        let script = b"put a%20b v*3\n\nget";
        let mut lines = script.split_inclusive(ends_line).map(without_end);
        let line = lines.next().unwrap_or(&[]);
        assert_eq!(rt; bytes(line, 1).as_slice(), b"a b".as_slice());
        assert_eq!(rt; bytes(line, 2).as_slice(), b"vvv".as_slice());
        assert_eq!(rt; lines.next(), Some(b"".as_slice()));
        let line = lines.next().unwrap_or(b"put a");
        assert_eq!(rt; bytes(line, 1).as_slice().len(), 0);
        assert!(rt; lines.next().is_none());
        assert_eq!(rt; count_lines(script), 3);
        Ok(())
    }

    #[test]
    fn lines_are_kept(rt: HostRuntime) -> Result<(), Fail> {
        let script = lines(rt.alloc(), b"put a%20b v*3\n\nget")?;
        assert_eq!(rt; script.len(), 3);
        assert_eq!(rt; script[0], b"put a%20b v*3".as_slice());
        assert_eq!(rt; script[1].len(), 0);
        assert_eq!(rt; script[2], b"get".as_slice());
        assert_eq!(rt; lines(rt.alloc(), b"")?.len(), 0);
        Ok(())
    }
}
