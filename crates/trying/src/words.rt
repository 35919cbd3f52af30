// Text in lines, and lines in words.
ghost use Rattle.std.specs.Prelude.{◌≡◌, ◌<◌, ◌≤◌, length, IfOk, vec_len};
ghost use Rattle.trying.specs.Words.{spelt};

use std::alloc::{AllocError, Global};

// The most bytes of a key or a value in a script.
pub const LONGEST: usize = 256;

// Whether the byte ends a line.
pub fn ends_line(b: &u8) -> bool {
    *b == b'\n'
}

// The line, without the byte that ends it. (A text's lines are `text.split_inclusive(ends_line).map(without_end)`, with nothing kept of them.)
pub fn without_end(line: &[u8]) -> &[u8] {
    match line {
        [text @ .., b'\n'] => text,
        _ => line,
    }
}

// How many lines a text has.
pub fn count_lines(text: &[u8]) -> usize
    ensures { result ≤ length text.now }
{
    let mut lines = 0;
    for _ in text.split_inclusive(ends_line) {
        lines += 1;
    }
    lines
}

// The lines of a text, without their ends, as a list, which the programs don't ask for. (No `collect`: that there are no more of them than bytes didn't prove.)
pub fn lines(alloc: Global, text: &[u8]) -> Result<Vec<&[u8]>, AllocError>
    ensures { IfOk result (λ lines. vec_len lines ≤ length text.now) }
{
    let mut lines = Vec::new(alloc);
    for line in text.split_inclusive(ends_line) {
        lines.push(without_end(line))?;
    }
    Ok(lines)
}

// Word k of a line, from 0 on; no bytes where there is none.
pub fn word(line: &[u8], k: usize) -> &[u8] {
    line.split(|b| *b == b' ').nth(k).unwrap_or(&[])
}

// A digit's number; something for any other byte, so that the programs do with any script what they did: std's have none there.
fn digit(b: u8) -> u64
    ensures { result < 16 }
{
    u64::from(b % 16)
}

// The number that stands there in decimal, below 1,000,000,000.
fn decimal(s: &[u8]) -> u64
    ensures { result < 1000000000 }
{
    s.iter().fold(0, |n, b| n % 100000000 * 10 + digit(*b)) % 1000000000
}

// The number that is word k.
pub fn numeral(line: &[u8], k: usize) -> u64
    ensures { result < 1000000000 }
{
    decimal(word(line, k))
}

// A hexadecimal digit's number; something for any other byte.
fn hex(b: u8) -> u8
    ensures { result < 16 }
{
    if b < 64 { b % 16 } else { (b % 8 + 9) % 16 }
}

// The byte that stands first, `%7f` for 0x7F, and what comes after it.
fn first(s: &[u8]) -> Option<(u8, &[u8])> {
    match s {
        [b'%', high, low, rest @ ..] => Some((16 * hex(*high) + hex(*low), rest)),
        [b, rest @ ..] => Some((*b, rest)),
        [] => None,
    }
}

// What a word stands for: the first so many of these bytes.
#[derive(Clone, Copy)]
pub struct Text {
    pub all: [u8; LONGEST],
    pub length: usize,
}

impl Text {
    pub fn as_slice(&self) -> &[u8]
        ensures { result.now ≡ spelt self.now }
    {
        self.all.get(..self.length).unwrap_or(&self.all)
    }
}

// The bytes that stand there, as many as are taken.
fn copy(s: &[u8]) -> Text
    ensures { result.length ≤ LONGEST }
{
    let mut text = Text {
        all: [0; LONGEST],
        length: 0,
    };
    let mut rest = s;
    for i in 0..LONGEST {
        let Some((b, after)) = first(rest) else {
            break;
        };
        text.all[i] = b;
        text.length = i + 1;
        rest = after;
    }
    text
}

// The key or the value that is word k, cut after so many bytes: `v*221` is 221 times v, `%7f` the byte 0x7F, and any other byte itself.
pub fn bytes(line: &[u8], k: usize) -> Text
    ensures { result.length ≤ LONGEST }
{
    match word(line, k) {
        [b, b'*', times @ ..] if !times.is_empty() => {
            let n = LONGEST.min(decimal(times) as usize);
            Text {
                all: [*b; LONGEST],
                length: n,
            }
        }
        s => copy(s),
    }
}
