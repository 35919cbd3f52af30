// Both sides of each limit of document 01: its section 5 line by line, the refusals of section 3, and of section 6 the danger that rubbish takes the room. Then
// document 03, section 4, step by step.
// B = 4,096 and 4,097 are left out: no chip of more than five blocks is lent.
//
// The cases are a script, the file stdin: text that has a line for each step. Each line is printed with what it is answered.
//
//     # ..                a heading
//     lend N BYTE M       from here on a chip of N bytes is lent, each of them that byte, and a work area of M words, with power that stays
//     fuse N              the power goes during the Nth erase or write from here on; 0: it has gone
//     noise zeros         what a cut leaves (document 03, section 1); or `ones`, `mixed`; or `forged`, the page of `put a 2` on every page of a block,
//                         or `kept`, that page where it stood and ones elsewhere
//     start, format, put KEY VALUE, delete KEY, count
//     get KEY N           with a buffer of N bytes, which is printed; its bytes were dots
//     puts KEY N          N puts of the key, with the values 0, 1, 2, ..
//
// In a key or a value `v*221` stands for 221 times v, and `%7f` for the byte 0x7F.
#![tactic(auto)]

use calls::{Bench, Call};
use lent::Refusal;
use std::io;
use trying::{LONGEST, Noise, Text};

// What a line of the script says.
#[derive(Clone, Copy)]
enum Line {
    Heading,
    Lend,
    Fuse(u64),
    Noise(Noise),
    Count,
    Get(Text, usize),
    // no call where the line names none: it is done
    Call(Option<Call>),
}

impl Line {
    fn read(line: &[u8]) -> Line {
        match trying::word(line, 0) {
            b"" | b"#" => Line::Heading,
            b"lend" => Line::Lend,
            b"fuse" => Line::Fuse(trying::numeral(line, 1)),
            b"noise" => Line::Noise(Noise::try_from(trying::word(line, 1)).unwrap_or(Noise::Kept)),
            b"count" => Line::Count,
            b"get" => Line::Get(trying::bytes(line, 1), trying::numeral(line, 2) as usize),
            _ => Line::Call(Call::read(line)),
        }
    }
}

// At most five blocks and 96 words, of which the first so many are lent; and what cuts the calls.
#[derive(Drop)]
struct Store {
    chip: [u8; 20480],
    bytes: usize,
    work: [u32; 96],
    words: usize,
    fuse: u64,
    noise: [u8; 4096],
}

impl Store {
    // lend N BYTE M
    fn lend(&mut self, line: &[u8]) {
        self.bytes = trying::numeral(line, 1) as usize;
        self.words = trying::numeral(line, 3) as usize;
        self.chip = [(trying::numeral(line, 2) % 256) as u8; 20480];
        self.work = [0; 96];
        self.fuse = 1000000000;
        self.noise = [0; 4096];
    }
}

// The answer of a call that answers no number.
fn say(rt: &impl Print, answer: Result<usize, Refusal>) -> io::Result<()> {
    match answer {
        Ok(_) => rt.write_all(b": done"),
        Err(refusal) => print!(rt; ": refused {}", refusal.number()),
    }
}

// The answer of get or count.
fn tell(rt: &impl Print, answer: Result<usize, Refusal>) -> io::Result<()> {
    match answer {
        Ok(n) => print!(rt; ": answers {n}"),
        Err(_) => say(rt, answer),
    }
}

// get KEY N: the buffer is printed whole, so that one sees what was left as it was.
fn tell_get(rt: &impl Print, bench: &Bench<'_>, key: &[u8], n: usize) -> io::Result<()> {
    let mut dots = [b'.'; LONGEST];
    let buffer = &mut dots[..n.min(LONGEST)];
    let answer = bench.get(key, buffer);
    tell(rt, answer)?;
    rt.write_all(b", buffer '")?;
    rt.write_all(buffer)?;
    rt.write_all(b"'")
}

// What a line does that lends nothing and sets no noise, and what it is answered.
fn play_line(rt: &impl Print, line: &Line, bench: &mut Bench<'_>) -> io::Result<()> {
    match line {
        Line::Heading | Line::Lend | Line::Noise(_) => Ok(()),
        Line::Fuse(n) => {
            *bench.fuse = *n;
            Ok(())
        }
        Line::Count => tell(rt, bench.count()),
        Line::Get(key, n) => tell_get(rt, bench, key.as_slice(), *n),
        Line::Call(Some(call)) => say(rt, bench.make(call)),
        Line::Call(None) => say(rt, Ok(0)),
    }
}

// Plays the script, each line printed with what it is answered. The first line lends a chip, whatever it says.
fn play(rt: &impl Print, script: &[u8]) -> io::Result<()> {
    let mut store = Store {
        chip: [0; 20480],
        bytes: 0,
        work: [0; 96],
        words: 0,
        fuse: 0,
        noise: [0; 4096],
    };
    let lines = script
        .split_inclusive(trying::ends_line)
        .map(trying::without_end);
    for (i, line) in lines.enumerate() {
        rt.write_all(line)?;
        match Line::read(line) {
            _ if i == 0 => store.lend(line),
            Line::Lend => store.lend(line),
            Line::Noise(which) => calls::fill_noise(which, &mut store.noise),
            said => {
                let n = store.bytes.min(20480);
                let m = store.words.min(96);
                let mut bench = Bench {
                    chip: &mut store.chip[..n],
                    work: &mut store.work[..m],
                    fuse: &mut store.fuse,
                    noise: &store.noise,
                };
                play_line(rt, &said, &mut bench)?;
            }
        }
        rt.write_all(b"\n")?;
    }
    Ok(())
}

fn main(rt: HostRuntime) -> io::Result<()> {
    let script = trying::input(&rt)?;
    play(&rt, &script)
}
