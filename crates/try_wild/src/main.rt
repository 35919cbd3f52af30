// Random bytes as chips and as work areas, with four blocks. Part 1: chips of four kinds are started, read, changed and started again. Part 2: the work
// area of a sound chip is overwritten, and each call is made on it. What is printed is how often each number was answered, and sums of what was read. The rows
// of the report are the file stdin, each with the kind of chip or area, the slot of its first number, how many numbers it has, and its name.
#![tactic(auto)]

use calls::Bench;
use chance::{ChipKind, Dice, Entries, Heading};
use lent::Refusal;
use std::io;
use tallies::{Part, Slot, Tally, Trial};

// ---- part 1

// How many chips are tried of each kind.
const CHIPS: usize = 200;

const KINDS: [ChipKind; 4] = [
    ChipKind::Bytes,
    ChipKind::Pages,
    ChipKind::Ring,
    ChipKind::FirstRound,
];

fn try_chip(trial: &mut Trial, kind: ChipKind) {
    trial.part = Part::Chips(kind);
    let Trial { bench, dice, .. } = trial;
    chance::make_chip(bench.chip, kind, dice);
    chance::scramble(bench.work, Heading::Wild, Entries::Any, dice);
    if trial.start(Slot::Start).is_ok() {
        trial.use_store();
    }
}

// ---- part 2

// How many work areas are tried of each kind.
const AREAS: usize = 100;

const HEADINGS: [Heading; 2] = [Heading::Tame, Heading::Wild];

const ENTRIES: [Entries; 4] = [Entries::Any, Entries::Near, Entries::Places, Entries::Kept];

// The bytes that a put or a delete changed. Refused with anything but 7 and 8, it must have changed none.
fn judge(trial: &mut Trial, before: &[u8], answer: Result<usize, Refusal>) {
    let n = trying::changed(before, trial.bench.chip, 0, 0);
    trial.add(Slot::BytesChanged, n);
    let may_change = matches!(
        answer,
        Ok(_) | Err(Refusal::PowerGone | Refusal::NotStarted)
    );
    if n != 0 && !may_change {
        trial.tally.add(Part::All, Slot::Spoilt, 1);
    }
}

// The chip's bytes are kept, as many as there is room for.
fn keep(before: &mut [u8], chip: &[u8]) {
    let n = before.len().min(chip.len());
    before[..n].copy_from_slice(&chip[..n]);
}

fn try_changes(trial: &mut Trial) {
    let mut before = [0u8; 16384];
    keep(&mut before, trial.bench.chip);
    let answer = trial.put();
    judge(trial, &before, answer);
    keep(&mut before, trial.bench.chip);
    let answer = trial.delete();
    judge(trial, &before, answer);
}

// Get must leave the buffer as it was from the value's end on.
fn try_get(trial: &mut Trial) {
    let unread = [170u8; 220];
    let mut buffer = unread;
    let key = trial.dice.key();
    let n = trial.get(key, &mut buffer).unwrap_or(0);
    trial.tally.add(
        Part::All,
        Slot::Past,
        trying::changed(&unread, &buffer, 0, n),
    );
}

fn try_count(trial: &mut Trial) {
    let answer = trial.bench.count();
    trial.note(Slot::Count, answer);
    trial.add(Slot::KeysCounted, answer.unwrap_or(0) as u64);
}

// A sound chip, its store started and changed some times.
fn make_store(trial: &mut Trial) {
    trial.part = Part::Stores;
    if let Some(mark) = trial.bench.work.first_mut() {
        *mark = 0;
    }
    let _ = trial.bench.format();
    let _ = trial.start(Slot::Start);
    let times = trial.dice.below(60);
    trial.change_often(times);
}

// The four calls on an area that was overwritten.
fn try_area(trial: &mut Trial, heading: Heading, entries: Entries) {
    make_store(trial);
    trial.part = Part::Areas(heading);
    let Trial { bench, dice, .. } = trial;
    chance::scramble(bench.work, heading, entries, dice);
    try_changes(trial);
    try_get(trial);
    try_count(trial);
    trial.tally.add(Part::All, Slot::Calls, 4);
}

// ---- both parts

fn try_chips(trial: &mut Trial) {
    for i in 0..4 * CHIPS {
        try_chip(trial, KINDS[i % 4]);
    }
}

fn try_areas(trial: &mut Trial) {
    for i in 0..8 * AREAS {
        try_area(trial, HEADINGS[i % 2], ENTRIES[i / 2 % 4]);
    }
}

// Four blocks, a work area for them, and power that no call outlasts.
fn main(rt: HostRuntime) -> io::Result<()> {
    let mut trial = Trial {
        bench: Bench {
            chip: &mut [255u8; 16384],
            work: &mut [0u32; 80],
            fuse: &mut u64::MAX,
            noise: &[0u8; 4096],
        },
        dice: Dice { seed: 1 },
        tally: Tally { numbers: [0; 512] },
        part: Part::All,
    };
    try_chips(&mut trial);
    try_areas(&mut trial);
    let rows = trying::input(&rt)?;
    trying::report(&rt, &rows, &trial.tally.numbers)
}
