// The history that document 03 works by hand in section 4, with every cut. B = 4: put a = 1, put a = 2, delete a, put b = 9, and then puts and deletes of
// other keys, until each block was erased at least once: the calls are the lines of the file stdin. For each operation on the chip, the history is run from
// a blank chip with the power failing at that operation; the store is started again, and its map must be the one before the interrupted call or the one after
// it. Then the history is run to its end. Second cuts: after the start that follows such a cut, the interrupted call is made again with the power failing at
// each of its operations in turn.
#![tactic(auto)]

use calls::Bench;
use cutting::{Found, LONG, Steps};
use std::{fmt, io};
use trying::{NOISES, Noise};

// How a history went: nothing was cut; the map was the one before the call that was cut, or the one after it; or something went wrong.
#[derive(Clone, Copy)]
enum Outcome {
    Uncut,
    Before,
    After,
    Wrong,
}

impl Outcome {
    // What was found after the first cut, and after the last; whether the history then ended right. What is found in the end is the map of before, or the one
    // after the call that was cut.
    fn of(end: usize, first: Found, last: Found, right: bool) -> Self {
        if last.map < first.map {
            Outcome::Wrong
        } else if first.call < last.call || end <= last.call {
            Outcome::Uncut
        } else if !right {
            Outcome::Wrong
        } else if last.map == last.call {
            Outcome::Before
        } else {
            Outcome::After
        }
    }
}

// How many went so.
#[derive(Default, Drop)]
struct Outcomes {
    before: u64,
    after: u64,
    wrong: u64,
}

impl Outcomes {
    fn add(&mut self, outcome: Outcome) {
        let n = match outcome {
            Outcome::Uncut => return,
            Outcome::Before => &mut self.before,
            Outcome::After => &mut self.after,
            Outcome::Wrong => &mut self.wrong,
        };
        *n = n.saturating_add(1);
    }
}

impl fmt::Display for Outcomes {
    fn fmt<W: fmt::Write>(&self, f: &mut fmt::Formatter<W>) -> fmt::Result {
        let Outcomes {
            before,
            after,
            wrong,
        } = self;
        write!(
            f,
            "as before the call {before}, as after it {after}, wrong {wrong}"
        )
    }
}

// ---- one cut, or two

// A history, what it is run on, and the noises of the first cut and of the second.
#[derive(Drop)]
struct Trial<'a> {
    history: Steps<'a>,
    bench: Bench<'a>,
    first: &'a [u8; 4096],
    second: &'a [u8; 4096],
}

impl Trial<'_> {
    // The history is run from there to its end, with power that stays. Whether the map is right, also after a start.
    fn ends_right(&mut self, from: usize, n: usize) -> bool {
        let found = cutting::script_survive(&self.history, from, n, &mut self.bench, LONG);
        let ended = cutting::script_ended(&self.history, &mut self.bench);
        ended && found.is_some_and(|found| found.map == self.history.count)
    }

    // The history on a blank chip, with the power going at operation t.
    fn cut_first(&mut self, t: u64) -> Option<Found> {
        self.bench.chip.fill(255);
        self.bench.work.fill(0);
        self.bench.noise = self.first;
        cutting::script_survive(&self.history, 0, 0, &mut self.bench, t)
    }

    // How the history goes so.
    fn cut_once(&mut self, t: u64) -> Outcome {
        let Some(found) = self.cut_first(t) else {
            return Outcome::Wrong;
        };
        let right = self.ends_right(found.map, found.map);
        Outcome::of(self.history.count, found, found, right)
    }

    // The same; after a start the call is made again, with the power going at its operation s.
    fn cut_twice(&mut self, t: u64, s: u64) -> Outcome {
        let Some(first) = self.cut_first(t) else {
            return Outcome::Wrong;
        };
        self.bench.noise = self.second;
        let Some(last) = cutting::script_survive(
            &self.history,
            first.call,
            first.map,
            &mut self.bench,
            s,
        ) else {
            return Outcome::Wrong;
        };
        let right = self.ends_right(first.call, last.map);
        Outcome::of(self.history.count, first, last, right)
    }

    // Every first cut; or, after each, every second one.
    fn every_cut(&mut self, second: Option<Noise>) -> Outcomes {
        let mut outcomes = Outcomes::default();
        if second.is_none() {
            every(|t| self.cut_once(t), &mut outcomes);
            return outcomes;
        }
        for t in 1..300 {
            every(|s| self.cut_twice(t, s), &mut outcomes);
        }
        outcomes
    }
}

// ---- every cut

// The power goes at each operation in turn, until nothing is cut. A call that is always cut is wrong.
fn every<F: FnMut(u64) -> Outcome>(mut cut: F, outcomes: &mut Outcomes)
    requires { F.IsAlwaysCallable cut }
{
    for t in 1..LONG {
        let outcome = cut(t);
        if matches!(outcome, Outcome::Uncut) {
            return;
        }
        outcomes.add(outcome);
    }
    outcomes.add(Outcome::Wrong);
}

// Every cut with one noise; or every second cut with the second noise after every first one.
fn try_noises(
    rt: &impl Print,
    history: Steps,
    first: Noise,
    second: Option<Noise>,
) -> io::Result<()> {
    print!(rt; "noise {first}")?;
    if let Some(second) = second {
        print!(rt; ", then {second}")?;
    }
    let mut chip = [255u8; 16384];
    let mut work = [0u32; 80];
    let mut fuse = LONG;
    let mut first_noise = [0u8; 4096];
    calls::fill_noise(first, &mut first_noise);
    let mut second_noise = [0u8; 4096];
    calls::fill_noise(second.unwrap_or(first), &mut second_noise);
    let mut trial = Trial {
        history,
        bench: Bench {
            chip: &mut chip,
            work: &mut work,
            fuse: &mut fuse,
            noise: &first_noise,
        },
        first: &first_noise,
        second: &second_noise,
    };
    println!(rt; ": {}", trial.every_cut(second))
}

// Each noise, alone or with that second one.
fn try_each(rt: &impl Print, history: Steps, second: Option<Noise>) -> io::Result<()> {
    for first in NOISES {
        try_noises(rt, history, first, second)?;
    }
    Ok(())
}

fn main(rt: HostRuntime) -> io::Result<()> {
    let script = trying::input(&rt)?;
    let history = cutting::script_history(&script);
    try_each(&rt, history, None)?;
    for second in NOISES {
        try_each(&rt, history, Some(second))?;
    }
    Ok(())
}
