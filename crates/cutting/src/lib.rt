// A history, whose calls are the lines of a script, is run with a fuse; after the cut the store is started, and its map must be the one before the call that
// was cut or the one after it.
//
// A place in the history is how many calls stand before it. The first call is the first start, so that 0 is never the place of a map.
#![tactic(auto)]

ghost use Rattle.std.specs.Prelude.{◌≤◌, length, vec_len, IfOk, IfSome};

use calls::{Bench, Call};
use lent::Refusal;
use std::alloc::{AllocError, Global};
use std::array;

// Power for longer than the history lasts.
pub const LONG: u64 = 1000;

// ---- the history

// The steps of a script, a line each: how many they are, and the values that they leave the keys with in the end. (A call is read from its line where it is
// made: a list of them could run out of memory.)
#[derive(Clone, Copy)]
pub struct Steps<'a> {
    script: &'a [u8],
    pub count: usize,
    last: [&'a [u8]; 8],
    ghost within: { count ≤ length script.now },
}

pub fn script_history(script: &[u8]) -> Steps<'_>
    ensures { result.count ≤ length script.now }
{
    let count = trying::count_lines(script);
    Steps {
        script,
        count,
        last: due_values(script, count),
    }
}

impl<'a> Steps<'a> {
    // The line of the step at that place.
    fn line(&self, at: usize) -> &'a [u8] {
        self.script
            .split_inclusive(trying::ends_line)
            .nth(at)
            .map_or(&[], trying::without_end)
    }

    // The values that the first n steps leave the keys with. (The last ones are kept, since every trial ends with them.)
    fn due(&self, n: usize) -> [&'a [u8]; 8] {
        if n == self.count {
            self.last
        } else {
            due_values(self.script, n)
        }
    }
}

// The words of a line's key and of its value; no bytes for none.
fn key_and_value(line: &[u8]) -> (&[u8], &[u8]) {
    let mut words = line.split(|b| *b == b' ').skip(1);
    let key = words.next().unwrap_or(&[]);
    (key, words.next().unwrap_or(&[]))
}

// ---- the map

// The keys that a history's calls may have.
const KEYS: [u8; 8] = *b"abcdefgh";

// The values that the calls of the first n lines leave the keys with; no bytes for none.
fn due_values(script: &[u8], n: usize) -> [&[u8]; 8] {
    let mut due: [&[u8]; 8] = [&[]; 8];
    for line in script.split_inclusive(trying::ends_line).take(n) {
        if let ([key @ b'a'..=b'h'], value) = key_and_value(trying::without_end(line)) {
            due[(*key - b'a') as usize] = value;
        }
    }
    due
}

// Whether get answers the value that is due; or that there is none, where none is.
fn reads(due: &[u8], key: u8, bench: &Bench) -> bool {
    let mut buffer = [0u8; 220];
    match bench.get(&[key], &mut buffer) {
        Ok(n) => n != 0 && buffer.get(..n) == Some(due),
        Err(Refusal::NoValue) => due.is_empty(),
        Err(_) => false,
    }
}

// Whether the map is the one of these values: each key has the one that is due, and there are no others.
fn holds(due: &[&[u8]; 8], bench: &Bench) -> bool {
    let live = due.iter().filter(|value| !value.is_empty()).count();
    bench.count().unwrap_or(0) == live
        && KEYS
            .iter()
            .zip(due)
            .all(|(key, value)| reads(value, *key, bench))
}

// Which of two maps it is, by its place.
fn map_now(steps: &Steps, before: usize, after: usize, bench: &Bench) -> Option<usize>
    requires { (before ≤ steps.now.count) × (after ≤ steps.now.count) }
    ensures { IfSome result (λ map. map ≤ steps.now.count) }
{
    let map = if holds(&steps.due(before), bench) {
        before
    } else if holds(&steps.due(after), bench) {
        after
    } else {
        return None;
    };
    if map == 0 { None } else { Some(map) }
}

// ---- the calls

// The call of a line; a line that has none is done.
fn make(line: &[u8], bench: &mut Bench) -> Result<usize, Refusal> {
    match Call::read(line) {
        Some(call) => bench.make(&call),
        None => Ok(0),
    }
}

// Whether a line has a word for a value. (A delete has none.)
fn has_value(line: &[u8]) -> bool {
    !trying::word(line, 2).is_empty()
}

// Whether the call is answered as it should be: it is done, but for a delete that was made already. (`made` is a truth value, and no kind.)
fn is_answered(line: &[u8], made: bool, bench: &mut Bench) -> bool {
    match make(line, bench) {
        Ok(_) => !made || has_value(line),
        Err(Refusal::NoValue) => made && !has_value(line),
        Err(_) => false,
    }
}

// The calls from there on, on the map of place n, up to the first that isn't answered as it should be. Answers where that is.
fn run(steps: &Steps, from: usize, n: usize, bench: &mut Bench) -> usize
    ensures { result ≤ steps.now.count }
{
    let lines = steps.script.split_inclusive(trying::ends_line);
    for (at, line) in (from..steps.count).zip(lines.skip(from)) {
        if !is_answered(trying::without_end(line), at < n, bench) {
            return at;
        }
    }
    steps.count
}

// The power has gone during that call: it is refused until a start, which is done.
fn recovers(line: &[u8], bench: &mut Bench) -> bool {
    let refused = make(line, bench) == Err(Refusal::PowerGone);
    bench.start().is_ok() && refused
}

// Whether after a start the map is the one after all calls.
pub fn script_ended(steps: &Steps, bench: &mut Bench) -> bool {
    *bench.fuse = LONG;
    bench.start().is_ok() && holds(&steps.last, bench)
}

// ---- a cut

// Which call was cut, by its place; the history's length for none. And of which place the map is that was then found.
#[derive(Clone, Copy)]
pub struct Found {
    pub call: usize,
    pub map: usize,
}

// The calls from there on, on the map of place n, with that power. After a cut the store is started: its map is the one before the cut call or the one after
// it. None if something went wrong.
pub fn script_survive(
    steps: &Steps,
    from: usize,
    n: usize,
    bench: &mut Bench,
    power: u64,
) -> Option<Found>
    ensures { IfSome result (λ found. (found.call ≤ steps.now.count) × (found.map ≤ steps.now.count)) }
{
    *bench.fuse = power;
    let call = run(steps, from, n, bench);
    *bench.fuse = LONG;
    if call == steps.count {
        let map = map_now(steps, call, call, bench)?;
        return Some(Found { call, map });
    }
    if !recovers(steps.line(call), bench) {
        return None;
    }
    let map = map_now(steps, call, call + 1, bench)?;
    Some(Found { call, map })
}

// ---- the same of a list of steps, which the programs don't ask for

// A line of the script: its call, and the words of its key and its value; no bytes for none.
#[derive(Clone, Copy)]
pub struct Step<'a> {
    pub call: Option<Call>,
    pub key: &'a [u8],
    pub value: &'a [u8],
}

fn read_step(line: &[u8]) -> Step<'_> {
    let (key, value) = key_and_value(line);
    Step {
        call: Call::read(line),
        key,
        value,
    }
}

// The steps of a script, a line each, as a list.
pub fn history<'a>(alloc: Global, script: &'a [u8]) -> Result<Vec<Step<'a>>, AllocError>
    ensures { IfOk result (λ steps. vec_len steps ≤ length script.now) }
{
    let lines = trying::lines(alloc, script)?;
    let mut steps = Vec::new(alloc);
    for line in &lines {
        steps.push(read_step(line))?;
    }
    Ok(steps)
}

// The value that these calls leave the key with; no bytes for none.
fn due_value<'a>(done: &[Step<'a>], key: &[u8]) -> &'a [u8] {
    done.iter()
        .rfind(|step| step.key == key)
        .map_or(&[], |step| step.value)
}

// Whether the map is the one after these calls.
fn holds_after(done: &[Step], bench: &Bench) -> bool {
    holds(&array::from_fn(|i| due_value(done, &[KEYS[i]])), bench)
}

// Which of two maps it is, by its place.
fn place_now(steps: &[Step], before: usize, after: usize, bench: &Bench) -> Option<usize>
    requires { (before ≤ length steps.now) × (after ≤ length steps.now) }
    ensures { IfSome result (λ map. map ≤ length steps.now) }
{
    let map = if holds_after(&steps[..before], bench) {
        before
    } else if holds_after(&steps[..after], bench) {
        after
    } else {
        return None;
    };
    if map == 0 { None } else { Some(map) }
}

impl Step<'_> {
    // A line that has no call is done.
    fn make(&self, bench: &mut Bench) -> Result<usize, Refusal> {
        match &self.call {
            Some(call) => bench.make(call),
            None => Ok(0),
        }
    }

    // Whether the call is answered as it should be: it is done, but for a delete that was made already.
    fn is_answered(&self, made: bool, bench: &mut Bench) -> bool {
        match self.make(bench) {
            Ok(_) => !made || !self.value.is_empty(),
            Err(Refusal::NoValue) => made && self.value.is_empty(),
            Err(_) => false,
        }
    }

    // The power has gone during that call: it is refused until a start, which is done.
    fn recovers(&self, bench: &mut Bench) -> bool {
        let refused = self.make(bench) == Err(Refusal::PowerGone);
        bench.start().is_ok() && refused
    }
}

// The calls from there on, on the map of place n, up to the first that isn't answered as it should be. Answers where that is.
fn run_kept(steps: &[Step], from: usize, n: usize, bench: &mut Bench) -> usize
    ensures { result ≤ length steps.now }
{
    for at in from..steps.len() {
        if !steps[at].is_answered(at < n, bench) {
            return at;
        }
    }
    steps.len()
}

// Whether after a start the map is the one after all calls.
pub fn ended(steps: &[Step], bench: &mut Bench) -> bool {
    *bench.fuse = LONG;
    bench.start().is_ok() && holds_after(steps, bench)
}

// The calls from there on, on the map of place n, with that power. After a cut the store is started: its map is the one before the cut call or the one after
// it. None if something went wrong.
pub fn survive(
    steps: &[Step],
    from: usize,
    n: usize,
    bench: &mut Bench,
    power: u64,
) -> Option<Found>
    ensures { IfSome result (λ found. (found.call ≤ length steps.now) × (found.map ≤ length steps.now)) }
{
    *bench.fuse = power;
    let call = run_kept(steps, from, n, bench);
    *bench.fuse = LONG;
    let Some(step) = steps.get(call) else {
        let map = place_now(steps, call, call, bench)?;
        return Some(Found { call, map });
    };
    if !step.recovers(bench) {
        return None;
    }
    let map = place_now(steps, call, call + 1, bench)?;
    Some(Found { call, map })
}

#[cfg(test)]
mod tests {
    use super::*;
    use std::test::Fail;

    #[test]
    fn script_history_has_a_step_for_each_line(rt: HostRuntime) -> Result<(), Fail> {
        let steps = script_history(b"start\nput a 1\ndelete a\n");
        assert_eq!(rt; steps.count, 3);
        assert_eq!(rt; key_and_value(steps.line(1)).0, b"a".as_slice());
        assert_eq!(rt; key_and_value(steps.line(1)).1, b"1".as_slice());
        assert!(rt; matches!(Call::read(steps.line(2)), Some(Call::Delete(_))));
        assert!(rt; key_and_value(steps.line(2)).1.is_empty());
        Ok(())
    }

    #[test]
    fn history_has_a_step_for_each_line(rt: HostRuntime) -> Result<(), Fail> {
        let steps = history(rt.alloc(), b"start\nput a 1\ndelete a\n")?;
        assert_eq!(rt; steps.len(), 3);
        assert_eq!(rt; steps[1].key, b"a".as_slice());
        assert_eq!(rt; steps[1].value, b"1".as_slice());
        assert!(rt; matches!(steps[2].call, Some(Call::Delete(_))));
        assert!(rt; steps[2].value.is_empty());
        Ok(())
    }

    // What is found on a blank chip, with the power going at that operation, and whether it is the map after all calls.
    fn cut(steps: &[Step], power: u64, noise: &[u8; 4096]) -> (Option<Found>, bool) {
        let mut bench = Bench {
            chip: &mut [255; 16384],
            work: &mut [0; 80],
            fuse: &mut 0,
            noise,
        };
        let found = survive(steps, 0, 0, &mut bench, power);
        (found, ended(steps, &mut bench))
    }

    #[test]
    fn a_kept_history_survives(rt: HostRuntime) -> Result<(), Fail> {
        let steps = history(rt.alloc(), b"start\nput a 1\nput b 2\ndelete a")?;
        let (zeros, ones) = ([0; 4096], [255; 4096]);
        assert!(rt;
            matches!(
                cut(&steps, 2, &ones),
                (Some(Found { call: 2, map: 2 }), false)
            )
        );
        assert!(rt;
            matches!(
                cut(&steps, 2, &zeros),
                (Some(Found { call: 2, map: 3 }), false)
            )
        );
        assert!(rt;
            matches!(
                cut(&steps, 3, &ones),
                (Some(Found { call: 3, map: 3 }), false)
            )
        );
        assert!(rt;
            matches!(
                cut(&steps, 3, &zeros),
                (Some(Found { call: 3, map: 4 }), true)
            )
        );
        assert!(rt;
            matches!(
                cut(&steps, 4, &ones),
                (Some(Found { call: 4, map: 4 }), true)
            )
        );
        // a delete of a key that is not there isn't answered as it should be
        let steps = history(rt.alloc(), b"start\nput a 1\ndelete b")?;
        assert!(rt; matches!(cut(&steps, 4, &ones), (None, _)));
        Ok(())
    }

    #[test]
    fn a_kept_history_goes_on(rt: HostRuntime) -> Result<(), Fail> {
        let mut bench = Bench {
            chip: &mut [255; 16384],
            work: &mut [0; 80],
            fuse: &mut LONG,
            noise: &[0; 4096],
        };
        // no map has place 0
        assert!(rt; bench.start().is_ok());
        assert!(rt; survive(&[], 0, 0, &mut bench, LONG).is_none());
        // a line that has no call is done
        let steps = history(rt.alloc(), b"start\nput a 1\n\nput b 2")?;
        assert!(rt;
            matches!(
                survive(&steps, 0, 0, &mut bench, LONG),
                Some(Found { call: 4, map: 4 })
            )
        );
        // a delete that was cut was made; made again, there is no value
        bench.chip.fill(255);
        bench.work.fill(0);
        let steps = history(rt.alloc(), b"start\nput a 1\nput b 2\ndelete a")?;
        assert!(rt;
            matches!(
                survive(&steps, 0, 0, &mut bench, 3),
                Some(Found { call: 3, map: 4 })
            )
        );
        assert!(rt;
            matches!(
                survive(&steps, 3, 4, &mut bench, LONG),
                Some(Found { call: 4, map: 4 })
            )
        );
        // the end is looked at after a start, with power
        bench.work.fill(0);
        *bench.fuse = 0;
        assert!(rt; ended(&steps, &mut bench));
        // a delete that was made, and is answered as if it had not been
        assert!(rt; survive(&steps, 0, 4, &mut bench, LONG).is_none());
        Ok(())
    }
}
