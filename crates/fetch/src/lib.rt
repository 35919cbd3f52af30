// Get and count (document 01, section 3): what the index points at is handed out. They change nothing on the chip, and require nothing of their caller.
// How they end is said in specs/Fetched.antt.
#![tactic(auto)]

ghost use Rattle.std.proofs.Math.Option.{some};
ghost use Rattle.std.specs.Prelude.{◌+◌, ◌*◌, ◌≤◌, length};
ghost use Rattle.record.specs.Record.{value_at};
ghost use Rattle.ring_log.specs.Answers.{gotten};
ghost use Rattle.ring_log.specs.Map.{lookup};
ghost use Rattle.lent.specs.Area.{map_in};
ghost use Rattle.lent.specs.Ended.{answer_of};
ghost use Rattle.fetch.specs.Fetched.{Got, Gets, Counted, GetEnds, CountEnds, Fetches};

use lent::Refusal;

// The value on page p goes to the start of the buffer. Answers how long it is. Its length is in the beginning of the page; past that no more is read than the
// value, and straight into the buffer.
fn hand_value(chip: &[u8], p: usize, buffer: &mut [u8]) -> Result<usize, Refusal>
    requires { 256 * p + 256 ≤ length chip.now }
    ensures got { Got buffer.old buffer.new (answer_of result) }
    ensures right { Gets buffer.old buffer.new (gotten buffer.old (some (value_at chip.now p))) (answer_of result) }
{
    let begins = chip::beginning_at(chip, p);
    let n = record::value_length(&begins);
    if buffer.len() < n {
        return Err(Refusal::ShortBuffer);
    }
    record::read_value(chip, p, &mut buffer[..n]);
    Ok(n)
}

// The value of the key, by the index.
#[tactic(auto, using(crate::proofs::Rows::fetches_never, crate::proofs::Rows::fetches_value))]
fn fetch(chip: &[u8], index: &[u32], key: &[u8], buffer: &mut [u8]) -> Result<usize, Refusal>
    ensures got { Got buffer.old buffer.new (answer_of result) }
    ensures right { Fetches chip.now index.now (lookup key.now (map_in chip.now)) buffer.old buffer.new (answer_of result) }
{
    match index::find(chip, index, key) {
        Ok(i) => {
            let p = index[i] as usize;
            if chip.len() / 256 <= p {
                return Err(Refusal::NotStarted);
            }
            hand_value(chip, p, buffer)
        }
        Err(_) => Err(Refusal::NoValue),
    }
}

// The value's length; the value stands at the start of the buffer, and the rest of the buffer is unchanged.
#[tactic(auto, using(crate::proofs::Gets::get_refused, crate::proofs::Gets::get_fetched))]
pub fn get(
    chip: &[u8],
    work: &[u32],
    fuse: &u64,
    key: &[u8],
    buffer: &mut [u8],
) -> Result<usize, Refusal>
    ensures got { Got buffer.old buffer.new (answer_of result) }
    ensures right { GetEnds chip.now fuse.now work.now key.now buffer.old buffer.new (answer_of result) }
{
    lent::first_refusal(chip, work, fuse, lent::key_refusal(key))?;
    let n = work[lent::KEYS] as usize;
    fetch(chip, &work[lent::INDEX..lent::INDEX + n], key, buffer)
}

// How many keys have a value.
#[tactic(auto, using(crate::proofs::Gets::count_refused, crate::proofs::Gets::count_done))]
pub fn count(chip: &[u8], work: &[u32], fuse: &u64) -> Result<usize, Refusal>
    ensures said { Counted work.now (answer_of result) }
    ensures right { CountEnds chip.now fuse.now work.now (answer_of result) }
{
    lent::unready(chip, work, fuse)?;
    Ok(work[lent::KEYS] as usize)
}
