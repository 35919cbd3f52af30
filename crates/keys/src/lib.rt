// The keys in their order, one by one (request 8 of document 02): given a key, or none, the next larger key that has a value. The definitions are in specs/Next.antt;
// what a walk from none to the end gives, whatever happens to the map on the way, is in specs/Walk.antt and proofs/Walks.antt, and of histories in the crate `histories`.
#![tactic(auto)]

ghost use Rattle.std.proofs.Math.Option.{some};
ghost use Rattle.ring_log.specs.Answers.{gotten};
ghost use Rattle.fetch.specs.Fetched.{Got, Gets, Fetches};
ghost use Rattle.lent.specs.Area.{map_in};
ghost use Rattle.lent.specs.Ended.{answer_of};
ghost use Rattle.keys.specs.Next.{next_key, HandsFrom, NextEnds};

use lent::Refusal;

// A key goes to the start of the buffer. Answers how long it is.
#[tactic(auto, using(fetch::proofs::Rows::gets_short, fetch::proofs::Rows::gets_all))]
fn hand_out(key: &[u8], buffer: &mut [u8]) -> Result<usize, Refusal>
    ensures got { Got buffer.old buffer.new (answer_of result) }
    ensures right { Gets buffer.old buffer.new (gotten buffer.old (some key.now)) (answer_of result) }
{
    if buffer.len() < key.len() {
        return Err(Refusal::ShortBuffer);
    }
    buffer[..key.len()].copy_from_slice(key);
    Ok(key.len())
}

// The key on the page of entry i, if there are so many entries.
#[tactic(auto, using(crate::proofs::After::hands_none, crate::proofs::After::hands_never))]
fn hand_key(chip: &[u8], index: &[u32], i: usize, buffer: &mut [u8]) -> Result<usize, Refusal>
    ensures got { Got buffer.old buffer.new (answer_of result) }
    ensures right { HandsFrom chip.now index.now i buffer.old buffer.new (answer_of result) }
{
    if index.len() <= i {
        return Err(Refusal::NoValue);
    }
    let p = index[i] as usize;
    if chip.len() / 256 <= p {
        return Err(Refusal::NotStarted);
    }
    let begins = chip::beginning_at(chip, p);
    hand_out(record::key_on(&begins), buffer)
}

// The next key, by the index.
#[tactic(auto, using(crate::proofs::After::hands_missed))]
fn hand_next(chip: &[u8], index: &[u32], key: &[u8], buffer: &mut [u8]) -> Result<usize, Refusal>
    ensures got { Got buffer.old buffer.new (answer_of result) }
    ensures right { Fetches chip.now index.now (next_key key.now (map_in chip.now)) buffer.old buffer.new (answer_of result) }
{
    match index::find(chip, index, key) {
        Ok(i) => hand_key(chip, index, i + 1, buffer),
        Err(i) => hand_key(chip, index, i, buffer),
    }
}

// The next larger key that has a value, in the order of their bytes; after none, which is given as the empty key, the first. Its length; the key stands at the start
// of the buffer, and the rest of the buffer is unchanged.
#[tactic(auto, using(crate::proofs::After::next_refused, crate::proofs::After::next_long, crate::proofs::After::next_handed))]
pub fn next(
    chip: &[u8],
    work: &[u32],
    fuse: &u64,
    key: &[u8],
    buffer: &mut [u8],
) -> Result<usize, Refusal>
    ensures got { Got buffer.old buffer.new (answer_of result) }
    ensures right { NextEnds chip.now fuse.now work.now key.now buffer.old buffer.new (answer_of result) }
{
    lent::unready(chip, work, fuse)?;
    if 16 < key.len() {
        return Err(Refusal::BadKey);
    }
    let n = work[lent::KEYS] as usize;
    hand_next(chip, &work[lent::INDEX..lent::INDEX + n], key, buffer)
}
