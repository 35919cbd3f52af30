// The index: page numbers in the order of the keys that stand on those pages, in a part of the lent work area. Find a key by binary search, put a page in,
// take one out. The definitions are in specs/Index.antt. No entries, whatever they are, make a call trap.
// Where their number changes it is passed beside the slice, which is lent (no heap) and longer than they are.
#![tactic(auto)]

ghost use Rattle.std.specs.Prelude.{◌≡◌, ◌++◌, ◌+◌, ◌-◌, ◌*◌, ◌≤◌, ◌<◌, length, take, drop};
ghost use Rattle.record.specs.Record.{key_at};
ghost use Rattle.index.specs.Index.{keys_of, Ordered, insert_at, remove_at};
ghost use Rattle.index.specs.Answers.{Compared, Within, Finds, put_at, take_out};

use std::cmp::Ordering;

// Two keys: byte by byte, a shorter key before its longer continuations.
#[tactic(auto, using(crate::proofs::Search::differ, crate::proofs::Search::ended))]
pub fn compare(a: &[u8], b: &[u8]) -> Ordering
    ensures { Compared a.now b.now result }
{
    for (x, y) in a.iter().zip(b) {
        if x != y {
            return x.cmp(y);
        }
    }
    a.len().cmp(&b.len())
}

// How the key on page p stands to a key. Of the page the beginning is read, 32 bytes.
fn compare_at(chip: &[u8], p: usize, key: &[u8]) -> Ordering
    requires { 256 * p + 256 ≤ length chip.now }
    ensures { Compared (key_at chip.now p) key.now result }
{
    let begins = chip::beginning_at(chip, p);
    compare(record::key_on(&begins), key)
}

// The key's place in the index: where it stands, or else where it would stand. Whatever the entries are, the place is within; where they are pages of the
// chip in the order of their keys, it is the key's.
pub fn find(chip: &[u8], index: &[u32], key: &[u8]) -> Result<usize, usize>
    ensures within { Within (length index.now) result }
    ensures right { Ordered chip.now index.now → Finds (keys_of chip.now index.now) key.now result }
{
    // no binary_search_by: it looks at other entries, so that on areas whose entries are in no order try_wild would print other numbers
    let pages = chip.len() / 256;
    let mut lo = 0;
    let mut hi = index.len();
    while lo < hi {
        let mid = lo + (hi - lo) / 2;
        let p = index[mid] as usize;
        if pages <= p {
            return Err(lo);
        }
        match compare_at(chip, p, key) {
            Ordering::Less => {
                lo = mid + 1;
            }
            Ordering::Equal => {
                return Ok(mid);
            }
            Ordering::Greater => {
                hi = mid;
            }
        }
    }
    Err(lo)
}

// Page x for the key that was found or missed. Answers how many entries there are now.
#[tactic(auto, using(crate::proofs::Shift::put))]
pub fn put_in(index: &mut [u32], n: usize, found: Result<usize, usize>, x: u32) -> usize
    requires { (n < length index.old) × Within n found }
    ensures within { (n ≤ result) × (result ≤ n + 1) }
    ensures right { take result index.new ≡ put_at found x (take n index.old) }
{
    match found {
        Ok(i) => {
            index[i] = x;
            n
        }
        Err(j) => {
            index.copy_within(j..n, j + 1);
            index[j] = x;
            n + 1
        }
    }
}

// The page of the key that was found goes out. Answers how many entries there are now.
#[tactic(auto, using(crate::proofs::Shift::taken))]
pub fn take_out(index: &mut [u32], n: usize, found: Result<usize, usize>) -> usize
    requires { (n ≤ length index.old) × Within n found }
    ensures within { (result ≤ n) × (n ≤ result + 1) }
    ensures right { take result index.new ≡ take_out found (take n index.old) }
{
    match found {
        Ok(i) => {
            index.copy_within(i + 1..n, i);
            n - 1
        }
        Err(_) => n,
    }
}
