// The log: which map a chip stands for, and what each step of the store does to it, whole and cut. This crate is theory: its definitions are in
// specs/, in the order Key, Map, Log, Ring, Answers, Call, Wear, Timely, Opening; its laws in proofs/. It has no code but numbers, the head
// of the ring, and a test of keys.
#![tactic(auto)]

ghost use Rattle.std.specs.Prelude.{◌≡◌, ◌+◌, ◌%◌, ◌≤◌, ◌<◌};
ghost use Rattle.ring_log.specs.Answers.{printable, printed};
ghost use Rattle.ring_log.specs.Ring.{room, most_blocks};

// The most blocks that a chip of a store has (request 5 of document 02).
pub const MOST_BLOCKS: usize = 4096;

// How many places of a block take records; the page after them is its seal.
pub const PLACES: usize = 15;

// Of those the cursor of cleaning counts RECORDS, from place FIRST on: all of them.
pub const FIRST: usize = 0;

// How many it counts.
pub const RECORDS: usize = 15;

// The head of a ring: which block it is, and of how many. (No invariant, so that nobody is asked for more than before: `after` was `block_after`, which
// docs/STATEMENTS.md named and which asked this of its arguments alone.)
#[derive(Clone, Copy)]
pub struct Head {
    pub block: usize,
    pub blocks: usize,
}

impl Head {
    // The block k after the head.
    pub fn after(self, k: usize) -> usize
        requires { (self.block < self.blocks) × (k ≤ self.blocks) × (self.blocks ≤ most_blocks) × (4 ≤ self.blocks) }
        ensures { (result ≡ (self.block + k) % self.blocks) × (result < self.blocks) }
    {
        (self.block + k) % self.blocks
    }

    // The spare block, which comes after the head.
    pub fn spare(self) -> usize
        requires { (self.block < self.blocks) × (self.blocks ≤ most_blocks) × (4 ≤ self.blocks) }
        ensures { (result ≡ (self.block + 1) % self.blocks) × (result < self.blocks) }
    {
        self.after(1)
    }

    // The oldest block, which comes after the spare one.
    pub fn oldest(self) -> usize
        requires { (self.block < self.blocks) × (self.blocks ≤ most_blocks) × (4 ≤ self.blocks) }
        ensures { (result ≡ (self.block + 2) % self.blocks) × (result < self.blocks) }
    {
        self.after(2)
    }

    // The head once the ring has gone on by a block: the spare block is the head.
    pub fn next(self) -> Head
        requires { (self.block < self.blocks) × (self.blocks ≤ most_blocks) × (4 ≤ self.blocks) }
        ensures { (result.block ≡ (self.block + 1) % self.blocks) × (result.block < self.blocks) × (result.blocks ≡ self.blocks) }
    {
        Head {
            block: self.spare(),
            blocks: self.blocks,
        }
    }
}

// How many keys a store of b blocks holds.
pub fn room(b: usize) -> usize
    requires { b ≤ most_blocks }
    ensures { result ≡ room b }
{
    if b < 2 { 0 } else { 8 * (b - 2) }
}

// Whether a byte can be printed: 0x21 to 0x7E.
fn is_printable(x: u8) -> bool
    ensures { result ≡ printable x }
{
    (0x21..=0x7E).contains(&x)
}

// Whether all bytes of a key can be printed: a put takes no others (request 9 of document 02).
pub fn is_printed(key: &[u8]) -> bool
    ensures { result ≡ printed key.now }
{
    key.iter().all(|x| is_printable(*x))
}
