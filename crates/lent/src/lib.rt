// What every call is lent, and what it tests first (document 01, section 3): the sizes, the power, the mark of the work area, the key. Its definitions are
// those that every contract of a call cites: specs/Area.antt, specs/Ended.antt, specs/Tested.antt.
#![tactic(auto)]

ghost use Rattle.std.specs.Prelude.{false, ◌≡◌, ◌≤◌, ◌<◌, length, set, OnOk, IsOk, OnErr, IsErrOf, IfOk};
ghost use Rattle.ring_log.specs.Answers.{sizes_test};
ghost use Rattle.lent.specs.Area.{blocks_of, Sized};
ghost use Rattle.lent.specs.Ended.{refusal_number, number_due};
ghost use Rattle.lent.specs.Tested.{key_number, Tested};

// The words of the lent work area: first the mark.
pub const MARK: usize = 0;

// The block of the head.
pub const HEAD: usize = 1;

// The head's next place.
pub const NEXT: usize = 2;

// The number of keys.
pub const KEYS: usize = 3;

// The cursor of cleaning.
pub const CURSOR: usize = 4;

// Here the index begins.
pub const INDEX: usize = 16;

// The mark of an area that no start has made ready since a format, or since a start that was refused. (The marks are numbers and no enum: a word of an area that
// is lent may hold any.)
pub const UNREADY: u32 = 0;

// The mark of an area that a start made ready.
pub const READY: u32 = 1;

// The mark where the power has gone since.
pub const GONE: u32 = 2;

// Why a call is refused, by document 01's numbers.
#[derive(Clone, Copy, PartialEq, Eq)]
pub enum Refusal {
    BadKey = 1,
    LongValue = 2,
    NoRoom = 3,
    NoValue = 4,
    BadSize = 5,
    ShortBuffer = 6,
    PowerGone = 7,
    NotStarted = 8,
}

impl Refusal {
    // Document 01's number.
    pub fn number(self) -> u32
        ensures { result ≡ refusal_number self }
    {
        self as u32
    }
}

// Where the store stands, as the work area says beside its index.
#[derive(Clone, Copy)]
pub struct Standing {
    pub head: u32,
    pub next: u32,
    pub keys: u32,
    pub passed: u32,
}

// The head, the next place, the number of keys and the cursor are put down.
pub fn note_down(work: &mut [u32], s: Standing)
    requires { 16 ≤ length work.old }
    ensures { work.new ≡ set (set (set (set work.old 1 s.head) 2 s.next) 3 s.keys) 4 s.passed }
{
    work[HEAD] = s.head;
    work[NEXT] = s.next;
    work[KEYS] = s.keys;
    work[CURSOR] = s.passed;
}

// How many blocks a chip has whose lengths are allowed; any other is refused with 5. (Chip, area and fuse come apart to every call, as C lends them: the C
// interface, include/floatstore.h.)
pub fn blocks(chip: &[u8], work: &[u32]) -> Result<usize, Refusal>
    ensures sized { IfOk result (λ b. (b ≡ blocks_of chip.now) × Sized chip.now work.now) }
    ensures none { OnErr result (IsErrOf result Refusal.BadSize × (sizes_test (length chip.now) (length work.now) ≡ false)) }
{
    let b = chip.len() / 4096;
    if chip.len() % 4096 != 0 {
        return Err(Refusal::BadSize);
    }
    if b < 4 || ring_log::MOST_BLOCKS < b {
        return Err(Refusal::BadSize);
    }
    if work.len() < 16 * b + INDEX {
        return Err(Refusal::BadSize);
    }
    Ok(b)
}

// The refusals 5, 7 and 8 of a call on a started store.
#[tactic(auto, using(crate::proofs::Held::holds_next))]
pub fn unready(chip: &[u8], work: &[u32], fuse: &u64) -> Result<(), Refusal>
    ensures { Tested chip.now fuse.now work.now 0 (number_due result) }
{
    let b = blocks(chip, work)?;
    let mark = work[MARK];
    if (*fuse == 0) || mark == GONE {
        return Err(Refusal::PowerGone);
    }
    if mark != READY {
        return Err(Refusal::NotStarted);
    }
    if b <= work[HEAD] as usize {
        return Err(Refusal::NotStarted);
    }
    if ring_log::PLACES < work[NEXT] as usize {
        return Err(Refusal::NotStarted);
    }
    if ring_log::room(b) < work[KEYS] as usize {
        return Err(Refusal::NotStarted);
    }
    Ok(())
}

// What is lent is tested first: its refusals 5, 7 and 8; and if none is due, the arguments', which were tested before.
#[tactic(auto, using(crate::proofs::Numbers::tested_first))]
pub fn first_refusal(
    chip: &[u8],
    work: &[u32],
    fuse: &u64,
    arguments: Result<(), Refusal>,
) -> Result<(), Refusal>
    ensures tested { Tested chip.now fuse.now work.now (number_due arguments) (number_due result) }
    ensures last { OnOk result (IsOk arguments) }
{
    unready(chip, work, fuse)?;
    arguments
}

// The same of any number that the arguments' refusal has, and answered as a number: so it was, as `refusal`, before refusals were an enum.
#[tactic(auto, using(crate::proofs::Numbers::tested_first, crate::proofs::Numbers::tested_next, crate::proofs::Numbers::refusal_some))]
pub fn first_number(chip: &[u8], work: &[u32], fuse: &u64, n: u32) -> u32
    ensures tested { Tested chip.now fuse.now work.now n result }
    ensures last { result ≡ 0 → n ≡ 0 }
{
    match unready(chip, work, fuse) {
        Ok(()) => n,
        Err(refusal) => refusal.number(),
    }
}

// Refusal 1 of any key: its length is 0 or above 16.
pub fn key_refusal(key: &[u8]) -> Result<(), Refusal>
    ensures right { number_due result ≡ key_number key.now 0 }
    ensures fit { OnOk result ((1 ≤ length key.now) × (length key.now ≤ 16)) }
{
    if key.len() == 0 {
        return Err(Refusal::BadKey);
    }
    if 16 < key.len() {
        return Err(Refusal::BadKey);
    }
    Ok(())
}
