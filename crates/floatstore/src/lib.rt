// The store for C (include/floatstore.h): the six calls, the next key, and a start that says what it saw, with answers as numbers. At least 0: done; below: minus the number of the refusal.
// Each contract is that of the store's call, of the answer whose number is answered; specs/Numbers.antt says which number that is. (That the functions differ in
// what they call alone is the C interface: it has a name for each.)
#![tactic(auto)]

ghost use Rattle.std.specs.Prelude.{◌≡◌, pos, neg_ℤ};
ghost use Rattle.chip.specs.Play.{Did};
ghost use Rattle.lent.specs.Area.{blocks_of};
ghost use Rattle.lent.specs.Ended.{answer_of, refusal_number};
ghost use Rattle.fetch.specs.Fetched.{Got, Counted, GetEnds, CountEnds};
ghost use Rattle.change.specs.Changed.{PutEnds, DeleteEnds};
ghost use Rattle.start.specs.Started.{StartEnds};
ghost use Rattle.format.specs.Formatted.{FormatEnds};
ghost use Rattle.keys.specs.Next.{NextEnds};
ghost use Rattle.survey.specs.Seen.{Sees};
ghost use Rattle.floatstore.specs.Numbers.{number_of, held, Answers, version_number};

use lent::Refusal;

// A number that an i64 holds.
fn hold(n: usize) -> i64
    ensures { result ≡ pos (held n) }
{
    i64::try_from(n).unwrap_or(i64::MAX)
}

// Minus the number of a refusal.
fn minus(refusal: Refusal) -> i64
    ensures { result ≡ neg_ℤ (pos (refusal_number refusal)) }
{
    -i64::from(refusal.number())
}

// The number of an answer.
fn number(a: Result<usize, Refusal>) -> i64
    ensures { result ≡ number_of (answer_of a) }
{
    match a {
        Ok(n) => hold(n),
        Err(refusal) => minus(refusal),
    }
}

// The version of this library, as one number.
#[unsafe(no_mangle)]
pub extern "C" fn floatstore_version() -> i64
    ensures { result ≡ pos version_number }
{
    1000
}

// Erases every block; the map is empty. A start must follow it.
#[unsafe(no_mangle)]
pub extern "C" fn floatstore_format(
    chip: &mut [u8],
    work: &mut [u32],
    fuse: &mut u64,
    noise: &[u8; 4096],
) -> i64
    ensures did { Did (blocks_of chip.old) 0 noise.now chip.old fuse.old chip.new fuse.new }
    ensures right { Answers (FormatEnds chip.old fuse.old work.old chip.new fuse.new work.new) result }
{
    number(format::format(chip, work, fuse, noise))
}

// Reads the chip and makes the store ready; the map is the one that was there. It writes nothing to the chip.
#[unsafe(no_mangle)]
pub extern "C" fn floatstore_start(chip: &[u8], work: &mut [u32], fuse: &u64) -> i64
    ensures { Answers (StartEnds chip.now fuse.now work.old work.new) result }
{
    number(start::start(chip, work, fuse))
}

// The same; and, done or refused with 8, what it saw of the chip's pages. Refused with 5 or 7 it leaves the five numbers as they were.
#[unsafe(no_mangle)]
pub extern "C" fn floatstore_start_seeing(
    chip: &[u8],
    work: &mut [u32],
    fuse: &u64,
    seen: &mut [u64; 5],
) -> i64
    ensures { Answers (λ a. StartEnds chip.now fuse.now work.old work.new a × Sees chip.now seen.old seen.new a) result }
{
    number(survey::start_seeing(chip, work, fuse, seen))
}

// The key has the value from now on, whether or not it had one.
#[unsafe(no_mangle)]
pub extern "C" fn floatstore_put(
    chip: &mut [u8],
    work: &mut [u32],
    fuse: &mut u64,
    noise: &[u8; 4096],
    key: &[u8],
    value: &[u8],
) -> i64
    ensures { Answers (PutEnds noise.now chip.old fuse.old work.old key.now value.now chip.new fuse.new work.new) result }
{
    number(change::put(chip, work, fuse, noise, key, value))
}

// The value's length; the value stands at the start of the buffer, and the rest of the buffer is unchanged.
#[unsafe(no_mangle)]
pub extern "C" fn floatstore_get(
    chip: &[u8],
    work: &[u32],
    fuse: &u64,
    key: &[u8],
    buffer: &mut [u8],
) -> i64
    ensures { Answers (λ a. Got buffer.old buffer.new a × GetEnds chip.now fuse.now work.now key.now buffer.old buffer.new a) result }
{
    number(fetch::get(chip, work, fuse, key, buffer))
}

// The key has no value any more.
#[unsafe(no_mangle)]
pub extern "C" fn floatstore_delete(
    chip: &mut [u8],
    work: &mut [u32],
    fuse: &mut u64,
    noise: &[u8; 4096],
    key: &[u8],
) -> i64
    ensures { Answers (DeleteEnds noise.now chip.old fuse.old work.old key.now chip.new fuse.new work.new) result }
{
    number(change::delete(chip, work, fuse, noise, key))
}

// How many keys have a value.
#[unsafe(no_mangle)]
pub extern "C" fn floatstore_count(chip: &[u8], work: &[u32], fuse: &u64) -> i64
    ensures { Answers (λ a. Counted work.now a × CountEnds chip.now fuse.now work.now a) result }
{
    number(fetch::count(chip, work, fuse))
}

// The next larger key that has a value; after none, the empty key, the first. Its length; the key stands at the start of the buffer, and the rest of the buffer is unchanged.
#[unsafe(no_mangle)]
pub extern "C" fn floatstore_next(
    chip: &[u8],
    work: &[u32],
    fuse: &u64,
    key: &[u8],
    buffer: &mut [u8],
) -> i64
    ensures { Answers (λ a. Got buffer.old buffer.new a × NextEnds chip.now fuse.now work.now key.now buffer.old buffer.new a) result }
{
    number(keys::next(chip, work, fuse, key, buffer))
}
