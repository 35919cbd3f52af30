// A start that also says what it saw (request 2 of document 02): how many pages are blank, sound and spoilt, and where the first spoilt one is.
// The store's own start stays as it is. The definitions are in specs/Seen.antt.
#![tactic(auto)]

ghost use Rattle.std.specs.Prelude.{◌≡◌, ◌*◌, ◌/◌, ◌≤◌, ◌<◌, length};
ghost use Rattle.page.specs.declared.Look.TheVariants.{Spoilt};
ghost use Rattle.lent.specs.Ended.{answer_of};
ghost use Rattle.start.specs.Started.{StartEnds};
ghost use Rattle.survey.specs.Seen.{seen_of, Small, SeesOne, numbers, has_read, Sees};

use lent::Refusal;
use page::Look;

// How many pages are blank, sound and spoilt; the first spoilt one, and its lowest byte that disagrees with its copy (0 and 0 if there is none).
// No Option: the C interface has these five numbers, and seen_of says them.
#[derive(Clone, Copy, Default)]
pub struct Seen {
    pub blank: u64,
    pub sound: u64,
    pub spoilt: u64,
    pub page: u64,
    pub byte: u64,
}

impl Seen {
    // The five numbers, in their order.
    fn numbers(self) -> [u64; 5]
        ensures { result ≡ numbers self }
    {
        [self.blank, self.sound, self.spoilt, self.page, self.byte]
    }
}

// One page more, page p, which is spoilt at byte i: the first one is kept.
fn see_spoilt(s: Seen, p: usize, i: usize) -> Seen
    requires { Small p s × (p < 72057594037927936) }
    ensures { SeesOne (Spoilt i) p s result }
{
    let spoilt = s.spoilt + 1;
    if s.spoilt == 0 {
        return Seen {
            spoilt,
            page: p as u64,
            byte: i as u64,
            ..s
        };
    }
    Seen { spoilt, ..s }
}

// One page more, page p, of which this is the look.
fn see(s: Seen, look: Look, p: usize) -> Seen
    requires { Small p s × (p < 72057594037927936) }
    ensures { SeesOne look p s result }
{
    match look {
        Look::Blank => Seen {
            blank: s.blank + 1,
            ..s
        },
        Look::Sound => Seen {
            sound: s.sound + 1,
            ..s
        },
        Look::Spoilt(i) => see_spoilt(s, p, i),
    }
}

// The first n pages are looked at.
#[tactic(auto, using(crate::proofs::Counts::seen_none))]
fn survey(chip: &[u8], n: usize) -> Seen
    requires { (256 * n ≤ length chip.now) × (n < 72057594037927936) }
    ensures { result ≡ seen_of chip.now n }
{
    let mut s = Seen::default();
    for p in 0..n {
        s = see(s, chip::look_at(chip, p), p);
    }
    s
}

// Whether a start that ended so was lent allowed lengths and power, and so read the chip: it is done, or these bytes are no store.
fn has_read(answer: Result<usize, Refusal>) -> bool
    ensures { result ≡ has_read (answer_of answer) }
{
    matches!(answer, Ok(_) | Err(Refusal::NotStarted))
}

// The store's start; and, done or refused with 8, what it saw of every page. Refused with 5 or 7 it leaves the numbers as they were.
pub fn start_seeing(
    chip: &[u8],
    work: &mut [u32],
    fuse: &u64,
    seen: &mut [u64; 5],
) -> Result<usize, Refusal>
    ensures start { StartEnds chip.now fuse.now work.old work.new (answer_of result) }
    ensures saw { Sees chip.now seen.old seen.new (answer_of result) }
{
    let answer = start::start(chip, work, fuse);
    if has_read(answer) {
        *seen = survey(chip, chip.len() / 256).numbers();
    }
    answer
}
