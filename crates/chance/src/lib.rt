// Chance: dice, and what they make: pages, chips of four blocks and work areas for them.
#![tactic(auto)]

ghost use Rattle.std.specs.Prelude.{◌≡◌, ◌+◌, ◌*◌, ◌/◌, ◌%◌, ◌^◌, ◌≤◌, ◌<◌};

use page::Page;
use ring_log::Head;
use std::array;

// ---- random numbers

// Dice, by the number that the next roll is made of.
#[derive(Drop)]
pub struct Dice {
    pub seed: u64,
}

impl Dice {
    // The next random number, below 32768.
    pub fn roll(&mut self) -> u64
        ensures turned { self.new.seed ≡ (self.old.seed % 2 ^ 31 * 1103515245 + 12345) % 2 ^ 31 }
        ensures rolled { result ≡ self.new.seed / 65536 }
        ensures small { result < 32768 }
    {
        self.seed = (self.seed % 2147483648 * 1103515245 + 12345) % 2147483648;
        self.seed / 65536
    }

    // The next one, as a number below n.
    pub fn below(&mut self, n: u64) -> u64
        requires { 0 < n }
        ensures { result < n }
    {
        self.roll() % n
    }

    pub fn byte(&mut self) -> u8 {
        self.below(256) as u8
    }

    // One of the 24 keys.
    pub fn key(&mut self) -> u8
        ensures { (97 ≤ result) × (result < 121) }
    {
        b'a' + self.below(24) as u8
    }

    // A place below n.
    fn place(&mut self, n: u64) -> usize
        requires { 0 < n }
        ensures { result < n }
    {
        self.below(n) as usize
    }

    // Whether it is the one roll in n.
    fn is_one_in(&mut self, n: u64) -> bool
        requires { 0 < n }
    {
        self.below(n) == 0
    }
}

// ---- pages

// What may stand on a page: random bytes, nothing, a record, a seal, an odd page or a spoilt one.
#[derive(Clone, Copy)]
enum Sort {
    Random,
    Blank,
    Record,
    Seal,
    Odd,
    Spoilt,
}

impl Sort {
    // A page of this sort.
    fn page(self, dice: &mut Dice) -> Page {
        match self {
            Sort::Random => array::from_fn(|_| dice.byte()),
            Sort::Blank => [255u8; 256],
            Sort::Record => record_page(dice),
            Sort::Seal => record::seal(),
            Sort::Odd => odd_page(dice),
            Sort::Spoilt => spoilt_page(dice),
        }
    }
}

// The page of a note, or of a value, of one of the keys, in one of the forms.
fn record_page(dice: &mut Dice) -> Page {
    let note = dice.is_one_in(4);
    let key = [dice.key()];
    let value = [dice.byte()];
    let page = record::encode(note, &key, &value);
    if dice.is_one_in(2) {
        trying::old_page(&page)
    } else {
        page
    }
}

// A page, sound but for its form, whose form, kind and lengths may be those of a record or not. The length of its value is 0, or up to one more than any has.
fn odd_page(dice: &mut Dice) -> Page {
    let mut page = [0u8; 256];
    page[0] = 1 + dice.below(3) as u8;
    page[1] = 1 + dice.below(3) as u8;
    page[2] = dice.below(18) as u8;
    page[3] = dice.below(444).saturating_sub(222) as u8;
    page[16] = dice.key();
    page[32] = dice.byte();
    if page[0] == 1 {
        trying::old_page(&page)
    } else {
        trying::new_page(page)
    }
}

// The page of a record, with a random byte somewhere.
fn spoilt_page(dice: &mut Dice) -> Page {
    let mut page = record_page(dice);
    let i = dice.place(256);
    page[i] = dice.byte();
    page
}

// ---- chips

// The kinds of chips: random bytes; random pages; a ring of random pages; a first round, in a quarter of them with a page astray.
#[derive(Clone, Copy)]
pub enum ChipKind {
    Bytes,
    Pages,
    Ring,
    FirstRound,
}

// How a chip is laid out: a ring by its head; a first round by how many pages are written, and by the page that is astray.
#[derive(Drop)]
struct Plan {
    kind: ChipKind,
    head: Head,
    written: usize,
    stray: usize,
    ghost head_in_ring: { (head.block < 4) × (head.blocks ≡ 4) },
}

impl Plan {
    fn new(kind: ChipKind, dice: &mut Dice) -> Self {
        Plan {
            kind,
            head: Head {
                block: dice.place(4),
                blocks: 4,
            },
            written: dice.place(64),
            stray: dice.place(256),
        }
    }

    // What stands on page p.
    fn sort(&self, p: usize, dice: &mut Dice) -> Sort {
        match self.kind {
            ChipKind::Bytes => Sort::Random,
            ChipKind::FirstRound => self.sort_in_round(p),
            _ if p % 16 < 15 => any_sort(dice),
            ChipKind::Pages => any_seal(dice),
            ChipKind::Ring => self.ring_seal(p / 16, dice),
        }
    }

    // What stands on page p of a first round.
    fn sort_in_round(&self, p: usize) -> Sort {
        if p == self.stray {
            Sort::Record
        } else if self.written <= p {
            Sort::Blank
        } else if p % 16 == 15 {
            Sort::Seal
        } else {
            Sort::Record
        }
    }

    // What stands on page 15 of a block of a ring.
    fn ring_seal(&self, block: usize, dice: &mut Dice) -> Sort {
        if block == self.head.block {
            Sort::Blank
        } else if block == self.head.spare() {
            any_seal(dice)
        } else if dice.is_one_in(4) {
            Sort::Random
        } else {
            Sort::Seal
        }
    }
}

// What stands on a page: most often a record, or nothing.
fn any_sort(dice: &mut Dice) -> Sort {
    match dice.below(16) {
        0..=8 => Sort::Record,
        9..=12 => Sort::Blank,
        13 => Sort::Random,
        14 => Sort::Odd,
        _ => Sort::Spoilt,
    }
}

// What stands on a page 15: nothing, a seal or anything.
fn any_seal(dice: &mut Dice) -> Sort {
    match dice.below(4) {
        0 => Sort::Random,
        1 => Sort::Seal,
        _ => Sort::Blank,
    }
}

// The chip becomes one of that kind.
pub fn make_chip(chip: &mut [u8], kind: ChipKind, dice: &mut Dice) {
    let plan = Plan::new(kind, dice);
    let (pages, _) = chip.as_chunks_mut::<256>();
    for (p, page) in pages.iter_mut().enumerate() {
        *page = plan.sort(p, dice).page(dice);
    }
}

// ---- work areas

// What is written over the heading of a work area: numbers within their ranges, or any.
#[derive(Clone, Copy)]
pub enum Heading {
    Tame,
    Wild,
}

impl Heading {
    // Word i of it, by a roll: mark, head, next place and number of keys.
    fn word(self, i: usize, roll: u32) -> u32 {
        match (self, i) {
            (Heading::Tame, 0) => 1,
            (Heading::Tame, 1) => roll % 4,
            (Heading::Tame, 2) => roll % 16,
            (Heading::Tame, 3) => roll % 17,
            (Heading::Wild, 0) => roll % 4,
            (Heading::Wild, 1) => roll % 6,
            (Heading::Wild, 2 | 3) => roll % 20,
            _ => roll,
        }
    }
}

// What is written over the entries of its index: any numbers; places, of which some are past the chip's end; places; or nothing.
#[derive(Clone, Copy)]
pub enum Entries {
    Any,
    Near,
    Places,
    Kept,
}

impl Entries {
    // An entry, by the one that stands there and a roll.
    fn entry(self, old: u32, roll: u32) -> u32 {
        match self {
            Entries::Any => roll,
            Entries::Near => roll % 80,
            Entries::Places => roll % 64,
            Entries::Kept => old,
        }
    }
}

// The work area is overwritten.
pub fn scramble(work: &mut [u32], heading: Heading, entries: Entries, dice: &mut Dice) {
    for (i, word) in work.iter_mut().enumerate() {
        let roll = dice.roll() as u32;
        *word = if i < 16 {
            heading.word(i, roll)
        } else {
            entries.entry(*word, roll)
        };
    }
}
