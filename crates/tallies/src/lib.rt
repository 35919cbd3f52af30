// The store's calls with random keys, with power that stays, each answer counted.
#![tactic(auto)]

ghost use Rattle.std.specs.Prelude.{◌≡◌, ◌+◌, ◌≤◌, ◌<◌};
ghost use Rattle.lent.specs.Ended.{number_due};
ghost use Rattle.tallies.specs.Tallied.{begins, place, raised, noted};

use calls::Bench;
use chance::{ChipKind, Dice, Heading};
use lent::Refusal;

// ---- the tally

// What is counted together: chips of a kind; the stores whose work areas are overwritten; the areas, by what their headings were overwritten with; or all.
#[derive(Clone, Copy)]
pub enum Part {
    Chips(ChipKind),
    Stores,
    Areas(Heading),
    All,
}

impl Part {
    // Where its 64 numbers begin.
    fn begins(self) -> usize
        ensures at { result ≡ begins self }
        ensures in_range { result ≤ 448 }
    {
        match self {
            Part::Chips(ChipKind::Bytes) => 0,
            Part::Chips(ChipKind::Pages) => 64,
            Part::Chips(ChipKind::Ring) => 128,
            Part::Chips(ChipKind::FirstRound) => 192,
            Part::Stores => 256,
            Part::Areas(Heading::Tame) => 320,
            Part::Areas(Heading::Wild) => 384,
            Part::All => 448,
        }
    }
}

// What is counted: a call's ten answers, or a sum.
#[derive(Clone, Copy)]
pub enum Slot {
    Start,
    Put,
    Delete,
    Get,
    StartAgain,
    Count,
    // Keys, and what was read of their values, at the start; keys after the changes; both after another start.
    KeysFirst,
    ValuesFirst,
    KeysChanged,
    KeysAgain,
    ValuesAgain,
    // Of areas: bytes that a put or a delete changed, and keys that were counted.
    BytesChanged,
    KeysCounted,
    // Of all: calls on overwritten areas, refusals that changed the chip, and bytes of buffers that changed past the value.
    Calls,
    Spoilt,
    Past,
}

impl Slot {
    // Its place among a part's numbers; of answers, that of the first.
    fn place(self) -> usize
        ensures at { result ≡ place self }
        ensures in_range { result ≤ 54 }
    {
        match self {
            Slot::Start | Slot::Calls => 0,
            Slot::Spoilt => 1,
            Slot::Past => 2,
            Slot::Put => 10,
            Slot::Delete => 20,
            Slot::Get => 30,
            Slot::StartAgain | Slot::Count => 40,
            Slot::KeysFirst | Slot::BytesChanged => 50,
            Slot::ValuesFirst | Slot::KeysCounted => 51,
            Slot::KeysChanged => 52,
            Slot::KeysAgain => 53,
            Slot::ValuesAgain => 54,
        }
    }
}

// 64 numbers for each part. (An array, since the rows of a report name its places by number.)
#[derive(Drop)]
pub struct Tally {
    pub numbers: [u64; 512],
}

impl Tally {
    fn raise(&mut self, i: usize, by: u64)
        requires { i < 512 }
        ensures { self.new.numbers ≡ raised self.old.numbers i by }
    {
        self.numbers[i] = self.numbers[i].saturating_add(by);
    }

    pub fn add(&mut self, part: Part, slot: Slot, by: u64)
        ensures { self.new.numbers ≡ raised self.old.numbers (begins part + place slot) by }
    {
        self.raise(part.begins() + slot.place(), by);
    }

    // One more of this answer.
    pub fn note(&mut self, part: Part, slot: Slot, answer: Result<usize, Refusal>)
        ensures { self.new.numbers ≡ noted self.old.numbers part slot (number_due answer) }
    {
        let number = match answer {
            Ok(_) => 0,
            Err(refusal) => refusal.number() as usize,
        };
        self.raise(part.begins() + slot.place() + number, 1);
    }
}

// ---- the calls, with power that stays

// A store whose answers are counted, and the dice that choose keys and values.
#[derive(Drop)]
pub struct Trial<'a> {
    pub bench: Bench<'a>,
    pub dice: Dice,
    pub tally: Tally,
    pub part: Part,
}

impl Trial<'_> {
    pub fn add(&mut self, slot: Slot, by: u64)
        ensures { self.new.tally.numbers ≡ raised self.old.tally.numbers (begins self.old.part + place slot) by }
    {
        self.tally.add(self.part, slot, by);
    }

    pub fn note(&mut self, slot: Slot, answer: Result<usize, Refusal>)
        ensures { self.new.tally.numbers ≡ noted self.old.tally.numbers self.old.part slot (number_due answer) }
    {
        self.tally.note(self.part, slot, answer);
    }

    pub fn start(&mut self, slot: Slot) -> Result<usize, Refusal>
        ensures { self.new.tally.numbers ≡ noted self.old.tally.numbers self.old.part slot (number_due result) }
    {
        let answer = self.bench.start();
        self.note(slot, answer);
        answer
    }

    // A put of a random key.
    pub fn put(&mut self) -> Result<usize, Refusal>
        ensures { self.new.tally.numbers ≡ noted self.old.tally.numbers self.old.part Slot.Put (number_due result) }
    {
        let key = [self.dice.key()];
        let value = [self.dice.byte()];
        let answer = self.bench.put(&key, &value);
        self.note(Slot::Put, answer);
        answer
    }

    // A delete of a random key.
    pub fn delete(&mut self) -> Result<usize, Refusal>
        ensures { self.new.tally.numbers ≡ noted self.old.tally.numbers self.old.part Slot.Delete (number_due result) }
    {
        let key = [self.dice.key()];
        let answer = self.bench.delete(&key);
        self.note(Slot::Delete, answer);
        answer
    }

    // Puts and deletes in turn, so many of each.
    pub fn change_often(&mut self, times: u64) {
        for _ in 0..times {
            let _ = self.put();
            let _ = self.delete();
        }
    }

    pub fn get(&mut self, key: u8, buffer: &mut [u8]) -> Result<usize, Refusal>
        ensures { self.new.tally.numbers ≡ noted self.old.tally.numbers self.old.part Slot.Get (number_due result) }
    {
        let answer = self.bench.get(&[key], buffer);
        self.note(Slot::Get, answer);
        answer
    }

    // How many keys there are.
    fn add_count(&mut self, slot: Slot) {
        let keys = self.bench.count().unwrap_or(0);
        self.add(slot, keys as u64);
    }

    // All keys are got; the values' lengths and first bytes are added.
    fn read_all(&mut self, slot: Slot) {
        for key in b'a'..=b'x' {
            let mut buffer = [0u8; 220];
            let n = self.get(key, &mut buffer).unwrap_or(0);
            self.add(slot, n as u64);
            self.add(slot, u64::from(buffer[0]));
        }
    }

    // A store that was started is read, changed and counted, started again and read again.
    pub fn use_store(&mut self) {
        self.add_count(Slot::KeysFirst);
        self.read_all(Slot::ValuesFirst);
        self.change_often(8);
        self.add_count(Slot::KeysChanged);
        let _ = self.start(Slot::StartAgain);
        self.add_count(Slot::KeysAgain);
        self.read_all(Slot::ValuesAgain);
    }
}
