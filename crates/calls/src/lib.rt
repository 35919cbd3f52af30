// The calls of the store, as the programs try_* make them: all that they know of it.
#![tactic(auto)]

ghost use Rattle.std.specs.Prelude.{◌≡◌, EachIndex, IfSome, slice_index, codes, false};
ghost use Rattle.record.specs.Record.{record_of, record_page};
ghost use Rattle.trying.specs.Noises.{noise_byte};
ghost use Rattle.calls.specs.Lent.{PutOn, DeleteOn, StartOn, FormatOn, GetOn, CountOn, KeepsLengths, LentStill, Makes, IsCut};

use lent::Refusal;
use trying::{Noise, Text};

// What the calls are lent: the chip and the work area; and what cuts them: after so many operations the power goes, and a cut leaves that noise.
#[derive(Drop)]
pub struct Bench<'a> {
    pub chip: &'a mut [u8],
    pub work: &'a mut [u32],
    pub fuse: &'a mut u64,
    pub noise: &'a [u8; 4096],
}

impl Bench<'_> {
    pub fn put(&mut self, key: &[u8], value: &[u8]) -> Result<usize, Refusal>
        ensures made { PutOn key.now value.now self.old self.new result }
        ensures kept { KeepsLengths self.old self.new }
        ensures same { LentStill self.old self.new }
    {
        change::put(self.chip, self.work, self.fuse, self.noise, key, value)
    }

    pub fn delete(&mut self, key: &[u8]) -> Result<usize, Refusal>
        ensures made { DeleteOn key.now self.old self.new result }
        ensures kept { KeepsLengths self.old self.new }
        ensures same { LentStill self.old self.new }
    {
        change::delete(self.chip, self.work, self.fuse, self.noise, key)
    }

    pub fn start(&mut self) -> Result<usize, Refusal>
        ensures made { StartOn self.old self.new result }
        ensures kept { KeepsLengths self.old self.new }
        ensures same { LentStill self.old self.new }
    {
        let fuse = *self.fuse;
        // a `&mut`, since a `&` of it beside a loan of the area is not covered by the borrow checker
        let chip: &mut [u8] = self.chip;
        start::start(chip, self.work, &fuse)
    }

    pub fn format(&mut self) -> Result<usize, Refusal>
        ensures made { FormatOn self.old self.new result }
        ensures kept { KeepsLengths self.old self.new }
        ensures same { LentStill self.old self.new }
    {
        format::format(self.chip, self.work, self.fuse, self.noise)
    }

    pub fn get(&self, key: &[u8], buffer: &mut [u8]) -> Result<usize, Refusal>
        ensures { GetOn key.now self.now buffer.old buffer.new result }
    {
        fetch::get(self.chip, self.work, self.fuse, key, buffer)
    }

    pub fn count(&self) -> Result<usize, Refusal>
        ensures { CountOn self.now result }
    {
        fetch::count(self.chip, self.work, self.fuse)
    }

    // So many puts of the key, up to the first that is refused: the value of put i is i in decimal. (Public for a key that no `Text` holds.)
    pub fn put_often(&mut self, key: &[u8], times: u64) -> Result<usize, Refusal>
        ensures kept { KeepsLengths self.old self.new }
        ensures same { LentStill self.old self.new }
    {
        for i in 0..times {
            let mut digits = itoa::Buffer::new();
            self.put(key, digits.format(i).as_bytes())?;
        }
        Ok(0)
    }

    pub fn make(&mut self, call: &Call) -> Result<usize, Refusal>
        ensures made { Makes call.now self.old self.new result }
        ensures kept { KeepsLengths self.old self.new }
        ensures same { LentStill self.old self.new }
    {
        match call {
            Call::Put(key, value) => self.put(key.as_slice(), value.as_slice()),
            Call::Puts(key, times) => self.put_often(key.as_slice(), *times),
            Call::Delete(key) => self.delete(key.as_slice()),
            Call::Start => self.start(),
            Call::Format => self.format(),
        }
    }
}

// A call that may change the chip or the area, as a line of a script says it.
#[derive(Clone, Copy)]
pub enum Call {
    Put(Text, Text),
    // so many puts of the key, with the values 0, 1, 2, ..
    Puts(Text, u64),
    Delete(Text),
    Start,
    Format,
}

impl Call {
    // The call of a line: put KEY VALUE, puts KEY N, delete KEY, start or format.
    pub fn read(line: &[u8]) -> Option<Call>
        ensures { IfSome result IsCut }
    {
        match trying::word(line, 0) {
            b"put" => Some(Call::Put(trying::bytes(line, 1), trying::bytes(line, 2))),
            b"puts" => Some(Call::Puts(trying::bytes(line, 1), trying::numeral(line, 2))),
            b"delete" => Some(Call::Delete(trying::bytes(line, 1))),
            b"start" => Some(Call::Start),
            b"format" => Some(Call::Format),
            _ => None,
        }
    }
}

// The noise whose page, where it has one, is that of "put a 2".
pub fn fill_noise(which: Noise, noise: &mut [u8; 4096])
    ensures { EachIndex noise.new (λ i. slice_index noise.new i ≡ noise_byte which (record_page (record_of false (codes "a") (codes "2"))) i) }
{
    which.fill(&record::encode(false, b"a", b"2"), noise);
}

// The same noise, of its own.
pub fn noise(which: Noise) -> [u8; 4096]
    ensures { EachIndex result (λ i. slice_index result i ≡ noise_byte which (record_page (record_of false (codes "a") (codes "2"))) i) }
{
    let mut noise = [0u8; 4096];
    fill_noise(which, &mut noise);
    noise
}

#[cfg(test)]
mod tests {
    use super::*;
    use std::test::Fail;

    #[test]
    fn lines_are_read(rt: HostRuntime) -> Result<(), Fail> {
        assert!(rt;
            matches!(Call::read(b"puts a*3 12"), Some(Call::Puts(key, 12)) if key.as_slice() == b"aaa".as_slice())
        );
        assert!(rt; Call::read(b"get a 3").is_none());
        Ok(())
    }

    #[test]
    fn a_key_is_put_often(rt: HostRuntime) -> Result<(), Fail> {
        let mut bench = Bench {
            chip: &mut [255; 16384],
            work: &mut [0; 80],
            fuse: &mut 1000,
            noise: &[0; 4096],
        };
        assert!(rt; bench.start() == Ok(0));
        assert!(rt; bench.put_often(b"a", 3) == Ok(0));
        let mut buffer = [0; 220];
        assert!(rt; bench.get(b"a", &mut buffer) == Ok(1));
        assert_eq!(rt; buffer[0], b'2');
        assert!(rt; bench.put_often(&[b'a'; 300], 3) == Err(Refusal::BadKey));
        assert!(rt; bench.put_often(&[b'a'; 300], 0) == Ok(0));
        Ok(())
    }
}
