// What an erase or a write that is cut leaves (document 03, section 1).
ghost use Rattle.std.specs.Prelude.{◌≡◌, ◌<◌, ◌+◌, ◌*◌, EachIndex, slice_index};
ghost use Rattle.trying.specs.Noises.{Names, noise_byte, noise_name};

use page::Page;
use std::fmt;

// The noises that the programs cut with: zeros, ones, mixed; forged: the page again and again, so that an erase leaves a block full of sound pages, and sealed;
// kept: the page at its place and ones elsewhere, so that an erase leaves it as it was.
#[derive(Clone, Copy, Debug, PartialEq, Eq)]
pub enum Noise {
    Zeros,
    Ones,
    Mixed,
    Forged,
    Kept,
}

// A name that no noise has.
#[derive(Clone, Copy, Debug, PartialEq, Eq)]
pub struct Unnamed;

// Every noise.
pub const NOISES: [Noise; 5] = [
    Noise::Zeros,
    Noise::Ones,
    Noise::Mixed,
    Noise::Forged,
    Noise::Kept,
];

impl Noise {
    // Byte i of the noise's page p, by the page. (The sum in u16, and not narrowed from an index: so eight are made at a time.)
    fn byte(self, page: &Page, p: usize, i: usize) -> u8
        requires { (p < 16) × (i < 256) }
        ensures { result ≡ noise_byte self page.now (256 * p + i) }
    {
        match self {
            Noise::Zeros => 0,
            Noise::Ones => 255,
            Noise::Mixed => ((256 * p as u16 + i as u16) % 251) as u8,
            Noise::Forged => page[i],
            Noise::Kept if p == 1 => page[i],
            Noise::Kept => 255,
        }
    }

    // The noise, by the page. (No `array::from_fn`: that each byte is the one it should be didn't prove. Page by page, it takes half the time.)
    pub fn fill(self, page: &Page, noise: &mut [u8; 4096])
        ensures { EachIndex noise.new (λ i. slice_index noise.new i ≡ noise_byte self page.now i) }
    {
        for p in 0..16 {
            for i in 0..256 {
                noise[256 * p + i] = self.byte(page, p, i);
            }
        }
    }

    pub fn bytes(self, page: &Page) -> [u8; 4096]
        ensures { EachIndex result (λ i. slice_index result i ≡ noise_byte self page.now i) }
    {
        let mut noise = [0u8; 4096];
        self.fill(page, &mut noise);
        noise
    }

    pub fn name(self) -> &'static str
        ensures { result.now ≡ noise_name self }
    {
        match self {
            Noise::Zeros => "zeros",
            Noise::Ones => "ones",
            Noise::Mixed => "mixed",
            Noise::Forged => "forged",
            Noise::Kept => "kept",
        }
    }
}

impl TryFrom<&[u8]> for Noise {
    type Error = Unnamed;

    ghost try_from_gives = { λ name r. Names name.now r };

    fn try_from(name: &[u8]) -> Result<Self, Unnamed> {
        match name {
            b"zeros" => Ok(Noise::Zeros),
            b"ones" => Ok(Noise::Ones),
            b"mixed" => Ok(Noise::Mixed),
            b"forged" => Ok(Noise::Forged),
            b"kept" => Ok(Noise::Kept),
            _ => Err(Unnamed),
        }
    }
}

impl fmt::Display for Noise {
    fn fmt<W: fmt::Write>(&self, f: &mut fmt::Formatter<W>) -> fmt::Result {
        f.write_str(self.name())
    }
}
