// The bytes of a page (document 01, section 2; document 02, request 3): is it blank, is it sound in its form, and the page of a payload.
// The definitions are in specs/Page.antt and specs/Look.antt; specs/Lanes.antt says in which order bits are counted.
// A test for blank leaves at the first run of 64 bytes that has another byte. Within a run, and in the tests for sound, a loop passes over all bytes:
// so the compiler vectorises it.
#![tactic(auto)]

ghost use Rattle.std.specs.Prelude.{◌≡◌, ◌+◌, ◌-◌, ◌*◌, ◌≤◌, ◌<◌, eqb, take, unwrap_or, IfSome};
ghost use Rattle.std.specs.Int.Bits.{bit_and, bit_or, bit_xor};
ghost use Rattle.std.specs.Int.Count.{ones};
ghost use Rattle.page.specs.Page.{Bare, blank, blank_run, flips, flipped, ones_to, counted, count_form, sound};
ghost use Rattle.page.specs.Lanes.{ones_at, ones_lane};
ghost use Rattle.page.specs.Look.{Apart, spoilt_at, look_of};

// A page.
pub type Page = [u8; 256];

// Whether y is 255 minus x.
fn flips(x: u8, y: u8) -> bool
    ensures { result ≡ flips x y }
{
    y == 255 - x
}

// Whether the 64 bytes from index `from` on all read 0xFF.
fn blank_run(page: &Page, from: usize) -> bool
    requires { from + 64 ≤ 256 }
    ensures { result ≡ blank_run page.now from }
{
    let mut ok = true;
    for x in &page[from..from + 64] {
        ok &= *x == 255;
    }
    ok
}

// Whether all 256 bytes read 0xFF. After a run that has another byte none is looked at.
pub fn is_blank(page: &Page) -> bool
    ensures { result ≡ blank page.now }
{
    for run in 0..4 {
        if !blank_run(page, 64 * run) {
            return false;
        }
    }
    true
}

// Whether the second half of the page is the flipped copy of the first.
fn is_flipped(page: &Page) -> bool
    ensures { result ≡ flipped page.now }
{
    let mut ok = true;
    for i in 0..128 {
        ok &= flips(page[i], page[128 + i]);
    }
    ok
}

// Eight bytes as one number. (The compiler makes one load of it.)
fn eight_at(page: &Page, a: usize) -> u64
    requires { a + 8 ≤ 256 }
    ensures { ones result ≡ ones_at page.now a }
{
    u64::from_le_bytes([
        page[a],
        page[a + 1],
        page[a + 2],
        page[a + 3],
        page[a + 4],
        page[a + 5],
        page[a + 6],
        page[a + 7],
    ])
}

// Three numbers are added bit by bit: where two bits or three are 1, and where one is or all three are. So three numbers are two to be counted.
fn twos(a: u64, b: u64, c: u64) -> u64
    ensures { result ≡ bit_or (bit_and a b) (bit_and (bit_xor a b) c) }
{
    (a & b) | ((a ^ b) & c)
}

fn odds(a: u64, b: u64, c: u64) -> u64
    ensures { result ≡ bit_xor (bit_xor a b) c }
{
    a ^ b ^ c
}

// The 1 bits of four numbers, those of the first four times and those of the second twice.
fn weigh(f: u64, t: u64, a: u64, b: u64) -> u32
    ensures { result ≡ 4 * ones f + 2 * ones t + ones a + ones b }
{
    4 * f.count_ones() + 2 * t.count_ones() + a.count_ones() + b.count_ones()
}

// The 1 bits of eight numbers, of which four are counted.
fn ones_of_eight(a: u64, b: u64, c: u64, d: u64, e: u64, f: u64, g: u64, h: u64) -> u32
    ensures { result ≡ ones a + ones b + ones c + ones d + ones e + ones f + ones g + ones h }
{
    let t = twos(a, b, c);
    let o = odds(a, b, c);
    let u = twos(d, e, f);
    let p = odds(d, e, f);
    let v = twos(o, p, g);
    let q = odds(o, p, g);
    weigh(twos(t, u, v), odds(t, u, v), q, h)
}

// The 1 bits of a lane: eight numbers of eight bytes, from byte a on every 32 bytes.
fn lane(page: &Page, a: usize) -> u32
    requires { a + 232 ≤ 256 }
    ensures { (result ≡ ones_lane page.now a) × (result ≤ 512) }
{
    ones_of_eight(
        eight_at(page, a),
        eight_at(page, a + 32),
        eight_at(page, a + 64),
        eight_at(page, a + 96),
        eight_at(page, a + 128),
        eight_at(page, a + 160),
        eight_at(page, a + 192),
        eight_at(page, a + 224),
    )
}

// How many bits of a page are 1: four lanes, side by side, so that the compiler vectorises the loop.
fn one_bits(page: &Page) -> u32
    ensures { (result ≡ ones_to page.now 256) × (result ≤ 2048) }
{
    let mut n = 0;
    for j in 0..4 {
        n += lane(page, 8 * j);
    }
    n
}

// Whether the last two bytes of a page are the number of the 0 bits before them. n: how many bits of the page are 1, those of the two bytes among them.
fn counts(high: u8, low: u8, n: u32) -> bool
    requires { n ≤ 2048 }
    ensures { result ≡ eqb (256 * high + low + n) (2032 + ones high + ones low) }
{
    u32::from(u16::from_be_bytes([high, low])) + n == 2032 + high.count_ones() + low.count_ones()
}

// The same of a page.
#[tactic(auto, using(crate::proofs::Forms::count_test))]
fn is_counted(page: &Page) -> bool
    ensures { result ≡ counted page.now }
{
    let n = one_bits(page);
    counts(page[254], page[255], n)
}

// Whether a page is sound in its form, which byte 0 says. (A byte and no enum, which would be no plainer: `sound` of specs/Page.antt asks it for 1 and for 2.)
#[tactic(auto, using(crate::proofs::Forms::sound_one_lem, crate::proofs::Forms::sound_two, crate::proofs::Forms::sound_neither))]
pub fn is_sound(page: &Page) -> bool
    ensures { result ≡ sound page.now }
{
    if page[0] == 1 {
        return is_flipped(page);
    }
    if page[0] == 2 {
        return is_counted(page);
    }
    false
}

// The lowest byte of the first half whose copy in the second is another.
fn first_apart(page: &Page) -> Option<usize>
    ensures lowest { Apart page.now (unwrap_or result 128) }
    ensures within { IfSome result (λ k. k < 128) }
{
    for k in 0..128 {
        if !flips(page[k], page[128 + k]) {
            return Some(k);
        }
    }
    None
}

// What a page is: blank, sound, or spoilt, and then at which byte.
#[derive(Clone, Copy)]
pub enum Look {
    Blank,
    Sound,
    Spoilt(usize),
}

// Which byte is told of a spoilt page.
fn spoilt_at(page: &Page) -> usize
    ensures { result ≡ spoilt_at page.now }
{
    if page[0] == 2 {
        return 254;
    }
    first_apart(page).unwrap_or(0)
}

// What a page is.
#[tactic(auto, using(crate::proofs::Lowest::look_blank, crate::proofs::Lowest::look_sound, crate::proofs::Lowest::look_spoilt))]
pub fn look_at(page: &Page) -> Look
    ensures { result ≡ look_of page.now }
{
    if is_blank(page) {
        return Look::Blank;
    }
    if is_sound(page) {
        return Look::Sound;
    }
    Look::Spoilt(spoilt_at(page))
}

// How many bits of the first n numbers of eight bytes are 1.
fn ones_to(page: &Page, n: usize) -> u32
    requires { n ≤ 32 }
    ensures { result ≡ ones_to page.now (8 * n) }
{
    let mut ones = 0;
    for i in 0..n {
        ones += eight_at(page, 8 * i).count_ones();
    }
    ones
}

// Makes the buffer the page of the payload that stands in its first 254 bytes: behind it comes the number of its 0 bits. From byte `used` on there are zeros,
// whose bits need not be counted.
pub fn fill(page: &mut Page, used: usize)
    requires { (used ≤ 254) × Bare page.old used }
    ensures { page.new ≡ count_form (take 254 page.old) }
{
    let zeros = 2032 - ones_to(page, (used + 7) / 8);
    let [high, low] = (zeros as u16).to_be_bytes();
    page[254] = high;
    page[255] = low;
}
