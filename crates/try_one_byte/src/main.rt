// The example of document 01, section 2, counted by trying all: payload 0x01, copy 0xFE. A cut write may leave any of 256 pairs, seven payload bits and one copy
// bit being free to stay 1. Which of them are sound? Byte 0 of a page is its form, so that the example is byte 1 of a page of the old form.
// Then the same for the count form: byte 1 of the payload is 0x01, and the number of the page's 0 bits, in its last two bytes, is 0x07EE. Seven bits of the payload
// and seven of the count may stay 1.
#![tactic(auto)]

use page::Page;
use std::io;

// How many pairs, and how many triples, a cut write may leave.
const PAIRS: u16 = 256;

const TRIPLES: u16 = 16384;

// ---- the flipped copy

// Whether a page is sound whose byte 1 is x and its copy y, and which is whole otherwise.
fn sound_pair(x: u8, y: u8) -> bool {
    let mut page = trying::old_page(&[0u8; 256]);
    page[1] = x;
    page[129] = y;
    page::is_sound(&page)
}

// The noise's bits 1 to 7 go to the payload, and its bit 0 to the copy, whose one 0 bit that is.
fn try_pairs(rt: &impl Print) -> io::Result<()> {
    for noise in 0..=u8::MAX {
        let x = 0x01 | noise;
        let y = 0xFE | noise;
        if sound_pair(x, y) {
            println!(rt; "sound: {x:02x} {y:02x}")?;
        }
    }
    println!(rt; "pairs tried: {PAIRS}")
}

// ---- the count

// A page of the new form whose byte 1 is 0x01, with no count yet.
fn meant() -> Page {
    let mut page = [0u8; 256];
    page[0] = 2;
    page[1] = 0x01;
    page
}

// Whether that page is sound where its byte 1 is x and its count high and low.
fn sound_triple(x: u8, high: u8, low: u8) -> bool {
    let mut page = meant();
    page[1] = x;
    page[254] = high;
    page[255] = low;
    page::is_sound(&page)
}

// The noise's bits 1 to 7 go to the payload, bits 8 to 12 to the high byte of the count, and bit 0 and bit 13 to the low one.
fn try_triples(rt: &impl Print) -> io::Result<()> {
    let whole = trying::new_page(meant());
    println!(rt;
        "meant: {:02x} {:02x} {:02x}",
        whole[1], whole[254], whole[255]
    )?;
    for noise in 0..TRIPLES {
        let [bits, more] = noise.to_le_bytes();
        let x = 0x01 | bits;
        let high = 0x07 | more % 32 * 8;
        let low = 0xEE | bits % 2 | more / 32 % 2 * 16;
        if sound_triple(x, high, low) {
            println!(rt; "sound: {x:02x} {high:02x} {low:02x}")?;
        }
    }
    println!(rt; "triples tried: {TRIPLES}")
}

fn main(rt: HostRuntime) -> io::Result<()> {
    try_pairs(&rt)?;
    try_triples(&rt)
}
