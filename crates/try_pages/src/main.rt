// The pages of a value, of a note and of a seal, and that of the value in the old form, byte by byte as they stand on a chip, with what is read off them in
// place. docs/FORMAT.md shows the first and the last. Then the three examples of document 02, request 3.
#![tactic(auto)]

ghost use Rattle.std.specs.Prelude.{◌≡◌, ◌+◌, ◌*◌, ◌≤◌, length};

use chip::{Chip, Halt};
use page::Page;
use std::io;
use trying::Says;

// 32 bytes to a line.
fn print_bytes(rt: &impl Print, page: &Page) -> io::Result<()> {
    for (i, b) in page.iter().enumerate() {
        let end = if i % 32 == 31 { '\n' } else { ' ' };
        print!(rt; "{b:02x}{end}")?;
    }
    Ok(())
}

fn print_page(rt: &impl Print, chip: &[u8], p: usize) -> io::Result<()>
    requires { 256 * p + 256 ≤ length chip.now }
{
    let page = chip::page_at(chip, p);
    print!(rt; "{}, key '", Says(record::kind_of(&page)))?;
    rt.write_all(record::key_on(&page))?;
    print!(rt; "', value '")?;
    rt.write_all(record::value_on(&page))?;
    println!(rt; "'")?;
    print_bytes(rt, &page)
}

// ---- the pages

// The page of the old form says what the first does.
fn write_pages(chip: &mut Chip<'_>) -> Result<(), Halt>
    requires { length chip.old.bytes.now ≡ 4096 }
{
    let value = record::encode(false, b"a", b"1");
    chip.write(0, &value)?;
    chip.write(
        1,
        &record::encode(true, b"sensor/temp/0016", b"not written"),
    )?;
    chip.write(15, &record::seal())?;
    chip.write(2, &trying::old_page(&value))
}

// A chip of one block with these pages. The power stays on, so that nothing halts.
fn written() -> [u8; 4096] {
    let mut bytes = [255u8; 4096];
    let mut fuse = 9;
    let _ = write_pages(&mut Chip::new(&mut bytes, &mut fuse, &[0u8; 4096]));
    bytes
}

fn print_pages(rt: &impl Print) -> io::Result<()> {
    let chip = written();
    print_page(rt, &chip, 0)?;
    print_page(rt, &chip, 1)?;
    print_page(rt, &chip, 15)?;
    print!(rt; "in the old form: ")?;
    print_page(rt, &chip, 2)
}

// ---- the examples

// How many bits are 1.
fn ones(payload: &[u8]) -> u32
    requires { length payload.now ≤ 254 }
{
    payload.iter().map(|b| b.count_ones()).sum()
}

// The form, the number of the payload's 1 bits, the last two bytes, and what it is.
fn print_ends(rt: &impl Print, name: &str, page: &Page) -> io::Result<()> {
    print!(rt;
        "{name}: begins with {:02x}, bits 1: {}",
        page[0],
        ones(&page[..254])
    )?;
    print!(rt; ", ends with {:02x}{:02x}; ", page[254], page[255])?;
    let sound = if page::is_sound(page) {
        "sound"
    } else {
        "not sound"
    };
    println!(rt; "{sound}, says {}", Says(record::kind_of(page)))
}

// All zeros have 0x07F0; byte 0 is a form that there isn't, and so it is no page of the store.
fn show_zeros(rt: &impl Print) -> io::Result<()> {
    print_ends(rt, "zeros, counted", &trying::new_page([0u8; 256]))
}

// A count of the 1 bits instead: a page of one bit has 0x0001. Cut short, two bits more and one more of the count may stay 1, and it counts its 1 bits again.
fn show_ones(rt: &impl Print) -> io::Result<()> {
    let mut page = [0u8; 256];
    page[0] = 2;
    page[255] = 1;
    print_ends(rt, "a page of one bit, its bits 1 counted", &page)?;
    page[1] = 3;
    page[255] = 3;
    print_ends(rt, "the same, cut short", &page)?;
    page[1] = 0;
    let mut counted = trying::new_page(page);
    print_ends(rt, "a page of one bit, its bits 0 counted", &counted)?;
    counted[1] = 3;
    print_ends(rt, "the same, cut short", &counted)
}

// An old page whose payload ends in two bytes 0xFF. A cut erase may leave the number of the 0 bits before them in its last two bytes, as may a cut write. It isn't
// taken for one of the new form, as it would be if byte 0 said so.
fn show_old(rt: &impl Print) -> io::Result<()> {
    let mut value = record::encode(false, b"a", b"1");
    value[126] = 255;
    value[127] = 255;
    let mut page = trying::old_page(&value);
    print_ends(rt, "an old page whose payload ends in ffff", &page)?;
    page[254] = 0x03;
    page[255] = 0xF0;
    print_ends(rt, "the same, cut short", &page)?;
    page[0] = 2;
    print_ends(rt, "the same, were its form the other", &page)
}

fn main(rt: HostRuntime) -> io::Result<()> {
    print_pages(&rt)?;
    show_zeros(&rt)?;
    show_ones(&rt)?;
    show_old(&rt)
}
