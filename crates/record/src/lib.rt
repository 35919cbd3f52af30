// What a page says: a value that was put, a note of a deletion, or nothing; and the pages of a record and of a seal.
// The layout is in docs/FORMAT.md, the definitions in specs/Record.antt. What is looked at is a page, or its beginning, as `chip` read it.
// Any bytes say something or nothing; no bytes make a call trap.
#![tactic(auto)]

ghost use Rattle.std.specs.Prelude.{◌≡◌, ◌+◌, ◌*◌, ◌≤◌, min, length};
ghost use Rattle.chip.specs.Chip.{page_at};
ghost use Rattle.record.specs.Record.{most_value, longest, is_value, is_note, rec_of, key_on, value_length, value_on, value_at, new_page, record_of, record_page, seal_page, anew};
ghost use Rattle.record.specs.Kinds.{kind_of};
ghost use Rattle.record.specs.Marks.{mark_byte};

use page::Page;

// The longest value.
pub const MOST_VALUE: usize = 220;

// The kinds of what a page says. A seal says nothing.
#[derive(Clone, Copy)]
pub enum Kind {
    Value,
    Note,
}

// Byte 1 of a page that is written.
#[derive(Clone, Copy)]
enum Mark {
    Value = 1,
    Note = 2,
    Seal = 3,
}

impl Mark {
    fn byte(self) -> u8
        ensures { result ≡ mark_byte self }
    {
        self as u8
    }
}

// The longest value that a page of a form has. (The form is a byte and no enum: no plainer, it is asked for 1 alone.)
fn longest(form: u8) -> u8
    ensures { result ≡ longest form }
{
    if form == 1 { 96 } else { 220 }
}

// Whether bytes 0 to 3 of a page are those of a value.
fn is_value(form: u8, kind: u8, klen: u8, vlen: u8) -> bool
    ensures { result ≡ is_value form kind klen vlen }
{
    (kind == Mark::Value.byte()) & (1..=16).contains(&klen) & (vlen <= longest(form))
}

// Whether bytes 1 to 3 of a page are those of a note.
fn is_note(kind: u8, klen: u8, vlen: u8) -> bool
    ensures { result ≡ is_note kind klen vlen }
{
    (kind == Mark::Note.byte()) & (1..=16).contains(&klen) & (vlen == 0)
}

// What kind of thing a page says. Four bytes are looked at first: of a blank page no more.
#[tactic(auto, using(crate::proofs::KindTests::test_neither, crate::proofs::KindTests::test_unsound, crate::proofs::KindTests::test_value, crate::proofs::KindTests::test_note))]
pub fn kind_of(page: &Page) -> Option<Kind>
    ensures { result ≡ kind_of (rec_of page.now) }
{
    let value = is_value(page[0], page[1], page[2], page[3]);
    let note = is_note(page[1], page[2], page[3]);
    if !(value | note) {
        return None;
    }
    if !page::is_sound(page) {
        return None;
    }
    Some(if value { Kind::Value } else { Kind::Note })
}

// The key on a page, of which the beginning will do: so it is a slice. A length that stands on a page is cut at what a page holds.
pub fn key_on(page: &[u8]) -> &[u8]
    requires { 32 ≤ length page.now }
    ensures { result.now ≡ key_on page.now }
{
    let n = usize::from(page[2]).min(16);
    &page[16..16 + n]
}

// How long the value on a page is, of which the beginning will do.
pub fn value_length(page: &[u8]) -> usize
    requires { 32 ≤ length page.now }
    ensures { result ≡ value_length page.now }
{
    usize::from(page[3]).min(MOST_VALUE)
}

// The value on a page.
pub fn value_on(page: &Page) -> &[u8]
    ensures { result.now ≡ value_on page.now }
{
    let n = value_length(page);
    &page[32..32 + n]
}

// The value on page p is read, to where there is as much room as it takes.
pub fn read_value(chip: &[u8], p: usize, to: &mut [u8])
    requires { (256 * p + 256 ≤ length chip.now) × (length to.old ≡ value_length (page_at chip.now p)) }
    ensures { to.new ≡ value_at chip.now p }
{
    chip::read(chip, 256 * p + 32, to);
}

// The page of a mark, a key and a value.
fn page_of(mark: Mark, key: &[u8], value: &[u8]) -> Page
    requires { (length key.now ≤ 16) × (length value.now ≤ most_value) }
    ensures { result ≡ new_page (mark_byte mark) key.now value.now }
{
    let mut page = [0u8; 256];
    page[0] = 2;
    page[1] = mark.byte();
    page[2] = key.len() as u8;
    page[3] = value.len() as u8;
    page[16..16 + key.len()].copy_from_slice(key);
    page[32..32 + value.len()].copy_from_slice(value);
    page::fill(&mut page, 32 + value.len());
    page
}

// The page of a record: of a note of the key's deletion, or of its value. (`note` is a bool as in `record_of` of specs/Record.antt, of which the laws of the
// log and the theorems of a change speak.)
#[tactic(auto, using(crate::proofs::Laying::page_note, crate::proofs::Laying::page_value))]
pub fn encode(note: bool, key: &[u8], value: &[u8]) -> Page
    requires { (length key.now ≤ 16) × (length value.now ≤ most_value) }
    ensures { result ≡ record_page (record_of note key.now value.now) }
{
    if note {
        return page_of(Mark::Note, key, b"");
    }
    page_of(Mark::Value, key, value)
}

// A page made anew: what it says is decoded, and encoded in the form that is written now. One that says nothing stays as it is: a page that went bad must not
// become a sound one.
pub fn anew(page: &Page) -> Page
    ensures { result ≡ anew page.now }
{
    match kind_of(page) {
        Some(Kind::Value) => encode(false, key_on(page), value_on(page)),
        Some(Kind::Note) => encode(true, key_on(page), value_on(page)),
        None => *page,
    }
}

// The page of a seal.
#[tactic(auto, unfolding(crate::specs::Record::seal_page))]
pub fn seal() -> Page
    ensures { result ≡ seal_page }
{
    page_of(Mark::Seal, b"", b"")
}
