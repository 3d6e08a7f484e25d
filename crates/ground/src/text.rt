// The text (document 01, piece 2): UTF-8 by the table of lead bytes, kanji, and the two rows of the character table.
ghost use Rattle.std.specs.Prelude.{◌≡◌, ◌+◌, ◌-◌, ◌*◌, ◌%◌, ◌<◌, ◌≤◌, length, take, drop, get_or};
ghost use Rattle.ground.specs.Limits.{character_limit};
ghost use Rattle.ground.specs.Rows.{over};
ghost use Rattle.ground.specs.Text.{leads, lead_row, may_follow, letter_of, letter_at, letters, sizes, offsets, is_kanji, runs, run_of};
ghost use Rattle.ground.specs.Characters.{checked, Sound, outcome};
ghost use Rattle.ground.specs.Filling.{size_by_lead, letter_of_size, kanji_bit, is_set, kanji_bits, counted};

use crate::answer::{Answer, Done, Refusal};

// The most bytes and the most characters of a text.
pub const TEXT_LIMIT: usize = 16_384;

pub const CHARACTER_LIMIT: usize = 4_096;

// The bytes that may stand third and fourth.
const LATER_LOW: u8 = 0x80;

const LATER_HIGH: u8 = 0xbf;

// A row of RFC 3629's table: lead bytes, second bytes, and the character's length.
#[derive(Clone, Copy)]
pub struct Lead {
    pub low: u8,
    pub high: u8,
    pub second_low: u8,
    pub second_high: u8,
    pub size: usize,
}

// The row of nearly every character of an address, and so the one to test first.
const COMMON: Lead = Lead {
    low: 0xe1,
    high: 0xec,
    second_low: 0x80,
    second_high: 0xbf,
    size: 3,
};

const LEADS: [Lead; 9] = [
    Lead {
        low: 0x00,
        high: 0x7f,
        second_low: 0x00,
        second_high: 0x00,
        size: 1,
    },
    Lead {
        low: 0xc2,
        high: 0xdf,
        second_low: 0x80,
        second_high: 0xbf,
        size: 2,
    },
    Lead {
        low: 0xe0,
        high: 0xe0,
        second_low: 0xa0,
        second_high: 0xbf,
        size: 3,
    },
    COMMON,
    Lead {
        low: 0xed,
        high: 0xed,
        second_low: 0x80,
        second_high: 0x9f,
        size: 3,
    },
    Lead {
        low: 0xee,
        high: 0xef,
        second_low: 0x80,
        second_high: 0xbf,
        size: 3,
    },
    Lead {
        low: 0xf0,
        high: 0xf0,
        second_low: 0x90,
        second_high: 0xbf,
        size: 4,
    },
    Lead {
        low: 0xf1,
        high: 0xf3,
        second_low: 0x80,
        second_high: 0xbf,
        size: 4,
    },
    Lead {
        low: 0xf4,
        high: 0xf4,
        second_low: 0x80,
        second_high: 0x8f,
        size: 4,
    },
];

// A letter is one of document 01's characters: its length in bytes and its code point.
#[derive(Clone, Copy)]
pub struct Letter {
    pub size: usize,
    pub code: u32,
}

// Whether a byte lies in a range, both ends in it.
fn within(low: u8, high: u8, byte: u8) -> bool
    ensures { result ≡ Rattle.ground.specs.Text.within low high byte }
{
    (low..=high).contains(&byte)
}

// The row that has the byte as a lead byte.
fn lead_row(byte: u8) -> Option<Lead>
    ensures { result ≡ lead_row leads byte }
{
    for row in LEADS {
        if within(row.low, row.high, byte) {
            return Some(row);
        }
    }
    None
}

// Whether what stands behind the lead byte may follow it. (That a size is from 1 to 4 is asked for, here and below, and is no invariant of `Lead`: its
// rows are plain data in specs/, where each would carry a proof.)
fn may_follow(row: Lead, bytes: &[u8]) -> bool
    requires { (1 ≤ row.size) × (row.size ≤ 4) × (row.size ≤ length bytes.now) }
    ensures { result ≡ may_follow row (take (row.size - 1) (drop 1 bytes.now)) }
{
    let size = row.size;
    if size == 1 {
        return true;
    }
    if !within(row.second_low, row.second_high, bytes[1]) {
        return false;
    }
    if size == 2 {
        return true;
    }
    if !within(LATER_LOW, LATER_HIGH, bytes[2]) {
        return false;
    }
    if size == 3 {
        return true;
    }
    within(LATER_LOW, LATER_HIGH, bytes[3])
}

// The code so far with the six bits of one more byte.
fn with_six(code: u32, byte: u8) -> u32
    requires { code < 65536 }
    ensures { result ≡ code * 64 + byte % 64 }
{
    code * 64 + u32::from(byte) % 64
}

// The code point of a character of so many bytes.
fn code_of(bytes: &[u8], size: usize) -> u32
    requires { (1 ≤ size) × (size ≤ 4) × (size ≤ length bytes.now) }
    ensures { result ≡ (letter_of_size bytes.now size).code }
{
    let lead = u32::from(bytes[0]);
    if size == 1 {
        return lead;
    }
    if size == 2 {
        return with_six(lead % 32, bytes[1]);
    }
    if size == 3 {
        return with_six(with_six(lead % 16, bytes[1]), bytes[2]);
    }
    with_six(with_six(with_six(lead % 8, bytes[1]), bytes[2]), bytes[3])
}

// The character of so many bytes that the bytes begin with.
fn letter_of_size(bytes: &[u8], size: usize) -> Letter
    requires { (1 ≤ size) × (size ≤ 4) × (size ≤ length bytes.now) }
    ensures { result ≡ letter_of_size bytes.now size }
{
    Letter {
        size,
        code: code_of(bytes, size),
    }
}

// The character of a row that the bytes begin with.
fn letter_by(row: Lead, bytes: &[u8]) -> Option<Letter>
    requires { (1 ≤ row.size) × (row.size ≤ 4) × (0 < length bytes.now) }
    ensures { result ≡ letter_of row (get_or bytes.now 0 0) (take (row.size - 1) (drop 1 bytes.now)) }
{
    let size = row.size;
    if bytes.len() < size {
        return None;
    }
    if !may_follow(row, bytes) {
        return None;
    }
    Some(letter_of_size(bytes, size))
}

// The character that the bytes begin with, if they begin with a whole well-formed one.
fn letter_at(bytes: &[u8]) -> Option<Letter>
    ensures { result ≡ letter_at bytes.now }
{
    let lead = *bytes.first()?;
    if within(COMMON.low, COMMON.high, lead) {
        return letter_by(COMMON, bytes);
    }
    letter_by(lead_row(lead)?, bytes)
}

// How many whole well-formed characters the text begins with, and how many bytes they take.
#[derive(Clone, Copy)]
pub struct Measured {
    pub n: usize,
    pub bytes: usize,
}

fn measure(text: &[u8]) -> Measured
    ensures { (result.n ≡ length (letters text.now)) × (result.bytes ≡ sizes (letters text.now)) }
{
    let mut rest = text;
    let mut n = 0;
    while let Some(letter) = letter_at(rest) {
        let (_, behind) = rest.split_at(letter.size);
        rest = behind;
        n += 1;
    }
    Measured {
        n,
        bytes: text.len() - rest.len(),
    }
}

// The tests of a text in document 01's order, and its number of characters. Nothing is written.
pub fn check(text: &[u8]) -> Result<usize, Refusal>
    ensures { result ≡ checked text.now }
{
    if TEXT_LIMIT < text.len() {
        return Err(Refusal::TooLong);
    }
    let m = measure(text);
    if m.bytes < text.len() {
        return Err(Refusal::NotUtf8 {
            place: m.bytes as u32,
        });
    }
    if CHARACTER_LIMIT < m.n {
        return Err(Refusal::TooLong);
    }
    Ok(m.n)
}

// Both blocks are looked at, so that nothing is jumped over.
fn is_kanji(code: u32) -> bool
    ensures { result ≡ is_kanji code }
{
    (0x4e00..=0x9faf).contains(&code) | (0x3400..=0x4dbf).contains(&code)
}

// 1 for a kanji and 0 for another character: a number, since the run row holds it until the runs are counted.
fn kanji_bit(code: u32) -> u16
    ensures { result ≡ kanji_bit code }
{
    u16::from(is_kanji(code))
}

// What the filling takes of a character: its length and its kanji bit.
#[derive(Clone, Copy)]
pub struct Step {
    pub size: usize,
    pub bit: u16,
}

// The step over the character that well-formed bytes begin with, by its lead byte: nothing is tested again. No kanji has fewer
// than three bytes.
fn step_by_lead(bytes: &[u8]) -> Step
    requires { (0 < length bytes.now) × (size_by_lead (get_or bytes.now 0 0) ≤ length bytes.now) }
    ensures { (result.size ≡ size_by_lead (get_or bytes.now 0 0)) × (result.bit ≡ kanji_bit (letter_of_size bytes.now result.size).code) }
{
    let lead = bytes[0];
    if within(0xe0, 0xef, lead) {
        return Step {
            size: 3,
            bit: kanji_bit(code_of(bytes, 3)),
        };
    }
    if lead < 0x80 {
        return Step { size: 1, bit: 0 };
    }
    if lead < 0xe0 {
        return Step { size: 2, bit: 0 };
    }
    Step {
        size: 4,
        bit: kanji_bit(code_of(bytes, 4)),
    }
}

// The step at a place where a character is known to stand. (The place is the offset that is written, so it goes beside the text.)
fn known_step(text: &[u8], at: usize) -> Step
    requires { (at < length text.now) × (letter_at (drop at text.now) ≡ None → ⊥) }
    ensures letter { letter_at (drop at text.now) ≡ Some (letter_of_size (drop at text.now) result.size) }
    ensures bit { result.bit ≡ kanji_bit (letter_of_size (drop at text.now) result.size).code }
{
    step_by_lead(&text[at..])
}

// The offset row, and in the run row 1 for each kanji. (The text, n and both rows go beside one another, here and below: out of a struct a part of the
// run row would be lent on without its contents, and C may lend rows that are longer than n + 1.)
fn fill_bits(text: &[u8], n: usize, offset: &mut [u32], run: &mut [u16])
    requires sound { Sound text.now n }
    requires room { (n < length offset.old) × (n < length run.old) }
    ensures offset_after { offset.new ≡ over (offsets (letters text.now)) offset.old }
    ensures run_after { run.new ≡ over (kanji_bits (letters text.now)) run.old }
{
    let mut at = 0;
    for i in 0..n {
        let step = known_step(text, at);
        offset[i] = at as u32;
        run[i] = step.bit;
        at += step.size;
    }
    offset[n] = at as u32;
    run[n] = 0;
}

// The run at a place, by its kanji bit and the run behind it.
fn run_of(bit: u16, behind: u16) -> u16
    requires { behind < 65535 }
    ensures { result ≡ run_of (is_set bit) behind }
{
    if bit == 0 { 0 } else { 1 + behind }
}

// The first n places of the row, kanji bits, made runs from the right.
fn count_runs(run: &mut [u16], n: usize)
    requires { (n < length run.old) × (n ≤ character_limit) × (get_or run.old n 0 ≡ 0) }
    ensures { run.new ≡ counted (take n run.old) (drop n run.old) }
{
    for i in (0..n).rev() {
        run[i] = run_of(run[i], run[i + 1]);
    }
}

// Both rows of the character table, of a text that passed its tests and has n characters.
pub fn fill(text: &[u8], n: usize, offset: &mut [u32], run: &mut [u16])
    requires sound { Sound text.now n }
    requires room { (n < length offset.old) × (n < length run.old) }
    ensures offset_after { offset.new ≡ over (offsets (letters text.now)) offset.old }
    ensures run_after { run.new ≡ over (runs (letters text.now)) run.old }
{
    fill_bits(text, n, offset, run);
    count_runs(run, n);
}

// The public operation "character table alone".
pub fn characters(text: &[u8], offset: &mut [u32], run: &mut [u16]) -> Answer
    ensures { outcome result offset.new run.new
        ≡ Rattle.ground.specs.Characters.characters text.now offset.old run.old }
{
    let n = check(text)?;
    if offset.len() <= n {
        return Err(Refusal::ShortRow);
    }
    if run.len() <= n {
        return Err(Refusal::ShortRow);
    }
    fill(text, n, offset, run);
    Ok(Done {
        count: n as u32,
        cost: 0,
    })
}
