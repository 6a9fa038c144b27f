// Numbers, words and lines written into lent buffers: each from `at` on, and back comes the place behind what was written. Every public
// function is total: what does not fit whole into a buffer is not written at all.
#![tactic(auto)]

ghost use Rattle.std.specs.Prelude.{◌≡◌, ◌+◌, ◌*◌, ◌<◌, ◌≤◌, ◌↔◌, length, IsTrue, MatchOption};
ghost use Rattle.std.proofs.lemmas.List.Edits.{sets};
ghost use Rattle.buffer.specs.Decimal.{show_natural, show_number};
ghost use Rattle.buffer.specs.Lines.{field_bytes, line_bytes};
ghost use Rattle.buffer.specs.Words.{encode};
ghost use Rattle.buffer.specs.Fitting.{fitting};
ghost use Rattle.buffer.specs.Code.{Put};

use itoa::write_digits;

// ---- where there is room

fn write_bytes(bytes: &[u8], out: &mut [u8], at: usize) -> usize
    requires { at + length bytes.now ≤ length out.old }
    ensures { Put out.old at bytes.now out.new result }
{
    let end = at + bytes.len();
    out[at..end].copy_from_slice(bytes);
    end
}

// The digits of v.
fn write_natural(v: u64, out: &mut [u8], at: usize) -> usize
    requires { at + length (show_natural v) ≤ length out.old }
    ensures { Put out.old at (show_natural v) out.new result }
{
    // one digit needs no count
    if v < 10 {
        out[at] = b'0' + v as u8;
        return at + 1;
    }
    let end = at + natural_length(v);
    write_digits(v, out, end);
    end
}

#[tactic(auto, using(crate::proofs::Written::by_sign))]
fn write_number(z: i64, out: &mut [u8], at: usize) -> usize
    requires { at + length (show_number z) ≤ length out.old }
    ensures { Put out.old at (show_number z) out.new result }
{
    let v = z.unsigned_abs();
    if z < 0 {
        out[at] = b'-';
        return write_natural(v, out, at + 1);
    }
    write_natural(v, out, at)
}

// Each number behind a tab.
#[tactic(auto, using(crate::proofs::Lines::fields_room, word::proofs::Fits::back))]
fn write_fields(zs: &[i64], out: &mut [u8], at: usize) -> usize
    requires { at + length (field_bytes zs.now) ≤ length out.old }
    ensures { Put out.old at (field_bytes zs.now) out.new result }
{
    let mut end = at;
    for &z in zs {
        out[end] = b'\t';
        end = write_number(z, out, end + 1);
    }
    end
}

#[tactic(auto, using(crate::proofs::Lines::line_length, word::proofs::Fits::back))]
fn write_line(serial: i64, word: &[u8], fields: &[i64], out: &mut [u8], at: usize) -> usize
    requires { at + length (line_bytes serial word.now fields.now) ≤ length out.old }
    ensures { Put out.old at (line_bytes serial word.now fields.now) out.new result }
{
    let a = write_number(serial, out, at);
    out[a] = b'\t';
    let b = write_bytes(word, out, a + 1);
    let c = write_fields(fields, out, b);
    out[c] = b'\n';
    c + 1
}

fn write_words(numbers: &[i64], out: &mut [u8], at: usize) -> usize
    requires { at + 8 * length numbers.now ≤ length out.old }
    ensures { Put out.old at (encode numbers.now) out.new result }
{
    let mut end = at;
    for &z in numbers {
        end = write_bytes(&z.to_le_bytes(), out, end);
    }
    end
}

// ---- how much room there must be

// The longest number, -2^63, has 20 bytes.
const LONGEST: usize = 20;

#[tactic(auto, using(crate::proofs::Written::length_is))]
fn natural_length(v: u64) -> usize
    ensures count { result ≡ length (show_natural v) }
    ensures short { result ≤ 20 }
{
    v.max(1).ilog10() as usize + 1
}

#[tactic(auto, using(crate::proofs::Written::by_sign))]
fn number_length(z: i64) -> usize
    ensures count { result ≡ length (show_number z) }
    ensures short { result ≤ 21 }
{
    let n = natural_length(z.unsigned_abs());
    if z < 0 { n + 1 } else { n }
}

// The most bytes that a number takes with its tab.
#[tactic(auto, using(crate::proofs::Written::short_number))]
fn field_most(z: i64) -> usize
    ensures { (1 + length (show_number z) ≤ result) × (result ≤ 21) }
{
    LONGEST + 1
}

// Whether any line with such a word and so many fields fits: its digits are not counted.
fn surely_fits(word: &[u8], fields: &[i64], room: usize) -> bool
    ensures { IsTrue result → 22 + length word.now + length (field_bytes fields.now) ≤ room }
{
    // so that the sum does not overflow
    if fields.len() > 1000 {
        return false;
    }
    let mut most = word.len() + LONGEST + 2;
    for &z in fields {
        most += field_most(z);
    }
    most <= room
}

// How much room there is behind a line, if it fits.
#[tactic(auto, using(crate::proofs::Lines::line_length, crate::proofs::Lines::fields_room, word::proofs::Fits::back))]
fn room_left(serial: i64, word: &[u8], fields: &[i64], room: usize) -> Option<usize>
    ensures { MatchOption result (room < length (line_bytes serial word.now fields.now)) (λ left. left + length (line_bytes serial word.now fields.now) ≡ room) }
{
    // with the tab before the word and byte 10
    let mut left = room.checked_sub(number_length(serial) + word.len() + 2)?;
    for &z in fields {
        left = left.checked_sub(number_length(z) + 1)?;
    }
    Some(left)
}

#[tactic(auto, using(crate::proofs::Lines::line_length, crate::proofs::Written::short_number))]
fn line_fits(serial: i64, word: &[u8], fields: &[i64], room: usize) -> bool
    ensures { IsTrue result ↔ (length (line_bytes serial word.now fields.now) ≤ room) }
{
    surely_fits(word, fields, room) || room_left(serial, word, fields, room).is_some()
}

// ---- all or nothing

#[tactic(auto, using(crate::proofs::Fitting::fits))]
pub fn put_bytes(bytes: &[u8], out: &mut [u8], at: usize) -> usize
    ensures count { result ≡ at + length (fitting out.old at bytes.now) }
    ensures bytes { out.new ≡ sets out.old at (fitting out.old at bytes.now) }
{
    match out.len().checked_sub(at) {
        Some(room) if bytes.len() <= room => write_bytes(bytes, out, at),
        _ => at,
    }
}

// A number in decimal digits.
#[tactic(auto, using(crate::proofs::Fitting::fits))]
pub fn put_number(z: i64, out: &mut [u8], at: usize) -> usize
    ensures count { result ≡ at + length (fitting out.old at (show_number z)) }
    ensures bytes { out.new ≡ sets out.old at (fitting out.old at (show_number z)) }
{
    match out.len().checked_sub(at) {
        Some(room) if number_length(z) <= room => write_number(z, out, at),
        _ => at,
    }
}

// A line: a serial, a word and numbers.
#[tactic(auto, using(crate::proofs::Fitting::fits))]
pub fn put_line(serial: i64, word: &[u8], fields: &[i64], out: &mut [u8], at: usize) -> usize
    ensures count { result ≡ at + length (fitting out.old at (line_bytes serial word.now fields.now)) }
    ensures bytes { out.new ≡ sets out.old at (fitting out.old at (line_bytes serial word.now fields.now)) }
{
    match out.len().checked_sub(at) {
        Some(room) if line_fits(serial, word, fields, room) => {
            write_line(serial, word, fields, out, at)
        }
        _ => at,
    }
}

// Numbers of eight bytes each, two's complement, the low byte first.
#[tactic(auto, using(crate::proofs::Fitting::fits, crate::proofs::Words::length_encode))]
pub fn put_words(numbers: &[i64], out: &mut [u8], at: usize) -> usize
    ensures count { result ≡ at + length (fitting out.old at (encode numbers.now)) }
    ensures bytes { out.new ≡ sets out.old at (fitting out.old at (encode numbers.now)) }
{
    match out.len().checked_sub(at) {
        Some(room) if numbers.len() <= room / 8 => write_words(numbers, out, at),
        _ => at,
    }
}
