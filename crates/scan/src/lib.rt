// Bytes read from lent buffers: where a byte stands, numbers and words that a part of a slice is, and numbers from fields. Every public
// function is total: a part of a slice is cut to the slice.
#![tactic(auto)]

ghost use Rattle.std.specs.Prelude.{◌≡◌, ◌+◌, ◌≤◌, is_some, length};
ghost use Rattle.std.proofs.Math.Seq.{slice};
ghost use Rattle.scan.specs.Decimal.{read_natural, read_number};
ghost use Rattle.scan.specs.Find.{find_byte};
ghost use Rattle.scan.specs.Fields.{fields_at, same_bytes};
ghost use Rattle.scan.specs.Numbers.{numbers, stored};
ghost use Rattle.scan.specs.Code.{ends_at, field_at, Worth};

use memchr::memchr;

// What is read in front of a place: its value, and the place.
#[derive(Clone, Copy)]
struct Field<T> {
    value: T,
    end: usize,
}

// Where `byte` stands first in s from `from` on, or the end of s; behind the end, `from`.
pub fn find_byte(s: &[u8], from: usize, byte: u8) -> usize
    ensures { result ≡ find_byte byte s.now from }
{
    if s.len() < from {
        return from;
    }
    match memchr(byte, &s[from..]) {
        Some(i) => from + i,
        None => s.len(),
    }
}

// Whether a field ends at i: at a tab, or at the end of s.
fn ends(s: &[u8], i: usize) -> bool
    ensures { result ≡ ends_at s.now i }
{
    i >= s.len() || s[i] == b'\t'
}

// The digits from `from` up to `to` or to the first byte that is none: what they are worth, and where they end.
fn read_digits(s: &[u8], from: usize, to: usize) -> Field<u64>
    requires { (from ≤ to) × (to ≤ length s.now) × (to ≤ from + 19) }
    ensures { Worth s.now from to result.value result.end }
{
    let mut value = 0u64;
    for (i, b) in s[from..to].iter().enumerate() {
        if !b.is_ascii_digit() {
            return Field {
                value,
                end: from + i,
            };
        }
        value = value * 10 + (b - b'0') as u64;
    }
    Field { value, end: to }
}

// The size that stands from `from` up to a tab or the end of s.
fn read_natural(s: &[u8], from: usize) -> Option<Field<u64>>
    requires { from ≤ length s.now }
    ensures { result ≡ field_at read_natural s.now from }
{
    if from == s.len() {
        return None;
    }
    if s[from] == b'0' {
        return if ends(s, from + 1) {
            Some(Field {
                value: 0,
                end: from + 1,
            })
        } else {
            None
        };
    }
    // no size has more than 19 digits, and so many do not overflow
    let to = from + (s.len() - from).min(19);
    let digits = read_digits(s, from, to);
    if from < digits.end && ends(s, digits.end) && digits.value <= 1 << 63 {
        Some(digits)
    } else {
        None
    }
}

// The number that stands from `from` up to a tab or the end of s.
fn read_field(s: &[u8], from: usize) -> Option<Field<i64>>
    requires { from ≤ length s.now }
    ensures { result ≡ field_at read_number s.now from }
{
    if from == s.len() {
        return None;
    }
    if s[from] == b'-' {
        let Field { value: m, end } = read_natural(s, from + 1)?;
        if m == 0 {
            return None;
        }
        let value = 0i64.checked_sub_unsigned(m)?;
        return Some(Field { value, end });
    }
    let Field { value: m, end } = read_natural(s, from)?;
    let value = i64::try_from(m).ok()?;
    Some(Field { value, end })
}

// The number that stands from `from` up to `to`, as far as s goes.
pub fn read_number(s: &[u8], from: usize, to: usize) -> Option<i64>
    ensures { result ≡ read_number (slice from to s.now) }
{
    let end = to.min(s.len());
    let part = &s[from.min(end)..end];
    let number = read_field(part, 0)?;
    // no number has a tab in it
    if number.end < part.len() {
        return None;
    }
    Some(number.value)
}

// Whether the bytes from `from` up to `to`, as far as s goes, are those of `word`.
#[tactic(auto, using(crate::proofs::Fields::same_cut))]
pub fn same_bytes(s: &[u8], from: usize, to: usize, word: &[u8]) -> bool
    ensures { result ≡ same_bytes (slice from to s.now) word.now }
{
    let end = to.min(s.len());
    let start = from.min(end);
    &s[start..end] == word
}

// Whether the fields from `at` on are as many numbers as `into` holds, and no more. Each goes to its place, up to the first that is none.
pub fn read_numbers(s: &[u8], at: usize, into: &mut [i64]) -> bool
    ensures value { result ≡ is_some (numbers (length into.old) (fields_at s.now at)) }
    ensures into { into.new ≡ stored into.old (fields_at s.now at) }
{
    let mut next = at;
    for slot in into.iter_mut() {
        if s.len() < next {
            return false;
        }
        let Some(number) = read_field(s, next) else {
            return false;
        };
        *slot = number.value;
        next = number.end + 1;
    }
    s.len() < next
}
