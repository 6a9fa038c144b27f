// Two sheets merged into one whose serials rise, each line copied unchanged.
#![tactic(auto)]

ghost use Rattle.std.specs.Prelude.{◌≡◌, [], ◌∷◌, ◌++◌, ◌+◌, ◌≤◌, ltb, pos, length, drop};
ghost use Rattle.scan.specs.Fields.{same_bytes};
ghost use Rattle.buffer.specs.Code.{Put};
ghost use Rattle.stream.specs.Machine.{lines};
ghost use Rattle.merge.specs.Merge.{merge_refusal, front, by_serial, choice, merge};
ghost use Rattle.merge.specs.Code.{InFrontIfPassing};
ghost use Rattle.merge.specs.Call.{first_line, behind, unread, text, refusal_for, bytes_for, refusal_of, count_of};

use std::cmp::Ordering;

// Why a merge is refused, with its number for C.
#[derive(Clone, Copy, Debug, PartialEq, Eq)]
pub enum MergeError {
    // 5: a line that is malformed
    Malformed,
    // 6: less room than both sheets and two newlines take
    NoRoom,
    // 7: a serial that is not above that of the line before it
    Fallen,
    // 8: two lines that differ and have one serial
    Differing,
}

impl From<MergeError> for i64 {
    ghost from_gives = { λ e n. n ≡ pos (merge_refusal e) };

    fn from(e: MergeError) -> i64 {
        match e {
            MergeError::Malformed => 5,
            MergeError::NoRoom => 6,
            MergeError::Fallen => 7,
            MergeError::Differing => 8,
        }
    }
}

// The line in front of what is left of a sheet, behind a line that was read.
#[derive(Clone, Copy)]
pub enum Front {
    // there is none
    End,
    Malformed,
    // its serial is not above that of the line before it
    Fallen,
    // its serial, which is
    Risen(i64),
}

// What the merge does next, with the serial of the line that it reads. A step takes a choice whatever its refusal carries.
#[derive(Clone, Copy)]
pub enum Choice<E = MergeError> {
    // no line is left
    Done,
    // the first sheet's line is written
    First(i64),
    // the first sheet's line is passed by, since the second sheet has the same
    Passed(i64),
    // the second sheet's line is written
    Second(i64),
    // the merge stops; never for want of room
    Refused(E),
}

// ---- one step

// The first line of a sheet, without its newline.
fn first_line(s: &[u8]) -> &[u8]
    ensures { result.now ≡ first_line s.now }
{
    &s[..scan::find_byte(s, 0, b'\n')]
}

// The line in front of s, behind one with the serial `last`.
pub fn read_front(s: &[u8], last: i64) -> Front
    ensures { result ≡ front last (lines s.now) }
{
    if s.is_empty() {
        return Front::End;
    }
    match text::read_line(first_line(s)).serial() {
        None => Front::Malformed,
        Some(serial) if serial <= last => Front::Fallen,
        Some(serial) => Front::Risen(serial),
    }
}

// Whether two sheets have the same bytes in front, up to the first newline.
#[tactic(auto, using(scan::proofs::Fields::same_is))]
fn same_line(a: &[u8], b: &[u8]) -> bool
    ensures { result ≡ same_bytes (first_line a.now) (first_line b.now) }
{
    first_line(a) == first_line(b)
}

// What to do where the lines in front of a and b have the serials m and n.
fn by_serial(a: &[u8], b: &[u8], m: i64, n: i64) -> Choice
    ensures { result ≡ by_serial m n (same_bytes (first_line a.now) (first_line b.now)) }
{
    match m.cmp(&n) {
        Ordering::Less => Choice::First(m),
        Ordering::Greater => Choice::Second(n),
        Ordering::Equal if same_line(a, b) => Choice::Passed(m),
        Ordering::Equal => Choice::Refused(MergeError::Differing),
    }
}

// What to do where f and g are the lines in front of a and b.
#[tactic(auto, unfolding(crate::specs::Merge::choice))]
pub fn choose(a: &[u8], b: &[u8], f: Front, g: Front) -> Choice
    ensures { result ≡ choice f g (same_bytes (first_line a.now) (first_line b.now)) }
{
    match (f, g) {
        (Front::Malformed, _) | (_, Front::Malformed) => Choice::Refused(MergeError::Malformed),
        (Front::Fallen, _) | (_, Front::Fallen) => Choice::Refused(MergeError::Fallen),
        (Front::End, Front::End) => Choice::Done,
        (Front::Risen(m), Front::End) => Choice::First(m),
        (Front::End, Front::Risen(n)) => Choice::Second(n),
        (Front::Risen(m), Front::Risen(n)) => by_serial(a, b, m, n),
    }
}

// What is left of a sheet behind its first line.
fn rest(s: &[u8]) -> &[u8]
    ensures { result.now ≡ behind s.now }
{
    &s[(first_line(s).len() + 1).min(s.len())..]
}

// THE STEP: the unread rest of whichever sheet it reads from; all of the first, where it reads no line.
pub fn step<'a, E: Copy>(a: &'a [u8], b: &'a [u8], c: Choice<E>) -> &'a [u8]
    ensures { result.now ≡ unread c a.now b.now }
{
    match c {
        Choice::Done | Choice::Refused(_) => a,
        Choice::First(_) | Choice::Passed(_) => rest(a),
        Choice::Second(_) => rest(b),
    }
}

// ---- all steps. Both sheets have one lifetime, since a step hands back a part of either.

// Whether anything stops the merge, and what.
fn decide<'a>(a: &'a [u8], b: &'a [u8]) -> Result<(), MergeError>
    ensures { refusal_of result ≡ (merge a.now b.now).refusal }
{
    let mut p = a;
    let mut q = b;
    let mut f = read_front(p, 0);
    let mut g = read_front(q, 0);
    // named, so that what is to be proved of the loop has a name too, whichever variables it changes
    'lines: loop {
        let c = choose(p, q, f, g);
        // by reference: this Rattle fails on an arm of two patterns that take a number by value
        match &c {
            Choice::Done => return Ok(()),
            Choice::Refused(e) => return Err(*e),
            Choice::First(n) | Choice::Passed(n) => {
                p = step(p, q, c);
                f = read_front(p, *n);
            }
            Choice::Second(n) => {
                q = step(p, q, c);
                g = read_front(q, *n);
            }
        }
    }
}

// ---- writing: each from `at` on, and back comes the place behind it

// A line, and its newline.
fn put_line(line: &[u8], out: &mut [u8], at: usize) -> usize
    requires { at + length line.now + 1 ≤ length out.old }
    ensures { Put out.old at (line.now ++ 10 ∷ []) out.new result }
{
    let end = buffer::put_bytes(line, out, at);
    out[end] = b'\n';
    end + 1
}

// The first line of a sheet.
fn put_first(s: &[u8], out: &mut [u8], at: usize) -> usize
    requires { at + length (first_line s.now) + 1 ≤ length out.old }
    ensures { Put out.old at (first_line s.now ++ 10 ∷ []) out.new result }
{
    put_line(first_line(s), out, at)
}

// All lines of a sheet at once: a last line without its newline gets one.
fn put_all(s: &[u8], out: &mut [u8], at: usize) -> usize
    requires { at + length (text (lines s.now)) ≤ length out.old }
    ensures { Put out.old at (text (lines s.now)) out.new result }
{
    match s {
        [] => at,
        [.., b'\n'] => buffer::put_bytes(s, out, at),
        _ => put_line(s, out, at),
    }
}

// The line in front of s where it does not stop the merge: of such a line no more than the serial is read.
fn sure_front(s: &[u8]) -> Front
    ensures { InFrontIfPassing s.now result }
{
    if s.is_empty() {
        return Front::End;
    }
    let tab = scan::find_byte(s, 0, b'\t');
    scan::read_number(s, 0, tab).map_or(Front::Malformed, Front::Risen)
}

// What a merge copies that nothing stops; back comes how many bytes it is.
fn write<'a>(a: &'a [u8], b: &'a [u8], out: &mut [u8]) -> usize
    requires b_value { (merge a.now b.now).refusal ≡ 0 }
    requires b_in_bounds { length (text (merge a.now b.now).copied) ≤ length out.old }
    ensures { Put out.old 0 (text (merge a.now b.now).copied) out.new result }
{
    let mut p = a;
    let mut q = b;
    let mut f = sure_front(p);
    let mut g = sure_front(q);
    let mut w: usize = 0;
    // named as in `decide`
    'lines: while !p.is_empty() && !q.is_empty() {
        let c = choose(p, q, f, g);
        match c {
            Choice::Done | Choice::Refused(_) => return w,
            Choice::First(_) => {
                w = put_first(p, out, w);
                p = step(p, q, c);
                f = sure_front(p);
            }
            Choice::Passed(_) => {
                p = step(p, q, c);
                f = sure_front(p);
            }
            Choice::Second(_) => {
                w = put_first(q, out, w);
                q = step(p, q, c);
                g = sure_front(q);
            }
        }
    }
    // one of the two is empty, and the other follows as a whole
    w = put_all(p, out, w);
    put_all(q, out, w)
}

// Whether there is less room than both sheets and two newlines take: no sum of lengths is made, which might overflow.
fn is_short(a: usize, b: usize, room: usize) -> bool
    ensures { result ≡ ltb room (a + b + 2) }
{
    room.saturating_sub(a).saturating_sub(b) < 2
}

// THE CALL: both sheets merged into a lent buffer; back comes how many bytes were written. It is decided whole before a byte is written.
pub fn merge<'a>(a: &'a [u8], b: &'a [u8], out: &mut [u8]) -> Result<usize, MergeError>
    ensures refusal { refusal_of result ≡ refusal_for a.now b.now out.old }
    ensures count { count_of result ≡ length (bytes_for a.now b.now out.old) }
    ensures bytes { out.new ≡ bytes_for a.now b.now out.old ++ drop (count_of result) out.old }
{
    if is_short(a.len(), b.len(), out.len()) {
        return Err(MergeError::NoRoom);
    }
    decide(a, b)?;
    Ok(write(a, b, out))
}
