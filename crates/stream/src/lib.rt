// A sheet fed in pieces of any size: a place in it goes in and comes back by value.
#![tactic(auto)]

ghost use Rattle.std.specs.Prelude.{◌≡◌, ◌++◌, ◌≤◌, length, take, drop};
ghost use Rattle.text.specs.Answer.{answer_room};
ghost use Rattle.stream.specs.Machine.{new_line, go_on, cut, line_end, answers_from, place_after, read_within, answers_at_end};
ghost use Rattle.stream.specs.Sheet.{initial, machine, heading, place_of, unless_short};
ghost use Rattle.stream.specs.Code.{Wrote};

use text::{ANSWER_ROOM, LineAnswer, LineError};

// So many bytes of a line tell its answer: no line as long has the form.
const KEPT: usize = 117;

// What the answer to a line takes from the lines before it: the largest serial of those that have the form, 0 if there is none.
#[derive(Clone, Copy)]
pub struct State {
    largest: i64,
}

// A place in a sheet: the state there, and of the line that has begun what is kept.
#[derive(Clone, Copy)]
pub struct Place {
    state: State,
    bytes: [u8; KEPT],
    len: usize,
}

// What a piece does: the place that it leads to, and how many bytes were read and written.
#[derive(Clone, Copy)]
pub struct Fed {
    pub place: Place,
    pub read: usize,
    pub written: usize,
}

// What a line does: the state in which the next one is answered, and how many bytes were written.
#[derive(Clone, Copy)]
struct Answered {
    state: State,
    written: usize,
}

// A line that was answered, and the largest serial with it.
fn counted(largest: i64, a: LineAnswer) -> Answered
    ensures { result ≡ record { state = record { largest = largest }; written = a.written } }
{
    Answered {
        state: State { largest },
        written: a.written,
    }
}

// THE MACHINE: a line answered in a state. One that has the form must have a serial above the largest before it, and counts whatever it is
// answered.
fn next(state: State, line: &[u8], out: &mut [u8]) -> Answered
    requires { answer_room ≤ length out.old }
    ensures { Wrote (machine.next state line.now) out.old out.new result }
{
    let mut largest = state.largest;
    let asked = text::read_line(line);
    if let Some(serial) = asked.serial() {
        if serial <= largest {
            let not_above = text::refuse(serial, i64::from(LineError::Fallen), out);
            return counted(largest, not_above);
        }
        largest = serial;
    }
    let own = text::reply(asked, out);
    counted(largest, own)
}

// The place where a line begins.
fn new_line(state: State) -> Place
    ensures { place_of result ≡ new_line state }
{
    Place {
        state,
        bytes: [0u8; KEPT],
        len: 0,
    }
}

impl Place {
    // What is kept of the line.
    fn begun(&self) -> &[u8]
        ensures { result.now ≡ (place_of self.now).begun }
    {
        let end = self.len.min(KEPT);
        &self.bytes[..end]
    }
}

// The line goes on with more bytes.
fn extended(place: Place, more: &[u8]) -> Place
    ensures { place_of result ≡ cut (go_on (place_of place) more.now) }
{
    let mut bytes = place.bytes;
    let kept = place.len.min(KEPT);
    let len = kept + more.len().min(KEPT - kept);
    bytes[kept..len].copy_from_slice(&more[..len - kept]);
    let state = place.state;
    Place { state, bytes, len }
}

// The answer to the line that has begun, as if it ended here.
fn answer_begun(place: Place, out: &mut [u8]) -> Answered
    requires { answer_room ≤ length out.old }
    ensures { Wrote (line_end machine (place_of place)) out.old out.new result }
{
    next(place.state, place.begun(), out)
}

// The answer to the line that goes on with more bytes and ends there; one that lies whole in them is not copied.
fn answer_ended(place: Place, more: &[u8], out: &mut [u8]) -> Answered
    requires { answer_room ≤ length out.old }
    ensures { Wrote (line_end machine (go_on (place_of place) more.now)) out.old out.new result }
{
    if place.len == 0 {
        return next(place.state, more, out);
    }
    answer_begun(extended(place, more), out)
}

// The place before a sheet.
pub fn empty() -> Place
    ensures { place_of result ≡ new_line initial }
{
    new_line(State { largest: 0 })
}

// The first line of an answer sheet.
pub fn open(out: &mut [u8]) -> usize
    ensures count { result ≡ length (unless_short out.old heading) }
    ensures bytes { out.new ≡ unless_short out.old heading ++ drop result out.old }
{
    if out.len() < ANSWER_ROOM {
        return 0;
    }
    let word = b"BKM\t48\n";
    out[..word.len()].copy_from_slice(word);
    word.len()
}

// A piece, as far as there is room for its answers.
pub fn feed(place: Place, piece: &[u8], out: &mut [u8]) -> Fed
    ensures read { result.read ≡ read_within machine (length out.old) (place_of place) piece.now }
    ensures place { place_of result.place ≡ cut (place_after machine (place_of place) (take result.read piece.now)) }
    ensures count { result.written ≡ length (answers_from machine (place_of place) (take result.read piece.now)) }
    ensures bytes { out.new ≡ answers_from machine (place_of place) (take result.read piece.now) ++ drop result.written out.old }
{
    let mut here = place;
    let mut i: usize = 0;
    let mut written: usize = 0;
    let mut end = scan::find_byte(piece, i, b'\n');
    while end < piece.len() && ANSWER_ROOM <= out.len() - written {
        let a = answer_ended(here, &piece[i..end], &mut out[written..]);
        here = new_line(a.state);
        written += a.written;
        i = end + 1;
        end = scan::find_byte(piece, i, b'\n');
    }
    Fed {
        place: extended(here, &piece[i..end]),
        read: end,
        written,
    }
}

// The sheet's end: a last line without its newline counts if it is not empty.
pub fn finish(place: Place, out: &mut [u8]) -> usize
    ensures count { result ≡ length (unless_short out.old (answers_at_end machine (place_of place))) }
    ensures bytes { out.new ≡ unless_short out.old (answers_at_end machine (place_of place)) ++ drop result out.old }
{
    if out.len() < ANSWER_ROOM || place.len == 0 {
        return 0;
    }
    answer_begun(place, out).written
}
