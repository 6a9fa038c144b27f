// Lines of a sheet: a line read, and a read line answered.
#![tactic(auto)]

ghost use Rattle.std.specs.Prelude.{◌≡◌, pos, Ok};
ghost use Rattle.scan.specs.Fields.{fields_at};
ghost use Rattle.scan.specs.Numbers.{numbers};
ghost use Rattle.answer.specs.Record.{record_of};
ghost use Rattle.text.specs.Line.{formed, exp_of, log_of, kind_line, read_line, serial_of};
ghost use Rattle.text.specs.Answer.{line_refusal, refused_reply, answer_reply, reply_of, reply, refusal_for, count_for, out_for};
ghost use Rattle.text.specs.Code.{Replied};

use answer::{Figures, Refusal};
use point::Point;

// The least room for the answer to a line.
pub const ANSWER_ROOM: usize = 128;

// The operation that a line asks for.
#[derive(Clone, Copy)]
enum Kind {
    Exp,
    Log,
}

// A line of a sheet.
#[derive(Clone, Copy)]
pub enum Line {
    Exp {
        serial: i64,
        n: i64,
        exponent: Point,
        start: Point,
    },
    Log {
        serial: i64,
        n: i64,
        point: Point,
    },
    Malformed,
}

impl Line {
    // Its serial, if it has the form.
    pub fn serial(self) -> Option<i64>
        ensures { result ≡ serial_of self }
    {
        match self {
            Line::Exp { serial, .. } | Line::Log { serial, .. } => Some(serial),
            Line::Malformed => None,
        }
    }
}

// Why a line is turned away before EXP or LOG is asked, with its number.
#[derive(Clone, Copy, Debug, PartialEq, Eq)]
pub enum LineError {
    // 5: it does not have the form
    Malformed,
    // 6: there is less room than ANSWER_ROOM
    NoRoom,
    // 7: its serial is not above those of the lines before it
    Fallen,
}

impl From<LineError> for i64 {
    ghost from_gives = { λ e n. n ≡ line_refusal e };

    fn from(e: LineError) -> i64 {
        match e {
            LineError::Malformed => 5,
            LineError::NoRoom => 6,
            LineError::Fallen => 7,
        }
    }
}

// What the call of a line gives: the refusal number or 0, and how many bytes it wrote.
#[derive(Clone, Copy)]
pub struct LineAnswer {
    pub refusal: i64,
    pub written: usize,
}

// ---- reading

// The numbers that the fields from `at` on are, if they are N and no more.
fn fields<const N: usize>(s: &[u8], at: usize) -> Option<[i64; N]>
    ensures { result ≡ numbers N (fields_at s.now at) }
{
    let mut v = [0i64; N];
    scan::read_numbers(s, at, &mut v).then_some(v)
}

// A line's fields from its kind on.
fn kind_line(s: &[u8], serial: i64, at: usize) -> Line
    ensures { result ≡ kind_line serial (fields_at s.now at) }
{
    if s.len() < at {
        return Line::Malformed;
    }
    let f = scan::find_byte(s, at, b'\t');
    if scan::same_bytes(s, at, f, b"EXP") {
        let Some(v) = fields::<5>(s, f + 1) else {
            return Line::Malformed;
        };
        let [n, ex, ey, sx, sy] = v;
        return Line::Exp {
            serial,
            n,
            exponent: Point { x: ex, y: ey },
            start: Point { x: sx, y: sy },
        };
    }
    if scan::same_bytes(s, at, f, b"LOG") {
        let Some(v) = fields::<3>(s, f + 1) else {
            return Line::Malformed;
        };
        let [n, x, y] = v;
        return Line::Log {
            serial,
            n,
            point: Point { x, y },
        };
    }
    Line::Malformed
}

// The line that bytes are, which come without their newline.
pub fn read_line(s: &[u8]) -> Line
    ensures { result ≡ read_line s.now }
{
    let e = scan::find_byte(s, 0, b'\t');
    let Some(serial) = scan::read_number(s, 0, e) else {
        return Line::Malformed;
    };
    if !point::is_between(1, 9999999, serial) {
        return Line::Malformed;
    }
    kind_line(s, serial, e + 1)
}

// ---- answering: each from the front of a buffer, all or nothing

// A line that is turned away.
fn refused(serial: i64, refusal: i64, out: &mut [u8]) -> LineAnswer
    ensures { Replied (refused_reply serial refusal) out.old out.new result.refusal result.written }
{
    let fields = [refusal];
    let written = buffer::put_line(serial, b"REF", &fields, out, 0);
    LineAnswer { refusal, written }
}

// The figures of an answer, as a line of its kind.
fn put_figures(kind: Kind, serial: i64, n: i64, f: Figures, out: &mut [u8]) -> usize
    ensures { Replied (answer_reply kind serial n (record_of (Ok f))) out.old out.new (pos 0) result }
{
    let Figures {
        value: Point { x, y },
        binary_exponent: k,
        quadrant: q,
        error_bound,
        remainder: Point {
            x: left_x,
            y: left_y,
        },
    } = f;
    match kind {
        Kind::Exp => {
            let fields = [n, x, y, left_x, left_y, k, error_bound];
            buffer::put_line(serial, b"EXP", &fields, out, 0)
        }
        Kind::Log => {
            let fields = [n, x, y, left_x, left_y, k, q, error_bound];
            buffer::put_line(serial, b"LOG", &fields, out, 0)
        }
    }
}

// An answer of either kind.
fn put_answer(
    kind: Kind,
    serial: i64,
    n: i64,
    answer: Result<Figures, Refusal>,
    out: &mut [u8],
) -> LineAnswer
    ensures { Replied (answer_reply kind serial n (record_of answer)) out.old out.new result.refusal result.written }
{
    match answer {
        Ok(f) => {
            let written = put_figures(kind, serial, n, f, out);
            LineAnswer {
                refusal: 0,
                written,
            }
        }
        Err(r) => refused(serial, i64::from(r), out),
    }
}

// The answer to a line that is turned away under a number, which may come from the lines before it.
pub fn refuse(serial: i64, refusal: i64, out: &mut [u8]) -> LineAnswer
    ensures refusal { result.refusal ≡ refusal_for (refused_reply serial refusal) out.old }
    ensures count { result.written ≡ count_for (refused_reply serial refusal) out.old }
    ensures bytes { out.new ≡ out_for (refused_reply serial refusal) out.old }
{
    if out.len() < ANSWER_ROOM {
        return LineAnswer {
            refusal: i64::from(LineError::NoRoom),
            written: 0,
        };
    }
    refused(serial, refusal, out)
}

// The answer to a line that is read.
pub fn reply(line: Line, out: &mut [u8]) -> LineAnswer
    ensures refusal { result.refusal ≡ refusal_for (reply_of line) out.old }
    ensures count { result.written ≡ count_for (reply_of line) out.old }
    ensures bytes { out.new ≡ out_for (reply_of line) out.old }
{
    if out.len() < ANSWER_ROOM {
        return refuse(0, i64::from(LineError::NoRoom), out);
    }
    match line {
        Line::Malformed => refuse(0, i64::from(LineError::Malformed), out),
        Line::Exp {
            serial,
            n,
            exponent,
            start,
        } => {
            let answer = exponential::exp(n, exponent, start);
            put_answer(Kind::Exp, serial, n, answer, out)
        }
        Line::Log { serial, n, point } => {
            let answer = logarithm::log(n, point);
            put_answer(Kind::Log, serial, n, answer, out)
        }
    }
}

// THE CALL: the answer to a line, which comes without its newline.
pub fn answer_line(line: &[u8], out: &mut [u8]) -> LineAnswer
    ensures refusal { result.refusal ≡ refusal_for (reply line.now) out.old }
    ensures count { result.written ≡ count_for (reply line.now) out.old }
    ensures bytes { out.new ≡ out_for (reply line.now) out.old }
{
    reply(read_line(line), out)
}
