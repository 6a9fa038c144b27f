// The calls for C: EXP and LOG on plain numbers, 64 bytes into a lent buffer; EXP by a register; EXP and LOG for two institutes with one
// account book; LOG in doubles, and doubles read back; a line of a sheet; two sheets merged, and which lines such a merge refuses; an entry
// of the step table.
// include/bkm.h is the contract in plain words.
#![tactic(auto)]

ghost use Rattle.std.specs.Prelude.{◌≡◌, ◌++◌, pos, length, drop};
ghost use Rattle.answer.specs.Record.{record_of};
ghost use Rattle.table_numbers.specs.Table.{step_table};
ghost use Rattle.exponential.specs.Answer.{exp_answer};
ghost use Rattle.logarithm.specs.Answer.{log_answer};
ghost use Rattle.book.specs.Book.{opened};
ghost use Rattle.book.specs.Call.{outcome, exp_by, log_by, reply_record};
ghost use Rattle.doubles.specs.Record.{doubles_answer, AnswerKept, units_answer, WrittenBack};
ghost use Rattle.text.specs.Answer.{reply, count_for, out_for};
ghost use Rattle.merge.specs.Merge.{merge};
ghost use Rattle.merge.specs.Call.{refusal_for, bytes_for};
ghost use Rattle.merge_stop.specs.Stop.{stop};
ghost use Rattle.controller.specs.Record.{handed, written, part_of, count_or_refusal};

use answer::{Figures, Refusal};
use book::{Book, Opening, Settled};
use doubles::{Doubles, DoublesAnswer, UnitsAnswer};
use merge_stop::Stop;
use point::Point;

// The bytes of a record, eight numbers.
const RECORD_ROOM: usize = 64;

// An answer's record into the lent buffer, and its first number back.
fn hand_over(answer: Result<Figures, Refusal>, out: &mut [u8]) -> i64
    ensures handed { result ≡ handed out.old (record_of answer) }
    ensures bytes { out.new ≡ written out.old (record_of answer) }
{
    if out.len() < RECORD_ROOM {
        return 6;
    }
    let numbers = answer::record(answer);
    buffer::put_words(&numbers, out, 0);
    numbers[0]
}

#[unsafe(no_mangle)]
pub extern "C" fn bkm_exp(n: i64, ex: i64, ey: i64, sx: i64, sy: i64, out: &mut [u8]) -> i64
    ensures handed { result ≡ handed out.old (record_of (exp_answer n ex ey sx sy)) }
    ensures bytes { out.new ≡ written out.old (record_of (exp_answer n ex ey sx sy)) }
{
    let answer = exponential::exp(n, Point { x: ex, y: ey }, Point { x: sx, y: sy });
    hand_over(answer, out)
}

// EXP by the register engine, to hold a register in hardware to: the same record.
#[unsafe(no_mangle)]
pub extern "C" fn bkm_exp_register(
    n: i64,
    ex: i64,
    ey: i64,
    sx: i64,
    sy: i64,
    out: &mut [u8],
) -> i64
    ensures handed { result ≡ handed out.old (record_of (exp_answer n ex ey sx sy)) }
    ensures bytes { out.new ≡ written out.old (record_of (exp_answer n ex ey sx sy)) }
{
    let by_register = register::exp(n, Point { x: ex, y: ey }, Point { x: sx, y: sy });
    hand_over(by_register, out)
}

#[unsafe(no_mangle)]
pub extern "C" fn bkm_log(n: i64, x: i64, y: i64, out: &mut [u8]) -> i64
    ensures handed { result ≡ handed out.old (record_of (log_answer n x y)) }
    ensures bytes { out.new ≡ written out.old (record_of (log_answer n x y)) }
{
    let answer = logarithm::log(n, Point { x, y });
    hand_over(answer, out)
}

// A book for two institutes, with their allowances.
#[tactic(auto, unfolding(book::specs::Book::opened))]
#[unsafe(no_mangle)]
pub extern "C" fn bkm_book_open(first: i64, second: i64) -> Opening
    ensures { result ≡ opened first second }
{
    Opening::from(book::open(first, second))
}

// What a call through the book gives: the record of an answer and the new book.
#[repr(C)]
#[derive(Clone, Copy)]
pub struct BookAnswer {
    pub record: [i64; 8],
    pub book: Book,
}

impl From<Settled> for BookAnswer {
    ghost from_gives = { λ s a. (a.«record» ≡ reply_record s.reply) × (a.book ≡ s.book) };

    fn from(s: Settled) -> BookAnswer {
        BookAnswer {
            record: book::record(s.reply),
            book: s.book,
        }
    }
}

#[unsafe(no_mangle)]
pub extern "C" fn bkm_book_exp(
    book: Book,
    caller: i64,
    n: i64,
    ex: i64,
    ey: i64,
    sx: i64,
    sy: i64,
) -> BookAnswer
    ensures answer { result.«record» ≡ reply_record (outcome (exp_by caller n ex ey sx sy) book).reply }
    ensures book { result.book ≡ (outcome (exp_by caller n ex ey sx sy) book).book }
{
    let s = book::exp(
        book,
        caller,
        n,
        Point { x: ex, y: ey },
        Point { x: sx, y: sy },
    );
    BookAnswer::from(s)
}

#[unsafe(no_mangle)]
pub extern "C" fn bkm_book_log(book: Book, caller: i64, n: i64, x: i64, y: i64) -> BookAnswer
    ensures answer { result.«record» ≡ reply_record (outcome (log_by caller n x y) book).reply }
    ensures book { result.book ≡ (outcome (log_by caller n x y) book).book }
{
    let s = book::log(book, caller, n, Point { x, y });
    BookAnswer::from(s)
}

// LOG's two parts as doubles, each over 2^48.
#[tactic(auto, unfolding(doubles::specs::Record::doubles_answer))]
#[unsafe(no_mangle)]
pub extern "C" fn bkm_log_doubles(n: i64, x: i64, y: i64) -> DoublesAnswer
    ensures answer { result ≡ doubles_answer 48 (log_answer n x y) }
    ensures kept { AnswerKept 48 (log_answer n x y) result }
{
    DoublesAnswer::from(doubles::log_doubles(n, Point { x, y }))
}

// Two such doubles read back as whole numbers of units.
#[tactic(auto, unfolding(doubles::specs::Record::units_answer))]
#[unsafe(no_mangle)]
pub extern "C" fn bkm_read_doubles(d: Doubles) -> UnitsAnswer
    ensures answer { result ≡ units_answer 48 d }
    ensures back { WrittenBack 48 d result }
{
    UnitsAnswer::from(doubles::read_doubles(d))
}

// The answer to a line of a sheet, which comes without its newline: how many bytes it has, its newline counted, or 0 where the buffer is too
// short for any answer and nothing is written.
#[unsafe(no_mangle)]
pub extern "C" fn bkm_line(line: &[u8], out: &mut [u8]) -> usize
    ensures count { result ≡ count_for (reply line.now) out.old }
    ensures bytes { out.new ≡ out_for (reply line.now) out.old }
{
    let a = text::answer_line(line, out);
    a.written
}

// Two sheets merged into a lent buffer: how many bytes were written, or minus the refusal number.
#[unsafe(no_mangle)]
pub extern "C" fn bkm_merge<'a>(a: &'a [u8], b: &'a [u8], out: &mut [u8]) -> i64
    ensures handed { result ≡ count_or_refusal (refusal_for a.now b.now out.old) (bytes_for a.now b.now out.old) }
    ensures bytes { out.new ≡ bytes_for a.now b.now out.old ++ drop (length (bytes_for a.now b.now out.old)) out.old }
{
    match merge::merge(a, b, out) {
        Ok(written) => written as i64,
        Err(refusal) => -i64::from(refusal),
    }
}

// Which line of which sheet stops the merge of two sheets, counted from 1; 0 for a sheet of which no line is refused.
#[unsafe(no_mangle)]
pub extern "C" fn bkm_merge_stopped_at<'a>(a: &'a [u8], b: &'a [u8]) -> Stop
    ensures stop { result ≡ stop a.now b.now }
    ensures same { result.refusal ≡ pos (merge a.now b.now).refusal }
{
    merge_stop::stopped_at(a, b)
}

// A part of the entry of step n for the digit (dx, dy), out of the array of the step table: 0 is the real part, any other number the imaginary
// one. Outside the table it is 0.
#[unsafe(no_mangle)]
pub extern "C" fn bkm_step_entry(n: usize, dx: i64, dy: i64, part: usize) -> i64
    ensures { result ≡ part_of part (step_table n dx dy) }
{
    let e = tables::pick(step_array::array_row(n, dx), dy);
    if part == 0 { e.re } else { e.im }
}
