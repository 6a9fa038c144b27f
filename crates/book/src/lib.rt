// One account book for two institutes that call EXP and LOG through one installation (02, E10): each has a balance of steps, an answered call
// is charged to its caller, and a refused one is free.
#![tactic(auto)]

ghost use Rattle.std.specs.Prelude.{◌≡◌, pos, ◌-ℤ◌, Err, IfOk};
ghost use Rattle.algebra.specs.Order.{◌⩽◌};
ghost use Rattle.answer.specs.Remainder.{RemainderBelow};
ghost use Rattle.exponential.specs.Answer.{Close as ExpClose};
ghost use Rattle.logarithm.specs.Answer.{Close as LogClose};
ghost use Rattle.book.specs.Book.{balance, charged, opened_book, opening_record};
ghost use Rattle.book.specs.declared.Rejection.TheVariants.{Denied};
ghost use Rattle.book.specs.Call.{caller_of, rejection_number, settled, paid, charge, outcome, exp_by, log_by, OfAnswer, reply_record};
ghost use Rattle.book.specs.Code.{Covered, Payable};

use answer::{Figures, Refusal};
use point::Point;

// The largest allowance, in steps.
const MOST: i64 = 1000000;

// What each institute has left, in steps. A balance below 1, which an opening need not give, pays for nothing.
#[repr(C)]
#[derive(Clone, Copy)]
pub struct Book {
    pub first: i64,
    pub second: i64,
}

// An opening for C: 10 or 0, and the book.
#[repr(C)]
#[derive(Clone, Copy)]
pub struct Opening {
    pub refusal: i64,
    pub book: Book,
}

// Number 1, ours, and number 2, the sister's.
#[derive(Clone, Copy, Debug, PartialEq, Eq)]
pub enum Institute {
    First,
    Second,
}

// Why a call has no figures.
#[derive(Clone, Copy, Debug, PartialEq, Eq)]
pub enum Rejection {
    // EXP or LOG turns the input away, under a number of its own
    Refused(Refusal),
    // 10: the book does not allow the call
    Denied,
}

impl From<Rejection> for i64 {
    ghost from_gives = { λ r n. n ≡ rejection_number r };

    fn from(r: Rejection) -> i64 {
        match r {
            Rejection::Refused(r) => i64::from(r),
            Rejection::Denied => 10,
        }
    }
}

#[derive(Clone, Copy)]
pub struct Settled {
    pub reply: Result<Figures, Rejection>,
    pub book: Book,
}

// ---- the balances

// A book with two allowances, each from 0 to MOST.
#[tactic(auto, unfolding(crate::specs::Book::opened_book))]
pub fn open(first: i64, second: i64) -> Option<Book>
    ensures { result ≡ opened_book first second }
{
    let both = point::is_between(0, MOST, first) && point::is_between(0, MOST, second);
    both.then_some(Book { first, second })
}

impl From<Option<Book>> for Opening {
    ghost from_gives = { λ b o. o ≡ opening_record b };

    fn from(b: Option<Book>) -> Opening {
        match b {
            Some(book) => Opening { refusal: 0, book },
            None => Opening {
                refusal: i64::from(Rejection::Denied),
                book: Book {
                    first: 0,
                    second: 0,
                },
            },
        }
    }
}

impl Book {
    fn balance(self, who: Institute) -> i64
        ensures { result ≡ balance who self }
    {
        match who {
            Institute::First => self.first,
            Institute::Second => self.second,
        }
    }

    // The book after one of the two has paid.
    fn charged(self, who: Institute, cost: i64) -> Book
        requires { Covered who cost self }
        ensures { result ≡ charged who cost self }
    {
        match who {
            Institute::First => Book {
                first: self.first - cost,
                ..self
            },
            Institute::Second => Book {
                second: self.second - cost,
                ..self
            },
        }
    }
}

// ---- a call

// The institute of a number.
#[tactic(auto, unfolding(crate::specs::Call::caller_of))]
fn caller_of(number: i64) -> Option<Institute>
    ensures { result ≡ caller_of number }
{
    match number {
        1 => Some(Institute::First),
        2 => Some(Institute::Second),
        _ => None,
    }
}

fn denied(book: Book) -> Settled
    ensures { result ≡ settled (Err Denied) book }
{
    Settled {
        reply: Err(Rejection::Denied),
        book,
    }
}

// Figures for their cost, unless that is above the balance.
fn pay(book: Book, who: Institute, cost: i64, figures: Figures) -> Settled
    requires { pos 0 ⩽ cost }
    ensures { result ≡ paid who cost figures book }
{
    if book.balance(who) < cost {
        return denied(book);
    }
    Settled {
        reply: Ok(figures),
        book: book.charged(who, cost),
    }
}

// An answer by n steps, of which those that an operation skips are not charged. A refusal is free.
fn settle(
    book: Book,
    who: Institute,
    n: i64,
    skipped: i64,
    answer: Result<Figures, Refusal>,
) -> Settled
    requires { IfOk answer (λ f. Payable (n -ℤ skipped)) }
    ensures { result ≡ charge who (n -ℤ skipped) answer book }
{
    match answer {
        Ok(figures) => pay(book, who, n - skipped, figures),
        Err(r) => Settled {
            reply: Err(Rejection::Refused(r)),
            book,
        },
    }
}

// EXP for the institute of a number: n steps are charged.
pub fn exp(book: Book, caller: i64, n: i64, exponent: Point, start: Point) -> Settled
    ensures outcome { result ≡ outcome (exp_by caller n exponent.x exponent.y start.x start.y) book }
    ensures close { OfAnswer (ExpClose n exponent.x exponent.y start.x start.y) result.reply }
    ensures remainder { OfAnswer (RemainderBelow 48 n) result.reply }
{
    let Some(who) = caller_of(caller) else {
        return denied(book);
    };
    settle(book, who, n, 0, exponential::exp(n, exponent, start))
}

// LOG for the institute of a number: its steps begin with the third, and n - 2 are charged.
pub fn log(book: Book, caller: i64, n: i64, p: Point) -> Settled
    ensures outcome { result ≡ outcome (log_by caller n p.x p.y) book }
    ensures close { OfAnswer (LogClose n p.x p.y) result.reply }
    ensures remainder { OfAnswer (RemainderBelow 48 n) result.reply }
{
    let Some(who) = caller_of(caller) else {
        return denied(book);
    };
    settle(book, who, n, 2, logarithm::log(n, p))
}

// The record of eight numbers.
#[tactic(auto, unfolding(crate::specs::Call::reply_record, answer::specs::Record::record_of))]
pub fn record(reply: Result<Figures, Rejection>) -> [i64; 8]
    ensures { result ≡ reply_record reply }
{
    match reply {
        Ok(figures) => answer::record(Ok(figures)),
        Err(r) => [i64::from(r), 0, 0, 0, 0, 0, 0, 0],
    }
}
