// EXP: a start times the exponential of a number, by shifts and additions in a rectangle; outside it, up to eight, after a reduction.
#![tactic(auto)]

ghost use Rattle.std.specs.Prelude.{◌≡◌, ◌≤◌};
ghost use Rattle.algebra.specs.Size.{Size, Parts, abs, larger};
ghost use Rattle.algebra.specs.Gauss.{two};
ghost use Rattle.point.specs.Point.{gauss};
ghost use Rattle.answer.specs.Remainder.{RemainderBelow};
ghost use Rattle.exponential.specs.Answer.{error_bound_of, exp_answer, exp_beginning, Close};
ghost use Rattle.exponential.specs.Code.{Right};

use answer::{Figures, Refusal};
use iteration::{Exp, State};
use point::Point;

mod reduction;

// The larger part in size.
fn larger_part(p: Point) -> i64
    requires { Parts (gauss p) (two 59) }
    ensures { result ≡ larger (gauss p) }
{
    p.x.abs().max(p.y.abs())
}

// 8 M / 2^n rounded up, plus 2 n: M is the larger part in size of the start that the steps are given.
fn error_bound(n: usize, s: Point) -> i64
    requires n_bound { n ≤ 40 }
    requires parts { Parts (gauss s) (two 59) }
    ensures { result ≡ error_bound_of n (gauss s) }
{
    let m = larger_part(s);
    let down = (-8 * m) >> n;
    let share = 2 * (n as i64);
    share - down
}

// The tests, in the order of their refusals.
fn test(n: i64, exponent: Point, start: Point) -> Result<(), Refusal>
    ensures { Right 48 n (gauss exponent) (gauss start) result }
{
    if !point::is_between(1, 40, n) {
        return Err(Refusal::Steps);
    }
    if !reduction::is_in_reach(exponent) {
        return Err(Refusal::Exponent);
    }
    if !start.is_in_parts() {
        return Err(Refusal::Part);
    }
    Ok(())
}

// The start times the exponential of the exponent, by n steps: value times 2^binary_exponent. What the steps leave of the exponent that they
// are given is the remainder.
pub fn exp(n: i64, exponent: Point, start: Point) -> Result<Figures, Refusal>
    ensures answer { result ≡ exp_answer n exponent.x exponent.y start.x start.y }
    ensures close { Close n exponent.x exponent.y start.x start.y result }
    ensures remainder { RemainderBelow 48 n result }
{
    let f = begin(n, exponent, start)?;
    let begun = State {
        point: f.value,
        sum: f.remainder,
    };
    let end = iteration::run::<Exp>(0, n as usize, begun);
    Ok(Figures {
        value: end.point,
        remainder: end.sum,
        ..f
    })
}

// EXP before its first step, for a second engine: the start and the exponent that the steps are given stand where the value and the remainder
// will. Inlined, so that its figures do not go through memory on their way to the steps.
#[inline(always)]
pub fn begin(n: i64, exponent: Point, start: Point) -> Result<Figures, Refusal>
    ensures { result ≡ exp_beginning n exponent.x exponent.y start.x start.y }
{
    test(n, exponent, start)?;
    let given = reduction::reduce(exponent, start);
    let value = given.start;
    let remainder = given.exponent;
    let doublings = given.binary_exponent;
    let bound = error_bound(n as usize, value);
    Ok(Figures {
        value,
        binary_exponent: doublings,
        quadrant: 0,
        error_bound: bound,
        remainder,
    })
}
