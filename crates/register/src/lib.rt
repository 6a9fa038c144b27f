// EXP by a register (02, E9): the doubled form of 000, as the sorter's maker builds it. Before step n the register holds 2^n times the
// exponent, so that the digits are read off it by the same thresholds at every step, and it takes the table's entries times 2^(n + 1). A
// simple engine over the step table's array; what it is given, and what is refused, is EXP's own.
#![tactic(auto)]

ghost use Rattle.std.specs.Prelude.{◌≡◌, pos, ◌<◌, ◌^◌};
ghost use Rattle.algebra.specs.Gauss.{ιᵍ, ◌*ᵍ◌, two};
ghost use Rattle.algebra.specs.Rounding.{floorᵍ};
ghost use Rattle.algebra.specs.Size.{Parts};
ghost use Rattle.point.specs.Point.{gauss, point, digit};
ghost use Rattle.answer.specs.Remainder.{RemainderBelow};
ghost use Rattle.table_numbers.specs.Rows.{number};
ghost use Rattle.table_numbers.specs.Table.{step_table};
ghost use Rattle.exponential.specs.Answer.{exp_answer, Close};
ghost use Rattle.register.specs.Register.{register_select, register_run};
ghost use Rattle.register.specs.Answer.{register_answer};
ghost use Rattle.register.specs.Code.{doubled_less, LessPre, StepPre, step_of, Fits, TakePre, taken};

use answer::{Figures, Refusal};
use iteration::State;
use point::{Digit, Point};
use table_numbers::Entry;

// ---- a step

// The thresholds are -1/2 and 3/8 for dx, -3/4 and 13/16 for dy.
fn select(r: Point) -> Digit
    ensures { result ≡ digit (register_select 48 (gauss r)) }
{
    Digit {
        dx: iteration::cut(-140737488355328, 105553116266496, r.x),
        dy: iteration::cut(-211106232532992, 228698418577408, r.y),
    }
}

// Twice the register, less the entry times 2^(n + 1).
fn doubled_less(r: Point, entry: Entry, n: usize) -> Point
    requires { LessPre (gauss r) (number entry) n }
    ensures { result ≡ point (doubled_less (gauss r) (number entry) n) }
{
    let up = n + 1;
    Point {
        x: 2 * r.x - (entry.re << up),
        y: 2 * r.y - (entry.im << up),
    }
}

// One step; its row goes to it by value. A state is a point and, in the place of the sum, the register.
fn step(s: State, d: Digit, row: [Entry; 3], n: usize) -> State
    requires { StepPre s d row n }
    ensures { result ≡ step_of s d row n }
{
    State {
        point: s.point.step(d, n),
        sum: doubled_less(s.sum, tables::pick(row, d.dy), n),
    }
}

// ---- the steps

// The steps 1 to n.
fn run(n: usize, start: State) -> State
    requires { Fits 48 step_table 0 n start }
    ensures { result ≡ register_run 48 step_table 0 n start }
{
    let mut s = start;
    for k in 1..=n {
        let d = select(s.sum);
        let row = step_array::array_row(k, d.dx);
        s = step(s, d, row, k);
    }
    s
}

// What the register holds before the first step.
fn doubled(e: Point) -> Point
    requires { Parts (gauss e) (two 61) }
    ensures { result ≡ point (ιᵍ (pos 2) *ᵍ gauss e) }
{
    Point {
        x: 2 * e.x,
        y: 2 * e.y,
    }
}

// The register over 2^m.
fn over(r: Point, m: usize) -> Point
    requires { m < 63 }
    ensures { result ≡ point (floorᵍ (gauss r) (2 ^ m)) }
{
    Point {
        x: r.x >> m,
        y: r.y >> m,
    }
}

// The figures after n steps, from those before the first.
fn take(n: usize, f: Figures) -> Figures
    requires { TakePre 48 step_table n f }
    ensures { result ≡ taken 48 step_table n f }
{
    let begun = State {
        point: f.value,
        sum: doubled(f.remainder),
    };
    let end = run(n, begun);
    Figures {
        value: end.point,
        binary_exponent: f.binary_exponent,
        quadrant: 0,
        error_bound: f.error_bound,
        remainder: over(end.sum, n + 1),
    }
}

// ---- the whole

// EXP's answer as a register makes it: that of `exponential::exp`, for every input.
pub fn exp(n: i64, exponent: Point, start: Point) -> Result<Figures, Refusal>
    ensures register { result ≡ register_answer n exponent.x exponent.y start.x start.y }
    ensures answer { result ≡ exp_answer n exponent.x exponent.y start.x start.y }
    ensures close { Close n exponent.x exponent.y start.x start.y result }
    ensures remainder { RemainderBelow 48 n result }
{
    let f = exponential::begin(n, exponent, start)?;
    Ok(take(n as usize, f))
}
