// LOG: the logarithm of any point but zero, as a number, a binary exponent and a quadrant (01, LOG).
#![tactic(auto)]

ghost use Rattle.std.specs.Prelude.{◌≡◌, pos};
ghost use Rattle.algebra.specs.Gauss.{◌-ᵍ◌, two};
ghost use Rattle.algebra.specs.Size.{Parts};
ghost use Rattle.point.specs.Point.{gauss, point, one};
ghost use Rattle.answer.specs.Remainder.{RemainderBelow};
ghost use Rattle.logarithm.specs.Answer.{log_answer, Close};
ghost use Rattle.logarithm.specs.Code.{BoundPre, bound_at, figures_of, Accepted};

use answer::{Figures, Refusal};
use iteration::Log;
use point::Point;

mod reduction;

// ---- the error bound

// 3 m / 2^n rounded up.
fn error_bound(n: usize, m: i64) -> i64
    requires { BoundPre 48 n m }
    ensures { result ≡ bound_at n m }
{
    let down = (-3 * m) >> n;
    -down
}

// ---- the remainder

// A point less one.
fn less_one(p: Point) -> Point
    requires { Parts (gauss p) (two 61) }
    ensures { result ≡ point (gauss p -ᵍ one 48) }
{
    Point {
        x: p.x - Point::ONE.x,
        y: p.y - Point::ONE.y,
    }
}

// ---- the whole

// Of a point that meets no refusal. The steps are 3 to n of the iteration's mode Log; what they leave over is the last point less one.
fn accepted(n: usize, p: Point) -> Figures
    requires { Accepted 48 (pos n) (gauss p) }
    ensures { result ≡ figures_of n p }
{
    let t = reduction::turned(p);
    let m = t.point.x;
    let b = reduction::bit_length(m);
    let end = iteration::run::<Log>(2, n, reduction::begun(t.point, b));
    Figures {
        value: end.sum,
        binary_exponent: (b as i64) - 48,
        quadrant: t.quadrant,
        error_bound: error_bound(n, m),
        remainder: less_one(end.point),
    }
}

pub fn log(n: i64, p: Point) -> Result<Figures, Refusal>
    ensures answer { result ≡ log_answer n p.x p.y }
    ensures close { Close n p.x p.y result }
    ensures remainder { RemainderBelow 48 n result }
{
    if !point::is_between(3, 40, n) {
        return Err(Refusal::Steps);
    }
    if !p.is_in_parts() {
        return Err(Refusal::Part);
    }
    if p == Point::ZERO {
        return Err(Refusal::Zero);
    }
    Ok(accepted(n as usize, p))
}
