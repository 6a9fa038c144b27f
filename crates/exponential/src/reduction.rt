// The reduction of an exponent up to eight (02, E5): eighths of a turn and doublings are taken off it until it lies within the rectangle of
// 01. An eighth of a turn multiplies the start by 1 + i, which is half a doubling too long.
ghost use Rattle.std.specs.Prelude.{◌≡◌, pos, nat_abs, ◌+ℤ◌, get_or, ◌%◌};
ghost use Rattle.algebra.specs.Gauss.{◌*ᵍ◌, two};
ghost use Rattle.algebra.specs.Rounding.{nearest};
ghost use Rattle.algebra.specs.Size.{Parts};
ghost use Rattle.point.specs.Digit.{IsDigit};
ghost use Rattle.point.specs.Point.{gauss, gaussᵈ, point, nought};
ghost use Rattle.table_numbers.specs.Numbers48.{constants48};
ghost use Rattle.exponential.specs.Reduction.{in_rectangle, in_reach, eight, reduced, reduction};
ghost use Rattle.exponential.specs.Code.{NearestPre};

use point::{Digit, Point};

// In units: pi/4, ln 2 and half of ln 2.
const QUARTER_PI: i64 = 221069929750889;

const LN_2: i64 = 195103586505167;

const HALF_LN_2: i64 = 97551793252584;

// What the steps are given; their answer is times 2^binary_exponent.
#[derive(Clone, Copy)]
pub struct Reduced {
    pub exponent: Point,
    pub start: Point,
    pub binary_exponent: i64,
}

// Whether an exponent lies in the rectangle of 01.
#[tactic(auto, unfolding(crate::specs::Reduction::in_rectangle))]
fn is_near(exponent: Point) -> bool
    ensures { result ≡ in_rectangle 48 (gauss exponent) }
{
    exponent.is_in_box(
        -233096465088512,
        241892558110720,
        -206708186021888,
        206708186021888,
    )
}

// Whether both parts are at most 8 in size. Near ones are asked for first, so that they cost no further test.
pub fn is_in_reach(exponent: Point) -> bool
    ensures { result ≡ in_reach 48 (gauss exponent) }
{
    let least: i64 = -2251799813685248;
    let most: i64 = 2251799813685248;
    is_near(exponent) || exponent.is_in_box(least, most, least, most)
}

// How many m are nearest to x, and 16 more, so that only what is not negative is divided.
fn nearest(x: i64, m: i64) -> usize
    requires { NearestPre x m }
    ensures { pos result ≡ nearest x (nat_abs m) +ℤ pos 16 }
{
    ((2 * x + 33 * m) as usize) / ((2 * m) as usize)
}

// What p eighths of a turn multiply the start by.
fn factor(p: usize) -> Digit
    ensures { gaussᵈ result ≡ get_or eight (p % 8) nought }
{
    match p % 8 {
        0 => Digit { dx: 1, dy: 0 },
        1 => Digit { dx: 1, dy: 1 },
        2 => Digit { dx: 0, dy: 1 },
        3 => Digit { dx: -1, dy: 1 },
        4 => Digit { dx: -1, dy: 0 },
        5 => Digit { dx: -1, dy: -1 },
        6 => Digit { dx: 0, dy: -1 },
        _ => Digit { dx: 1, dy: -1 },
    }
}

fn times(s: Point, d: Digit) -> Point
    requires parts { Parts (gauss s) (two 61) }
    requires digit { IsDigit (gaussᵈ d) }
    ensures { result ≡ point (gauss s *ᵍ gaussᵈ d) }
{
    Point {
        x: d.dx * s.x - d.dy * s.y,
        y: d.dx * s.y + d.dy * s.x,
    }
}

// Outside the rectangle. p and k are 16 more than they are, which changes neither p modulo 8 nor whether it is odd.
fn brought_back(exponent: Point, start: Point) -> Reduced
    requires exponent_parts { Parts (gauss exponent) (two 51) }
    requires start_parts { Parts (gauss start) (two 58) }
    ensures { result ≡ reduced constants48 (gauss exponent) (gauss start) }
{
    let x = exponent.x;
    let y = exponent.y;
    let p = nearest(y, QUARTER_PI);
    let turned = x - ((p % 2) as i64) * HALF_LN_2;
    let k = nearest(turned, LN_2);
    let turns = (p as i64) - 16;
    let doublings = (k as i64) - 16;
    let left_x = turned - doublings * LN_2;
    let left_y = y - turns * QUARTER_PI;
    Reduced {
        exponent: Point {
            x: left_x,
            y: left_y,
        },
        start: times(start, factor(p)),
        binary_exponent: doublings,
    }
}

// Within the rectangle nothing is changed.
pub fn reduce(exponent: Point, start: Point) -> Reduced
    requires exponent_parts { Parts (gauss exponent) (two 51) }
    requires start_parts { Parts (gauss start) (two 58) }
    ensures { result ≡ reduction 48 constants48 (gauss exponent) (gauss start) }
{
    if is_near(exponent) {
        return Reduced {
            exponent,
            start,
            binary_exponent: 0,
        };
    }
    brought_back(exponent, start)
}
