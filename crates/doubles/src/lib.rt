// Doubles for the plotting desk (02, E8): LOG's two parts out as doubles, and such doubles read back.
#![tactic(auto)]

ghost use Rattle.std.specs.Prelude.{◌≡◌, ◌^◌, ◌<◌, unsigned_abs, IfSome};
ghost use Rattle.logarithm.specs.Answer.{log_answer};
ghost use Rattle.doubles.specs.Units.{double_of};
ghost use Rattle.doubles.specs.Record.{doubles, in_doubles, doubles_record, AnswerKept, units_in, units_record};
ghost use Rattle.doubles.specs.Code.{part_in};

use answer::Refusal;
use point::Point;

// Two parts, each over 2^48.
#[repr(C)]
#[derive(Clone, Copy)]
pub struct Doubles {
    pub x: f64,
    pub y: f64,
}

// LOG's answer for C: the refusal number or 0, and the two parts.
#[repr(C)]
#[derive(Clone, Copy)]
pub struct DoublesAnswer {
    pub refusal: i64,
    pub parts: Doubles,
}

// Two doubles that were read, for C: 9 or 0, and the two parts in units.
#[repr(C)]
#[derive(Clone, Copy)]
pub struct UnitsAnswer {
    pub refusal: i64,
    pub x: i64,
    pub y: i64,
}

// One in units, and the 2^49 below which a part lies.
const ONE: f64 = 281474976710656.0;

const LIMIT: f64 = 562949953421312.0;

// A number of units as a double: neither the conversion nor the division rounds.
fn write_part(units: i64) -> f64
    requires { unsigned_abs units < 2 ^ 49 }
    ensures { result ≡ double_of 48 units }
{
    units as f64 / ONE
}

// How many units x is. Of a whole number of units the product is exact, and its count written again has the bits of x; no other double has
// those of the count that it is cut to.
#[tactic(auto, using(crate::proofs::Found::written_is_number))]
fn read_part(x: f64) -> Option<i64>
    ensures { result ≡ part_in 48 x }
{
    let product = x * ONE;
    if product > -LIMIT && product < LIMIT {
        let units = std::num::truncating_f64_to_i64(product);
        let again = write_part(units);
        if f64::to_bits(again) == f64::to_bits(x) {
            return Some(units);
        }
    }
    None
}

// LOG's two parts as doubles.
pub fn log_doubles(n: i64, p: Point) -> Result<Doubles, Refusal>
    ensures answer { result ≡ in_doubles 48 (log_answer n p.x p.y) }
    ensures kept { AnswerKept 48 (log_answer n p.x p.y) (doubles_record result) }
{
    let value = logarithm::log(n, p)?.value;
    Ok(Doubles {
        x: write_part(value.x),
        y: write_part(value.y),
    })
}

// Two doubles read back, where both are a number of units.
pub fn read_doubles(d: Doubles) -> Option<Point>
    ensures answer { result ≡ units_in 48 d }
    ensures back { IfSome result (λ p. doubles 48 p.x p.y ≡ d) }
{
    Some(Point {
        x: read_part(d.x)?,
        y: read_part(d.y)?,
    })
}

impl From<Result<Doubles, Refusal>> for DoublesAnswer {
    ghost from_gives = { λ r a. a ≡ doubles_record r };

    fn from(r: Result<Doubles, Refusal>) -> DoublesAnswer {
        match r {
            Ok(parts) => DoublesAnswer { refusal: 0, parts },
            Err(r) => DoublesAnswer {
                refusal: i64::from(r),
                parts: Doubles { x: 0.0, y: 0.0 },
            },
        }
    }
}

impl From<Option<Point>> for UnitsAnswer {
    ghost from_gives = { λ p a. a ≡ units_record p };

    fn from(p: Option<Point>) -> UnitsAnswer {
        match p {
            Some(p) => UnitsAnswer {
                refusal: 0,
                x: p.x,
                y: p.y,
            },
            None => UnitsAnswer {
                refusal: 9,
                x: 0,
                y: 0,
            },
        }
    }
}
