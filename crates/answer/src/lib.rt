// What EXP and LOG answer: figures or a refusal, and the eight numbers of the record of them (01; 02, E7).
#![tactic(auto)]

ghost use Rattle.std.specs.Prelude.{◌≡◌};
ghost use Rattle.answer.specs.Refusal.{refusal_number};
ghost use Rattle.answer.specs.Record.{numbers, record_of};

use point::Point;

// Why an input is turned away, with its number in 01.
#[derive(Clone, Copy, Debug, PartialEq, Eq)]
pub enum Refusal {
    // 1: the count of steps is out of range
    Steps,
    // 2: a part of the exponent is over 8 in size
    Exponent,
    // 3: a part is over 2^58 in size
    Part,
    // 4: the zero point has no logarithm
    Zero,
}

// EXP: value times 2^binary_exponent is the start times the exponential of the exponent, nearly; quadrant is 0. LOG: value is the logarithm;
// the point is 2^binary_exponent * i^quadrant * exp(value), nearly. error_bound says how nearly: in units, for EXP times 2^binary_exponent.
// remainder is what the steps left over: for EXP the last exponent, for LOG the last point less one.
#[derive(Clone, Copy)]
pub struct Figures {
    pub value: Point,
    pub binary_exponent: i64,
    pub quadrant: i64,
    pub error_bound: i64,
    pub remainder: Point,
}

impl From<Refusal> for i64 {
    ghost from_gives = { λ r n. n ≡ refusal_number r };

    fn from(r: Refusal) -> i64 {
        match r {
            Refusal::Steps => 1,
            Refusal::Exponent => 2,
            Refusal::Part => 3,
            Refusal::Zero => 4,
        }
    }
}

// The record's numbers, in its order.
fn numbers(refusal: i64, f: Figures) -> [i64; 8]
    ensures { result ≡ numbers refusal f }
{
    [
        refusal,
        f.value.x,
        f.value.y,
        f.binary_exponent,
        f.quadrant,
        f.error_bound,
        f.remainder.x,
        f.remainder.y,
    ]
}

pub fn record(answer: Result<Figures, Refusal>) -> [i64; 8]
    ensures { result ≡ record_of answer }
{
    match answer {
        Ok(f) => numbers(0, f),
        Err(r) => {
            let none = Figures {
                value: Point::ZERO,
                binary_exponent: 0,
                quadrant: 0,
                error_bound: 0,
                remainder: Point::ZERO,
            };
            numbers(i64::from(r), none)
        }
    }
}
