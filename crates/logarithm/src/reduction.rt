// The reduction of a point (01, LOG): turned into a cone, scaled, and brought near one by the reciprocal of its cell.
ghost use Rattle.std.specs.Prelude.{◌≡◌, nat_abs, pos};
ghost use Rattle.algebra.specs.Gauss.{◌*ᵍ◌, negᵍ, two};
ghost use Rattle.algebra.specs.Order.{◌⩽◌};
ghost use Rattle.algebra.specs.Size.{Parts};
ghost use Rattle.algebra.specs.Rounding.{floorᵍ};
ghost use Rattle.point.specs.Point.{gauss, point};
ghost use Rattle.table_numbers.specs.Rows.{number};
ghost use Rattle.table_numbers.specs.Table.{reciprocal_table};
ghost use Rattle.logarithm.specs.Reduction.{in_cone, turn_back, spelling, bits, scaled};
ghost use Rattle.logarithm.specs.Answer.{begun};
ghost use Rattle.logarithm.specs.Code.{turn_of, ScalePre, ReducePre};

use iteration::State;
use point::Point;
use table_numbers::Entry;

// ---- the turn

// A point turned into the cone -x < y <= x, and the quarter turns that lead from there back, as q is written.
#[derive(Clone, Copy)]
pub struct Turn {
    pub point: Point,
    pub quadrant: i64,
}

fn in_cone(p: Point) -> bool
    requires { Parts (gauss p) (two 61) }
    ensures { result ≡ in_cone (gauss p) }
{
    -p.x < p.y && p.y <= p.x
}

fn turned_back(p: Point) -> Point
    requires { Parts (gauss p) (two 61) }
    ensures { result ≡ point (turn_back (gauss p)) }
{
    p.conjugate().quarter_turn().conjugate()
}

// How half a turn is written: a w above the axis is that of a point below it, which is reached backwards.
#[tactic(auto, unfolding(crate::specs::Reduction::spelling))]
fn half_turn(w: Point) -> i64
    ensures { result ≡ spelling 2 (gauss w) }
{
    if 0 < w.y { -2 } else { 2 }
}

pub fn turned(p: Point) -> Turn
    requires { Parts (gauss p) (two 61) }
    ensures { result ≡ turn_of p }
{
    if in_cone(p) {
        return Turn {
            point: p,
            quadrant: 0,
        };
    }
    let p1 = turned_back(p);
    if in_cone(p1) {
        return Turn {
            point: p1,
            quadrant: 1,
        };
    }
    let p2 = turned_back(p1);
    if in_cone(p2) {
        return Turn {
            point: p2,
            quadrant: half_turn(p2),
        };
    }
    let p3 = turned_back(p2);
    Turn {
        point: p3,
        quadrant: -1,
    }
}

// ---- the scale

pub fn bit_length(x: i64) -> usize
    requires { pos 1 ⩽ x }
    ensures { result ≡ bits (nat_abs x) }
{
    x.ilog2() as usize + 1
}

// w over 2^(b - 48), b being the length of its x: exactly, or by floor.
fn scaled(w: Point, b: usize) -> Point
    requires { ScalePre 48 w b }
    ensures { result ≡ point (scaled 48 (gauss w)) }
{
    if b <= 48 {
        let up = 48 - b;
        Point {
            x: w.x << up,
            y: w.y << up,
        }
    } else {
        let down = b - 48;
        Point {
            x: w.x >> down,
            y: w.y >> down,
        }
    }
}

// ---- the reciprocal

// Times a reciprocal in 64ths, each part by floor.
fn reduced(p: Point, c: Entry) -> Point
    requires { ReducePre 48 p c }
    ensures { result ≡ point (floorᵍ (number c *ᵍ gauss p) 64) }
{
    let re = c.re * p.x - c.im * p.y;
    let im = c.re * p.y + c.im * p.x;
    Point {
        x: re >> 6,
        y: im >> 6,
    }
}

fn negated(t: Entry) -> Point
    requires { Parts (number t) (two 61) }
    ensures { result ≡ point (negᵍ (number t)) }
{
    Point { x: -t.re, y: -t.im }
}

// What the steps start from: the turned point scaled and brought near one, and minus the logarithm of the reciprocal. A cell is 2^44 units
// wide.
pub fn begun(w: Point, b: usize) -> State
    requires { ScalePre 48 w b }
    ensures { result ≡ begun 48 reciprocal_table (gauss w) }
{
    let p = scaled(w, b);
    let x = p.x;
    let y = p.y;
    let column = x >> 44;
    let row = y >> 44;
    let l = tables::reciprocal_log(column, row);
    let c = tables::reciprocal(column, row);
    let point = reduced(p, c);
    let sum = negated(l);
    State { point, sum }
}
