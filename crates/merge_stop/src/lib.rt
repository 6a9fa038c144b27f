// Which line of which sheet stops a merge of two sheets. A walk of its own, so that a merge counts no lines.
#![tactic(auto)]

ghost use Rattle.std.specs.Prelude.{◌≡◌, pos};
ghost use Rattle.merge.specs.Merge.{merge_refusal, merge};
ghost use Rattle.merge_stop.specs.Stop.{named, stop};

use merge::{Choice, Front, MergeError};

// Where a merge stops: the refusal number or 0, and of each sheet the line that is refused, counted from 1, or 0 where it is none of that sheet.
#[repr(C)]
#[derive(Clone, Copy)]
pub struct Stop {
    pub refusal: i64,
    pub first: usize,
    pub second: usize,
}

// The i-th line of a sheet, which is f, where the refusal e is due to it, else 0.
#[tactic(auto, unfolding(crate::specs::Stop::named))]
fn name_line(e: MergeError, f: Front, i: usize) -> usize
    ensures { result ≡ named (merge_refusal e) f i }
{
    match (e, f) {
        (MergeError::Malformed, Front::Malformed)
        | (MergeError::Fallen, Front::Fallen)
        | (MergeError::Differing, Front::Risen(_)) => i,
        _ => 0,
    }
}

// Which line of which sheet stops the merge. No sheet has more lines than bytes, so no count overflows.
pub fn stopped_at<'a>(a: &'a [u8], b: &'a [u8]) -> Stop
    ensures stop { result ≡ stop a.now b.now }
    ensures same { result.refusal ≡ pos (merge a.now b.now).refusal }
{
    let mut p = a;
    let mut q = b;
    let mut f = merge::read_front(p, 0);
    let mut g = merge::read_front(q, 0);
    // f is the h-th line of the first sheet, g the i-th of the second
    let mut h: usize = 1;
    let mut i: usize = 1;
    // named, so that what is to be proved of the loop has a name too, whichever variables it changes
    'lines: loop {
        let c = merge::choose(p, q, f, g);
        // by reference: this Rattle fails on an arm of two patterns that take a number by value
        match &c {
            Choice::Done => return Stop {
                refusal: 0,
                first: 0,
                second: 0,
            },
            Choice::Refused(e) => return Stop {
                refusal: i64::from(*e),
                first: name_line(*e, f, h),
                second: name_line(*e, g, i),
            },
            Choice::First(n) | Choice::Passed(n) => {
                p = merge::step(p, q, c);
                f = merge::read_front(p, *n);
                h += 1;
            }
            Choice::Second(n) => {
                q = merge::step(p, q, c);
                g = merge::read_front(q, *n);
                i += 1;
            }
        }
    }
}
