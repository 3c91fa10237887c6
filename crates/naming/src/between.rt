// The least fraction between two that are above 0, by their continued fractions.
ghost use Rattle.std.specs.Prelude.{Some};
ghost use Rattle.naming.specs.Spans.{LeastShort, IsSpan};

use crate::ratio::Ratio;

// After a turn the product of a fraction's two parts is above 1, and each turn but the first at least halves it, from 2^79 on.
const MOST_TURNS: u32 = 80;

// The fraction from near to far of which both parts are least; perhaps none where one of them passes 2^18.
pub(crate) fn least_between(mut near: Ratio, mut far: Ratio) -> Option<Ratio>
    requires { IsSpan near (Some far) }
    ensures { LeastShort near (Some far) result }
{
    // If p/q is the least from near to far, then (last.over·p + before.over·q)/(last.under·p + before.under·q) is the least from the given near to
    // the given far.
    let mut last = Ratio { over: 1, under: 0 };
    let mut before = Ratio { over: 0, under: 1 };
    // Counted, so that the bound on the turns stands in the code and is proved (`unreachable`); a `loop` would say only that they end.
    for _turn in 0..MOST_TURNS {
        let whole = near.rounded_up();
        if far.reaches(whole) {
            return Some(last.mul_add(whole, before));
        }
        // Both lie strictly between floor and whole: floor is taken off, and what is left is turned over.
        let floor = whole - 1;
        let next = last.mul_add(floor, before);
        // No part of the answer will be less.
        if !next.is_within_limit() {
            return None;
        }
        (before, last) = (last, next);
        (near, far) = (far.turned(floor), near.turned(floor));
    }
    unreachable()
}
