// An end of the interval, where one is short.
ghost use Rattle.std.specs.Prelude.{◌≡◌};
ghost use Rattle.naming.specs.Edge.{short_of, edge_of};

use crate::naming::if_short;
use arith::gcd;
use intervals::{Bound, Fraction, Interval};

// The lower end, else the upper end, if it is short.
pub fn edge_of(interval: Interval) -> Option<Fraction>
    ensures { result ≡ edge_of interval }
{
    let lower = interval.lower_bound().and_then(short_of);
    lower.or_else(|| interval.upper_bound().and_then(short_of))
}

// The end in lowest terms, if that is short.
fn short_of(end: Bound) -> Option<Fraction>
    ensures { result ≡ short_of end }
{
    let numerator = end.numerator();
    let denominator = end.denominator();
    let g = gcd(numerator.unsigned_abs(), denominator);
    // The cast is proved to lose nothing, so `try_from` would only test again.
    if_short(numerator / g as i64, denominator / g)
}
