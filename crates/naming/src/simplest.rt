// The fraction of least denominator.
ghost use Rattle.std.specs.Prelude.{◌≡◌};
ghost use Rattle.naming.specs.Simplest.{simplest_of};

use crate::naming::{ZERO, if_short};
use crate::span::Span;
use intervals::{Fraction, Interval};

// The fraction of least denominator in the interval, and among those the one of least numerator in magnitude, if it is short.
#[tactic(auto, using(crate::proofs::SimplestFound::least_facts))]
pub fn simplest_in(interval: Interval) -> Option<Fraction>
    ensures { result ≡ simplest_of interval }
{
    let Some(span) = Span::of(interval) else {
        return Some(ZERO);
    };
    let least = span.least()?;
    if_short(span.side().signed(least.over), least.under)
}
