// An end of an interval as a fraction by itself.
ghost use Rattle.std.specs.Prelude.{◌≡◌, ◌*◌, ◌^◌, ◌≤◌, IsTrue, pos, ◌*ℤ◌, unsigned_abs};
ghost use Rattle.std.specs.Option.{option_map};
ghost use Rattle.std.specs.Ordering.{int_cmp};
ghost use Rattle.intervals.specs.Ends.{is_scale, is_end};
ghost use Rattle.intervals.specs.Meaning.{is_short};
ghost use Rattle.intervals.specs.Bounds.{bound_of};

use crate::fraction::Fraction;
use crate::interval::{End, Interval};
use crate::products::product;
use std::cmp::Ordering;
use std::marker::Model;

// numerator/denominator: an end's numerator over its divisor times the scale of its interval.
// The numerator is within 2^41, and the denominator from 1 to 2^38.
#[derive(Clone, Copy, PartialEq, Eq, Debug)]
pub struct Bound {
    numerator: i64,
    denominator: u64,
}

impl Model for Bound {
    ghost use Rattle.intervals.specs.Bounds.{EndFraction, IsBound};

    ghost Value = { EndFraction };

    ghost view = { λ b. record { numerator = b.numerator; denominator = b.denominator } };

    ghost invariant = { λ b. IsBound b.numerator b.denominator };

    ghost inverse = { λ e. record { numerator = e.numerator; denominator = e.denominator } };
}

impl Bound {
    // The end, with the scale of its interval: here alone they come together, and their rules are asked for.
    pub(crate) fn of(scale: u32, end: End) -> Self
        requires scale { IsTrue (is_scale scale) }
        requires end { IsTrue (is_end end) }
        ensures { result ≡ bound_of scale end }
    {
        Bound {
            numerator: end.numerator,
            denominator: u64::from(end.divisor) * u64::from(scale),
        }
    }

    pub fn numerator(self) -> i64
        ensures is { result ≡ self.numerator }
        ensures few { unsigned_abs result ≤ 2 ^ 41 }
    {
        self.numerator
    }

    pub fn denominator(self) -> u64
        ensures is { result ≡ self.denominator }
        ensures some { 1 ≤ result }
        ensures few { result ≤ 2 ^ 38 }
    {
        self.denominator
    }

    // How the end compares to a short fraction, by products that the limits of both keep within 2^59.
    pub(crate) fn compared(self, fraction: Fraction) -> Ordering
        requires { IsTrue (is_short fraction) }
        ensures { result ≡ int_cmp (self.numerator *ℤ pos fraction.denominator) (fraction.numerator *ℤ pos self.denominator) }
    {
        let end = product(self.numerator, u64::from(fraction.denominator));
        let named = product(i64::from(fraction.numerator), self.denominator);
        end.cmp(&named)
    }
}

impl Interval {
    // Two functions for the two ends: the names are the interface.
    // The lower end as a fraction by itself, if there is one.
    pub fn lower_bound(self) -> Option<Bound>
        ensures { result ≡ option_map (bound_of self.scale) self.lower }
    {
        self.lower.map(|end| Bound::of(self.scale, end))
    }

    // The upper end as a fraction by itself, if there is one.
    pub fn upper_bound(self) -> Option<Bound>
        ensures { result ≡ option_map (bound_of self.scale) self.upper }
    {
        self.upper.map(|end| Bound::of(self.scale, end))
    }
}
