// Building an interval, and its parts.
ghost use Rattle.std.specs.Prelude.{◌≡◌, IsTrue};
ghost use Rattle.std.specs.Option.{option_map};
ghost use Rattle.intervals.specs.Ends.{is_scale, is_end, in_order, are_ends, interval_of};
ghost use Rattle.intervals.specs.Meaning.{parts_of};

use crate::interval::{End, Interval};
use crate::products::product;
use rows::{ROW_LIMIT, VALUE_LIMIT};

const NUMERATOR_LIMIT: u64 = 1 << 41;

impl Interval {
    // The interval with this scale and these ends; none where they break a rule.
    pub fn of(scale: u32, lower: Option<End>, upper: Option<End>) -> Option<Interval>
        ensures { option_map parts_of result ≡ interval_of scale lower upper }
    {
        // Not by `then`: its closure would have to require again what the test has found.
        if is_scale(scale) && are_ends(lower, upper) {
            Some(Interval {
                scale,
                lower,
                upper,
            })
        } else {
            None
        }
    }

    pub fn scale(self) -> u32
        ensures { result ≡ self.scale }
    {
        self.scale
    }

    pub fn lower(self) -> Option<End>
        ensures { result ≡ self.lower }
    {
        self.lower
    }

    pub fn upper(self) -> Option<End>
        ensures { result ≡ self.upper }
    {
        self.upper
    }
}

impl End {
    fn is_within_limits(self) -> bool
        ensures { result ≡ is_end self }
    {
        self.numerator.unsigned_abs() <= NUMERATOR_LIMIT && (1..=ROW_LIMIT).contains(&self.divisor)
    }

    // The scale that both share cancels, so their cross products stay within 2^61.
    fn is_at_most(self, other: End) -> bool
        requires within { IsTrue (is_end self) }
        requires other_within { IsTrue (is_end other) }
        ensures { result ≡ in_order self other }
    {
        product(self.numerator, u64::from(other.divisor))
            <= product(other.numerator, u64::from(self.divisor))
    }
}

fn is_scale(scale: u32) -> bool
    ensures { result ≡ is_scale scale }
{
    (1..=VALUE_LIMIT).contains(&scale)
}

fn are_ends(lower: Option<End>, upper: Option<End>) -> bool
    ensures { result ≡ are_ends lower upper }
{
    match (lower, upper) {
        (None, None) => false,
        (Some(end), None) | (None, Some(end)) => end.is_within_limits(),
        (Some(lower), Some(upper)) => {
            lower.is_within_limits() && upper.is_within_limits() && lower.is_at_most(upper)
        }
    }
}
