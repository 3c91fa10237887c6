// Fractions that are not negative.
ghost use Rattle.std.specs.Prelude.{◌≡◌, ◌+◌, ◌-◌, ◌*◌, ◌^◌, ◌<◌, ◌≤◌, ◌&&◌, nat_le};
ghost use Rattle.rows.specs.Rows.{value_limit};

use intervals::Bound;
use rows::VALUE_LIMIT;

// What is under the stroke may be 0, as the walk between two fractions begins with 1/0: so `rounded_up` alone asks for more.
#[derive(Clone, Copy)]
pub(crate) struct Ratio {
    pub(crate) over: u64,
    pub(crate) under: u64,
}

impl Ratio {
    ghost use Rattle.naming.specs.Spans.{magnitude_of};

    // An end by its magnitude.
    pub(crate) fn magnitude(end: Bound) -> Ratio
        ensures { result ≡ magnitude_of end }
    {
        Ratio {
            over: end.numerator().unsigned_abs(),
            under: end.denominator(),
        }
    }

    #[tactic(auto, using(crate::proofs::Turning::rounded_up))]
    pub(crate) fn rounded_up(self) -> u64
        requires { 1 ≤ self.under }
        ensures enough { self.over ≤ result * self.under }
        ensures least { result * self.under < self.over + self.under }
    {
        self.over.div_ceil(self.under)
    }

    // Whether the fraction is at least the whole number.
    pub(crate) fn reaches(self, whole: u64) -> bool
        requires { whole * self.under < 2 ^ 64 }
        ensures { result ≡ nat_le (whole * self.under) self.over }
    {
        whole * self.under <= self.over
    }

    // Whether neither part passes the limit of a short fraction.
    pub(crate) fn is_within_limit(self) -> bool
        ensures { result ≡ (nat_le self.over value_limit && nat_le self.under value_limit) }
    {
        self.over <= u64::from(VALUE_LIMIT) && self.under <= u64::from(VALUE_LIMIT)
    }

    // The fraction times a whole number.
    pub(crate) fn multiplied(self, factor: u64) -> Ratio
        requires { self.over * factor < 2 ^ 64 }
        ensures { result ≡ record { over = self.over * factor; under = self.under } }
    {
        Ratio {
            over: self.over * factor,
            under: self.under,
        }
    }

    // Part by part, factor times this one and the other once: not a sum of fractions.
    pub(crate) fn mul_add(self, factor: u64, other: Ratio) -> Ratio
        requires over_fits { self.over * factor + other.over < 2 ^ 64 }
        requires under_fits { self.under * factor + other.under < 2 ^ 64 }
        ensures { result ≡ record { over = self.over * factor + other.over; under = self.under * factor + other.under } }
    {
        Ratio {
            over: self.over * factor + other.over,
            under: self.under * factor + other.under,
        }
    }

    // 1/(x - whole), for the fraction x.
    pub(crate) fn turned(self, whole: u64) -> Ratio
        requires { whole * self.under ≤ self.over }
        ensures { result ≡ record { over = self.under; under = self.over - whole * self.under } }
    {
        Ratio {
            over: self.under,
            under: self.over - whole * self.under,
        }
    }
}
