// Which fractions may be named at an interval.
ghost use Rattle.std.specs.Prelude.{◌≡◌, ◌&&◌, IsTrue};
ghost use Rattle.intervals.specs.Meaning.{is_short, inside};

use crate::fraction::Fraction;
use crate::interval::Interval;
use arith::gcd;
use rows::VALUE_LIMIT;

impl Fraction {
    // Whether both parts are within 2^18, the denominator is at least 1, and the fraction is in lowest terms.
    pub fn is_short(self) -> bool
        ensures { result ≡ is_short self }
    {
        let over = self.numerator.unsigned_abs();
        let under = self.denominator;
        let within = over <= VALUE_LIMIT && (1..=VALUE_LIMIT).contains(&under);
        within && gcd(u64::from(over), u64::from(under)) == 1
    }
}

impl Interval {
    // Whether a chooser may name the fraction here: it is short, and it lies in the interval, ends included.
    pub fn admits(self, fraction: Fraction) -> bool
        ensures { result ≡ (is_short fraction && inside self fraction) }
    {
        fraction.is_short() && self.holds(fraction)
    }

    // By comparisons of the ends that there are: one that is absent bounds nothing.
    // Here and in `compared` alone a fraction has to be short: fractions stay plain numbers, so that tables and notes can hold any.
    #[tactic(auto, using(crate::proofs::Orders::compared_tests))]
    fn holds(self, fraction: Fraction) -> bool
        requires { IsTrue (is_short fraction) }
        ensures { result ≡ inside self fraction }
    {
        let lower = self.lower_bound();
        let upper = self.upper_bound();
        lower.is_none_or(|bound| bound.compared(fraction).is_le())
            && upper.is_none_or(|bound| bound.compared(fraction).is_ge())
    }
}
