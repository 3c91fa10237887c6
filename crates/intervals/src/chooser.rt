// Choosers: whoever names a value where a level leaves an interval.
ghost use Rattle.std.specs.Prelude.{◌≡◌, Option};
ghost use Rattle.intervals.specs.Meaning.{Keeps};
ghost use Rattle.intervals.specs.declared.fraction.Fraction.{Fraction};
ghost use Rattle.intervals.specs.declared.interval.Interval.{Interval};

use crate::fraction::Fraction;
use crate::interval::Interval;

// At each moment a chooser stands for a rule, which says what it names for each interval: a short fraction in the interval, ends included,
// and nothing exactly where the interval holds no short fraction. A call answers what the rule names; afterwards the chooser may stand for
// another rule, which keeps the same conditions.
pub trait Chooser {
    ghost rule: { Self → Interval → Option Fraction };

    fn choose(&mut self, interval: Interval) -> Option<Fraction>
        ensures { result ≡ rule self.old interval };

    ghost keeps: { (c : Self) → Keeps (rule c) };
}
