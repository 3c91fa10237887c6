// Dyadic: the fraction over the least power of two.
ghost use Rattle.std.specs.Prelude.{◌≡◌, IsSome};
ghost use Rattle.naming.specs.Dyadic.{dyadic_of, dyadic_over, NamesDyadic};
ghost use Rattle.naming.proofs.DyadicLaw.{dyadic_keeps};

use intervals::{Chooser, Fraction, Interval, named_or_below};
use naming::dyadic_in;

// Takes the least power of two m up to 2^18 for which some n/m with n within 2^18 lies in the interval, and names the n/m of least magnitude;
// else what the chooser below names, which is called only then.
#[derive(Clone, Copy, Drop)]
pub struct Dyadic<C> {
    pub below: C,
}

impl<C: Chooser> Chooser for Dyadic<C> {
    ghost rule = { λ d. dyadic_over (C.Chooser.rule d.below) };

    ghost keeps = { λ c. dyadic_keeps (C.Chooser.rule c.below) (C.Chooser.keeps c.below) };

    #[tactic(auto, using(naming::proofs::DyadicLaw::names_dyadic))]
    fn choose(&mut self, interval: Interval) -> Option<Fraction>
        ensures is { result ≡ dyadic_over (C.Chooser.rule self.old.below) interval }
        ensures dyadic { NamesDyadic interval (dyadic_of interval) }
        ensures unasked { IsSome (dyadic_of interval) → self.new.below ≡ self.old.below }
    {
        named_or_below(dyadic_in(interval), &mut self.below, interval)
    }
}
