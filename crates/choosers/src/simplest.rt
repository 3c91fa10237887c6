// Simplest: the fraction of least denominator.
ghost use Rattle.std.specs.Prelude.{◌≡◌};
ghost use Rattle.naming.specs.Simplest.{simplest_of, NamesSimplest};
ghost use Rattle.naming.proofs.SimplestLaw.{simplest_keeps};

use intervals::{Chooser, Fraction, Interval};
use naming::simplest_in;

// Names the fraction of least denominator in the interval, and among those the one of least numerator in magnitude, if it is short.
#[derive(Clone, Copy)]
pub struct Simplest;

impl Chooser for Simplest {
    ghost rule = { λ _. simplest_of };

    ghost keeps = { λ c. simplest_keeps };

    #[tactic(auto, using(naming::proofs::SimplestFound::names_simplest))]
    fn choose(&mut self, interval: Interval) -> Option<Fraction>
        ensures is { result ≡ simplest_of interval }
        ensures simplest { NamesSimplest interval result }
    {
        simplest_in(interval)
    }
}
