// Edge: an end of the interval, where one is short.
ghost use Rattle.std.specs.Prelude.{◌≡◌, IsSome};
ghost use Rattle.naming.specs.Edge.{edge_of, edge_over};
ghost use Rattle.naming.proofs.EdgeLaw.{edge_keeps};

use intervals::{Chooser, Fraction, Interval, named_or_below};
use naming::edge_of;

// Names the lower end if there is one and it is short, else the upper end if there is one and it is short, else what the chooser below names,
// which is called only then.
#[derive(Clone, Copy, Drop)]
pub struct Edge<C> {
    pub below: C,
}

impl<C: Chooser> Chooser for Edge<C> {
    ghost rule = { λ e. edge_over (C.Chooser.rule e.below) };

    ghost keeps = { λ c. edge_keeps (C.Chooser.rule c.below) (C.Chooser.keeps c.below) };

    fn choose(&mut self, interval: Interval) -> Option<Fraction>
        ensures is { result ≡ edge_over (C.Chooser.rule self.old.below) interval }
        ensures unasked { IsSome (edge_of interval) → self.new.below ≡ self.old.below }
    {
        named_or_below(edge_of(interval), &mut self.below, interval)
    }
}
