// A site's own chooser, over any other.
ghost use Rattle.std.specs.Prelude.{◌≡◌, true, ◌&&◌};
ghost use Rattle.intervals.specs.Meaning.{is_short, inside, layered};
ghost use Rattle.choices.specs.Likely.{admitted_at};
ghost use Rattle.intervals.proofs.Layers.{layer_keeps};
ghost use Rattle.choices.specs.LikelyLaw.{likely_offers};

use intervals::{Chooser, Fraction, Interval, named_or_below};

// Names the value that the site holds likely, where the interval admits it, else what the chooser below names.
#[derive(Clone, Copy, Drop)]
pub struct Likely<C> {
    pub value: Fraction,
    pub below: C,
}

impl<C: Chooser> Chooser for Likely<C> {
    ghost rule = { λ l. layered (admitted_at l.value) (C.Chooser.rule l.below) };

    ghost keeps = { λ c. layer_keeps (admitted_at c.value) (C.Chooser.rule c.below) (likely_offers c.value) (C.Chooser.keeps c.below) };

    fn choose(&mut self, interval: Interval) -> Option<Fraction>
        ensures is { result ≡ layered (admitted_at self.old.value) (C.Chooser.rule self.old.below) interval }
        ensures value { self.new.value ≡ self.old.value }
        ensures unasked { (is_short self.old.value && inside interval self.old.value) ≡ true → self.new.below ≡ self.old.below }
    {
        let named = interval.admits(self.value).then_some(self.value);
        named_or_below(named, &mut self.below, interval)
    }
}
