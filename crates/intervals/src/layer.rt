// Layers: choosers that stand over another.
ghost use Rattle.std.specs.Prelude.{◌≡◌, IsSome};
ghost use Rattle.std.specs.Option.{option_or};

use crate::chooser::Chooser;
use crate::fraction::Fraction;
use crate::interval::Interval;

// What a layer answers: what it names itself, else what the chooser below names, which is called only then.
pub fn named_or_below<C: Chooser>(
    named: Option<Fraction>,
    below: &mut C,
    interval: Interval,
) -> Option<Fraction>
    ensures is { result ≡ option_or named (C.rule below.old interval) }
    ensures unasked { IsSome named → below.new ≡ below.old }
{
    // Not by `or_else`: it does not promise to leave its closure uncalled, so `unasked` would stay open.
    match named {
        None => below.choose(interval),
        named => named,
    }
}
