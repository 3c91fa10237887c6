// An interval without 0, seen from 0.
ghost use Rattle.std.specs.Prelude.{◌≡◌, ◌^◌, ◌<◌, ◌≤◌, IfSome};
ghost use Rattle.naming.specs.Spans.{side_of, span_of, LeastShort, LeastOver};

use crate::between::least_between;
use crate::ratio::Ratio;
use crate::side::Side;
use intervals::Interval;
use std::marker::Model;

// On which side of 0 the interval lies, and by magnitudes its end next to 0 and, if there is one, the end behind that.
#[derive(Clone, Copy)]
pub(crate) struct Span {
    side: Side,
    near: Ratio,
    far: Option<Ratio>,
}

impl Model for Span {
    ghost use Rattle.naming.specs.Spans.{Seen, IsSpan};

    ghost Value = { Seen };

    ghost view = { λ s. record { side = s.side; near = s.near; far = s.far } };

    ghost invariant = { λ s. IsSpan s.near s.far };

    ghost inverse = { λ s. record { side = s.side; near = s.near; far = s.far } };
}

impl Span {
    // The interval as seen from 0; none where 0 lies in it.
    pub(crate) fn of(interval: Interval) -> Option<Span>
        ensures { result ≡ span_of interval }
    {
        Span::on(Side::Above, interval).or_else(|| Span::on(Side::Below, interval))
    }

    // The interval as seen on one side of 0, if it lies there.
    fn on(side: Side, interval: Interval) -> Option<Span>
        ensures { result ≡ side_of side interval }
    {
        let near = side
            .end(interval)
            .filter(|near| side.has(near.numerator()))?;
        let far = side.other().end(interval);
        Some(Span {
            side,
            near: Ratio::magnitude(near),
            far: far.map(Ratio::magnitude),
        })
    }

    pub(crate) fn side(self) -> Side
        ensures { result ≡ self.side }
    {
        self.side
    }

    // The fraction from near on, and up to far if there is one, of which both parts are least; perhaps none where one of them passes 2^18.
    pub(crate) fn least(self) -> Option<Ratio>
        ensures least { LeastShort self.near self.far result }
        ensures small { IfSome result (λ r. r.over < 2 ^ 63) }
    {
        match self.far {
            Some(far) => least_between(self.near, far),
            None => Some(Ratio {
                over: self.near.rounded_up(),
                under: 1,
            }),
        }
    }

    // The least n for which n/m is from near on, and up to far if there is one.
    #[tactic(auto, using(crate::proofs::LeastOvers::least_over_facts))]
    pub(crate) fn least_over(self, m: u32) -> Option<u64>
        requires { m ≤ 2 ^ 18 }
        ensures { LeastOver self.near self.far m result }
    {
        let m = u64::from(m);
        let n = self.near.multiplied(m).rounded_up();
        let reached = self.far.is_none_or(|far| far.multiplied(m).reaches(n));
        reached.then_some(n)
    }
}
