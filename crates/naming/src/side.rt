// The two sides of 0.
ghost use Rattle.std.specs.Prelude.{◌≡◌, ◌^◌, ◌<◌};
ghost use Rattle.naming.specs.Spans.{signed, is_on, other, end_of};

use intervals::{Bound, Interval};

#[derive(Clone, Copy, PartialEq, Eq, Debug)]
pub(crate) enum Side {
    Above,
    Below,
}

impl Side {
    // The number of this magnitude on this side.
    pub(crate) fn signed(self, magnitude: u64) -> i64
        requires { magnitude < 2 ^ 63 }
        ensures { result ≡ signed self magnitude }
    {
        // The cast is proved to lose nothing, so `try_from` would only test again.
        let number = magnitude as i64;
        match self {
            Side::Above => number,
            Side::Below => -number,
        }
    }

    // Whether the number is not 0 and lies on this side of it.
    pub(crate) fn has(self, number: i64) -> bool
        ensures { result ≡ is_on self number }
    {
        match self {
            Side::Above => number > 0,
            Side::Below => number < 0,
        }
    }

    pub(crate) fn other(self) -> Side
        ensures { result ≡ other self }
    {
        match self {
            Side::Above => Side::Below,
            Side::Below => Side::Above,
        }
    }

    // The end that is next to 0 where the interval lies on this side.
    pub(crate) fn end(self, interval: Interval) -> Option<Bound>
        ensures { result ≡ end_of self interval }
    {
        match self {
            Side::Above => interval.lower_bound(),
            Side::Below => interval.upper_bound(),
        }
    }
}
