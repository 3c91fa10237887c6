// The fraction over the least power of two.
ghost use Rattle.std.specs.Prelude.{◌≡◌, ◌^◌, ◌<◌};
ghost use Rattle.naming.specs.Dyadic.{dyadic_of, NamesOver};

use crate::naming::ZERO;
use crate::span::Span;
use intervals::{Fraction, Interval};
use rows::VALUE_LIMIT;

// The powers of two from 1 to 2^18.
const POWERS: u32 = 19;

// The n/m of least magnitude with n within 2^18 over the least power of two m up to 2^18 that has such an n/m in the interval, if one has.
#[tactic(auto, using(crate::proofs::Powers::zero_is_dyadic))]
pub fn dyadic_in(interval: Interval) -> Option<Fraction>
    ensures { result ≡ dyadic_of interval }
{
    let Some(span) = Span::of(interval) else {
        return Some(ZERO);
    };
    (0..POWERS).find_map(|exponent| over_power(span, exponent))
}

// n/2^exponent for the least n that serves, if there is one and it is within the limit.
#[tactic(auto, using(std::proofs::Common::pow_mono))]
fn over_power(span: Span, exponent: u32) -> Option<Fraction>
    requires { exponent < POWERS }
    ensures { NamesOver span (2 ^ exponent) result }
{
    let m = 1 << exponent;
    let n = span.least_over(m)?;
    // The cast is proved to lose nothing, so `try_from` would only test again.
    (n <= u64::from(VALUE_LIMIT)).then(|| Fraction {
        numerator: span.side().signed(n) as i32,
        denominator: m,
    })
}
