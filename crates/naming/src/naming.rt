// What is named, from its parts.
ghost use Rattle.std.specs.Prelude.{◌≡◌, ◌≤◌, unsigned_abs};
ghost use Rattle.arith.specs.Gcd.{gcd_of};
ghost use Rattle.naming.specs.Nearest.{over, if_short};

use intervals::Fraction;
use rows::VALUE_LIMIT;

pub(crate) const ZERO: Fraction = Fraction {
    numerator: 0,
    denominator: 1,
};

// The fraction, if its parts are within the limit: nothing else keeps one in lowest terms from being short.
pub(crate) fn if_short(numerator: i64, denominator: u64) -> Option<Fraction>
    requires some { 1 ≤ denominator }
    requires lowest { gcd_of (unsigned_abs numerator) denominator ≡ 1 }
    ensures { result ≡ if_short (over numerator denominator) }
{
    let limit = u64::from(VALUE_LIMIT);
    let within = numerator.unsigned_abs() <= limit && denominator <= limit;
    // The casts are proved to lose nothing, so `try_from` would only test again.
    within.then(|| Fraction {
        numerator: numerator as i32,
        denominator: denominator as u32,
    })
}
