// Arithmetic on whole numbers: what rows, values and choosers stand on.
// The laws are lemmas of proofs/: Integers (products, order, fractions), Divisors, Dots (sums of products), LowestForms.
#![tactic(auto)]

ghost use Rattle.std.specs.Prelude.{◌≡◌};
ghost use Rattle.arith.specs.Gcd.{gcd_of, IsGcd};

// The greatest common divisor; 0 where both are 0.
#[tactic(auto, using(crate::proofs::Divisors::gcd_one))]
pub fn gcd(a: u64, b: u64) -> u64
    ensures value { result ≡ gcd_of a b }
    ensures greatest { IsGcd a b result }
{
    // Rows soon reach 1, and then no division is wanted.
    if a == 1 {
        return 1;
    }
    euclid(a, b)
}

#[tactic(auto, using(crate::proofs::Divisors::gcd_zero, crate::proofs::Divisors::gcd_step))]
fn euclid(a: u64, b: u64) -> u64
    ensures value { result ≡ gcd_of a b }
    ensures greatest { IsGcd a b result }
{
    let (mut x, mut y) = (a, b);
    while y != 0 {
        (x, y) = (y, x % y);
    }
    x
}
