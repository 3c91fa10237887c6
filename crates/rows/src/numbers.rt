// Nine whole numbers at a time, of 64 bits: what rows and values are brought to their lowest form in.
ghost use Rattle.std.specs.Prelude.{◌≡◌, ◌^◌, ◌≤◌};
ghost use Rattle.arith.specs.Lowest.{AllWithin, within_all, gcd_all, lowest_of, IsLowest};

use arith::gcd;
use std::marker::Model;

// Numbers of 32 bits, or their combination: each is within 2^53.
#[derive(Clone, Copy)]
pub(crate) struct Wide {
    pub(crate) numbers: [i64; 9],
}

impl Model for Wide {
    ghost use Rattle.std.specs.Prelude.{List, ℤ, ◌^◌};
    ghost use Rattle.arith.specs.Lowest.{AllWithin};

    ghost Value = { List ℤ };

    ghost view = { λ wide. wide.numbers };

    ghost invariant = { λ wide. AllWithin (2 ^ 53) wide.numbers };

    ghost inverse = { λ numbers. record { numbers = numbers } };
}

impl From<[i32; 9]> for Wide {
    ghost from_gives = { λ numbers wide. wide ≡ numbers };

    fn from(numbers: [i32; 9]) -> Wide {
        Wide {
            numbers: numbers.map(i64::from),
        }
    }
}

impl Wide {
    // The greatest whole number that divides all; 0 where all are 0.
    pub(crate) fn gcd(&self) -> u64
        ensures value { result ≡ gcd_all self.now }
        ensures small { result ≤ 2 ^ 53 }
    {
        self.numbers.iter().fold(0, |g, x| gcd(g, x.unsigned_abs()))
    }

    // Whether no magnitude passes the limit.
    pub(crate) fn is_within(&self, limit: u32) -> bool
        ensures { result ≡ within_all limit self.now }
    {
        let limit = u64::from(limit);
        self.numbers.iter().all(|x| x.unsigned_abs() <= limit)
    }

    // The numbers divided by the greatest whole number that divides them all.
    pub(crate) fn lowest(self) -> Wide
        ensures is { result ≡ lowest_of self }
        ensures least { gcd_all result ≤ 1 }
        ensures lowest { IsLowest self result }
    {
        let g = self.gcd();
        if g <= 1 {
            return self;
        }
        // The cast is proved to lose nothing, so `try_from` would only test again.
        let divisor = g as i64;
        Wide {
            numbers: self.numbers.map(|x| x / divisor),
        }
    }

    // As numbers of 32 bits: a method and no `TryFrom`, since its callers know that they fit.
    pub(crate) fn narrowed(&self) -> [i32; 9]
        requires { AllWithin (2 ^ 20) self.now }
        ensures { result ≡ self.now }
    {
        // The cast is proved to lose nothing, so `try_from` would only test again.
        self.numbers.map(|x| x as i32)
    }
}
