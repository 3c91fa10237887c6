// Values of the unknowns: numerators over one denominator, in least terms.
ghost use Rattle.std.specs.Prelude.{◌≡◌, ◌^◌, ◌≤◌, pos, ◌≤ℤ◌, slice_index_or};
ghost use Rattle.std.specs.Option.{option_map};
ghost use Rattle.arith.specs.Lowest.{AllWithin, gcd_all};
ghost use Rattle.rows.specs.Rows.{values_of, AreReduced};

use crate::numbers::Wide;

// The greatest numerator, in magnitude, and the greatest denominator.
pub const VALUE_LIMIT: u32 = 262144;

// The denominator and then N1 to N8; with n unknowns those past Nn are 0.
#[derive(Clone, Copy, Debug)]
pub struct Values {
    pub(crate) numbers: [i32; 9],
    ghost limits: { AllWithin (2 ^ 18) numbers },
    ghost positive: { pos 1 ≤ℤ slice_index_or numbers 0 (pos 0) },
    ghost least: { gcd_all numbers ≤ 1 },
}

impl Values {
    // The values in least terms; none where the denominator is below 1 or a number passes the limit.
    #[tactic(auto, unfolding(crate::specs::Rows::values_of, crate::specs::Rows::are_values), using(crate::proofs::Outcomes::values_reduced, crate::proofs::Outcomes::values_narrow))]
    pub fn of(numbers: &[i32; 9]) -> Option<Values>
        ensures { option_map (λ values. values.numbers) result ≡ values_of numbers.now }
    {
        let wide = Wide::from(*numbers);
        if !wide.is_within(VALUE_LIMIT) || numbers[0] < 1 {
            return None;
        }
        let numbers = wide.lowest().narrowed();
        Some(Values { numbers })
    }

    // The denominator and then the numerators.
    pub fn numbers(&self) -> [i32; 9]
        ensures is { result ≡ self.now.numbers }
        ensures reduced { AreReduced self.now.numbers }
    {
        self.numbers
    }
}
