// A row's numbers, whatever they are.
ghost use Rattle.std.specs.Prelude.{◌≡◌};
ghost use Rattle.rows.specs.Rows.{level_of, IsLevel, is_false, in_lowest};

use crate::numbers::Wide;
use crate::row::ROW_LIMIT;

// The constant b and then a1 to a8; with n unknowns those past an are 0.
#[derive(Clone, Copy, PartialEq, Eq, Debug)]
pub struct PlainRow {
    pub numbers: [i32; 9],
}

impl PlainRow {
    // The greatest k for which ak is not 0, or 0.
    pub fn level(&self) -> usize
        ensures value { result ≡ level_of self.now.numbers }
        ensures greatest { IsLevel self.now.numbers result }
    {
        last_place(&self.numbers)
    }

    // Whether no point satisfies the row: every coefficient is 0, and the constant is negative.
    pub fn is_false(&self) -> bool
        ensures { result ≡ is_false self.now.numbers }
    {
        self.level() == 0 && self.numbers[0] < 0
    }

    // Whether the numbers are a row as they stand.
    pub(crate) fn is_reduced(&self) -> bool
        ensures { result ≡ in_lowest self.now.numbers }
    {
        let wide = Wide::from(self.numbers);
        wide.is_within(ROW_LIMIT) && wide.gcd() <= 1
    }
}

// The place of the last number that is not 0, but for the first number: a function of its own, so that `level` is proved from its contract.
fn last_place(numbers: &[i32; 9]) -> usize
    ensures value { result ≡ level_of numbers.now }
    ensures greatest { IsLevel numbers.now result }
{
    numbers.iter().rposition(|number| *number != 0).unwrap_or(0)
}
