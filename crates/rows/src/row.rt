// Rows that keep the limit and are in lowest form.
ghost use Rattle.std.specs.Prelude.{◌≡◌, ◌^◌, ◌≤◌, Some, ok_or};
ghost use Rattle.std.specs.Option.{option_map};
ghost use Rattle.std.specs.Result.{result_map_both};
ghost use Rattle.arith.specs.Dot.{dot};
ghost use Rattle.arith.specs.Lowest.{AllWithin, gcd_all};
ghost use Rattle.rows.specs.Rows.{worth_of, is_true, level_of, IsLevel, as_row, row_of, IsReduced, not_a_row_text};

use crate::numbers::Wide;
use crate::plain::PlainRow;
use crate::values::Values;
use std::error::Error;
use std::fmt;

// The greatest magnitude of a row's number.
pub const ROW_LIMIT: u32 = 1048576;

// Ghost fields and no model: so whoever holds a row, by a reference too, knows its limits, and a struct or an array with rows in it is copied.
#[derive(Clone, Copy, Debug)]
pub struct Row {
    plain: PlainRow,
    ghost limits: { AllWithin (2 ^ 20) plain.numbers },
    ghost lowest: { gcd_all plain.numbers ≤ 1 },
}

impl Row {
    // The lowest form of the numbers, the constant first; none where one of its numbers passes the limit.
    pub fn lowest_of(numbers: &[i32; 9]) -> Option<Row>
        ensures { option_map (λ row. row.plain.numbers) result ≡ row_of numbers.now }
    {
        Row::lowest(Wide::from(*numbers))
    }

    // The lowest form of the numbers; the limit is judged once it is taken.
    #[tactic(auto, unfolding(crate::specs::Rows::in_limit), using(arith::proofs::LowestForms::within_is))]
    pub(crate) fn lowest(numbers: Wide) -> Option<Row>
        ensures { option_map (λ row. row.plain.numbers) result ≡ row_of numbers }
    {
        let least = numbers.lowest();
        if !least.is_within(ROW_LIMIT) {
            return None;
        }
        let numbers = least.narrowed();
        Some(Row {
            plain: PlainRow { numbers },
        })
    }

    pub fn level(&self) -> usize
        ensures value { result ≡ level_of self.now.plain.numbers }
        ensures greatest { IsLevel self.now.plain.numbers result }
        ensures reduced { IsReduced self.now.plain.numbers }
    {
        self.plain.level()
    }

    // The worth a1·N1 + .. + a8·N8 + b·D at the values.
    pub fn worth(&self, values: &Values) -> i64
        ensures { result ≡ worth_of self.now.plain.numbers values.now.numbers }
    {
        sum_of_products(self, values)
    }

    // Whether the values satisfy the row.
    pub fn is_true(&self, values: &Values) -> bool
        ensures { result ≡ is_true values.now.numbers self.now.plain.numbers }
    {
        self.worth(values) >= 0
    }
}

// A plain row that is no row as it stands: a number passes the limit, or it is not in lowest form.
#[derive(Clone, Copy, PartialEq, Eq, Debug)]
pub struct NotARow(pub PlainRow);

impl TryFrom<PlainRow> for Row {
    type Error = NotARow;

    ghost try_from_gives = { λ plain made. result_map_both (λ row. row.plain.numbers) (λ error. error) made ≡ ok_or (as_row plain.numbers) (record { 0 = plain }) };

    #[tactic(auto, unfolding(crate::specs::Rows::as_row), using(crate::proofs::Outcomes::reduced_from))]
    fn try_from(plain: PlainRow) -> Result<Self, NotARow> {
        if plain.is_reduced() {
            Ok(Row { plain })
        } else {
            Err(NotARow(plain))
        }
    }
}

impl From<Row> for PlainRow {
    ghost from_gives = { λ row plain. (plain ≡ row.plain) × IsReduced row.plain.numbers };

    fn from(row: Row) -> PlainRow {
        row.plain
    }
}

impl fmt::Display for NotARow {
    ghost output = { λ _. Some not_a_row_text };

    fn fmt<W: fmt::Write>(&self, f: &mut fmt::Formatter<W>) -> fmt::Result {
        f.write_str("the numbers pass the limit of a row, or have a common divisor")
    }
}

impl Error for NotARow {}

// The sum of the products, place by place.
fn sum_of_products(row: &Row, values: &Values) -> i64
    ensures { result ≡ dot row.now.plain.numbers values.now.numbers }
{
    // A loop: in a chain, no bound is found for the sum of signed numbers.
    let mut sum = 0;
    for (coefficient, value) in row.plain.numbers.iter().zip(&values.numbers) {
        sum += i64::from(*coefficient) * i64::from(*value);
    }
    sum
}
