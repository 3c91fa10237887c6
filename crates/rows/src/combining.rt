// The combination of two rows.
ghost use Rattle.std.specs.Prelude.{◌≡◌, ◌^◌, ◌<◌, ◌≤◌, ◌↔◌, List, ℤ, pos, ◌*ℤ◌, IfSome, IsNone, length, slice_index_or, unsigned_abs};
ghost use Rattle.std.specs.Option.{option_map};
ghost use Rattle.arith.specs.Dot.{combine};
ghost use Rattle.rows.specs.Rows.{combination_of, Satisfies};

use crate::numbers::Wide;
use crate::plain::PlainRow;
use crate::row::{ROW_LIMIT, Row};
use std::array;

// The lowest form of u·first + v·second; none where a multiplier passes the limit, or a number of the lowest form does.
// Whatever satisfies both rows satisfies the combination.
#[tactic(auto, unfolding(crate::specs::Rows::combination_of))]
pub fn combination(u: u32, first: &PlainRow, v: u32, second: &PlainRow) -> Option<Row>
    ensures value { option_map (λ row. row.plain.numbers) result ≡ combination_of u first.now.numbers v second.now.numbers }
    ensures follows { IfSome result (λ row. (point : List ℤ) → Satisfies point first.now.numbers → Satisfies point second.now.numbers → Satisfies point row.plain.numbers) }
{
    let first = Multiple::of(u, first)?;
    let second = Multiple::of(v, second)?;
    Row::lowest(first.plus(second))
}

// A row, to be taken so many times in a combination.
#[derive(Clone, Copy)]
struct Multiple<'a> {
    times: u32,
    row: &'a PlainRow,
    ghost small: { times ≤ 2 ^ 20 },
    ghost nine: { length row.now.numbers ≡ 9 },
}

impl<'a> Multiple<'a> {
    // None where the multiplier passes the limit.
    fn of(times: u32, row: &'a PlainRow) -> Option<Self>
        ensures refused { IsNone result ↔ (ROW_LIMIT < times) }
        ensures value { IfSome result (λ m. (m.times ≡ times) × (m.row.now ≡ row.now)) }
    {
        if times <= ROW_LIMIT {
            Some(Multiple { times, row })
        } else {
            None
        }
    }

    // The multiple of number k.
    fn at(&self, k: usize) -> i64
        requires { k < 9 }
        ensures value { result ≡ pos self.now.times *ℤ slice_index_or self.now.row.now.numbers k (pos 0) }
        ensures small { unsigned_abs result ≤ 2 ^ 51 }
    {
        i64::from(self.times) * i64::from(self.row.numbers[k])
    }

    // The sum of the multiples, place by place.
    fn plus(self, other: Multiple) -> Wide
        ensures { result ≡ combine (pos self.entry.times) self.entry.row.now.numbers (pos other.entry.times) other.entry.row.now.numbers }
    {
        Wide {
            numbers: array::from_fn(|k| self.at(k) + other.at(k)),
        }
    }
}
