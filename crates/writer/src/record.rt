// One record, in its 60 bytes.
ghost use Rattle.std.specs.Prelude.{◌≡◌, ◌++◌, take, drop, map};
ghost use Rattle.rows.specs.Bytes.{bytes_i32};
ghost use Rattle.rows.specs.Image.{record_bytes, row_bytes, zero_bytes};
ghost use Rattle.rows.specs.Origins.{record_with};

use crate::fields::put;
use rows::{Origin, PlainRow, layout};

// Writes a record over zeros: the origin, the coefficients and then the constant.
pub(crate) fn write_record(bytes: &mut [u8], origin: Origin, row: &PlainRow)
    requires zeros { bytes.old ≡ zero_bytes 60 }
    ensures { bytes.new ≡ record_bytes (record_with origin row.now) }
{
    write_origin(bytes, origin);
    let numbers = number_bytes(row);
    put(bytes, layout::COEFFICIENTS_AT, numbers[1..].as_flattened());
    put(bytes, layout::CONSTANT_AT, &numbers[0]);
}

// The bytes before the row.
#[tactic(auto, unfolding(rows::specs::Image::record_bytes))]
fn write_origin(bytes: &mut [u8], origin: Origin)
    requires zeros { bytes.old ≡ zero_bytes 60 }
    ensures front { (row : PlainRow) → record_bytes (record_with origin row) ≡ take 16 bytes.new ++ (row_bytes row.numbers ++ zero_bytes 8) }
    ensures rest { drop 16 bytes.new ≡ zero_bytes 44 }
{
    bytes[layout::KIND_AT] = origin.kind().into();
    match origin {
        Origin::Input { tag } => put(bytes, layout::FIRST_AT, &tag.to_le_bytes()),
        Origin::Step {
            first,
            second,
            u,
            v,
        } => {
            put(bytes, layout::FIRST_AT, &first.to_le_bytes());
            put(bytes, layout::SECOND_AT, &second.to_le_bytes());
            put(bytes, layout::U_AT, &u.to_le_bytes());
            put(bytes, layout::V_AT, &v.to_le_bytes());
        }
    }
}

// Four bytes for each number.
fn number_bytes(row: &PlainRow) -> [[u8; 4]; 9]
    ensures { result ≡ map bytes_i32 row.now.numbers }
{
    row.numbers.map(i32::to_le_bytes)
}
