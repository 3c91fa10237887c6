// Whole blocks: what stands before what they hold, zeros behind it, and the seal.
ghost use Rattle.std.specs.Prelude.{◌≡◌, ℕ, ◌-◌, ◌≤◌, List, ◌++◌, length};
ghost use Rattle.std.specs.List.{flat_map};
ghost use Rattle.rows.specs.Image.{zero_bytes, block_body, sealed, header_bytes, record_bytes};
ghost use Rattle.rows.specs.Origins.{records_with};

use crate::fields::put;
use crate::record::write_record;
use crate::records::pairs;
use rows::{Origin, PlainRow, layout, seal};

// The header of n unknowns and t records.
pub(crate) fn header(unknowns: u16, records: u16) -> [u8; layout::BLOCK]
    ensures { result ≡ header_bytes unknowns records }
{
    let numbers = [layout::EDITION, unknowns, records].map(u16::to_le_bytes);
    let mut block = [0; layout::BLOCK];
    put(&mut block, layout::HELD_AT, numbers.as_flattened());
    frame(&mut block, 0, 0);
    block
}

// Writes the block of the records that these origins and rows make, at most eight.
pub(crate) fn write_records(block: &mut [u8], number: u32, origins: &[Origin], rows: &[PlainRow])
    requires size { length block.old ≡ 512 }
    requires few { length (records_with origins.now rows.now) ≤ 8 }
    ensures { let records = records_with origins.now rows.now in block.new ≡ sealed (block_body number (length records) (flat_map record_bytes records)) }
{
    block.fill(0);
    // By bytes written, as in `Image::write`: after a loop over mutable chunks the checker knows nothing of what they are.
    let mut end = layout::HELD_AT;
    for (origin, row) in origins.iter().zip(rows) {
        write_record(&mut block[end..end + layout::RECORD], *origin, row);
        end += layout::RECORD;
    }
    // The cast is proved to lose nothing, so `try_from` would only test again.
    frame(block, number, pairs(origins, rows) as u16);
}

// Puts number, count and seal round what the block holds, in place: a block that is made once is not copied.
fn frame(block: &mut [u8], number: u32, count: u16)
    requires { length block.old ≡ 512 }
    ensures { (held : List ℕ) → length held ≤ 500 → block.old ≡ zero_bytes 8 ++ (held ++ zero_bytes (504 - length held)) → block.new ≡ sealed (block_body number count held) }
{
    put(block, layout::NUMBER_AT, &number.to_le_bytes());
    put(block, layout::COUNT_AT, &count.to_le_bytes());
    let seal = seal(block);
    put(block, layout::SEAL_AT, &seal.to_le_bytes());
}
