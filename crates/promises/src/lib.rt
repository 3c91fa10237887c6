// What holds of the writer and the reader together.
#![tactic(auto)]

ghost use Rattle.std.specs.Prelude.{◌≡◌, is_ok, IfOk};
ghost use Rattle.rows.specs.Image.{image_of};
ghost use Rattle.reader.specs.Reading.{read_of};
ghost use Rattle.writer.specs.Writing.{derivation_of, write_of, held_after};
ghost use Rattle.promises.specs.RoundTrip.{back_of, ComesBack};

use reader::read;
use writer::{Records, Refusal};

// Writes the image of the records into the front of the buffer, reads it there, and answers whether it is accepted.
// Of a derivation it always is, and it is shown as the same records.
// The answer is a yes or no and not the accepted image: that would borrow the buffer, and then no plain clause says what the buffer holds;
// tried with the clause on a loan, and its proof stayed open. That records are no derivation is no refusal: their image is written.
pub fn write_and_read(records: &Records<'_>, buffer: &mut [u8]) -> Result<bool, Refusal>
    ensures is { result ≡ back_of (derivation_of records.now) buffer.old }
    ensures holds { buffer.new ≡ held_after (write_of (derivation_of records.now) buffer.old) (derivation_of records.now) buffer.old }
    ensures comes_back { IfOk result (ComesBack (derivation_of records.now)) }
{
    let size = records.write(buffer)?;
    Ok(is_accepted(records, &buffer[..size]))
}

// Whether the image of the records is accepted.
fn is_accepted(records: &Records<'_>, image: &[u8]) -> bool
    requires { image.now ≡ image_of (derivation_of records.now) }
    ensures is { result ≡ is_ok (read_of (image_of (derivation_of records.now))) }
    ensures comes_back { ComesBack (derivation_of records.now) result }
{
    read(image).is_ok()
}
