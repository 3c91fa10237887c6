// The records of a derivation, and writing them.
ghost use Rattle.std.specs.Prelude.{◌≡◌, length, take, IfOk};
ghost use Rattle.rows.specs.Image.{image_of};
ghost use Rattle.rows.specs.Origins.{records_with};
ghost use Rattle.writer.specs.Writing.{derivation_of, write_of, held_after};

use crate::image::Image;
use crate::refusal::Refusal;
use rows::{Origin, PlainRow};

// Rows with their origins, of so many unknowns. There are as many records as both lists have.
// Two lists, and not one of pairs: a table keeps its rows in an array of plain rows with the origins beside it,
// and a report of it copies nothing, since there is no heap.
#[derive(Clone, Copy)]
pub struct Records<'a> {
    pub unknowns: usize,
    pub origins: &'a [Origin],
    pub rows: &'a [PlainRow],
}

impl<'a> Records<'a> {
    // How many records there are.
    pub fn count(&self) -> usize
        ensures { result ≡ length (derivation_of self.now).records }
    {
        pairs(self.origins, self.rows)
    }

    // Writes the image into the front of the buffer and answers its length; later bytes stay as they are.
    pub fn write(&self, buffer: &mut [u8]) -> Result<usize, Refusal>
        ensures is { result ≡ write_of (derivation_of self.now) buffer.old }
        ensures holds { buffer.new ≡ held_after result (derivation_of self.now) buffer.old }
        ensures front { IfOk result (λ size. take size buffer.new ≡ image_of (derivation_of self.now)) }
    {
        let image = Image::of(self).ok_or(Refusal::Header)?;
        let size = image.size();
        if buffer.len() < size {
            return Err(Refusal::TooShort);
        }
        image.write(&mut buffer[..size]);
        Ok(size)
    }
}

// How many rows have an origin.
#[tactic(auto, using(crate::proofs::Pairs::pair_laws))]
pub(crate) fn pairs(origins: &[Origin], rows: &[PlainRow]) -> usize
    ensures { result ≡ length (records_with origins.now rows.now) }
{
    origins.len().min(rows.len())
}
