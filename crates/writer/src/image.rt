// Images of records.
ghost use Rattle.std.specs.Prelude.{◌≡◌, ◌*◌, ◌<◌, true, is_some, length, IfSome};
ghost use Rattle.rows.specs.Image.{image_size, records_block, image_of};
ghost use Rattle.rows.specs.Origins.{records_with};
ghost use Rattle.writer.specs.Writing.{derivation_of, header_holds};

use crate::blocks::{header, write_records};
use crate::fields::put;
use crate::records::Records;
use rows::layout;

// Records that a header holds: n from 1 to 8, and from 1 to 256 of them.
#[derive(Clone, Copy)]
pub(crate) struct Image<'a> {
    records: Records<'a>,
    ghost held: { header_holds records.unknowns (length (records_with records.origins.now records.rows.now)) ≡ true },
}

impl<'a> Image<'a> {
    // The image, if n is from 1 to 8 and there are from 1 to 256 records.
    pub(crate) fn of(records: &Records<'a>) -> Option<Image<'a>>
        ensures held { is_some result ≡ header_holds records.now.unknowns (length (derivation_of records.now).records) }
        ensures same { IfSome result (λ image. image.records ≡ records.now) }
    {
        let unknowns = 1..=usize::from(layout::MOST_UNKNOWNS);
        let counts = 1..=layout::MOST_RECORDS;
        if unknowns.contains(&records.unknowns) && counts.contains(&records.count()) {
            Some(Image { records: *records })
        } else {
            None
        }
    }

    // How many bytes it has.
    pub(crate) fn size(&self) -> usize
        ensures { result ≡ image_size (length (derivation_of self.now.records).records) }
    {
        layout::BLOCK * (1 + layout::blocks_for(self.records.count()))
    }

    pub(crate) fn write(&self, bytes: &mut [u8])
        requires { length bytes.old ≡ image_size (length (derivation_of self.now.records).records) }
        ensures { bytes.new ≡ image_of (derivation_of self.now.records) }
    {
        let count = self.records.count();
        // The casts are proved to lose nothing, so `try_from` would only test again.
        put(
            bytes,
            0,
            &header(self.records.unknowns as u16, count as u16),
        );
        // By number: tried over mutable chunks, but after the loop the checker knows the length of the bytes, and nothing of what they are.
        for b in 0..layout::blocks_for(count) {
            let at = layout::BLOCK * (b + 1);
            self.write_block(&mut bytes[at..at + layout::BLOCK], b);
        }
    }

    // Block b + 1, with the records that stand there.
    #[tactic(auto, using(crate::proofs::Pairs::pair_laws))]
    fn write_block(&self, block: &mut [u8], b: usize)
        requires size { length block.old ≡ 512 }
        requires some { 8 * b < length (derivation_of self.now.records).records }
        ensures { block.new ≡ records_block (derivation_of self.now.records).records b }
    {
        let first = layout::RECORDS_IN_BLOCK * b;
        let end = self.records.count().min(first + layout::RECORDS_IN_BLOCK);
        // The cast is proved to lose nothing, so `try_from` would only test again.
        write_records(
            block,
            b as u32 + 1,
            &self.records.origins[first..end],
            &self.records.rows[first..end],
        )
    }
}
