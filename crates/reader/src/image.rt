// An image whose length and header are right: its blocks, its records, and the questions about them.
ghost use Rattle.std.specs.Prelude.{◌≡◌, ◌-◌, ◌<◌, ◌≤◌, true};
ghost use Rattle.rows.specs.Image.{block_of, record_of, numbers_in, unknowns_in, records_in, blocks_for};
ghost use Rattle.rows.specs.Questions.{asked, for_each};
ghost use Rattle.rows.specs.Rows.{is_false};
ghost use Rattle.reader.specs.declared.refusal.Refusal.{Refusal};
ghost use Rattle.reader.specs.Shown.{reading_in};
ghost use Rattle.reader.specs.Reading.{Sized, parents_right, combination_right, record_asked, frame_asked, block_asked, inputs_below, reading_of};

use crate::accepted::Accepted;
use crate::fields::{
    Block, RecordBytes, block_of, first_in, record_of, records_in, row_in, second_in, u_in,
    unknowns_in, v_in,
};
use crate::questions::{
    ask, frame_right, is_input, kind_right, parents_right, row_right, seal_right,
};
use crate::refusal::Refusal;
use rows::{PlainRow, combination, layout};

// Its bytes, the unknowns and the records that its header has; the bytes reach as far as so many records.
#[derive(Clone, Copy)]
pub(crate) struct Image<'a> {
    bytes: &'a [u8],
    unknowns: usize,
    records: usize,
    ghost its_unknowns: { unknowns ≡ unknowns_in bytes.now },
    ghost its_records: { records ≡ records_in bytes.now },
    ghost sized: { Sized bytes.now },
}

impl<'a> Image<'a> {
    // The image, for a header that was found right.
    pub(crate) fn new(bytes: &'a [u8]) -> Self
        requires { Sized bytes.now }
        ensures { result.bytes.now ≡ bytes.now }
    {
        let header = block_of(bytes, 0);
        Image {
            bytes,
            unknowns: usize::from(unknowns_in(header)),
            records: usize::from(records_in(header)),
        }
    }

    // Block b, the header among them.
    fn block(&self, b: usize) -> &'a Block
        requires { b ≤ blocks_for self.now.records }
        ensures { result.now ≡ block_of self.now.bytes.now b }
    {
        block_of(self.bytes, b)
    }

    // That r is one of the records is asked here and below as of an index: a type for such numbers would have to hold the image too.
    fn record(&self, r: usize) -> &'a RecordBytes
        requires { r < self.now.records }
        ensures { result.now ≡ record_of self.now.bytes.now r }
    {
        record_of(self.bytes, r)
    }

    fn row(&self, r: usize) -> PlainRow
        requires { r < self.now.records }
        ensures { result.numbers ≡ numbers_in (record_of self.now.bytes.now r) }
    {
        row_in(self.record(r))
    }

    // How many of its records are inputs.
    fn inputs(&self) -> usize
        ensures { result ≡ inputs_below self.now.bytes.now self.now.records }
    {
        (0..self.records)
            .filter(|r| is_input(self.record(*r)))
            .count()
    }

    // The row of a step is the combination of its parents' rows. Its parents are known to stand before it.
    fn combination_right(&self, rec: &RecordBytes, r: usize) -> bool
        requires before { r < self.now.records }
        requires parents { parents_right r rec.now ≡ true }
        ensures { result ≡ combination_right self.now.bytes.now rec.now }
    {
        if is_input(rec) {
            return true;
        }
        let first = self.row(usize::from(first_in(rec)));
        let second = self.row(usize::from(second_in(rec)));
        combination(u_in(rec), &first, v_in(rec), &second).map(PlainRow::from) == Some(row_in(rec))
    }

    fn ask_record(&self, r: usize) -> Result<(), Refusal>
        requires { r < self.now.records }
        ensures { result ≡ record_asked self.now.bytes.now self.now.unknowns r }
    {
        let rec = self.record(r);
        ask(kind_right(rec), Refusal::Kind(r))?;
        ask(row_right(rec, self.unknowns), Refusal::Row(r))?;
        ask(parents_right(rec, r), Refusal::Parents(r))?;
        ask(self.combination_right(rec, r), Refusal::Combination(r))
    }

    // Block b + 1 apart from its records.
    fn ask_frame(&self, b: usize) -> Result<(), Refusal>
        requires { b < blocks_for self.now.records }
        ensures { result ≡ frame_asked self.now.bytes.now self.now.records b }
    {
        let block = self.block(b + 1);
        let count = layout::count_in(self.records, b);
        let end = layout::HELD_AT + layout::RECORD * count;
        ask(seal_right(block), Refusal::Seal(b + 1))?;
        ask(frame_right(block, b + 1, count, end), Refusal::Frame(b + 1))
    }

    // Block b + 1 and the records in it.
    #[tactic(auto, unfolding(crate::specs::Reading::block_asked))]
    fn ask_block(&self, b: usize) -> Result<(), Refusal>
        requires { b < blocks_for self.now.records }
        ensures { result ≡ block_asked self.now.bytes.now self.now.unknowns self.now.records b }
    {
        self.ask_frame(b)?;
        let first = layout::RECORDS_IN_BLOCK * b;
        (0..layout::count_in(self.records, b)).try_for_each(|c| self.ask_record(first + c))
    }

    // The blocks after the header.
    pub(crate) fn ask_blocks(&self) -> Result<(), Refusal>
        ensures { result ≡ for_each (block_asked self.now.bytes.now self.now.unknowns self.now.records) (blocks_for self.now.records) }
    {
        (0..layout::blocks_for(self.records)).try_for_each(|b| self.ask_block(b))
    }

    // The last row, which has to be false.
    pub(crate) fn ask_last(&self) -> Result<(), Refusal>
        ensures { let r = self.now.records - 1 in result ≡ asked (is_false (numbers_in (record_of self.now.bytes.now r))) (Refusal.NotFalse r) }
    {
        let r = self.records - 1;
        ask(self.row(r).is_false(), Refusal::NotFalse(r))
    }

    // The image as it is handed over, once every question is answered with yes.
    pub(crate) fn accepted(&self) -> Accepted<'a>
        ensures { reading_in result ≡ reading_of self.now.bytes.now }
    {
        Accepted {
            bytes: self.bytes,
            records: self.records,
            inputs: self.inputs(),
        }
    }
}
