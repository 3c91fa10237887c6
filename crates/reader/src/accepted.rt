// An accepted image and its records.
ghost use Rattle.std.specs.Prelude.{◌≡◌, Some};
ghost use Rattle.rows.specs.Image.{numbers_in};
ghost use Rattle.reader.specs.Lines.{accepted_line};
ghost use Rattle.reader.specs.Shown.{reading_in, seen, bytes_in, origin_in, viewed_record, shown_at};

use crate::fields::{block_with, first_in, record_of, row_in, second_in, u_in, v_in};
use crate::questions::is_input;
use crate::refusal::Refusal;
use rows::{Origin, PlainRow, layout};
use std::fmt;

// The bytes of the image, and what was counted in them. These are all, with no invariant, by a rule of the project:
// so it passes through the `Result` of `read` by value.
#[derive(Clone, Copy)]
pub struct Accepted<'a> {
    pub(crate) bytes: &'a [u8],
    pub(crate) records: usize,
    pub(crate) inputs: usize,
}

// A record of an accepted image as its own 60 bytes. Two cases, and no kind beside the bytes: whoever looks at them has to ask which it is.
#[derive(Clone, Copy, PartialEq, Eq, Debug)]
pub enum Record<'a> {
    Input(&'a [u8; layout::RECORD]),
    Step(&'a [u8; layout::RECORD]),
}

impl<'a> Record<'a> {
    pub fn bytes(&self) -> &'a [u8; layout::RECORD]
        ensures { result.now ≡ bytes_in (seen self.now) }
    {
        match self {
            Record::Input(rec) | Record::Step(rec) => rec,
        }
    }

    // The row that it has.
    pub fn row(&self) -> PlainRow
        ensures { result.numbers ≡ numbers_in (bytes_in (seen self.now)) }
    {
        row_in(self.bytes())
    }

    // Where its row comes from: the tag of an input, or the parents and multipliers of a step.
    pub fn origin(&self) -> Origin
        ensures { result ≡ origin_in (seen self.now) }
    {
        match self {
            Record::Input(rec) => Origin::Input { tag: first_in(rec) },
            Record::Step(rec) => Origin::Step {
                first: first_in(rec),
                second: second_in(rec),
                u: u_in(rec),
                v: v_in(rec),
            },
        }
    }
}

impl<'a> Accepted<'a> {
    // How many records there are.
    pub fn records(&self) -> usize
        ensures { result ≡ self.now.records }
    {
        self.records
    }

    // How many of them are inputs.
    pub fn inputs(&self) -> usize
        ensures { result ≡ self.now.inputs }
    {
        self.inputs
    }

    // Record r, or a refusal where there is none.
    pub fn record(&self, r: usize) -> Result<Record<'a>, Refusal>
        ensures { viewed_record result ≡ shown_at (reading_in self.now) r }
    {
        let bytes = self.bytes;
        // An accepted image reaches as far as its count of records says; the type itself does not tell.
        if r >= self.records || block_with(r) >= bytes.len() / layout::BLOCK {
            return Err(Refusal::NoRecord(r));
        }
        let rec = record_of(bytes, r);
        if is_input(rec) {
            Ok(Record::Input(rec))
        } else {
            Ok(Record::Step(rec))
        }
    }
}

impl fmt::Display for Accepted<'_> {
    ghost output = { λ x. Some (accepted_line x.records x.inputs) };

    fn fmt<W: fmt::Write>(&self, f: &mut fmt::Formatter<W>) -> fmt::Result {
        let records = self.records;
        let inputs = self.inputs;
        write!(f, "accepted {records} records, {inputs} inputs")
    }
}
