// Why an image is refused.
ghost use Rattle.std.specs.Prelude.{◌≡◌, Some};
ghost use Rattle.reader.specs.Lines.{layer_text, place_text, refused_line};
ghost use Rattle.reader.specs.Refusals.{number_of, layer_of, block_in, record_in};

use crate::fields::block_with;
use std::error::Error;
use std::fmt;

// What a refusal concerns.
#[derive(Clone, Copy, PartialEq, Eq, Debug)]
pub enum Layer {
    Image,
    Block,
    Record,
    Step,
}

// The question that was answered with no, and the block or the record where that was. Records count through all blocks.
#[derive(Clone, Copy, PartialEq, Eq, Debug)]
pub enum Refusal {
    // The length is no multiple of 512 from 1,024 to 16,896.
    Length,
    // The seal of a block is wrong.
    Seal(usize),
    // The number, the count or an unassigned byte of a block is wrong.
    Frame(usize),
    // Edition, n or t is wrong, or the length is not the one for t.
    Header,
    // The kind or an unassigned byte of a record is wrong.
    Kind(usize),
    // The row passes a limit, is not zero past an, or is not in lowest form.
    Row(usize),
    // A parent or a multiplier of a step is wrong.
    Parents(usize),
    // The row of a step is not the combination of its parents.
    Combination(usize),
    // The last row is not false.
    NotFalse(usize),
    // There is no such record.
    NoRecord(usize),
}

impl Refusal {
    pub fn number(&self) -> u8
        ensures { result ≡ number_of self.now }
    {
        match self {
            Refusal::Length => 13,
            Refusal::Seal(_) => 14,
            Refusal::Frame(_) => 15,
            Refusal::Header => 16,
            Refusal::Kind(_) => 17,
            Refusal::Row(_) => 18,
            Refusal::Parents(_) => 19,
            Refusal::Combination(_) => 20,
            Refusal::NotFalse(_) => 21,
            Refusal::NoRecord(_) => 22,
        }
    }

    pub fn layer(&self) -> Layer
        ensures { result ≡ layer_of self.now }
    {
        match self {
            Refusal::Length => Layer::Image,
            Refusal::Seal(_) | Refusal::Frame(_) | Refusal::Header => Layer::Block,
            Refusal::Parents(_) | Refusal::Combination(_) => Layer::Step,
            Refusal::Kind(_) | Refusal::Row(_) | Refusal::NotFalse(_) | Refusal::NoRecord(_) =>
                Layer::Record,
        }
    }

    // The block, where one applies.
    pub fn block(&self) -> Option<usize>
        ensures { result ≡ block_in self.now }
    {
        match self {
            Refusal::Length | Refusal::NoRecord(_) => None,
            Refusal::Header => Some(0),
            Refusal::Seal(b) | Refusal::Frame(b) => Some(*b),
            _ => self.record().map(block_with),
        }
    }

    // The record, where one applies.
    pub fn record(&self) -> Option<usize>
        ensures { result ≡ record_in self.now }
    {
        match self {
            Refusal::Length | Refusal::Seal(_) | Refusal::Frame(_) | Refusal::Header => None,
            Refusal::Kind(r)
            | Refusal::Row(r)
            | Refusal::Parents(r)
            | Refusal::Combination(r)
            | Refusal::NotFalse(r)
            | Refusal::NoRecord(r) => Some(*r),
        }
    }
}

impl fmt::Display for Layer {
    ghost output = { λ x. Some (layer_text x) };

    fn fmt<W: fmt::Write>(&self, f: &mut fmt::Formatter<W>) -> fmt::Result {
        match self {
            Layer::Image => write!(f, "image"),
            Layer::Block => write!(f, "block"),
            Layer::Record => write!(f, "record"),
            Layer::Step => write!(f, "step"),
        }
    }
}

// A number, or a dash where none applies: std does not show an Option.
#[derive(Clone, Copy)]
struct Place(Option<usize>);

impl fmt::Display for Place {
    ghost output = { λ x. Some (place_text x.0) };

    fn fmt<W: fmt::Write>(&self, f: &mut fmt::Formatter<W>) -> fmt::Result {
        match self.0 {
            Some(number) => write!(f, "{number}"),
            None => write!(f, "-"),
        }
    }
}

impl fmt::Display for Refusal {
    ghost output = { λ x. Some (refused_line x) };

    fn fmt<W: fmt::Write>(&self, f: &mut fmt::Formatter<W>) -> fmt::Result {
        let number = self.number();
        let layer = self.layer();
        let block = Place(self.block());
        let record = Place(self.record());
        write!(f, "refused {number} {layer} block {block} record {record}")
    }
}

impl Error for Refusal {}
