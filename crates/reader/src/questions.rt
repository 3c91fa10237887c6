// The questions, each answered with yes or no.
ghost use Rattle.std.specs.Prelude.{◌≡◌, ◌≤◌};
ghost use Rattle.rows.specs.Image.{numbers_in, is_input};
ghost use Rattle.rows.specs.Questions.{asked};
ghost use Rattle.rows.specs.Rows.{is_row};
ghost use Rattle.reader.specs.Reading.{is_length, seal_right, frame_right, header_right, kind_right, parents_right};

use crate::bytes::{part, zeros_in};
use crate::fields::{
    Block, RecordBytes, edition_in, first_in, kind_in, records_in, row_in, second_in, u_in,
    unknowns_in, v_in,
};
use crate::refusal::Refusal;
use rows::{Kind, ROW_LIMIT, Row, layout, seal};

// A no refuses the image. Once for all questions: `yes.then_some(()).ok_or(refusal)` at each is no plainer.
pub(crate) fn ask(yes: bool, refusal: Refusal) -> Result<(), Refusal>
    ensures { result ≡ asked yes refusal }
{
    if yes { Ok(()) } else { Err(refusal) }
}

pub(crate) fn is_length(size: usize) -> bool
    ensures { result ≡ is_length size }
{
    size >= layout::SMALLEST_IMAGE && size <= layout::LARGEST_IMAGE && size % layout::BLOCK == 0
}

pub(crate) fn seal_right(block: &Block) -> bool
    ensures { result ≡ seal_right block.now }
{
    u32::from_le_bytes(*part(block, layout::SEAL_AT)) == seal(block)
}

pub(crate) fn frame_right(block: &Block, number: usize, count: usize, end: usize) -> bool
    requires { end ≤ 508 }
    ensures { result ≡ frame_right block.now number count end }
{
    // std has no From<u32> for usize.
    let its_number = u32::from_le_bytes(*part(block, layout::NUMBER_AT)) as usize;
    let its_count = usize::from(u16::from_le_bytes(*part(block, layout::COUNT_AT)));
    its_number == number
        && its_count == count
        && zeros_in(block, layout::COUNT_END, layout::HELD_AT)
        && zeros_in(block, end, layout::SEAL_AT)
}

pub(crate) fn header_right(block: &Block, size: usize) -> bool
    ensures { result ≡ header_right block.now size }
{
    let n = unknowns_in(block);
    let t = usize::from(records_in(block));
    edition_in(block) == layout::EDITION
        && (1..=layout::MOST_UNKNOWNS).contains(&n)
        && (1..=layout::MOST_RECORDS).contains(&t)
        && size == layout::BLOCK * (1 + layout::blocks_for(t))
}

pub(crate) fn is_input(rec: &RecordBytes) -> bool
    ensures { result ≡ is_input rec.now }
{
    kind_in(rec) == Ok(Kind::Input)
}

pub(crate) fn kind_right(rec: &RecordBytes) -> bool
    ensures { result ≡ kind_right rec.now }
{
    let known = match kind_in(rec) {
        Ok(Kind::Input) => zeros_in(rec, layout::SECOND_AT, layout::COEFFICIENTS_AT),
        Ok(Kind::Step) => true,
        Err(_) => false,
    };
    known
        && zeros_in(rec, layout::KIND_END, layout::FIRST_AT)
        && zeros_in(rec, layout::ROW_END, layout::RECORD)
}

// The row is in its limits, zero past an and in lowest form.
#[tactic(auto, unfolding(rows::specs::Rows::as_row), using(crate::proofs::Numbers::length_numbers))]
pub(crate) fn row_right(rec: &RecordBytes, n: usize) -> bool
    ensures { result ≡ is_row n (numbers_in rec.now) }
{
    Row::try_from(row_in(rec)).is_ok_and(|row| row.level() <= n)
}

// The parents of a step are earlier records, and its multipliers are within the limit and not both 0.
pub(crate) fn parents_right(rec: &RecordBytes, r: usize) -> bool
    ensures { result ≡ parents_right r rec.now }
{
    if is_input(rec) {
        return true;
    }
    let u = u_in(rec);
    let v = v_in(rec);
    usize::from(first_in(rec)) < r
        && usize::from(second_in(rec)) < r
        && u <= ROW_LIMIT
        && v <= ROW_LIMIT
        && u + v > 0
}
