// Where things stand in an image: its blocks, its records, and what a record has.
ghost use Rattle.std.specs.Prelude.{◌≡◌, ◌+◌, ◌*◌, ◌/◌, ◌≤◌, length};
ghost use Rattle.rows.specs.Bytes.{le16, le_i32};
ghost use Rattle.rows.specs.Kinds.{kind_with};
ghost use Rattle.rows.specs.Image.{block_of, block_with, record_of, kind_in, first_in, second_in, u_in, v_in, place_of, numbers_in};

use crate::bytes::part;
use rows::{Kind, PlainRow, UnknownKind, layout};
use std::array;

pub(crate) type Block = [u8; layout::BLOCK];

pub(crate) type RecordBytes = [u8; layout::RECORD];

pub(crate) fn block_of(bytes: &[u8], b: usize) -> &Block
    requires { 512 * b + 512 ≤ length bytes.now }
    ensures { result.now ≡ block_of bytes.now b }
{
    part(bytes, layout::BLOCK * b)
}

// The fields have functions by name, over the one generic `part`: a place alone would not say at its use what stands there.
pub(crate) fn edition_in(header: &Block) -> u16
    ensures { result ≡ le16 header.now 8 }
{
    u16::from_le_bytes(*part(header, layout::EDITION_AT))
}

// n and t, as the header has them.
pub(crate) fn unknowns_in(header: &Block) -> u16
    ensures { result ≡ le16 header.now 10 }
{
    u16::from_le_bytes(*part(header, layout::UNKNOWNS_AT))
}

pub(crate) fn records_in(header: &Block) -> u16
    ensures { result ≡ le16 header.now 12 }
{
    u16::from_le_bytes(*part(header, layout::RECORDS_AT))
}

// The block in which record r stands.
pub(crate) fn block_with(r: usize) -> usize
    ensures { result ≡ block_with r }
{
    r / layout::RECORDS_IN_BLOCK + 1
}

pub(crate) fn record_of(bytes: &[u8], r: usize) -> &RecordBytes
    requires { (r / 8 + 2) * 512 ≤ length bytes.now }
    ensures { result.now ≡ record_of bytes.now r }
{
    let place = layout::HELD_AT + layout::RECORD * (r % layout::RECORDS_IN_BLOCK);
    part(bytes, block_with(r) * layout::BLOCK + place)
}

// Its kind, if its first byte stands for one.
pub(crate) fn kind_in(rec: &RecordBytes) -> Result<Kind, UnknownKind>
    ensures { result ≡ kind_with (kind_in rec.now) }
{
    Kind::try_from(rec[layout::KIND_AT])
}

// Its first parent, or the tag of an input.
pub(crate) fn first_in(rec: &RecordBytes) -> u16
    ensures { result ≡ first_in rec.now }
{
    u16::from_le_bytes(*part(rec, layout::FIRST_AT))
}

pub(crate) fn second_in(rec: &RecordBytes) -> u16
    ensures { result ≡ second_in rec.now }
{
    u16::from_le_bytes(*part(rec, layout::SECOND_AT))
}

pub(crate) fn u_in(rec: &RecordBytes) -> u32
    ensures { result ≡ u_in rec.now }
{
    u32::from_le_bytes(*part(rec, layout::U_AT))
}

pub(crate) fn v_in(rec: &RecordBytes) -> u32
    ensures { result ≡ v_in rec.now }
{
    u32::from_le_bytes(*part(rec, layout::V_AT))
}

// Where number k of the row stands: the constant is last in a record, and first in a row.
fn place_of(k: usize) -> usize
    requires { k ≤ 8 }
    ensures { result ≡ place_of k }
{
    if k == 0 {
        layout::CONSTANT_AT
    } else {
        layout::COEFFICIENTS_AT + 4 * (k - 1)
    }
}

fn number_at(rec: &RecordBytes, at: usize) -> i32
    requires { at ≤ 56 }
    ensures { result ≡ le_i32 rec.now at }
{
    i32::from_le_bytes(*part(rec, at))
}

pub(crate) fn row_in(rec: &RecordBytes) -> PlainRow
    ensures { result.numbers ≡ numbers_in rec.now }
{
    PlainRow {
        numbers: array::from_fn(|k| number_at(rec, place_of(k))),
    }
}
