// Where things stand in an image, for its reader and its writer. Sizes and places are in bytes.
ghost use Rattle.std.specs.Prelude.{◌≡◌, ◌≤◌};
ghost use Rattle.rows.specs.Image.{count_in, blocks_for};

use std::cmp::Ordering;

// A block: its number, its count of records, what it holds, its seal.
pub const BLOCK: usize = 512;

pub const NUMBER_AT: usize = 0;

pub const COUNT_AT: usize = 4;

pub const COUNT_END: usize = 6;

pub const HELD_AT: usize = 8;

pub const SEAL_AT: usize = 508;

// The header, block 0.
pub const EDITION: u16 = 1;

pub const EDITION_AT: usize = 8;

pub const UNKNOWNS_AT: usize = 10;

pub const RECORDS_AT: usize = 12;

pub const HEADER_END: usize = 14;

// What an image may have.
pub const MOST_UNKNOWNS: u16 = 8;

pub const MOST_RECORDS: usize = 256;

pub const SMALLEST_IMAGE: usize = 1024;

pub const LARGEST_IMAGE: usize = 16896;

// A record, at places that count from its own first byte; the tag of an input stands in the place of the first parent.
pub const RECORD: usize = 60;

pub const RECORDS_IN_BLOCK: usize = 8;

pub const KIND_AT: usize = 0;

pub const KIND_END: usize = 1;

pub const FIRST_AT: usize = 4;

pub const SECOND_AT: usize = 6;

pub const U_AT: usize = 8;

pub const V_AT: usize = 12;

pub const COEFFICIENTS_AT: usize = 16;

pub const CONSTANT_AT: usize = 48;

pub const ROW_END: usize = 52;

// How many blocks t records take.
pub fn blocks_for(t: usize) -> usize
    ensures { result ≡ blocks_for t }
{
    t.div_ceil(RECORDS_IN_BLOCK)
}

// How many records block b + 1 has, of t in all: eight in each but the last.
pub fn count_in(t: usize, b: usize) -> usize
    ensures is { result ≡ count_in t b }
    ensures few { result ≤ 8 }
{
    match b.cmp(&(t / RECORDS_IN_BLOCK)) {
        Ordering::Less => RECORDS_IN_BLOCK,
        Ordering::Equal => t % RECORDS_IN_BLOCK,
        Ordering::Greater => 0,
    }
}
