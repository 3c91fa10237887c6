// The records of an accepted image, so that they can be written again.
use reader::Accepted;
use rows::{Origin, PlainRow, layout};
use std::alloc::Global;

#[derive(Drop)]
pub(crate) struct Taken {
    pub(crate) unknowns: usize,
    // Two lists, as the writer takes them.
    pub(crate) origins: Vec<Origin>,
    pub(crate) rows: Vec<PlainRow>,
}

// The records that are shown, and the unknowns that the header has.
pub(crate) fn take_apart(heap: Global, image: &[u8], accepted: &Accepted) -> anyhow::Result<Taken> {
    let mut origins = Vec::new(heap);
    let mut rows = Vec::new(heap);
    for record in (0..accepted.records()).filter_map(|r| accepted.record(r).ok()) {
        origins.push(record.origin())?;
        rows.push(record.row())?;
    }
    Ok(Taken {
        unknowns: unknowns_in(image).unwrap_or(0),
        origins,
        rows,
    })
}

fn unknowns_in(image: &[u8]) -> Option<usize> {
    let number = image.get(layout::UNKNOWNS_AT..)?.first_chunk()?;
    Some(usize::from(u16::from_le_bytes(*number)))
}
