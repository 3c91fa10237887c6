// Writes the image of a derivation into a buffer that the caller lends. It allocates nothing.
#![tactic(auto)]

mod blocks;
mod fields;
mod image;
mod record;
mod records;
mod refusal;

pub use records::Records;
pub use refusal::Refusal;
