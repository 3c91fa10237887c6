// Reads the image of a derivation, whatever the bytes are, and accepts it if every question is answered with yes.
#![tactic(auto)]

mod accepted;
mod bytes;
mod fields;
mod image;
mod questions;
mod reading;
mod refusal;

pub use accepted::{Accepted, Record};
pub use reading::read;
pub use refusal::{Layer, Refusal};
