// Rows and values of bounded whole numbers, exact: every sum and product is proved to fit 64 bits.
// specs/ says what a row, a point, a derivation and its image are; reader and writer both cite that.
#![tactic(auto)]

mod combining;
mod kind;
pub mod layout;
mod numbers;
mod origin;
mod plain;
mod row;
mod sealing;
mod values;

pub use combining::combination;
pub use kind::{Kind, UnknownKind};
pub use origin::Origin;
pub use plain::PlainRow;
pub use row::{NotARow, ROW_LIMIT, Row};
pub use sealing::seal;
pub use values::{VALUE_LIMIT, Values};
