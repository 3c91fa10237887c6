// Intervals on the line of one unknown, the fractions that lie in them, and what a chooser of such a fraction has to keep.
#![tactic(auto)]

mod admitting;
mod bound;
mod building;
mod chooser;
mod fraction;
mod interval;
mod layer;
mod products;

pub use bound::Bound;
pub use chooser::Chooser;
pub use fraction::Fraction;
pub use interval::{End, Interval};
pub use layer::named_or_below;
