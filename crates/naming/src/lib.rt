// What the choosers that come with the solver name of an interval, and the laws of that.
#![tactic(auto)]

mod between;
mod dyadic;
mod edge;
mod naming;
mod ratio;
mod side;
mod simplest;
mod span;

pub use dyadic::dyadic_in;
pub use edge::edge_of;
pub use simplest::simplest_in;
