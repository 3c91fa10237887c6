// The choosers that come with the solver. Any pile of layers over a chooser is a chooser.
#![tactic(auto)]

mod dyadic;
mod edge;
mod simplest;
mod worked;

pub use dyadic::Dyadic;
pub use edge::Edge;
pub use simplest::Simplest;
pub use worked::worked_choices;
