//! Distances, constraints, and one agent's cheapest path under constraints.
#![tactic(auto)]

mod backwards;
mod by_layers;
mod cell_set;
mod constraint;
mod constraints;
mod distances;
mod forwards;
pub mod laws;
mod lookup;
mod query;
mod reconstruction;

pub use backwards::{Backwards, cheapest_backwards};
pub use constraint::Constraint;
pub use constraints::Constraints;
pub use distances::Distances;
pub use forwards::cheapest;
pub use lookup::Lookup;
