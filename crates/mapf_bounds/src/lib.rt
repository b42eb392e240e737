//! The first solution of the constraint tree, by lower bounds on what lies below its nodes.
#![tactic(auto)]

mod collisions;
pub mod laws;
mod lower_bound;
mod node_bounds;
mod node_groups;
mod node_tests;
mod solving;
mod turn;
mod waiting;

pub use lower_bound::LowerBound;
pub use solving::{finish_by_bounds, solve_by_bounds};
