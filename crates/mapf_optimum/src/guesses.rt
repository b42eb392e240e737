//! What a search goes by and nothing rests on: which of several least paths to take, and which conflict to branch on. What is
//! proposed here is looked at again by what is proved (`allowed`).

mod branching;
mod conflicts;
mod few_conflicts;
mod grouping;
mod guide;
mod known_costs;
mod known_ways;
mod marks;
mod occupancy;
mod visit;
mod ways;

pub(crate) use branching::branching_conflict;
pub(crate) use conflicts::{
    add_conflicts, are_better, colliding_pairs, conflicts_again, conflicts_among,
    conflicts_without, hide, partners, show,
};
pub(crate) use grouping::{hints_in, next_group};
pub use guide::Guide;
pub(crate) use known_costs::KnownCosts;
pub(crate) use occupancy::Occupancy;
