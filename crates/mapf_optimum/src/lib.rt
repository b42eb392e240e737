//! Any optimum, by a search that may branch on any conflict.
#![tactic(auto)]

mod agents;
mod allowed;
mod expansion;
mod group_bound;
mod group_costs;
mod group_search;
mod groups;
mod guesses;
pub mod laws;
mod low_level;
mod node;
mod other_paths;
mod part;
mod settling;
mod small_group;
mod solving;
mod together;
mod waiting;

pub use group_bound::{GroupBound, least_of_groups};
pub use group_costs::KnownGroup;
pub use group_search::GroupSearch;
pub use node::FreeNode;
pub use part::Part;
pub use solving::{solve_any, solve_any_from};
