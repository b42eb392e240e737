//! The constraint tree of conflict-based search, and the search in it.
#![tactic(auto)]

mod alone;
pub mod laws;
mod node;
mod open_list;
mod own_paths;
mod search;
mod tree;
mod watch;

pub use alone::solve_alone;
pub use node::Node;
pub use node::current_paths::CurrentPaths;
pub use open_list::{First, OpenList};
pub use own_paths::{Obeyed, OwnPaths};
pub use search::{Children, Progress, Search, least_stated};
pub use tree::{
    Key, Name, Problem, Side, SideQuery, agent_of, breaks, child, child_with, constraint_of,
    left_of_bound, own_path, root, root_path, root_paths, root_with,
};
pub use watch::{NoWatch, Watch};
