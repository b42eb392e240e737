//! The constraint tree: a problem, names and keys of its nodes, the sides of a conflict, the root and the children of a node.

mod family;
mod key;
mod name;
mod problem;
mod side;
pub(crate) mod side_query;
pub(crate) mod sides;

pub use family::{child, child_with, own_path, root, root_path, root_paths, root_with};
pub use key::Key;
pub use name::Name;
pub use problem::Problem;
pub use side::Side;
pub use side_query::{SideQuery, left_of_bound};
pub use sides::{agent_of, breaks, constraint_of};
