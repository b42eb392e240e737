//! Rounds: workers do the jobs of a list, and are joined.

mod goals;
mod root;

pub(crate) use goals::tables;
pub(crate) use root::{root, root_paths};
