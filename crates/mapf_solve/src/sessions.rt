//! Sessions: a search takes nodes with a source whose owner works ahead, and workers beside it work out children of nodes that wait.

mod brands;
mod desk;
mod lookahead;
mod session;
mod side_job;
mod source;

pub use brands::OneProblem;
pub(crate) use lookahead::Lookahead;
pub(crate) use session::{SessionSearch, session};
