//! A checker of plans, which judges any planner's answer to an instance.
#![tactic(auto)]

mod checker;
mod judging;
pub mod laws;
mod paths;
mod verdict;
mod wording;

pub use checker::{check, check_by};
pub use judging::judge;
pub use verdict::Verdict;
pub use wording::line;
