//! Paths by number, and when agents on two of them have their first conflict.

mod first_times;
mod known_paths;
mod known_plan;

pub use known_paths::KnownPaths;
pub use known_plan::KnownPlan;
