//! Maps, scenarios and instances in the MovingAI formats.
#![tactic(auto)]

mod bytes;
mod cell;
mod digits;
mod fault;
mod files;
mod instance;
pub mod laws;
mod lines;
mod map;
mod scenario;
mod words;

pub use bytes::Bytes;
pub use cell::Cell;
pub use digits::decimal_value;
pub use fault::{InstanceFault, MapFault, NoMemory, ScenFault};
pub use files::{FilesFault, instance_of};
pub use instance::{Instance, MOST_AGENTS};
pub use map::{MOST_SIDE, Map};
pub use scenario::{Row, Scenario};
