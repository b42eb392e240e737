//! Paths, plans and conflicts, the text of an answer, and devices that count their failures.
#![tactic(auto)]

mod answer;
mod cache;
mod collisions;
mod conflict;
mod device;
pub mod laws;
mod pair_conflicts;
mod plan;
mod rule;
mod text;

pub use answer::{Answer, MOST_BOUND, MOST_NODES, MOST_STATED};
pub use cache::{KnownPaths, KnownPlan};
pub use collisions::{do_steps_collide, first_conflict_of_changed};
pub use conflict::Conflict;
pub use device::{
    Counted, DeviceFault, FileName, MOST_BYTES, ReadFault, Sink, Source, WriteFailed, read_file,
    read_whole, write_text, write_whole,
};
pub use pair_conflicts::PairConflict;
pub use plan::{AgentPaths, MOST_CELLS, Path, Plan};
pub use rule::Rule;
pub use text::{MOST_COORDINATE, TextFault, push_number, push_position, read_answer, write};
