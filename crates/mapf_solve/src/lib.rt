//! The solver: from the bytes of two files to the bytes of the answer, with any number of workers.
#![tactic(auto)]

mod answers;
mod ask;
mod asked;
pub mod laws;
mod means;
mod pace;
mod refusal;
mod rounds;
mod run_fault;
mod runs;
mod sessions;
mod sessions_alone;
mod solving;
mod wanted;

pub use answers::{
    answer, answer_alone, answer_any, answer_any_alone, answer_any_watched, answer_watched,
};
pub use ask::Ask;
pub use mapf_bounds::solve_by_bounds;
pub use mapf_tree::{NoWatch, Watch};
pub use means::Means;
pub use pace::{MOST_SESSION_NODES, MOST_WORKER_TURNS, Pace};
pub use refusal::Refusal;
pub use run_fault::RunFault;
pub use runs::{run, run_any, run_any_watched, run_watched};
pub use solving::{solve, solve_paced, solve_watched, solve_with};
