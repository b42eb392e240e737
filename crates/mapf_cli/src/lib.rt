//! The program `mapf`: its command line, its lines and its statuses, and the run of the checker.
#![tactic(auto)]

mod call_fault;
mod calls;
mod check_fault;
mod checks;
mod command;
mod first_byte;
mod progress_lines;

pub use calls::{call, no_text, no_words};
pub use check_fault::CheckFault;
pub use checks::check_run;
