//! The solver and the checker, for programs in C: `bindings/c/mapf.h` at the root declares these functions.
#![tactic(auto)]

mod checker;
mod fault;
mod files;
mod reply;
mod rule;
mod solver;
mod version;
