//! How the first conflict of a plan is found.

mod first_collision;
mod first_conflict;
mod first_of_pair;
mod marks;

pub use first_collision::do_steps_collide;
pub(crate) use first_collision::first_time_of_two;
pub(crate) use first_conflict::first_conflict_from;
pub use first_conflict::first_conflict_of_changed;
pub(crate) use first_of_pair::pair_at;
