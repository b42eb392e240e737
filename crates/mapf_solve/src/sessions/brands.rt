//! Which problem a search is of and which board a session has, told by types.

ghost use Rattle.mapf_board.specs.Owners.{BoardId, no_board};
ghost use Rattle.mapf_tree.specs.Problem.{Problem};
ghost use Rattle.mapf_solve.specs.Sessions.{no_problem};

use std::marker::Brand;

/// The problem of one search, which the call that begins the sessions picks.
///
/// What sessions keep has it in its type, so that no clause needs to say that it is of this problem.
pub trait OneProblem {
    ghost problem: { Problem };
}

impl OneProblem for Brand {
    ghost problem = { no_problem };
}

/// The board of one session, which the call that begins the session picks.
///
/// The session's desk has it in its type, so that it is still of this board after a search went on with the session.
pub(crate) trait OneBoard {
    ghost board: { BoardId };
}

impl OneBoard for Brand {
    ghost board = { no_board };
}
