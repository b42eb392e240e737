//! Places of agents.

ghost use Rattle.std.specs.Prelude.{◌≡◌, IsTrue};

use mapf_grid::Cell;

/// A cell on which an agent may be at a time step.
#[derive(Clone, Copy, Default)]
pub struct Place {
    /// The cell.
    pub(crate) cell: Cell,
    /// What a path of the agent costs at least that is there then.
    pub(crate) cost: u32,
    /// Whether it has arrived, and stays from then on.
    pub(crate) is_home: bool,
}

impl Place {
    /// Whether it is that place.
    pub(crate) fn is(&self, other: &Place) -> bool
        ensures { IsTrue result → self.now ≡ other.now }
    {
        self.cell == other.cell && self.cost == other.cost && self.is_home == other.is_home
    }
}

/// A place at a time step.
#[derive(Clone, Copy)]
pub struct PlaceAt {
    pub(crate) place: Place,
    pub(crate) time: u32,
}

/// Where the moves stand that an agent may make from a place by paths that cost less than so much.
#[derive(Clone, Copy)]
pub struct Look {
    /// Paths of which cost were looked for; none, where it is 0.
    pub(crate) below: u64,
    /// Where the first stands.
    pub(crate) first: usize,
    /// Behind the last.
    pub(crate) end: usize,
}

/// A place to which an agent may go on, and its number.
#[derive(Clone, Copy)]
pub struct Move {
    pub(crate) number: usize,
    pub(crate) place: Place,
}

/// How many agents are looked at together, at most.
pub(crate) const MOST_TOGETHER: usize = 5;

/// For each of some agents a place, the first agent's first.
pub(crate) type Joint = [Place; MOST_TOGETHER];

/// For each of some agents the number of its place, the first agent's first.
pub(crate) type Numbers = [usize; MOST_TOGETHER];
