ghost use Rattle.std.specs.Prelude.{◌≡◌, ◌↔◌, ◌⊎◌, IsTrue};
ghost use Rattle.mapf_grid.specs.Least.{Precedes};
ghost use Rattle.mapf_plan.specs.declared.conflict.Conflict.{Conflict};
ghost use Rattle.mapf_plan.specs.FirstConflict.{IsEarlier};
ghost use Rattle.mapf_plan.specs.Plan.{conflict_rank, conflict_time};

use mapf_grid::Cell;

/// Two agents that collide, as Stern et al. 2019 name it; `first` is the agent with the smaller number.
/// Vertex and swapping conflicts are collisions by both rules, following conflicts by `Rule::NoFollowing` alone. The time stands
/// first, since fields lie in their order: so a conflict is small, and each node that waits keeps one.
#[derive(Clone, Copy, Debug, PartialEq, Eq)]
pub enum Conflict {
    /// Both agents are on this cell at this time step.
    Vertex {
        time: u32,
        first: usize,
        second: usize,
        cell: Cell,
    },
    /// Between `time - 1` and `time` the agents change places: `first` goes from `from` to `to`, and `second` back.
    Swapping {
        time: u32,
        first: usize,
        second: usize,
        from: Cell,
        to: Cell,
    },
    /// At this time step `follower` is on the cell on which `leader` was at `time - 1`.
    Following {
        time: u32,
        follower: usize,
        leader: usize,
        cell: Cell,
    },
}

impl Conflict {
    /// The time step of the conflict; of a swapping or a following conflict the one at which the agents have moved.
    pub fn time(&self) -> u32
        ensures { result ≡ conflict_time self.now }
    {
        match *self {
            Conflict::Vertex { time, .. }
            | Conflict::Swapping { time, .. }
            | Conflict::Following { time, .. } => time,
        }
    }

    /// Whether this conflict comes before the other: by time, a vertex conflict before a swapping one and that before
    /// a following one, then by the smaller agent, by the larger, and the smaller agent as the follower first.
    pub fn is_before(&self, other: &Conflict) -> bool
        ensures { IsTrue result ↔ Precedes (conflict_rank self.now) (conflict_rank other.now) }
    {
        self.rank() < other.rank()
    }

    /// What conflicts are ordered by.
    fn rank(&self) -> [u64; 5]
        ensures { result ≡ conflict_rank self.now }
    {
        let (kind, one, other, follower) = match *self {
            Conflict::Vertex { first, second, .. } => (0, first, second, 0),
            Conflict::Swapping { first, second, .. } => (1, first, second, 0),
            Conflict::Following {
                follower,
                leader,
                ..
            } => (2, follower.min(leader), follower.max(leader), follower),
        };
        let time = u64::from(self.time());
        [time, kind, one as u64, other as u64, follower as u64]
    }
}

/// The one that comes before the other, where both are there.
pub(crate) fn earlier(known: Option<Conflict>, found: Option<Conflict>) -> Option<Conflict>
    ensures either { (result ≡ known) ⊎ (result ≡ found) }
    ensures known { (c : Conflict) → IsEarlier c result → IsEarlier c known }
    ensures found { (c : Conflict) → IsEarlier c result → IsEarlier c found }
{
    match (known, found) {
        (Some(one), Some(other)) => Some(if other.is_before(&one) { other } else { one }),
        (Some(one), None) => Some(one),
        (None, other) => other,
    }
}
