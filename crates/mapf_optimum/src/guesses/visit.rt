//! Steps of agents, and which of them collide.

use mapf_grid::Cell;
use mapf_plan::{Conflict, Path, Rule};

/// A step: from where, where to, and at which time step one is there.
#[derive(Drop)]
pub(super) struct Step {
    pub(super) from: Cell,
    pub(super) to: Cell,
    pub(super) time: u32,
}

impl Step {
    /// The step of a path at a time step; at time 0 it stays.
    pub(super) fn of(path: &Path, time: u32) -> Step {
        Step {
            from: path.at(time.saturating_sub(1)),
            to: path.at(time),
            time,
        }
    }
}

/// An agent on a cell at a time step.
#[derive(Clone, Copy)]
pub(super) struct Visit {
    pub(super) agent: usize,
    pub(super) time: u32,
    cell: Cell,
    /// Where it was one time step before.
    before: Cell,
    /// Where it is one time step later.
    after: Cell,
    /// Whether it stays from then on.
    rests: bool,
}

impl Visit {
    /// The agent on this path at a time step up to its cost.
    pub(super) fn of(agent: usize, path: &Path, time: u32) -> Visit {
        Visit {
            agent,
            time,
            cell: path.at(time),
            before: path.at(time.saturating_sub(1)),
            after: path.at(time.saturating_add(1)),
            rests: time == path.cost(),
        }
    }

    /// Whether the agent is there at this time step.
    fn is_there(&self, time: u32) -> bool {
        self.time == time || self.rests && self.time < time
    }

    /// Whether the agent comes from another cell at this time step.
    pub(super) fn enters(&self, time: u32) -> bool {
        self.time == time && self.before != self.cell
    }

    /// Whether the agent, which visits the cell to which a step goes, collides with one that makes it.
    pub(super) fn meets(&self, rule: Rule, step: &Step) -> bool {
        if self.is_there(step.time) {
            return true;
        }
        rule == Rule::NoFollowing
            && step.from != step.to
            && self.time.saturating_add(1) == step.time
            && self.after != step.to
    }

    /// The conflict then.
    pub(super) fn meeting(&self, agent: usize, step: &Step) -> Conflict {
        let time = step.time;
        if self.is_there(time) {
            return Conflict::Vertex {
                time,
                first: agent.min(self.agent),
                second: agent.max(self.agent),
                cell: step.to,
            };
        }
        Conflict::Following {
            time,
            follower: agent,
            leader: self.agent,
            cell: step.to,
        }
    }

    /// Whether the agent, which visits the cell from which a step goes, collides with one that makes it.
    pub(super) fn passes(&self, rule: Rule, step: &Step) -> bool {
        if step.from == step.to || self.time != step.time {
            return false;
        }
        match rule {
            Rule::Classical => self.before == step.to,
            Rule::NoFollowing => self.before != step.from,
        }
    }

    /// The conflict then.
    pub(super) fn passing(&self, rule: Rule, agent: usize, step: &Step) -> Conflict {
        match rule {
            Rule::Classical => swapping(agent, self.agent, step),
            Rule::NoFollowing => Conflict::Following {
                time: step.time,
                follower: self.agent,
                leader: agent,
                cell: step.from,
            },
        }
    }
}

/// The conflict of an agent that makes a step with one that makes the reverse.
fn swapping(agent: usize, other: usize, step: &Step) -> Conflict {
    let Step { from, to, time } = *step;
    if agent < other {
        Conflict::Swapping {
            time,
            first: agent,
            second: other,
            from,
            to,
        }
    } else {
        Conflict::Swapping {
            time,
            first: other,
            second: agent,
            from: to,
            to: from,
        }
    }
}
