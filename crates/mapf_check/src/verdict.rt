use mapf_plan::Conflict;

/// What the checker says of an answer.
///
/// Faults are numbered 61 to 67. The checker gives the first one: by number, then by agent, then by time.
/// Agents are numbered from 0.
#[derive(Clone, Copy, Debug, PartialEq, Eq)]
pub enum Verdict {
    /// The plan is valid, and costs what is stated with it.
    Valid { cost: u64 },
    /// The answer has no plan: there is none within the bound, or the search gave up.
    NoPlanGiven,
    /// 61: the plan has so many paths, and the instance another number of agents.
    AgentCount { paths: usize },
    /// 62: the agent's path doesn't begin at its start.
    WrongStart { agent: usize },
    /// 63: the agent arrives at this time on a cell that it can't be on by one step: the two cells aren't
    /// both free and equal or side by side.
    BadStep { agent: usize, time: u32 },
    /// 64: the agent's last cell isn't its goal.
    WrongEnd { agent: usize },
    /// 65: the agent is on its goal one step before its path ends.
    EndsLate { agent: usize },
    /// 66: the first conflict of the plan.
    Conflict(Conflict),
    /// 67: the stated cost isn't the sum of the paths' costs, which was found.
    WrongCost { stated: u64, found: u64 },
}
