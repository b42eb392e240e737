//! What groups of a problem's agents cost together is asked here.

ghost use Rattle.std.specs.Prelude.{◌≡◌, IfOk};

use crate::group_costs::GroupCosts;
use crate::guesses::Guide;
use crate::low_level::LowLevel;
use mapf_grid::NoMemory;
use mapf_tree::Problem;
use std::alloc::Global;
use std::marker::Model;

/// What is known of groups of a problem's agents, and by what more is searched.
#[derive(Drop)]
pub struct GroupSearch<'p> {
    pub(crate) low: LowLevel<'p>,
    pub(crate) known: GroupCosts,
    pub(crate) guide: Guide,
}

impl<'p> Model for GroupSearch<'p> {
    ghost use Rattle.mapf_tree.specs.Problem.{Problem};
    ghost use Rattle.mapf_optimum.specs.Groups.{AreKnown};

    ghost Value = { Problem };

    ghost view = { λ s. s.low };

    ghost invariant = { λ s. AreKnown s.low s.known };
}

impl<'p> GroupSearch<'p> {
    /// Nothing is known yet.
    pub fn new(alloc: Global, problem: &'p Problem) -> Result<GroupSearch<'p>, NoMemory>
        ensures { IfOk result (λ groups. groups ≡ problem.now) }
    {
        Ok(GroupSearch {
            low: LowLevel::new(alloc, problem)?,
            known: GroupCosts::new(alloc),
            guide: Guide::new(alloc, problem)?,
        })
    }

    /// The problem.
    pub fn problem(&self) -> &'p Problem
        ensures { result.now ≡ self.now }
    {
        self.low.problem()
    }
}
