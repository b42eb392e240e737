//! The distances from agents' starts.

ghost use Rattle.std.specs.Prelude.{◌≡◌, ℕ, ◌<◌, length, option_map, IfOk};
ghost use Rattle.mapf_tree.specs.Prelude.{arc_value, Problem, AreFromStart};

use crate::Problem;
use mapf_grid::NoMemory;
use mapf_low::Distances;
use std::alloc::Global;
use std::marker::Model;
use std::sync::Arc;

/// The distances from each agent's start, which are made where they are asked for first.
#[derive(Drop)]
pub(crate) struct StartTables<'p> {
    alloc: Global,
    problem: &'p Problem,
    tables: Vec<Option<Arc<Distances>>>,
}

impl<'p> Model for StartTables<'p> {
    ghost use Rattle.std.specs.Prelude.{map, option_map};
    ghost use Rattle.mapf_tree.specs.Prelude.{arc_value, Problem, AreTables};

    ghost Value = { Problem };

    ghost view = { λ t. t.problem.now };

    ghost invariant = { λ t. AreTables t.problem.now (map (option_map arc_value) t.tables.items) };
}

impl<'p> StartTables<'p> {
    /// None is made yet.
    pub(crate) fn new(alloc: Global, problem: &'p Problem) -> Result<StartTables<'p>, NoMemory>
        ensures { IfOk result (λ t. t ≡ problem.now) }
    {
        let agents = problem.instance().agents();
        let mut tables = Vec::with_capacity(alloc, agents)?;
        for _agent in 0..agents {
            tables.push_reserved(None);
        }
        Ok(StartTables {
            alloc,
            problem,
            tables,
        })
    }

    /// The distances from an agent's start. None where memory runs out.
    pub(crate) fn of(&mut self, agent: usize) -> Option<Arc<Distances>>
        requires { agent < length self.old.inst.starts }
        ensures same { self.new ≡ self.old }
        ensures table { AreFromStart self.old agent (option_map arc_value result) }
    {
        if self.tables.get(agent)?.is_none() {
            self.make_table(agent);
        }
        share(self.tables.get(agent)?)
    }

    /// Makes the distances from an agent's start, unless memory runs out.
    fn make_table(&mut self, agent: usize)
        requires { agent < length self.old.inst.starts }
        ensures { self.new ≡ self.old }
    {
        if agent >= self.tables.len() {
            return;
        }
        self.tables[agent] = table_of(self.alloc, self.problem, agent);
    }
}

/// A table of the distances from the start of an agent of a problem. None where memory runs out.
fn table_of(alloc: Global, problem: &Problem, agent: usize) -> Option<Arc<Distances>>
    requires { agent < length problem.now.inst.starts }
    ensures { AreFromStart problem.now agent (option_map arc_value result) }
{
    let instance = problem.instance();
    let distances = Distances::to(alloc, instance.map(), instance.start(agent)).ok()?;
    Arc::new(alloc, distances).ok()
}

/// The same table, if there is one, shared once more. None where it can't be shared more often.
fn share(table: &Option<Arc<Distances>>) -> Option<Arc<Distances>>
    ensures { (p : Problem) (agent : ℕ) → AreFromStart p agent (option_map arc_value table.now)
        → AreFromStart p agent (option_map arc_value result) }
{
    Arc::try_clone(table.as_ref()?).ok()
}
