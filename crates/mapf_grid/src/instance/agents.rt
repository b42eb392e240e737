//! The rows of a scenario as agents on a map.

ghost use Rattle.std.specs.Prelude.{◌≡◌, ◌≢◌, ◌<◌, ◌≤◌, ◌↔◌, SomeIff, ℕ, length, slice_index, IfOk, IfErr, OnOk, MatchOption};
ghost use Rattle.mapf_grid.specs.Grid.{HasSizes};
ghost use Rattle.mapf_grid.specs.Instance.{IsInstance, IsInstanceFault, IsFreePlace, cell_at};
ghost use Rattle.mapf_grid.specs.NewAgent.{IsNewAgent, HasAgentFault, IsFirstAt};

use super::MOST_AGENTS;
use super::taken::Taken;
use crate::{Cell, InstanceFault, Map, Row};
use std::alloc::Global;

/// The starts and the goals of the first rows, one for each agent.
pub(super) fn places_of(
    alloc: Global,
    map: &Map,
    rows: &[Row],
    agents: u64,
) -> Result<(Vec<Cell>, Vec<Cell>), InstanceFault>
    ensures found { IfOk result (λ places. IsInstance map.now rows.now agents
        (record { grid = map.now; starts = places.0.items; goals = places.1.items })) }
    ensures fault { IfErr result (λ e. e ≢ InstanceFault.NoMemory → IsInstanceFault map.now rows.now agents e) }
    ensures sizes { OnOk result (HasSizes map.now) }
{
    if agents == 0 || agents > MOST_AGENTS {
        return Err(InstanceFault::AgentCount);
    }
    if (rows.len() as u64) < agents {
        return Err(InstanceFault::TooFewRows { rows: rows.len() });
    }
    let mut starts = Taken::new(alloc);
    let mut goals = Taken::new(alloc);
    for (number, row) in rows[..agents as usize].iter().enumerate() {
        let (start, goal) = agent_of(map, row, number, &starts, &goals)?;
        starts.push(start).map_err(|_| InstanceFault::NoMemory)?;
        goals.push(goal).map_err(|_| InstanceFault::NoMemory)?;
    }
    Ok((starts.into_cells(), goals.into_cells()))
}

/// The start and the goal of the next agent, whose row this is.
fn agent_of(
    map: &Map,
    row: &Row,
    number: usize,
    starts: &Taken,
    goals: &Taken,
) -> Result<(Cell, Cell), InstanceFault>
    ensures found { IfOk result (λ places. IsNewAgent map.now starts.now goals.now row.now places.0 places.1) }
    ensures fault { IfErr result (HasAgentFault map.now starts.now goals.now row.now number) }
    ensures sizes { HasSizes map.now }
{
    if row.width != map.width() || row.height != map.height() {
        return Err(InstanceFault::WrongSize { row: number });
    }
    let start = free_cell(map, row.start_x, row.start_y).ok_or(InstanceFault::StartNotFree {
        row: number,
    })?;
    let goal = free_cell(map, row.goal_x, row.goal_y).ok_or(InstanceFault::GoalNotFree {
        row: number,
    })?;
    if let Some(earlier) = starts.first_at(start) {
        return Err(InstanceFault::SharedStart {
            earlier,
            row: number,
        });
    }
    if let Some(earlier) = goals.first_at(goal) {
        return Err(InstanceFault::SharedGoal {
            earlier,
            row: number,
        });
    }
    Ok((start, goal))
}

/// The cell in column `x` of row `y`, where it is in the map and free.
fn free_cell(map: &Map, x: u32, y: u32) -> Option<Cell>
    ensures { SomeIff result (IsFreePlace map.now x y) (cell_at map.now x y) }
{
    map.cell(x, y).filter(|cell| map.is_free(*cell))
}
