//! A use of `mapf_low`: one agent's cheapest path along a row of three cells, free and under a constraint.

use anyhow::{Context, Result};
use mapf_grid::Map;
use mapf_low::{Constraint, Constraints, Distances, cheapest};
use mapf_plan::Path;
use std::alloc::Global;

/// One row of three cells.
const MAP: &[u8] = b"type octile\nheight 1\nwidth 3\nmap\n...\n";

/// What a path may cost at most.
const BOUND: u32 = 10;

/// Prints an agent's cheapest path, without constraints and with one.
pub(crate) fn show<R: Print>(rt: &R, alloc: Global) -> Result<()> {
    let map = Map::read(alloc, MAP)?;
    // `cheapest` asks for a free start and a free goal, so both are tested
    let start = map
        .cell(0, 0)
        .filter(|cell| map.is_free(*cell))
        .context("the start is blocked")?;
    let middle = map.cell(1, 0).context("1,0 is outside")?;
    let goal = map
        .cell(2, 0)
        .filter(|cell| map.is_free(*cell))
        .context("the goal is blocked")?;
    let distances = Distances::to(alloc, &map, goal)?;

    let free = Constraints::new(alloc);
    let path = cheapest(alloc, &map, &distances, start, goal, &free, BOUND)?;
    print_path(rt, path)?;

    // the agent may not be on the middle cell at time 1
    let forbidden = free.and(Constraint::Vertex {
        cell: middle,
        time: 1,
    })?;
    let path = cheapest(alloc, &map, &distances, start, goal, &forbidden, BOUND)?;
    print_path(rt, path)
}

/// Prints a path as its cost and its cells' numbers, which count from the left.
fn print_path<R: Print>(rt: &R, path: Option<Path>) -> Result<()> {
    match path {
        Some(path) => {
            print!(rt; "cost {}:", path.cost())?;
            for cell in path.cells() {
                print!(rt; " {}", cell.number())?;
            }
            println!(rt)?;
        }
        None => println!(rt; "no path")?,
    }
    Ok(())
}
