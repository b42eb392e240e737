//! A use of `mapf_grid`: a map and a scenario are read from bytes, and two maps are refused, each by its first fault.

use anyhow::Result;
use mapf_grid::{Map, instance_of};
use std::alloc::Global;

/// Two rows of three cells. The two corners below are blocked.
const MAP: &[u8] = b"type octile\nheight 2\nwidth 3\nmap\n...\n@.@\n";

/// A row for each agent. Its last five words are the start's column and row, the goal's column and row, and a length.
const SCENARIO: &[u8] = b"version 1\n0 bay.map 3 2 1 0 1 1 1\n0 bay.map 3 2 0 0 2 0 2\n";

/// The same map, whose last row lacks a cell.
const SHORT_ROW: &[u8] = b"type octile\nheight 2\nwidth 3\nmap\n...\n@.\n";

/// The same map, with a byte that stands for no cell.
const BAD_CELL: &[u8] = b"type octile\nheight 2\nwidth 3\nmap\n..?\n@.@\n";

/// Prints an instance, and the faults of two maps.
pub(crate) fn show<R: Print>(rt: &R, alloc: Global) -> Result<()> {
    let instance = instance_of(alloc, MAP, SCENARIO, 2)?;
    let map = instance.map();
    println!(rt; "{} columns, {} rows", map.width(), map.height())?;
    for agent in 0..instance.agents() {
        let (x, y) = map.xy(instance.start(agent));
        let (goal_x, goal_y) = map.xy(instance.goal(agent));
        println!(rt; "agent {agent}: from {x},{y} to {goal_x},{goal_y}")?;
    }
    for bytes in [SHORT_ROW, BAD_CELL] {
        match Map::read(alloc, bytes) {
            Ok(map) => println!(rt; "{} columns, {} rows", map.width(), map.height())?,
            Err(fault) => println!(rt; "fault {fault}")?,
        }
    }
    Ok(())
}
