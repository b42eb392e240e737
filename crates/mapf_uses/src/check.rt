//! A use of `mapf_check`: plans of one instance are judged, and each verdict is printed as its line.

use anyhow::Result;
use mapf_check::{check, line};
use mapf_grid::instance_of;
use mapf_plan::read_answer;
use std::alloc::Global;

/// Two rows of three cells. The two corners below are blocked.
const MAP: &[u8] = b"type octile\nheight 2\nwidth 3\nmap\n...\n@.@\n";

/// Agent 0 is on its goal, the cell 1,0 between the start and the goal of agent 1.
const SCENARIO: &[u8] = b"version 1\n0 bay.map 3 2 1 0 1 0 0\n0 bay.map 3 2 0 0 2 0 2\n";

/// Agent 0 makes way for agent 1, and comes back.
const MAKES_WAY: &[u8] = b"plan 2 4\n1,0 1,1 1,0\n0,0 1,0 2,0\n";

/// The same plan, which is stated to cost 3.
const WRONG_COST: &[u8] = b"plan 2 3\n1,0 1,1 1,0\n0,0 1,0 2,0\n";

/// Agent 0 stays, and agent 1 goes through it.
const IN_THE_WAY: &[u8] = b"plan 2 2\n1,0\n0,0 1,0 2,0\n";

/// Prints the line of each plan's verdict.
pub(crate) fn show<R: Print>(rt: &R, alloc: Global) -> Result<()> {
    let instance = instance_of(alloc, MAP, SCENARIO, 2)?;
    for bytes in [MAKES_WAY, WRONG_COST, IN_THE_WAY] {
        let answer = read_answer(alloc, bytes, instance.map())?;
        let verdict = check(&instance, &answer);
        print!(rt; "{}", line(alloc, &verdict, instance.map())?)?;
    }
    Ok(())
}
