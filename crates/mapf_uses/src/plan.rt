//! A use of `mapf_plan`: a plan of two paths, its cost, its first conflict by both rules, and its text, which is read back.

use anyhow::{Context, Result};
use mapf_grid::Map;
use mapf_plan::{Answer, Path, Plan, Rule, read_answer, write};
use std::alloc::Global;

/// One row of three cells.
const MAP: &[u8] = b"type octile\nheight 1\nwidth 3\nmap\n...\n";

/// Prints a plan's cost, its first conflict by each rule, and its text.
pub(crate) fn show<R: Print>(rt: &R, alloc: Global) -> Result<()> {
    let map = Map::read(alloc, MAP)?;
    // `write` asks for cells of the map, as `cell` gives them
    let left = map.cell(0, 0).context("0,0 is outside")?;
    let middle = map.cell(1, 0).context("1,0 is outside")?;
    let right = map.cell(2, 0).context("2,0 is outside")?;

    // agent 1 moves to the cell that agent 0 leaves
    let ahead = Path::of(vec![in alloc; middle, right]?);
    let behind = Path::of(vec![in alloc; left, middle]?);
    let plan = Plan::of(vec![in alloc; ahead, behind]?);
    println!(rt; "cost {}", plan.cost())?;
    println!(rt; "classical: {:?}", plan.first_conflict())?;
    println!(rt;
        "no following: {:?}",
        plan.first_conflict_by(Rule::NoFollowing)
    )?;

    let stated = plan.cost();
    let text = write(alloc, &Answer::Plan { plan, stated }, &map)?;
    print!(rt; "{}", str::from_utf8(&text)?)?;
    if let Answer::Plan { plan, stated } = read_answer(alloc, &text, &map)? {
        println!(rt;
            "read back: {} paths, stated cost {stated}",
            plan.paths().len()
        )?;
    }
    Ok(())
}
