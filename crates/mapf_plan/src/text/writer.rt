ghost use Rattle.std.specs.Prelude.{◌≡◌, ◌<◌, ◌++◌, codes, decimal, string_bytes, IfOk, OnOk, map as mapped};
ghost use Rattle.std.specs.List.{flat_map, join_with_byte, AllByRecursion};
ghost use Rattle.mapf_grid.specs.Grid.{cells};
ghost use Rattle.mapf_plan.specs.Text.{position, line, text, CanWrite};

use super::pieces::{push_number, push_position};
use crate::{Answer, Path};
use mapf_grid::{Cell, Map, NoMemory};
use std::alloc::Global;

/// The text of an answer: a plan as its head and a line for each agent, or `none` with the bound, or `gave up` with
/// the number of nodes and the cost.
///
/// Each answer has one text. The positions are written by the map's columns and rows.
pub fn write(alloc: Global, answer: &Answer, map: &Map) -> Result<Vec<u8>, NoMemory>
    requires { CanWrite map.now answer.now }
    ensures { IfOk result (λ bytes. bytes.items ≡ text map.now answer.now) }
{
    let mut text = String::new(alloc);
    match answer {
        Answer::Plan { plan, stated } => {
            push_two_numbers(&mut text, "plan ", plan.paths().len() as u64, *stated)?;
            push_lines(&mut text, plan.paths(), map)?;
        }
        Answer::None { bound } => {
            push_number(&mut text, "none ", *bound)?;
            text.push_str("\n")?;
        }
        Answer::GaveUp { nodes, least } => push_two_numbers(&mut text, "gave up ", *nodes, *least)?,
    }
    Ok(text.into_bytes())
}

/// A line of these words and two numbers, parted by a space.
fn push_two_numbers(text: &mut String, front: &str, first: u64, second: u64) -> Result<(), NoMemory>
    ensures { OnOk result (string_bytes text.new ≡ string_bytes text.old
        ++ (front.now ++ (decimal first ++ (codes " " ++ (decimal second ++ codes "\n"))))) }
{
    push_number(text, front, first)?;
    push_number(text, " ", second)?;
    text.push_str("\n")?;
    Ok(())
}

/// A line of positions for each path.
fn push_lines(text: &mut String, paths: &[Path], map: &Map) -> Result<(), NoMemory>
    requires { AllByRecursion (AllByRecursion (λ c. c < cells map.now)) paths.now }
    ensures { OnOk result (string_bytes text.new ≡ string_bytes text.old ++ flat_map (line map.now) paths.now) }
{
    for path in paths {
        push_positions(text, path.cells(), map)?;
        text.push_str("\n")?;
    }
    Ok(())
}

/// The positions of one agent, parted by spaces.
fn push_positions(text: &mut String, path: &[Cell], map: &Map) -> Result<(), NoMemory>
    requires { AllByRecursion (λ c. c < cells map.now) path.now }
    ensures { OnOk result (string_bytes text.new
        ≡ string_bytes text.old ++ join_with_byte 32 (mapped (position map.now) path.now)) }
{
    let mut front = "";
    for cell in path {
        push_position(text, front, *cell, map)?;
        front = " ";
    }
    Ok(())
}
