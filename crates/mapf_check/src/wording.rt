ghost use Rattle.std.specs.Prelude.{◌≡◌, ◌++◌, codes, decimal, string_bytes, IfOk, OnOk};
ghost use Rattle.mapf_check.specs.Positions.{IsOnMap, HasPositions};
ghost use Rattle.mapf_check.specs.Wording.{conflict_words, verdict_words, verdict_line};

use crate::Verdict;
use mapf_grid::{Map, NoMemory};
use mapf_plan::{Conflict, push_number, push_position};
use std::alloc::Global;

/// The line that says a verdict, with its LF: a fault by its number, places and positions. A position is
/// written as column and row, as in `66 vertex conflict agents 0 1 cell 1,0 time 1`.
pub fn line(alloc: Global, verdict: &Verdict, map: &Map) -> Result<String, NoMemory>
    requires { HasPositions map.now verdict.now }
    ensures { IfOk result (λ text. string_bytes text ≡ verdict_line map.now verdict.now) }
{
    let mut text = String::new(alloc);
    push_verdict(&mut text, *verdict, map)?;
    text.push_str("\n")?;
    Ok(text)
}

/// The words of a verdict.
fn push_verdict(text: &mut String, verdict: Verdict, map: &Map) -> Result<(), NoMemory>
    requires { HasPositions map.now verdict }
    ensures { OnOk result (string_bytes text.new ≡ string_bytes text.old ++ verdict_words map.now verdict) }
{
    match verdict {
        Verdict::Valid { cost } => push_number(text, "valid ", cost)?,
        Verdict::NoPlanGiven => text.push_str("no plan given")?,
        Verdict::AgentCount { paths } => push_number(text, "61 agent count ", paths)?,
        Verdict::WrongStart { agent } => push_number(text, "62 wrong start agent ", agent)?,
        Verdict::BadStep { agent, time } => {
            push_number(text, "63 bad step agent ", agent)?;
            push_number(text, " time ", time)?;
        }
        Verdict::WrongEnd { agent } => push_number(text, "64 wrong end agent ", agent)?,
        Verdict::EndsLate { agent } => push_number(text, "65 ends late agent ", agent)?,
        Verdict::Conflict(conflict) => push_conflict(text, conflict, map)?,
        Verdict::WrongCost { stated, found } => {
            push_number(text, "67 wrong cost stated ", stated)?;
            push_number(text, " found ", found)?;
        }
    }
    Ok(())
}

/// The words of a conflict: its kind and its two agents, its cells and its time.
fn push_conflict(text: &mut String, conflict: Conflict, map: &Map) -> Result<(), NoMemory>
    requires { IsOnMap map.now conflict }
    ensures { OnOk result (string_bytes text.new ≡ string_bytes text.old ++ conflict_words map.now conflict) }
{
    match conflict {
        Conflict::Vertex {
            first,
            second,
            cell,
            time,
        } => {
            push_agents(text, "66 vertex conflict agents ", first, second)?;
            push_position(text, " cell ", cell, map)?;
            push_number(text, " time ", time)
        }
        Conflict::Swapping {
            first,
            second,
            from,
            to,
            time,
        } => {
            push_agents(text, "66 swapping conflict agents ", first, second)?;
            push_position(text, " from ", from, map)?;
            push_position(text, " to ", to, map)?;
            push_number(text, " time ", time)
        }
        Conflict::Following {
            follower,
            leader,
            cell,
            time,
        } => {
            push_agents(text, "66 following conflict agents ", follower, leader)?;
            push_position(text, " cell ", cell, map)?;
            push_number(text, " time ", time)
        }
    }
}

/// These words and two agents' numbers.
fn push_agents(text: &mut String, words: &str, one: usize, other: usize) -> Result<(), NoMemory>
    ensures { OnOk result (string_bytes text.new ≡ string_bytes text.old
        ++ ((words.now ++ decimal one) ++ (codes " " ++ decimal other))) }
{
    push_number(text, words, one)?;
    push_number(text, " ", other)
}
