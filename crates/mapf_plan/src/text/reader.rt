ghost use Rattle.std.specs.Prelude.{◌≡◌, ◌≢◌, ℕ, List, ◌+◌, ◌*◌, ◌<◌, ◌≤◌, ◌⊎◌, ◌++◌, ◌∷◌, [], length, vec_len, MatchOption, MatchResult, IfOk, IfErr, slice_get, Some};
ghost use Rattle.std.specs.List.{AllZip};
ghost use Rattle.mapf_grid.specs.declared.instance.TheConstants.{MOST_AGENTS};
ghost use Rattle.mapf_plan.specs.declared.plan.path.TheConstants.{MOST_CELLS};
ghost use Rattle.mapf_plan.specs.ReadText.{IsPlace, IsLine, IsCellAt, IsFirstOutside, IsFirstLine, IsPathLine, AreTwoNumbers, AreLinesOf, IsTextOf, IsTextFault, IsLineFault, HasLinesFault};
ghost use Rattle.mapf_plan.specs.declared.answer.TheConstants.{MOST_STATED};
ghost use Rattle.mapf_plan.specs.Head.{IsHead};
ghost use Rattle.mapf_plan.specs.declared.answer.Answer.{Answer as AnswerValue};
ghost use Rattle.mapf_plan.specs.declared.text.reader.Head.{Head as HeadValue};

use super::TextFault;
use super::cut::cut_at;
use super::number::number;
use crate::{Answer, MOST_BOUND, MOST_CELLS, MOST_NODES, MOST_STATED, Path, Plan};
use mapf_grid::{Cell, MOST_AGENTS, Map};
use std::alloc::Global;

/// The greatest column and row that a position has: they have at most nine digits.
pub const MOST_COORDINATE: u64 = 999_999_999;

/// What the first line says.
enum Head {
    Plan { agents: usize, cost: u64 },
    None { bound: u32 },
    GaveUp { nodes: u64, least: u64 },
}

/// The answer whose text on this map these bytes are: what [`write`](super::write) would give for it,
/// byte by byte.
pub fn read_answer(alloc: Global, bytes: &[u8], map: &Map) -> Result<Answer, TextFault>
    ensures read { IfOk result (IsTextOf map.now bytes.now) }
    ensures fault { IfErr result (λ fault. (fault ≡ TextFault.NoMemory) ⊎ IsTextFault map.now bytes.now fault) }
    ensures only { (a : AnswerValue) → IsTextOf map.now bytes.now a
        → MatchResult result (λ b. b ≡ a) (λ fault. fault ≡ TextFault.NoMemory) }
{
    // The proof of `only` takes from this call that the map is no larger than a map may be.
    let _ = map.width();
    let Some((line, rest)) = cut_at(bytes, b'\n') else {
        return Err(TextFault::Head);
    };
    let Some(head) = read_head(line) else {
        return Err(TextFault::Head);
    };
    match head {
        Head::Plan { agents, cost } => {
            let plan = read_plan(alloc, rest, agents, map)?;
            Ok(Answer::Plan { plan, stated: cost })
        }
        Head::None { bound } => {
            expect_end(rest, 2)?;
            Ok(Answer::None { bound })
        }
        Head::GaveUp { nodes, least } => {
            expect_end(rest, 2)?;
            Ok(Answer::GaveUp { nodes, least })
        }
    }
}

/// The first line, without its LF.
fn read_head(line: &[u8]) -> Option<Head>
    ensures { MatchOption result ((head : HeadValue) → ¬ IsHead line.now head) (IsHead line.now) }
{
    if let Some(numbers) = without_front(line, b"plan ") {
        let (agents, cost) = read_two_numbers(numbers, MOST_AGENTS, MOST_STATED)?;
        let agents = agents as usize;
        return Some(Head::Plan { agents, cost });
    }
    if let Some(numbers) = without_front(line, b"gave up ") {
        let (nodes, least) = read_two_numbers(numbers, MOST_NODES, MOST_BOUND)?;
        return Some(Head::GaveUp { nodes, least });
    }
    let bound = number(without_front(line, b"none ")?, MOST_BOUND)?;
    let bound = bound as u32;
    Some(Head::None { bound })
}

/// What stands behind this front, where the line begins with it.
fn without_front<'a>(line: &'a [u8], front: &[u8]) -> Option<&'a [u8]>
    ensures { MatchOption result ((rest : List ℕ) → line.now ≢ front.now ++ rest)
        (λ rest. line.now ≡ front.now ++ rest.now) }
{
    if line.starts_with(front) {
        Some(&line[front.len()..])
    } else {
        None
    }
}

/// Two numbers parted by a space, the first of them above 0, each up to its limit.
fn read_two_numbers(numbers: &[u8], most_first: u64, most_second: u64) -> Option<(u64, u64)>
    requires first { most_first ≤ MOST_STATED }
    requires second { most_second ≤ MOST_STATED }
    ensures { MatchOption result ((pair : ℕ × ℕ) → ¬ AreTwoNumbers most_first most_second numbers.now pair)
        (AreTwoNumbers most_first most_second numbers.now) }
{
    let (first, second) = cut_at(numbers, b' ')?;
    let first = number(first, most_first)?;
    let second = number(second, most_second)?;
    if first == 0 {
        return None;
    }
    Some((first, second))
}

/// The lines of the agents, from line 2 on, and nothing behind them.
fn read_plan(alloc: Global, bytes: &[u8], agents: usize, map: &Map) -> Result<Plan, TextFault>
    requires some { 0 < agents }
    requires few { agents ≤ MOST_AGENTS }
    ensures agents { IfOk result (λ plan. length plan ≡ agents) }
    ensures lines { IfOk result (AreLinesOf map.now bytes.now) }
    ensures fault { IfErr result (λ fault. (fault ≡ TextFault.NoMemory)
        ⊎ HasLinesFault map.now bytes.now agents fault) }
{
    let mut paths = Vec::new(alloc);
    let mut rest = bytes;
    for agent in 0..agents {
        let (path, after) = read_line(alloc, rest, agent + 2, map)?;
        paths.push(path)?;
        rest = after;
    }
    expect_end(rest, agents + 2)?;
    Ok(Plan::of(paths))
}

/// Nothing stands at the line of this number.
fn expect_end(rest: &[u8], line: usize) -> Result<(), TextFault>
    ensures { MatchResult result (λ _. rest.now ≡ []) (λ fault. (rest.now ≢ []) × (fault ≡ TextFault.Line line)) }
{
    if rest.is_empty() {
        Ok(())
    } else {
        Err(TextFault::Line { line })
    }
}

/// One agent's path, and what stands behind its line.
fn read_line<'a>(
    alloc: Global,
    bytes: &'a [u8],
    number: usize,
    map: &Map,
) -> Result<(Path, &'a [u8]), TextFault>
    ensures read { IfOk result (λ found. (line : List ℕ)
        × IsFirstLine bytes.now line found.1.now × IsPathLine map.now line found.0) }
    ensures fault { IfErr result (IsLineFault map.now bytes.now number) }
{
    let Some((line, rest)) = cut_at(bytes, b'\n') else {
        return Err(TextFault::Line { line: number });
    };
    let places = read_places(alloc, line, number)?;
    let cells = cells_of(alloc, &places, number, map)?;
    Ok((Path::of(cells), rest))
}

/// The columns and rows that a line spells, parted by single spaces.
fn read_places(alloc: Global, line: &[u8], number: usize) -> Result<Vec<(u32, u32)>, TextFault>
    ensures places { IfOk result (λ places. IsLine line.now places.items) }
    ensures fault { IfErr result (λ fault. (fault ≡ TextFault.NoMemory)
        ⊎ ((fault ≡ TextFault.Line number) × ((places : List (ℕ × ℕ)) → ¬ IsLine line.now places))) }
{
    let mut places = Vec::new(alloc);
    let mut rest = line;
    while let Some((word, after)) = cut_at(rest, b' ') {
        push_place(&mut places, word, number)?;
        rest = after;
    }
    push_place(&mut places, rest, number)?;
    Ok(places)
}

/// Appends the column and the row that a word spells.
fn push_place(places: &mut Vec<(u32, u32)>, word: &[u8], number: usize) -> Result<(), TextFault>
    ensures pushed { IfOk result (λ _. (place : ℕ × ℕ) × IsPlace word.now place
        × (places.new.items ≡ places.old.items ++ place ∷ []) × (length places.old.items < MOST_CELLS)) }
    ensures fault { IfErr result (λ fault. (fault ≡ TextFault.NoMemory) ⊎ ((fault ≡ TextFault.Line number)
        × ((MOST_CELLS ≤ length places.old.items) ⊎ ((place : ℕ × ℕ) → ¬ IsPlace word.now place)))) }
{
    let fault = TextFault::Line { line: number };
    if places.len() >= MOST_CELLS {
        return Err(fault);
    }
    places.push(read_place(word).ok_or(fault)?)?;
    Ok(())
}

/// The column and the row that a word spells.
fn read_place(word: &[u8]) -> Option<(u32, u32)>
    ensures { MatchOption result ((place : ℕ × ℕ) → ¬ IsPlace word.now place) (IsPlace word.now) }
{
    let (column, row) = cut_at(word, b',')?;
    let x = number(column, MOST_COORDINATE)?;
    let y = number(row, MOST_COORDINATE)?;
    Some((x as u32, y as u32))
}

/// The cells at these columns and rows, all of them on the map.
fn cells_of(
    alloc: Global,
    places: &[(u32, u32)],
    line: usize,
    map: &Map,
) -> Result<Vec<Cell>, TextFault>
    ensures cells { IfOk result (λ cells. AllZip (IsCellAt map.now) places.now cells.items) }
    ensures fault { IfErr result (λ fault. (fault ≡ TextFault.NoMemory)
        ⊎ ((place : ℕ) × (fault ≡ TextFault.Outside line place) × IsFirstOutside map.now places.now place)) }
{
    let mut cells = Vec::new(alloc);
    for (place, (x, y)) in places.iter().enumerate() {
        let Some(cell) = map.cell(*x, *y) else {
            return Err(TextFault::Outside { line, place });
        };
        cells.push(cell)?;
    }
    Ok(cells)
}
