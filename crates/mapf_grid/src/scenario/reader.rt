//! Scenario files, read from the first line to the last.

ghost use Rattle.std.specs.Prelude.{◌≡◌, ◌≢◌, ◌∷◌, ◌+◌, ◌<◌, ◌^◌, ◌↔◌, List, ℕ, length, Some, None, IsTrue, IfOk, IfErr, MatchResult};
ghost use Rattle.std.specs.List.{list_all};
ghost use Rattle.mapf_grid.specs.Lines.{lines_of, is_blank_line, number_of};
ghost use Rattle.mapf_grid.specs.ScenarioFile.{IsVersion, IsRowOf, IsScenario, IsScenFault};
ghost use Rattle.mapf_grid.specs.RowFields.{AreFields, IsScenarioRowFault};
ghost use Rattle.mapf_grid.specs.declared.scenario.Row.{Row};

use super::fields::Fields;
use super::{Row, Scenario};
use crate::lines::{first_line, is_blank_line, number};
use crate::words::first_word;
use crate::{Bytes, ScenFault};
use std::alloc::Global;

impl Scenario {
    /// Reads a scenario file. Blank lines at the file's end are none.
    ///
    /// Where the bytes are no scenario file, the error is the fault of the first faulty line; and it is `NoMemory`
    /// when memory runs out.
    pub fn read(alloc: Global, bytes: &[u8]) -> Result<Scenario, ScenFault>
        ensures found { IfOk result (IsScenario (lines_of bytes.now)) }
        ensures fault { IfErr result (λ e. e ≢ ScenFault.NoMemory → IsScenFault (lines_of bytes.now) e) }
        ensures only { (rows : List Row) → IsScenario (lines_of bytes.now) rows
            → MatchResult result (λ s. s ≡ rows) (λ e. e ≡ ScenFault.NoMemory) }
    {
        let (version, behind) = first_line(bytes).ok_or(ScenFault::Version)?;
        if !is_version(version) {
            return Err(ScenFault::Version);
        }
        let rows = read_rows(alloc, behind)?;
        Ok(Scenario { rows })
    }
}

fn is_version(line: &[u8]) -> bool
    ensures { IsTrue result ↔ IsVersion line.now }
{
    let Some((word, behind)) = first_word(line) else {
        return false;
    };
    let Some((number, behind)) = first_word(behind) else {
        return false;
    };
    word == b"version".as_slice()
        && (number == b"1".as_slice() || number == b"1.0".as_slice())
        && first_word(behind).is_none()
}

/// Reads the lines behind the version line as rows, up to blank lines at the end.
fn read_rows(alloc: Global, mut rest: &[u8]) -> Result<Vec<Row>, ScenFault>
    requires { length rest.now + 1 < 2 ^ 64 }
    ensures found { (version : List ℕ) → IsVersion version
        → IfOk result (λ rows. IsScenario (version ∷ lines_of rest.now) rows.items) }
    ensures fault { (version : List ℕ) → IsVersion version
        → IfErr result (λ e. e ≢ ScenFault.NoMemory → IsScenFault (version ∷ lines_of rest.now) e) }
{
    let mut rows = Vec::new(alloc);
    while let Some((line, behind)) = first_line(rest) {
        let number = rows.len() + 2;
        if is_blank_line(line) {
            return if are_blank_lines(behind) {
                Ok(rows)
            } else {
                Err(ScenFault::FieldCount { line: number })
            };
        }
        let row = read_row(alloc, line, number)?;
        rows.push(row).map_err(|_| ScenFault::NoMemory)?;
        rest = behind;
    }
    Ok(rows)
}

fn are_blank_lines(mut rest: &[u8]) -> bool
    ensures { result ≡ list_all is_blank_line (lines_of rest.now) }
{
    while let Some((line, behind)) = first_line(rest) {
        if !is_blank_line(line) {
            return false;
        }
        rest = behind;
    }
    true
}

fn read_row(alloc: Global, text: &[u8], line: usize) -> Result<Row, ScenFault>
    ensures found { IfOk result (IsRowOf text.now) }
    ensures fault { IfErr result (λ e. e ≢ ScenFault.NoMemory → IsScenarioRowFault text.now line e) }
{
    let fields = Fields::of(text).ok_or(ScenFault::FieldCount { line })?;
    let bucket = number_field(fields.bucket, line, 1)?;
    let width = number_field(fields.width, line, 3)?;
    let height = number_field(fields.height, line, 4)?;
    let start_x = number_field(fields.start_x, line, 5)?;
    let start_y = number_field(fields.start_y, line, 6)?;
    let goal_x = number_field(fields.goal_x, line, 7)?;
    let goal_y = number_field(fields.goal_y, line, 8)?;
    Ok(Row {
        bucket,
        map_name: copy(alloc, fields.map_name)?,
        width,
        height,
        start_x,
        start_y,
        goal_x,
        goal_y,
        optimal_length: copy(alloc, fields.optimal_length)?,
    })
}

fn number_field(word: &[u8], line: usize, field: usize) -> Result<u32, ScenFault>
    ensures { MatchResult result (λ n. number_of word.now ≡ Some n)
        (λ e. (number_of word.now ≡ None) × (e ≡ ScenFault.Number line field)) }
{
    number(word).ok_or(ScenFault::Number { line, field })
}

fn copy(alloc: Global, word: &[u8]) -> Result<Bytes, ScenFault>
    ensures { MatchResult result (λ bytes. bytes ≡ word.now) (λ e. e ≡ ScenFault.NoMemory) }
{
    let bytes = Vec::from_slice(alloc, word).map_err(|_| ScenFault::NoMemory)?;
    Ok(Bytes::of(bytes))
}
