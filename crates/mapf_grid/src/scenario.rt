ghost use Rattle.std.specs.Prelude.{◌≡◌};

mod fields;
mod reader;

use crate::Bytes;
use std::marker::Model;

/// A row of a scenario: one agent's start and goal on a map.
#[derive(Debug, Drop)]
pub struct Row {
    /// Field 1: the bucket of the benchmark, at most 999,999,999 as all numbers here.
    pub bucket: u32,
    /// Field 2: the map's name, blanks inside kept, compared with nothing.
    pub map_name: Bytes,
    /// Field 3: the width of the map that the row is for.
    pub width: u32,
    /// Field 4: the height of the map that the row is for.
    pub height: u32,
    /// Field 5: the start's column, from 0.
    pub start_x: u32,
    /// Field 6: the start's row, from 0.
    pub start_y: u32,
    /// Field 7: the goal's column, from 0.
    pub goal_x: u32,
    /// Field 8: the goal's row, from 0.
    pub goal_y: u32,
    /// Field 9: the octile length of an optimal path, as it is spelled; never read as a number.
    pub optimal_length: Bytes,
}

/// A scenario of the MovingAI format, version 1: rows of starts and goals.
#[derive(Debug, Drop)]
pub struct Scenario {
    rows: Vec<Row>,
}

impl Model for Scenario {
    ghost use Rattle.std.specs.Prelude.{List};
    ghost use Rattle.mapf_grid.specs.declared.scenario.Row.{Row};

    ghost Value = { List Row };

    ghost view = { λ s. s.rows.items };
}

impl Scenario {
    /// The rows, in the order of the file.
    pub fn rows(&self) -> &[Row]
        ensures { result.now ≡ self.now }
    {
        self.rows.as_slice()
    }
}
