//! A row's line, cut into its nine fields.

ghost use Rattle.std.specs.Prelude.{◌<◌, length, MatchOption};
ghost use Rattle.mapf_grid.specs.Lines.{words};
ghost use Rattle.mapf_grid.specs.RowFields.{AreFields};

use crate::words::{first_word, last_word, trim};

/// The nine fields of a row, as they are spelled.
#[derive(Drop)]
pub(super) struct Fields<'a> {
    pub(super) bucket: &'a [u8],
    pub(super) map_name: &'a [u8],
    pub(super) width: &'a [u8],
    pub(super) height: &'a [u8],
    pub(super) start_x: &'a [u8],
    pub(super) start_y: &'a [u8],
    pub(super) goal_x: &'a [u8],
    pub(super) goal_y: &'a [u8],
    pub(super) optimal_length: &'a [u8],
}

impl<'a> Fields<'a> {
    /// The fields of a line; none where it has fewer than nine words.
    pub(super) fn of(line: &'a [u8]) -> Option<Self>
        ensures { MatchOption result (length (words line.now) < 9) (AreFields line.now) }
    {
        let (bucket, behind) = first_word(line)?;
        let (before, optimal_length) = last_word(behind)?;
        let (before, goal_y) = last_word(before)?;
        let (before, goal_x) = last_word(before)?;
        let (before, start_y) = last_word(before)?;
        let (before, start_x) = last_word(before)?;
        let (before, height) = last_word(before)?;
        let (before, width) = last_word(before)?;
        let map_name = trim(before);
        if map_name.is_empty() {
            return None;
        }
        Some(Fields {
            bucket,
            map_name,
            width,
            height,
            start_x,
            start_y,
            goal_x,
            goal_y,
            optimal_length,
        })
    }
}
