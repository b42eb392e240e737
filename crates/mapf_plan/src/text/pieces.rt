ghost use Rattle.std.specs.Prelude.{◌≡◌, ◌<◌, ◌++◌, string_bytes, OnOk};
ghost use Rattle.std.specs.Io.{StartsWith};
ghost use Rattle.mapf_grid.specs.Grid.{cells};
ghost use Rattle.mapf_plan.specs.Text.{position};

use itoa::{Buffer, Integer};
use mapf_grid::{Cell, Map, NoMemory};

/// Appends these words, and a cell as its column and its row, `x,y`. Where memory runs out a part of it may stand behind
/// what the text held.
pub fn push_position(text: &mut String, front: &str, cell: Cell, map: &Map) -> Result<(), NoMemory>
    requires { cell < cells map.now }
    ensures appended { OnOk result (string_bytes text.new
        ≡ string_bytes text.old ++ (front.now ++ position map.now cell)) }
    ensures held { StartsWith (string_bytes text.new) (string_bytes text.old) }
{
    let (x, y) = map.xy(cell);
    push_number(text, front, x)?;
    push_number(text, ",", y)
}

/// Appends these words, and a number in decimal, with no zero in front. Where memory runs out these words may stand behind
/// what the text held.
pub fn push_number<I: Integer>(text: &mut String, front: &str, number: I) -> Result<(), NoMemory>
    ensures appended { OnOk result (string_bytes text.new
        ≡ string_bytes text.old ++ (front.now ++ I.text number)) }
    ensures held { StartsWith (string_bytes text.new) (string_bytes text.old) }
{
    text.push_str(front)?;
    text.push_str(Buffer::new().format(number))?;
    Ok(())
}
