//! The tiles of a specification.
ghost use Rattle.std.specs.Prelude.{◌≡◌, [], map};
ghost use Rattle.lua_plain.specs.Plain.{plain_view};
ghost use Rattle.tis_puzzle.specs.Answering.{AnswersTiles};
ghost use Rattle.tis_puzzle.specs.Layout.{kind_of, kind_in, layout_of};

use lua_plain::Plain;
use tis_base::{Shape, TileKind, Tiles};

// How many tiles a grid has.
const TILES: usize = 12;

// The kind of tile that a number names.
fn kind_of(number: i64) -> Option<TileKind>
    ensures { result ≡ kind_of number }
{
    match number {
        0 => Some(TileKind::Compute),
        1 => Some(TileKind::Memory),
        2 => Some(TileKind::Damaged),
        _ => None,
    }
}

// The kind of tile of a value.
fn kind(value: &Plain) -> Option<TileKind>
    ensures { result ≡ kind_in (plain_view value.now) }
{
    kind_of(value.as_number()?)
}

/// The tiles of what `get_layout` gives: twelve kinds, row by row. The number of the first value that is none is
/// answered, from 1 on, and 0 where there is no list of twelve.
pub fn read_layout(layout: &Plain) -> Result<Tiles, usize>
    ensures { AnswersTiles result (layout_of (plain_view layout.now)) }
{
    let Some(list) = layout.as_list() else {
        return Err(0);
    };
    let values = list.as_slice();
    if values.len() != TILES {
        return Err(0);
    }
    let mut kinds = [TileKind::Damaged; TILES];
    for index in 0..TILES {
        match kind(&values[index]) {
            Some(kind) => kinds[index] = kind,
            None => return Err(index + 1),
        }
    }
    let shape = Shape {
        columns: 4,
        rows: 3,
    };
    Ok(Tiles::new(shape, &kinds).unwrap())
}
