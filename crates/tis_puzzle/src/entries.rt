//! The ports of a specification.
ghost use Rattle.std.specs.Prelude.{◌≡◌, map, option_and_then, IfOk};
ghost use Rattle.tis_base.specs.Answers.{Gives};
ghost use Rattle.lua_plain.specs.Plain.{plain_view};
ghost use Rattle.tis_grid.specs.Puzzle.{IsPuzzle, puzzle_of, is_picture, input_at, output_at};
ghost use Rattle.tis_puzzle.specs.Answering.{AddsEntry, AnswersPorts, values_there};
ghost use Rattle.tis_puzzle.specs.Entries.{column_in, column_of, is_short, value_in, values_of, values_in, only_if, port_of, port_with, ports_of, unknown, with_entry};

use crate::error::PuzzleError;
use lua_plain::Plain;
use std::alloc::Global;
use tis_base::{NoMemory, Shape, TileKind, Tiles, Value, Values};
use tis_grid::{InputAt, OutKind, OutputAt, Puzzle, is_picture};

// How many values a stream holds at most.
const MOST_VALUES: usize = 39;

// A value of the machine.
fn value(plain: &Plain) -> Option<Value>
    ensures { result ≡ value_in (plain_view plain.now) }
{
    Value::new(plain.as_number()?)
}

// The values of a list, where all of them are values of the machine.
fn values(alloc: Global, list: &[Plain]) -> Result<Option<Values>, NoMemory>
    ensures { Gives values_there result (values_of (map plain_view list.now)) }
{
    let mut values = Values::new(alloc);
    'list: for plain in list {
        match value(plain) {
            Some(value) => values.push(value)?,
            None => return Ok(None),
        }
    }
    Ok(Some(values))
}

fn values_in(alloc: Global, plain: &Plain) -> Result<Option<Values>, NoMemory>
    ensures { Gives values_there result (values_in (plain_view plain.now)) }
{
    match plain.as_list() {
        Some(list) => values(alloc, list.as_slice()),
        None => Ok(None),
    }
}

// The column that a number names.
fn column_of(number: i64) -> Option<u8>
    ensures { result ≡ column_of number }
{
    if 0 <= number && number <= 3 {
        Some(number as u8)
    } else {
        None
    }
}

fn column(plain: &Plain) -> Option<u8>
    ensures { result ≡ column_in (plain_view plain.now) }
{
    column_of(plain.as_number()?)
}

// The values, where a stream may hold them.
fn only_short(values: Option<Values>) -> Option<Values>
    ensures { values_there result ≡ option_and_then (only_if is_short) (values_there values) }
{
    let values = values?;
    if values.len() <= MOST_VALUES {
        Some(values)
    } else {
        None
    }
}

// The values, where they are a picture.
fn only_pictures(values: Option<Values>) -> Option<Values>
    ensures { values_there result ≡ option_and_then (only_if is_picture) (values_there values) }
{
    let values = values?;
    if is_picture(&values) {
        Some(values)
    } else {
        None
    }
}

// Adds an input, where its column and its values are told.
fn add_input(
    puzzle: &mut Puzzle,
    index: usize,
    column: Option<u8>,
    values: Option<Values>,
) -> Result<(), PuzzleError>
    ensures { AddsEntry result puzzle.new (with_entry (puzzle_of puzzle.old) index (input_at column (values_there values))) }
{
    let Some(position) = column else {
        return Err(PuzzleError::BadStreams { index });
    };
    let Some(values) = values else {
        return Err(PuzzleError::BadStreams { index });
    };
    if puzzle.has_input(position) {
        return Err(PuzzleError::SamePlace { index });
    }
    puzzle.inputs.push(InputAt { position, values })?;
    Ok(())
}

// Adds an output, where its column and its values are told.
fn add_output(
    puzzle: &mut Puzzle,
    index: usize,
    kind: OutKind,
    column: Option<u8>,
    expected: Option<Values>,
) -> Result<(), PuzzleError>
    ensures { AddsEntry result puzzle.new (with_entry (puzzle_of puzzle.old) index (output_at kind column (values_there expected))) }
{
    let Some(position) = column else {
        return Err(PuzzleError::BadStreams { index });
    };
    let Some(expected) = expected else {
        return Err(PuzzleError::BadStreams { index });
    };
    if puzzle.has_output(position) {
        return Err(PuzzleError::SamePlace { index });
    }
    puzzle.outputs.push(OutputAt {
        position,
        kind,
        expected,
    })?;
    Ok(())
}

// Adds the port of a kind.
fn add_port(
    puzzle: &mut Puzzle,
    index: usize,
    kind: i64,
    column: Option<u8>,
    values: Option<Values>,
) -> Result<(), PuzzleError>
    ensures { AddsEntry result puzzle.new (with_entry (puzzle_of puzzle.old) index (port_with kind column (values_there values))) }
{
    match kind {
        0 => add_input(puzzle, index, column, only_short(values)),
        1 => add_output(puzzle, index, OutKind::Stream, column, only_short(values)),
        2 => add_output(puzzle, index, OutKind::Image, column, only_pictures(values)),
        _ => Err(PuzzleError::BadStreams { index }),
    }
}

// Adds the port of an entry.
fn add_entry(
    alloc: Global,
    puzzle: &mut Puzzle,
    index: usize,
    entry: &Plain,
) -> Result<(), PuzzleError>
    ensures { AddsEntry result puzzle.new (with_entry (puzzle_of puzzle.old) index (port_of (plain_view entry.now))) }
{
    let Some(list) = entry.as_list() else {
        return Err(PuzzleError::BadStreams { index });
    };
    match list.as_slice() {
        [kind, name, position, values, ..] if name.is_text() => {
            let Some(kind) = kind.as_number() else {
                return Err(PuzzleError::BadStreams { index });
            };
            let values = values_in(alloc, values)?;
            add_port(puzzle, index, kind, column(position), values)
        }
        _ => Err(PuzzleError::BadStreams { index }),
    }
}

// Tiles that all are damaged.
fn no_tiles() -> Tiles
    ensures { result ≡ unknown.tiles }
{
    let shape = Shape {
        columns: 4,
        rows: 3,
    };
    Tiles::new(shape, &[TileKind::Damaged; 12]).unwrap()
}

/// The inputs and outputs of what `get_streams` gives, a list of entries, on tiles that all are damaged. An entry is a list
/// whose first four values are a kind (0 an input, 1 an output, 2 an image), a text, a position from 0 to 3, and a list of
/// values: at most 39 from -999 to 999, or the 540 colours of an image, from 0 to 4. `BadStreams` names the first other
/// entry, from 1 on, and 0 where there is no list; `SamePlace` names one at a position that an earlier one on its side
/// has. An entry of which both hold is `BadStreams`.
pub fn read_streams(alloc: Global, streams: &Plain) -> Result<Puzzle, PuzzleError>
    ensures ports { AnswersPorts result (ports_of (plain_view streams.now)) }
    ensures puzzle { IfOk result (λ read. IsPuzzle (puzzle_of read)) }
{
    let Some(list) = streams.as_list() else {
        return Err(PuzzleError::BadStreams { index: 0 });
    };
    let entries = list.as_slice();
    let mut puzzle = Puzzle {
        tiles: no_tiles(),
        inputs: Vec::new(alloc),
        outputs: Vec::new(alloc),
    };
    for index in 0..entries.len() {
        add_entry(alloc, &mut puzzle, index + 1, &entries[index])?;
    }
    Ok(puzzle)
}
