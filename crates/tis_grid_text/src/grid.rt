//! The text of a grid.
ghost use Rattle.std.specs.Prelude.{◌≡◌, ◌++◌, length, option_map, Some, IfSome, IfOk};
ghost use Rattle.tis_base.specs.Answers.{Gives};
ghost use Rattle.tis_words.specs.Words.{words_in};
ghost use Rattle.tis_words.specs.Numerals.{number_of as spelled_number};
ghost use Rattle.tis_grid.specs.Puzzle.{IsPuzzle, puzzle_of, bare, input_at, output_at};
ghost use Rattle.tis_grid_text.specs.GridText.{is_head, is_grid_text, kind_of, row_of, tiles_of, values_of, black, shown, image_of, port_of, grid_of};
ghost use Rattle.tis_grid_text.specs.Answering.{AnswersGrid, AddsLine, GivesSome, ReadsHead};

use crate::error::GridTextError;
use std::alloc::Global;
use tis_base::{NoMemory, Shape, TileKind, Tiles, Value, Values};
use tis_grid::{InputAt, OutKind, OutputAt, Puzzle, is_picture};
use tis_words::{Comments, NonBlankLines, Words, is, line_count, number_of, value_of};

// How many points an image has.
const POINTS: usize = 540;

// Whether a line is the first of a grid text.
fn is_first(line: &[u8]) -> bool
    ensures { result ≡ is_head (words_in line.now) }
{
    let mut words = Words::new(line);
    match (words.next(), words.next(), words.next()) {
        (Some(grid), Some(one), None) => {
            let named = is(grid, b"grid");
            let first = is(one, b"1");
            named && first
        }
        _ => false,
    }
}

/// Whether a text is that of a grid: its first line that isn't blank is `grid 1`, whatever comes behind it. A line that has only a
/// comment is blank. Each text of which [`read_grid`] makes a puzzle is one.
pub fn is_grid_text(text: &[u8]) -> bool
    ensures { result ≡ is_grid_text text.now }
{
    let mut whole = NonBlankLines::new(text, Comments::BehindHash);
    match whole.next() {
        Some((_, line)) => is_first(line),
        None => false,
    }
}

// The kind of tile that a letter names.
fn kind(byte: u8) -> Option<TileKind>
    ensures { result ≡ kind_of byte }
{
    if byte == b'C' {
        Some(TileKind::Compute)
    } else if byte == b'M' {
        Some(TileKind::Memory)
    } else if byte == b'D' {
        Some(TileKind::Damaged)
    } else {
        None
    }
}

// The kinds of a row of four tiles.
fn row(word: &[u8]) -> Option<[TileKind; 4]>
    ensures row { result ≡ row_of word.now }
    ensures len { IfSome result (λ kinds. length kinds ≡ 4) }
{
    match word {
        [a, b, c, d] => match (kind(*a), kind(*b), kind(*c), kind(*d)) {
            (Some(a), Some(b), Some(c), Some(d)) => Some([a, b, c, d]),
            _ => None,
        },
        _ => None,
    }
}

// The values that words spell.
fn read_values(alloc: Global, mut words: Words<'_>) -> Result<Option<Values>, NoMemory>
    ensures { GivesSome result (values_of words.entry) }
{
    let mut values = Values::new(alloc);
    'words: while let Some(word) = words.next() {
        match value_of(word) {
            Some(value) => values.push(value)?,
            None => return Ok(None),
        }
    }
    Ok(Some(values))
}

// The position that a word names.
fn position(word: &[u8]) -> Option<u8>
    ensures { result ≡ spelled_number 3 word.now }
{
    match number_of(word, 3) {
        Some(number) => Some(number as u8),
        None => None,
    }
}

// The black picture.
fn no_colours(alloc: Global) -> Result<Values, NoMemory>
    ensures { Gives (λ v. v.items) result black }
{
    let mut values = Values::new(alloc);
    for _point in 0..POINTS {
        values.push(Value::clamp(0))?;
    }
    Ok(values)
}

// What an image shows that is wanted with these values.
fn image(alloc: Global, values: Values) -> Result<Option<Values>, NoMemory>
    ensures { GivesSome result (shown values.items) }
{
    if values.is_empty() {
        return Ok(Some(no_colours(alloc)?));
    }
    if is_picture(&values) {
        Ok(Some(values))
    } else {
        Ok(None)
    }
}

// What an image shows that is wanted with these words.
fn read_image(alloc: Global, words: Words<'_>) -> Result<Option<Values>, NoMemory>
    ensures { GivesSome result (image_of words.entry) }
{
    match read_values(alloc, words)? {
        Some(values) => image(alloc, values),
        None => Ok(None),
    }
}

// Adds an input, where its position and its values are told.
fn add_input(
    puzzle: &mut Puzzle,
    number: usize,
    position: Option<u8>,
    values: Option<Values>,
) -> Result<(), GridTextError>
    ensures { AddsLine puzzle.old result puzzle.new number (input_at position (option_map (λ v. v.items) values)) }
{
    let Some(position) = position else {
        return Err(GridTextError::BadLine { line: number });
    };
    let Some(values) = values else {
        return Err(GridTextError::BadLine { line: number });
    };
    if puzzle.has_input(position) {
        return Err(GridTextError::SamePlace { line: number });
    }
    puzzle.inputs.push(InputAt { position, values })?;
    Ok(())
}

// Adds an output, where its position and its values are told.
fn add_output(
    puzzle: &mut Puzzle,
    number: usize,
    kind: OutKind,
    position: Option<u8>,
    expected: Option<Values>,
) -> Result<(), GridTextError>
    ensures { AddsLine puzzle.old result puzzle.new number (output_at kind position (option_map (λ v. v.items) expected)) }
{
    let Some(position) = position else {
        return Err(GridTextError::BadLine { line: number });
    };
    let Some(expected) = expected else {
        return Err(GridTextError::BadLine { line: number });
    };
    if puzzle.has_output(position) {
        return Err(GridTextError::SamePlace { line: number });
    }
    puzzle.outputs.push(OutputAt {
        position,
        kind,
        expected,
    })?;
    Ok(())
}

// Adds the port of a line.
fn add_line(
    alloc: Global,
    puzzle: &mut Puzzle,
    number: usize,
    line: &[u8],
) -> Result<(), GridTextError>
    ensures { AddsLine puzzle.old result puzzle.new number (port_of (words_in line.now)) }
{
    let mut words = Words::new(line);
    let Some(name) = words.next() else {
        return Err(GridTextError::BadLine { line: number });
    };
    let Some(place) = words.next() else {
        return Err(GridTextError::BadLine { line: number });
    };
    if is(name, b"input") {
        let values = read_values(alloc, words)?;
        add_input(puzzle, number, position(place), values)
    } else if is(name, b"output") {
        let values = read_values(alloc, words)?;
        add_output(puzzle, number, OutKind::Stream, position(place), values)
    } else if is(name, b"image") {
        let values = read_image(alloc, words)?;
        add_output(puzzle, number, OutKind::Image, position(place), values)
    } else {
        Err(GridTextError::BadLine { line: number })
    }
}

// The tiles of three rows of kinds.
fn tiles_with(a: [TileKind; 4], b: [TileKind; 4], c: [TileKind; 4]) -> Option<Tiles>
    requires first { length a ≡ 4 }
    requires second { length b ≡ 4 }
    requires third { length c ≡ 4 }
    ensures { result ≡ Some (record { shape = record { columns = 4; rows = 3 }; kinds = (a ++ b) ++ c }) }
{
    let kinds = [
        a[0], a[1], a[2], a[3], b[0], b[1], b[2], b[3], c[0], c[1], c[2], c[3],
    ];
    Tiles::new(
        Shape {
            columns: 4,
            rows: 3,
        },
        &kinds,
    )
}

// The tiles of the second line.
fn read_tiles(line: &[u8]) -> Option<Tiles>
    ensures { result ≡ option_map (λ kinds. (bare kinds).tiles) (tiles_of (words_in line.now)) }
{
    let mut words = Words::new(line);
    let name = words.next()?;
    let first = words.next()?;
    let second = words.next()?;
    let third = words.next()?;
    if words.next().is_some() {
        return None;
    }
    if !is(name, b"tiles") {
        return None;
    }
    tiles_with(row(first)?, row(second)?, row(third)?)
}

// The tiles of the first two lines, behind which the ports follow.
fn read_head(lines: &mut NonBlankLines<'_>, missing: usize) -> Result<Tiles, GridTextError>
    ensures { ReadsHead missing lines.old result lines.new }
{
    let Some((number, line)) = lines.next() else {
        return Err(GridTextError::BadLine { line: missing });
    };
    if !is_first(line) {
        return Err(GridTextError::BadLine { line: number });
    }
    let Some((number, line)) = lines.next() else {
        return Err(GridTextError::BadLine { line: missing });
    };
    match read_tiles(line) {
        Some(tiles) => Ok(tiles),
        None => Err(GridTextError::BadLine { line: number }),
    }
}

/// The puzzle of a text: `grid 1`, then `tiles` and three rows of four letters, and then inputs, outputs and
/// images in any order. The first wrong line is refused.
pub fn read_grid(alloc: Global, text: &[u8]) -> Result<Puzzle, GridTextError>
    ensures grid { AnswersGrid result (grid_of text.now) }
    ensures puzzle { IfOk result (λ read. IsPuzzle (puzzle_of read)) }
{
    let mut lines = NonBlankLines::new(text, Comments::BehindHash);
    let tiles = read_head(&mut lines, line_count(text) + 1)?;
    let mut puzzle = Puzzle {
        tiles,
        inputs: Vec::new(alloc),
        outputs: Vec::new(alloc),
    };
    'lines: while let Some((number, line)) = lines.next() {
        add_line(alloc, &mut puzzle, number, line)?;
    }
    Ok(puzzle)
}
