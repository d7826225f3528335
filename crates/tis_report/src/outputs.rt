//! The outputs of a grid, by ascending position.
ghost use Rattle.std.specs.Prelude.{◌≡◌, ◌++◌, map, OnOk};
ghost use Rattle.tis_grid.specs.Puzzle.{output_of, puzzle_of};
ghost use Rattle.tis_report.specs.Outputs.{output_text, kind_at, text_at, outputs_text};

use crate::image::push_image;
use crate::stream::push_stream;
use tis_base::{NoMemory, Values};
use tis_grid::{OutKind, OutputAt, Puzzle, State};

// The kind of the output at a position, where one stands there.
fn kind_of(outputs: &[OutputAt], position: u8) -> Option<OutKind>
    ensures { result ≡ kind_at (map output_of outputs.now) position }
{
    for output in outputs {
        if output.position == position {
            return Some(output.kind);
        }
    }
    None
}

// Writes an output of this kind that has taken these values.
fn push_output(
    out: &mut Vec<u8>,
    kind: OutKind,
    position: u8,
    values: &Values,
) -> Result<(), NoMemory>
    ensures { OnOk result (out.new.items ≡ out.old.items ++ output_text kind position values.now.items) }
{
    match kind {
        OutKind::Stream => push_stream(out, position, values),
        OutKind::Image => push_image(out, position, values),
    }
}

// Writes the output at a position, where one stands there.
fn push_output_at(
    out: &mut Vec<u8>,
    puzzle: &Puzzle,
    state: &State,
    position: u8,
) -> Result<(), NoMemory>
    ensures { OnOk result (out.new.items ≡ out.old.items ++ text_at (puzzle_of puzzle.now) state.now.state position) }
{
    match kind_of(&puzzle.outputs, position) {
        None => Ok(()),
        Some(kind) => match state.out(position) {
            None => Ok(()),
            Some(values) => push_output(out, kind, position, values),
        },
    }
}

/// Writes the outputs by ascending position.
pub fn push_outputs(out: &mut Vec<u8>, puzzle: &Puzzle, state: &State) -> Result<(), NoMemory>
    ensures { OnOk result (out.new.items ≡ out.old.items ++ outputs_text (puzzle_of puzzle.now) state.now.state) }
{
    for position in 0..puzzle.tiles.shape().columns {
        push_output_at(out, puzzle, state, position)?;
    }
    Ok(())
}
