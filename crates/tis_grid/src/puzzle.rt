//! What a grid is to do.
ghost use Rattle.std.specs.Prelude.{◌≡◌, map};
ghost use Rattle.std.specs.List.{list_all};
ghost use Rattle.tis_grid.specs.Puzzle.{has_input, has_output, input_of, is_colour, is_picture, output_of};

use tis_base::{Tiles, Value, Values};

// How many points the console has.
const POINTS: usize = 540;

/// What an output makes of the values that it takes.
#[derive(Clone, Copy, Debug, PartialEq, Eq, Hash)]
pub enum OutKind {
    /// It keeps them as a list.
    Stream,
    /// It draws them on the console.
    Image,
}

/// An input above a column, and the values that it gives, first to last.
#[derive(Debug, Drop)]
pub struct InputAt {
    pub position: u8,
    pub values: Values,
}

/// An output below a column, and the values that are wanted of it.
#[derive(Debug, Drop)]
pub struct OutputAt {
    pub position: u8,
    pub kind: OutKind,
    pub expected: Values,
}

/// The tiles, the inputs above them and the outputs below them.
#[derive(Debug, Drop)]
pub struct Puzzle {
    pub tiles: Tiles,
    pub inputs: Vec<InputAt>,
    pub outputs: Vec<OutputAt>,
}

impl Puzzle {
    /// Whether an input stands at a position.
    pub fn has_input(&self, position: u8) -> bool
        ensures { result ≡ has_input (map input_of self.now.inputs.items) position }
    {
        input_stands(&self.inputs, position)
    }

    /// Whether an output stands at a position.
    pub fn has_output(&self, position: u8) -> bool
        ensures { result ≡ has_output (map output_of self.now.outputs.items) position }
    {
        output_stands(&self.outputs, position)
    }
}

fn input_stands(inputs: &[InputAt], position: u8) -> bool
    ensures { result ≡ has_input (map input_of inputs.now) position }
{
    match inputs {
        [] => false,
        [first, others @ ..] => {
            let here = first.position == position;
            let there = input_stands(others, position);
            here || there
        }
    }
}

fn output_stands(outputs: &[OutputAt], position: u8) -> bool
    ensures { result ≡ has_output (map output_of outputs.now) position }
{
    match outputs {
        [] => false,
        [first, others @ ..] => {
            let here = first.position == position;
            let there = output_stands(others, position);
            here || there
        }
    }
}

// Whether a value is a colour.
fn is_shown(value: Value) -> bool
    ensures { result ≡ is_colour value }
{
    let number = value.get();
    0 <= number && number <= 4
}

// Whether each value is a colour.
fn all_shown(values: &Values) -> bool
    ensures { result ≡ list_all is_colour values.now.items }
{
    for index in 0..values.len() {
        if !is_shown(values.at(index)) {
            return false;
        }
    }
    true
}

/// Whether values are the colours of all 540 points of the console, row by row: what an image can want.
#[tactic(auto, unfolding(crate::specs::Puzzle::is_picture))]
pub fn is_picture(values: &Values) -> bool
    ensures { result ≡ is_picture values.now.items }
{
    values.len() == POINTS && all_shown(values)
}
