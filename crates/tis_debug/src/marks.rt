//! Which instructions are marked.
ghost use Rattle.std.specs.Prelude.{◌≡◌, ◌<◌, map};
ghost use Rattle.tis_debug.specs.Sessions.{is_marked_in, is_marked, marks_in, with_mark};

use tis_asm::{Program, Programs};
use tis_base::Tile;

// How many tiles a grid has.
const TILES: usize = 12;

// How many instructions of a tile can be marked.
const LINES: usize = 15;

/// Of each tile, which instructions are marked.
pub(crate) type Marks = [[bool; LINES]; TILES];

// Whether a program marks an instruction.
fn is_marked_by(program: &Program, instruction: u8) -> bool
    ensures { result ≡ is_marked_in program.now instruction }
{
    instruction < program.len() && program.marked(instruction)
}

// Which instructions a program marks.
fn marks_of(program: &Program) -> [bool; LINES]
    ensures { result ≡ marks_in program.now }
{
    let mut marks = [false; LINES];
    for instruction in 0..LINES {
        marks[instruction] = is_marked_by(program, instruction as u8);
    }
    marks
}

/// Which instructions of each tile the programs mark.
pub(crate) fn first_marks(programs: &Programs) -> Marks
    ensures { result ≡ map marks_in programs.now.programs }
{
    // The calls tell the proof how many tiles there are.
    programs.tiles().shape();
    let mut marks = [[false; LINES]; TILES];
    for tile in 0..TILES {
        marks[tile] = marks_of(programs.of(Tile { number: tile as u8 }));
    }
    marks
}

/// Whether an instruction of a tile is marked.
pub(crate) fn marked_at(marks: &Marks, tile: u8, instruction: u8) -> bool
    ensures { result ≡ is_marked marks.now tile instruction }
{
    match marks.get(tile as usize) {
        None => false,
        Some(row) => match row.get(instruction as usize) {
            None => false,
            Some(mark) => *mark,
        },
    }
}

/// Marks an instruction of a tile.
pub(crate) fn mark(marks: &mut Marks, tile: u8, instruction: u8)
    requires { (tile < 12) × (instruction < 15) }
    ensures { marks.new ≡ with_mark marks.old tile instruction }
{
    let row = &mut marks[tile as usize];
    row[instruction as usize] = true;
}
