//! A session over a grid.
ghost use Rattle.std.specs.Prelude.{◌≡◌, length, slice_get, Some};
ghost use Rattle.tis_base.specs.Answers.{Gives};
ghost use Rattle.tis_grid.specs.Events.{program_of};
ghost use Rattle.tis_grid.specs.Points.{Point as SomePoint, CanReturn};
ghost use Rattle.tis_debug.specs.Held.{IsBounded, returned_where};
ghost use Rattle.tis_debug.specs.Sessions.{first_session, back_answer, after_back, mark_answer, after_mark};

use crate::error::DebugError;
use crate::marks::{Marks, first_marks, mark};
use circular_buffer::HeapCircularBuffer;
use std::alloc::Global;
use std::marker::Model;
use tis_base::{NoMemory, Tile};
use tis_grid::{Grid, Point, State};

/// Why [`Session::go`] stopped.
#[derive(Clone, Copy, Debug, PartialEq, Eq, Hash)]
pub enum Stop {
    /// The node of this tile made a step in the last cycle, and is ready at a marked instruction.
    Break { tile: Tile },
    /// Nothing can happen.
    Rest,
    /// As many cycles were done as one call does, or it is the last cycle of a session.
    Limit,
}

// How many cycles can be taken back at most.
const MOST_KEPT: usize = 64;

/// A grid so many cycles after its start, with marks at instructions and the points of its last states. Contracts see
/// the grid, the number of the cycle, how many cycles can be taken back, and the marks.
#[derive(Drop)]
pub struct Session<'g> {
    pub(crate) grid: &'g Grid,
    pub(crate) state: State,
    pub(crate) cycle: u64,
    // The points of the states before the last cycles, oldest first.
    pub(crate) points: HeapCircularBuffer<Point>,
    pub(crate) marks: Marks,
}

impl<'g> Model for Session<'g> {
    ghost use Rattle.std.specs.Prelude.{length};
    ghost use Rattle.tis_debug.specs.Sessions.{Session};
    ghost use Rattle.tis_debug.specs.Held.{IsSession};

    ghost Value = { Session };

    ghost view = { λ s. record { grid = s.grid.now; cycle = s.cycle; kept = length s.points.items; marks = s.marks } };

    ghost invariant = { λ s. IsSession s.grid.now s.state s.cycle s.points };
}

// Brings a state back to one of these points, where there is one with this index.
fn bring_back(state: &mut State, points: &HeapCircularBuffer<Point>, index: usize)
    requires { (point : SomePoint) → slice_get points.now.items index ≡ Some point → CanReturn state.old.state point }
    ensures { state.new.state ≡ returned_where (slice_get points.now.items index) state.old.state }
{
    if let Some(point) = points.get(index) {
        state.return_to(point);
    }
}

impl<'g> Session<'g> {
    /// A session at the start of a grid. The marks of the programs are its first marks.
    pub fn new(alloc: Global, grid: &'g Grid) -> Result<Session<'g>, NoMemory>
        ensures { Gives (λ s. s) result (first_session grid.now) }
    {
        // The call tells the proof that this is a grid.
        grid.puzzle();
        let state = grid.start(alloc)?;
        let points = HeapCircularBuffer::with_capacity(alloc, MOST_KEPT)?;
        Ok(Session {
            grid,
            state,
            cycle: 0,
            points,
            marks: first_marks(grid.programs()),
        })
    }

    /// The number of the cycle, which is how many cycles were done from the start.
    pub fn cycle(&self) -> u64
        ensures cycle { result ≡ self.now.cycle }
        ensures bounds { IsBounded self.now }
    {
        self.cycle
    }

    /// Takes so many cycles back: the state is again that before them, and what came later is forgotten. Where more
    /// are asked for than are kept, nothing changes. It takes no memory.
    pub fn back(&mut self, count: u64) -> Result<(), DebugError>
        ensures answer { result ≡ back_answer self.old count }
        ensures session { self.new ≡ after_back self.old count }
    {
        let kept = self.points.len() as u64;
        if kept < count {
            return Err(DebugError::NoHistory { kept });
        }
        let left = (kept - count) as usize;
        bring_back(&mut self.state, &self.points, left);
        self.points.truncate_back(left);
        self.cycle -= count;
        Ok(())
    }

    // How many instructions the program of a tile has; none where no tile is there.
    fn lines_of(&self, tile: u8) -> u8
        ensures { result ≡ length (program_of self.now.grid tile) }
    {
        let shape = self.grid.puzzle().tiles.shape();
        if tile < shape.columns * shape.rows {
            self.grid.programs().of(Tile { number: tile }).len()
        } else {
            0
        }
    }

    /// Marks an instruction of a tile, counted from 0. Where the tile isn't a compute tile with a program, or else
    /// its program has no such instruction, nothing changes. It takes no memory.
    pub fn break_at(&mut self, tile: u8, instruction: u8) -> Result<(), DebugError>
        ensures answer { result ≡ mark_answer self.old tile instruction }
        ensures session { self.new ≡ after_mark self.old tile instruction }
    {
        let lines = self.lines_of(tile);
        if lines == 0 {
            return Err(DebugError::NoSuchNode { tile });
        }
        if lines <= instruction {
            return Err(DebugError::NoSuchLine { instruction });
        }
        mark(&mut self.marks, tile, instruction);
        Ok(())
    }
}
