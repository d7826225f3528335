//! What can happen next on a grid.
use tis_base::{Dir, Tile};

/// One thing that happens on a grid.
#[derive(Clone, Copy, Debug, PartialEq, Eq, Hash)]
pub enum Event {
    /// A node does an instruction that needs no port.
    Local(Tile),
    /// A node gives a value in a direction to the node that waits there.
    Meet(Tile, Dir),
    /// The node at the top of a column takes the next value of the input above it.
    In(u8),
    /// The node at the bottom of a column gives a value to the output below it.
    Out(u8),
    /// A node pushes a value onto the stack in a direction.
    Push(Tile, Dir),
    /// A node pops a value from the stack in a direction.
    Pop(Tile, Dir),
}

impl Default for Event {
    /// The event of the first input.
    fn default() -> Self {
        Event::In(0)
    }
}
