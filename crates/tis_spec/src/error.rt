//! Why a specification has no puzzle.
use lua_syntax::LuaSyntax;
use tis_grid_text::GridTextError;
use tis_puzzle::PuzzleError;

/// Why a text and a seed give no puzzle, by what the text was read as. Each of the causes may be that memory ran out.
#[derive(Clone, Copy, Debug, PartialEq, Eq)]
pub enum SpecError {
    /// The text begins as a grid text, and isn't one.
    Grid(GridTextError),
    /// The text is no chunk of Lua.
    Syntax(LuaSyntax),
    /// The functions of the chunk give no puzzle.
    Puzzle(PuzzleError),
}
