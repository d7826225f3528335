//! What a grid's text gives.
ghost use Rattle.tis_grid_text.specs.Soundness.{GridsArePuzzles, GridsHaveHeads};

/// Each text that is a grid gives a puzzle.
pub fn grids_are_puzzles()
    ensures { GridsArePuzzles }
{}

/// Each text that gives a puzzle is the text of a grid by its first line.
pub fn grids_have_heads()
    ensures { GridsHaveHeads }
{}
