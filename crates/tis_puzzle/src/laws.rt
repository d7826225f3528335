//! Laws of puzzles that specifications give.
ghost use Rattle.tis_puzzle.specs.LuaPuzzle.{EachHasAPuzzleOrNone, OnePuzzle, SpecificationsGivePuzzles};

/// Each chunk has a puzzle with each seed, or a reason why it has none; there is one such answer at most; and what is
/// given is a puzzle of which a grid can be made.
pub fn specifications_give_one_puzzle()
    ensures some { EachHasAPuzzleOrNone }
    ensures one { OnePuzzle }
    ensures puzzle { SpecificationsGivePuzzles }
{}
