//! Laws of specifications.
ghost use Rattle.tis_spec.specs.Laws.{EachGives, EachGivesOne, GivenArePuzzles, GridsAreGiven};

/// Each text gives one answer with each seed, a puzzle or why there is none; of a puzzle that is given a grid can be made; and a
/// text that is read as a grid gives that grid with every seed.
pub fn specifications_give_one_puzzle()
    ensures some { EachGives }
    ensures one { EachGivesOne }
    ensures puzzle { GivenArePuzzles }
    ensures grid { GridsAreGiven }
{}
