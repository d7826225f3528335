//! Laws of verdicts.
ghost use Rattle.tis_grade.specs.Laws.{VerdictsAreFirst};

/// A verdict is that of the first state of the run that decides, and where none up to the limit does, it is
/// that it is late.
pub fn verdicts_are_first()
    ensures { VerdictsAreFirst }
{}
