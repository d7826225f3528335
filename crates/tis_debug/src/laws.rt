//! Laws of sessions.
ghost use Rattle.tis_debug.specs.Laws.{StepsEndFirst, GoesStopFirst, BackIsUndone};

/// A step does the fewest cycles after which it can end: all of them, or nothing can happen, or it is the last cycle.
pub fn steps_end_first()
    ensures { StepsEndFirst }
{}

/// Going on stops after the fewest cycles after which something stops it.
pub fn goes_stop_first()
    ensures { GoesStopFirst }
{}

/// As many cycles after those that were taken back, a session is what it was.
pub fn back_is_undone()
    ensures { BackIsUndone }
{}
