//! Laws of cycles.
ghost use Rattle.tis_clock.specs.Laws.{CyclesAreLegal, RunsAreLegal, RestHasNoCycle, TilesActOnce};

/// The events of a cycle, and of many, are a legal order, which leads to the state after them.
pub fn cycles_are_legal()
    ensures cycle { CyclesAreLegal }
    ensures run { RunsAreLegal }
{}

/// A cycle has no event exactly at rest.
pub fn rest_has_no_cycle()
    ensures { RestHasNoCycle }
{}

/// Each tile makes one step in a cycle at most, so that a value crosses one node in it at most.
pub fn tiles_act_once()
    ensures { TilesActOnce }
{}
