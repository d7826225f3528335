//! Laws of every grid, whatever its programs and whatever the order.
ghost use Rattle.tis_grid.specs.Laws.{StartFits, OrdersKeepFitting, OrdersAreRuns, LinksPassAll, InputsPassAll, OutputsPassAll, StepsCountEvents, EnabledAreListed, RestListsNone, DrawnOrdersAreLegal, DrawnOrdersGrow, ReturnsFit, PointsBringBack, BareArePuzzles, PortsMakePuzzles};

/// The start of a grid is a state of it, and so is what a legal order leads to.
pub fn states_fit()
    ensures start { StartFits }
    ensures orders { OrdersKeepFitting }
{}

/// Seen from one tile, an order is steps that its node can make, and leads to the node that these
/// steps lead to.
pub fn orders_are_runs()
    ensures runs { OrdersAreRuns }
{}

/// What one end of a link gave is what the other end took, and the same holds of what comes in
/// above the top row and goes out below the bottom row.
pub fn links_pass_all()
    ensures links { LinksPassAll }
    ensures inputs { InputsPassAll }
    ensures outputs { OutputsPassAll }
{}

/// Each event is a step of some tile.
pub fn events_are_counted()
    ensures steps { StepsCountEvents }
{}

/// An event is listed exactly where it is enabled, and none is listed exactly at rest.
pub fn enabled_events_are_listed()
    ensures listed { EnabledAreListed }
    ensures rest { RestListsNone }
{}

/// An order that is drawn from a seed is legal, and ends before it may only at rest. With a higher limit
/// the same order goes on.
pub fn drawn_orders_are_legal()
    ensures drawn { DrawnOrdersAreLegal }
    ensures grow { DrawnOrdersGrow }
{}

/// A state's own point brings it back: from what a legal order led to, the state before it. What comes back is a
/// state of the grid.
pub fn points_bring_back()
    ensures fits { ReturnsFit }
    ensures back { PointsBringBack }
{}

/// Twelve tiles without a port are a puzzle, and so is a puzzle with one more port, at a position that no port on its
/// side has.
pub fn ports_make_puzzles()
    ensures bare { BareArePuzzles }
    ensures port { PortsMakePuzzles }
{}
