//! Laws of accepted networks.
ghost use Rattle.net_rules.specs.Laws.{ProcessesWait};

/// A process of an accepted network, whose numbers are values of the machine, never runs out of fuel: over
/// any streams of values, with more fuel than its limit of steps, it comes to wait for a value.
pub fn processes_wait()
    ensures { ProcessesWait }
{}
