//! Calls that are made to fail by their number.
ghost use Rattle.std.specs.Prelude.{◌≡◌, ◌≤◌, ◌↔◌, IsTrue, Contains, pos};
ghost use Rattle.tis_base.specs.Counts.{one_more};

use crate::values::Values;

/// Which calls fail, by their numbers from 0 on, how many were made, and how many of these failed.
#[derive(Drop)]
pub(crate) struct Calls {
    pub(crate) failing: Values,
    pub(crate) made: u64,
    pub(crate) faults: u64,
}

impl Calls {
    /// No call was made yet.
    pub(crate) fn new(failing: Values) -> Calls
        ensures { result ≡ record { failing = failing; made = 0; faults = 0 } }
    {
        Calls {
            failing,
            made: 0,
            faults: 0,
        }
    }

    /// Counts one more call, and says whether it is made to fail.
    pub(crate) fn is_next_failing(&mut self) -> bool
        ensures fails { IsTrue result ↔ Contains self.old.failing.items (pos self.old.made) }
        ensures made { self.new.made ≡ one_more self.old.made }
        ensures faults_rise { IsTrue result → self.new.faults ≡ one_more self.old.faults }
        ensures faults_stay { ¬ IsTrue result → self.new.faults ≡ self.old.faults }
        ensures faults_never_fall { self.old.faults ≤ self.new.faults }
        ensures failing_stay { self.new.failing.items ≡ self.old.failing.items }
    {
        let fails = self.failing.has(self.made);
        self.made = self.made.saturating_add(1);
        if fails {
            self.faults = self.faults.saturating_add(1);
        }
        fails
    }
}
