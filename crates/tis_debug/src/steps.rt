//! Cycles of a session.
ghost use Rattle.std.specs.Prelude.{◌≡◌, ◌≢◌, ◌+◌, ◌<◌, ◌≤◌, not, IfOk, OnOk, OnErr, if◌then◌else◌};
ghost use Rattle.std.specs.Bool.{OnTrue};
ghost use Rattle.tis_debug.specs.declared.session.Stop.TheVariants as stop;
ghost use Rattle.tis_debug.specs.Sessions.{LAST_CYCLE, state_at, moved, is_resting, stands_still, step_count, go_count, go_stop};
ghost use Rattle.tis_debug.specs.Held.{IsCutShort, IsLastCycle};

use crate::session::{Session, Stop};
use tis_base::NoMemory;
use tis_clock::{Trace, cycle, make_room};

// The cycle that no session goes past.
const LAST: u64 = 1_000_000_000;

// How many cycles one call of `go` does at most.
const MOST: u64 = 100_000;

impl<'g> Session<'g> {
    // Does one more cycle, and keeps the point of the state before it. At rest, and after the last cycle, nothing is
    // done. Gives whether one was done.
    fn advance(&mut self, trace: &mut Trace) -> Result<bool, NoMemory>
        ensures done { IfOk result (λ done. done ≡ not (stands_still self.old)) }
        ensures session { IfOk result (λ done. self.new ≡ (if done then moved self.old 1 else self.old)) }
        ensures trace { IfOk result (λ done. OnTrue done (IsLastCycle self.new trace.new)) }
        ensures failed { OnErr result (self.new ≡ self.old) }
    {
        if self.cycle == LAST {
            return Ok(false);
        }
        make_room(&mut self.state)?;
        let point = self.state.point();
        if cycle(self.grid, &mut self.state, trace) == 0 {
            return Ok(false);
        }
        self.points.push_back(point);
        self.cycle += 1;
        Ok(true)
    }

    /// Does so many cycles, and gives how many were done: fewer exactly where the state is then at rest, or its cycle
    /// the last one of a session, 1,000,000,000. Where memory runs out, the cycles done so far stand.
    pub fn step(&mut self, count: u64) -> Result<u64, NoMemory>
        ensures done { IfOk result (λ done. done ≡ step_count self.old count) }
        ensures session { IfOk result (λ done. self.new ≡ moved self.old done) }
        ensures broken_off { OnErr result (IsCutShort self.old (step_count self.old count) self.new) }
    {
        // The call tells the proof how the session is bounded.
        self.cycle();
        let mut trace = Trace::new();
        for done in 0..count {
            if !self.advance(&mut trace)? {
                return Ok(done);
            }
        }
        Ok(count)
    }

    // At rest, or else at the limit.
    fn end(&self) -> Stop
        ensures { result ≡ (if is_resting self.now.grid (state_at self.now.grid self.now.cycle) then stop.Rest else stop.Limit) }
    {
        if self.grid.at_rest(&self.state) {
            Stop::Rest
        } else {
            Stop::Limit
        }
    }

    /// Does cycles until the node of some tile made a step in the last of them and is ready at a marked instruction,
    /// or the state is at rest, or else 100,000 cycles of this call are done or the cycle is 1,000,000,000. Of several
    /// such tiles the least is named. Where memory runs out, the cycles done so far stand.
    pub fn go(&mut self) -> Result<Stop, NoMemory>
        ensures stop { IfOk result (λ stop. stop ≡ go_stop self.old) }
        ensures session { OnOk result (self.new ≡ moved self.old (go_count self.old)) }
        ensures broken_off { OnErr result (IsCutShort self.old (go_count self.old) self.new) }
    {
        // The call tells the proof how the session is bounded.
        self.cycle();
        let mut trace = Trace::new();
        for done in 0..MOST {
            if !self.advance(&mut trace)? {
                return Ok(self.end());
            }
            if let Some(tile) = self.stopping_tile(&trace) {
                return Ok(Stop::Break { tile });
            }
        }
        Ok(self.end())
    }
}
