//! How a `for` takes its turns.
ghost use Rattle.std.specs.Prelude.{◌≡◌, ◌+◌, ◌∷◌, length};
ghost use Rattle.lua_machine.specs.Machine.{ForBody};
ghost use Rattle.lua_machine.specs.Tree.{block_of};
ghost use Rattle.lua_machine.specs.Turn.{for_by, looping, running, turning};
ghost use Rattle.lua_machine.specs.Yields.{bounds_of};
ghost use Rattle.lua_state.specs.Loops.{closed, newest_bounds};
ghost use Rattle.lua_state.specs.Store.{parts, without};
ghost use Rattle.lua_frames.specs.Machines.{frames_with, state_in, store_in};
ghost use Rattle.lua_frames.specs.Rounds.{RoundEnds, next_round};
ghost use Rattle.lua_frames.specs.Turns.{Comes};
ghost use Rattle.lua_frames.specs.Ways.{beside_way, way_in};

use crate::control::Control;
use crate::frame::{Frame, push_frame};
use crate::machine::Machine;
use crate::outcome::Outcome;
use crate::ways::Way;
use lua_machine::LuaError;
use lua_tree::LuaBlock;
use std::alloc::Global;

impl<'a> Machine<'a> {
    // Begins the body of a turn that comes, and pays the turn; its name is a local already.
    #[tactic(auto, using(crate::proofs::Reaching::at_once))]
    fn run_turn(
        &mut self,
        alloc: Global,
        outer: usize,
        name: &'a [u8],
        body: &'a LuaBlock,
    ) -> Result<Control<'a>, LuaError>
        ensures { Comes result self.new (running (block_of body.now) (ForBody outer name.now (newest_bounds (store_in self.old).loops) (block_of body.now) ∷ frames_with self.old (closed (store_in self.old))) self.old.calls (state_in self.old) (self.old.units + 1)) }
    {
        self.units.pay()?;
        push_frame(&mut self.frames, Frame::ForBody(outer, name, body))?;
        self.run_here(alloc, body.statements.as_slice())
    }

    // The first turn of the bounds that are open, if it comes.
    #[tactic(auto, using(crate::proofs::Reaching::at_once))]
    fn first_turn(
        &mut self,
        alloc: Global,
        name: &'a [u8],
        body: &'a LuaBlock,
    ) -> Result<Control<'a>, LuaError>
        ensures { Comes result self.new (turning name.now (newest_bounds (store_in self.old).loops) (block_of body.now) (frames_with self.old (closed (store_in self.old))) self.old.calls (state_in self.old) self.old.units) }
    {
        let outer = self.state.locals();
        if self.state.begin_turn(alloc, name)? {
            self.run_turn(alloc, outer, name, body)
        } else {
            Ok(Control::Goes)
        }
    }

    // The turn behind one that is done, if it comes.
    #[tactic(auto, using(crate::proofs::Reaching::at_once))]
    fn next_turn(
        &mut self,
        alloc: Global,
        name: &'a [u8],
        body: &'a LuaBlock,
    ) -> Result<Control<'a>, LuaError>
        ensures { Comes result self.new (next_round name.now (block_of body.now) self.old) }
    {
        let outer = self.state.locals();
        if self.state.next_turn(alloc, name)? {
            self.run_turn(alloc, outer, name, body)
        } else {
            Ok(Control::Goes)
        }
    }

    // Executes the body of a turn that came, and is paid, where it stands; its name is a local already.
    #[inline(always)]
    fn do_turn(
        &mut self,
        alloc: Global,
        outer: usize,
        name: &'a [u8],
        body: &'a LuaBlock,
    ) -> Outcome
        ensures { RoundEnds result outer name.now (block_of body.now) self.old self.new }
    {
        match self.do_all(alloc, 8, body.statements.as_slice()) {
            Outcome::Goes => {
                self.state.cut_to(outer);
                Outcome::Goes
            }
            Outcome::Breaks => {
                self.state.cut_to(outer);
                Outcome::Breaks
            }
            Outcome::Returns => {
                self.state.cut_to(outer);
                Outcome::Returns
            }
            Outcome::Waits => self.wait_beneath(Frame::ForBody(outer, name, body)),
            Outcome::Stopped => Outcome::Stopped,
        }
    }

    // The turns behind one that is done, up to the first whose body isn't executed where it stands. After so many of them the
    // next one is left to turns of the machine.
    fn next_turns(
        &mut self,
        alloc: Global,
        name: &'a [u8],
        body: &'a LuaBlock,
    ) -> Result<Control<'a>, LuaError>
        ensures { Comes result self.new (next_round name.now (block_of body.now) self.old) }
    {
        'turns: for _turn in 0..1000_u32 {
            let outer = self.state.locals();
            if !self.state.next_turn(alloc, name)? {
                return Ok(Control::Goes);
            }
            self.units.pay()?;
            self.pending.clear();
            match self.do_turn(alloc, outer, name, body) {
                Outcome::Goes => {}
                Outcome::Breaks => {
                    self.state.close_loop();
                    return Ok(Control::Goes);
                }
                Outcome::Returns => {
                    self.state.close_loop();
                    return Ok(Control::Returns);
                }
                Outcome::Waits => {
                    self.put_pending()?;
                    return Ok(self.at);
                }
                Outcome::Stopped => return Err(self.fault),
            }
        }
        self.next_turn(alloc, name, body)
    }

    // The bounds of a `for` are there.
    #[tactic(auto, using(crate::proofs::Reaching::at_once))]
    pub(crate) fn loops(
        &mut self,
        alloc: Global,
        count: usize,
        name: &'a [u8],
        body: &'a LuaBlock,
        line: usize,
    ) -> Result<Control<'a>, LuaError>
        ensures { Comes result self.new (looping (bounds_of line (parts count (store_in self.old))) name.now (block_of body.now) (frames_with self.old (without count (store_in self.old))) self.old.calls (state_in self.old) self.old.units) }
    {
        match self.state.open_loop(count, line) {
            Ok(()) => self.first_turn(alloc, name, body),
            Err(why) => Err(why),
        }
    }

    // The body of a `for` ended.
    #[tactic(auto, using(crate::proofs::Reaching::at_once))]
    pub(crate) fn for_body(
        &mut self,
        alloc: Global,
        way: Way,
        outer: usize,
        name: &'a [u8],
        body: &'a LuaBlock,
    ) -> Result<Control<'a>, LuaError>
        ensures { Comes result self.new (for_by (way_in way (store_in self.old)) outer name.now (newest_bounds (store_in self.old).loops) (block_of body.now) (frames_with self.old (closed (beside_way way (store_in self.old)))) self.old.calls (state_in self.old) self.old.units) }
    {
        self.state.cut_to(outer);
        match way {
            Way::Goes => self.next_turns(alloc, name, body),
            Way::Breaks => {
                self.state.close_loop();
                Ok(Control::Goes)
            }
            Way::Returns => {
                self.state.close_loop();
                Ok(Control::Returns)
            }
        }
    }
}
