//! The loops that count, which are open.
ghost use Rattle.std.specs.Prelude.{◌≡◌, IfOk, OnOk};
ghost use Rattle.lua_machine.specs.Yields.{bounds_of, comes, next_turn};
ghost use Rattle.lua_state.specs.Held.{IsSound, bounds_in, store_of};
ghost use Rattle.lua_state.specs.Loops.{closed, newest_bounds, opened, turning, with_opened};
ghost use Rattle.lua_state.specs.Store.{Answers, parts, without};

use crate::bounds::{LoopBounds, bounds_of_parts, comes, following};
use crate::held::HeldState;
use lua_machine::LuaError;
use lua_numbers::LuaNumber;
use lua_store::SmallValue;
use std::alloc::Global;
use tis_base::NoMemory;

impl HeldState {
    // One more loop is open.
    fn open(&mut self, bounds: &LoopBounds) -> Result<(), NoMemory>
        requires { IsSound self.old }
        ensures opened { OnOk result (store_of self.new ≡ opened (bounds_in bounds.now) (store_of self.old)) }
        ensures sound { IsSound self.new }
    {
        self.loops.push(*bounds)
    }

    /// Opens a loop with the newest so many values as its bounds.
    pub(crate) fn open_loop(&mut self, count: usize, line: usize) -> Result<(), LuaError>
        requires { IsSound self.old }
        ensures opened { Answers result (store_of self.new) (with_opened (bounds_of line (parts count (store_of self.old))) (without count (store_of self.old))) }
        ensures sound { IsSound self.new }
    {
        let values = self.values.top(count);
        match bounds_of_parts(line, values) {
            Ok(bounds) => {
                self.drop_parts(count);
                self.open(&bounds)?;
                Ok(())
            }
            Err(why) => Err(why),
        }
    }

    // The innermost loop is left, and its bounds are handed out.
    fn take_bounds(&mut self) -> LoopBounds
        requires { IsSound self.old }
        ensures bounds { bounds_in result ≡ newest_bounds (store_of self.old).loops }
        ensures closed { store_of self.new ≡ closed (store_of self.old) }
        ensures sound { IsSound self.new }
    {
        let none = LuaNumber::small(0);
        self.loops.pop_or(LoopBounds {
            first: none,
            last: none,
            by: none,
        })
    }

    /// Leaves the innermost loop.
    pub(crate) fn close_loop(&mut self)
        requires { IsSound self.old }
        ensures closed { store_of self.new ≡ closed (store_of self.old) }
        ensures sound { IsSound self.new }
    {
        self.take_bounds();
    }

    // A turn with these bounds, if it comes.
    fn turn(&mut self, alloc: Global, name: &[u8], bounds: &LoopBounds) -> Result<bool, NoMemory>
        requires { IsSound self.old }
        ensures comes { IfOk result (λ b. b ≡ comes (bounds_in bounds.now)) }
        ensures turned { OnOk result (store_of self.new ≡ turning name.now (bounds_in bounds.now) (store_of self.old)) }
        ensures sound { IsSound self.new }
    {
        if !comes(bounds) {
            return Ok(false);
        }
        let at = self.hold(alloc, name)?;
        self.declare_at(at, SmallValue::Number(bounds.first))?;
        self.open(bounds)?;
        Ok(true)
    }

    /// The first turn of the loop whose bounds are open.
    pub(crate) fn begin_turn(&mut self, alloc: Global, name: &[u8]) -> Result<bool, NoMemory>
        requires { IsSound self.old }
        ensures comes { IfOk result (λ b. b ≡ comes (newest_bounds (store_of self.old).loops)) }
        ensures turned { OnOk result (store_of self.new ≡ turning name.now (newest_bounds (store_of self.old).loops) (closed (store_of self.old))) }
        ensures sound { IsSound self.new }
    {
        let bounds = self.take_bounds();
        self.turn(alloc, name, &bounds)
    }

    /// The turn behind the one whose bounds are open.
    pub(crate) fn next_turn(&mut self, alloc: Global, name: &[u8]) -> Result<bool, NoMemory>
        requires { IsSound self.old }
        ensures comes { IfOk result (λ b. b ≡ comes (next_turn (newest_bounds (store_of self.old).loops))) }
        ensures turned { OnOk result (store_of self.new ≡ turning name.now (next_turn (newest_bounds (store_of self.old).loops)) (closed (store_of self.old))) }
        ensures sound { IsSound self.new }
    {
        let bounds = self.take_bounds();
        match following(&bounds) {
            Some(next) => self.turn(alloc, name, &next),
            None => Ok(false),
        }
    }
}
