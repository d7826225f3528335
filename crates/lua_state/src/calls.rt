//! How a function is entered and left.
ghost use Rattle.std.specs.Prelude.{◌≡◌, [], get_or, OnOk};
ghost use Rattle.lua_machine.specs.Value.{Nil};
ghost use Rattle.lua_machine.specs.State.{declared};
ghost use Rattle.lua_store.specs.Values.{IsHeld, Texts, meant};
ghost use Rattle.lua_state.specs.Calls.{bound, called, left, set_aside};
ghost use Rattle.lua_state.specs.Held.{IsSound, state_of, store_of};
ghost use Rattle.lua_state.specs.Store.{in_state, parts, without};
ghost use Rattle.std.specs.List.{All};
ghost use Rattle.std.specs.Prelude.{map};

use crate::held::HeldState;
use lua_store::SmallValue;
use lua_tree::Text;
use std::alloc::Global;
use tis_base::NoMemory;

// The value of a part, nil where there are fewer.
fn part(values: &[SmallValue], index: usize) -> SmallValue
    ensures value { (texts : Texts) → meant texts result ≡ get_or (map (meant texts) values.now) index Nil }
    ensures held { (texts : Texts) → All (IsHeld texts) values.now → IsHeld texts result }
{
    if index < values.len() {
        values[index]
    } else {
        SmallValue::Nil
    }
}

impl HeldState {
    // The locals go behind those of the calls around.
    fn set_aside(&mut self) -> Result<(), NoMemory>
        requires { IsSound self.old }
        ensures aside { OnOk result (store_of self.new ≡ set_aside (store_of self.old)) }
        ensures sound { IsSound self.new }
    {
        self.locals.enter()
    }

    // A new local with the value of a part.
    fn bind(
        &mut self,
        alloc: Global,
        name: &[u8],
        count: usize,
        index: usize,
    ) -> Result<(), NoMemory>
        requires { IsSound self.old }
        ensures bound { OnOk result (store_of self.new ≡ in_state (declared name.now (get_or (parts count (store_of self.old)) index Nil) (state_of self.old)) (store_of self.old)) }
        ensures sound { IsSound self.new }
    {
        let at = self.hold(alloc, name)?;
        let value = part(self.values.top(count), index);
        self.declare_at(at, value)?;
        Ok(())
    }

    // New locals with the values of the parts.
    fn bind_all(&mut self, alloc: Global, params: &[Text], count: usize) -> Result<(), NoMemory>
        requires { IsSound self.old }
        ensures bound { OnOk result (store_of self.new ≡ bound params.now (parts count (store_of self.old)) (store_of self.old)) }
        ensures sound { IsSound self.new }
    {
        for index in 0..params.len() {
            self.bind(alloc, params[index].bytes(), count, index)?;
        }
        Ok(())
    }

    // Takes so many of the newest values.
    pub(crate) fn drop_parts(&mut self, count: usize)
        requires { IsSound self.old }
        ensures dropped { store_of self.new ≡ without count (store_of self.old) }
        ensures sound { IsSound self.new }
    {
        self.values.drop_top(count);
    }

    /// Enters a function with the newest so many values as its arguments.
    pub(crate) fn enter(
        &mut self,
        alloc: Global,
        params: &[Text],
        count: usize,
    ) -> Result<(), NoMemory>
        requires { IsSound self.old }
        ensures entered { OnOk result (store_of self.new ≡ called params.now count (store_of self.old)) }
        ensures sound { IsSound self.new }
    {
        self.set_aside()?;
        self.bind_all(alloc, params, count)?;
        self.drop_parts(count);
        Ok(())
    }

    /// Leaves a function: the locals of its caller are as they were.
    pub(crate) fn leave(&mut self)
        requires { IsSound self.old }
        ensures left { store_of self.new ≡ left (store_of self.old) }
        ensures sound { IsSound self.new }
    {
        self.locals.leave();
    }
}
