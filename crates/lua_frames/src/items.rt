//! How the items of a chunk are gone through.
ghost use Rattle.std.specs.Prelude.{◌≡◌, []};
ghost use Rattle.std.specs.Option.{option_map};
ghost use Rattle.lua_machine.specs.State.{entered};
ghost use Rattle.lua_machine.specs.Tree.{block_of, items_of};
ghost use Rattle.lua_machine.specs.Turn.{assigning, running};
ghost use Rattle.lua_frames.specs.Assignments.{assignment_in, first_assignment};
ghost use Rattle.lua_frames.specs.Machines.{state_in};
ghost use Rattle.lua_frames.specs.Parts.{function_in};
ghost use Rattle.lua_frames.specs.Turns.{Turns};

use crate::control::Control;
use crate::frame::{Frame, push_frame};
use crate::functions::Function;
use crate::machine::Machine;
use lua_machine::LuaError;
use lua_tree::{Expr, Item};
use std::alloc::Global;

/// An assignment of a chunk, and the items behind it.
#[derive(Clone, Copy)]
pub struct Assignment<'a> {
    pub name: &'a [u8],
    pub value: &'a Expr,
    pub others: &'a [Item],
}

// The first assignment among items.
fn first_assignment<'a>(items: &'a [Item]) -> Option<Assignment<'a>>
    ensures { option_map assignment_in result ≡ first_assignment (items_of items.now) }
{
    let mut left = items;
    while let Some((item, others)) = left.split_first() {
        if let Item::Assign { name, value } = item {
            return Some(Assignment {
                name: name.bytes(),
                value,
                others,
            });
        }
        left = others;
    }
    None
}

impl<'a> Machine<'a> {
    // Enters the function that was called, behind the assignments.
    fn enter_main(&mut self, alloc: Global, main: Function<'a>) -> Result<Control<'a>, LuaError>
        requires { self.old.frames.items ≡ [] }
        ensures { Turns result self.new (running (block_of main.entry.body.now) [] 1 (entered main.entry.params.now [] (state_in self.old)) self.old.units) }
    {
        self.state.enter(alloc, main.params, 0)?;
        self.calls = 1;
        self.run(main.body)
    }

    /// Begins the next assignment of a chunk, or the function that was called, where none is left.
    #[inline(never)]
    pub fn assign_items(
        &mut self,
        alloc: Global,
        main: Function<'a>,
        items: &'a [Item],
    ) -> Result<Control<'a>, LuaError>
        ensures { Turns result self.new (assigning (function_in main.entry) (items_of items.now) (state_in self.old) self.old.units) }
    {
        self.frames.clear();
        match first_assignment(items) {
            Some(next) => {
                self.calls = 0;
                push_frame(&mut self.frames, Frame::Items(next.others))?;
                Ok(Control::Assign(next.name, next.value))
            }
            None => self.enter_main(alloc, main),
        }
    }
}
