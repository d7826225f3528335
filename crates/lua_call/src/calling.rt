//! A call of a function of a chunk.
ghost use Rattle.std.specs.Prelude.{IsTrue, IfOk, IfErr, Ok};
ghost use Rattle.lua_tree.specs.Defines.{defines};
ghost use Rattle.lua_machine.specs.Tree.{items_of};
ghost use Rattle.lua_machine.specs.Answer.{Answers};
ghost use Rattle.lua_plain.specs.Plain.{plain_view};
ghost use Rattle.lua_call.specs.Calls.{Fails};

use crate::laws::defined_is_found;
use crate::running::run_call;
use lua_frames::FunctionTable;
use lua_machine::LuaError;
use lua_machine::laws::turns_yield;
use lua_plain::Plain;
use lua_tree::Chunk;
use std::alloc::Global;

/// What a call gives.
#[derive(Drop)]
pub struct Called {
    /// The value, made plain.
    pub value: Plain,
    /// The units that were paid for all of it.
    pub cost: u64,
}

/// Calls the function of a name without arguments, with fresh globals behind the assignments of the chunk, and with a generator of
/// words by the seed. A fault names its line, and `Budget` says that more than 500,000 units would have to be paid.
pub fn call(alloc: Global, chunk: &Chunk, name: &[u8], seed: u64) -> Result<Called, LuaError>
    requires { IsTrue (defines name.now chunk.now) }
    ensures given { IfOk result (λ called. Answers (items_of chunk.now) name.now seed (Ok (plain_view called.value)) called.cost) }
    ensures fails { IfErr result (λ why. Fails why (items_of chunk.now) name.now seed) }
{
    turns_yield();
    defined_is_found();
    let functions = FunctionTable::new(alloc, chunk.items())?;
    match functions.find(name) {
        Some(main) => run_call(alloc, &functions, main, seed),
        None => unreachable!(),
    }
}
