//! How turns are taken, up to the end.
ghost use Rattle.std.specs.Prelude.{◌≡◌, ◌≤◌};
ghost use Rattle.lua_machine.specs.Answer.{most_units};
ghost use Rattle.lua_machine.specs.Machine.{Next, Turned};
ghost use Rattle.lua_machine.specs.Tree.{items_of};
ghost use Rattle.lua_machine.specs.Turn.{assigning, begins, finished_by};
ghost use Rattle.lua_frames.specs.Machines.{machine_of, state_in, store_in};
ghost use Rattle.lua_frames.specs.Parts.{function_in};
ghost use Rattle.lua_frames.specs.Ways.{way_in};
ghost use Rattle.lua_call.specs.Running.{Came, CameToTheEnd, Ends, Gives, PaysOn, TurnsGive};

use crate::calling::Called;
use lua_frames::{Control, Function, FunctionTable, Machine, Step, Way, take_back};
use lua_machine::LuaError;
use lua_machine::laws::turns_yield;
use std::alloc::Global;

// Turns up to the first that pays a unit, or up to the end.
fn run_until_paid<'a>(
    machine: &mut Machine<'a>,
    alloc: Global,
    functions: &FunctionTable<'a>,
    main: Function<'a>,
    start: Control<'a>,
) -> Result<Step<'a>, LuaError>
    ensures came { Came (items_of functions.now) (function_in main.entry) (Next (machine_of start.entry machine.old)) result machine.new }
    ensures pays { PaysOn result machine.old.units machine.new.units }
{
    turns_yield();
    let before = machine.units.spent();
    let mut control = start;
    'unpaid: loop {
        match machine.turn(alloc, functions, main, control) {
            Ok(Step::Next(next)) => {
                if machine.units.spent() > before {
                    return Ok(Step::Next(next));
                }
                control = next;
            }
            Ok(Step::Ended(way)) => return Ok(Step::Ended(way)),
            Err(why) => return Err(why),
        }
    }
}

// Turns up to the end.
fn run<'a>(
    machine: &mut Machine<'a>,
    alloc: Global,
    functions: &FunctionTable<'a>,
    main: Function<'a>,
    start: Control<'a>,
) -> Result<Way, LuaError>
    ensures { CameToTheEnd (items_of functions.now) (function_in main.entry) (Next (machine_of start.entry machine.old)) result machine.new }
{
    let mut control = start;
    'turns: loop {
        match run_until_paid(machine, alloc, functions, main, control) {
            Ok(Step::Next(next)) => control = next,
            Ok(Step::Ended(way)) => return Ok(way),
            Err(why) => return Err(why),
        }
    }
}

// The value that comes back at the end, made plain.
fn give(machine: &mut Machine<'_>, alloc: Global, way: Way) -> Result<Called, LuaError>
    ensures { Gives result (finished_by (way_in way (store_in machine.old)) (state_in machine.old) machine.old.units) }
{
    take_back(&mut machine.state, way)?;
    let mut left = 500_000 - machine.units.spent();
    match machine.state.take_plain(alloc, &mut left) {
        Ok(value) => Ok(Called {
            value,
            cost: 500_000 - left,
        }),
        Err(why) => Err(why),
    }
}

// The value that comes back at the end, or why there is none.
fn give_or_halt(
    machine: &mut Machine<'_>,
    alloc: Global,
    way: Result<Way, LuaError>,
) -> Result<Called, LuaError>
    ensures { (wanted : Turned) → Ends way machine.old wanted → Gives result wanted }
{
    let _spent = machine.units.spent();
    match way {
        Ok(way) => give(machine, alloc, way),
        Err(why) => Err(why),
    }
}

// Turns from the first items on, up to the end.
fn run_items<'a>(
    machine: &mut Machine<'a>,
    alloc: Global,
    functions: &FunctionTable<'a>,
    main: Function<'a>,
) -> Result<Way, LuaError>
    ensures { CameToTheEnd (items_of functions.now) (function_in main.entry) (assigning (function_in main.entry) (items_of functions.now) (state_in machine.old) machine.old.units) result machine.new }
{
    match machine.assign_items(alloc, main, functions.items()) {
        Ok(start) => run(machine, alloc, functions, main, start),
        Err(why) => Err(why),
    }
}

// Turns of a machine that has done nothing yet.
fn run_machine<'a>(
    mut machine: Machine<'a>,
    alloc: Global,
    functions: &FunctionTable<'a>,
    main: Function<'a>,
) -> Result<Called, LuaError>
    ensures { TurnsGive (items_of functions.now) (function_in main.entry) (assigning (function_in main.entry) (items_of functions.now) (state_in machine.entry) machine.entry.units) result }
{
    let way = run_items(&mut machine, alloc, functions, main);
    give_or_halt(&mut machine, alloc, way)
}

/// Calls a function of a chunk, by turns of the machine.
pub(crate) fn run_call<'a>(
    alloc: Global,
    functions: &FunctionTable<'a>,
    main: Function<'a>,
    seed: u64,
) -> Result<Called, LuaError>
    ensures { TurnsGive (items_of functions.now) (function_in main.entry) (begins (items_of functions.now) (function_in main.entry) seed) result }
{
    match Machine::new(alloc, seed) {
        Ok(machine) => run_machine(machine, alloc, functions, main),
        Err(_) => Err(LuaError::NoMemory),
    }
}
