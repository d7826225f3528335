//! A machine of frames that takes the turns of Lua.
//!
//! A [`Machine`] has the frames of all that waits, the state of an evaluation (`lua_state`), how many calls are open, and the
//! [`Units`] that are paid; a [`Control`] says where it is. Contracts see both as a configuration of
//! `lua_machine/specs/Machine.antt`: `machine_of` of `specs/Machines.antt`. [`Machine::turn`] does what a turn of that machine does, or
//! several of them (`Arrives` of `specs/Steps.antt`): it comes to the next configuration, or to the end, or to the fault with its line, or it
//! says that the budget is spent, and then these turns have paid more than 500,000 units.
//!
//! ```text
//! let functions = FunctionTable::new(alloc, items)?;
//! let mut machine = Machine::new(alloc, seed)?;
//! let mut control = machine.assign_items(alloc, main, items)?;
//! while let Step::Next(next) = machine.turn(alloc, &functions, main, control)? {
//!     control = next;
//! }
//! ```
//!
//! There is one function for each case of the definition of a turn. Half of them begin a node ([`Machine::evaluate`] and
//! [`Machine::execute`]): they pay its unit, and leave a frame for what they evaluate first. The others go on with a frame
//! (`resuming.rt` with a value, `ways.rt` with a way out of a statement, `looping.rt` with the turns of a `for`), and make
//! something of the values of parts (`making.rt`, `storing.rt`). A frame that waits for a value is given nil where none comes back, as
//! the definition has it, which is never so in turns from the start.
//!
//! A [`Frame`] is copied: it holds references into the tree and counts, and the values of its parts, the locals of a caller and
//! the bounds of a loop wait beside it in the state. A turn takes memory for a frame or two at most, and for what `lua_state` takes.
//! A [`FunctionTable`] has the functions of the chunk by the hashes of their names: it is made once, with an entry for each name, and a call then
//! takes one look-up, however many functions there are.
//!
//! Most expressions and statements wait for nothing, and their turns are taken where they stand, with no turn of this machine and no frame. A numeral, a name, nil or a truth value
//! is put (`simple.rt`); an operator but for `and` and `or`, an index, and a call of `math` evaluate their parts in turn (`values.rt`, `math_values.rt`), up to a depth of sixteen; a
//! declaration, an assignment, a value that is stored at a key, a `return` with a value and an `if` are executed (`executing.rt`), with blocks in them up to a depth of eight. What lies deeper,
//! each call of a function of the chunk, and every other kind of node is left to turns, so no text makes the program's stack grow. Where something is left to a turn, the frames
//! of all that it is a part of become pending on the way out, innermost first, and are put above the others then (`passing.rt`). An answer of these calls is a byte ([`Machine::at`] and
//! [`Machine::fault`] have the rest), and no more than a store to it and a test are paid for it. A `for` whose body is executed where it stands takes its turns in a loop (`looping.rt`).
#![tactic(auto)]

mod beginning;
mod blocks;
mod control;
mod entries;
mod executing;
mod expressions;
mod frame;
mod function_table;
mod functions;
mod items;
mod looping;
mod machine;
mod making;
mod math_values;
mod outcome;
mod parts;
mod passing;
mod quotient;
mod resuming;
mod simple;
mod statements;
mod storing;
mod turns;
mod units;
mod valued;
mod values;
mod ways;

pub use control::Control;
pub use frame::{Frame, Making};
pub use function_table::FunctionTable;
pub use functions::Function;
pub use items::Assignment;
pub use machine::Machine;
pub use parts::Parts;
pub use turns::Step;
pub use units::Units;
pub use ways::{Way, take_back};
