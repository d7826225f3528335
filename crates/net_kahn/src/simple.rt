//! What statements without blocks do.
ghost use Rattle.std.specs.Prelude.{◌≡◌, ◌<◌, length};
ghost use Rattle.net_tree.specs.Tree.{Get, GetAdd, GetSub, Put, PutNumber, Move, Set, Add, Sub, Neg, Double, Copy, Swap};
ghost use Rattle.net_rules.specs.Process.{exec_statement};
ghost use Rattle.net_kahn.specs.Machines.{IsReady, Did};

use crate::machine::{Machine, Stop};
use net_tree::Var;
use tis_base::Value;

// Reads a value into a variable.
#[inline(always)]
pub(crate) fn get(machine: &mut Machine, name: u32, var: Var) -> Result<(), Stop>
    requires ready { IsReady machine.old }
    requires within { name < length machine.old.links.items }
    ensures { Did (exec_statement (Get name var)) machine.old result machine.new }
{
    let value = machine.take(name)?;
    machine.set(var, value);
    Ok(())
}

// Reads a value and adds it to a variable.
#[inline(always)]
pub(crate) fn get_add(machine: &mut Machine, name: u32, var: Var) -> Result<(), Stop>
    requires ready { IsReady machine.old }
    requires within { name < length machine.old.links.items }
    ensures { Did (exec_statement (GetAdd name var)) machine.old result machine.new }
{
    let value = machine.take(name)?;
    let sum = machine.value(var).add(value);
    machine.set(var, sum);
    Ok(())
}

// Reads a value and subtracts it from a variable.
#[inline(always)]
pub(crate) fn get_sub(machine: &mut Machine, name: u32, var: Var) -> Result<(), Stop>
    requires ready { IsReady machine.old }
    requires within { name < length machine.old.links.items }
    ensures { Did (exec_statement (GetSub name var)) machine.old result machine.new }
{
    let value = machine.take(name)?;
    let difference = machine.value(var).sub(value);
    machine.set(var, difference);
    Ok(())
}

// Sends the value of a variable.
#[inline(always)]
pub(crate) fn put(machine: &mut Machine, name: u32, var: Var) -> Result<(), Stop>
    requires ready { IsReady machine.old }
    requires within { name < length machine.old.links.items }
    ensures { Did (exec_statement (Put name var)) machine.old result machine.new }
{
    let value = machine.value(var);
    machine.give(name, value)?;
    Ok(())
}

// Sends a number.
#[inline(always)]
pub(crate) fn put_number(machine: &mut Machine, name: u32, number: Value) -> Result<(), Stop>
    requires ready { IsReady machine.old }
    requires within { name < length machine.old.links.items }
    ensures { Did (exec_statement (PutNumber name number)) machine.old result machine.new }
{
    machine.give(name, number)?;
    Ok(())
}

// Reads a value and sends it on.
#[inline(always)]
pub(crate) fn pass(machine: &mut Machine, name: u32, written: u32) -> Result<(), Stop>
    requires ready { IsReady machine.old }
    requires within { name < length machine.old.links.items }
    requires written_within { written < length machine.old.links.items }
    ensures { Did (exec_statement (Move name written)) machine.old result machine.new }
{
    let value = machine.take(name)?;
    machine.give(written, value)?;
    Ok(())
}

// A number becomes the value of a variable.
#[inline(always)]
pub(crate) fn set(machine: &mut Machine, var: Var, number: Value) -> Result<(), Stop>
    requires ready { IsReady machine.old }
    ensures { Did (exec_statement (Set var number)) machine.old result machine.new }
{
    machine.set(var, number);
    Ok(())
}

// Adds a number to a variable.
#[inline(always)]
pub(crate) fn add(machine: &mut Machine, var: Var, number: Value) -> Result<(), Stop>
    requires ready { IsReady machine.old }
    ensures { Did (exec_statement (Add var number)) machine.old result machine.new }
{
    let sum = machine.value(var).add(number);
    machine.set(var, sum);
    Ok(())
}

// Subtracts a number from a variable.
#[inline(always)]
pub(crate) fn sub(machine: &mut Machine, var: Var, number: Value) -> Result<(), Stop>
    requires ready { IsReady machine.old }
    ensures { Did (exec_statement (Sub var number)) machine.old result machine.new }
{
    let difference = machine.value(var).sub(number);
    machine.set(var, difference);
    Ok(())
}

// Turns the sign of a variable.
#[inline(always)]
pub(crate) fn neg(machine: &mut Machine, var: Var) -> Result<(), Stop>
    requires ready { IsReady machine.old }
    ensures { Did (exec_statement (Neg var)) machine.old result machine.new }
{
    let other = machine.value(var).neg();
    machine.set(var, other);
    Ok(())
}

// Adds a variable to itself.
#[inline(always)]
pub(crate) fn double(machine: &mut Machine, var: Var) -> Result<(), Stop>
    requires ready { IsReady machine.old }
    ensures { Did (exec_statement (Double var)) machine.old result machine.new }
{
    let value = machine.value(var);
    machine.set(var, value.add(value));
    Ok(())
}

// A variable gets the value of another.
#[inline(always)]
pub(crate) fn copy(machine: &mut Machine, to: Var, from: Var) -> Result<(), Stop>
    requires ready { IsReady machine.old }
    ensures { Did (exec_statement (Copy to from)) machine.old result machine.new }
{
    let value = machine.value(from);
    machine.set(to, value);
    Ok(())
}

// The variables exchange their values.
#[inline(always)]
pub(crate) fn swap(machine: &mut Machine) -> Result<(), Stop>
    requires ready { IsReady machine.old }
    ensures { Did (exec_statement Swap) machine.old result machine.new }
{
    let x = machine.x;
    machine.x = machine.y;
    machine.y = x;
    Ok(())
}
