//! A process that runs: its variables, and the links that it reads and writes.
ghost use Rattle.std.specs.Prelude.{◌≡◌, ◌<◌, ◌-ℤ◌, pos, length, OnOk};
ghost use Rattle.tis_base.specs.Saturation.{sat};
ghost use Rattle.net_rules.specs.Process.{passes as passes_test};
ghost use Rattle.net_kahn.specs.Links.{ReadsLink, SendsLink};
ghost use Rattle.net_kahn.specs.declared.machine.Stop.TheVariants.{NoMemory as no_memory};
ghost use Rattle.net_kahn.specs.Machines.{AreLinks, Reads, Takes, Sends, Gives, value_of, with_value};

use crate::link::Link;
use net_tree::{Test, Var};
use tis_base::{NoMemory, Value};

/// Why a process doesn't go on.
#[derive(Clone, Copy)]
pub enum Stop {
    /// It waits for a value that doesn't come.
    Waits,
    /// Memory ran out.
    NoMemory,
}

impl From<NoMemory> for Stop {
    ghost from_gives = { λ _ e. e ≡ no_memory };

    fn from(_error: NoMemory) -> Self {
        Stop::NoMemory
    }
}

/// The process with a number, counted from 1, while it runs.
#[derive(Drop)]
pub struct Machine<'a> {
    pub(crate) process: u32,
    pub(crate) x: Value,
    pub(crate) y: Value,
    pub(crate) links: Vec<Link<'a>>,
}

// The next value that a process reads under a name.
fn read(links: &mut [Link], process: u32, name: usize) -> Option<Value>
    requires links { AreLinks process links.old }
    requires within { name < length links.old }
    ensures { Reads process links.old name result links.new }
{
    links[name].read(process)
}

// A process sends a value under a name.
fn send(links: &mut [Link], process: u32, name: usize, value: Value) -> Result<(), NoMemory>
    requires links { AreLinks process links.old }
    requires within { name < length links.old }
    ensures { OnOk result (Sends process links.old name value links.new) }
{
    links[name].send(process, value)
}

/// Whether a value passes a test.
#[inline(always)]
pub(crate) fn passes(test: Test, value: Value) -> bool
    ensures { result ≡ passes_test test value }
{
    let number = value.get();
    match test {
        Test::Zero => number == 0,
        Test::NotZero => number != 0,
        Test::Negative => number < 0,
        Test::Positive => 0 < number,
        Test::NotPositive => number <= 0,
        Test::NotNegative => 0 <= number,
    }
}

/// A value less 1.
#[inline(always)]
pub(crate) fn one_less(value: Value) -> Value
    ensures { result ≡ sat (value -ℤ pos 1) }
{
    Value::clamp(value.get() - 1)
}

impl<'a> Machine<'a> {
    /// The value of a variable.
    #[inline(always)]
    pub(crate) fn value(&self, var: Var) -> Value
        ensures { result ≡ value_of var self.now }
    {
        match var {
            Var::X => self.x,
            Var::Y => self.y,
        }
    }

    /// A value becomes that of a variable.
    #[inline(always)]
    pub(crate) fn set(&mut self, var: Var, value: Value)
        ensures { self.new ≡ with_value var value self.old }
    {
        match var {
            Var::X => self.x = value,
            Var::Y => self.y = value,
        }
    }

    /// Reads the next value under a name.
    #[inline(always)]
    pub(crate) fn take(&mut self, name: u32) -> Result<Value, Stop>
        requires links { AreLinks self.old.process self.old.links.items }
        requires within { name < length self.old.links.items }
        ensures { Takes self.old name result self.new }
    {
        match read(&mut self.links, self.process, name as usize) {
            Some(value) => Ok(value),
            None => Err(Stop::Waits),
        }
    }

    /// Sends a value under a name.
    #[inline(always)]
    pub(crate) fn give(&mut self, name: u32, value: Value) -> Result<(), NoMemory>
        requires links { AreLinks self.old.process self.old.links.items }
        requires within { name < length self.old.links.items }
        ensures { OnOk result (Gives self.old name value self.new) }
    {
        send(&mut self.links, self.process, name as usize, value)
    }
}
