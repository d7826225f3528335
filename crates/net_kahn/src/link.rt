//! The values under one name, and how far a process is with them.
ghost use Rattle.std.specs.Prelude.{◌≡◌, All, OnOk};
ghost use Rattle.tis_base.specs.Saturation.{IsValue};
ghost use Rattle.net_kahn.specs.Links.{IsLink, IsSameLink, ReadsLink, SendsLink, given_in, given_of, list_of};

use std::alloc::Global;
use tis_base::{NoMemory, Value, Values};

/// The values that come in under a name and those that were sent on it, and how far the process that used them last
/// has read. A process opens a link where it first uses it: what is sent after that it doesn't read.
#[derive(Drop)]
pub struct Link<'a> {
    pub(crate) given: Option<&'a Values>,
    pub(crate) sent: Values,
    pub(crate) user: u32,
    pub(crate) taken: usize,
    pub(crate) next: usize,
    pub(crate) limit: usize,
}

// What comes in, which are values of the machine.
fn held(given: Option<&Values>) -> Option<&Values>
    ensures same { result ≡ given.entry }
    ensures held { All IsValue (given_in given.entry) }
{
    match given {
        Some(values) => {
            values.len();
            Some(values)
        }
        None => None,
    }
}

impl<'a> Link<'a> {
    /// A link that no process has used, over what comes in.
    pub(crate) fn new(alloc: Global, given: Option<&'a Values>) -> Link<'a>
        ensures link { IsLink 0 result }
        ensures list { list_of result ≡ given_in given.entry }
        ensures given { given_of result ≡ given_in given.entry }
    {
        let given = held(given);
        Link {
            given,
            sent: Values::new(alloc),
            user: 0,
            taken: 0,
            next: 0,
            limit: 0,
        }
    }

    // The process begins to use the link, where it hasn't yet.
    fn open(&mut self, process: u32)
        requires { IsLink process self.old }
        ensures opened { self.new.user ≡ process }
        ensures same { IsSameLink process self.old self.new }
    {
        if self.user != process {
            self.user = process;
            self.taken = 0;
            self.next = 0;
            self.limit = self.sent.len();
        }
    }

    /// The next value that the process reads, or None where there is none.
    #[inline(always)]
    pub(crate) fn read(&mut self, process: u32) -> Option<Value>
        requires { IsLink process self.old }
        ensures { ReadsLink process self.old result self.new }
    {
        self.open(process);
        if let Some(given) = self.given {
            if self.taken < given.len() {
                let value = given.at(self.taken);
                self.taken += 1;
                return Some(value);
            }
        }
        if self.next < self.limit {
            let value = self.sent.at(self.next);
            self.next += 1;
            return Some(value);
        }
        None
    }

    /// The process sends a value on the link.
    #[inline(always)]
    pub(crate) fn send(&mut self, process: u32, value: Value) -> Result<(), NoMemory>
        requires { IsLink process self.old }
        ensures { OnOk result (SendsLink process self.old value self.new) }
    {
        value.get();
        self.open(process);
        self.sent.push(value)
    }
}
