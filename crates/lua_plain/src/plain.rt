//! Values without tables.
ghost use Rattle.std.specs.Prelude.{◌≡◌, ◌<◌, Some, OnOk, OnErr, length, map, slice_get, option_map};
ghost use Rattle.lua_machine.specs.Answer.{no_values};
ghost use Rattle.lua_plain.specs.Plain.{is_text, list_in, number_in, plain_view, plains_view, values_of, with_last};

use lua_tree::Text;
use sqlite_items::Items;
use std::alloc::Global;
use tis_base::NoMemory;

/// A value of Lua without tables.
#[cycle(tree)]
#[derive(Drop)]
pub enum Plain {
    /// No value.
    Nil,
    /// A truth value.
    Truth(bool),
    /// A whole number, from -2^53 to 2^53 where a call gives it.
    Number(i64),
    /// A text.
    Text(Text),
    /// A table, as the values at 1, 2 and so on, before the first that isn't there.
    List(Plains),
    /// A table inside of four others.
    Deep,
}

/// Plain values in order.
#[cycle(tree)]
#[derive(Drop)]
pub struct Plains {
    pub(crate) values: Items<Plain>,
}

impl Plain {
    /// The number, where it is one.
    pub fn as_number(&self) -> Option<i64>
        ensures { result ≡ number_in (plain_view self.now) }
    {
        match self {
            Plain::Number(number) => Some(*number),
            _ => None,
        }
    }

    /// Whether it is a text.
    pub fn is_text(&self) -> bool
        ensures { result ≡ is_text (plain_view self.now) }
    {
        matches!(self, Plain::Text(_))
    }

    /// The values, where it is a list that isn't too deep.
    pub fn as_list(&self) -> Option<&Plains>
        ensures { option_map (λ list. values_of (plains_view list.now)) result ≡ list_in (plain_view self.now) }
    {
        match self {
            Plain::List(list) => Some(list),
            _ => None,
        }
    }
}

impl Plains {
    /// No values. It takes no memory.
    pub fn new(alloc: Global) -> Plains
        ensures { plains_view result ≡ no_values }
    {
        Plains {
            values: Items::new(alloc),
        }
    }

    /// One more value at the end. Want of memory leaves the list as it was, and drops the value.
    pub fn push(&mut self, value: Plain) -> Result<(), NoMemory>
        ensures ok { OnOk result (plains_view self.new ≡ with_last (plains_view self.old) (plain_view value)) }
        ensures err { OnErr result (plains_view self.new ≡ plains_view self.old) }
    {
        self.values.push(value)?;
        Ok(())
    }

    /// How many values there are.
    pub fn len(&self) -> usize
        ensures { result ≡ length (values_of (plains_view self.now)) }
    {
        self.values.len()
    }

    /// The values, in order.
    pub fn as_slice(&self) -> &[Plain]
        ensures { map plain_view result.now ≡ values_of (plains_view self.now) }
    {
        self.values.as_slice()
    }

    /// The value at an index from 0 on.
    pub fn at(&self, index: usize) -> &Plain
        requires { index < length (values_of (plains_view self.now)) }
        ensures { slice_get (values_of (plains_view self.now)) index ≡ Some (plain_view result.now) }
    {
        &self.values.as_slice()[index]
    }
}
