//! Values and keys, small and copied.
ghost use Rattle.std.specs.Prelude.{◌≡◌, true, false, MatchOption, IfSome};
ghost use Rattle.lua_machine.specs.Value.{is_key, is_nil, is_same};
ghost use Rattle.lua_store.specs.Values.{AreApart, IsHeld, IsHeldKey, Texts, as_key, meant, meant_key};

use lua_numbers::LuaNumber;

/// A value of Lua. A text is its place among the texts that are held, and a table the number of its row.
#[derive(Clone, Copy, Debug)]
pub enum SmallValue {
    Nil,
    Truth(bool),
    Number(LuaNumber),
    Text(usize),
    Table(usize),
}

/// A value that a table can have a value at.
#[derive(Clone, Copy, Debug, PartialEq, Eq, Hash)]
pub enum Key {
    Truth(bool),
    Number(i64),
    Text(usize),
}

impl SmallValue {
    /// This value as a key, where it is one.
    pub fn as_key(self) -> Option<Key>
        ensures exact { result ≡ as_key self }
        ensures value { (texts : Texts) → MatchOption result (is_key (meant texts self) ≡ false) (λ key. (is_key (meant texts self) ≡ true) × (meant_key texts key ≡ meant texts self)) }
        ensures held { (texts : Texts) → IsHeld texts self → IfSome result (λ key. IsHeldKey texts key) }
    {
        match self {
            SmallValue::Truth(truth) => Some(Key::Truth(truth)),
            SmallValue::Number(number) => Some(Key::Number(number.get())),
            SmallValue::Text(at) => Some(Key::Text(at)),
            SmallValue::Nil | SmallValue::Table(_) => None,
        }
    }

    /// Whether it is nil.
    pub fn is_nil(self) -> bool
        ensures { (texts : Texts) → result ≡ is_nil (meant texts self) }
    {
        matches!(self, SmallValue::Nil)
    }

    /// Whether both are the same value of Lua. No text is looked at.
    pub fn is_same(self, other: SmallValue) -> bool
        ensures { (texts : Texts) → AreApart texts → IsHeld texts self → IsHeld texts other → result ≡ is_same (meant texts self) (meant texts other) }
    {
        match self {
            SmallValue::Nil => matches!(other, SmallValue::Nil),
            SmallValue::Truth(a) => matches!(other, SmallValue::Truth(b) if a == b),
            SmallValue::Number(a) => matches!(other, SmallValue::Number(b) if a.is_same(b)),
            SmallValue::Text(a) => matches!(other, SmallValue::Text(b) if a == b),
            SmallValue::Table(a) => matches!(other, SmallValue::Table(b) if a == b),
        }
    }
}
