//! Numbers, sums and products, and how they compare.
ghost use Rattle.std.specs.Prelude.{◌≡◌, ◌↔◌, ℕ, ℤ, pos, ◌+ℤ◌, ◌-ℤ◌, ◌*ℤ◌, neg_ℤ, nat_abs, int_lt, IsTrue};
ghost use Rattle.std.specs.Int.{int_min, int_max};
ghost use Rattle.std.specs.Ordering.{int_eq};
ghost use Rattle.lua_machine.specs.Value.{OutOfRange};
ghost use Rattle.lua_machine.specs.Operators.{number};
ghost use Rattle.lua_numbers.specs.Numbers.{IsNumber, number_or};

use std::marker::Model;

/// A whole number from -2^53 to 2^53.
#[derive(Clone, Copy, Debug)]
pub struct LuaNumber {
    pub(crate) number: i64,
}

impl Model for LuaNumber {
    ghost use Rattle.std.specs.Prelude.{ℤ};
    ghost use Rattle.lua_numbers.specs.Numbers.{IsNumber};

    ghost Value = { ℤ };

    ghost view = { λ v. v.number };

    ghost invariant = { λ v. IsNumber v.number };

    ghost inverse = { λ n. record { number = n } };
}

impl LuaNumber {
    /// The greatest number, 2^53. The least is as far from 0.
    pub const GREATEST: u64 = 9_007_199_254_740_992;

    /// This number, unless it is past either end.
    pub fn new(value: i64) -> Option<LuaNumber>
        ensures { (line : ℕ) → number_or (OutOfRange line) result ≡ number line value }
    {
        if value.unsigned_abs() <= Self::GREATEST {
            Some(LuaNumber { number: value })
        } else {
            None
        }
    }

    /// A number as small as this.
    pub fn small(value: u8) -> LuaNumber
        ensures { result ≡ pos value }
    {
        LuaNumber {
            number: value as i64,
        }
    }

    /// The number.
    pub fn get(self) -> i64
        ensures number { result ≡ self }
        ensures held { IsNumber self }
    {
        self.number
    }

    /// The sum, unless it is past either end.
    pub fn plus(self, other: LuaNumber) -> Option<LuaNumber>
        ensures { (line : ℕ) → number_or (OutOfRange line) result ≡ number line (self +ℤ other) }
    {
        LuaNumber::new(self.get() + other.get())
    }

    /// The difference, unless it is past either end.
    pub fn minus(self, other: LuaNumber) -> Option<LuaNumber>
        ensures { (line : ℕ) → number_or (OutOfRange line) result ≡ number line (self -ℤ other) }
    {
        LuaNumber::new(self.get() - other.get())
    }

    /// The product, unless it is past either end.
    pub fn times(self, other: LuaNumber) -> Option<LuaNumber>
        ensures { (line : ℕ) → number_or (OutOfRange line) result ≡ number line (self *ℤ other) }
    {
        match self.get().checked_mul(other.get()) {
            Some(product) => LuaNumber::new(product),
            None => None,
        }
    }

    /// The number on the other side of 0.
    pub fn negated(self) -> LuaNumber
        ensures { result ≡ neg_ℤ self }
    {
        LuaNumber {
            number: -self.get(),
        }
    }

    /// How far it is from 0.
    pub fn distance(self) -> LuaNumber
        ensures { result ≡ pos (nat_abs self) }
    {
        LuaNumber {
            number: self.get().abs(),
        }
    }

    /// Whether it is less than the other.
    pub fn is_less(self, other: LuaNumber) -> bool
        ensures { result ≡ int_lt self other }
    {
        self.get() < other.get()
    }

    /// Whether both are the same.
    pub fn is_same(self, other: LuaNumber) -> bool
        ensures { result ≡ int_eq self other }
    {
        self.get() == other.get()
    }

    /// The lesser of both.
    pub fn lesser(self, other: LuaNumber) -> LuaNumber
        ensures { result ≡ int_min self other }
    {
        LuaNumber {
            number: self.get().min(other.get()),
        }
    }

    /// The greater of both.
    pub fn greater(self, other: LuaNumber) -> LuaNumber
        ensures { result ≡ int_max self other }
    {
        LuaNumber {
            number: self.get().max(other.get()),
        }
    }
}
