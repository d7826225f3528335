//! The numbers that the machine holds.
ghost use Rattle.std.specs.Prelude.{◌≡◌, ◌↔◌, ◌+ℤ◌, ◌-ℤ◌, neg_ℤ, IsSome, IfSome, IsTrue, pos};
ghost use Rattle.tis_base.specs.Saturation.{sat, IsValue};

use std::marker::Model;

/// A number from -999 to 999, the range of the TIS-100's registers and ports.
#[derive(Clone, Copy, Debug, PartialEq, Eq, Hash, PartialOrd, Ord)]
pub struct Value {
    number: i16,
}

impl Model for Value {
    ghost use Rattle.std.specs.Prelude.{ℤ};
    ghost use Rattle.tis_base.specs.Saturation.{IsValue};

    ghost Value = { ℤ };

    ghost view = { λ v. v.number };

    ghost invariant = { λ v. IsValue v.number };

    ghost inverse = { λ n. record { number = n } };
}

impl Value {
    /// The least value.
    pub const LEAST: i64 = -999;

    /// The greatest value.
    pub const GREATEST: i64 = 999;

    /// The value that is this number, or None where the number is outside of the range.
    pub fn new(number: i64) -> Option<Value>
        ensures held { IsSome result ↔ IsValue number }
        ensures value { IfSome result (λ v. v ≡ number) }
    {
        if number < Self::LEAST || Self::GREATEST < number {
            return None;
        }
        Some(Value {
            number: number as i16,
        })
    }

    /// The value that is nearest to this number.
    pub fn clamp(number: i64) -> Value
        ensures { result ≡ sat number }
    {
        Value {
            number: number.clamp(Self::LEAST, Self::GREATEST) as i16,
        }
    }

    /// The number.
    pub fn get(self) -> i64
        ensures number { result ≡ self }
        ensures held { IsValue self }
    {
        i64::from(self.number)
    }

    /// The sum, held at the ends of the range.
    pub fn add(self, other: Value) -> Value
        ensures { result ≡ sat (self +ℤ other) }
    {
        Value::clamp(self.get() + other.get())
    }

    /// What is left of it when the other is taken away, held at the ends of the range.
    pub fn sub(self, other: Value) -> Value
        ensures { result ≡ sat (self -ℤ other) }
    {
        Value::clamp(self.get() - other.get())
    }

    /// The value on the other side of 0. The range is as wide on both sides, so that it is never
    /// held at an end.
    pub fn neg(self) -> Value
        ensures value { result ≡ sat (neg_ℤ self) }
        ensures exact { result ≡ neg_ℤ self }
    {
        Value::clamp(-self.get())
    }

    /// Whether it is this number.
    pub(crate) fn is(self, number: u64) -> bool
        ensures { IsTrue result ↔ (self ≡ pos number) }
    {
        0 <= self.number && u64::from(self.number.unsigned_abs()) == number
    }
}

impl Default for Value {
    ghost use Rattle.std.specs.Prelude.{◌≡◌, pos};

    ghost is_default = { λ value. value ≡ pos 0 };

    /// The number 0.
    fn default() -> Self {
        Value { number: 0 }
    }
}
