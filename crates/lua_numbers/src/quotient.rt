//! Quotients, what is left over, and numbers that a word chooses.
ghost use Rattle.std.specs.Prelude.{◌≡◌, ◌≢◌, ℕ, ℤ, pos, ◌<ℤ◌, ◌≤ℤ◌, ◌*◌, ◌/◌, ◌^◌, ◌<◌, ◌≤◌};
ghost use Rattle.std.specs.Int.{int_div_euclid, int_rem_euclid};
ghost use Rattle.lua_machine.specs.Value.{Inexact, Number};
ghost use Rattle.lua_machine.specs.Operators.{floor_of, left_over, quotient, remainder, floor_of_quotient};
ghost use Rattle.lua_machine.specs.Library.{chosen};
ghost use Rattle.lua_numbers.specs.Numbers.{number_or};

use crate::number::LuaNumber;

impl LuaNumber {
    /// The exact quotient; none by 0, and none where it isn't whole.
    pub fn over(self, other: LuaNumber) -> Option<LuaNumber>
        ensures { (line : ℕ) → number_or (Inexact line) result ≡ quotient line self other }
    {
        if other.get() == 0 {
            return None;
        }
        if left(self, other).get() == 0 {
            Some(floor(self, other))
        } else {
            None
        }
    }

    /// The greatest number that isn't above the quotient; none by 0.
    pub fn floor_over(self, other: LuaNumber) -> Option<LuaNumber>
        ensures { (line : ℕ) → number_or (Inexact line) result ≡ floor_of_quotient line (Number self) (Number other) }
    {
        if other.get() == 0 {
            None
        } else {
            Some(floor(self, other))
        }
    }

    /// What is left over, with the sign of the other; none by 0.
    pub fn modulo(self, other: LuaNumber) -> Option<LuaNumber>
        ensures { (line : ℕ) → number_or (Inexact line) result ≡ remainder line self other }
    {
        if other.get() == 0 {
            None
        } else {
            Some(left(self, other))
        }
    }

    /// The number that a random word chooses from this one to the last.
    pub fn choose(self, last: LuaNumber, word: u32) -> LuaNumber
        requires { self ≤ℤ last }
        ensures { result ≡ chosen word self last }
    {
        let count = (last.get() - self.get() + 1).unsigned_abs();
        LuaNumber {
            number: self.get() + share(word, count) as i64,
        }
    }
}

// The share of so many that a word is of 2^32.
fn share(word: u32, count: u64) -> u64
    ensures exact { result ≡ word * count / 2 ^ 32 }
    ensures less { result ≤ count }
    ensures inside { 0 < count → result < count }
{
    (u128::from(word) * u128::from(count) / 4_294_967_296) as u64
}

// The greatest number that isn't above the quotient.
fn floor(dividend: LuaNumber, divisor: LuaNumber) -> LuaNumber
    requires { divisor ≢ pos 0 }
    ensures { result ≡ floor_of dividend divisor }
{
    if divisor.get() < 0 {
        floor_by_positive(dividend.negated(), divisor.negated())
    } else {
        floor_by_positive(dividend, divisor)
    }
}

// What is left over, with the divisor's sign.
fn left(dividend: LuaNumber, divisor: LuaNumber) -> LuaNumber
    requires { divisor ≢ pos 0 }
    ensures { result ≡ left_over dividend divisor }
{
    if divisor.get() < 0 {
        left_by_positive(dividend.negated(), divisor.negated()).negated()
    } else {
        left_by_positive(dividend, divisor)
    }
}

fn floor_by_positive(dividend: LuaNumber, divisor: LuaNumber) -> LuaNumber
    requires { pos 0 <ℤ divisor }
    ensures { result ≡ int_div_euclid dividend divisor }
{
    LuaNumber {
        number: dividend.get().div_euclid(divisor.get()),
    }
}

fn left_by_positive(dividend: LuaNumber, divisor: LuaNumber) -> LuaNumber
    requires { pos 0 <ℤ divisor }
    ensures { result ≡ int_rem_euclid dividend divisor }
{
    LuaNumber {
        number: dividend.get().rem_euclid(divisor.get()),
    }
}
