//! The units that are paid.
ghost use Rattle.std.specs.Prelude.{◌≡◌, ◌+◌, ◌<◌, ◌≤◌, OnOk, OnErr};
ghost use Rattle.lua_machine.specs.Answer.{most_units};
ghost use Rattle.lua_frames.specs.Units.{Spends, SpendsAll};

use lua_machine::LuaError;
use std::marker::Model;

/// At most 500,000.
#[derive(Clone, Copy, Debug)]
pub struct Units {
    spent: u64,
}

impl Model for Units {
    ghost use Rattle.std.specs.Prelude.{ℕ, ◌≤◌};

    ghost Value = { ℕ };

    ghost view = { λ u. u.spent };

    ghost invariant = { λ u. u.spent ≤ 500000 };

    ghost inverse = { λ n. record { spent = n } };
}

impl Units {
    /// None.
    pub fn new() -> Units
        ensures { result ≡ 0 }
    {
        Units { spent: 0 }
    }

    /// One more.
    pub fn pay(&mut self) -> Result<(), LuaError>
        ensures { Spends result self.old self.new }
    {
        if self.spent >= 500_000 {
            return Err(LuaError::Budget);
        }
        self.spent += 1;
        Ok(())
    }

    /// So many more.
    pub fn pay_all(&mut self, count: u64) -> Result<(), LuaError>
        ensures { SpendsAll result count self.old self.new }
    {
        if count > 500_000 - self.spent {
            return Err(LuaError::Budget);
        }
        self.spent += count;
        Ok(())
    }

    /// How many they are.
    pub fn spent(&self) -> u64
        ensures exact { result ≡ self.now }
        ensures most { result ≤ most_units }
    {
        self.spent
    }
}
