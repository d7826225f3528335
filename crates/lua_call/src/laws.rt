//! Laws of calls.
ghost use Rattle.lua_call.specs.Calls.{DefinedIsFound};

/// A chunk defines a name exactly where a function is found under it.
pub fn defined_is_found()
    ensures { DefinedIsFound }
{}
