//! Laws of what chunks compute.
ghost use Rattle.lua_machine.specs.Answer.{CallsComeToSomething, YieldsOnce};
ghost use Rattle.lua_machine.specs.Turn.{SpentTurnsRunOut, TurnsPay, TurnsYield};

/// A call of a function of a chunk gives one answer at most, at one cost.
pub fn yields_once()
    ensures { YieldsOnce }
{}

/// A call of a function of a chunk gives an answer within the units that may be paid, or it runs out.
pub fn calls_come_to_something()
    ensures { CallsComeToSomething }
{}

/// The turns of the machine come to what a call of a function of a chunk gives, and to nothing else, and its units
/// are those of the call. They come to pay more units than may be paid exactly where the call gives nothing within those;
/// and each turn pays a unit, or leaves fewer turns that may come before the next one is paid.
pub fn turns_yield()
    ensures answers { TurnsYield }
    ensures budget { SpentTurnsRunOut }
    ensures progress { TurnsPay }
{}
