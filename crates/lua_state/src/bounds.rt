//! The bounds of a loop that counts.
ghost use Rattle.std.specs.Prelude.{◌≡◌, [], ◌∷◌, false, map, MatchOption};
ghost use Rattle.lua_machine.specs.Value.{Number};
ghost use Rattle.lua_machine.specs.Yields.{bounds_of, comes, next_turn};
ghost use Rattle.lua_state.specs.Held.{bounds_in};
ghost use Rattle.lua_state.specs.Loops.{AreMade};
ghost use Rattle.lua_store.specs.Values.{Texts, meant};

use lua_machine::LuaError;
use lua_numbers::LuaNumber;
use lua_store::SmallValue;

/// The number of the turn, the last one that comes, and the step.
#[derive(Clone, Copy, Debug)]
pub struct LoopBounds {
    pub first: LuaNumber,
    pub last: LuaNumber,
    pub by: LuaNumber,
}

/// Whether a turn comes.
pub(crate) fn comes(bounds: &LoopBounds) -> bool
    ensures { result ≡ comes (bounds_in bounds.now) }
{
    if bounds.by.get() > 0 {
        bounds.first.get() <= bounds.last.get()
    } else {
        bounds.last.get() <= bounds.first.get()
    }
}

/// The bounds of the turn behind one. None comes where its number would be past either end.
pub(crate) fn following(bounds: &LoopBounds) -> Option<LoopBounds>
    ensures { MatchOption result (comes (next_turn (bounds_in bounds.now)) ≡ false) (λ next. bounds_in next ≡ next_turn (bounds_in bounds.now)) }
{
    match bounds.first.plus(bounds.by) {
        Some(first) => Some(LoopBounds {
            first,
            last: bounds.last,
            by: bounds.by,
        }),
        None => None,
    }
}

// The bounds of a loop whose step has to be another number than 0.
fn stepped(
    line: usize,
    first: LuaNumber,
    last: LuaNumber,
    by: LuaNumber,
) -> Result<LoopBounds, LuaError>
    ensures { AreMade result (bounds_of line (Number first ∷ Number last ∷ Number by ∷ [])) }
{
    if by.get() == 0 {
        Err(LuaError::OutOfRange { line })
    } else {
        Ok(LoopBounds { first, last, by })
    }
}

// The bounds of a loop whose step is a value.
fn stepped_by(
    line: usize,
    first: LuaNumber,
    last: LuaNumber,
    by: SmallValue,
) -> Result<LoopBounds, LuaError>
    ensures { (texts : Texts) → AreMade result (bounds_of line (Number first ∷ Number last ∷ meant texts by ∷ [])) }
{
    match by {
        SmallValue::Number(by) => stepped(line, first, last, by),
        _ => Err(LuaError::TypeFault { line }),
    }
}

// The bounds that two values are.
fn two_bounds(line: usize, first: SmallValue, last: SmallValue) -> Result<LoopBounds, LuaError>
    ensures { (texts : Texts) → AreMade result (bounds_of line (meant texts first ∷ meant texts last ∷ [])) }
{
    match first {
        SmallValue::Number(first) => match last {
            SmallValue::Number(last) => Ok(LoopBounds {
                first,
                last,
                by: LuaNumber::small(1),
            }),
            _ => Err(LuaError::TypeFault { line }),
        },
        _ => Err(LuaError::TypeFault { line }),
    }
}

// The bounds that three values are.
fn three_bounds(
    line: usize,
    first: SmallValue,
    last: SmallValue,
    by: SmallValue,
) -> Result<LoopBounds, LuaError>
    ensures { (texts : Texts) → AreMade result (bounds_of line (meant texts first ∷ meant texts last ∷ meant texts by ∷ [])) }
{
    match first {
        SmallValue::Number(first) => match last {
            SmallValue::Number(last) => stepped_by(line, first, last, by),
            _ => Err(LuaError::TypeFault { line }),
        },
        _ => Err(LuaError::TypeFault { line }),
    }
}

/// The bounds that parts are.
pub(crate) fn bounds_of_parts(line: usize, values: &[SmallValue]) -> Result<LoopBounds, LuaError>
    ensures { (texts : Texts) → AreMade result (bounds_of line (map (meant texts) values.now)) }
{
    match values {
        [first, last] => two_bounds(line, *first, *last),
        [first, last, by] => three_bounds(line, *first, *last, *by),
        _ => Err(LuaError::TypeFault { line }),
    }
}
