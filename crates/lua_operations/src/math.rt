//! What the functions of `math` make of parts.
ghost use Rattle.std.specs.Prelude.{◌≡◌, [], ◌∷◌, map};
ghost use Rattle.lua_machine.specs.Library.{Abs, Floor, Max, Min, Random, drawn, math_result};
ghost use Rattle.lua_machine.specs.State.{State};
ghost use Rattle.lua_store.specs.Values.{Texts, meant};
ghost use Rattle.lua_operations.specs.Functions.{math_in};
ghost use Rattle.lua_operations.specs.Results.{Makes};

use crate::functions::MathFunction;
use lua_machine::LuaError;
use lua_numbers::LuaNumber;
use lua_store::SmallValue;
use rand_core::utils::NextWord;
use rand_pcg::Pcg32;

// A number that the next word chooses, unless there is none to choose from.
fn draw(
    generator: &mut Pcg32,
    line: usize,
    first: LuaNumber,
    last: LuaNumber,
) -> Result<SmallValue, LuaError>
    ensures { (texts : Texts) (state : State) → Makes texts result (record state { generator = generator.new }) (drawn line first last (record state { generator = generator.old })) }
{
    if last.is_less(first) {
        return Err(LuaError::OutOfRange { line });
    }
    let word = generator.next_word();
    Ok(SmallValue::Number(first.choose(last, word)))
}

// The same between two values, which have to be numbers.
fn draw_between(
    generator: &mut Pcg32,
    line: usize,
    first: SmallValue,
    last: SmallValue,
) -> Result<SmallValue, LuaError>
    ensures { (texts : Texts) (state : State) → Makes texts result (record state { generator = generator.new }) (math_result Random line (meant texts first ∷ meant texts last ∷ []) (record state { generator = generator.old })) }
{
    match first {
        SmallValue::Number(first) => match last {
            SmallValue::Number(last) => draw(generator, line, first, last),
            _ => Err(LuaError::TypeFault { line }),
        },
        _ => Err(LuaError::TypeFault { line }),
    }
}

// The same from 1 up to a value, which has to be a number.
fn draw_up_to(generator: &mut Pcg32, line: usize, last: SmallValue) -> Result<SmallValue, LuaError>
    ensures { (texts : Texts) (state : State) → Makes texts result (record state { generator = generator.new }) (math_result Random line (meant texts last ∷ []) (record state { generator = generator.old })) }
{
    match last {
        SmallValue::Number(last) => draw(generator, line, LuaNumber::small(1), last),
        _ => Err(LuaError::TypeFault { line }),
    }
}

// `math.random` of one part or two.
fn random(generator: &mut Pcg32, line: usize, values: &[SmallValue]) -> Result<SmallValue, LuaError>
    ensures { (texts : Texts) (state : State) → Makes texts result (record state { generator = generator.new }) (math_result Random line (map (meant texts) values.now) (record state { generator = generator.old })) }
{
    match values {
        [last] => draw_up_to(generator, line, *last),
        [first, last] => draw_between(generator, line, *first, *last),
        _ => Err(LuaError::TypeFault { line }),
    }
}

// A value that has to be a number.
fn whole(line: usize, a: SmallValue) -> Result<SmallValue, LuaError>
    ensures { (texts : Texts) (state : State) → Makes texts result state (math_result Floor line (meant texts a ∷ []) state) }
{
    match a {
        SmallValue::Number(a) => Ok(SmallValue::Number(a)),
        _ => Err(LuaError::TypeFault { line }),
    }
}

// How far a value, which has to be a number, is from 0.
fn distance(line: usize, a: SmallValue) -> Result<SmallValue, LuaError>
    ensures { (texts : Texts) (state : State) → Makes texts result state (math_result Abs line (meant texts a ∷ []) state) }
{
    match a {
        SmallValue::Number(a) => Ok(SmallValue::Number(a.distance())),
        _ => Err(LuaError::TypeFault { line }),
    }
}

// The lesser of two values, which have to be numbers.
fn lesser(line: usize, a: SmallValue, b: SmallValue) -> Result<SmallValue, LuaError>
    ensures { (texts : Texts) (state : State) → Makes texts result state (math_result Min line (meant texts a ∷ meant texts b ∷ []) state) }
{
    match a {
        SmallValue::Number(a) => match b {
            SmallValue::Number(b) => Ok(SmallValue::Number(a.lesser(b))),
            _ => Err(LuaError::TypeFault { line }),
        },
        _ => Err(LuaError::TypeFault { line }),
    }
}

// The greater of two values, which have to be numbers.
fn greater(line: usize, a: SmallValue, b: SmallValue) -> Result<SmallValue, LuaError>
    ensures { (texts : Texts) (state : State) → Makes texts result state (math_result Max line (meant texts a ∷ meant texts b ∷ []) state) }
{
    match a {
        SmallValue::Number(a) => match b {
            SmallValue::Number(b) => Ok(SmallValue::Number(a.greater(b))),
            _ => Err(LuaError::TypeFault { line }),
        },
        _ => Err(LuaError::TypeFault { line }),
    }
}

// `math.floor` of what is no quotient.
fn floor(line: usize, values: &[SmallValue]) -> Result<SmallValue, LuaError>
    ensures { (texts : Texts) (state : State) → Makes texts result state (math_result Floor line (map (meant texts) values.now) state) }
{
    match values {
        [a] => whole(line, *a),
        _ => Err(LuaError::TypeFault { line }),
    }
}

fn abs(line: usize, values: &[SmallValue]) -> Result<SmallValue, LuaError>
    ensures { (texts : Texts) (state : State) → Makes texts result state (math_result Abs line (map (meant texts) values.now) state) }
{
    match values {
        [a] => distance(line, *a),
        _ => Err(LuaError::TypeFault { line }),
    }
}

fn min(line: usize, values: &[SmallValue]) -> Result<SmallValue, LuaError>
    ensures { (texts : Texts) (state : State) → Makes texts result state (math_result Min line (map (meant texts) values.now) state) }
{
    match values {
        [a, b] => lesser(line, *a, *b),
        _ => Err(LuaError::TypeFault { line }),
    }
}

fn max(line: usize, values: &[SmallValue]) -> Result<SmallValue, LuaError>
    ensures { (texts : Texts) (state : State) → Makes texts result state (math_result Max line (map (meant texts) values.now) state) }
{
    match values {
        [a, b] => greater(line, *a, *b),
        _ => Err(LuaError::TypeFault { line }),
    }
}

/// What a function of `math` makes of parts. `math.random` takes a word of the generator, unless it is refused.
pub fn math_of_parts(
    generator: &mut Pcg32,
    function: MathFunction,
    line: usize,
    values: &[SmallValue],
) -> Result<SmallValue, LuaError>
    ensures { (texts : Texts) (state : State) → Makes texts result (record state { generator = generator.new }) (math_result (math_in function) line (map (meant texts) values.now) (record state { generator = generator.old })) }
{
    match function {
        MathFunction::Random => random(generator, line, values),
        MathFunction::Floor => floor(line, values),
        MathFunction::Abs => abs(line, values),
        MathFunction::Min => min(line, values),
        MathFunction::Max => max(line, values),
    }
}
