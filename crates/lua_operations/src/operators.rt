//! What operators make of held values.
ghost use Rattle.std.specs.Prelude.{◌≡◌, ◌<◌, ◌^◌, pos, Ok, Err, Bool, not, IsTrue, Result, []};
ghost use Rattle.lua_machine.specs.Value as lua;
ghost use Rattle.lua_machine.specs.Value.{Fault, LuaValue, is_true};
ghost use Rattle.lua_machine.specs.Operators.{arithmetic, binary_of, floor_of_quotient, is_before, is_less, joined, on_numbers, text, truth, unary_of, untruth};
ghost use Rattle.lua_operations.specs.Operations.{Joins, Writes, is_join};
ghost use Rattle.lua_numbers.specs.Numbers.{number_or};
ghost use Rattle.lua_store.specs.Rows.{tables_of};
ghost use Rattle.lua_store.specs.Values.{AreApart, IsHeld, Texts, meant};
ghost use Rattle.lua_operations.specs.Results.{Comes, ComesTo};

use lua_machine::LuaError;
use lua_numbers::LuaNumber;
use lua_store::{HeldTexts, LuaTables, SmallValue};
use lua_tree::{BinaryOp, UnaryOp};
use std::alloc::Global;
use tis_base::push_number;

/// Whether a value counts as true.
pub fn is_true(value: SmallValue) -> bool
    ensures { (texts : Texts) → result ≡ is_true (meant texts value) }
{
    match value {
        SmallValue::Nil => false,
        SmallValue::Truth(truth) => truth,
        SmallValue::Number(_) | SmallValue::Text(_) | SmallValue::Table(_) => true,
    }
}

// A count as a number. There is no memory for one past 2^53.
fn counted(count: u64) -> Result<SmallValue, LuaError>
    requires { count < 2 ^ 63 }
    ensures { (texts : Texts) → Comes texts result (Ok (lua.Number (pos count))) }
{
    let number = count as i64;
    match LuaNumber::new(number) {
        Some(number) => Ok(SmallValue::Number(number)),
        None => Err(LuaError::NoMemory),
    }
}

/// What `not`, `-` and `#` make of a value.
pub(crate) fn unary_value(
    texts: &HeldTexts,
    tables: &LuaTables,
    op: UnaryOp,
    line: usize,
    a: SmallValue,
) -> Result<SmallValue, LuaError>
    requires { IsHeld texts.now a }
    ensures { Comes texts.now result (unary_of op line (tables_of texts.now tables.now) (meant texts.now a)) }
{
    match op {
        UnaryOp::Not => Ok(SmallValue::Truth(!is_true(a))),
        UnaryOp::Minus => negated(line, a),
        UnaryOp::Length => length(texts, tables, line, a),
    }
}

fn negated(line: usize, a: SmallValue) -> Result<SmallValue, LuaError>
    ensures { (texts : Texts) → Comes texts result (unary_of UnaryOp.Minus line [] (meant texts a)) }
{
    match a {
        SmallValue::Number(number) => Ok(SmallValue::Number(number.negated())),
        _ => Err(LuaError::TypeFault { line }),
    }
}

fn length(
    texts: &HeldTexts,
    tables: &LuaTables,
    line: usize,
    a: SmallValue,
) -> Result<SmallValue, LuaError>
    requires { IsHeld texts.now a }
    ensures { Comes texts.now result (unary_of UnaryOp.Length line (tables_of texts.now tables.now) (meant texts.now a)) }
{
    match a {
        SmallValue::Text(at) => counted(texts.bytes(at).len() as u64),
        SmallValue::Table(at) => counted(tables.border_at(at)),
        _ => Err(LuaError::TypeFault { line }),
    }
}

// Whether one text comes before another, by bytes.
fn is_before(a: &[u8], b: &[u8]) -> bool
    ensures { result ≡ is_before a.now b.now }
{
    for at in 0..a.len() {
        if at >= b.len() {
            return false;
        }
        if a[at] != b[at] {
            return a[at] < b[at];
        }
    }
    a.len() < b.len()
}

// Whether a value is less than another, where both are numbers or both are texts.
fn is_less(texts: &HeldTexts, line: usize, a: SmallValue, b: SmallValue) -> Result<bool, LuaError>
    requires left { IsHeld texts.now a }
    requires right { IsHeld texts.now b }
    ensures { ComesTo result (is_less line (meant texts.now a) (meant texts.now b)) }
{
    match a {
        SmallValue::Number(x) => match b {
            SmallValue::Number(y) => Ok(x.is_less(y)),
            _ => Err(LuaError::TypeFault { line }),
        },
        SmallValue::Text(x) => match b {
            SmallValue::Text(y) => Ok(is_before(texts.bytes(x), texts.bytes(y))),
            _ => Err(LuaError::TypeFault { line }),
        },
        _ => Err(LuaError::TypeFault { line }),
    }
}

// A number, or what is refused where there is none.
fn or_refused(number: Option<LuaNumber>, why: LuaError) -> Result<SmallValue, LuaError>
    ensures { (texts : Texts) (fault : Fault) → Comes texts (Err why) (Err fault) → Comes texts result (number_or fault number) }
{
    match number {
        Some(number) => Ok(SmallValue::Number(number)),
        None => Err(why),
    }
}

// What arithmetic makes of two numbers.
fn arithmetic(op: BinaryOp, line: usize, a: LuaNumber, b: LuaNumber) -> Result<SmallValue, LuaError>
    ensures { (texts : Texts) → Comes texts result (arithmetic op line a b) }
{
    match op {
        BinaryOp::Plus => or_refused(a.plus(b), LuaError::OutOfRange { line }),
        BinaryOp::Minus => or_refused(a.minus(b), LuaError::OutOfRange { line }),
        BinaryOp::Times => or_refused(a.times(b), LuaError::OutOfRange { line }),
        BinaryOp::Over => or_refused(a.over(b), LuaError::Inexact { line }),
        BinaryOp::Mod => or_refused(a.modulo(b), LuaError::Inexact { line }),
        _ => Err(LuaError::TypeFault { line }),
    }
}

// The same of two values, which have to be numbers.
fn on_numbers(
    op: BinaryOp,
    line: usize,
    a: SmallValue,
    b: SmallValue,
) -> Result<SmallValue, LuaError>
    ensures { (texts : Texts) → Comes texts result (on_numbers op line (meant texts a) (meant texts b)) }
{
    match a {
        SmallValue::Number(x) => match b {
            SmallValue::Number(y) => arithmetic(op, line, x, y),
            _ => Err(LuaError::TypeFault { line }),
        },
        _ => Err(LuaError::TypeFault { line }),
    }
}

// A truth value.
fn truth(holds: Result<bool, LuaError>) -> Result<SmallValue, LuaError>
    ensures { (texts : Texts) (wanted : Result Bool Fault) → ComesTo holds wanted → Comes texts result (truth wanted) }
{
    match holds {
        Ok(holds) => Ok(SmallValue::Truth(holds)),
        Err(why) => Err(why),
    }
}

// The other truth value.
fn untruth(holds: Result<bool, LuaError>) -> Result<SmallValue, LuaError>
    ensures { (texts : Texts) (wanted : Result Bool Fault) → ComesTo holds wanted → Comes texts result (untruth wanted) }
{
    match holds {
        Ok(holds) => Ok(SmallValue::Truth(!holds)),
        Err(why) => Err(why),
    }
}

/// What a binary operator but `and`, `or` and `..` makes of two values.
pub(crate) fn binary_value(
    texts: &HeldTexts,
    op: BinaryOp,
    line: usize,
    a: SmallValue,
    b: SmallValue,
) -> Result<SmallValue, LuaError>
    requires left { IsHeld texts.now a }
    requires right { IsHeld texts.now b }
    requires apart { AreApart texts.now }
    ensures { IsTrue (not (is_join op)) → Comes texts.now result (binary_of op line (meant texts.now a) (meant texts.now b)) }
{
    match op {
        BinaryOp::Less => truth(is_less(texts, line, a, b)),
        BinaryOp::Greater => truth(is_less(texts, line, b, a)),
        BinaryOp::LessEqual => untruth(is_less(texts, line, b, a)),
        BinaryOp::GreaterEqual => untruth(is_less(texts, line, a, b)),
        BinaryOp::Equal => Ok(SmallValue::Truth(a.is_same(b))),
        BinaryOp::NotEqual => Ok(SmallValue::Truth(!a.is_same(b))),
        _ => on_numbers(op, line, a, b),
    }
}

/// The greatest whole number that isn't above the quotient of two values, which have to be numbers.
pub(crate) fn floor_value(line: usize, a: SmallValue, b: SmallValue) -> Result<SmallValue, LuaError>
    ensures { (texts : Texts) → Comes texts result (floor_of_quotient line (meant texts a) (meant texts b)) }
{
    match a {
        SmallValue::Number(x) => match b {
            SmallValue::Number(y) => or_refused(x.floor_over(y), LuaError::Inexact { line }),
            _ => Err(LuaError::TypeFault { line }),
        },
        _ => Err(LuaError::TypeFault { line }),
    }
}

/// Writes a text, or a number in decimal, behind what is there. Other values are no text.
pub(crate) fn write_text(
    texts: &HeldTexts,
    line: usize,
    value: SmallValue,
    out: &mut Vec<u8>,
) -> Result<(), LuaError>
    requires { IsHeld texts.now value }
    ensures { Writes result out.old.items out.new.items line (meant texts.now value) }
{
    match value {
        SmallValue::Text(at) => {
            out.extend_from_slice(texts.bytes(at))?;
            Ok(())
        }
        SmallValue::Number(number) => {
            push_number(out, number.get())?;
            Ok(())
        }
        _ => Err(LuaError::TypeFault { line }),
    }
}

/// Both texts, or numbers in decimal, one behind the other.
pub(crate) fn joined_bytes(
    texts: &HeldTexts,
    alloc: Global,
    line: usize,
    a: SmallValue,
    b: SmallValue,
) -> Result<Vec<u8>, LuaError>
    requires left { IsHeld texts.now a }
    requires right { IsHeld texts.now b }
    ensures { Joins result line (meant texts.now a) (meant texts.now b) }
{
    let mut bytes = Vec::new(alloc);
    write_text(texts, line, a, &mut bytes)?;
    write_text(texts, line, b, &mut bytes)?;
    if bytes.len() > 1024 {
        return Err(LuaError::LongString { line });
    }
    Ok(bytes)
}
