use crate::rows;
use lua_call::{Called, call};
use lua_machine::LuaError;
use lua_plain::{Plain, Plains};
use lua_syntax::parse;
use lua_tree::Chunk;
use std::alloc::{AllocError, Global};
use std::process::Abort;
use std::test::Fail;

/// A text in quotes.
fn quoted(alloc: Global, bytes: &[u8]) -> Result<String, AllocError> {
    let mut out = String::from_str(alloc, "\"")?;
    for byte in bytes {
        if *byte == b'\n' {
            out.push_str("\\n")?;
        } else {
            out.push(char::from(*byte))?;
        }
    }
    out.push_str("\"")?;
    Ok(out)
}

/// The values of a list, in braces.
#[cycle(shown)]
fn listed(alloc: Global, list: &Plains, levels: u8) -> Result<String, AllocError> {
    let mut out = String::from_str(alloc, "{")?;
    for (at, value) in list.as_slice().iter().enumerate() {
        if at > 0 {
            out.push_str(" ")?;
        }
        if levels > 0 {
            let inner = shown(alloc, value, levels - 1)?;
            out.push_str(inner.as_str())?;
        }
    }
    out.push_str("}")?;
    Ok(out)
}

/// A value as the rows have it.
#[cycle(shown)]
fn shown(alloc: Global, value: &Plain, levels: u8) -> Result<String, AllocError> {
    match value {
        Plain::Nil => String::from_str(alloc, "nil"),
        Plain::Truth(true) => String::from_str(alloc, "true"),
        Plain::Truth(false) => String::from_str(alloc, "false"),
        Plain::Number(number) => format!(in alloc; "{number}"),
        Plain::Text(text) => quoted(alloc, text.bytes()),
        Plain::List(list) => listed(alloc, list, levels),
        Plain::Deep => String::from_str(alloc, "deep"),
    }
}

/// A fault as the rows have it.
fn fault(alloc: Global, why: LuaError) -> Result<String, AllocError> {
    match why {
        LuaError::TypeFault { line } => format!(in alloc; "TypeFault {line}"),
        LuaError::UnknownName { line } => format!(in alloc; "UnknownName {line}"),
        LuaError::Inexact { line } => format!(in alloc; "Inexact {line}"),
        LuaError::OutOfRange { line } => format!(in alloc; "OutOfRange {line}"),
        LuaError::LongString { line } => format!(in alloc; "LongString {line}"),
        LuaError::TooDeepCalls { line } => format!(in alloc; "TooDeepCalls {line}"),
        LuaError::Budget => String::from_str(alloc, "Budget"),
        LuaError::NoMemory => String::from_str(alloc, "NoMemory"),
    }
}

/// A row with its ends of lines.
fn lined(alloc: Global, row: &str) -> Result<String, AllocError> {
    let mut text = String::new(alloc);
    for byte in row.as_bytes() {
        if *byte == b'@' {
            text.push('\n')?;
        } else {
            text.push(char::from(*byte))?;
        }
    }
    Ok(text)
}

/// The value and the cost.
fn given(alloc: Global, called: &Called) -> Result<String, AllocError> {
    let value = shown(alloc, &called.value, 5)?;
    let cost = called.cost;
    format!(in alloc; "{value}|{cost}")
}

/// What a call of `f` gives.
fn answer(alloc: Global, chunk: &Chunk) -> Result<String, AllocError> {
    if !chunk.defines(b"f") {
        return String::from_str(alloc, "no f");
    }
    match call(alloc, chunk, b"f", 1) {
        Ok(called) => given(alloc, &called),
        Err(why) => fault(alloc, why),
    }
}

fn answer_of_text(alloc: Global, text: &str) -> Result<String, AllocError> {
    match parse(alloc, text.as_bytes()) {
        Ok(chunk) => answer(alloc, &chunk),
        Err(_) => String::from_str(alloc, "no chunk"),
    }
}

fn all_answer(rt: &impl Abort, alloc: Global, rows: &str) -> Result<(), AllocError> {
    for row in rows.lines() {
        if let Some((chunk, wanted)) = row.split_once('|') {
            let text = lined(alloc, chunk)?;
            let found = answer_of_text(alloc, text.as_str())?;
            assert_eq!(rt; found.as_str(), wanted);
        }
    }
    Ok(())
}

#[test]
fn expressions_give_their_values_at_their_costs(rt: HostRuntime) -> Result<(), Fail> {
    all_answer(&rt, rt.alloc(), rows::nodes())?;
    all_answer(&rt, rt.alloc(), rows::unary())?;
    all_answer(&rt, rt.alloc(), rows::binary())?;
    all_answer(&rt, rt.alloc(), rows::libraries())?;
    all_answer(&rt, rt.alloc(), rows::draws())?;
    all_answer(&rt, rt.alloc(), rows::plain_values())?;
    Ok(())
}

#[test]
fn statements_and_limits_do_so_too(rt: HostRuntime) -> Result<(), Fail> {
    all_answer(&rt, rt.alloc(), rows::statements())?;
    all_answer(&rt, rt.alloc(), rows::limits())?;
    Ok(())
}

#[test]
fn each_fault_has_its_line(rt: HostRuntime) -> Result<(), Fail> {
    all_answer(&rt, rt.alloc(), rows::faults())?;
    Ok(())
}

/// A function that gives a text of so many bytes.
fn chunk_of_bytes(alloc: Global, count: usize) -> Result<String, AllocError> {
    let mut text = String::from_str(alloc, "function f() return #\"")?;
    for _ in 0..count {
        text.push('x')?;
    }
    text.push_str("\" end")?;
    Ok(text)
}

#[test]
fn a_text_that_is_written_out_has_at_most_1024_bytes(rt: HostRuntime) -> Result<(), Fail> {
    for (count, wanted) in [(1024, "1024|4"), (1025, "LongString 1")] {
        let text = chunk_of_bytes(rt.alloc(), count)?;
        let found = answer_of_text(rt.alloc(), text.as_str())?;
        assert_eq!(rt; found.as_str(), wanted);
    }
    Ok(())
}

#[test]
fn no_call_pays_more_units_than_may_be_paid(rt: HostRuntime) -> Result<(), Fail> {
    all_answer(&rt, rt.alloc(), rows::budgets())?;
    Ok(())
}
