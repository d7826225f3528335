use lua_syntax::LuaSyntax;
use std::alloc::Global;
use std::test::Fail;
use tis_asm::AsmError;
use tis_base::{MemSink, MemStore, NoMemory, Sink, Value, Values};
use tis_cli::{Refusal, Status, describe, tool};
use tis_grid_text::GridTextError;
use tis_puzzle::{PuzzleError, Wanted};
use tis_save::SaveError;

// A save that passes the values of a column on, and a grid for it.
const S: &[u8] = b"@1\nMOV UP, DOWN\n\n@5\nMOV UP, DOWN\n\n@9\nMOV UP, DOWN\n\n";

const G: &[u8] = b"grid 1\ntiles CCCC CCCC CCCC\ninput 1 5 7\noutput 1 5 7\n";

// A save in which a tile takes from any side, and a grid for it.
const ANY_SAVE: &[u8] =
    b"@0\nMOV UP, RIGHT\n@1\nMOV ANY, DOWN\n@2\nMOV UP, LEFT\n@5\nMOV UP, DOWN\n@9\nMOV UP, DOWN\n";

const ANY_GRID: &[u8] = b"grid 1\ntiles CCCC CCCC CCCC\ninput 0 1\ninput 2 2\noutput 1\n";

// The calls of a store or a sink that fail.
fn failing(alloc: Global, call: i64) -> Result<Values, NoMemory> {
    let mut calls = Values::new(alloc);
    calls.push(Value::clamp(call))?;
    Ok(calls)
}

// The answer to these words over a save `s`, a grid `g` and events `e`, where this call of the store fails.
fn answer<K: Sink>(
    alloc: Global,
    words: &[&str],
    texts: (&[u8], &[u8], &[u8]),
    call: i64,
    out: &mut K,
) -> Result<Status, NoMemory> {
    let mut store = MemStore::failing(alloc, failing(alloc, call)?);
    store.set("s", texts.0)?;
    store.set("g", texts.1)?;
    store.set("e", texts.2)?;
    let mut owned = Vec::new(alloc);
    for word in words {
        owned.push(String::from_str(alloc, word)?)?;
    }
    Ok(tool(alloc, &owned, &mut store, out))
}

#[test]
fn a_grid_runs_in_drawn_orders_and_in_given_ones(rt: HostRuntime) -> Result<(), Fail> {
    let any_events = b"in 0\nin 2\nmeet 2 left\nmeet 1 down\nmeet 5 down\nout 1\n".as_slice();
    let other_events = b"IN 0\n\nin 2\nMeet 0 Right\nmeet 1 down\nmeet 5 down\nout 1".as_slice();
    let early = b"in 1\nmeet 1 down\nout 1\n".as_slice();
    for (words, texts, status, report) in [
        (
            ["order", "s", "g", "0", "0", "100"].as_slice(),
            (S, G, early),
            Status::Done,
            b"rest 8\nout 1 5 7\n".as_slice(),
        ),
        (
            ["order", "s", "g", "0", "1", "100"].as_slice(),
            (S, G, early),
            Status::Done,
            b"rest 8\nout 1 5 7\n".as_slice(),
        ),
        (
            ["order", "s", "g", "0", "18446744073709551615", "100"].as_slice(),
            (S, G, early),
            Status::Done,
            b"rest 8\nout 1 5 7\n".as_slice(),
        ),
        (
            ["order", "s", "g", "007", "2", "8"].as_slice(),
            (S, G, early),
            Status::Done,
            b"rest 8\nout 1 5 7\n".as_slice(),
        ),
        (
            ["order", "s", "g", "0", "2", "7"].as_slice(),
            (S, G, early),
            Status::Limit { done: 7 },
            b"limit 7\nout 1 5\n".as_slice(),
        ),
        (
            ["order", "s", "g", "0", "5", "0"].as_slice(),
            (S, G, early),
            Status::Limit { done: 0 },
            b"limit 0\nout 1\n".as_slice(),
        ),
        (
            ["replay", "s", "g", "0", "e"].as_slice(),
            (ANY_SAVE, ANY_GRID, any_events),
            Status::Done,
            b"events 6\nout 1 2\n".as_slice(),
        ),
        (
            ["replay", "s", "g", "0", "e"].as_slice(),
            (ANY_SAVE, ANY_GRID, other_events),
            Status::Done,
            b"events 6\nout 1 1\n".as_slice(),
        ),
        (
            ["replay", "s", "g", "0", "e"].as_slice(),
            (S, G, early),
            Status::Refused(Refusal::NotEnabled { index: 2 }),
            b"not enabled 2\nout 1\n".as_slice(),
        ),
        (
            ["replay", "s", "g", "0", "e"].as_slice(),
            (S, G, b"in 7".as_slice()),
            Status::Refused(Refusal::NotEnabled { index: 0 }),
            b"not enabled 0\nout 1\n".as_slice(),
        ),
    ] {
        let mut out = MemSink::honest(rt.alloc());
        let got = answer(rt.alloc(), words, texts, 9, &mut out)?;
        assert_eq!(rt; got, status);
        assert_eq!(rt; out.written(), report);
    }
    Ok(())
}

#[test]
fn a_grid_runs_by_the_clock(rt: HostRuntime) -> Result<(), Fail> {
    let empty = b"grid 1\ntiles CCCC CCCC CCCC\ninput 1\noutput 1\n".as_slice();
    let held = b"@1\nMOV 5000, DOWN\nJRO 0\n@5\nMOV UP, DOWN\n@9\nMOV UP, DOWN\n".as_slice();
    let last =
        b"@1\nMOV LAST, DOWN\nMOV ANY, ACC\nMOV LAST, DOWN\n@5\nMOV UP, DOWN\n@9\nMOV UP, DOWN\n".as_slice();
    for (save, grid, cycles, status, report) in [
        (S, G, "100", Status::Done, b"rest 6\nout 1 5 7\n".as_slice()),
        (S, G, "6", Status::Done, b"rest 6\nout 1 5 7\n".as_slice()),
        (
            S,
            G,
            "5",
            Status::Limit { done: 5 },
            b"limit 5\nout 1 5\n".as_slice(),
        ),
        (
            S,
            G,
            "0",
            Status::Limit { done: 0 },
            b"limit 0\nout 1\n".as_slice(),
        ),
        (S, empty, "100", Status::Done, b"rest 0\nout 1\n".as_slice()),
        (S, empty, "0", Status::Done, b"rest 0\nout 1\n".as_slice()),
        (
            ANY_SAVE,
            ANY_GRID,
            "100",
            Status::Done,
            b"rest 7\nout 1 1 2\n".as_slice(),
        ),
        (
            held,
            G,
            "10",
            Status::Limit { done: 10 },
            b"limit 10\nout 1 999\n".as_slice(),
        ),
        (
            last,
            G,
            "100",
            Status::Done,
            b"rest 7\nout 1 0 7\n".as_slice(),
        ),
    ] {
        let mut out = MemSink::honest(rt.alloc());
        let got = answer(
            rt.alloc(),
            &["run", "s", "g", "0", cycles],
            (save, grid, b"".as_slice()),
            9,
            &mut out,
        )?;
        assert_eq!(rt; got, status);
        assert_eq!(rt; out.written(), report);
    }
    Ok(())
}

#[test]
fn a_text_that_is_refused_is_told_with_its_line(rt: HostRuntime) -> Result<(), Fail> {
    let twice = b"grid 1\ntiles CCCC CCCC CCCC\ninput 1 5 7\noutput 1 5 7\ninput 1 9\n".as_slice();
    let unknown = Refusal::Save(SaveError::Asm {
        block: 0,
        error: AsmError::UnknownLabel { line: 1 },
    });
    for (texts, refusal, line) in [
        (
            (S, b"grid 1\n".as_slice(), b"".as_slice()),
            Refusal::Grid(GridTextError::BadLine { line: 2 }),
            b"refused Grid BadLine 2".as_slice(),
        ),
        (
            (S, twice, b"".as_slice()),
            Refusal::Grid(GridTextError::SamePlace { line: 5 }),
            b"refused Grid SamePlace 5".as_slice(),
        ),
        (
            (b"@0\nJMP A\n".as_slice(), G, b"in 48".as_slice()),
            unknown,
            b"refused Save Asm 0 UnknownLabel 1".as_slice(),
        ),
        (
            (b"@x".as_slice(), b"".as_slice(), b"x".as_slice()),
            Refusal::Puzzle(PuzzleError::NoFunction { name: Wanted::Name }),
            b"refused Puzzle NoFunction Name".as_slice(),
        ),
        (
            (S, b"function f(".as_slice(), b"x".as_slice()),
            Refusal::Syntax(LuaSyntax::Syntax { line: 1 }),
            b"refused Syntax Syntax 1".as_slice(),
        ),
        (
            (S, G, b"in 9".as_slice()),
            Refusal::Events { line: 1 },
            b"refused Events 1".as_slice(),
        ),
        (
            (S, G, b"\nin 1 # x".as_slice()),
            Refusal::Events { line: 2 },
            b"refused Events 2".as_slice(),
        ),
    ] {
        let mut out = MemSink::honest(rt.alloc());
        let got = answer(
            rt.alloc(),
            &["replay", "s", "g", "0", "e"],
            texts,
            9,
            &mut out,
        )?;
        assert_eq!(rt; got, Status::Refused(refusal));
        assert_eq!(rt; describe(rt.alloc(), &got)?.as_slice(), line);
        assert_eq!(rt; out.written(), b"".as_slice());
    }
    assert_eq!(rt; Status::Limit { done: 7 }.number(), 8);
    assert_eq!(rt;
        describe(rt.alloc(), &Status::Limit { done: 7 })?.as_slice(),
        b"limit 7".as_slice()
    );
    Ok(())
}

#[test]
fn a_failing_outside_is_told_of(rt: HostRuntime) -> Result<(), Fail> {
    let events = b"in 1".as_slice();
    for (words, call, sink_call, status) in [
        (
            ["order", "s", "g", "0", "1", "100"].as_slice(),
            0,
            9,
            Status::StoreFault,
        ),
        (
            ["order", "s", "g", "0", "1", "100"].as_slice(),
            1,
            9,
            Status::StoreFault,
        ),
        (
            ["order", "s", "g", "0", "1", "100"].as_slice(),
            2,
            0,
            Status::SinkFault,
        ),
        (
            ["order", "s", "g", "0", "1", "7"].as_slice(),
            2,
            0,
            Status::SinkFault,
        ),
        (
            ["order", "s", "g", "0", "1", "100"].as_slice(),
            2,
            1,
            Status::Done,
        ),
        (
            ["replay", "s", "g", "0", "e"].as_slice(),
            2,
            9,
            Status::StoreFault,
        ),
        (
            ["replay", "s", "g", "0", "e"].as_slice(),
            3,
            0,
            Status::SinkFault,
        ),
        (
            ["replay", "s", "g", "0", "e"].as_slice(),
            3,
            1,
            Status::Done,
        ),
        (
            ["order", "s", "h", "0", "1", "100"].as_slice(),
            9,
            9,
            Status::Missing,
        ),
        (
            ["order", "s", "g", "0", "1", "10000001"].as_slice(),
            0,
            9,
            Status::Words,
        ),
        (
            ["order", "s", "g", "0", "18446744073709551616", "1"].as_slice(),
            0,
            9,
            Status::Words,
        ),
        (
            ["order", "s", "g", "", "1", "1"].as_slice(),
            0,
            9,
            Status::Words,
        ),
        (
            ["replay", "s", "g", "-1", "e"].as_slice(),
            0,
            9,
            Status::Words,
        ),
        (["replay", "s", "g", "0"].as_slice(), 0, 9, Status::Words),
        (
            ["run", "s", "g", "0", "100"].as_slice(),
            1,
            9,
            Status::StoreFault,
        ),
        (
            ["run", "s", "g", "0", "100"].as_slice(),
            2,
            0,
            Status::SinkFault,
        ),
        (
            ["run", "s", "g", "0", "5"].as_slice(),
            2,
            0,
            Status::SinkFault,
        ),
        (
            ["run", "s", "h", "0", "5"].as_slice(),
            9,
            9,
            Status::Missing,
        ),
        (
            ["run", "s", "g", "0", "10000001"].as_slice(),
            0,
            9,
            Status::Words,
        ),
        (["run", "s", "g", "0"].as_slice(), 0, 9, Status::Words),
    ] {
        let mut out = MemSink::failing(rt.alloc(), failing(rt.alloc(), sink_call)?);
        let got = answer(rt.alloc(), words, (S, G, events), call, &mut out)?;
        assert_eq!(rt; got, status);
    }
    Ok(())
}
