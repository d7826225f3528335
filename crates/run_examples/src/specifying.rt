use std::alloc::Global;
use std::test::Fail;
use tis_base::{MemSink, MemStore, NoMemory};
use tis_cli::{Status, describe, tool};

// A save that doubles each value of column 1, and gives it to column 2.
const DOUBLES: &[u8] =
    b"@1\nMOV UP, ACC\nADD ACC\nMOV ACC, RIGHT\n\n@2\nMOV LEFT, DOWN\n\n@6\nMOV UP, DOWN\n\n@10\nMOV UP, DOWN\n\n";

// The parts of a specification that wants each value doubled. Its streams are globals, and its tiles are written out.
const NAME: &[u8] = b"function get_name() return \"TWICE\" end\n";

const DESCRIPTION: &[u8] =
    b"function get_description() return { \"TAKE A VALUE\", \"GIVE TWICE THE VALUE\" } end\n";

const STREAMS: &[u8] =
    b"function get_streams()\n  input = {}\n  output = {}\n  for i = 1,39 do\n    input[i] = math.random(10, 99)\n    output[i] = input[i] * 2\n  end\n  return {\n    { STREAM_INPUT, \"IN.A\", 1, input },\n";

const OUTPUT: &[u8] = b"    { STREAM_OUTPUT, \"OUT.A\", 2, output },\n";

const END: &[u8] = b"  }\nend\n";

const LAYOUT: &[u8] =
    b"function get_layout()\n  return {\n    TILE_COMPUTE, TILE_COMPUTE, TILE_COMPUTE, TILE_COMPUTE,\n    TILE_COMPUTE, TILE_COMPUTE, TILE_COMPUTE, TILE_COMPUTE,\n    TILE_COMPUTE, TILE_COMPUTE, TILE_COMPUTE, TILE_COMPUTE,\n  }\nend\n";

const WHOLE: [&[u8]; 6] = [NAME, DESCRIPTION, STREAMS, OUTPUT, END, LAYOUT];

// A value goes through that save alone.
const EVENTS: &[u8] = b"in 1\nlocal 1\nlocal 1\nmeet 1 right\nmeet 2 down\nmeet 6 down\nout 2\n";

// The text of these parts, one behind the other.
fn text_of(alloc: Global, parts: &[&[u8]]) -> Result<Vec<u8>, NoMemory> {
    let mut text = Vec::new(alloc);
    for part in parts {
        text.extend_from_slice(part)?;
    }
    Ok(text)
}

// The answer to these words over a save `s` that doubles values, a specification `g` and an order `e`.
fn answer(
    alloc: Global,
    words: &[&str],
    parts: &[&[u8]],
    out: &mut MemSink,
) -> Result<Status, NoMemory> {
    let mut store = MemStore::honest(alloc);
    store.set("s", DOUBLES)?;
    let text = text_of(alloc, parts)?;
    store.set("g", &text)?;
    store.set("e", EVENTS)?;
    let mut owned = Vec::new(alloc);
    for word in words {
        owned.push(String::from_str(alloc, word)?)?;
    }
    Ok(tool(alloc, &owned, &mut store, out))
}

#[test]
fn a_specification_in_lua_is_graded_seed_by_seed(rt: HostRuntime) -> Result<(), Fail> {
    for (words, report) in [
        (
            ["grade", "s", "g", "1000", "7"].as_slice(),
            b"seed 7 passed 159\ncycles 159 nodes 4 instructions 6\n".as_slice(),
        ),
        (
            ["grade", "s", "g", "159", "0", "18446744073709551615", "2"].as_slice(),
            b"seed 0 passed 159\nseed 18446744073709551615 passed 159\nseed 2 passed 159\ncycles 159 nodes 4 instructions 6\n",
        ),
        (
            ["grade", "s", "g", "158", "3", "4"].as_slice(),
            b"seed 3 late 158\n",
        ),
        (
            ["run", "s", "g", "1", "8"].as_slice(),
            b"limit 8\nout 2 160\n",
        ),
        (
            ["replay", "s", "g", "1", "e"].as_slice(),
            b"events 7\nout 2 160\n",
        ),
    ] {
        let mut out = MemSink::honest(rt.alloc());
        answer(rt.alloc(), words, &WHOLE, &mut out)?;
        assert_eq!(rt; out.written(), report);
    }
    Ok(())
}

#[test]
fn each_seed_has_its_puzzle_before_the_first_is_graded(rt: HostRuntime) -> Result<(), Fail> {
    let seldom =
        b"function get_layout()\n  if math.random(2) == 1 then return 1 end\n  return { 0, 0, 0, 0, 0, 0, 0, 0, 0, 0, 0, 0 }\nend\n".as_slice();
    let parts = [NAME, DESCRIPTION, STREAMS, OUTPUT, END, seldom];
    for (words, line, report) in [
        (
            ["grade", "s", "g", "0", "1", "4"].as_slice(),
            b"not passed".as_slice(),
            b"seed 1 late 0\n".as_slice(),
        ),
        (
            &["grade", "s", "g", "0", "1", "4", "0"],
            b"refused Puzzle BadLayout 0",
            b"",
        ),
    ] {
        let mut out = MemSink::honest(rt.alloc());
        let got = answer(rt.alloc(), words, &parts, &mut out)?;
        assert_eq!(rt; describe(rt.alloc(), &got)?.as_slice(), line);
        assert_eq!(rt; out.written(), report);
    }
    Ok(())
}

#[test]
fn a_specification_that_is_none_is_refused_by_its_first_fault(rt: HostRuntime) -> Result<(), Fail> {
    let four = b"    { STREAM_OUTPUT, \"OUT.A\", 4, output },\n".as_slice();
    let image = b"    { STREAM_IMAGE, \"I\", 2, output },\n".as_slice();
    let taken = b"    { STREAM_INPUT, \"B\", 1, {} },\n".as_slice();
    let eleven =
        b"function get_layout()\n  local tiles = {}\n  for i = 1, 11 do tiles[i] = TILE_COMPUTE end\n  return tiles\nend\n".as_slice();
    let unknown = b"function get_layout()\n  return layout_of(1 + nil)\nend\n".as_slice();
    let endless = b"function get_layout()\n  while true do end\nend\n".as_slice();
    for (parts, line) in [
        (
            [NAME, DESCRIPTION, STREAMS, OUTPUT, END, eleven].as_slice(),
            b"refused Puzzle BadLayout 0".as_slice(),
        ),
        (
            &[NAME, DESCRIPTION, STREAMS, four, END, LAYOUT],
            b"refused Puzzle BadStreams 2",
        ),
        (
            &[NAME, DESCRIPTION, STREAMS, OUTPUT, image, END, eleven],
            b"refused Puzzle BadStreams 3",
        ),
        (
            &[NAME, DESCRIPTION, STREAMS, OUTPUT, taken, END, LAYOUT],
            b"refused Puzzle SamePlace 3",
        ),
        (
            &[DESCRIPTION, STREAMS, OUTPUT, END],
            b"refused Puzzle NoFunction Name",
        ),
        (
            &[NAME, DESCRIPTION, STREAMS, OUTPUT, END, unknown],
            b"refused Puzzle Lua Layout UnknownName 16",
        ),
        (
            &[NAME, DESCRIPTION, STREAMS, OUTPUT, END, endless],
            b"refused Puzzle Lua Layout Budget",
        ),
        (&[b"function f("], b"refused Syntax Syntax 1"),
        (&[b"\n\ngrid 2\n"], b"refused Syntax Syntax 3"),
        (&[b"grid 1 # a head\nx = 1\n"], b"refused Grid BadLine 2"),
        (&[], b"refused Puzzle NoFunction Name"),
    ] {
        let mut out = MemSink::honest(rt.alloc());
        let got = answer(rt.alloc(), &["run", "s", "g", "0", "9"], parts, &mut out)?;
        assert_eq!(rt; got.number(), 3);
        assert_eq!(rt; describe(rt.alloc(), &got)?.as_slice(), line);
        assert_eq!(rt; out.written(), b"".as_slice());
    }
    Ok(())
}
