use std::alloc::Global;
use std::test::Fail;
use tis_base::{MemSink, MemStore, NoMemory};
use tis_cli::{describe, tool};

// The first two lines of each network here.
const HEAD: &[u8] = b"net 1\ntiles CCCC CCCC CCCC\n";

// And then an input and an output in one column, and the line of a process.
const ONE: &[u8] = b"input a at 1 via\noutput o at 1 via 5 9\nprocess p at 1\n";

// What `net` answers of a network in three parts over a grid of these inputs: the line of its status.
fn answer(
    alloc: Global,
    head: &[u8],
    middle: &[u8],
    body: &[u8],
    inputs: &[u8],
    out: &mut MemSink,
) -> Result<Vec<u8>, NoMemory> {
    let mut net = Vec::new(alloc);
    net.extend_from_slice(head)?;
    net.extend_from_slice(middle)?;
    net.extend_from_slice(body)?;
    let mut grid = Vec::new(alloc);
    grid.extend_from_slice(b"grid 1\ntiles CMCC CCCC CCCC\n")?;
    grid.extend_from_slice(inputs)?;
    let mut store = MemStore::honest(alloc);
    store.set("n", &net)?;
    store.set("g", &grid)?;
    let mut owned = Vec::new(alloc);
    for word in ["net", "n", "g"] {
        owned.push(String::from_str(alloc, word)?)?;
    }
    let status = tool(alloc, &owned, &mut store, out);
    describe(alloc, &status)
}

#[test]
fn networks_say_their_streams_or_the_first_broken_rule(rt: HostRuntime) -> Result<(), Fail> {
    for (middle, body, inputs, report, line) in [
        (
            ONE,
            b"get a x\nadd x 1\nput o x\nend\n".as_slice(),
            b"input 1 999\n".as_slice(),
            b"out 1 999\n".as_slice(),
            b"".as_slice(),
        ),
        (
            ONE,
            b"get a x\nsub x 1\nput o x\nend\n".as_slice(),
            b"input 1 -999\ninput 2 5\n".as_slice(),
            b"out 1 -999\n".as_slice(),
            b"".as_slice(),
        ),
        (
            ONE,
            b"get a x\ndouble x\ndouble x\nput o x\nend\n".as_slice(),
            b"input 1 -999 400 3\n".as_slice(),
            b"out 1 -999 999 12\n".as_slice(),
            b"".as_slice(),
        ),
        (
            b"input a at 1 via\ninput b at 0 via 0\ninput c at 2 via 2\noutput o at 1 via 5 9\nprocess p at 1\n".as_slice(),
            b"get a x\nput o x\nget b x\nput o x\nget c x\nput o x\nend\n".as_slice(),
            b"input 1 1 2 3\ninput 0 100\ninput 2\n".as_slice(),
            b"out 1 1 100\n".as_slice(),
            b"".as_slice(),
        ),
        (
            ONE,
            b"get a x\nwhile x != 0\nput o x\nget a x\nend\nput o -1\nend\n".as_slice(),
            b"input 1 3 4 0 5\n".as_slice(),
            b"out 1 3 4 -1 5\n".as_slice(),
            b"".as_slice(),
        ),
        (
            ONE,
            b"get a x\ncount x\nput o 7\nend\nput o x\nend\n".as_slice(),
            b"input 1 2 0 -5\n".as_slice(),
            b"out 1 7 7 0 0 -5\n".as_slice(),
            b"".as_slice(),
        ),
        (
            b"input a at 0\noutput q at 3\noutput o at 1\nchannel c\nprocess p\nget a x\nput c x\nput q x\nend\nprocess r\n".as_slice(),
            b"get c y\nif y > 0\nput o 1\nelse\nneg y\nend\nput o y\nend\n".as_slice(),
            b"input 0 3 -2\n".as_slice(),
            b"out 1 1 3 2\nout 3 3 -2\n".as_slice(),
            b"".as_slice(),
        ),
        (
            b"input a at 1\noutput o at 1\n".as_slice(),
            b"channel c\nchannel d\nprocess p\nget a x\nput c x\nput d x\nend\nprocess q\nget c x\ngetadd d x\nput o x\nend\n".as_slice(),
            b"".as_slice(),
            b"".as_slice(),
            b"refused Rule JoinAfterSplit 1".as_slice(),
        ),
        (
            ONE,
            b"move b o\nend\n".as_slice(),
            b"".as_slice(),
            b"".as_slice(),
            b"refused Rule Unknown 6".as_slice(),
        ),
        (
            b"input a at 1 via\noutput a at 1 via 5 9\nprocess p at 1\n".as_slice(),
            b"move a o\nend\n".as_slice(),
            b"".as_slice(),
            b"".as_slice(),
            b"refused Rule Repeated 4".as_slice(),
        ),
        (
            b"input a at 1 via\ninput b at 1 via\noutput o at 1 via 5 9\nprocess p at 1\n".as_slice(),
            b"move a o\nend\n".as_slice(),
            b"".as_slice(),
            b"".as_slice(),
            b"refused Rule SamePlace 4".as_slice(),
        ),
        (
            ONE,
            b"move a o\nend\nprocess q at 2\nget a x\nend\n".as_slice(),
            b"".as_slice(),
            b"".as_slice(),
            b"refused Rule ReadTwice 9".as_slice(),
        ),
        (
            ONE,
            b"move a o\nend\nprocess q at 2\nput o 1\nend\n".as_slice(),
            b"".as_slice(),
            b"".as_slice(),
            b"refused Rule WrittenTwice 9".as_slice(),
        ),
        (
            ONE,
            b"get a x\ncount x\nadd x 1\nend\nput o x\nend\n".as_slice(),
            b"".as_slice(),
            b"".as_slice(),
            b"refused Rule CounterChanged 8".as_slice(),
        ),
        (
            ONE,
            b"get a x\nend\n".as_slice(),
            b"".as_slice(),
            b"".as_slice(),
            b"refused Rule Unwritten 4".as_slice(),
        ),
        (
            ONE,
            b"put o 1\nend\n".as_slice(),
            b"".as_slice(),
            b"".as_slice(),
            b"refused Rule Unread 3".as_slice(),
        ),
        (
            b"input a at 1 via\noutput o at 1 via 5 9\nchannel c via\n".as_slice(),
            b"process p at 1\nget c x\nput o x\nend\nprocess q at 5\nmove a c\nend\n".as_slice(),
            b"".as_slice(),
            b"".as_slice(),
            b"refused Rule ReadBeforeWritten 7".as_slice(),
        ),
        (
            ONE,
            b"if x = 0\nget a x\nend\nput o x\nend\n".as_slice(),
            b"".as_slice(),
            b"".as_slice(),
            b"refused Rule NoSureRead 0".as_slice(),
        ),
        (
            ONE,
            b"get a x\nwhile x > 0\nsub x 1\nend\nput o x\nend\n".as_slice(),
            b"".as_slice(),
            b"".as_slice(),
            b"refused Rule LoopWithoutRead 7".as_slice(),
        ),
        (
            ONE,
            b"move a o\n".as_slice(),
            b"".as_slice(),
            b"".as_slice(),
            b"refused Net Unclosed 5".as_slice(),
        ),
        (
            ONE,
            b"move a o\nend\nend\n".as_slice(),
            b"".as_slice(),
            b"".as_slice(),
            b"refused Net StrayEnd 8".as_slice(),
        ),
        (
            ONE,
            b"put o 1\nend\n".as_slice(),
            b"input 9\n".as_slice(),
            b"".as_slice(),
            b"refused Grid BadLine 3".as_slice(),
        ),
    ] {
        let mut out = MemSink::honest(rt.alloc());
        let told = answer(rt.alloc(), HEAD, middle, body, inputs, &mut out)?;
        assert_eq!(rt; told.as_slice(), line);
        assert_eq!(rt; out.written(), report);
    }
    Ok(())
}

#[test]
fn networks_have_limits_and_long_streams(rt: HostRuntime) -> Result<(), Fail> {
    let mut deep = Vec::new(rt.alloc());
    for _ in 0..17u8 {
        deep.extend_from_slice(b"if x = 0\n")?;
    }
    let mut long = Vec::new(rt.alloc());
    for _ in 0..65_534u32 {
        long.extend_from_slice(b"input a at 0\n")?;
    }
    let mut sevens = Vec::new(rt.alloc());
    sevens.extend_from_slice(b"out 1")?;
    for _ in 0..999u32 {
        sevens.extend_from_slice(b" 7")?;
    }
    sevens.extend_from_slice(b" 0\n")?;
    for (head, middle, body, report, line) in [
        (
            HEAD,
            ONE,
            deep.as_slice(),
            b"".as_slice(),
            b"refused Net TooDeep 22".as_slice(),
        ),
        (
            HEAD,
            b"".as_slice(),
            long.as_slice(),
            b"".as_slice(),
            b"refused Net BadLine 65536".as_slice(),
        ),
        (
            b"".as_slice(),
            b"".as_slice(),
            b"".as_slice(),
            b"".as_slice(),
            b"refused Net BadLine 1".as_slice(),
        ),
        (
            HEAD,
            ONE,
            b"get a x\ncount x\nput o 7\nend\nput o x\nend\n".as_slice(),
            sevens.as_slice(),
            b"".as_slice(),
        ),
    ] {
        let mut out = MemSink::honest(rt.alloc());
        let told = answer(rt.alloc(), head, middle, body, b"input 1 999\n", &mut out)?;
        assert_eq!(rt; told.as_slice(), line);
        assert_eq!(rt; out.written(), report);
    }
    Ok(())
}
