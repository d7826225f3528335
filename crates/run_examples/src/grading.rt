use std::alloc::Global;
use std::test::Fail;
use tis_base::{MemSink, MemStore, NoMemory};
use tis_cli::{Status, tool};
use tis_grade::Verdict;

// A save that passes the values of a column on.
const S: &[u8] = b"@1\nMOV UP, DOWN\n\n@5\nMOV UP, DOWN\n\n@9\nMOV UP, DOWN\n\n";

// The answer to these words over a save `s` and a grid `g`.
fn answer(
    alloc: Global,
    words: &[&str],
    save: &[u8],
    grid: &[u8],
    out: &mut MemSink,
) -> Result<Status, NoMemory> {
    let mut store = MemStore::honest(alloc);
    store.set("s", save)?;
    store.set("g", grid)?;
    let mut owned = Vec::new(alloc);
    for word in words {
        owned.push(String::from_str(alloc, word)?)?;
    }
    Ok(tool(alloc, &owned, &mut store, out))
}

#[test]
fn a_save_is_graded_seed_by_seed_up_to_the_first_that_fails(rt: HostRuntime) -> Result<(), Fail> {
    let both = b"grid 1\ntiles CCCC CCCC CCCC\ninput 1 5 7\noutput 1 5 7\n".as_slice();
    let other = b"grid 1\ntiles CCCC CCCC CCCC\ninput 1 5 7\noutput 1 5 8\n".as_slice();
    let more = b"grid 1\ntiles CCCC CCCC CCCC\ninput 1 5 7\noutput 1 5\noutput 2 9\n".as_slice();
    let first = b"grid 1\ntiles CCCC CCCC CCCC\ninput 1 5 7\noutput 1 5\n".as_slice();
    let full =
        b"grid 1\ntiles CMCC CCCC CCCC\ninput 0 1 1 1 1 1 1 1 1 1 1 1 1 1 1 1 1\noutput 3 1\n".as_slice();
    let pushes = b"@0\nMOV UP, RIGHT\n".as_slice();
    for (words, save, grid, number, report) in [
        (
            ["grade", "s", "g", "6", "1", "2"].as_slice(),
            S,
            both,
            0,
            b"seed 1 passed 6\nseed 2 passed 6\ncycles 6 nodes 3 instructions 3\n".as_slice(),
        ),
        (
            ["grade", "s", "g", "5", "003", "2"].as_slice(),
            S,
            both,
            1,
            b"seed 3 late 5\n".as_slice(),
        ),
        (
            ["grade", "s", "g", "100", "0"].as_slice(),
            S,
            other,
            1,
            b"seed 0 wrong out 1 index 1 want 8 got 7\n".as_slice(),
        ),
        (
            ["grade", "s", "g", "100", "0"].as_slice(),
            S,
            more,
            1,
            b"seed 0 extra out 1\n".as_slice(),
        ),
        (
            ["grade", "s", "g", "100", "0"].as_slice(),
            S,
            first,
            0,
            b"seed 0 passed 4\ncycles 4 nodes 3 instructions 3\n".as_slice(),
        ),
        (
            ["grade", "s", "g", "100", "0"].as_slice(),
            pushes,
            full,
            1,
            b"seed 0 stuck 31\n".as_slice(),
        ),
        (
            [
                "grade", "s", "g", "6", "1", "2", "3", "4", "5", "6", "7", "8", "9",
            ]
            .as_slice(),
            S,
            both,
            2,
            b"".as_slice(),
        ),
        (
            ["grade", "s", "s", "6", "1"].as_slice(),
            S,
            both,
            3,
            b"".as_slice(),
        ),
    ] {
        let mut out = MemSink::honest(rt.alloc());
        let got = answer(rt.alloc(), words, save, grid, &mut out)?;
        assert_eq!(rt; got.number(), number);
        assert_eq!(rt; out.written(), report);
    }
    Ok(())
}

#[test]
fn the_seed_and_the_verdict_of_the_first_that_fails_are_told(rt: HostRuntime) -> Result<(), Fail> {
    let grid = b"grid 1\ntiles CCCC CCCC CCCC\ninput 1 5 7\noutput 1 5 7\n".as_slice();
    let mut out = MemSink::honest(rt.alloc());
    let got = answer(
        rt.alloc(),
        &["grade", "s", "g", "5", "4", "2"],
        S,
        grid,
        &mut out,
    )?;
    let verdict = Verdict::Late { limit: 5 };
    assert_eq!(rt; got, Status::NotPassed { seed: 4, verdict });
    Ok(())
}
