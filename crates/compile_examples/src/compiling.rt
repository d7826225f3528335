use std::alloc::{AllocError, Global};
use std::test::Fail;
use tis_base::{MemSink, MemStore, NoMemory, Sink, Store, Value, Values};
use tis_cli::{Refusal, Status, describe, tool};

// A network that passes the values of a column on.
const PLAIN_NET: &[u8] =
    b"net 1\ntiles CCCC CCCC CCCC\ninput a at 1 via\noutput o at 1 via 5 9\nprocess p at 1\nmove a o\nend\n";

// Its save.
const PLAIN_SAVE: &[u8] = b"@1\nMOV UP, DOWN\n\n@5\nMOV UP, DOWN\n\n@9\nMOV UP, DOWN\n\n";

// What stands under the name of the save before.
const OLD_SAVE: &[u8] = b"@0\nMOV UP, LEFT\n\n";

// A store with an old save under `s` that fails the calls with these numbers.
fn store_with_save(alloc: Global, failing: &[i64]) -> Result<MemStore, NoMemory> {
    let mut calls = Values::new(alloc);
    for call in failing {
        calls.push(Value::clamp(*call))?;
    }
    let mut store = MemStore::failing(alloc, calls);
    store.set("s", OLD_SAVE)?;
    Ok(store)
}

// The answer to these words.
fn answer<S: Store, K: Sink>(
    alloc: Global,
    words: &[&str],
    store: &mut S,
    out: &mut K,
) -> Result<Status, NoMemory> {
    let mut owned = Vec::new(alloc);
    for word in words {
        owned.push(String::from_str(alloc, word)?)?;
    }
    Ok(tool(alloc, &owned, store, out))
}

#[test]
fn a_network_is_compiled_to_its_save(rt: HostRuntime) -> Result<(), Fail> {
    for (net, save) in [
        (PLAIN_NET, PLAIN_SAVE),
        (
            b"net 1\ntiles CCCC CCCC CCCC\ninput in_of_sixteen_by at 0 via\noutput Q0123456789_____ at 0 via 4 8\nprocess Z9_ at 0\nmove in_of_sixteen_by Q0123456789_____\nend\n".as_slice(),
            b"@0\nMOV UP, DOWN\n\n@4\nMOV UP, DOWN\n\n@8\nMOV UP, DOWN\n\n".as_slice(),
        ),
        (
            b"net 1\ntiles CCCC CCCC CCCC\ninput a at 2 via\noutput a1 at 2 via 6 10\nprocess process_0 at 2\nmove a a1\nend\n".as_slice(),
            b"@2\nMOV UP, DOWN\n\n@6\nMOV UP, DOWN\n\n@10\nMOV UP, DOWN\n\n".as_slice(),
        ),
        (
            b"net 1\ntiles CCCC CCCC CCCC\ninput X at 3 via\noutput x at 3 via 7 11\nprocess p___5___9___d_gh at 3\nmove X x\nend\n".as_slice(),
            b"@3\nMOV UP, DOWN\n\n@7\nMOV UP, DOWN\n\n@11\nMOV UP, DOWN\n\n".as_slice(),
        ),
    ] {
        let mut store = MemStore::honest(rt.alloc());
        let mut out = MemSink::honest(rt.alloc());
        store.set("n", net)?;
        let status = answer(rt.alloc(), &["compile", "n", "s"], &mut store, &mut out)?;
        assert_eq!(rt; status, Status::Done);
        assert_eq!(rt; store.get("s"), Some(save));
        assert_eq!(rt; store.get("n"), Some(net));
        assert_eq!(rt; out.written(), b"".as_slice());
    }
    Ok(())
}

#[test]
fn processes_are_compiled_to_their_code(rt: HostRuntime) -> Result<(), Fail> {
    for (net, save) in [
        // Two processes, and one tile that the output passes.
        (
            b"net 1\ntiles CCCC CCCC CCCC\ninput a at 2 via\noutput o at 2 via 10\nchannel c via\nprocess p at 2\nget a x\ndouble x\nput c x\nend\nprocess q at 6\nget c x\nsub x 1\nput o x\nend\n".as_slice(),
            b"@2\nMOV UP, ACC\nADD ACC\nMOV ACC, DOWN\n\n@6\nMOV UP, ACC\nSUB 1\nMOV ACC, DOWN\n\n@10\nMOV UP, DOWN\n\n".as_slice(),
        ),
        // Sums at both ends of the values.
        (
            b"net 1\ntiles CCCC CCCC CCCC\ninput a at 1 via\noutput o at 1 via 5 9\nprocess p at 1\nget a x\nadd x 1\nput o x\nend\n".as_slice(),
            b"@1\nMOV UP, ACC\nADD 1\nMOV ACC, DOWN\n\n@5\nMOV UP, DOWN\n\n@9\nMOV UP, DOWN\n\n".as_slice(),
        ),
        (
            b"net 1\ntiles CCCC CCCC CCCC\ninput a at 1 via\noutput o at 1 via 5 9\nprocess p at 1\nget a x\nsub x 1\nput o x\nend\n".as_slice(),
            b"@1\nMOV UP, ACC\nSUB 1\nMOV ACC, DOWN\n\n@5\nMOV UP, DOWN\n\n@9\nMOV UP, DOWN\n\n".as_slice(),
        ),
        (
            b"net 1\ntiles CCCC CCCC CCCC\ninput a at 1 via\noutput o at 1 via 5 9\nprocess p at 1\nget a x\ndouble x\ndouble x\nput o x\nend\n".as_slice(),
            b"@1\nMOV UP, ACC\nADD ACC\nADD ACC\nMOV ACC, DOWN\n\n@5\nMOV UP, DOWN\n\n@9\nMOV UP, DOWN\n\n".as_slice(),
        ),
        // Three processes in the first column, with each statement, and none in between.
        (
            b"net 1\ntiles CCCC CCCC CCCC\ninput a at 0 via\noutput o at 0 via\nchannel c via\nchannel d via\nprocess p at 0\nmove a c\nend\nprocess q at 4\nget c x\nset x -999\nneg x\nadd x -5\nput d x\nend\nprocess r at 8\nget d x\nput o 999\nend\n".as_slice(),
            b"@0\nMOV UP, DOWN\n\n@4\nMOV UP, ACC\nMOV -999, ACC\nNEG\nADD -5\nMOV ACC, DOWN\n\n@8\nMOV UP, ACC\nMOV 999, DOWN\n\n".as_slice(),
        ),
        // The last column.
        (
            b"net 1\ntiles CCCC CCCC CCCC\ninput a at 3 via\noutput o at 3 via 11\nchannel x via\nprocess a at 3\nget a x\nput x 0\nend\nprocess x at 7\nmove x o\nend\n".as_slice(),
            b"@3\nMOV UP, ACC\nMOV 0, DOWN\n\n@7\nMOV UP, DOWN\n\n@11\nMOV UP, DOWN\n\n".as_slice(),
        ),
    ] {
        let mut store = MemStore::honest(rt.alloc());
        let mut out = MemSink::honest(rt.alloc());
        store.set("n", net)?;
        let status = answer(rt.alloc(), &["compile", "n", "s"], &mut store, &mut out)?;
        assert_eq!(rt; status, Status::Done);
        assert_eq!(rt; store.get("s"), Some(save));
        assert_eq!(rt; out.written(), b"".as_slice());
    }
    Ok(())
}

// A network of one process that adds one so many times, so that its body has two lines more.
fn net_that_adds(alloc: Global, times: usize) -> Result<String, AllocError> {
    let mut net = String::from_str(
        alloc,
        "net 1\ntiles CCCC CCCC CCCC\ninput a at 1 via\noutput o at 1 via 5 9\nprocess p at 1\nget a x\n",
    )?;
    for _ in 0..times {
        net.push_str("add x 1\n")?;
    }
    net.push_str("put o x\nend\n")?;
    Ok(net)
}

#[test]
fn a_body_has_at_most_fifteen_lines(rt: HostRuntime) -> Result<(), Fail> {
    for (times, status) in [
        (0, Status::Done),
        (13, Status::Done),
        (14, Status::Refused(Refusal::NotThisForm)),
        (100, Status::Refused(Refusal::NotThisForm)),
    ] {
        let mut store = store_with_save(rt.alloc(), &[])?;
        let mut out = MemSink::honest(rt.alloc());
        store.set("n", net_that_adds(rt.alloc(), times)?.as_bytes())?;
        let got = answer(rt.alloc(), &["compile", "n", "s"], &mut store, &mut out)?;
        assert_eq!(rt; got, status, "{times} lines in between");
        let is_kept = store.get("s") != Some(OLD_SAVE);
        assert_eq!(rt; is_kept, got == Status::Done);
    }
    Ok(())
}

#[test]
fn a_text_that_is_nearly_a_pipeline_is_refused(rt: HostRuntime) -> Result<(), Fail> {
    let mut out = MemSink::honest(rt.alloc());
    for text in [
        // The other variable.
        "net 1\ntiles CCCC CCCC CCCC\ninput a at 1 via\noutput o at 1 via 5 9\nprocess p at 1\nget a y\nput o y\nend\n",
        // Nothing read, nothing sent, two reads, a statement behind the last one.
        "net 1\ntiles CCCC CCCC CCCC\ninput a at 1 via\noutput o at 1 via 5 9\nprocess p at 1\nput o 1\nend\n",
        "net 1\ntiles CCCC CCCC CCCC\ninput a at 1 via\noutput o at 1 via 5 9\nprocess p at 1\nget a x\nneg x\nend\n",
        "net 1\ntiles CCCC CCCC CCCC\ninput a at 1 via\noutput o at 1 via 5 9\nprocess p at 1\nget a x\nget a x\nput o x\nend\n",
        "net 1\ntiles CCCC CCCC CCCC\ninput a at 1 via\noutput o at 1 via 5 9\nprocess p at 1\nget a x\nput o x\nneg x\nend\n",
        "net 1\ntiles CCCC CCCC CCCC\ninput a at 1 via\noutput o at 1 via 5 9\nprocess p at 1\nend\n",
        // Numbers that are too large, have a sign, a zero in front, or none of the digits.
        "net 1\ntiles CCCC CCCC CCCC\ninput a at 1 via\noutput o at 1 via 5 9\nprocess p at 1\nget a x\nadd x 1000\nput o x\nend\n",
        "net 1\ntiles CCCC CCCC CCCC\ninput a at 1 via\noutput o at 1 via 5 9\nprocess p at 1\nget a x\nadd x +1\nput o x\nend\n",
        "net 1\ntiles CCCC CCCC CCCC\ninput a at 1 via\noutput o at 1 via 5 9\nprocess p at 1\nget a x\nadd x 01\nput o x\nend\n",
        "net 1\ntiles CCCC CCCC CCCC\ninput a at 1 via\noutput o at 1 via 5 9\nprocess p at 1\nget a x\nadd x -0\nput o x\nend\n",
        "net 1\ntiles CCCC CCCC CCCC\ninput a at 1 via\noutput o at 1 via 5 9\nprocess p at 1\nget a x\nadd x -\nput o x\nend\n",
        // A channel that is written twice, links that are crossed, a channel that nobody has.
        "net 1\ntiles CCCC CCCC CCCC\ninput a at 1 via\noutput o at 1 via 9\nchannel c via\nprocess p at 1\nmove a c\nend\nprocess q at 5\nmove c c\nend\n",
        "net 1\ntiles CCCC CCCC CCCC\ninput a at 1 via\noutput o at 1 via\nchannel c via\nchannel d via\nprocess p at 1\nmove a d\nend\nprocess q at 5\nmove d c\nend\nprocess r at 9\nmove c o\nend\n",
        "net 1\ntiles CCCC CCCC CCCC\ninput a at 1 via\noutput o at 1 via 9\nprocess p at 1\nmove a c\nend\nprocess q at 5\nmove c o\nend\n",
        // One name for two links, and for two processes.
        "net 1\ntiles CCCC CCCC CCCC\ninput a at 1 via\noutput o at 1 via 9\nchannel a via\nprocess p at 1\nmove a a\nend\nprocess q at 5\nmove a o\nend\n",
        "net 1\ntiles CCCC CCCC CCCC\ninput a at 1 via\noutput o at 1 via 9\nchannel c via\nprocess p at 1\nmove a c\nend\nprocess p at 5\nmove c o\nend\n",
        // A path that is too long, one that is too short, and a blank too many.
        "net 1\ntiles CCCC CCCC CCCC\ninput a at 1 via\noutput o at 1 via 5 9\nchannel c via\nprocess p at 1\nmove a c\nend\nprocess q at 5\nmove c o\nend\n",
        "net 1\ntiles CCCC CCCC CCCC\ninput a at 1 via\noutput o at 1 via 9\nprocess p at 1\nmove a o\nend\n",
        "net 1\ntiles CCCC CCCC CCCC\ninput a at 1 via\noutput o at 1 via 5 9\nprocess p at 1\nget a x\ndouble  x\nput o x\nend\n",
        // Processes that stand in another order, and a fourth one.
        "net 1\ntiles CCCC CCCC CCCC\ninput a at 1 via\noutput o at 1 via 9\nchannel c via\nprocess p at 5\nmove a c\nend\nprocess q at 1\nmove c o\nend\n",
        "net 1\ntiles CCCC CCCC CCCC\ninput a at 1 via\noutput o at 1 via\nchannel c via\nchannel d via\nchannel e via\nprocess p at 1\nmove a c\nend\nprocess q at 5\nmove c d\nend\nprocess r at 9\nmove d e\nend\nprocess s at 13\nmove e o\nend\n",
    ] {
        let mut store = store_with_save(rt.alloc(), &[])?;
        store.set("n", text.as_bytes())?;
        let status = answer(rt.alloc(), &["compile", "n", "s"], &mut store, &mut out)?;
        assert_eq!(rt; status, Status::Refused(Refusal::NotThisForm), "{text}");
        assert_eq!(rt; store.get("s"), Some(OLD_SAVE));
    }
    Ok(())
}

#[test]
fn a_text_that_breaks_off_is_refused(rt: HostRuntime) -> Result<(), Fail> {
    let mut out = MemSink::honest(rt.alloc());
    for len in 0..PLAIN_NET.len() {
        let mut store = store_with_save(rt.alloc(), &[])?;
        store.set("n", &PLAIN_NET[..len])?;
        let status = answer(rt.alloc(), &["compile", "n", "s"], &mut store, &mut out)?;
        assert_eq!(rt; status, Status::Refused(Refusal::NotThisForm), "at {len}");
        assert_eq!(rt; store.get("s"), Some(OLD_SAVE));
        assert_eq!(rt; store.get("n"), Some(&PLAIN_NET[..len]));
    }
    assert_eq!(rt; out.written(), b"".as_slice());
    Ok(())
}

#[test]
fn a_text_that_is_nearly_a_network_is_refused(rt: HostRuntime) -> Result<(), Fail> {
    let mut out = MemSink::honest(rt.alloc());
    for text in [
        // The tiles of the output's path in another order.
        "net 1\ntiles CCCC CCCC CCCC\ninput a at 1 via\noutput o at 1 via 9 5\nprocess p at 1\nmove a o\nend\n",
        // A CR before an LF.
        "net 1\r\ntiles CCCC CCCC CCCC\ninput a at 1 via\noutput o at 1 via 5 9\nprocess p at 1\nmove a o\nend\n",
        // Two blanks, and a blank at the end of a line.
        "net 1\ntiles CCCC CCCC CCCC\ninput a at 1 via\noutput o at 1 via 5  9\nprocess p at 1\nmove a o\nend\n",
        "net 1\ntiles CCCC CCCC CCCC\ninput a at 1 via \noutput o at 1 via 5 9\nprocess p at 1\nmove a o\nend\n",
        // A zero in front of a number.
        "net 1\ntiles CCCC CCCC CCCC\ninput a at 01 via\noutput o at 1 via 5 9\nprocess p at 1\nmove a o\nend\n",
        "net 1\ntiles CCCC CCCC CCCC\ninput a at 1 via\noutput o at 1 via 05 9\nprocess p at 1\nmove a o\nend\n",
        // One name for both links, a name that begins with a digit, and names of seventeen bytes.
        "net 1\ntiles CCCC CCCC CCCC\ninput a at 1 via\noutput a at 1 via 5 9\nprocess p at 1\nmove a a\nend\n",
        "net 1\ntiles CCCC CCCC CCCC\ninput 1a at 1 via\noutput o at 1 via 5 9\nprocess p at 1\nmove 1a o\nend\n",
        "net 1\ntiles CCCC CCCC CCCC\ninput a2345678901234567 at 1 via\noutput o at 1 via 5 9\nprocess p at 1\nmove a2345678901234567 o\nend\n",
        "net 1\ntiles CCCC CCCC CCCC\ninput a at 1 via\noutput o at 1 via 5 9\nprocess p2345678901234567 at 1\nmove a o\nend\n",
        // No column of this number, and a process in another one.
        "net 1\ntiles CCCC CCCC CCCC\ninput a at 4 via\noutput o at 4 via 8 12\nprocess p at 4\nmove a o\nend\n",
        "net 1\ntiles CCCC CCCC CCCC\ninput a at 1 via\noutput o at 1 via 5 9\nprocess p at 2\nmove a o\nend\n",
        // Lines too many: an empty one, and comments.
        "net 1\ntiles CCCC CCCC CCCC\ninput a at 1 via\noutput o at 1 via 5 9\nprocess p at 1\nmove a o\nend\n\n",
        "# a net\nnet 1\ntiles CCCC CCCC CCCC\ninput a at 1 via\noutput o at 1 via 5 9\nprocess p at 1\nmove a o\nend\n",
        "net 1\ntiles CCCC CCCC CCCC\ninput a at 1 via # in\noutput o at 1 via 5 9\nprocess p at 1\nmove a o\nend\n",
        // Another head, and other tiles.
        "net 2\ntiles CCCC CCCC CCCC\ninput a at 1 via\noutput o at 1 via 5 9\nprocess p at 1\nmove a o\nend\n",
        "net 1\ntiles CCCM CCCC CCCC\ninput a at 1 via\noutput o at 1 via 5 9\nprocess p at 1\nmove a o\nend\n",
        // A move the other way, and two of them.
        "net 1\ntiles CCCC CCCC CCCC\ninput a at 1 via\noutput o at 1 via 5 9\nprocess p at 1\nmove o a\nend\n",
        "net 1\ntiles CCCC CCCC CCCC\ninput a at 1 via\noutput o at 1 via 5 9\nprocess p at 1\nmove a o\nmove a o\nend\n",
    ] {
        let mut store = store_with_save(rt.alloc(), &[])?;
        store.set("n", text.as_bytes())?;
        let status = answer(rt.alloc(), &["compile", "n", "s"], &mut store, &mut out)?;
        assert_eq!(rt; status, Status::Refused(Refusal::NotThisForm), "{text}");
        assert_eq!(rt; store.get("s"), Some(OLD_SAVE));
    }
    Ok(())
}

#[test]
fn a_store_that_fails_is_told_of(rt: HostRuntime) -> Result<(), Fail> {
    let mut out = MemSink::honest(rt.alloc());
    for (call, net, status, save) in [
        (0, Some(PLAIN_NET), Status::StoreFault, OLD_SAVE),
        (1, Some(PLAIN_NET), Status::StoreFault, OLD_SAVE),
        (2, Some(PLAIN_NET), Status::Done, PLAIN_SAVE),
        (-1, Some(PLAIN_NET), Status::Done, PLAIN_SAVE),
        (0, None, Status::StoreFault, OLD_SAVE),
        (1, None, Status::Missing, OLD_SAVE),
    ] {
        let mut store = store_with_save(rt.alloc(), &[call])?;
        if let Some(net) = net {
            store.set("n", net)?;
        }
        let got = answer(rt.alloc(), &["compile", "n", "s"], &mut store, &mut out)?;
        assert_eq!(rt; got, status, "call {call}");
        assert_eq!(rt; store.get("s"), Some(save), "call {call}");
        assert_eq!(rt; store.get("n"), net);
    }
    Ok(())
}

#[test]
fn other_words_fetch_nothing(rt: HostRuntime) -> Result<(), Fail> {
    let mut store = store_with_save(rt.alloc(), &[0])?;
    let mut out = MemSink::honest(rt.alloc());
    store.set("n", PLAIN_NET)?;
    for (words, status) in [
        ([].as_slice(), Status::Words),
        (["compile"].as_slice(), Status::Words),
        (["compile", "n"].as_slice(), Status::Words),
        (["compile", "n", "s", "x"].as_slice(), Status::Words),
        (["Compile", "n", "s"].as_slice(), Status::Words),
        (["run", "n", "s"].as_slice(), Status::Words),
        // The first call of the store is still to come, and fails.
        (["compile", "n", "s"].as_slice(), Status::StoreFault),
    ] {
        let got = answer(rt.alloc(), words, &mut store, &mut out)?;
        assert_eq!(rt; got, status);
        assert_eq!(rt; store.get("s"), Some(OLD_SAVE));
    }
    assert_eq!(rt; out.written(), b"".as_slice());
    Ok(())
}

#[test]
fn each_status_has_a_number_and_a_line(rt: HostRuntime) -> Result<(), Fail> {
    for (status, number, line) in [
        (Status::Done, 0, b"".as_slice()),
        (Status::Words, 2, b"not a command".as_slice()),
        (
            Status::Refused(Refusal::NotThisForm),
            3,
            b"refused NotThisForm".as_slice(),
        ),
        (Status::Missing, 4, b"missing".as_slice()),
        (Status::StoreFault, 5, b"store fault".as_slice()),
        (Status::SinkFault, 6, b"sink fault".as_slice()),
        (Status::NoMemory, 7, b"no memory".as_slice()),
    ] {
        assert_eq!(rt; status.number(), number);
        assert_eq!(rt; describe(rt.alloc(), &status)?.as_slice(), line);
    }
    Ok(())
}
