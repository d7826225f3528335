use crate::pages::{Pages, page_of, print};
use std::alloc::Global;
use std::test::Fail;
use tis_base::{MemSink, NoMemory, Value, Values};
use tis_cli::Status;

// What is printed for these words, where these are the texts.
fn page(alloc: Global, pages: &Pages, words: &[&str]) -> Result<Option<&'static str>, NoMemory> {
    let mut owned = Vec::new(alloc);
    for word in words {
        owned.push(String::from_str(alloc, word)?)?;
    }
    Ok(page_of(pages, &owned))
}

#[test]
fn help_and_version_are_known_before_any_command(rt: HostRuntime) -> Result<(), Fail> {
    let pages = Pages {
        all: "every command",
        version: "a version",
        compile: "of compile",
        net: "of net",
        grade: "of grade",
        run: "of run",
        order: "of order",
        replay: "of replay",
        debug: "of debug",
    };
    for (words, want) in [
        (["--help"].as_slice(), Some("every command")),
        (["--version"].as_slice(), Some("a version")),
        (["compile", "--help"].as_slice(), Some("of compile")),
        (["net", "--help"].as_slice(), Some("of net")),
        (["grade", "--help"].as_slice(), Some("of grade")),
        (["run", "--help"].as_slice(), Some("of run")),
        (["order", "--help"].as_slice(), Some("of order")),
        (["replay", "--help"].as_slice(), Some("of replay")),
        (["debug", "--help"].as_slice(), Some("of debug")),
        ([].as_slice(), None),
        (["help"].as_slice(), None),
        (["help", "--help"].as_slice(), None),
        (["compile"].as_slice(), None),
        (["compile", "--version"].as_slice(), None),
        (["--help", "compile"].as_slice(), None),
        (["--help", "--help"].as_slice(), None),
        (["compile", "--help", "save"].as_slice(), None),
    ] {
        assert!(rt; page(rt.alloc(), &pages, words)? == want);
    }
    Ok(())
}

#[test]
fn a_page_that_is_not_printed_ends_as_a_fault_of_the_sink(rt: HostRuntime) -> Result<(), Fail> {
    let mut calls = Values::new(rt.alloc());
    calls.push(Value::clamp(1))?;
    let mut out = MemSink::failing(rt.alloc(), calls);
    assert_eq!(rt; print("tis 0.1.0\n", &mut out), Status::Done);
    assert_eq!(rt; print("tis 0.1.0\n", &mut out), Status::SinkFault);
    assert_eq!(rt; out.written(), b"tis 0.1.0\n".as_slice());
    Ok(())
}
