//! The program `tis`.
#![tactic(auto)]

mod pages;
mod texts;
mod words;

use crate::pages::{page_of, print};
use crate::texts::PAGES;
use crate::words::words;
use std::alloc::Global;
use std::process::ExitCode;
use std::rt::Files;
use std::str;
use tis_base::{FileStore, OutSink};
use tis_cli::{Status, describe, tool};

#[cfg(test)]
mod tests;

// Does what the words say, over real files and standard output.
fn run<R: Files + Print + AllocGlobal>(rt: &R, words: &[String]) -> Status {
    let mut out = OutSink::new(rt);
    match page_of(&PAGES, words) {
        Some(text) => print(text, &mut out),
        None => tool(rt.alloc(), words, &mut FileStore::new(rt), &mut out),
    }
}

// Says on standard error why the program didn't do what the words say.
fn explain<R: Eprint>(rt: &R, alloc: Global, status: &Status) {
    if *status == Status::Done {
        return;
    }
    if let Ok(line) = describe(alloc, status) {
        if let Ok(text) = str::from_utf8(&line) {
            let _ = eprintln!(rt; "{text}");
        }
    }
}

fn main(rt: HostRuntime) -> ExitCode {
    let alloc = rt.alloc();
    let status = match words(&rt) {
        Ok(words) => run(&rt, &words),
        Err(status) => status,
    };
    explain(&rt, alloc, &status);
    ExitCode::from(status.number())
}
