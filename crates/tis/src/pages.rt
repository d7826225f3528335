//! The help and the version, which the program prints on its own.
ghost use Rattle.std.specs.Prelude.{◌≡◌, ◌≢◌, ◌⊎◌, ◌++◌, map, option_map, string_bytes};
ghost use Rattle.std.specs.Option.{option_copied};
ghost use Rattle.tis_base.specs.Outside.{Rose, WrotePrefix};
ghost use Rattle.tis.specs.Pages as of_words;

use tis_base::{Sink, SinkError};
use tis_cli::Status;

/// The texts that the program prints on its own: of all commands, of its version, and a page for each command.
#[derive(Drop)]
pub struct Pages {
    pub all: &'static str,
    pub version: &'static str,
    pub compile: &'static str,
    pub net: &'static str,
    pub grade: &'static str,
    pub run: &'static str,
    pub order: &'static str,
    pub replay: &'static str,
    pub debug: &'static str,
}

// The page of the command with a word, where there is one.
fn page_behind(pages: &Pages, word: &str) -> Option<&'static str>
    ensures { option_copied result ≡ of_words.page_behind pages.now word.now }
{
    if word == "compile" {
        Some(pages.compile)
    } else if word == "net" {
        Some(pages.net)
    } else if word == "grade" {
        Some(pages.grade)
    } else if word == "run" {
        Some(pages.run)
    } else if word == "order" {
        Some(pages.order)
    } else if word == "replay" {
        Some(pages.replay)
    } else if word == "debug" {
        Some(pages.debug)
    } else {
        None
    }
}

/// What the program prints for these words, where they are no command of the tool.
pub fn page_of(pages: &Pages, words: &[String]) -> Option<&'static str>
    ensures { option_copied result ≡ of_words.page_of pages.now (map string_bytes words.now) }
{
    match words {
        [word] if word.as_str() == "--help" => Some(pages.all),
        [word] if word.as_str() == "--version" => Some(pages.version),
        [command, word] if word.as_str() == "--help" => page_behind(pages, command.as_str()),
        _ => None,
    }
}

/// Prints a text, and says how that ended.
pub fn print<K: Sink>(text: &str, out: &mut K) -> Status
    ensures only { (result ≡ Status.Done) ⊎ ((result ≡ Status.SinkFault) ⊎ (result ≡ Status.NoMemory)) }
    ensures done { result ≡ Status.Done
        → K.written out.new ≡ option_map (λ w. w ++ text.now) (K.written out.old) }
    ensures sink_fault { result ≡ Status.SinkFault
        → WrotePrefix (K.written out.old) text.now (K.written out.new) }
    ensures sink_fault_counted { result ≡ Status.SinkFault → Rose (K.faults out.old) (K.faults out.new) }
    ensures no_memory { result ≡ Status.NoMemory → K.written out.new ≡ K.written out.old }
    ensures faults_stay { result ≢ Status.SinkFault → K.faults out.new ≡ K.faults out.old }
{
    match out.put(text.as_bytes()) {
        Ok(()) => Status::Done,
        Err(SinkError::Failed) => Status::SinkFault,
        Err(SinkError::NoMemory) => Status::NoMemory,
    }
}
