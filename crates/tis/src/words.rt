//! The words of the command line.
ghost use Rattle.std.specs.Prelude.{◌≡◌, ◌⊎◌, IfErr};
ghost use Rattle.tis.specs.Words.{status_without_words};

use std::env;
use std::io::ErrorKind;
use std::rt::Env;
use tis_cli::Status;

// How the program ends where the system doesn't give its words.
fn cause_of(kind: ErrorKind) -> Status
    ensures { result ≡ status_without_words kind }
{
    match kind {
        ErrorKind::OutOfMemory => Status::NoMemory,
        _ => Status::Words,
    }
}

/// The words after the program's name. Where they can't be had as a whole, memory ran out or they
/// are no command.
pub fn words<R: Env + AllocGlobal>(rt: &R) -> Result<Vec<String>, Status>
    ensures { IfErr result (λ status. (status ≡ Status.NoMemory) ⊎ (status ≡ Status.Words)) }
{
    match env::args(rt) {
        Ok(given) => match given.skip(1).collect(rt.alloc()) {
            Ok(words) => Ok(words),
            Err(_) => Err(Status::NoMemory),
        },
        Err(error) => Err(cause_of(error.kind())),
    }
}
