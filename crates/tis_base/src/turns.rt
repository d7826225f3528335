//! What a loop over a file or over standard output does after each of its calls.
ghost use Rattle.std.specs.Prelude.{◌≡◌};
ghost use Rattle.tis_base.specs.Turns as turn;

use crate::store::StoreError;
use std::io;
use std::io::ErrorKind;

/// The most bytes that a text in a file may have: 16 MiB.
pub(crate) const LARGEST: usize = 16 * 1024 * 1024;

/// What follows a read.
#[derive(Clone, Copy)]
pub(crate) enum AfterRead {
    /// So many bytes are kept, and the next read follows.
    Keep(usize),
    /// All was read.
    Finish,
    /// The next read follows.
    Retry,
    /// The reading ends with this answer.
    Fail(StoreError),
}

/// What follows a write.
#[derive(Clone, Copy)]
pub(crate) enum AfterWrite {
    /// The rest behind so many bytes is written next.
    Advance(usize),
    /// The same bytes are written again.
    Retry,
    /// The writing ends with this kind of error.
    Fail(ErrorKind),
}

/// How many calls a loop over a file or over standard output may make: one for each byte of the
/// largest text, and one that finds the end.
pub(crate) fn turns() -> usize
    ensures { result ≡ 16777217 }
{
    LARGEST + 1
}

/// The store's answer where a file couldn't be read, made or written.
pub(crate) fn cause_of(kind: ErrorKind) -> StoreError
    ensures { result ≡ turn.cause_of kind }
{
    match kind {
        ErrorKind::OutOfMemory => StoreError::NoMemory,
        _ => StoreError::Failed,
    }
}

/// The store's answer where a file couldn't be opened to be read.
pub(crate) fn cause_of_open(kind: ErrorKind) -> StoreError
    ensures { result ≡ turn.cause_of_open kind }
{
    match kind {
        ErrorKind::NotFound => StoreError::Missing,
        _ => cause_of(kind),
    }
}

/// What follows a read that gave this.
pub(crate) fn after_read(outcome: io::Result<usize>) -> AfterRead
    ensures { result ≡ turn.after_read outcome }
{
    match outcome {
        Ok(0) => AfterRead::Finish,
        Ok(count) => AfterRead::Keep(count),
        Err(error) => match error.kind() {
            ErrorKind::Interrupted => AfterRead::Retry,
            kind => AfterRead::Fail(cause_of(kind)),
        },
    }
}

/// What follows a write that gave this.
pub(crate) fn after_write(outcome: io::Result<usize>) -> AfterWrite
    ensures { result ≡ turn.after_write outcome }
{
    match outcome {
        Ok(0) => AfterWrite::Fail(ErrorKind::WriteZero),
        Ok(count) => AfterWrite::Advance(count),
        Err(error) => match error.kind() {
            ErrorKind::Interrupted => AfterWrite::Retry,
            kind => AfterWrite::Fail(kind),
        },
    }
}
