//! Whole texts out of a reader and into a writer, each in a bounded number of turns.
ghost use Rattle.std.specs.Prelude.{◌≡◌, ◌<◌, ◌≤◌, ◌+◌, ◌*◌, ◌↔◌, ◌++◌, [], length, take, vec_len, IsTrue, IfOk, OnOk, OnErr, IsErrOf};
ghost use Rattle.std.specs.Io.KnownBytes.{Consumes, Appends, Keeps, IsAtEnd};
ghost use Rattle.tis_base.specs.Transfers.{ReadsMore, AppendsPrefix};

use crate::store::StoreError;
use crate::turns::{AfterRead, AfterWrite, LARGEST, after_read, after_write, turns};
use std::alloc::Global;
use std::io::{ErrorKind, Read, Write};

// How many bytes one read may take.
const CHUNK: usize = 8192;

// Puts more bytes behind those that were read, and fails where these were too many.
fn add(bytes: &mut Vec<u8>, more: &[u8]) -> Result<(), StoreError>
    requires { vec_len bytes.old ≤ 16777216 }
    ensures ok { OnOk result (bytes.new.items ≡ bytes.old.items ++ more.now) }
    ensures fits { OnOk result (vec_len bytes.new ≤ 16777216) }
    ensures too_large { IsErrOf result StoreError.Failed
        ↔ (16777216 < vec_len bytes.old + length more.now) }
    ensures never_missing { ¬ (IsErrOf result StoreError.Missing) }
{
    if LARGEST - bytes.len() < more.len() {
        return Err(StoreError::Failed);
    }
    bytes.extend_from_slice(more)?;
    Ok(())
}

// One read behind what was read before, and whether it found the end.
fn read_more<F: Read>(
    file: &mut F,
    chunk: &mut [u8],
    bytes: &mut Vec<u8>,
) -> Result<bool, StoreError>
    requires room { 0 < length chunk.old }
    requires fits { vec_len bytes.old ≤ 16777216 }
    ensures reads { OnOk result (ReadsMore (F.remaining file.old) (F.remaining file.new)
        bytes.old.items bytes.new.items) }
    ensures end { IfOk result (λ is_end. IsTrue is_end → IsAtEnd (F.remaining file.new)) }
    ensures fits { OnOk result (vec_len bytes.new ≤ 16777216) }
    ensures never_missing { ¬ (IsErrOf result StoreError.Missing) }
{
    match after_read(file.read(chunk)) {
        AfterRead::Keep(count) => {
            add(bytes, &chunk[..count])?;
            Ok(false)
        }
        AfterRead::Finish => Ok(true),
        AfterRead::Retry => Ok(false),
        AfterRead::Fail(cause) => Err(cause),
    }
}

/// All that a reader gives, if it is no more than 16 MiB and ends within its turns. A read that a
/// signal interrupts uses up a turn.
pub(crate) fn read_all<F: Read>(alloc: Global, file: &mut F) -> Result<Vec<u8>, StoreError>
    ensures reads { IfOk result (λ bytes.
        Consumes (F.remaining file.old) (F.remaining file.new) bytes.items) }
    ensures end { OnOk result (IsAtEnd (F.remaining file.new)) }
    ensures fits { IfOk result (λ bytes. vec_len bytes ≤ 16777216) }
    ensures never_missing { ¬ (IsErrOf result StoreError.Missing) }
{
    let mut chunk = [0; CHUNK];
    let mut bytes = Vec::new(alloc);
    for _ in 0..turns() {
        if read_more(file, &mut chunk, &mut bytes)? {
            return Ok(bytes);
        }
    }
    Err(StoreError::Failed)
}

// One write, and how many bytes it took: none where a signal interrupted it.
fn write_some<W: Write>(writer: &mut W, bytes: &[u8]) -> Result<usize, ErrorKind>
    ensures bound { IfOk result (λ count. count ≤ length bytes.now) }
    ensures writes { IfOk result (λ count.
        Appends (W.contents writer.old) (W.contents writer.new) (take count bytes.now)) }
    ensures err { OnErr result (Appends (W.contents writer.old) (W.contents writer.new) []) }
{
    match after_write(writer.write(bytes)) {
        AfterWrite::Advance(count) => Ok(count),
        AfterWrite::Retry => Ok(0),
        AfterWrite::Fail(kind) => Err(kind),
    }
}

/// Writes all of these bytes within the turns of a loop. A short write goes on with the rest. A
/// write that a signal interrupts uses up a turn. Any other error leaves some prefix of the bytes
/// written.
pub(crate) fn write_all<W: Write>(writer: &mut W, bytes: &[u8]) -> Result<(), ErrorKind>
    ensures ok { OnOk result (Appends (W.contents writer.old) (W.contents writer.new) bytes.now) }
    ensures err { OnErr result (AppendsPrefix (W.contents writer.old) (W.contents writer.new)
        bytes.now) }
{
    let mut rest = bytes;
    for _ in 0..turns() {
        if rest.is_empty() {
            break;
        }
        let count = write_some(writer, rest)?;
        rest = &rest[count..];
    }
    if rest.is_empty() {
        Ok(())
    } else {
        Err(ErrorKind::TimedOut)
    }
}
