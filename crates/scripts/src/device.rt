//! The device: what is read of a reader, and what is written to a writer.
ghost use Rattle.std.specs.Prelude.{◌≡◌, ◌<◌, ◌≤◌, ◌+◌, ◌++◌, length, take, vec_len};
ghost use Rattle.std.specs.Prelude.{IfOk, IfErr, OnOk, OnErr, IfSome, IfNone};
ghost use Rattle.std.specs.Io.KnownBytes.{Appends, Keeps};
ghost use Rattle.scripts.specs.declared.script.TheConstants.{MAX_SCRIPT};
ghost use Rattle.scripts.specs.Device.{TakesAtMost, TakesUpTo, GivesSome, AppendsFront};
ghost use Rattle.scripts.specs.Device.{IsOutside};

use crate::script::MAX_SCRIPT;
use std::alloc::{AllocError, Global};
use std::io::{ErrorKind, Read, Write};
use sync_base::Fault;

/// How many bytes are asked of a reader at once.
const CHUNK: usize = 65_536;

/// How many bytes are copied at once.
const PART: usize = 2_048;

/// Reads all that there is, but at most one byte more than a script may have.
///
/// Memory: room for the bytes was refused. Device: the reader failed. A read that a signal
/// interrupted is tried again.
pub fn read_script<R: Read>(alloc: Global, reader: &mut R) -> Result<Vec<u8>, Fault>
    ensures read { IfOk result (λ input.
        TakesUpTo (MAX_SCRIPT + 1) (R.remaining reader.old) (R.remaining reader.new) input.items) }
    ensures at_most { TakesAtMost (MAX_SCRIPT + 1)
        (R.remaining reader.old) (R.remaining reader.new) }
    ensures faults { IfErr result IsOutside }
{
    // Room for the longest script at once, so that what was read is moved only once, from the room
    // of a read.
    let mut input = Vec::with_capacity(alloc, MAX_SCRIPT + 1)?;
    let mut room = room_of(alloc)?;
    for _ in 0..u64::MAX {
        let most = CHUNK.min(MAX_SCRIPT + 1 - input.len());
        if most == 0 {
            return Ok(input);
        }
        let Some(count) = read_some(reader, room.slice_mut(..most))? else {
            continue;
        };
        if count == 0 {
            return Ok(input);
        }
        append(&mut input, &room[..count])?;
    }
    Err(Fault::Device)
}

/// Room for one read, which is used again.
fn room_of(alloc: Global) -> Result<Vec<u8>, AllocError>
    ensures { IfOk result (λ room. vec_len room ≡ CHUNK) }
{
    Vec::from_elem(alloc, 0, CHUNK)
}

/// Appends bytes, in parts that the C library copies by vectors.
fn append(bytes: &mut Vec<u8>, more: &[u8]) -> Result<(), AllocError>
    ensures { OnOk result (bytes.new.items ≡ bytes.old.items ++ more.now) }
{
    let mut rest = more;
    while !rest.is_empty() {
        let (part, others) = rest.split_at(PART.min(rest.len()));
        bytes.extend_from_slice(part)?;
        rest = others;
    }
    Ok(())
}

/// One read into the first bytes of this room: how many bytes it gave, or nothing where a signal
/// interrupted it.
fn read_some<R: Read>(reader: &mut R, room: &mut [u8]) -> Result<Option<usize>, Fault>
    ensures some { IfOk result (λ count. IfSome count (λ n. GivesSome (length room.old)
        (R.remaining reader.old) (R.remaining reader.new) n room.new)) }
    ensures none { IfOk result (λ count. IfNone count
        (Keeps (R.remaining reader.old) (R.remaining reader.new))) }
    ensures err { OnErr result (Keeps (R.remaining reader.old) (R.remaining reader.new)) }
    ensures device { IfErr result (λ fault. fault ≡ Fault.Device) }
{
    match reader.read(room) {
        Ok(count) => Ok(Some(count)),
        Err(error) => {
            if error.kind() != ErrorKind::Interrupted {
                return Err(Fault::Device);
            }
            Ok(None)
        }
    }
}

/// Writes all of these bytes.
///
/// Device: the writer failed, or took no byte of what it was offered. A write that a signal
/// interrupted is tried again. Where there is nothing to write, the writer is not called.
pub fn write_whole<W: Write>(writer: &mut W, bytes: &[u8]) -> Result<(), Fault>
    ensures ok { OnOk result (Appends (W.contents writer.old) (W.contents writer.new) bytes.now) }
    ensures err { OnErr result
        (AppendsFront (W.contents writer.old) (W.contents writer.new) bytes.now) }
    ensures device { IfErr result (λ fault. fault ≡ Fault.Device) }
{
    if bytes.is_empty() {
        return Ok(());
    }
    let mut rest = bytes;
    for _ in 0..u64::MAX {
        if rest.is_empty() {
            return flush(writer);
        }
        let count = write_some(writer, rest)?;
        rest = &rest[count..];
    }
    Err(Fault::Device)
}

/// Makes the writer pass on what it holds back. A flush that a signal interrupted is tried again.
fn flush<W: Write>(writer: &mut W) -> Result<(), Fault>
    ensures keeps { Keeps (W.contents writer.old) (W.contents writer.new) }
    ensures device { IfErr result (λ fault. fault ≡ Fault.Device) }
{
    for _ in 0..u64::MAX {
        match writer.flush() {
            Ok(()) => return Ok(()),
            Err(error) => {
                if error.kind() != ErrorKind::Interrupted {
                    return Err(Fault::Device);
                }
            }
        }
    }
    Err(Fault::Device)
}

/// One write: how many bytes were taken, and 0 where a signal interrupted it.
fn write_some<W: Write>(writer: &mut W, bytes: &[u8]) -> Result<usize, Fault>
    ensures bound { IfOk result (λ count. count ≤ length bytes.now) }
    ensures ok { IfOk result (λ count.
        Appends (W.contents writer.old) (W.contents writer.new) (take count bytes.now)) }
    ensures err { OnErr result (Keeps (W.contents writer.old) (W.contents writer.new)) }
    ensures device { IfErr result (λ fault. fault ≡ Fault.Device) }
{
    match writer.write(bytes) {
        Ok(0) => Err(Fault::Device),
        Ok(count) => Ok(count),
        Err(error) => {
            if error.kind() != ErrorKind::Interrupted {
                return Err(Fault::Device);
            }
            Ok(0)
        }
    }
}
