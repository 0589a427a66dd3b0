//! Reading a source to its end, and writing a whole text.

ghost use Rattle.std.specs.Prelude.{◌≡◌, ◌≢◌, ◌<◌, ◌≤◌, ◌+◌, Ok, IfOk, OnOk, OnErr, IsTrue, Err, length};
ghost use Rattle.run_devices.specs.Devices.{next_count, TakesAtMost, GainsPart, writing};
ghost use Rattle.run_devices.specs.Transfers.{ReadUpTo, WritesWhole, StopsShort, joined};
ghost use Rattle.run_devices.specs.declared.transfer.ReadFault.TheVariants.{Memory, Device};
ghost use Rattle.run_devices.specs.declared.transfer.WriteFault.TheVariants as writes;

use crate::devices::{Failed, Sink, Source};
use std::alloc::{AllocError, Global};
use text_pieces::Pieces;

/// How many bytes are read at once, at most.
const READ_BUFFER: usize = 4_096;

/// How many bytes of a text are put together before they are written, at most.
const WRITE_BUFFER: usize = 32_768;

/// Why a source wasn't read.
#[derive(Clone, Copy, Debug, PartialEq, Eq)]
pub enum ReadFault {
    /// A read failed.
    Device,
    /// There was no memory left for what was read.
    Memory,
}

impl From<AllocError> for ReadFault {
    ghost from_gives = { λ _ e. e ≡ Memory };

    fn from(_e: AllocError) -> ReadFault {
        ReadFault::Memory
    }
}

impl From<Failed> for ReadFault {
    ghost from_gives = { λ _ e. e ≡ Device };

    fn from(_e: Failed) -> ReadFault {
        ReadFault::Device
    }
}

/// Why a text wasn't written whole.
#[derive(Clone, Copy, Debug, PartialEq, Eq)]
pub enum WriteFault {
    /// A write failed.
    Device,
    /// There was no memory left, and nothing was written.
    Memory,
}

impl From<AllocError> for WriteFault {
    ghost from_gives = { λ _ e. e ≡ writes.Memory };

    fn from(_e: AllocError) -> WriteFault {
        WriteFault::Memory
    }
}

impl From<Failed> for WriteFault {
    ghost from_gives = { λ _ e. e ≡ writes.Device };

    fn from(_e: Failed) -> WriteFault {
        WriteFault::Device
    }
}

/// Reads a source to its end, or to `most` bytes.
pub fn read_up_to<S: Source>(
    alloc: Global,
    source: &mut S,
    most: usize,
) -> Result<Vec<u8>, ReadFault>
    ensures read { IfOk result (λ bytes. ReadUpTo (S.left source.old) (S.left source.new) most bytes.items) }
    ensures never_past { TakesAtMost (S.left source.old) (S.left source.new) most }
    ensures fault { result ≡ Err ReadFault.Device → S.faults source.new ≡ next_count (S.faults source.old) }
    ensures no_fault { result ≢ Err ReadFault.Device → S.faults source.new ≡ S.faults source.old }
    ensures sound { IsTrue (S.is_sound source.old) → result ≢ Err ReadFault.Device }
{
    let mut bytes = Vec::new(alloc);
    let mut buffer = [0; READ_BUFFER];
    while bytes.len() < most {
        let capacity = (most - bytes.len()).min(buffer.len());
        let n = source.read(&mut buffer[..capacity])?;
        if n == 0 {
            break;
        }
        bytes.extend_from_slice(&buffer[..n])?;
    }
    Ok(bytes)
}

/// Writes a whole text; a failed write ends it.
pub fn write_whole<O: Sink>(out: &mut O, text: &[u8]) -> Result<(), Failed>
    ensures whole { WritesWhole result (writing O.got O.faults O.capacity out.old out.new) text.now }
    ensures part { OnErr result (GainsPart (writing O.got O.faults O.capacity out.old out.new) text.now) }
    ensures capacity { OnOk result (O.capacity out.old ≤ O.capacity out.new + length text.now) }
{
    let mut rest = text;
    while !rest.is_empty() {
        let n = out.write(rest)?;
        let (_, after) = rest.split_at(n);
        rest = after;
    }
    Ok(())
}

/// Writes a text in pieces; a failed write ends it.
pub fn write_pieces<O: Sink>(out: &mut O, pieces: &[&[u8]]) -> Result<(), Failed>
    ensures whole { WritesWhole result (writing O.got O.faults O.capacity out.old out.new) (joined pieces.now) }
    ensures part { OnErr result (GainsPart (writing O.got O.faults O.capacity out.old out.new) (joined pieces.now)) }
{
    for piece in pieces {
        write_whole(out, piece)?;
    }
    Ok(())
}

/// Writes all that is left of a text, through one buffer. At want of memory the text is left as it was; after a failed write
/// nothing is said of what is left of it.
pub fn write_buffered<O: Sink, T: Pieces>(
    alloc: Global,
    out: &mut O,
    text: &mut T,
) -> Result<(), WriteFault>
    ensures whole { WritesWhole result (writing O.got O.faults O.capacity out.old out.new) (T.left text.old) }
    ensures stopped { StopsShort result (writing O.got O.faults O.capacity out.old out.new) (T.left text.old) }
    ensures kept { result ≡ Err WriteFault.Memory → T.left text.new ≡ T.left text.old }
{
    let mut buffer = zeros(alloc, WRITE_BUFFER)?;
    write_through(out, text, &mut buffer)?;
    Ok(())
}

/// So many zeros.
fn zeros(alloc: Global, size: usize) -> Result<Vec<u8>, AllocError>
    ensures { IfOk result (λ zeros. length zeros.items ≡ size) }
{
    vec![in alloc; 0; size]
}

/// Writes all that is left of a text through a buffer; a failed write ends it.
fn write_through<O: Sink, T: Pieces>(
    out: &mut O,
    text: &mut T,
    buffer: &mut [u8],
) -> Result<(), Failed>
    requires { 0 < length buffer.old }
    ensures whole { WritesWhole result (writing O.got O.faults O.capacity out.old out.new) (T.left text.old) }
    ensures part { OnErr result (GainsPart (writing O.got O.faults O.capacity out.old out.new) (T.left text.old)) }
{
    loop {
        let count = text.next_piece(buffer);
        if count == 0 {
            return Ok(());
        }
        write_whole(out, &buffer[..count])?;
    }
}
