//! Small texts, which are gathered before they are put.
ghost use Rattle.std.specs.Prelude.{◌<◌, ◌≤◌, ◌+◌, ◌++◌, ◌^◌, length, OnOk, OnErr, false, is_ok};
ghost use Rattle.fd_device.specs.Transfer.{Puts, CountsFailure};
ghost use Rattle.fd_words.specs.Sending.{Waits, Gathers};

use arrayvec::ArrayVec;
use fd_device::{Failed, Sink, send};

/// The bytes that are gathered.
pub(crate) const CHUNK_LEN: usize = 4096;

/// A chunk that is longer has no room for each line.
const FULL_CHUNK_LEN: usize = CHUNK_LEN - 256;

pub(crate) type Chunk = ArrayVec<u8, CHUNK_LEN>;

/// Sends the chunk where a line might have no room in it.
pub(crate) fn make_room<W: Sink>(
    chunk: &mut Chunk,
    sink: &mut W,
    sent: &mut u64,
) -> Result<(), Failed>
    requires { sent.old + length chunk.old.items < 2 ^ 64 }
    ensures ok { OnOk result (Waits (W.contents sink.old) (W.contents sink.new) sent.old sent.new chunk.old.items chunk.new.items) }
    ensures room { OnOk result (length chunk.new.items ≤ 3840) }
    ensures err { OnErr result (Puts (W.contents sink.old) (W.contents sink.new) sent.old sent.new chunk.old.items false) }
    ensures failures { CountsFailure (W.failure_count sink.old) (W.failure_count sink.new) (is_ok result) }
{
    if chunk.len() <= FULL_CHUNK_LEN {
        return Ok(());
    }
    send(sink, sent, chunk.as_slice())?;
    chunk.clear();
    Ok(())
}

/// Gathers a line, and sends the lines before it where it has no room.
pub(crate) fn gather<W: Sink>(
    chunk: &mut Chunk,
    line: &[u8],
    sink: &mut W,
    sent: &mut u64,
) -> Result<(), Failed>
    requires short { length line.now ≤ 256 }
    requires counted { sent.old + length chunk.old.items < 2 ^ 64 }
    ensures gathers { Gathers (W.contents sink.old) (W.contents sink.new) sent.old sent.new (chunk.old.items ++ line.now) chunk.new.items result }
    ensures failures { CountsFailure (W.failure_count sink.old) (W.failure_count sink.new) (is_ok result) }
{
    make_room(chunk, sink, sent)?;
    chunk.try_extend_from_slice(line).unwrap();
    Ok(())
}
