//! The list of a pixel's history.
ghost use Rattle.std.specs.Prelude.{◌≡◌, ◌<◌, ◌≤◌, ◌+◌, ◌^◌, length, is_ok, true};
ghost use Rattle.fd_words.specs.Limits.{most_reply_bytes};
ghost use Rattle.fd_device.specs.Transfer.{Puts, CountsFailure};
ghost use Rattle.fd_words.specs.Text.{entry_list};

use crate::chunk::{Chunk, gather};
use crate::lines::number_line;
use crate::text::entry_line;
use fd_device::{Failed, Sink, send};
use fd_history::Entry;

/// Sends the list of a pixel's history, of a capture of a version.
pub fn send_entries<W: Sink>(
    version: u32,
    entries: &[Entry],
    sink: &mut W,
    sent: &mut u64,
) -> Result<(), Failed>
    requires room { sent.old + most_reply_bytes < 2 ^ 64 }
    requires few { length entries.now ≤ 2 ^ 36 }
    ensures puts { Puts (W.contents sink.old) (W.contents sink.new) sent.old sent.new (entry_list version entries.now) (is_ok result) }
    ensures short { is_ok result ≡ true → length (entry_list version entries.now) ≤ most_reply_bytes }
    ensures failures { CountsFailure (W.failure_count sink.old) (W.failure_count sink.new) (is_ok result) }
{
    let mut chunk = Chunk::new();
    let head = number_line(b"history", entries.len() as u64);
    gather(&mut chunk, head.as_slice(), sink, sent)?;
    for entry in entries {
        let line = entry_line(version, entry);
        gather(&mut chunk, line.as_slice(), sink, sent)?;
    }
    send(sink, sent, chunk.as_slice())
}
