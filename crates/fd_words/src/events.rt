//! The list of a table's events.
ghost use Rattle.std.specs.Prelude.{◌≡◌, ◌<◌, ◌≤◌, ◌+◌, ◌^◌, length, is_ok, true};
ghost use Rattle.fd_words.specs.Limits.{most_reply_bytes};
ghost use Rattle.fd_device.specs.Transfer.{Puts, CountsFailure};
ghost use Rattle.fd_words.specs.Text.{event_list};

use crate::chunk::{Chunk, gather};
use crate::text::{event_line, events_head};
use fd_device::{Failed, Sink, send};
use fd_events::EventTable;

/// Sends the list of a table's events at a position.
pub fn send_events<W: Sink>(
    table: &EventTable,
    position: u32,
    sink: &mut W,
    sent: &mut u64,
) -> Result<(), Failed>
    requires { sent.old + most_reply_bytes < 2 ^ 64 }
    ensures puts { Puts (W.contents sink.old) (W.contents sink.new) sent.old sent.new (event_list table.now position) (is_ok result) }
    ensures short { is_ok result ≡ true → length (event_list table.now position) ≤ most_reply_bytes }
    ensures failures { CountsFailure (W.failure_count sink.old) (W.failure_count sink.new) (is_ok result) }
{
    let mut chunk = Chunk::new();
    let head = events_head(table.len(), position);
    gather(&mut chunk, head.as_slice(), sink, sent)?;
    for index in 0..table.len() {
        let number = index + 1;
        let line = event_line(number, table.event(number), table.is_on(number));
        gather(&mut chunk, line.as_slice(), sink, sent)?;
    }
    send(sink, sent, chunk.as_slice())
}
