//! How a call that writes one text ends.
ghost use Rattle.std.specs.Prelude.{Bool, List, Option, ℕ, is_ok};
ghost use Rattle.std.specs.Io.KnownBytes.{Appends};
ghost use Rattle.fd_device.specs.Transfer.{CountsFailure, Puts};
ghost use Rattle.fd_listing.specs.Counting.{CountsWriter, EndsFlushed};
ghost use Rattle.fd_listing.specs.Listing.{WritesText};

use fd_device::{Failed, Sink};
use fd_words::Ending;

/// Flushes behind a text, all of which was sent, or so much of it, and says how the call that wrote it ends.
pub fn end_text<W: Sink>(outcome: Result<(), Failed>, sent: u64, sink: &mut W) -> Ending
    // However the sink stood first: all of the text was written, or a front of it, and the sink failed only where the ending says so.
    ensures writes { (first : Option (List ℕ)) (text : List ℕ) → Puts first (W.contents sink.old) 0 sent text (is_ok outcome)
        → (written : List ℕ) × Appends first (W.contents sink.new) written × WritesText text written result }
    ensures failures { (first : ℕ) → CountsFailure first (W.failure_count sink.old) (is_ok outcome) → CountsWriter result first (W.failure_count sink.new) }
    ensures flushed { (first : Bool) → EndsFlushed result first (W.is_flushed sink.new) }
{
    match outcome {
        Ok(()) => match sink.flush() {
            Ok(()) => Ending::Done,
            Err(_) => Ending::Write { sent },
        },
        Err(_) => Ending::Write { sent },
    }
}
