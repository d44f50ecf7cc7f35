//! A dialogue of commands and replies, byte by byte of its input.
ghost use Rattle.std.specs.Prelude.{◌≡◌, ◌<◌, ◌+◌, ◌^◌, ◌⊎◌, ℕ, [], ◌∷◌, Err, OnOk, IfErr};
ghost use Rattle.fd_words.specs.Limits.{most_reply_bytes};
ghost use Rattle.fd_listing.specs.Counting.{CountsReader, CountsWriter, StaysFlushed, EndsFlushed};

use crate::host::Host;
use crate::reply::answer;
use arrayvec::ArrayVec;
use fd_device::Sink;
use fd_session::Session;
use fd_words::Ending;
use std::thread::Threads;

/// The most lines of input.
const MAX_LINES: u32 = 1_000_000;

/// The most bytes of input.
pub(crate) const MAX_BYTES: u32 = 268_435_456;

/// How far a dialogue has come: the session, the line that has not ended yet, and how many lines and bytes were taken and bytes were sent.
#[derive(Drop)]
pub(crate) struct Dialogue {
    pub(crate) session: Session,
    pub(crate) line: ArrayVec<u8, 258>,
    pub(crate) lines: u32,
    pub(crate) bytes: u32,
    pub(crate) sent: u64,
}

impl Dialogue {
    ghost use Rattle.fd_cli.specs.Dialogue.{CanCount, Advances, Finishes};

    /// Takes one byte of the input, and answers the line that it ends.
    fn take_byte<T: Threads + Sync, W: Sink>(
        &mut self,
        host: &Host<'_, T>,
        byte: u8,
        sink: &mut W,
    ) -> Result<(), Ending>
        requires { CanCount self.old }
        ensures advances { Advances self.old self.new (W.contents sink.old) (W.contents sink.new) (byte ∷ []) result }
        ensures room { OnOk result (CanCount self.new) }
        ensures ok { OnOk result (W.failure_count sink.new ≡ W.failure_count sink.old) }
        ensures passed_on { OnOk result (StaysFlushed (W.is_flushed sink.old) (W.is_flushed sink.new)) }
        ensures flushed { IfErr result (λ ending. EndsFlushed ending (W.is_flushed sink.old) (W.is_flushed sink.new)) }
        ensures write { IfErr result (λ ending. CountsWriter ending (W.failure_count sink.old) (W.failure_count sink.new)) }
        ensures read { IfErr result (λ ending. (old new : ℕ) → new ≡ old → CountsReader ending old new) }
    {
        if self.bytes >= MAX_BYTES || self.lines >= MAX_LINES {
            return Err(Ending::TooMuch);
        }
        self.bytes += 1;
        if byte != b'\n' {
            let _ = self.line.try_push(byte);
            return Ok(());
        }
        let line = self.line.as_slice();
        let Ok(quit) = answer(host, &mut self.session, line, sink, &mut self.sent) else {
            return Err(Ending::Write { sent: self.sent });
        };
        self.line.clear();
        self.lines += 1;
        if quit { Err(Ending::Done) } else { Ok(()) }
    }

    /// Takes bytes of the input, and answers each line that they end.
    pub(crate) fn take_bytes<T: Threads + Sync, W: Sink>(
        &mut self,
        host: &Host<'_, T>,
        bytes: &[u8],
        sink: &mut W,
    ) -> Result<(), Ending>
        requires { CanCount self.old }
        ensures advances { Advances self.old self.new (W.contents sink.old) (W.contents sink.new) bytes.now result }
        ensures room { OnOk result (CanCount self.new) }
        ensures ok { OnOk result (W.failure_count sink.new ≡ W.failure_count sink.old) }
        ensures passed_on { OnOk result (StaysFlushed (W.is_flushed sink.old) (W.is_flushed sink.new)) }
        ensures flushed { IfErr result (λ ending. EndsFlushed ending (W.is_flushed sink.old) (W.is_flushed sink.new)) }
        ensures write { IfErr result (λ ending. CountsWriter ending (W.failure_count sink.old) (W.failure_count sink.new)) }
        ensures read { IfErr result (λ ending. (old new : ℕ) → new ≡ old → CountsReader ending old new) }
    {
        for byte in bytes {
            self.take_byte(host, *byte, sink)?;
        }
        Ok(())
    }

    /// Answers the line that no line feed ends, if there is one.
    pub(crate) fn finish<T: Threads + Sync, W: Sink>(
        &mut self,
        host: &Host<'_, T>,
        sink: &mut W,
    ) -> Ending
        requires { self.old.sent + most_reply_bytes < 2 ^ 64 }
        ensures finishes { Finishes self.old (W.contents sink.old) (W.contents sink.new) result }
        ensures only { (result ≡ Ending.Done) ⊎ ((sent : ℕ) × (result ≡ Ending.Write sent)) }
        ensures write { CountsWriter result (W.failure_count sink.old) (W.failure_count sink.new) }
        ensures flushed { EndsFlushed result (W.is_flushed sink.old) (W.is_flushed sink.new) }
    {
        if self.line.is_empty() {
            return Ending::Done;
        }
        let line = self.line.as_slice();
        match answer(host, &mut self.session, line, sink, &mut self.sent) {
            Ok(_) => Ending::Done,
            Err(_) => Ending::Write { sent: self.sent },
        }
    }
}
