ghost use Rattle.std.proofs.Common.{ap};
ghost use Rattle.std.specs.Prelude.{◌≡◌, ◌<◌, ◌≤◌, ◌+◌, ◌-◌, ◌^◌, ◌||◌, ◌&&◌, ℕ, List, Option, None, Bool, false, length, take, IfOk, OnErr, OnOk, is_ok};
ghost use Rattle.std.specs.Io.KnownBytes.{Consumes, Appends, Keeps};
ghost use Rattle.std.specs.Result.{result_ok};
ghost use Rattle.std.specs.Io.{ReadsAtMost, WritesAtMost};
ghost use Rattle.std.specs.Io.KnownBytes.{ReadConsumes, WriteAppends};
ghost use Rattle.fd_device.specs.Device.{ReadJudged, WriteJudged, inner_of, IsOneRead, IsOneWrite};
ghost use Rattle.fd_device.specs.Transfer.{Fills, Takes, CountsFailure, PutsOff, PassesOn, Puts};

use crate::progress::Progress;
use std::io;
use std::io::{Read, Write};
use thiserror::Error;

/// A device that failed. It moved no byte.
#[derive(Clone, Copy, Debug, PartialEq, Eq, Error)]
#[error("the device failed")]
pub struct Failed;

/// What bytes come from.
pub trait Source {
    /// The bytes still to come, where the source tells them.
    ghost remaining: { Self → Option (List ℕ) } = { λ _. None };

    /// A fill of a buffer with room gave no byte.
    ghost has_ended: { Self → Bool };

    /// How many fills failed, up to the largest `u64`.
    ghost failure_count: { Self → ℕ };

    /// Gives some bytes, as many as the buffer has room for at most. No byte is the end.
    fn fill(&mut self, buffer: &mut [u8]) -> Result<usize, Failed>
        ensures bytes { Fills (remaining self.old) (remaining self.new) (has_ended self.old) (has_ended self.new) buffer.new result }
        ensures failures { CountsFailure (failure_count self.old) (failure_count self.new) (is_ok result) };

    /// Whether a fill of a buffer with room gave no byte.
    fn ended(&self) -> bool
        ensures { result ≡ has_ended self.now };

    /// How many fills failed.
    fn failures(&self) -> u64
        ensures { result ≡ failure_count self.now };
}

/// What bytes go to.
pub trait Sink: Progress {
    /// The bytes that it took, where the sink tells them.
    ghost contents: { Self → Option (List ℕ) } = { λ _. None };

    /// All bytes that it took were passed on.
    ghost is_flushed: { Self → Bool };

    /// How many calls failed, up to the largest `u64`.
    ghost failure_count: { Self → ℕ };

    /// Takes a front of these bytes, one at least where there are any.
    fn put(&mut self, bytes: &[u8]) -> Result<usize, Failed>
        ensures bytes { Takes (contents self.old) (contents self.new) bytes.now result }
        ensures flushed { PutsOff (is_flushed self.old) (is_flushed self.new) result }
        ensures failures { CountsFailure (failure_count self.old) (failure_count self.new) (is_ok result) };

    /// Passes on what was put before. It moves no byte of its own.
    fn flush(&mut self) -> Result<(), Failed>
        ensures bytes { Keeps (contents self.old) (contents self.new) }
        ensures flushed { PassesOn (is_flushed self.old) (is_flushed self.new) (is_ok result) }
        ensures failures { CountsFailure (failure_count self.old) (failure_count self.new) (is_ok result) };

    /// How many calls of `put` and `flush` failed.
    fn failures(&self) -> u64
        ensures { result ≡ failure_count self.now };

    /// To be told of a move moves no byte, and is no call that can fail.
    ghost only_told: { (a b : Self) → Self.kept a ≡ Self.kept b
        → (contents a ≡ contents b) × (is_flushed a ≡ is_flushed b) × (failure_count a ≡ failure_count b) };
}

/// Puts all of the bytes, in as many calls as it takes, and counts those that were sent.
pub fn send<W: Sink>(sink: &mut W, sent: &mut u64, bytes: &[u8]) -> Result<(), Failed>
    requires { sent.old + length bytes.now < 2 ^ 64 }
    ensures puts { Puts (W.contents sink.old) (W.contents sink.new) sent.old sent.new bytes.now (is_ok result) }
    ensures cut { OnErr result (sent.new < sent.old + length bytes.now) }
    ensures failures { CountsFailure (W.failure_count sink.old) (W.failure_count sink.new) (is_ok result) }
{
    let mut done = 0;
    while done < bytes.len() {
        let taken = sink.put(&bytes[done..])?;
        done += taken;
        *sent += taken as u64;
    }
    Ok(())
}

/// Calls of a reader. Whoever proves one of them may say that the reader answered so; other crates can't name this trait.
trait Reads<T: Read> {
    ghost answered: { T → T → Option ℕ → Type 0 };

    fn ask(reader: &mut T, buffer: &mut [u8]) -> io::Result<usize>
        ensures bound { ReadsAtMost result buffer.new }
        ensures bytes { ReadConsumes (T.remaining reader.old) (T.remaining reader.new) result buffer.new }
        ensures answered { answered reader.old reader.new (result_ok result) }
    {
        reader.read(buffer)
    }

    ghost gives: { (old new : T) (count : Option ℕ) → answered old new count };
}

/// The same of a writer.
trait Writes<T: Write> {
    ghost answered: { T → T → List ℕ → Option ℕ → Type 0 };

    fn ask(writer: &mut T, bytes: &[u8]) -> io::Result<usize>
        ensures bound { WritesAtMost result bytes.now }
        ensures bytes { WriteAppends (T.contents writer.old) (T.contents writer.new) result bytes.now }
        ensures answered { answered writer.old writer.new bytes.now (result_ok result) }
    {
        writer.write(bytes)
    }

    ghost gives: { (old new : T) (bytes : List ℕ) (count : Option ℕ) → answered old new bytes count };
}

/// A call that is made once.
struct Once;

impl<T: Read> Reads<T> for Once {
    ghost use Rattle.fd_device.specs.Asking.{ReadOnce, read_once};

    ghost answered = { ReadOnce };

    ghost gives = { read_once };
}

impl<T: Write> Writes<T> for Once {
    ghost use Rattle.fd_device.specs.Asking.{WrittenOnce, written_once};

    ghost answered = { WrittenOnce };

    ghost gives = { written_once };
}

/// A source over a reader, or a sink over a writer, which counts the calls that fail.
#[derive(Drop)]
pub struct Device<T> {
    inner: T,
    ended: bool,
    flushed: bool,
    failures: u64,
}

impl<T> Device<T> {
    ghost use Rattle.fd_device.specs.Device.{inner_of, unused};

    /// A device with no failures, over a reader or a writer.
    pub fn new(inner: T) -> Self
        ensures { result ≡ unused inner }
    {
        Device {
            inner,
            ended: false,
            flushed: true,
            failures: 0,
        }
    }

    /// The reader or the writer.
    pub fn into_inner(self) -> T
        ensures { result ≡ inner_of self }
    {
        let Device { inner, .. } = self;
        inner
    }
}

impl<T: Read> Source for Device<T> {
    ghost remaining = { λ d. T.remaining d.inner };

    ghost has_ended = { λ d. d.ended };

    ghost failure_count = { λ d. d.failures };

    fn fill(&mut self, buffer: &mut [u8]) -> Result<usize, Failed>
        ensures bytes { Fills (T.remaining self.old.inner) (T.remaining self.new.inner) self.old.ended self.new.ended buffer.new result }
        ensures failures { CountsFailure self.old.failures self.new.failures (is_ok result) }
        ensures asked { IsOneRead (inner_of self.old) (inner_of self.new) result }
    {
        let answer = <Once as Reads<T>>::ask(&mut self.inner, buffer);
        let Ok(count) = judge_read(answer) else {
            self.failures = self.failures.saturating_add(1);
            return Err(Failed);
        };
        self.ended = self.ended || count == 0 && !buffer.is_empty();
        Ok(count)
    }

    fn ended(&self) -> bool {
        self.ended
    }

    fn failures(&self) -> u64 {
        self.failures
    }
}

impl<T: Write> Progress for Device<T> {
    ghost Kept = { Option (List ℕ) × Bool × ℕ };

    ghost kept = { λ d. (T.contents d.inner, d.flushed, d.failures) };
}

impl<T: Write> Sink for Device<T> {
    ghost contents = { λ d. T.contents d.inner };

    ghost is_flushed = { λ d. d.flushed };

    ghost failure_count = { λ d. d.failures };

    fn put(&mut self, bytes: &[u8]) -> Result<usize, Failed>
        ensures bytes { Takes (T.contents self.old.inner) (T.contents self.new.inner) bytes.now result }
        ensures flushed { PutsOff self.old.flushed self.new.flushed result }
        ensures failures { CountsFailure self.old.failures self.new.failures (is_ok result) }
        ensures asked { IsOneWrite (inner_of self.old) (inner_of self.new) bytes.now result }
    {
        let answer = <Once as Writes<T>>::ask(&mut self.inner, bytes);
        let Ok(count) = judge_write(answer, bytes.len()) else {
            self.failures = self.failures.saturating_add(1);
            return Err(Failed);
        };
        self.flushed = self.flushed && count == 0;
        Ok(count)
    }

    fn flush(&mut self) -> Result<(), Failed> {
        if self.inner.flush().is_err() {
            self.failures = self.failures.saturating_add(1);
            return Err(Failed);
        }
        self.flushed = true;
        Ok(())
    }

    fn failures(&self) -> u64 {
        self.failures
    }

    ghost only_told = { λ a b same. (ap (λ k. k.0) same, ap (λ k. k.1) same, ap (λ k. k.2) same) };
}

/// What a read comes to: its count, or a failure, whatever the error is.
fn judge_read(outcome: io::Result<usize>) -> Result<usize, Failed>
    ensures { ReadJudged outcome result }
{
    outcome.map_err(|_| Failed)
}

/// What a write of so many bytes comes to. One that takes none of some is a failure, and so is one that was interrupted.
fn judge_write(outcome: io::Result<usize>, length: usize) -> Result<usize, Failed>
    ensures { WriteJudged outcome length result }
{
    match outcome {
        Ok(count) if count > 0 || length == 0 => Ok(count),
        _ => Err(Failed),
    }
}
