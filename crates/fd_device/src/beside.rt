//! A source that is filled beside a sink.
ghost use Rattle.std.specs.Prelude.{◌≡◌, ℕ, List, is_ok};
ghost use Rattle.fd_device.specs.Beside.{IsFilledBeside, bytes_of_fill};
ghost use Rattle.fd_device.specs.Transfer.{Fills, CountsFailure};

use crate::device::{Failed, Sink, Source};

/// Fills of a source beside a sink. Whoever proves one of them may say how the sink stood; other crates can't name this trait.
trait Beside<R: Source, W: Sink> {
    ghost filled: { R → R → W → List ℕ → Type 0 };

    fn fill(source: &mut R, _sink: &W, buffer: &mut [u8]) -> Result<usize, Failed>
        ensures bytes { Fills (R.remaining source.old) (R.remaining source.new) (R.has_ended source.old) (R.has_ended source.new) buffer.new result }
        ensures failures { CountsFailure (R.failure_count source.old) (R.failure_count source.new) (is_ok result) }
        ensures beside { filled source.old source.new _sink.now (bytes_of_fill buffer.new result) }
    {
        source.fill(buffer)
    }

    ghost gives: { (old new : R) (sink : W) (bytes : List ℕ) → filled old new sink bytes };
}

/// A fill that is made once.
struct Once;

impl<R: Source, W: Sink> Beside<R, W> for Once {
    ghost use Rattle.fd_device.specs.Asking.{FilledBeside, filled_beside};

    ghost filled = { FilledBeside };

    ghost gives = { filled_beside };
}

/// Fills a buffer from a source, as its `fill` does, while a sink stands as it is. Nothing else gives the evidence of it, so that a caller can say in its
/// contract what had gone to the sink before the source was asked.
pub fn fill_beside<R: Source, W: Sink>(
    source: &mut R,
    sink: &W,
    buffer: &mut [u8],
) -> Result<usize, Failed>
    ensures bytes { Fills (R.remaining source.old) (R.remaining source.new) (R.has_ended source.old) (R.has_ended source.new) buffer.new result }
    ensures failures { CountsFailure (R.failure_count source.old) (R.failure_count source.new) (is_ok result) }
    ensures beside { IsFilledBeside source.old source.new sink.now (bytes_of_fill buffer.new result) }
{
    <Once as Beside<R, W>>::fill(source, sink, buffer)
}
