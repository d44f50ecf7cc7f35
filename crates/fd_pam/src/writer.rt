ghost use Rattle.std.specs.Prelude.{◌≡◌, ◌≢◌, ◌<◌, ◌≤◌, ◌+◌, ◌*◌, ◌^◌, ◌++◌, ℕ, List, length, IfOk, OnOk, OnErr, Err, string_bytes, is_ok, false};
ghost use Rattle.std.specs.List.{flat_map};
ghost use Rattle.std.specs.Io.KnownBytes.{Appends};
ghost use Rattle.fd_pam.specs.Limits.{most_tuple_bytes};
ghost use Rattle.fd_pam.specs.Pam.{header, pam_len, tuple, tuples, pam};
ghost use Rattle.fd_pam.specs.declared.writer.TheConstants.{CHUNK_LEN, FULL_CHUNK_LEN};
ghost use Rattle.fd_device.specs.Transfer.{Puts, CountsFailure};
ghost use Rattle.fd_pam.specs.Writes.{Writes, CountsWrite};
ghost use Rattle.fd_memory.specs.Wanting.{Wanted};
ghost use Rattle.fd_pam.specs.declared.writer.PamFault.TheVariants.{Memory};

use arrayvec::ArrayVec;
use fd_blend::Colour;
use fd_device::{Failed, Sink, send};
use fd_frame::Shows;
use fd_memory::push_str;
use itoa::Buffer;
use std::alloc::{AllocError, Global};
use thiserror::Error;

/// Why an image was not written.
#[derive(Clone, Copy, Debug, PartialEq, Eq, Error)]
pub enum PamFault {
    /// Memory was wanted before the first byte.
    #[error("memory")]
    Memory,
    /// The sink failed after this many bytes.
    #[error("write fault after {sent} bytes")]
    Write { sent: u64 },
}

/// The bytes of the header's words and line feeds.
const HEADER_WORDS_LEN: u64 = 63;

/// The bytes that are gathered before they are put.
const CHUNK_LEN: usize = 4096;

/// A chunk that is longer has no room for another piece of a row, of at most 32 pixels.
const FULL_CHUNK_LEN: usize = CHUNK_LEN - 4 * 32;

ghost use Rattle.std.specs.Prelude.{decimal};

/// The length of the whole file of an image of this size.
pub fn pam_len(width: u32, height: u32) -> u64
    requires { (width ≤ 16384) × (height ≤ 16384) }
    ensures { result ≡ pam_len width height }
{
    HEADER_WORDS_LEN
        + digit_count(width)
        + digit_count(height)
        + 4 * u64::from(width) * u64::from(height)
}

/// The header of an image of this size.
pub fn header(alloc: Global, width: u32, height: u32) -> Result<String, AllocError>
    ensures text { IfOk result (λ text. string_bytes text ≡ header width height) }
    ensures wanted { OnErr result Wanted }
{
    let mut text = String::new(alloc);
    push_str(&mut text, "P7\nWIDTH ")?;
    push_str(&mut text, Buffer::new().format(width))?;
    push_str(&mut text, "\nHEIGHT ")?;
    push_str(&mut text, Buffer::new().format(height))?;
    push_str(
        &mut text,
        "\nDEPTH 4\nMAXVAL 255\nTUPLTYPE RGB_ALPHA\nENDHDR\n",
    )?;
    Ok(text)
}

/// Writes the tuples of the image that the frame shows, without the header.
pub fn write_body<F: Shows, W: Sink>(sink: &mut W, frame: &F) -> Result<(), PamFault>
    ensures bytes { Writes (W.contents sink.old) (W.contents sink.new) (tuples (F.state frame.now)) result }
    ensures failures { CountsWrite (W.failure_count sink.old) (W.failure_count sink.new) result }
    ensures no_memory { result ≢ Err PamFault.Memory }
{
    let mut sent = 0;
    match send_tuples(frame, sink, &mut sent) {
        Ok(()) => Ok(()),
        Err(Failed) => Err(PamFault::Write { sent }),
    }
}

/// Writes the image that the frame shows, with its header.
pub fn write<F: Shows, W: Sink>(alloc: Global, sink: &mut W, frame: &F) -> Result<(), PamFault>
    ensures bytes { Writes (W.contents sink.old) (W.contents sink.new) (pam (F.state frame.now)) result }
    ensures failures { CountsWrite (W.failure_count sink.old) (W.failure_count sink.new) result }
    ensures wanted { result ≡ Err Memory → Wanted }
{
    let table = frame.table();
    let Ok(header) = header(alloc, table.width(), table.height()) else {
        return Err(PamFault::Memory);
    };
    let mut sent = 0;
    match send_pam(&header, frame, sink, &mut sent) {
        Ok(()) => Ok(()),
        Err(Failed) => Err(PamFault::Write { sent }),
    }
}

/// How many decimal digits a number has.
fn digit_count(number: u32) -> u64
    ensures value { result ≡ length (decimal number) }
    ensures short { result ≤ 40 }
{
    Buffer::new().format(number).len() as u64
}

/// Sends the chunk where it has no room for another piece of a row.
fn make_room<W: Sink>(
    chunk: &mut ArrayVec<u8, CHUNK_LEN>,
    sink: &mut W,
    sent: &mut u64,
) -> Result<(), Failed>
    requires { sent.old + length chunk.old.items < 2 ^ 64 }
    ensures ok { OnOk result ((gone : List ℕ) × (chunk.old.items ≡ gone ++ chunk.new.items) × (length chunk.new.items ≤ FULL_CHUNK_LEN)
        × Appends (W.contents sink.old) (W.contents sink.new) gone × (sent.new ≡ sent.old + length gone)) }
    ensures err { OnErr result (Puts (W.contents sink.old) (W.contents sink.new) sent.old sent.new chunk.old.items false) }
    ensures cut { OnErr result (sent.new < sent.old + length chunk.old.items) }
    ensures failures { CountsFailure (W.failure_count sink.old) (W.failure_count sink.new) (is_ok result) }
{
    if chunk.len() <= FULL_CHUNK_LEN {
        return Ok(());
    }
    send(sink, sent, chunk.as_slice())?;
    chunk.clear();
    Ok(())
}

/// Appends the tuples of these colours.
fn add_tuples(chunk: &mut ArrayVec<u8, CHUNK_LEN>, colours: &[Colour])
    requires { length chunk.old.items + 4 * length colours.now ≤ CHUNK_LEN }
    ensures { chunk.new.items ≡ chunk.old.items ++ flat_map tuple colours.now }
{
    for colour in colours {
        let tuple = [colour.r, colour.g, colour.b, colour.a];
        chunk.try_extend_from_slice(&tuple).unwrap();
    }
}

/// Sends the tuples of the image that the frame shows, a piece of a row at a time.
fn send_tuples<F: Shows, W: Sink>(frame: &F, sink: &mut W, sent: &mut u64) -> Result<(), Failed>
    requires { sent.old + most_tuple_bytes < 2 ^ 64 }
    ensures puts { Puts (W.contents sink.old) (W.contents sink.new) sent.old sent.new (tuples (F.state frame.now)) (is_ok result) }
    ensures cut { OnErr result (sent.new < sent.old + length (tuples (F.state frame.now))) }
    ensures failures { CountsFailure (W.failure_count sink.old) (W.failure_count sink.new) (is_ok result) }
{
    let width = frame.table().width();
    let height = frame.table().height();
    let mut chunk = ArrayVec::new();
    for y in 0..height {
        let mut x = 0;
        while x < width {
            make_room(&mut chunk, sink, sent)?;
            let piece = frame.row_from(x, y);
            add_tuples(&mut chunk, &piece);
            x += piece.len() as u32;
        }
    }
    send(sink, sent, chunk.as_slice())
}

/// Sends the header and then the tuples.
fn send_pam<F: Shows, W: Sink>(
    header: &str,
    frame: &F,
    sink: &mut W,
    sent: &mut u64,
) -> Result<(), Failed>
    requires { sent.old + length header.now + most_tuple_bytes < 2 ^ 64 }
    ensures puts { Puts (W.contents sink.old) (W.contents sink.new) sent.old sent.new (header.now ++ tuples (F.state frame.now)) (is_ok result) }
    ensures cut { OnErr result (sent.new < sent.old + length (header.now ++ tuples (F.state frame.now))) }
    ensures failures { CountsFailure (W.failure_count sink.old) (W.failure_count sink.new) (is_ok result) }
{
    send(sink, sent, header.as_bytes())?;
    send_tuples(frame, sink, sent)
}
