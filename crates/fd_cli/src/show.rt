//! The reply to `show`.
ghost use Rattle.std.specs.Prelude.{codes, string_bytes, IfOk, OnErr, ◌≡◌, ◌<◌, ◌≤◌, ◌+◌, ◌^◌, ◌⊎◌, ℕ, List, length, is_ok};
ghost use Rattle.fd_memory.specs.Wanting.{Wanted};
ghost use Rattle.fd_words.specs.Limits.{most_reply_bytes};
ghost use Rattle.fd_snap.specs.Limits.{most_pixels};
ghost use Rattle.fd_pam.specs.Pam.{header, pam_len, tuples};
ghost use Rattle.fd_device.specs.Transfer.{Puts, CountsFailure};
ghost use Rattle.fd_session.specs.declared.answer.SessionFault.TheVariants.{Memory};
ghost use Rattle.fd_cli.specs.Show.{show_text};
ghost use Rattle.fd_words.specs.Text.{number_line};
ghost use Rattle.fd_cli.specs.ReplyText.{refusal_line};

use crate::refusal::refusal_line;
use arrayvec::ArrayVec;
use fd_device::{Failed, Sink, send};
use fd_pam::{PamFault, header, pam_len, write_body};
use fd_session::{Session, SessionFault};
use fd_words::number_line;
use std::alloc::{AllocError, Global};

/// The width and the height of the session's target.
pub(crate) fn target_size(session: &Session) -> (u32, u32)
    ensures width { result.0 ≡ session.now.table.width }
    ensures height { result.1 ≡ session.now.table.height }
    ensures narrow { result.0 ≤ most_pixels }
    ensures low { result.1 ≤ most_pixels }
{
    let table = session.table();
    (table.width(), table.height())
}

/// Sends the image file that the session shows, after a line with its length.
pub(crate) fn show<W: Sink>(
    alloc: Global,
    session: &Session,
    sink: &mut W,
    sent: &mut u64,
) -> Result<(), Failed>
    requires { sent.old + most_reply_bytes < 2 ^ 64 }
    ensures puts { (text : List ℕ) × ((text ≡ show_text session.now) ⊎ ((text ≡ refusal_line Memory) × Wanted)) × (length text ≤ most_reply_bytes)
        × Puts (W.contents sink.old) (W.contents sink.new) sent.old sent.new text (is_ok result) }
    ensures failures { CountsFailure (W.failure_count sink.old) (W.failure_count sink.new) (is_ok result) }
{
    let Ok(header) = shown_header(alloc, session) else {
        return send(sink, sent, refusal_line(SessionFault::Memory));
    };
    let line = length_line(session);
    send_file(
        session,
        line.as_slice(),
        header.as_str().as_bytes(),
        sink,
        sent,
    )
}

/// Sends the tuples of the image that the session shows.
fn send_body<W: Sink>(session: &Session, sink: &mut W, sent: &mut u64) -> Result<(), Failed>
    requires { sent.old + length (tuples session.now) < 2 ^ 64 }
    ensures puts { Puts (W.contents sink.old) (W.contents sink.new) sent.old sent.new (tuples session.now) (is_ok result) }
    ensures failures { CountsFailure (W.failure_count sink.old) (W.failure_count sink.new) (is_ok result) }
{
    let (width, height) = target_size(session);
    match write_body(sink, session) {
        Ok(()) => {
            *sent += 4 * (u64::from(height) * u64::from(width));
            Ok(())
        }
        Err(PamFault::Write { sent: more }) => {
            *sent += more;
            Err(Failed)
        }
        Err(PamFault::Memory) => Err(Failed),
    }
}

/// The line with the length of the image file that the session shows.
fn length_line(session: &Session) -> ArrayVec<u8, 64>
    ensures line { result.items ≡ number_line (codes "pam") (pam_len session.now.table.width session.now.table.height) }
    ensures narrow { session.now.table.width ≤ most_pixels }
    ensures low { session.now.table.height ≤ most_pixels }
{
    let (width, height) = target_size(session);
    number_line(b"pam", pam_len(width, height))
}

/// The header of the image file that the session shows.
fn shown_header(alloc: Global, session: &Session) -> Result<String, AllocError>
    ensures text { IfOk result (λ text. string_bytes text ≡ header session.now.table.width session.now.table.height) }
    ensures wanted { OnErr result Wanted }
{
    let (width, height) = target_size(session);
    header(alloc, width, height)
}

/// Sends the image file that the session shows, after a line with its length: these two, and then its tuples.
fn send_file<W: Sink>(
    session: &Session,
    line: &[u8],
    head: &[u8],
    sink: &mut W,
    sent: &mut u64,
) -> Result<(), Failed>
    requires room { sent.old + most_reply_bytes < 2 ^ 64 }
    requires line { line.now ≡ number_line (codes "pam") (pam_len session.now.table.width session.now.table.height) }
    requires head { head.now ≡ header session.now.table.width session.now.table.height }
    requires short { length (show_text session.now) ≤ most_reply_bytes }
    ensures puts { Puts (W.contents sink.old) (W.contents sink.new) sent.old sent.new (show_text session.now) (is_ok result) }
    ensures short { length (show_text session.now) ≤ most_reply_bytes }
    ensures failures { CountsFailure (W.failure_count sink.old) (W.failure_count sink.new) (is_ok result) }
{
    send(sink, sent, line)?;
    send(sink, sent, head)?;
    send_body(session, sink, sent)
}
