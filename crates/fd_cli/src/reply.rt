//! The replies to commands.
ghost use Rattle.std.specs.Prelude.{◌≡◌, ℕ, ◌<◌, ◌≤◌, ◌+◌, ◌^◌, ◌↔◌, List, Result, Ok, IsTrue, IfOk, OnOk, length, is_ok, true};
ghost use Rattle.fd_words.specs.Limits.{most_reply_bytes};
ghost use Rattle.fd_blend.specs.declared.channel.Colour.{Colour};
ghost use Rattle.fd_history.specs.declared.entry.Entry.{Entry};
ghost use Rattle.fd_session.specs.Machine.{ShowsPixel, ShowsDepth, ShowsHistory, OnMemory};
ghost use Rattle.fd_memory.specs.Wanting.{Wanted};
ghost use Rattle.fd_session.specs.declared.answer.SessionFault.{SessionFault};
ghost use Rattle.fd_words.specs.Line.{command_of};
ghost use Rattle.fd_device.specs.Transfer.{Puts, CountsFailure};
ghost use Rattle.fd_cli.specs.Serving.{Replies};
ghost use Rattle.fd_cli.specs.ReplyText.{answer_line, pixel_text, history_text};

use crate::host::Host;
use crate::refusal::refusal_line;
use crate::show::show;
use fd_device::{Failed, Sink, send};
use fd_session::{Answer, Session};
use fd_words::{
    Command, CommandFault, fault_line, number_line, pixel_line, read_command, send_entries,
    send_events, state_line,
};
use std::alloc::Global;
use std::thread::Threads;

/// Answers a line, and says whether it was a quit.
pub(crate) fn answer<T: Threads + Sync, W: Sink>(
    host: &Host<'_, T>,
    session: &mut Session,
    line: &[u8],
    sink: &mut W,
    sent: &mut u64,
) -> Result<bool, Failed>
    requires { sent.old + most_reply_bytes < 2 ^ 64 }
    ensures replies { Replies session.old (command_of line.now) session.new (W.contents sink.old) (W.contents sink.new) sent.old sent.new (is_ok result) }
    ensures quit { IfOk result (λ quit. IsTrue quit ↔ (command_of line.now ≡ Ok Command.Quit)) }
    ensures flushed { OnOk result (W.is_flushed sink.new ≡ true) }
    ensures failures { CountsFailure (W.failure_count sink.old) (W.failure_count sink.new) (is_ok result) }
{
    let command = read_command(line);
    reply(host, session, command, sink, sent)?;
    sink.flush()?;
    Ok(matches!(command, Ok(Command::Quit)))
}

/// Sends the reply to a move.
fn send_answer<W: Sink>(answer: Answer, sink: &mut W, sent: &mut u64) -> Result<(), Failed>
    requires { sent.old + 64 < 2 ^ 64 }
    ensures puts { Puts (W.contents sink.old) (W.contents sink.new) sent.old sent.new (answer_line answer) (is_ok result) }
    ensures short { length (answer_line answer) ≤ 64 }
    ensures failures { CountsFailure (W.failure_count sink.old) (W.failure_count sink.new) (is_ok result) }
{
    match answer {
        Answer::Moved { at } => send(sink, sent, number_line(b"at", u64::from(at)).as_slice()),
        Answer::Stopped { at } => {
            let line = number_line(b"stopped", u64::from(at));
            send(sink, sent, line.as_slice())
        }
        Answer::Refused(fault) => send(sink, sent, refusal_line(fault)),
    }
}

/// Sends the reply to `pixel`, of column and row.
fn send_pixel<W: Sink>(
    session: &Session,
    pixel: (u32, u32),
    sink: &mut W,
    sent: &mut u64,
) -> Result<(), Failed>
    requires { sent.old + 256 < 2 ^ 64 }
    ensures puts { (colour : Result Colour SessionFault) × (depth : Result ℕ SessionFault) × ShowsPixel session.now pixel.0 pixel.1 colour
        × ShowsDepth session.now pixel.0 pixel.1 depth
        × (length (pixel_text session.now.table.version colour depth) ≤ 256)
        × Puts (W.contents sink.old) (W.contents sink.new) sent.old sent.new (pixel_text session.now.table.version colour depth) (is_ok result) }
    ensures failures { CountsFailure (W.failure_count sink.old) (W.failure_count sink.new) (is_ok result) }
{
    let colour = session.pixel(pixel.0, pixel.1);
    let depth = session.depth(pixel.0, pixel.1);
    match colour {
        Ok(colour) => match depth {
            Ok(depth) => {
                let line = pixel_line(session.table().version(), colour, depth);
                send(sink, sent, line.as_slice())
            }
            Err(fault) => send(sink, sent, refusal_line(fault)),
        },
        Err(fault) => send(sink, sent, refusal_line(fault)),
    }
}

/// Sends the reply to `history`, of column and row.
fn send_history<W: Sink>(
    alloc: Global,
    session: &Session,
    pixel: (u32, u32),
    sink: &mut W,
    sent: &mut u64,
) -> Result<(), Failed>
    requires { sent.old + most_reply_bytes < 2 ^ 64 }
    ensures puts { (outcome : Result (List Entry) SessionFault) × ShowsHistory session.now pixel.0 pixel.1 outcome × OnMemory Wanted outcome
        × (is_ok result ≡ true → length (history_text session.now.table.version outcome) ≤ most_reply_bytes)
        × Puts (W.contents sink.old) (W.contents sink.new) sent.old sent.new (history_text session.now.table.version outcome) (is_ok result) }
    ensures failures { CountsFailure (W.failure_count sink.old) (W.failure_count sink.new) (is_ok result) }
{
    match session.history(alloc, pixel.0, pixel.1) {
        Ok(entries) => send_entries(session.table().version(), &entries, sink, sent),
        Err(fault) => send(sink, sent, refusal_line(fault)),
    }
}

/// Answers a command, or what stands in a command's place.
fn reply<T: Threads + Sync, W: Sink>(
    host: &Host<'_, T>,
    session: &mut Session,
    command: Result<Command, CommandFault>,
    sink: &mut W,
    sent: &mut u64,
) -> Result<(), Failed>
    requires { sent.old + most_reply_bytes < 2 ^ 64 }
    ensures replies { Replies session.old command session.new (W.contents sink.old) (W.contents sink.new) sent.old sent.new (is_ok result) }
    ensures failures { CountsFailure (W.failure_count sink.old) (W.failure_count sink.new) (is_ok result) }
{
    match command {
        Err(fault) => send(sink, sent, fault_line(fault)),
        Ok(Command::Step) => send_answer(session.step(host.rt), sink, sent),
        Ok(Command::Back) => match session.back() {
            Ok(at) => send(sink, sent, number_line(b"at", u64::from(at)).as_slice()),
            Err(fault) => send(sink, sent, refusal_line(fault)),
        },
        Ok(Command::Goto(to)) => send_answer(session.go(host.rt, to, sink), sink, sent),
        Ok(Command::On(number)) => send_answer(session.switch(host.rt, number, true), sink, sent),
        Ok(Command::Off(number)) => send_answer(session.switch(host.rt, number, false), sink, sent),
        Ok(Command::Pixel(x, y)) => send_pixel(session, (x, y), sink, sent),
        Ok(Command::History(x, y)) => send_history(host.alloc, session, (x, y), sink, sent),
        Ok(Command::State) => {
            let line = state_line(session.table().version(), session.state());
            send(sink, sent, line.as_slice())
        }
        Ok(Command::Events) => send_events(session.table(), session.position(), sink, sent),
        Ok(Command::Show) => show(host.alloc, session, sink, sent),
        Ok(Command::Quit) => send(sink, sent, b"bye\n"),
    }
}
