//! The program, from its words to its status.
ghost use Rattle.std.specs.Prelude.{◌≡◌, ◌≢◌, ◌⊎◌, ◌<◌, Bool, ℕ, List, false, length, map};
ghost use Rattle.std.specs.Io.KnownBytes.{Appends};
ghost use Rattle.clap.specs.Words.{kind_of};
ghost use Rattle.clap.specs.declared.error.kind.ErrorKind.TheVariants.{OutOfMemory};
ghost use Rattle.fd_arguments.specs.Wanting.{IsWantedFor};
ghost use Rattle.fd_words.specs.declared.ending.Ending.TheVariants.{Memory};
ghost use Rattle.fd_device.specs.Transfer.{Puts, CountsFailure};
ghost use Rattle.fd_listing.specs.Counting.{CountsWriter, EndsFlushed};
ghost use Rattle.fd_listing.specs.Listing.{WritesText};
ghost use Rattle.fd_cli.specs.Performing.{Performs, devices_shown};
ghost use Rattle.fd_cli.specs.Waiting.{WaitsAbout};
ghost use Rattle.fd_cli.specs.CommandLine.{EndsBefore, Explains, Programs, Refuses, RefusesWords, WritesHelp};

use crate::files::{FileFault, Files, WordsFault};
use crate::performing::{Devices, perform_file};
use clap::Error;
use clap::error::ErrorKind;
use fd_arguments::{explained, read_arguments};
use fd_device::{Sink, Source, send};
use fd_listing::end_text;
use fd_words::Ending;
use std::alloc::Global;
use std::convert::AsStr;
use std::thread::Threads;

/// The status of a command line that asks for nothing that there is.
const USAGE: u8 = 1;

/// The status where the capture's file can't be read.
const CANNOT_READ: u8 = 3;

/// Says why the words of the command line can't be had, and gives the exit status.
pub fn refuse_words<R: Source, W: Sink, E: Sink>(
    fault: WordsFault,
    devices: &mut Devices<R, W, E>,
) -> u8
    ensures { let seen = devices_shown R.Source W.Sink.own E.Sink.own in
        RefusesWords fault (seen devices.old) (seen devices.new) result }
{
    if fault == WordsFault::Memory {
        return end_before(&Ending::Memory, devices);
    }
    tell(
        b"error: a word of the command line is not UTF-8\n",
        &mut devices.errors,
    );
    USAGE
}

/// Reads the words, and then the file that they name, does what they ask for, and gives the exit status.
///
/// This is the whole program: `main` hands it the words, the files and the devices of the machine.
pub fn program<T: Threads + Sync, S: AsStr, F: Files, R: Source, W: Sink, E: Sink>(
    rt: &T,
    alloc: Global,
    words: &[S],
    files: &F,
    devices: &mut Devices<R, W, E>,
) -> u8
    ensures { let seen = devices_shown R.Source W.Sink.own E.Sink.own in
        Programs (map S.text words.now) (F.gave files.now)
        (λ request capture. Performs request capture (seen devices.old) (seen devices.new) (R.has_ended devices.new.source) result
        × WaitsAbout (record { contents = W.contents; is_flushed = W.is_flushed }) capture devices.old.sink devices.old.source devices.new.source)
        (seen devices.old) (seen devices.new) result }
{
    let arguments = match read_arguments(alloc, words) {
        Ok(arguments) => arguments,
        Err(error) => return explain(alloc, &error, words, devices),
    };
    match files.read(alloc, arguments.capture) {
        Ok(capture) => perform_file(rt, alloc, arguments.request, capture, devices),
        Err(fault) => refuse_file(fault, devices),
    }
}

/// Tells a text to the errors. Whether it was told changes nothing.
fn tell<E: Sink>(text: &[u8], errors: &mut E)
    ensures tells { (count : ℕ) × (whole : Bool) × Puts (E.contents errors.old) (E.contents errors.new) 0 count text.now whole
        × CountsFailure (E.failure_count errors.old) (E.failure_count errors.new) whole × (whole ≡ false → count < length text.now) }
{
    let mut count = 0;
    let _ = send(errors, &mut count, text);
}

/// Writes a text to the output.
fn write_text<W: Sink>(text: &[u8], sink: &mut W) -> Ending
    ensures writes { (written : List ℕ) × Appends (W.contents sink.old) (W.contents sink.new) written × WritesText text.now written result }
    ensures failures { CountsWriter result (W.failure_count sink.old) (W.failure_count sink.new) }
    ensures flushed { EndsFlushed result (W.is_flushed sink.old) (W.is_flushed sink.new) }
{
    let mut sent = 0;
    let outcome = send(sink, &mut sent, text);
    end_text(outcome, sent, sink)
}

/// Tells the errors how the program ended before it did anything, and gives the status.
fn end_before<R: Source, W: Sink, E: Sink>(ending: &Ending, devices: &mut Devices<R, W, E>) -> u8
    ensures { let seen = devices_shown R.Source W.Sink.own E.Sink.own in
        EndsBefore ending.now (seen devices.old) (seen devices.new) result }
{
    let _ = ending.report(&mut devices.errors);
    ending.status()
}

/// Writes the help or the version that the words ask for, and gives the status.
fn write_help<R: Source, W: Sink, E: Sink>(text: &[u8], devices: &mut Devices<R, W, E>) -> u8
    ensures { let seen = devices_shown R.Source W.Sink.own E.Sink.own in
        WritesHelp text.now (seen devices.old) (seen devices.new) result }
{
    let ending = write_text(text, &mut devices.sink);
    let _ = ending.report(&mut devices.errors);
    ending.status()
}

/// Says what is wrong with the words, or gives the help that they ask for, and gives the status.
fn explain<S: AsStr, R: Source, W: Sink, E: Sink>(
    alloc: Global,
    error: &Error,
    words: &[S],
    devices: &mut Devices<R, W, E>,
) -> u8
    ensures { let seen = devices_shown R.Source W.Sink.own E.Sink.own in
        ((IsWantedFor (map S.text words.now) ⊎ (kind_of error.now ≡ OutOfMemory)) × EndsBefore Memory (seen devices.old) (seen devices.new) result)
        ⊎ ((kind_of error.now ≢ OutOfMemory) × Explains (kind_of error.now) (seen devices.old) (seen devices.new) result) }
{
    let kind = error.kind();
    if kind == ErrorKind::OutOfMemory {
        return end_before(&Ending::Memory, devices);
    }
    let Ok(text) = explained(alloc, error, words) else {
        return end_before(&Ending::Memory, devices);
    };
    match kind {
        ErrorKind::DisplayHelp | ErrorKind::DisplayVersion => write_help(text.as_bytes(), devices),
        _ => {
            tell(text.as_bytes(), &mut devices.errors);
            USAGE
        }
    }
}

/// Says why the file can't be read, and gives the status.
fn refuse_file<R: Source, W: Sink, E: Sink>(fault: FileFault, devices: &mut Devices<R, W, E>) -> u8
    ensures { let seen = devices_shown R.Source W.Sink.own E.Sink.own in
        Refuses fault (seen devices.old) (seen devices.new) result }
{
    match fault {
        FileFault::Memory => end_before(&Ending::Memory, devices),
        FileFault::Unreadable => {
            tell(b"framedbg: cannot read capture\n", &mut devices.errors);
            CANNOT_READ
        }
    }
}
