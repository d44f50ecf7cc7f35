//! How a run ends.
ghost use Rattle.std.specs.Prelude.{◌≡◌, ◌≤◌, ◌+◌, length};
ghost use Rattle.fd_words.specs.Report.{capture_status, numbered_line, capture_line, report_of};

use arrayvec::ArrayVec;
use fd_capture::CaptureFault;
use fd_device::{Failed, Sink, send};
use itoa::Buffer;

/// How a run ends.
#[derive(Clone, Copy, Debug, PartialEq, Eq)]
pub enum Ending {
    /// All was done.
    Done,
    /// The capture was refused.
    Capture(CaptureFault),
    /// The frame has no such position.
    NoSuchPosition,
    /// The reader failed.
    Read,
    /// The writer failed after this many bytes.
    Write { sent: u64 },
    /// There was a byte past the bounds of input.
    TooMuch,
    /// Memory was wanted.
    Memory,
}

/// A line that tells of an ending.
type ReportLine = ArrayVec<u8, 96>;

impl Ending {
    ghost use Rattle.std.specs.Prelude.{◌≡◌, ◌<◌, ℕ, length, is_ok, OnErr};
    ghost use Rattle.fd_words.specs.Report.{status_of, report_of};
    ghost use Rattle.fd_device.specs.Transfer.{Puts};
    ghost use Rattle.fd_device.specs.Transfer.{CountsFailure};

    /// The program's exit status.
    pub fn status(&self) -> u8
        ensures { result ≡ status_of self.now }
    {
        match self {
            Ending::Done => 0,
            Ending::Capture(fault) => capture_status(*fault),
            Ending::NoSuchPosition => 1,
            Ending::Read => 3,
            Ending::Write { .. } => 3,
            Ending::TooMuch => 4,
            Ending::Memory => 5,
        }
    }

    /// The line that tells of the ending.
    fn line(&self) -> ReportLine
        ensures { result.items ≡ report_of self.now }
    {
        match self {
            Ending::Done => line_of(b""),
            Ending::Capture(fault) => capture_line(*fault),
            Ending::NoSuchPosition => line_of(b"framedbg: no such position\n"),
            Ending::Read => line_of(b"framedbg: read fault\n"),
            Ending::Write { sent } => numbered_line(
                b"framedbg: write fault after ",
                *sent,
                b" bytes\n",
            ),
            Ending::TooMuch => line_of(b"framedbg: too much input\n"),
            Ending::Memory => line_of(b"framedbg: memory\n"),
        }
    }

    /// Puts the line that tells of the ending, which is empty where all was done. It does not flush.
    pub fn report<W: Sink>(&self, sink: &mut W) -> Result<(), Failed>
        // The whole line was put, or where the device failed a front of it and not all.
        ensures puts { (count : ℕ) × Puts (W.contents sink.old) (W.contents sink.new) 0 count (report_of self.now) (is_ok result)
            × OnErr result (count < length (report_of self.now)) }
        ensures failures { CountsFailure (W.failure_count sink.old) (W.failure_count sink.new) (is_ok result) }
    {
        let mut sent = 0;
        send(sink, &mut sent, self.line().as_slice())
    }
}

fn line_of(text: &[u8]) -> ReportLine
    requires { length text.now ≤ 96 }
    ensures { result.items ≡ text.now }
{
    let mut line = ArrayVec::new();
    line.try_extend_from_slice(text).unwrap();
    line
}

fn numbered_line(before: &[u8], number: u64, after: &[u8]) -> ReportLine
    requires { length before.now + length after.now ≤ 56 }
    ensures { result.items ≡ numbered_line before.now number after.now }
{
    let mut digits = Buffer::new();
    let mut line = ArrayVec::new();
    line.try_extend_from_slice(before).unwrap();
    line.try_extend_from_slice(digits.format(number).as_bytes())
        .unwrap();
    line.try_extend_from_slice(after).unwrap();
    line
}

fn capture_line(fault: CaptureFault) -> ReportLine
    ensures { result.items ≡ capture_line fault }
{
    match fault {
        CaptureFault::TooLong => line_of(b"framedbg: capture refused 1 too long\n"),
        CaptureFault::NotJson => line_of(b"framedbg: capture refused 2 not json\n"),
        CaptureFault::NotCapture => line_of(b"framedbg: capture refused 3 not a capture\n"),
        CaptureFault::Version => line_of(b"framedbg: capture refused 4 version\n"),
        CaptureFault::Size => line_of(b"framedbg: capture refused 5 size\n"),
        CaptureFault::TooMany => line_of(b"framedbg: capture refused 6 too many events\n"),
        CaptureFault::UnknownEvent { number } => numbered_line(
            b"framedbg: capture refused 7 unknown event ",
            u64::from(number),
            b"\n",
        ),
        CaptureFault::BadField { number } => numbered_line(
            b"framedbg: capture refused 8 bad field ",
            u64::from(number),
            b"\n",
        ),
        CaptureFault::Memory => line_of(b"framedbg: memory\n"),
    }
}

fn capture_status(fault: CaptureFault) -> u8
    ensures { result ≡ capture_status fault }
{
    match fault {
        CaptureFault::Memory => 5,
        CaptureFault::TooLong
        | CaptureFault::NotJson
        | CaptureFault::NotCapture
        | CaptureFault::Version
        | CaptureFault::Size
        | CaptureFault::TooMany
        | CaptureFault::UnknownEvent { .. }
        | CaptureFault::BadField { .. } => 2,
    }
}
