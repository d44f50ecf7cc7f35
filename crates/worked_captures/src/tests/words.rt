use fd_blend::Colour;
use fd_capture::CaptureFault;
use fd_cover::Verdict;
use fd_device::Device;
use fd_events::{Event, EventTable};
use fd_history::Entry;
use fd_words::{
    Command, CommandFault, Ending, fault_line, number_line, pixel_line, read_command, send_entries,
    send_events, state_line,
};
use std::alloc::Global;
use std::io;
use std::io::Write;
use std::test::Fail;

const TEN_TO_FORTY: Colour = Colour {
    r: 10,
    g: 20,
    b: 30,
    a: 40,
};

/// Takes so many bytes at a time, and fails once it is full.
#[derive(Drop)]
struct Limited {
    bytes: Vec<u8>,
    room: usize,
    step: usize,
    flushed: bool,
}

impl Limited {
    fn new(alloc: Global, room: usize, step: usize) -> Limited {
        Limited {
            bytes: Vec::new(alloc),
            room,
            step,
            flushed: false,
        }
    }
}

impl Write for Limited {
    fn write(&mut self, buf: &[u8]) -> io::Result<usize> {
        let left = self.room.saturating_sub(self.bytes.len());
        if left == 0 {
            return Err(io::Error::from(io::ErrorKind::Other));
        }
        let count = buf.len().min(self.step).min(left);
        self.bytes.extend_from_slice(&buf[..count])?;
        Ok(count)
    }

    fn flush(&mut self) -> io::Result<()> {
        self.flushed = true;
        Ok(())
    }
}

#[test]
fn lines_and_their_commands(rt: HostRuntime) {
    for (line, command) in [
        (b"  step  \r".as_slice(), Ok(Command::Step)),
        (b"back".as_slice(), Ok(Command::Back)),
        (b"goto 4294967295".as_slice(), Ok(Command::Goto(u32::MAX))),
        (b"on 0000000001".as_slice(), Ok(Command::On(1))),
        (b"off 0".as_slice(), Ok(Command::Off(0))),
        (b"pixel  1   2".as_slice(), Ok(Command::Pixel(1, 2))),
        (b"history 3 4".as_slice(), Ok(Command::History(3, 4))),
        (b"state".as_slice(), Ok(Command::State)),
        (b"events".as_slice(), Ok(Command::Events)),
        (b"show".as_slice(), Ok(Command::Show)),
        (b"quit\r".as_slice(), Ok(Command::Quit)),
        (b"   ".as_slice(), Err(CommandFault::Unknown)),
        (b"undo 1".as_slice(), Err(CommandFault::Unknown)),
        (b"quit\r\r".as_slice(), Err(CommandFault::Unknown)),
        (b"goto".as_slice(), Err(CommandFault::Arguments)),
        (b"goto +1".as_slice(), Err(CommandFault::Arguments)),
        (b"goto 1\t".as_slice(), Err(CommandFault::Arguments)),
        (b"pixel 1".as_slice(), Err(CommandFault::Arguments)),
        (b"pixel 1 2 3".as_slice(), Err(CommandFault::Arguments)),
        (b"state 0".as_slice(), Err(CommandFault::Arguments)),
    ] {
        assert!(rt; read_command(line) == command);
    }
}

#[test]
fn endings_and_their_lines(rt: HostRuntime) {
    for (ending, status, line) in [
        (Ending::Done, 0, b"".as_slice()),
        (
            Ending::Capture(CaptureFault::BadField { number: 1 }),
            2,
            b"framedbg: capture refused 8 bad field 1\n".as_slice(),
        ),
        (
            Ending::Capture(CaptureFault::UnknownEvent { number: 65_536 }),
            2,
            b"framedbg: capture refused 7 unknown event 65536\n".as_slice(),
        ),
        (
            Ending::Capture(CaptureFault::TooLong),
            2,
            b"framedbg: capture refused 1 too long\n".as_slice(),
        ),
        (
            Ending::Capture(CaptureFault::NotJson),
            2,
            b"framedbg: capture refused 2 not json\n".as_slice(),
        ),
        (
            Ending::Capture(CaptureFault::NotCapture),
            2,
            b"framedbg: capture refused 3 not a capture\n".as_slice(),
        ),
        (
            Ending::Capture(CaptureFault::Version),
            2,
            b"framedbg: capture refused 4 version\n".as_slice(),
        ),
        (
            Ending::Capture(CaptureFault::Size),
            2,
            b"framedbg: capture refused 5 size\n".as_slice(),
        ),
        (
            Ending::Capture(CaptureFault::TooMany),
            2,
            b"framedbg: capture refused 6 too many events\n".as_slice(),
        ),
        (
            Ending::Capture(CaptureFault::Memory),
            5,
            b"framedbg: memory\n".as_slice(),
        ),
        (
            Ending::NoSuchPosition,
            1,
            b"framedbg: no such position\n".as_slice(),
        ),
        (Ending::Read, 3, b"framedbg: read fault\n".as_slice()),
        (
            Ending::Write { sent: 8 },
            3,
            b"framedbg: write fault after 8 bytes\n".as_slice(),
        ),
        (Ending::TooMuch, 4, b"framedbg: too much input\n".as_slice()),
        (Ending::Memory, 5, b"framedbg: memory\n".as_slice()),
    ] {
        let mut sink = Device::new(Limited::new(rt.alloc(), 100, 6));
        assert_eq!(rt; ending.status(), status);
        assert!(rt; ending.report(&mut sink).is_ok());
        let written = sink.into_inner();
        assert_eq!(rt; written.bytes.as_slice(), line);
        assert!(rt; !written.flushed);
        let mut full = Device::new(Limited::new(rt.alloc(), 3, 2));
        assert!(rt; ending.report(&mut full).is_err() != line.is_empty());
        assert_eq!(rt;
            full.into_inner().bytes.as_slice(),
            &line[..line.len().min(3)]
        );
    }
}

#[test]
fn lines_of_a_word_and_a_number(rt: HostRuntime) {
    assert_eq!(rt; number_line(b"at", 0).as_slice(), b"at 0\n".as_slice());
    assert_eq!(rt;
        number_line(b"pam", u64::MAX).as_slice(),
        b"pam 18446744073709551615\n".as_slice()
    );
}

#[test]
fn lines_that_are_no_command(rt: HostRuntime) {
    for (fault, line) in [
        (CommandFault::Unknown, b"bad 1 unknown command\n".as_slice()),
        (CommandFault::Arguments, b"bad 2 arguments\n".as_slice()),
        (CommandFault::TooLong, b"bad 3 line too long\n".as_slice()),
    ] {
        assert_eq!(rt; fault_line(fault), line);
    }
}

#[test]
fn a_pixel_shows_its_depth_since_version_two(rt: HostRuntime) {
    for (version, line) in [
        (1, b"pixel 10 20 30 40\n".as_slice()),
        (2, b"pixel 10 20 30 40 65535\n".as_slice()),
        (3, b"pixel 10 20 30 40 65535\n".as_slice()),
    ] {
        assert_eq!(rt; pixel_line(version, TEN_TO_FORTY, 65_535).as_slice(), line);
    }
}

/// A frame of one clear.
fn one_clear(alloc: Global) -> Result<EventTable, Fail> {
    let mut events = Vec::new(alloc);
    events.push(Event::Clear(TEN_TO_FORTY))?;
    Ok(EventTable::start(alloc, 1, 1, 1, events)?)
}

#[test]
fn the_opening_state_and_the_events(rt: HostRuntime) -> Result<(), Fail> {
    let table = one_clear(rt.alloc())?;
    let state =
        b"state cull back ccw 0 scissor 0 rect 0 0 0 0 blend 0 ONE ZERO ADD ONE ZERO ADD mask 15 factor 255 255 255 255\n";
    assert_eq!(rt;
        state_line(1, table.state_before(1)).as_slice(),
        state.as_slice()
    );
    let mut sink = Device::new(Limited::new(rt.alloc(), 100, 7));
    let mut sent = 0;
    assert!(rt; send_events(&table, 0, &mut sink, &mut sent).is_ok());
    let list = b"events 1 at 0\n1 on clear 10 20 30 40\n";
    assert_eq!(rt; sink.into_inner().bytes.as_slice(), list.as_slice());
    assert_eq!(rt; sent, list.len() as u64);
    Ok(())
}

#[test]
fn a_history_of_one_clear(rt: HostRuntime) {
    let entry = Entry {
        event: 1,
        triangle: None,
        verdict: Verdict::Drawn,
        source: TEN_TO_FORTY,
        before: Colour::default(),
        after: TEN_TO_FORTY,
        source_depth: 0,
        depth_before: 65_535,
        depth_after: 65_535,
    };
    for (version, list) in [
        (
            1,
            b"history 1\n1 - drawn 10 20 30 40 0 0 0 0 10 20 30 40\n".as_slice(),
        ),
        (
            2,
            b"history 1\n1 - drawn 10 20 30 40 0 0 0 0 10 20 30 40 0 65535 65535\n".as_slice(),
        ),
    ] {
        let mut sink = Device::new(Limited::new(rt.alloc(), 100, 7));
        let mut sent = 0;
        assert!(rt; send_entries(version, &[entry], &mut sink, &mut sent).is_ok());
        assert_eq!(rt; sink.into_inner().bytes.as_slice(), list);
        assert_eq!(rt; sent, list.len() as u64);
    }
}
