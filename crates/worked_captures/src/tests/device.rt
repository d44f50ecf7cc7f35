use fd_device::{Device, Failed, Progress, Sink, Source, Untold, send};
use std::alloc::Global;
use std::io;
use std::io::{Read, Write};
use std::test::Fail;

/// Takes so many bytes at a time, and fails once it is full.
#[derive(Drop)]
struct Limited {
    bytes: Vec<u8>,
    room: usize,
    step: usize,
}

impl Write for Limited {
    fn write(&mut self, buf: &[u8]) -> io::Result<usize> {
        let left = self.room.saturating_sub(self.bytes.len());
        if left == 0 {
            return Err(io::Error::from(io::ErrorKind::Other));
        }
        let count = buf.len().min(self.step).min(left);
        self.bytes.extend_from_slice(&buf[..count])?;
        Ok(count)
    }

    fn flush(&mut self) -> io::Result<()> {
        if self.bytes.len() < self.room {
            Ok(())
        } else {
            Err(io::Error::from(io::ErrorKind::Other))
        }
    }
}

fn limited_device(alloc: Global, room: usize, step: usize) -> Device<Limited> {
    Device::new(Limited {
        bytes: Vec::new(alloc),
        room,
        step,
    })
}

#[test]
fn sends_all_in_pieces(rt: HostRuntime) -> Result<(), Fail> {
    let mut sink = limited_device(rt.alloc(), 100, 3);
    let mut sent = 5;
    assert_eq!(rt; send(&mut sink, &mut sent, b"ten bytes!"), Ok(()));
    assert_eq!(rt; sent, 15);
    assert_eq!(rt; sink.flush(), Ok(()));
    assert_eq!(rt; sink.failures(), 0);
    assert_eq!(rt;
        sink.into_inner().bytes.as_slice(),
        b"ten bytes!".as_slice()
    );
    Ok(())
}

#[test]
fn a_full_writer_is_a_failure(rt: HostRuntime) -> Result<(), Fail> {
    let mut sink = limited_device(rt.alloc(), 4, 3);
    let mut sent = 0;
    assert_eq!(rt; send(&mut sink, &mut sent, b"ten bytes!"), Err(Failed));
    assert_eq!(rt; sent, 4);
    assert_eq!(rt; sink.put(b"!"), Err(Failed));
    assert_eq!(rt; sink.flush(), Err(Failed));
    assert_eq!(rt; sink.failures(), 3);
    assert_eq!(rt; sink.into_inner().bytes.as_slice(), b"ten ".as_slice());
    Ok(())
}

#[test]
fn a_write_of_no_byte_fails_where_there_are_some(rt: HostRuntime) -> Result<(), Fail> {
    let mut sink = limited_device(rt.alloc(), 4, 0);
    assert_eq!(rt; sink.put(b"four"), Err(Failed));
    assert_eq!(rt; sink.put(b""), Ok(0));
    assert_eq!(rt; sink.failures(), 1);
    Ok(())
}

/// Gives its bytes two at a time, and fails where the next is an `x`.
#[derive(Drop)]
struct Given<'a> {
    bytes: &'a [u8],
}

impl Read for Given<'_> {
    fn read(&mut self, buf: &mut [u8]) -> io::Result<usize> {
        if self.bytes.first() == Some(&b'x') {
            return Err(io::Error::from(io::ErrorKind::Other));
        }
        let count = self.bytes.len().min(buf.len()).min(2);
        buf[..count].copy_from_slice(&self.bytes[..count]);
        self.bytes = &self.bytes[count..];
        Ok(count)
    }
}

#[test]
fn a_source_ends_where_nothing_comes(rt: HostRuntime) -> Result<(), Fail> {
    let mut source = Device::new(Given { bytes: b"abc" });
    let mut buffer = [0; 8];
    assert_eq!(rt; source.fill(&mut buffer), Ok(2));
    assert_eq!(rt; source.fill(&mut []), Ok(0));
    assert!(rt; !source.ended());
    assert_eq!(rt; source.fill(&mut buffer), Ok(1));
    assert_eq!(rt; buffer[0], b'c');
    assert!(rt; !source.ended());
    assert_eq!(rt; source.fill(&mut buffer), Ok(0));
    assert!(rt; source.ended());
    assert_eq!(rt; source.failures(), 0);
    Ok(())
}

#[test]
fn a_read_that_fails_is_counted(rt: HostRuntime) -> Result<(), Fail> {
    let mut source = Device::new(Given { bytes: b"abx" });
    let mut buffer = [0; 8];
    assert_eq!(rt; source.fill(&mut buffer), Ok(2));
    assert_eq!(rt; source.fill(&mut buffer), Err(Failed));
    assert_eq!(rt; source.failures(), 1);
    assert!(rt; !source.ended());
    Ok(())
}

/// A writer is told nothing of a move, as it is.
#[test]
fn to_be_told_writes_nothing(rt: HostRuntime) -> Result<(), Fail> {
    let mut sink = limited_device(rt.alloc(), 4, 1);
    sink.on_the_way(1, 2);
    Untold.on_the_way(1, 2);
    assert_eq!(rt; sink.failures(), 0);
    assert_eq!(rt; sink.into_inner().bytes.len(), 0);
    Ok(())
}
