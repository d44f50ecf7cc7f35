//! Readers and writers of the tests.
use std::alloc::Global;
use std::io;
use std::io::{Read, Write};
use std::sync::atomic::{AtomicUsize, Ordering};

/// Gives so many bytes at a time, and then the end or a fault.
#[derive(Clone, Copy)]
pub(crate) struct Pieces<'a> {
    pub(crate) bytes: &'a [u8],
    pub(crate) step: usize,
    pub(crate) fails: bool,
}

impl<'a> Pieces<'a> {
    pub(crate) fn of(bytes: &'a [u8], step: usize) -> Pieces<'a> {
        Pieces {
            bytes,
            step,
            fails: false,
        }
    }
}

impl Read for Pieces<'_> {
    fn read(&mut self, buf: &mut [u8]) -> io::Result<usize> {
        if self.bytes.is_empty() && self.fails {
            return Err(io::Error::from(io::ErrorKind::Other));
        }
        let count = self.bytes.len().min(buf.len()).min(self.step);
        let (front, rest) = self.bytes.split_at(count);
        buf[..count].copy_from_slice(front);
        self.bytes = rest;
        Ok(count)
    }
}

/// Takes so many bytes at a time, and fails once it is full.
#[derive(Drop)]
pub(crate) struct Limited {
    pub(crate) bytes: Vec<u8>,
    pub(crate) room: usize,
    pub(crate) step: usize,
    pub(crate) flushes: usize,
    /// A flush fails once so many bytes were taken.
    pub(crate) last_flush: usize,
}

impl Limited {
    pub(crate) fn of(alloc: Global, room: usize, step: usize) -> Limited {
        Limited {
            bytes: Vec::new(alloc),
            room,
            step,
            flushes: 0,
            last_flush: usize::MAX,
        }
    }

    /// A writer that takes the same, and has taken nothing yet.
    pub(crate) fn again(&self, alloc: Global) -> Limited {
        Limited {
            bytes: Vec::new(alloc),
            flushes: 0,
            ..*self
        }
    }
}

impl Write for Limited {
    fn write(&mut self, buf: &[u8]) -> io::Result<usize> {
        let left = self.room.saturating_sub(self.bytes.len());
        if left == 0 {
            return Err(io::Error::from(io::ErrorKind::Other));
        }
        let count = buf.len().min(self.step).min(left);
        self.bytes.extend_from_slice(&buf[..count])?;
        Ok(count)
    }

    fn flush(&mut self) -> io::Result<()> {
        if self.bytes.len() >= self.last_flush {
            return Err(io::Error::from(io::ErrorKind::Other));
        }
        self.flushes = self.flushes.saturating_add(1);
        Ok(())
    }
}

/// Answers once that it was interrupted.
#[derive(Drop)]
pub(crate) struct Interrupted(pub(crate) bool);

impl Read for Interrupted {
    fn read(&mut self, _buf: &mut [u8]) -> io::Result<usize> {
        if !self.0 {
            self.0 = true;
            return Err(io::Error::from(io::ErrorKind::Interrupted));
        }
        Ok(0)
    }
}

impl Write for Interrupted {
    fn write(&mut self, buf: &[u8]) -> io::Result<usize> {
        if !self.0 {
            self.0 = true;
            return Err(io::Error::from(io::ErrorKind::Interrupted));
        }
        Ok(buf.len())
    }

    fn flush(&mut self) -> io::Result<()> {
        Ok(())
    }
}

/// Counts the bytes that were flushed.
#[derive(Drop)]
pub(crate) struct Flushing<'a> {
    pub(crate) waiting: usize,
    pub(crate) flushed: &'a AtomicUsize,
}

impl Write for Flushing<'_> {
    fn write(&mut self, buf: &[u8]) -> io::Result<usize> {
        self.waiting = self.waiting.saturating_add(buf.len());
        Ok(buf.len())
    }

    fn flush(&mut self) -> io::Result<()> {
        self.flushed.store(self.waiting, Ordering::SeqCst);
        Ok(())
    }
}

/// Gives a line at a time, and notes how much was flushed when it is asked for one.
#[derive(Drop)]
pub(crate) struct Asking<'a> {
    pub(crate) lines: [&'static [u8]; 3],
    pub(crate) next: usize,
    pub(crate) flushed: &'a AtomicUsize,
    pub(crate) notes: [usize; 3],
}

impl Read for Asking<'_> {
    fn read(&mut self, buf: &mut [u8]) -> io::Result<usize> {
        if self.next >= 3 {
            return Ok(0);
        }
        let line = self.lines[self.next];
        if buf.len() < line.len() {
            return Err(io::Error::from(io::ErrorKind::Other));
        }
        self.notes[self.next] = self.flushed.load(Ordering::SeqCst);
        buf[..line.len()].copy_from_slice(line);
        self.next += 1;
        Ok(line.len())
    }
}

/// Gives one byte again and again.
#[derive(Drop)]
pub(crate) struct Again {
    pub(crate) byte: u8,
    pub(crate) left: usize,
}

impl Read for Again {
    fn read(&mut self, buf: &mut [u8]) -> io::Result<usize> {
        let count = buf.len().min(self.left);
        buf[..count].fill(self.byte);
        self.left -= count;
        Ok(count)
    }
}

/// Counts the bytes that it takes, which have to be one line again and again.
#[derive(Drop)]
pub(crate) struct Repeats {
    pub(crate) line: &'static [u8],
    pub(crate) count: usize,
    pub(crate) same: bool,
}

impl Write for Repeats {
    fn write(&mut self, buf: &[u8]) -> io::Result<usize> {
        for byte in buf {
            let expected = self.line.get(self.count % self.line.len().max(1));
            self.same = self.same && expected == Some(byte);
            self.count = self.count.saturating_add(1);
        }
        Ok(buf.len())
    }

    fn flush(&mut self) -> io::Result<()> {
        Ok(())
    }
}
