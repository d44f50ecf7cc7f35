use crate::tests::captures::{MASKED, PICTURE, TWO_CELLS, TWO_TILES, session};
use fd_capture::{CaptureFault, read};
use fd_pam::{Device, PamFault, write};
use fd_session::Session;
use std::alloc::Global;
use std::io;
use std::io::{Print, Write};
use std::process::Abort;
use std::test::Fail;

/// Reads a capture of so many events. After a refusal it is read again.
fn expect_read<R: Print + Abort>(
    rt: &R,
    alloc: Global,
    capture: &str,
    events: u32,
) -> Result<(), Fail> {
    println!(rt; "ready")?;
    match read(alloc, capture.as_bytes()) {
        Ok(table) => {
            println!(rt; "told Ok")?;
            assert_eq!(rt; table.len(), events);
        }
        Err(fault) => {
            println!(rt; "told {fault:?}")?;
            assert_eq!(rt; fault, CaptureFault::Memory);
            let again = read(alloc, capture.as_bytes());
            assert!(rt; again.is_ok_and(|table| table.len() == events));
        }
    }
    Ok(())
}

#[test]
fn capture_read(rt: HostRuntime) -> Result<(), Fail> {
    expect_read(&rt, rt.alloc(), MASKED, 5)
}

/// A draw whose triangles are listed in cells.
#[test]
fn capture_read_into_cells(rt: HostRuntime) -> Result<(), Fail> {
    expect_read(&rt, rt.alloc(), TWO_CELLS, 1)
}

/// A draw with a picture, some of whose texels are holes.
#[test]
fn capture_read_with_a_picture(rt: HostRuntime) -> Result<(), Fail> {
    expect_read(&rt, rt.alloc(), PICTURE, 4)
}

/// Takes all bytes and counts them.
#[derive(Drop)]
struct Counts {
    taken: u64,
}

impl Write for Counts {
    fn write(&mut self, buf: &[u8]) -> io::Result<usize> {
        self.taken = self.taken.saturating_add(buf.len() as u64);
        Ok(buf.len())
    }

    fn flush(&mut self) -> io::Result<()> {
        Ok(())
    }
}

/// What comes of writing the image of a session, and how many bytes were put.
fn written(alloc: Global, session: &Session) -> (Result<(), PamFault>, u64) {
    let mut sink = Device::new(Counts { taken: 0 });
    let result = write(alloc, &mut sink, session);
    (result, sink.into_inner().taken)
}

/// On want of memory no byte is put.
#[test]
fn pam_write(rt: HostRuntime) -> Result<(), Fail> {
    let session = session(rt.alloc(), TWO_TILES, 1)?;
    println!(rt; "ready")?;
    let (first, taken) = written(rt.alloc(), &session);
    println!(rt; "told {first:?}")?;
    if first.is_ok() {
        assert_eq!(rt; taken, 198);
    } else {
        assert_eq!(rt; (first, taken), (Err(PamFault::Memory), 0));
        assert_eq!(rt; written(rt.alloc(), &session), (Ok(()), 198));
    }
    Ok(())
}
