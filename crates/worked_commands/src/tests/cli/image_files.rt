//! Image files of what a session shows.
ghost use Rattle.std.specs.Prelude.{◌≤◌};

use crate::tests::cli::devices::Limited;
use fd_blend::Colour;
use fd_device::{Device, Sink};
use fd_events::{Event, EventTable};
use fd_pam::{PamFault, write, write_body};
use fd_session::Session;
use std::alloc::Global;
use std::test::Fail;
use std::thread::Threads;

const WHOLE: &[u8] =
    b"P7\nWIDTH 1\nHEIGHT 1\nDEPTH 4\nMAXVAL 255\nTUPLTYPE RGB_ALPHA\nENDHDR\n\x0a\x14\x1e\x28";

/// A session that has gone through one clear.
fn cleared<T: Threads + Sync>(
    rt: &T,
    alloc: Global,
    size: (u32, u32),
    workers: u32,
) -> Result<Session, Fail>
    requires { (1 ≤ workers) × (workers ≤ 64) }
{
    let mut events = Vec::new(alloc);
    events.push(Event::Clear(Colour {
        r: 10,
        g: 20,
        b: 30,
        a: 40,
    }))?;
    let table = EventTable::start(alloc, 1, size.0, size.1, events)?;
    let Ok(mut session) = Session::start(alloc, table, workers) else {
        return Err(Fail::from("no memory"));
    };
    let _ = session.step(rt);
    Ok(session)
}

fn limited(alloc: Global, room: usize, step: usize) -> Device<Limited> {
    Device::new(Limited::of(alloc, room, step))
}

#[test]
fn one_clear_to_bytes(rt: HostRuntime) -> Result<(), Fail> {
    for workers in [1, 2, 64] {
        let session = cleared(&rt, rt.alloc(), (1, 1), workers)?;
        assert_eq!(rt; session.position(), 1);
        let mut sink = limited(rt.alloc(), 100, 7);
        assert_eq!(rt; write(rt.alloc(), &mut sink, &session), Ok(()));
        assert_eq!(rt; sink.into_inner().bytes.as_slice(), WHOLE);
    }
    let session = cleared(&rt, rt.alloc(), (1, 1), 1)?;
    let mut body = limited(rt.alloc(), 100, 100);
    assert_eq!(rt; write_body(&mut body, &session), Ok(()));
    assert_eq!(rt;
        body.into_inner().bytes.as_slice(),
        b"\x0a\x14\x1e\x28".as_slice()
    );
    Ok(())
}

/// The sink fails after each number of bytes in turn.
#[test]
fn a_writer_that_fails_after_each_byte(rt: HostRuntime) -> Result<(), Fail> {
    let session = cleared(&rt, rt.alloc(), (1, 1), 1)?;
    for room in 0..WHOLE.len() {
        let mut sink = limited(rt.alloc(), room, 3);
        let sent = room as u64;
        assert_eq!(rt;
            write(rt.alloc(), &mut sink, &session),
            Err(PamFault::Write { sent })
        );
        assert_eq!(rt; sink.failures(), 1);
        assert_eq!(rt; sink.into_inner().bytes.as_slice(), &WHOLE[..room]);
    }
    Ok(())
}

/// Rows that are wider than a chunk, and more of them than one chunk holds.
#[test]
fn rows_wider_than_a_chunk(rt: HostRuntime) -> Result<(), Fail> {
    for (width, height) in [(2048, 3), (3, 2048), (1025, 2)] {
        let session = cleared(&rt, rt.alloc(), (width, height), 1)?;
        let mut sink = limited(rt.alloc(), 100_000, 100_000);
        assert_eq!(rt; write_body(&mut sink, &session), Ok(()));
        let bytes = sink.into_inner().bytes;
        assert_eq!(rt; bytes.len(), 4 * width as usize * height as usize);
        let all = bytes
            .iter()
            .enumerate()
            .all(|(place, byte)| usize::from(*byte) == 10 * (place % 4 + 1));
        assert!(rt; all);
    }
    Ok(())
}
