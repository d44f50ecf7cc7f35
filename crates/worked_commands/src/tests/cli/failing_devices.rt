ghost use Rattle.std.specs.Prelude.{◌≤◌};

use crate::tests::cli::captures::ONE_CLEAR;
use crate::tests::cli::devices::{Again, Asking, Flushing, Interrupted, Limited, Pieces, Repeats};
use fd_cli::{Ending, image, list_events, serve};
use fd_device::{Device, Sink, Source};
use std::process::Abort;
use std::sync::atomic::AtomicUsize;
use std::thread::Threads;

const INPUT: &[u8] = b"step\nshow\nquit\n";

const OUTPUT: &[u8] =
    b"at 1\npam 69\nP7\nWIDTH 1\nHEIGHT 1\nDEPTH 4\nMAXVAL 255\nTUPLTYPE RGB_ALPHA\nENDHDR\n\x0a\x14\x1e\x28bye\n";

/// How a run ends over these devices, and what is then written, whatever the number of workers.
fn expect_run(
    rt: &(impl Abort + Threads + Sync + AllocGlobal),
    reader: Pieces<'_>,
    writer: &Limited,
    ending: Ending,
    text: &[u8],
) {
    let capture = ONE_CLEAR.as_bytes();
    for workers in [1, 2, 64] {
        let mut source = Device::new(reader);
        let mut sink = Device::new(writer.again(rt.alloc()));
        let ended = serve(rt, rt.alloc(), capture, workers, &mut source, &mut sink);
        assert_eq!(rt; ended, ending);
        let is_read = ending == Ending::Read;
        assert_eq!(rt; source.failures(), if is_read { 1 } else { 0 });
        let is_write = matches!(ending, Ending::Write { .. });
        assert_eq!(rt; sink.failures(), if is_write { 1 } else { 0 });
        assert_eq!(rt; sink.into_inner().bytes.as_slice(), text);
    }
}

#[test]
fn devices_that_fail_midway(rt: HostRuntime) {
    let writer = Limited::of(rt.alloc(), 8, 100);
    let ending = Ending::Write { sent: 8 };
    expect_run(&rt, Pieces::of(INPUT, 100), &writer, ending, b"at 1\npam");
    let mut reader = Pieces::of(b"step\nst", 100);
    reader.fails = true;
    let writer = Limited::of(rt.alloc(), 100, 100);
    expect_run(&rt, reader, &writer, Ending::Read, b"at 1\n");
}

#[test]
fn a_writer_that_fails_after_each_byte(rt: HostRuntime) {
    assert_eq!(rt; OUTPUT.len(), 85);
    for room in 0..85usize {
        let ending = Ending::Write { sent: room as u64 };
        let writer = Limited::of(rt.alloc(), room, 5);
        expect_run(&rt, Pieces::of(INPUT, 7), &writer, ending, &OUTPUT[..room]);
    }
    let writer = Limited::of(rt.alloc(), 85, 1);
    expect_run(&rt, Pieces::of(INPUT, 1), &writer, Ending::Done, OUTPUT);
    for workers in [1, 2, 64] {
        let mut source = Device::new(Pieces::of(INPUT, 100));
        let mut sink = Device::new(Interrupted(false));
        let capture = ONE_CLEAR.as_bytes();
        let ended = serve(&rt, rt.alloc(), capture, workers, &mut source, &mut sink);
        assert_eq!(rt; ended, Ending::Write { sent: 0 });
    }
}

#[test]
fn a_flush_that_fails(rt: HostRuntime) {
    for (last, sent) in [(0, 5), (6, 81), (82, 85)] {
        let mut writer = Limited::of(rt.alloc(), 100, 100);
        writer.last_flush = last;
        let ending = Ending::Write { sent: sent as u64 };
        let reader = Pieces::of(INPUT, 100);
        expect_run(&rt, reader, &writer, ending, &OUTPUT[..sent]);
    }
}

#[test]
fn a_flush_that_fails_behind_one_text(rt: HostRuntime) {
    for workers in [1, 2, 64] {
        let mut writer = Limited::of(rt.alloc(), 100, 100);
        writer.last_flush = 69;
        let mut sink = Device::new(writer);
        let capture = ONE_CLEAR.as_bytes();
        let ended = image(&rt, rt.alloc(), capture, workers, None, &mut sink);
        assert_eq!(rt; ended, Ending::Write { sent: 69 });
        assert_eq!(rt; sink.failures(), 1);
        assert_eq!(rt; sink.into_inner().bytes.as_slice(), &OUTPUT[12..81]);
    }
    let mut writer = Limited::of(rt.alloc(), 100, 100);
    writer.last_flush = 37;
    let mut sink = Device::new(writer);
    let ended = list_events(rt.alloc(), ONE_CLEAR.as_bytes(), &mut sink);
    assert_eq!(rt; ended, Ending::Write { sent: 37 });
    assert_eq!(rt; sink.failures(), 1);
    let text = b"events 1 at 0\n1 on clear 10 20 30 40\n".as_slice();
    assert_eq!(rt; sink.into_inner().bytes.as_slice(), text);
}

#[test]
fn a_reader_that_is_interrupted(rt: HostRuntime) {
    for workers in [1, 2, 64] {
        let mut source = Device::new(Interrupted(false));
        let mut sink = Device::new(Limited::of(rt.alloc(), 100, 100));
        let capture = ONE_CLEAR.as_bytes();
        let ended = serve(&rt, rt.alloc(), capture, workers, &mut source, &mut sink);
        assert_eq!(rt; ended, Ending::Read);
        assert_eq!(rt; Source::failures(&source), 1);
        assert_eq!(rt; sink.into_inner().bytes.len(), 0);
    }
}

#[test]
fn a_reader_that_fails_after_each_byte(rt: HostRuntime) {
    for count in 0..16usize {
        let mut reader = Pieces::of(&INPUT[..count], 3);
        reader.fails = true;
        let (ending, length) = match count {
            0..5 => (Ending::Read, 0),
            5..10 => (Ending::Read, 5),
            10..15 => (Ending::Read, 81),
            _ => (Ending::Done, 85),
        };
        let writer = Limited::of(rt.alloc(), 100, 100);
        expect_run(&rt, reader, &writer, ending, &OUTPUT[..length]);
    }
}

fn notes_of_run<'a>(
    rt: &(impl Abort + Threads + Sync + AllocGlobal),
    workers: u32,
    flushed: &'a AtomicUsize,
) -> [usize; 3]
    requires { (1 ≤ workers) × (workers ≤ 64) }
{
    let lines = [
        b"step\n".as_slice(),
        b"show\n".as_slice(),
        b"quit\n".as_slice(),
    ];
    let mut source = Device::new(Asking::<'a> {
        lines,
        next: 0,
        flushed,
        notes: [9; 3],
    });
    let mut sink = Device::new(Flushing::<'a> {
        waiting: 0,
        flushed,
    });
    let capture = ONE_CLEAR.as_bytes();
    let ending = serve(rt, rt.alloc(), capture, workers, &mut source, &mut sink);
    assert_eq!(rt; ending, Ending::Done);
    source.into_inner().notes
}

#[test]
fn replies_before_it_reads_on(rt: HostRuntime) {
    for workers in [1, 2, 64] {
        let flushed = AtomicUsize::new(0);
        let notes = notes_of_run(&rt, workers, &flushed);
        assert_eq!(rt; notes.as_slice(), [0, 5, 81].as_slice());
    }
}

/// How a run on one byte so many times ends, and that it then wrote one line so many times, whatever the number of workers.
fn expect_repeats(
    rt: &(impl Abort + Threads + Sync + AllocGlobal),
    byte: u8,
    left: usize,
    ending: Ending,
    line: &'static [u8],
    times: usize,
) {
    for workers in [1, 2, 64] {
        let mut source = Device::new(Again { byte, left });
        let mut sink = Device::new(Repeats {
            line,
            count: 0,
            same: true,
        });
        let capture = ONE_CLEAR.as_bytes();
        let ended = serve(rt, rt.alloc(), capture, workers, &mut source, &mut sink);
        assert_eq!(rt; ended, ending);
        let written = sink.into_inner();
        assert!(rt; written.same);
        assert_eq!(rt; written.count, line.len().saturating_mul(times));
    }
}

#[test]
fn bounds_of_input(rt: HostRuntime) {
    for (left, ending) in [(1_000_000, Ending::Done), (1_000_001, Ending::TooMuch)] {
        let line = b"bad 1 unknown command\n";
        expect_repeats(&rt, b'\n', left, ending, line, 1_000_000);
    }
}

#[test]
fn bounds_of_input_in_bytes(rt: HostRuntime) {
    for (left, ending, times) in [
        (268_435_456, Ending::Done, 1),
        (268_435_457, Ending::TooMuch, 0),
    ] {
        let line = b"bad 3 line too long\n";
        expect_repeats(&rt, b'a', left, ending, line, times);
    }
}
