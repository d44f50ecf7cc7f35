//! The whole program behind its words.
ghost use Rattle.fd_words.specs.Request.{AsksWorkers};

use crate::tests::cli::captures::ONE_CLEAR;
use crate::tests::cli::devices::{Limited, Pieces};
use fd_cli::{Devices, Request, perform};
use fd_device::Device;
use std::process::Abort;
use std::thread::Threads;

/// What a program reads, and how many bytes its output takes.
#[derive(Drop)]
struct Given<'a>(&'a str, &'a [u8], usize);

/// That it writes this text, tells this of its ending, and gives this status.
fn expect_program<T: Abort + Threads + Sync + AllocGlobal>(
    rt: &T,
    request: Request,
    given: &Given,
    text: &[u8],
    report: &[u8],
    status: u8,
)
    requires { AsksWorkers request }
{
    let mut devices = Devices {
        source: Device::new(Pieces::of(given.1, 5)),
        sink: Device::new(Limited::of(rt.alloc(), given.2, 9)),
        errors: Device::new(Limited::of(rt.alloc(), 100, 9)),
    };
    let ended = perform(rt, rt.alloc(), request, given.0.as_bytes(), &mut devices);
    assert_eq!(rt; ended, status);
    let Devices { sink, errors, .. } = devices;
    assert_eq!(rt; sink.into_inner().bytes.as_slice(), text);
    assert_eq!(rt; errors.into_inner().bytes.as_slice(), report);
}

const RUN: Request = Request::Run { workers: 2 };

const LAST_IMAGE: Request = Request::Image {
    workers: 64,
    at: None,
};

#[test]
fn a_run_answers_and_says_nothing_of_its_ending(rt: HostRuntime) {
    let given = Given(ONE_CLEAR, b"step\nback\nback\npixel 0 0\nquit\nstep\n", 100);
    let text = b"at 1\nat 0\nrefused 2 at start\npixel 0 0 0 0\nbye\n";
    expect_program(&rt, RUN, &given, text, b"", 0);
}

#[test]
fn a_run_whose_output_is_full_says_how_much_was_sent(rt: HostRuntime) {
    let given = Given(ONE_CLEAR, b"step\nstep\n", 7);
    let report = b"framedbg: write fault after 7 bytes\n";
    expect_program(&rt, RUN, &given, b"at 1\nre", report, 3);
}

#[test]
fn an_image_is_written_at_the_position_asked_for(rt: HostRuntime) {
    let given = Given(ONE_CLEAR, b"step\n", 100);
    let last =
        b"P7\nWIDTH 1\nHEIGHT 1\nDEPTH 4\nMAXVAL 255\nTUPLTYPE RGB_ALPHA\nENDHDR\n\x0a\x14\x1e\x28";
    expect_program(&rt, LAST_IMAGE, &given, last, b"", 0);
    let first = b"P7\nWIDTH 1\nHEIGHT 1\nDEPTH 4\nMAXVAL 255\nTUPLTYPE RGB_ALPHA\nENDHDR\n\0\0\0\0";
    let at_start = Request::Image {
        workers: 1,
        at: Some(0),
    };
    expect_program(&rt, at_start, &given, first, b"", 0);
    let past_the_end = Request::Image {
        workers: 1,
        at: Some(2),
    };
    let report = b"framedbg: no such position\n";
    expect_program(&rt, past_the_end, &given, b"", report, 1);
}

#[test]
fn events_are_listed_at_the_start(rt: HostRuntime) {
    let given = Given(ONE_CLEAR, b"step\n", 100);
    let text = b"events 1 at 0\n1 on clear 10 20 30 40\n";
    expect_program(&rt, Request::Events, &given, text, b"", 0);
}

#[test]
fn a_capture_that_is_refused_is_told_with_its_status(rt: HostRuntime) {
    let given = Given("[]", b"step\n", 100);
    let report = b"framedbg: capture refused 3 not a capture\n";
    expect_program(&rt, RUN, &given, b"", report, 2);
    expect_program(&rt, LAST_IMAGE, &given, b"", report, 2);
    expect_program(&rt, Request::Events, &given, b"", report, 2);
}
