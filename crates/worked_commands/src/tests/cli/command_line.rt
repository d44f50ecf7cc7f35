//! The whole program, from its words to its status.
use crate::tests::cli::captures::ONE_CLEAR;
use crate::tests::cli::devices::{Limited, Pieces};
use fd_cli::{Devices, FileFault, Files, WordsFault, program, refuse_words};
use fd_device::Device;
use std::alloc::Global;
use std::process::Abort;
use std::test::Fail;
use std::thread::Threads;

/// The one file that there is, and what else is asked for.
#[derive(Drop)]
struct OneFile;

impl Files for OneFile {
    fn read(&self, alloc: Global, path: &str) -> Result<Vec<u8>, FileFault> {
        if path == "memory.json" {
            return Err(FileFault::Memory);
        }
        if path != "clear.json" {
            return Err(FileFault::Unreadable);
        }
        let mut bytes = Vec::new(alloc);
        match bytes.extend_from_slice(ONE_CLEAR.as_bytes()) {
            Ok(()) => Ok(bytes),
            Err(_) => Err(FileFault::Memory),
        }
    }
}

type Given<'a> = Devices<Device<Pieces<'a>>, Device<Limited>, Device<Limited>>;

/// Devices over these commands.
fn devices_over(alloc: Global, input: &[u8]) -> Given<'_> {
    Devices {
        source: Device::new(Pieces::of(input, 5)),
        sink: Device::new(Limited::of(alloc, 10_000, 900)),
        errors: Device::new(Limited::of(alloc, 10_000, 900)),
    }
}

/// What the words come to: the status, what was written, and what the errors were told.
fn ended<T: Abort + Threads + Sync + AllocGlobal>(
    rt: &T,
    words: &[&str],
) -> (u8, Vec<u8>, Vec<u8>) {
    let mut devices = devices_over(rt.alloc(), b"step\npixel 0 0\n");
    let status = program(rt, rt.alloc(), words, &OneFile, &mut devices);
    let Devices { sink, errors, .. } = devices;
    (status, sink.into_inner().bytes, errors.into_inner().bytes)
}

#[test]
fn words_that_ask_for_something(rt: HostRuntime) {
    for (words, text) in [
        (
            ["framedbg", "run", "clear.json"],
            b"at 1\npixel 10 20 30 40\n".as_slice(),
        ),
        (
            ["framedbg", "events", "clear.json"],
            b"events 1 at 0\n1 on clear 10 20 30 40\n",
        ),
        (
            ["framedbg", "image", "clear.json"],
            b"P7\nWIDTH 1\nHEIGHT 1\nDEPTH 4\nMAXVAL 255\nTUPLTYPE RGB_ALPHA\nENDHDR\n\x0a\x14\x1e\x28",
        ),
    ] {
        let (status, written, told) = ended(&rt, words.as_slice());
        assert_eq!(rt; status, 0);
        assert_eq!(rt; written.as_slice(), text);
        assert!(rt; told.is_empty());
    }
}

#[test]
fn files_that_cannot_be_read(rt: HostRuntime) {
    for (file, status, report) in [
        ("no.json", 3, b"framedbg: cannot read capture\n".as_slice()),
        ("memory.json", 5, b"framedbg: memory\n"),
    ] {
        let (ended, written, told) = ended(&rt, &["framedbg", "events", file]);
        assert_eq!(rt; ended, status);
        assert!(rt; written.is_empty());
        assert_eq!(rt; told.as_slice(), report);
    }
}

/// Help and version go to the output, and all else to the errors.
#[test]
fn words_that_ask_for_no_capture(rt: HostRuntime) {
    for (word, status) in [("--help", 0), ("--version", 0), ("look", 1), ("run", 1)] {
        let (ended, written, told) = ended(&rt, &["framedbg", word]);
        assert_eq!(rt; ended, status);
        assert_eq!(rt; written.is_empty(), status == 1);
        assert_eq!(rt; told.is_empty(), status == 0);
    }
}

/// Whoever names a capture alone is told what lists it.
#[test]
fn a_capture_without_a_subcommand(rt: HostRuntime) {
    for (word, is_told) in [("a b.json", true), ("look", false), ("json", false)] {
        let (status, _, told) = ended(&rt, &["framedbg", word]);
        assert_eq!(rt; status, 1);
        let end = b"\ndid you mean: framedbg events a b.json\n";
        assert_eq!(rt; told.as_slice().ends_with(end), is_told);
    }
}

#[test]
fn words_that_cannot_be_had(rt: HostRuntime) -> Result<(), Fail> {
    for (fault, status, report) in [
        (
            WordsFault::NotText,
            1,
            b"error: a word of the command line is not UTF-8\n".as_slice(),
        ),
        (WordsFault::Memory, 5, b"framedbg: memory\n"),
    ] {
        let mut devices = devices_over(rt.alloc(), b"step\n");
        assert_eq!(rt; refuse_words(fault, &mut devices), status);
        let Devices { sink, errors, .. } = devices;
        assert!(rt; sink.into_inner().bytes.is_empty());
        assert_eq!(rt; errors.into_inner().bytes.as_slice(), report);
    }
    Ok(())
}
