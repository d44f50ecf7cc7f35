//! The program `framedbg`: replays a captured frame forward and backward.
#![tactic(auto)]

use fd_cli::{Devices, FileFault, Files, MAX_CAPTURE_LEN, WordsFault, program, refuse_words};
use fd_device::Device;
use fd_screen::{Prompt, Screen};
use std::alloc::Global;
use std::io::{ErrorKind, IsTerminal, Read};
use std::process::ExitCode;
use std::{env, fs, io};

/// The most bytes that are read of a capture: one more than a capture may have.
const MAX_READ: u64 = MAX_CAPTURE_LEN as u64 + 1;

/// The machine's files.
#[derive(Drop)]
struct Disk<'a> {
    rt: &'a HostRuntime,
}

/// The first bytes of a file.
fn read_first(rt: &HostRuntime, alloc: Global, path: &str) -> Result<Vec<u8>, io::Error> {
    let file = fs::open(rt, path)?;
    let mut bytes = Vec::new(alloc);
    file.take(MAX_READ).read_to_end(&mut bytes)?;
    Ok(bytes)
}

impl Files for Disk<'_> {
    fn read(&self, alloc: Global, path: &str) -> Result<Vec<u8>, FileFault> {
        read_first(self.rt, alloc, path).map_err(|error| match error.kind() {
            ErrorKind::OutOfMemory => FileFault::Memory,
            _ => FileFault::Unreadable,
        })
    }
}

/// The words of the command line.
fn read_words(rt: &HostRuntime) -> Result<Vec<String>, WordsFault> {
    let words = env::args(rt).map_err(|error| match error.kind() {
        ErrorKind::OutOfMemory => WordsFault::Memory,
        _ => WordsFault::NotText,
    })?;
    words.collect(rt.alloc()).map_err(|_| WordsFault::Memory)
}

fn main(rt: HostRuntime) -> ExitCode {
    let (reader, output, errors) = (rt.reader(), rt.stdout(), rt.stderr());
    let (is_typed, shows_moves) = (reader.is_terminal(), errors.is_terminal());
    let replies = Device::new(io::writer(&rt));
    let mut devices = Devices {
        source: Prompt::new(Device::new(reader), rt.stderr(), is_typed),
        sink: Screen::new(replies, errors, output.is_terminal(), shows_moves),
        errors: Device::new(rt.stderr()),
    };
    ExitCode::from(match read_words(&rt) {
        Ok(words) => program(
            &rt,
            rt.alloc(),
            words.as_slice(),
            &Disk { rt: &rt },
            &mut devices,
        ),
        Err(fault) => refuse_words(fault, &mut devices),
    })
}
