//! Replays each session of the examples, with several numbers of workers, and says whether the replies are the bytes that were worked out beforehand.
#![tactic(auto)]

use fd_cli::{Ending, serve};
use fd_device::Device;
use std::rt::Files;
use std::thread::Threads;
use std::{fs, io};

/// Where two texts first differ, or the shorter one ends.
fn first_difference(one: &[u8], other: &[u8]) -> usize {
    one.iter().zip(other).take_while(|(a, b)| a == b).count()
}

/// The file of a session whose name ends so.
fn read<R: Files + AllocGlobal>(rt: &R, name: &str, ending: &str) -> io::Result<Vec<u8>> {
    fs::read(rt, format!(in rt.alloc(); "{name}{ending}")?)
}

/// Replays a session with one, two and 64 workers, and prints its name and how it went. Threads are started by a handle of their
/// own, which is `main`'s runtime.
fn replay<T: Threads + Sync>(
    rt: &HostRuntime,
    threads: &T,
    session: &str,
    capture: &str,
) -> io::Result<()> {
    let alloc = rt.alloc();
    let capture = read(rt, capture, ".json")?;
    let lines = read(rt, session, ".session")?;
    let expected = read(rt, session, ".expected")?;
    for workers in [1, 2, 64] {
        let mut source = Device::new(lines.as_slice());
        let mut sink = Device::new(Vec::new(alloc));
        let ending = serve(threads, alloc, &capture, workers, &mut source, &mut sink);
        let replies = sink.into_inner();
        if ending != Ending::Done {
            return println!(rt; "{session} with {workers} workers: {ending:?}");
        }
        if replies != expected {
            let place = first_difference(&replies, &expected);
            return println!(rt; "{session} with {workers} workers: differs at byte {place}");
        }
    }
    println!(rt; "{session}: as expected")
}

fn main(rt: HostRuntime) -> io::Result<()> {
    let list = fs::read_to_string(&rt, "sessions.txt")?;
    for line in list.lines() {
        if let Some((session, capture)) = line.split_once(' ') {
            replay(&rt, &rt, session, capture)?;
        }
    }
    Ok(())
}
