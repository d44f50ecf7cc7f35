//! What a subcommand asks for, and about which file.
ghost use Rattle.std.specs.Prelude.{◌≤◌};
ghost use Rattle.clap.specs.Words.{found_of, rows_of};
ghost use Rattle.fd_arguments.specs.Words.{Asks, HasRequest, HasWorkers};
ghost use Rattle.fd_words.specs.Request.{AsksWorkers};

use clap::ArgMatches;
use fd_crew::MOST_WORKERS;
use fd_words::Request;

/// The number of workers where none is asked for.
const WORKERS: u32 = 4;

/// What the words of a command line ask for.
#[derive(Clone, Copy, Debug)]
pub struct Arguments<'a> {
    pub request: Request,
    /// The path of the capture's file.
    pub capture: &'a str,
}

/// What a subcommand with its arguments asks for.
pub(crate) fn arguments_of<'a>(name: &str, matches: &ArgMatches<'a>) -> Arguments<'a>
    ensures value { Asks (name.now, rows_of (found_of matches.now)) result }
    ensures workers { AsksWorkers result.request }
{
    Arguments {
        request: request_of(name, matches),
        capture: matches.get_str("CAPTURE").unwrap_or(""),
    }
}

/// The number of workers that the words ask for. `clap` has refused any other; no clause of it says so.
fn workers(matches: &ArgMatches) -> u32
    ensures value { HasWorkers (rows_of (found_of matches.now)) result }
    ensures most { (1 ≤ result) × (result ≤ 64) }
{
    let workers = matches.get_one::<u32>("workers").unwrap_or(WORKERS);
    workers.clamp(1, MOST_WORKERS)
}

/// What a subcommand asks for.
fn request_of(name: &str, matches: &ArgMatches) -> Request
    ensures value { HasRequest name.now (rows_of (found_of matches.now)) result }
    ensures workers { AsksWorkers result }
{
    match name {
        "image" => Request::Image {
            workers: workers(matches),
            at: matches.get_one::<u32>("at"),
        },
        "events" => Request::Events,
        _ => Request::Run {
            workers: workers(matches),
        },
    }
}
