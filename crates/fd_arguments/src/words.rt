//! The words of a command line: what they may be, and what the help says. The man page has the same texts.
ghost use Rattle.std.specs.Prelude.{◌≡◌, IfOk, codes, [], ◌∷◌};
ghost use Rattle.clap.specs.Words.{app_of};
ghost use Rattle.fd_arguments.specs.Made.{HasRule, HasShape};
ghost use Rattle.fd_arguments.specs.Words.{at_rule, capture_rule, program, subcommand, workers_rule};

use clap::{Arg, Command, value_parser};
use fd_crew::MOST_WORKERS;
use std::alloc::{AllocError, Global};

/// The version, and the program logic that it is proved with, as `rt version` says it behind the name of the kit.
const VERSION: &str = "0.5.0 (proved with logic dac8208d650f15bf)";

/// What stands behind the help of the program.
const STATUSES: &str =
    "Statuses: 0 done, 1 the words or no such position, 2 the capture is refused, 3 a read or write fault, 4 too much input, 5 memory.

Start here: framedbg events CAPTURE, and then framedbg run --help.";

/// What stands behind the help of `run`.
const SESSION: &str = "Commands, one a line on standard input:
  step           goes through the next event
  back           takes the last event back
  goto K         goes to position K: the first K events have been gone through
  on I, off I    switches event I on or off, and draws anew from there
  pixel X Y      the pixel's colour, and its depth where the capture has depths
  history X Y    what each event and triangle did to the pixel
  state          the pipeline state before the next event
  events         the events, and which of them are on
  show           the image: a line with its number of bytes, and then so many bytes of PAM
  quit           ends the run

Each command is answered before more input is asked for: 'at K' where it moved, 'refused N WHY' where it changed nothing, \
'stopped K' where memory was wanted on the way to a later position, 'bad N WHY' where the line is no command.

Example: which triangles painted a pixel?
  $ printf 'goto 13\\nhistory 50 50\\nquit\\n' | framedbg run examples/house.json
  at 13
  history 4
  2 - drawn 0 0 0 255 0 0 0 0 0 0 0 255
  3 1 drawn 174 205 236 255 0 0 0 255 174 205 236 255
  6 1 drawn 60 130 60 255 174 205 236 255 60 130 60 255
  11 0 drawn 190 60 50 128 60 130 60 255 125 95 55 128
  bye

Statuses: 0 done, 1 the words, 2 the capture is refused, 3 a read or write fault, 4 too much input, 5 memory.";

/// What the words of a command line may be.
pub(crate) fn command<'a>(alloc: Global) -> Result<Command<'a>, AllocError>
    ensures { IfOk result (λ command. app_of command ≡ program) }
{
    Command::new(alloc, "framedbg")
        .about("A reverse-stepping frame debugger")
        .version(VERSION)
        .after_help(STATUSES)
        .subcommand_required(true)
        .subcommand(run_command(alloc)?)?
        .subcommand(image_command(alloc)?)?
        .subcommand(events_command(alloc)?)
}

/// The words of a session.
fn run_command<'a>(alloc: Global) -> Result<Command<'a>, AllocError>
    ensures { IfOk result (λ command. HasShape command (subcommand (codes "run") (workers_rule ∷ capture_rule ∷ []))) }
{
    Command::new(alloc, "run")
        .about(
            "Replays a capture: takes commands from standard input, writes replies to standard output",
        )
        .after_help(SESSION)
        .arg(workers_argument(alloc))?
        .arg(capture_argument(alloc))
}

/// The words for one image.
fn image_command<'a>(alloc: Global) -> Result<Command<'a>, AllocError>
    ensures { IfOk result (λ command. HasShape command (subcommand (codes "image") (workers_rule ∷ at_rule ∷ capture_rule ∷ []))) }
{
    Command::new(alloc, "image")
        .about("Writes the image at a position as PAM to standard output")
        .arg(workers_argument(alloc))?
        .arg(at_argument(alloc))?
        .arg(capture_argument(alloc))
}

/// The words for the list of events.
fn events_command<'a>(alloc: Global) -> Result<Command<'a>, AllocError>
    ensures { IfOk result (λ command. HasShape command (subcommand (codes "events") (capture_rule ∷ []))) }
{
    Command::new(alloc, "events")
        .about("Lists the events of a capture")
        .arg(capture_argument(alloc))
}

/// The capture's path.
fn capture_argument<'a>(alloc: Global) -> Arg<'a>
    ensures { HasRule result capture_rule }
{
    Arg::new(alloc, "CAPTURE")
        .required(true)
        .help("The capture, a JSON file")
}

/// The position of an image.
fn at_argument<'a>(alloc: Global) -> Arg<'a>
    ensures { HasRule result at_rule }
{
    Arg::new(alloc, "at")
        .long("at")
        .value_name("K")
        .help("The position, from 0 to the number of events [default: the last]")
        .value_parser(value_parser!(u32))
}

/// The number of threads that draw.
fn workers_argument<'a>(alloc: Global) -> Arg<'a>
    ensures { HasRule result workers_rule }
{
    Arg::new(alloc, "workers")
        .long("workers")
        .value_name("N")
        .help("The number of threads that draw, from 1 to 64 [default: 4]")
        .value_parser(value_parser!(u32).range(1..=MOST_WORKERS as i64))
}
