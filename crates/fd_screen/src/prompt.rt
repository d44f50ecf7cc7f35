//! Commands that may come from a terminal, and what somebody who types them is told.
ghost use Rattle.std.specs.Prelude.{◌≡◌};
ghost use Rattle.fd_screen.specs.Within.{commands_of};

use fd_device::{Failed, Source};
use std::io::Write;

/// What is said to somebody who types, before the first command is read.
const WAITING: &[u8] =
    b"framedbg: waiting for commands, as events, goto 3, pixel 0 0, quit; framedbg run --help has them all\n";

/// A source of commands. Where somebody types them, it is said that they are waited for.
#[derive(Drop)]
pub struct Prompt<R, E> {
    commands: R,
    errors: E,
    // whether it is still to be said
    waits: bool,
}

impl<R: Source, E: Write> Prompt<R, E> {
    /// Commands of which none was read. What is to be said goes to `errors`, at the first read.
    pub fn new(commands: R, errors: E, is_typed: bool) -> Self
        ensures { commands_of result ≡ commands }
    {
        Prompt {
            commands,
            errors,
            waits: is_typed,
        }
    }
}

impl<R: Source, E: Write> Source for Prompt<R, E> {
    ghost remaining = { λ p. R.remaining p.commands };

    ghost has_ended = { λ p. R.has_ended p.commands };

    ghost failure_count = { λ p. R.failure_count p.commands };

    fn fill(&mut self, buffer: &mut [u8]) -> Result<usize, Failed> {
        if self.waits {
            let _ = self.errors.write_all(WAITING);
            self.waits = false;
        }
        self.commands.fill(buffer)
    }

    fn ended(&self) -> bool {
        self.commands.ended()
    }

    fn failures(&self) -> u64 {
        self.commands.failures()
    }
}
