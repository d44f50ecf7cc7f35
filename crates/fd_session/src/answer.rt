//! What a session answers.
ghost use Rattle.std.specs.Prelude.{◌≡◌, ◌<◌, ◌≤◌, length, MatchResult};
ghost use Rattle.std.specs.Result.{result_unwrap_or};
ghost use Rattle.fd_frame.specs.State.{State, at_position};
ghost use Rattle.fd_session.specs.Machine.{Jumps, OnWant};
ghost use Rattle.fd_memory.specs.Wanting.{Wanted};

use std::alloc::AllocError;
use thiserror::Error;

/// Why the session refuses a call. What the program prints of each stands in `refusal.rt` of `fd_cli`.
#[derive(Clone, Copy, Debug, PartialEq, Eq, Error)]
pub enum SessionFault {
    #[error("at end")]
    AtEnd,
    #[error("at start")]
    AtStart,
    #[error("no such position")]
    NoSuchPosition,
    #[error("no such event")]
    NoSuchEvent,
    #[error("already so")]
    AlreadySo,
    #[error("no such pixel")]
    NoSuchPixel,
    #[error("memory")]
    Memory,
}

/// What a move gives.
#[derive(Clone, Copy, Debug, PartialEq, Eq)]
pub enum Answer {
    /// The session moved to this position.
    Moved { at: u32 },
    /// Memory was wanted, and the session stands at this position.
    Stopped { at: u32 },
    /// Nothing was done.
    Refused(SessionFault),
}

impl Answer {
    ghost use Rattle.fd_session.specs.declared.answer.Answer.TheVariants.{Moved, Stopped};

    /// Of a move to a position that came to this one.
    pub(crate) fn come(at: u32, to: u32) -> Answer
        ensures short { at < to → result ≡ Stopped at }
        ensures there { to ≤ at → result ≡ Moved at }
    {
        if at < to {
            return Answer::Stopped { at };
        }
        Answer::Moved { at }
    }

    /// Of a jump forward to a position that came to one, or was refused memory.
    pub(crate) fn of(run: Result<u32, AllocError>, to: u32) -> Answer
        ensures jumps { (old new : State) → old.position < to → to ≤ length old.table.events → old.position ≤ result_unwrap_or run old.position
            → result_unwrap_or run old.position ≤ to → new ≡ at_position old (result_unwrap_or run old.position) → Jumps old to result new }
        ensures wanted { MatchResult run (λ at. at < to → Wanted) (λ _. Wanted) → OnWant Wanted result }
    {
        match run {
            Ok(at) => Answer::come(at, to),
            Err(_) => Answer::Refused(SessionFault::Memory),
        }
    }
}
