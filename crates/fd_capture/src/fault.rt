ghost use Rattle.std.specs.Prelude.{◌≡◌};

use fd_events::TableFault;
use fd_json::Stop;
use thiserror::Error;

/// Why a capture is refused. The faults are checked in this order, those of events event by event, and memory may run out at any time after the first check.
/// Events are numbered from 1. What the program prints of each fault stands in `ending.rt` of `fd_words`, and it prints none of the texts here.
#[derive(Clone, Copy, PartialEq, Eq, Debug, Error)]
pub enum CaptureFault {
    /// There are more than `MAX_CAPTURE_LEN` bytes.
    #[error("too long")]
    TooLong,
    /// The bytes are no JSON value.
    #[error("not json")]
    NotJson,
    /// The value is no object of this format with a list of events.
    #[error("not a capture")]
    NotCapture,
    /// The version is none of 1, 2 and 3.
    #[error("version")]
    Version,
    /// The width or the height isn't a whole number from 1 to `MAX_SIDE`.
    #[error("size")]
    Size,
    /// There are more than `MAX_EVENTS` events.
    #[error("too many events")]
    TooMany,
    /// The kind of this event is a text that names none.
    #[error("unknown event {number}")]
    UnknownEvent { number: u32 },
    /// A member of this event is missing, or isn't what its kind asks for.
    #[error("bad field {number}")]
    BadField { number: u32 },
    /// Memory ran out.
    #[error("memory")]
    Memory,
}

/// What is wrong with one event.
#[derive(Clone, Copy, PartialEq, Eq, Debug)]
pub(crate) enum EventFault {
    /// Its kind is a text that names none.
    UnknownEvent,
    /// A member is missing, or isn't what its kind asks for.
    BadField,
}

impl EventFault {
    ghost use Rattle.fd_capture.specs.Fault.{numbered};

    /// The fault of the event of this number.
    pub(crate) fn at(self, number: u32) -> CaptureFault
        ensures { result ≡ numbered number self }
    {
        match self {
            EventFault::UnknownEvent => CaptureFault::UnknownEvent { number },
            EventFault::BadField => CaptureFault::BadField { number },
        }
    }
}

impl From<Stop> for CaptureFault {
    ghost use Rattle.std.specs.Prelude.{◌≡◌};
    ghost use Rattle.fd_capture.specs.Fault.{of_stop};

    ghost from_gives = { λ stop fault. fault ≡ of_stop stop };

    fn from(stop: Stop) -> CaptureFault {
        match stop {
            Stop::NotJson => CaptureFault::NotJson,
            Stop::Memory => CaptureFault::Memory,
        }
    }
}

impl From<TableFault> for CaptureFault {
    ghost use Rattle.std.specs.Prelude.{◌≡◌};
    ghost use Rattle.fd_capture.specs.Fault.{of_table};

    ghost from_gives = { λ refused fault. fault ≡ of_table refused };

    fn from(refused: TableFault) -> CaptureFault {
        match refused {
            TableFault::Memory => CaptureFault::Memory,
            TableFault::Size => CaptureFault::Size,
            TableFault::TooMany => CaptureFault::TooMany,
        }
    }
}
