//! What is asked of the program.

/// What the words of a command line ask for. The number of workers is from 1 to 64.
#[derive(Clone, Copy, Debug, PartialEq, Eq)]
pub enum Request {
    /// Answers the commands of the input.
    Run { workers: u32 },
    /// Writes the image at a position, or at the last one.
    Image { workers: u32, at: Option<u32> },
    /// Writes the list of events.
    Events,
}
