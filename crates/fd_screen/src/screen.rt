//! Replies that may go to a terminal, and what somebody there is told beside them.
ghost use Rattle.std.specs.Prelude.{◌≡◌};
ghost use Rattle.fd_screen.specs.Within.{replies_of};

use fd_device::{Failed, Progress, Sink};
use std::io::Write;

/// What is said before the bytes of an image go to a terminal.
const SPILLS: &[u8] =
    b"framedbg: the bytes of an image go to this terminal; framedbg image CAPTURE > FILE writes them to a file\n";

/// How the reply to `show` begins, and no other.
const SHOWN: &[u8] = b"pam ";

/// How an image file begins.
const IMAGE: &[u8] = b"P7\n";

/// Goes back to the left border and empties the line, as terminals have it.
const ERASE_LINE: &[u8] = b"\r\x1b[K";

/// A sink of replies. Where they go to a terminal, each image is announced before its bytes; where errors do, they show how far a long
/// move has come, in one line that is taken away before the reply.
#[derive(Drop)]
pub struct Screen<S, E> {
    replies: S,
    errors: E,
    announces_images: bool,
    shows_moves: bool,
    reply_begins: bool,
    // whether the line of a move stands there
    moving: bool,
}

impl<S: Sink, E: Write> Screen<S, E> {
    /// Replies of which none has begun.
    pub fn new(replies: S, errors: E, announces_images: bool, shows_moves: bool) -> Self
        ensures { replies_of result ≡ replies }
    {
        Screen {
            replies,
            errors,
            announces_images,
            shows_moves,
            reply_begins: true,
            moving: false,
        }
    }
}

impl<S: Sink, E: Write> Progress for Screen<S, E> {
    ghost Kept = { S.Kept };

    ghost kept = { λ s. S.kept s.replies };

    fn on_the_way(&mut self, at: u32, to: u32) {
        if self.shows_moves {
            let _ = write!(self.errors, "\rframedbg: at {at} of {to}");
            self.moving = true;
        }
    }
}

impl<S: Sink, E: Write> Sink for Screen<S, E> {
    ghost contents = { λ s. S.contents s.replies };

    ghost is_flushed = { λ s. S.is_flushed s.replies };

    ghost failure_count = { λ s. S.failure_count s.replies };

    fn put(&mut self, bytes: &[u8]) -> Result<usize, Failed> {
        if self.moving {
            let _ = self.errors.write_all(ERASE_LINE);
            self.moving = false;
        }
        let is_image = bytes.starts_with(SHOWN) || bytes.starts_with(IMAGE);
        if self.announces_images && self.reply_begins && is_image {
            let _ = self.errors.write_all(SPILLS);
        }
        self.reply_begins = false;
        self.replies.put(bytes)
    }

    fn flush(&mut self) -> Result<(), Failed> {
        self.reply_begins = true;
        self.replies.flush()
    }

    fn failures(&self) -> u64 {
        self.replies.failures()
    }

    ghost only_told = { λ a b same. S.only_told a.replies b.replies same };
}
