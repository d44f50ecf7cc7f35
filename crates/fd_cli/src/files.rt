//! What the program gets from the machine: the words of its command line, and files.
ghost use Rattle.std.specs.Prelude.{IfErr, IfOk, Err, List, Ok, Result, ℕ};

use std::alloc::Global;
use thiserror::Error;

/// Why the words of the command line can't be had.
#[derive(Clone, Copy, Debug, PartialEq, Eq, Error)]
pub enum WordsFault {
    #[error("memory")]
    Memory,
    #[error("a word of the command line is not UTF-8")]
    NotText,
}

/// Why a file can't be read.
#[derive(Clone, Copy, Debug, PartialEq, Eq, Error)]
pub enum FileFault {
    #[error("memory")]
    Memory,
    #[error("cannot read capture")]
    Unreadable,
}

/// Where the files of captures are.
pub trait Files {
    ghost use Rattle.fd_cli.specs.declared.files.FileFault.{FileFault};

    /// What a path gave: the first bytes of its file, or why it can't be read. Only a read gives it.
    ghost gave: { Self → List ℕ → Result (List ℕ) FileFault → Type 0 } = { λ _ _ _. Unit {0} };

    /// The bytes of the file at a path, up to one more than a capture may have.
    fn read(&self, alloc: Global, path: &str) -> Result<Vec<u8>, FileFault>
        ensures ok { IfOk result (λ bytes. gave self.now path.now (Ok bytes.items)) }
        ensures err { IfErr result (λ fault. gave self.now path.now (Err fault)) };
}
