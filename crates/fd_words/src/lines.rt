//! Lines of one word and a number, and lines that are always the same.
ghost use Rattle.std.specs.Prelude.{◌≡◌, ◌≤◌, length};
ghost use Rattle.fd_words.specs.Text.{number_line, fault_line};

use crate::command::CommandFault;
use arrayvec::ArrayVec;
use itoa::Buffer;

/// A word and a number, on a line.
pub fn number_line(word: &[u8], number: u64) -> ArrayVec<u8, 64>
    requires { length word.now ≤ 20 }
    ensures { result.items ≡ number_line word.now number }
{
    let mut digits = Buffer::new();
    let mut line = ArrayVec::new();
    line.try_extend_from_slice(word).unwrap();
    line.try_extend_from_slice(b" ").unwrap();
    line.try_extend_from_slice(digits.format(number).as_bytes())
        .unwrap();
    line.try_extend_from_slice(b"\n").unwrap();
    line
}

/// The line of a line that is no command.
pub fn fault_line(fault: CommandFault) -> &'static [u8]
    ensures line { result.now ≡ fault_line fault }
    ensures short { length result.now ≤ 64 }
{
    match fault {
        CommandFault::Unknown => b"bad 1 unknown command\n",
        CommandFault::Arguments => b"bad 2 arguments\n",
        CommandFault::TooLong => b"bad 3 line too long\n",
    }
}
