ghost use Rattle.std.specs.Prelude.{◌≡◌};

use thiserror::Error;

/// A command of the debugger.
#[derive(Clone, Copy, Debug, PartialEq, Eq)]
pub enum Command {
    Step,
    Back,
    Goto(u32),
    On(u32),
    Off(u32),
    Pixel(u32, u32),
    History(u32, u32),
    State,
    Events,
    Show,
    Quit,
}

/// Why a line is no command.
#[derive(Clone, Copy, Debug, PartialEq, Eq, Error)]
pub enum CommandFault {
    #[error("unknown command")]
    Unknown,
    #[error("arguments")]
    Arguments,
    #[error("line too long")]
    TooLong,
}

ghost use Rattle.fd_words.specs.Line.{command_of};

/// The command of a line, which is given without its line feed.
pub fn read_command(line: &[u8]) -> Result<Command, CommandFault>
    ensures { result ≡ command_of line.now }
{
    let text = without_return(line);
    if text.len() > 256 {
        return Err(CommandFault::TooLong);
    }
    let Some((word, rest)) = next_word(text) else {
        return Err(CommandFault::Unknown);
    };
    named(word, rest)
}

ghost use Rattle.fd_words.specs.Line.{without_return};

/// The line without a carriage return at its end.
fn without_return(line: &[u8]) -> &[u8]
    ensures { result.now ≡ without_return line.now }
{
    match line {
        [text @ .., b'\r'] => text,
        _ => line,
    }
}

ghost use Rattle.std.specs.Prelude.{◌∷◌, [], ◌==◌, MatchOption, not, position};
ghost use Rattle.fd_words.specs.Line.{words};

/// The first word, and what stands behind it.
fn next_word(text: &[u8]) -> Option<(&[u8], &[u8])>
    ensures { MatchOption result (words text.now ≡ []) (λ r. words text.now ≡ r.0.now ∷ words r.1.now) }
{
    let Some(start) = word_start(text) else {
        return None;
    };
    let rest = &text[start..];
    match first_space(rest) {
        Some(end) => Some(rest.split_at(end)),
        None => Some(rest.split_at(rest.len())),
    }
}

/// Where the first word begins.
fn word_start(text: &[u8]) -> Option<usize>
    ensures { result ≡ position (λ byte. not (byte == 32)) text.now }
{
    text.iter().position(|byte| *byte != b' ')
}

/// Where the first space is.
fn first_space(text: &[u8]) -> Option<usize>
    ensures { result ≡ position (λ byte. byte == 32) text.now }
{
    text.iter().position(|byte| *byte == b' ')
}

ghost use Rattle.fd_words.specs.Line.{no_argument, one_number, two_numbers};

/// Nothing, where no word is left.
fn no_argument(text: &[u8]) -> Option<()>
    ensures { result ≡ no_argument (words text.now) }
{
    match next_word(text) {
        None => Some(()),
        Some(_) => None,
    }
}

/// The number, where one word is left.
fn one_number(text: &[u8]) -> Option<u32>
    ensures { result ≡ one_number (words text.now) }
{
    let (word, rest) = next_word(text)?;
    no_argument(rest)?;
    number(word)
}

/// The numbers, where two words are left.
fn two_numbers(text: &[u8]) -> Option<(u32, u32)>
    ensures { result ≡ two_numbers (words text.now) }
{
    let (word, rest) = next_word(text)?;
    let (second, rest) = next_word(rest)?;
    no_argument(rest)?;
    Some((number(word)?, number(second)?))
}

ghost use Rattle.std.specs.Prelude.{◌≤◌, ◌<◌, ◌^◌, length, true};
ghost use Rattle.std.specs.List.{list_all};
ghost use Rattle.std.specs.Char.{is_ascii_digit};
ghost use Rattle.std.specs.Str.Parse.{digits_value};
ghost use Rattle.fd_words.specs.Line.{number_of};

/// The number that a word writes, of one to ten digits.
fn number(word: &[u8]) -> Option<u32>
    ensures { result ≡ number_of word.now }
{
    if word.is_empty() || word.len() > 10 || !all_digits(word) {
        return None;
    }
    u32::try_from(value(word)).ok()
}

/// Each byte is a digit.
fn all_digits(word: &[u8]) -> bool
    ensures { result ≡ list_all is_ascii_digit word.now }
{
    word.iter().all(|byte| byte.is_ascii_digit())
}

/// The number that these digits write.
fn value(digits: &[u8]) -> u64
    requires few { length digits.now ≤ 10 }
    requires digits { list_all is_ascii_digit digits.now ≡ true }
    ensures { result ≡ digits_value 10 digits.now }
{
    let mut value = 0u64;
    for digit in digits {
        value = value * 10 + u64::from(*digit - b'0');
    }
    value
}

ghost use Rattle.fd_words.specs.Line.{command_named};

/// The command that a word and its arguments give.
fn named(word: &[u8], arguments: &[u8]) -> Result<Command, CommandFault>
    ensures { result ≡ command_named word.now (words arguments.now) }
{
    if word == b"step".as_slice() {
        given(no_argument(arguments).map(|()| Command::Step))
    } else if word == b"back".as_slice() {
        given(no_argument(arguments).map(|()| Command::Back))
    } else if word == b"goto".as_slice() {
        given(one_number(arguments).map(Command::Goto))
    } else if word == b"on".as_slice() {
        given(one_number(arguments).map(Command::On))
    } else if word == b"off".as_slice() {
        given(one_number(arguments).map(Command::Off))
    } else if word == b"pixel".as_slice() {
        given(two_numbers(arguments).map(|(x, y)| Command::Pixel(x, y)))
    } else if word == b"history".as_slice() {
        given(two_numbers(arguments).map(|(x, y)| Command::History(x, y)))
    } else if word == b"state".as_slice() {
        given(no_argument(arguments).map(|()| Command::State))
    } else if word == b"events".as_slice() {
        given(no_argument(arguments).map(|()| Command::Events))
    } else if word == b"show".as_slice() {
        given(no_argument(arguments).map(|()| Command::Show))
    } else if word == b"quit".as_slice() {
        given(no_argument(arguments).map(|()| Command::Quit))
    } else {
        Err(CommandFault::Unknown)
    }
}

ghost use Rattle.std.specs.Prelude.{ok_or};

/// The command, where its arguments were there.
fn given(command: Option<Command>) -> Result<Command, CommandFault>
    ensures { result ≡ ok_or command CommandFault.Arguments }
{
    command.ok_or(CommandFault::Arguments)
}
