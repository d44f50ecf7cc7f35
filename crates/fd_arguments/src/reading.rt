//! What the words of a command line ask for, as `clap` reads them, and the text of a fault.
ghost use Rattle.std.specs.Prelude.{◌≡◌, List, IfErr, IfOk, IsSomeAnd, OnErr, map};
ghost use Rattle.clap.specs.Words.{FailsBy, Text, fault_of, kind_of, subcommand_of};
ghost use Rattle.clap.specs.declared.error.kind.ErrorKind.TheVariants.{OutOfMemory};
ghost use Rattle.fd_arguments.specs.Wanting.{IsWantedFor};
ghost use Rattle.fd_arguments.specs.Words.{Asks, program};
ghost use Rattle.fd_words.specs.Request.{AsksWorkers};

use crate::arguments::{Arguments, arguments_of};
use crate::words::command;
use clap::Error;
use clap::error::ErrorKind;
use std::alloc::{AllocError, Global};
use std::convert::AsStr;

/// What is asked of `clap`. Whoever proves one of these calls may say that memory was wanted for the words, where it was refused; other crates can't name this
/// trait.
trait Reading {
    ghost why: { List Text → Type 0 };

    fn read<'a, S: AsStr>(alloc: Global, words: &'a [S]) -> Result<Arguments<'a>, Error>
        ensures asks { IfOk result (λ arguments. IsSomeAnd (subcommand_of program (map S.text words.now)) (λ met. Asks met arguments)) }
        ensures workers { IfOk result (λ arguments. AsksWorkers arguments.request) }
        ensures fails { FailsBy (fault_of program (map S.text words.now)) result }
        ensures wanted { IfErr result (λ error. kind_of error ≡ OutOfMemory → why (map S.text words.now)) }
    {
        let matches = command(alloc)?.try_get_matches_from(words)?;
        let (name, own) = matches.subcommand().unwrap();
        Ok(arguments_of(name, own))
    }

    fn explained<S: AsStr>(alloc: Global, error: &Error, words: &[S]) -> Result<String, AllocError>
        ensures wanted { OnErr result (why (map S.text words.now)) }
    {
        let word = words.get(1).map_or("", |word| word.as_str());
        if error.kind() == ErrorKind::InvalidSubcommand && word.ends_with(".json") {
            format!(in alloc; "{error}\n\ndid you mean: framedbg events {word}\n")
        } else {
            format!(in alloc; "{error}")
        }
    }

    ghost gives: { (words : List Text) → why words };
}

struct Clap;

impl Reading for Clap {
    ghost use Rattle.fd_arguments.specs.Refusing.{WordsWanted, words_wanted};

    ghost why = { WordsWanted };

    ghost gives = { words_wanted };
}

/// Reads the words of a command line, of which the first is the program's name. The error is the text of the help or the version that they ask for, a fault
/// of theirs, or a want of memory.
pub fn read_arguments<'a, S: AsStr>(alloc: Global, words: &'a [S]) -> Result<Arguments<'a>, Error>
    ensures asks { IfOk result (λ arguments. IsSomeAnd (subcommand_of program (map S.text words.now)) (λ met. Asks met arguments)) }
    ensures workers { IfOk result (λ arguments. AsksWorkers arguments.request) }
    ensures fails { FailsBy (fault_of program (map S.text words.now)) result }
    // Want of memory is answered only where clap was asked, and wanted it.
    ensures wanted { IfErr result (λ error. kind_of error ≡ OutOfMemory → IsWantedFor (map S.text words.now)) }
{
    Clap::read(alloc, words)
}

/// What is wrong with the words, or the help that they ask for. Where a capture's name stands in a subcommand's place, the words that list it are told too.
pub fn explained<S: AsStr>(alloc: Global, error: &Error, words: &[S]) -> Result<String, AllocError>
    ensures wanted { OnErr result (IsWantedFor (map S.text words.now)) }
{
    Clap::explained(alloc, error, words)
}
