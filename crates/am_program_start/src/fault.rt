//! Why a command line asks for nothing that a program does.

ghost use Rattle.std.specs.Prelude.{◌≡◌};
ghost use Rattle.clap.specs.Words.{kind_of};
ghost use Rattle.am_program_start.specs.Faults.{IsFaultOf, status_of};

use clap::Error;
use clap::error::ErrorKind;
use std::alloc::{AllocError, Global};
use std::process::ExitCode;
use std::{fmt, io};

/// Why there are no options.
#[derive(Drop)]
pub enum OptionsFault {
    /// Help or the version was asked for, which is this text.
    Asked(String),
    /// The words are wrong, of which this is said.
    Wrong(String),
    /// The words are well formed, and the program doesn't serve what they name.
    Unserved(&'static str),
    /// A word is not UTF-8.
    NotText,
    /// The stack is limited to less than a program needs.
    NoStack,
    /// Memory was refused.
    NoMemory,
}

impl OptionsFault {
    /// The program's status: 0 where help or the version was asked for, 5 where memory was refused or the stack is too
    /// small, else 2.
    pub fn status(&self) -> u8
        ensures { result ≡ status_of self.now }
    {
        match self {
            OptionsFault::Asked(_) => 0,
            OptionsFault::Wrong(_) | OptionsFault::Unserved(_) | OptionsFault::NotText => 2,
            OptionsFault::NoStack | OptionsFault::NoMemory => 5,
        }
    }

    /// Prints what the program of that name says of it, and a line's end: help and the version on standard output, all
    /// else on standard error. Answers the program's status.
    ///
    /// # Errors
    /// That of the stream, where it can't be written.
    pub fn tell<R: Print + Eprint>(&self, rt: &R, program: &str) -> io::Result<ExitCode> {
        let message = Message {
            program,
            fault: self,
        };
        match self {
            OptionsFault::Asked(_) => println!(rt; "{message}")?,
            _ => eprintln!(rt; "{message}")?,
        }
        Ok(ExitCode::from(self.status()))
    }
}

/// What a program says of the words that it was started with: clap's text without the line's end, or the program's name
/// and what is wrong.
#[derive(Drop)]
struct Message<'a> {
    program: &'a str,
    fault: &'a OptionsFault,
}

impl fmt::Display for Message<'_> {
    ghost use Rattle.std.specs.Prelude.{Some};
    ghost use Rattle.am_program_start.specs.Faults.{message_of};

    ghost output = { λ message. Some (message_of message.program.now message.fault.now) };

    fn fmt<W: fmt::Write>(&self, f: &mut fmt::Formatter<W>) -> fmt::Result {
        let program = self.program;
        match self.fault {
            OptionsFault::Asked(text) | OptionsFault::Wrong(text) => f.write_str(text.trim_end()),
            OptionsFault::Unserved(why) => write!(f, "{program}: {why}"),
            OptionsFault::NotText => write!(f, "{program}: a word is not UTF-8"),
            OptionsFault::NoStack => write!(
                f,
                "{program}: the stack is limited to less than 512 KB (ulimit -s)"
            ),
            OptionsFault::NoMemory => write!(f, "{program}: no memory"),
        }
    }
}

impl From<AllocError> for OptionsFault {
    ghost use Rattle.std.specs.Prelude.{◌≡◌};
    ghost use Rattle.am_program_start.specs.declared.fault.OptionsFault.TheVariants.{NoMemory};

    ghost from_gives = { λ _ fault. fault ≡ NoMemory };

    fn from(_: AllocError) -> OptionsFault {
        OptionsFault::NoMemory
    }
}

/// What clap says of the words.
pub fn fault_of(alloc: Global, error: &Error) -> OptionsFault
    ensures { IsFaultOf (kind_of error.now) result }
{
    let kind = error.kind();
    if kind == ErrorKind::OutOfMemory {
        return OptionsFault::NoMemory;
    }
    match (error.to_string(alloc), kind) {
        (Err(_), _) => OptionsFault::NoMemory,
        (Ok(text), ErrorKind::DisplayHelp | ErrorKind::DisplayVersion) => OptionsFault::Asked(text),
        (Ok(text), _) => OptionsFault::Wrong(text),
    }
}
