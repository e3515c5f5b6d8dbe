//! The words that a program was started with, and what clap read of them.

ghost use Rattle.std.specs.Prelude.{◌≡◌, option_map};
ghost use Rattle.clap.specs.Words.{first_of, found_of, rows_of};

use crate::fault::OptionsFault;
use clap::ArgMatches;
use std::env::Env;
use std::{env, io};

/// What `--version` prints after a program's name.
pub const VERSION: &str = "1.1.0";

/// The words of the command line, the program's name first.
///
/// # Errors
/// A word is not UTF-8, or memory was refused.
pub fn words<R: AllocGlobal + Env>(rt: &R) -> Result<Vec<String>, OptionsFault> {
    match env::args(rt) {
        Ok(args) => Ok(args.collect(rt.alloc())?),
        Err(error) if error.kind() == io::ErrorKind::OutOfMemory => Err(OptionsFault::NoMemory),
        Err(_) => Err(OptionsFault::NotText),
    }
}

/// The text that an option was given.
pub fn text_in<'a>(given: &ArgMatches<'a>, name: &str) -> Option<&'a str>
    ensures { option_map (λ text. text.now) result ≡ first_of name.now (rows_of (found_of given.now)) }
{
    given.get_str(name)
}
