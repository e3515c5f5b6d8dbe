//! The command line of `amaudit`.

ghost use Rattle.std.specs.Prelude.{◌≡◌, IfErr, IfOk, map};
ghost use Rattle.clap.specs.Words.{app_of, found_of, rows_of};
ghost use Rattle.am_program_start.specs.AuditCommand.{AsksToAudit, NamesAudited, amaudit_app};
ghost use Rattle.am_program_start.specs.Faults.{Refuses};

use crate::arguments::flag;
use crate::choice::Audited;
use crate::fault::{OptionsFault, fault_of};
use crate::program_words::{VERSION, text_in};
use clap::{Arg, ArgMatches, Command};
use std::alloc::{AllocError, Global};
use std::convert::AsStr;

/// What help says that the program does.
const ABOUT: &str =
    "Judges a stored trace: whether it is formed, right in its refusals, and serial in order of commit";

/// What the words ask for; the first word is the program's name.
///
/// # Errors
/// Help or the version was asked for, clap finds another fault in the words, or memory was refused.
pub fn audited<'a, S: AsStr>(alloc: Global, words: &'a [S]) -> Result<Audited<'a>, OptionsFault>
    ensures accepted { IfOk result (NamesAudited (map S.text words.entry.now)) }
    ensures refused { IfErr result (Refuses amaudit_app NamesAudited (map S.text words.entry.now)) }
{
    match amaudit(alloc)?.try_get_matches_from(words) {
        Ok(matches) => Ok(audited_in(&matches)),
        Err(error) => Err(fault_of(alloc, &error)),
    }
}

/// What `amaudit` was given.
fn audited_in<'a>(given: &ArgMatches<'a>) -> Audited<'a>
    ensures { AsksToAudit (rows_of (found_of given.now)) result }
{
    Audited {
        file: text_in(given, "file"),
        tells_records: text_in(given, "records") == Some("true"),
        is_open: text_in(given, "open") == Some("true"),
    }
}

/// `amaudit [--records] [--open] [FILE]`.
fn amaudit<'a>(alloc: Global) -> Result<Command<'a>, AllocError>
    ensures { IfOk result (λ command. app_of command ≡ amaudit_app) }
{
    let file = Arg::new(alloc, "file").value_name("FILE").help(
        "The stored trace; standard input where none or - is named",
    );
    Command::new(alloc, "amaudit")
        .about(ABOUT)
        .version(VERSION)
        .arg(file)?
        .arg(flag(
            alloc,
            "records",
            "Where the trace is legal, write the records that it leaves, as amload reads them",
        ))?
        .arg(flag(
            alloc,
            "open",
            "The run isn't ended: leave out what stands behind the last line's end",
        ))
}
