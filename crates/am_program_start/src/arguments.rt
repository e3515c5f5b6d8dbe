//! Arguments that the command lines of both programs take.

ghost use Rattle.std.specs.Prelude.{◌≡◌, false};
ghost use Rattle.clap.specs.Words.{rule_of};
ghost use Rattle.am_program_start.specs.Arguments.{flag_rule};

use clap::{Arg, ArgAction};
use std::alloc::Global;

/// `--NAME`.
pub fn flag<'a>(alloc: Global, name: &'a str, help: &'a str) -> Arg<'a>
    ensures { (rule_of result ≡ flag_rule name.now) × (result.global ≡ false) }
{
    Arg::new(alloc, name)
        .long(name)
        .help(help)
        .action(ArgAction::SetTrue)
}
