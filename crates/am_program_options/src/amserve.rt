//! The command line of `amserve`.

ghost use Rattle.std.specs.Prelude.{◌≡◌, ◌≢◌, ◌↔◌, ℕ, [], Option, Some, IfErr, IfOk, IsSomeAnd, IsTrue, MatchOption};
ghost use Rattle.std.specs.Prelude.{codes, false, map, option_map};
ghost use Rattle.clap.specs.Words.{app_of, first_of, found_of, rows_of, rule_of, subcommand_rows_of};
ghost use Rattle.am_program_start.specs.Arguments.{IsCommand};
ghost use Rattle.am_program_start.specs.Faults.{Refuses};
ghost use Rattle.am_program_options.specs.Options.{Names, NamesListening, NamesPlace, Selects, Sets, SetsIfGiven};
ghost use Rattle.am_program_options.specs.Options.{SetsIdleSeat, SetsLapse, SetsRuns};
ghost use Rattle.am_program_options.specs.Options.{alone_app, amserve_app, common_app, listen_app, number_rule};
ghost use Rattle.am_program_options.specs.Options.{option_rule};

use crate::choice::{Listening, Options, Place};
use am_program_start::{OptionsFault, VERSION, fault_of, flag, text_in};
use clap::{Arg, ArgMatches, Command, value_parser};
use std::alloc::{AllocError, Global};
use std::convert::AsStr;

/// A number that an option takes: from `least` to `most`. Without a default it must be given.
#[derive(Clone, Copy)]
struct Setting {
    least: u16,
    most: u16,
    default: Option<u16>,
}

/// How many entries are merged after each answer.
const AUTO: Setting = Setting {
    least: 0,
    most: 64,
    default: Some(16),
};

/// The port to listen at, where it is given; 0 for any that is free. The default only says that it needn't be.
const PORT: Setting = Setting {
    least: 0,
    most: 65535,
    default: Some(0),
};

/// How many sessions are served.
const SESSIONS: Setting = Setting {
    least: 1,
    most: 256,
    default: Some(1),
};

/// How many sessions a server serves at once that stays.
const STAYING_SESSIONS: Setting = Setting {
    least: 1,
    most: 256,
    default: Some(64),
};

/// How many seconds sessions may go on after a stop, where that is given. The default only says that it needn't be.
const GRACE: Setting = Setting {
    least: 0,
    most: 3600,
    default: Some(0),
};

/// After how many seconds an idle session ends, where it does.
const IDLE: Setting = Setting {
    least: 1,
    most: 43_200,
    default: Some(1),
};

/// After how many seconds without a line a transaction lapses; 0 for none. Of a bounded server none does.
const LAPSE: Setting = Setting {
    least: 0,
    most: 0,
    default: Some(0),
};

/// The same of a server that stays.
const STAYING_LAPSE: Setting = Setting {
    least: 0,
    most: 43_200,
    default: Some(60),
};

/// After how many seconds without a line a session without a transaction makes way for another; 0 for never. In a
/// bounded server none does.
const IDLE_SEAT: Setting = Setting {
    least: 0,
    most: 0,
    default: Some(0),
};

/// The same of a server that stays.
const STAYING_IDLE_SEAT: Setting = Setting {
    least: 0,
    most: 43_200,
    default: Some(60),
};

/// Above how many runs workers merge what nobody asked for; 0 for never. In a bounded server they never do.
const RUNS: Setting = Setting {
    least: 0,
    most: 0,
    default: Some(0),
};

/// The same of a server that stays.
const STAYING_RUNS: Setting = Setting {
    least: 0,
    most: 65535,
    default: Some(64),
};

/// For how many milliseconds at most a session may hold.
const HOLD: Setting = Setting {
    least: 0,
    most: 60_000,
    default: Some(60_000),
};

/// How many workers merge.
const WORKERS: Setting = Setting {
    least: 0,
    most: 16,
    default: Some(1),
};

/// What the words ask for; the first word is the program's name.
///
/// # Errors
/// Help or the version was asked for, clap finds another fault in the words, they name no options, or memory was
/// refused.
pub fn options<'a, S: AsStr>(alloc: Global, words: &'a [S]) -> Result<Options<'a>, OptionsFault>
    ensures accepted { IfOk result (Names (map S.text words.entry.now)) }
    ensures refused { IfErr result (Refuses amserve_app Names (map S.text words.entry.now)) }
{
    match amserve(alloc)?.try_get_matches_from(words) {
        Ok(matches) => match selected(&matches) {
            Some(options) => Ok(options),
            None => Err(OptionsFault::Unserved(expected(&matches))),
        },
        Err(error) => Err(fault_of(alloc, &error)),
    }
}

/// What is expected of words that name no options.
fn expected(matches: &ArgMatches<'_>) -> &'static str {
    match matches.subcommand() {
        Some(("listen", given))
            if text_in(given, "port")
                .or(text_in(given, "socket"))
                .is_none() => { "listen wants --port P, --socket PATH or both" }
        _ => {
            "expected alone or listen, files that have names, and --stay beside --grace, --idle, --idle-transaction, --idle-seat, --runs and --log"
        }
    }
}

/// `amserve`, which wants a subcommand.
fn amserve<'a>(alloc: Global) -> Result<Command<'a>, AllocError>
    ensures { IfOk result (λ command. app_of command ≡ amserve_app) }
{
    Command::new(alloc, "amserve")
        .about("A transactional keyed store that answers lines")
        .version(VERSION)
        .subcommand_required(true)
        .subcommand(alone(alloc)?)?
        .subcommand(listen(alloc)?)
}

/// `alone [--auto N]`.
fn alone<'a>(alloc: Global) -> Result<Command<'a>, AllocError>
    ensures { IfOk result (λ command. IsCommand alone_app command) }
{
    Command::new(alloc, "alone")
        .about("Serves one session over standard input and output, on a store of its own")
        .arg(number(
            alloc,
            "auto",
            "N",
            "How many entries are merged after each answer, 0 to 64 [default: 16]",
            AUTO,
        ))
}

/// `listen`, with what each server takes, `[--stop] [--hold MS]` too, and what goes with one that stays:
/// `[--stay] [--grace S] [--idle S] [--idle-transaction S] [--idle-seat S] [--runs N] [--log]`. It has a frame of its
/// own, so that none is large.
#[inline(never)]
fn listen<'a>(alloc: Global) -> Result<Command<'a>, AllocError>
    ensures { IfOk result (λ command. IsCommand listen_app command) }
{
    listen_common(alloc)?
        .arg(flag(
            alloc,
            "stop",
            "Serve until a line STOP, or the end, comes on standard input",
        ))?
        .arg(number(
            alloc,
            "hold",
            "MS",
            "For how many milliseconds at most a session may HOLD, 0 to 60000 [default: 60000]",
            HOLD,
        ))?
        .arg(flag(
            alloc,
            "stay",
            "Take connections until the stop, any number in all; the trace is written meanwhile",
        ))?
        .arg(number(
            alloc,
            "grace",
            "S",
            "With --stay: cut the sessions that haven't ended S seconds after the stop, 0 to 3600",
            GRACE,
        ))?
        .arg(number(
            alloc,
            "idle",
            "S",
            "With --stay: end a session from which nothing came for S seconds, 1 to 43200",
            IDLE,
        ))?
        .arg(number(
            alloc,
            "idle-transaction",
            "S",
            "With --stay: abort a transaction where no line came for S seconds, 0 to 43200; 0 for none [default: 60]",
            STAYING_LAPSE,
        ))?
        .arg(number(
            alloc,
            "idle-seat",
            "S",
            "With --stay: where all sessions are taken, end for a newcomer the one that was idle longest, without a transaction, for more than S seconds, 0 to 43200; 0 for never [default: 60]",
            STAYING_IDLE_SEAT,
        ))?
        .arg(number(
            alloc,
            "runs",
            "N",
            "With --stay: workers merge in idle time what nobody asked for, where more than N runs have entries, 0 to 65535; 0 for never [default: 64]",
            STAYING_RUNS,
        ))?
        .arg(flag(
            alloc,
            "log",
            "With --stay: tell on standard error each minute, and at the end, how the server does",
        ))
}

/// `listen [--port P] [--socket PATH] [--sessions N] [--workers W] [--trace FILE]`, in a frame of its own too.
#[inline(never)]
fn listen_common<'a>(alloc: Global) -> Result<Command<'a>, AllocError>
    ensures { IfOk result (λ command. IsCommand common_app command) }
{
    Command::new(alloc, "listen")
        .about("Serves sessions at a port or a socket of the file system, or at both, on one store")
        .arg(number(
            alloc,
            "port",
            "P",
            "The port to listen at, 0 to 65535; 0 for any that is free",
            PORT,
        ))?
        .arg(option(
            alloc,
            "socket",
            "PATH",
            "The socket of the file system to listen at, which its owner alone may open",
        ))?
        .arg(number(
            alloc,
            "sessions",
            "N",
            "How many sessions are served, 1 to 256, at a port and at a socket as many; with --stay at once [default: 1; with --stay 64]",
            SESSIONS,
        ))?
        .arg(number(
            alloc,
            "workers",
            "W",
            "How many workers merge, 0 to 16 [default: 1]",
            WORKERS,
        ))?
        .arg(option(
            alloc,
            "trace",
            "FILE",
            "The file that gets the trace; none by default",
        ))
}

/// `--NAME VALUE`.
fn option<'a>(alloc: Global, name: &'a str, value: &'a str, help: &'a str) -> Arg<'a>
    ensures { (rule_of result ≡ option_rule name.now) × (result.global ≡ false) }
{
    Arg::new(alloc, name)
        .long(name)
        .value_name(value)
        .help(help)
}

/// `--NAME VALUE`, where the value is a number. It is wanted where the number has no default.
fn number<'a>(
    alloc: Global,
    name: &'a str,
    value: &'a str,
    help: &'a str,
    setting: Setting,
) -> Arg<'a>
    ensures { (rule_of result ≡ number_rule (option_rule name.now) setting) × (result.global ≡ false) }
{
    let bounds = i64::from(setting.least)..=i64::from(setting.most);
    option(alloc, name, value, help)
        .value_parser(value_parser!(u64).range(bounds))
        .required(setting.default.is_none())
}

/// The options that the subcommand names.
fn selected<'a>(matches: &ArgMatches<'a>) -> Option<Options<'a>>
    ensures { MatchOption result
        ((options : Options) → IsSomeAnd (subcommand_rows_of matches.now) (λ entered. Selects entered options) → ⊥)
        (λ options. IsSomeAnd (subcommand_rows_of matches.now) (λ entered. Selects entered options)) }
{
    let (name, given) = matches.subcommand()?;
    options_of(name, given)
}

/// The options that a subcommand names by what it was given.
fn options_of<'a>(name: &str, given: &ArgMatches<'a>) -> Option<Options<'a>>
    ensures { MatchOption result
        ((options : Options) → Selects (name.now, rows_of (found_of given.now)) options → ⊥)
        (Selects (name.now, rows_of (found_of given.now))) }
{
    match name {
        "alone" => Some(Options::Alone {
            auto: u64::from(number_in(given, "auto", AUTO)?),
        }),
        "listen" => Some(Options::Listen(listening_in(given)?)),
        _ => None,
    }
}

/// What `listen` was given, or has by default.
fn listening_in<'a>(given: &ArgMatches<'a>) -> Option<Listening<'a>>
    ensures { MatchOption result
        ((listening : Listening) → NamesListening (rows_of (found_of given.now)) listening → ⊥)
        (NamesListening (rows_of (found_of given.now))) }
{
    let stays = is_given(given, "stay");
    let sessions = if stays { STAYING_SESSIONS } else { SESSIONS };
    let silence = silence_in(given, stays)?;
    let runs = if stays { STAYING_RUNS } else { RUNS };
    let listening = Listening {
        place: place_in(text_in(given, "port"), text_in(given, "socket"))?,
        sessions: u64::from(number_in(given, "sessions", sessions)?),
        workers: u64::from(number_in(given, "workers", WORKERS)?),
        hold: u64::from(number_in(given, "hold", HOLD)?),
        trace: file_in(text_in(given, "trace"))?,
        awaits_stop: is_given(given, "stop"),
        stays,
        grace: seconds_in(text_in(given, "grace"), GRACE)?,
        idle: seconds_in(text_in(given, "idle"), IDLE)?,
        lapse: silence.lapse,
        idle_seat: silence.idle_seat,
        runs: u64::from(number_in(given, "runs", runs)?),
        is_logged: is_given(given, "log"),
    };
    let is_limited = listening.grace.is_some() || listening.idle.is_some();
    if !stays && (is_limited || listening.is_logged) {
        return None;
    }
    Some(listening)
}

/// After how many seconds without a line a transaction lapses, and a session makes way for another; 0 for never.
#[derive(Clone, Copy)]
struct Silence {
    lapse: u64,
    idle_seat: u64,
}

/// What `listen` was given of that, or has by default, by whether the server stays.
fn silence_in(given: &ArgMatches<'_>, stays: bool) -> Option<Silence>
    ensures { MatchOption result
        ((lapse idle_seat : ℕ) → SetsLapse (rows_of (found_of given.now)) stays lapse →
        SetsIdleSeat (rows_of (found_of given.now)) stays idle_seat → ⊥)
        (λ silence. SetsLapse (rows_of (found_of given.now)) stays silence.lapse ×
        SetsIdleSeat (rows_of (found_of given.now)) stays silence.idle_seat) }
{
    let lapse = if stays { STAYING_LAPSE } else { LAPSE };
    let idle_seat = if stays { STAYING_IDLE_SEAT } else { IDLE_SEAT };
    Some(Silence {
        lapse: u64::from(number_in(given, "idle-transaction", lapse)?),
        idle_seat: u64::from(number_in(given, "idle-seat", idle_seat)?),
    })
}

/// Where the texts of `--port` and `--socket` have a server listen. None where neither is given, the port isn't within
/// its bounds, or the name is empty.
fn place_in<'a>(port: Option<&str>, socket: Option<&'a str>) -> Option<Place<'a>>
    ensures { MatchOption result
        ((place : Place) → NamesPlace (option_map (λ text. text.now) port.entry)
        (option_map (λ text. text.now) socket.entry) place → ⊥)
        (NamesPlace (option_map (λ text. text.now) port.entry) (option_map (λ text. text.now) socket.entry)) }
{
    let port = number_if_given(port, PORT)?;
    let socket = file_in(socket)?;
    match (port, socket) {
        (Some(port), Some(socket)) => Some(Place::Both { port, socket }),
        (Some(port), None) => Some(Place::Port(port)),
        (None, Some(socket)) => Some(Place::Socket(socket)),
        (None, None) => None,
    }
}

/// Whether a flag was given.
fn is_given(given: &ArgMatches<'_>, name: &str) -> bool
    ensures { IsTrue result ↔ (first_of name.now (rows_of (found_of given.now)) ≡ Some (codes "true")) }
{
    text_in(given, name) == Some("true")
}

/// The seconds that an option's text gives, if there is one, where they are within their bounds.
fn seconds_in(given: Option<&str>, setting: Setting) -> Option<Option<u64>>
    ensures { MatchOption result
        ((n : Option ℕ) → SetsIfGiven setting (option_map (λ text. text.now) given.entry) n → ⊥)
        (SetsIfGiven setting (option_map (λ text. text.now) given.entry)) }
{
    match number_if_given(given, setting)? {
        None => Some(None),
        Some(seconds) => Some(Some(u64::from(seconds))),
    }
}

/// The number that an option's text gives, if there is one, where it is within its bounds.
fn number_if_given(given: Option<&str>, setting: Setting) -> Option<Option<u16>>
    ensures { MatchOption result
        ((n : Option ℕ) → SetsIfGiven setting (option_map (λ text. text.now) given.entry) n → ⊥)
        (SetsIfGiven setting (option_map (λ text. text.now) given.entry)) }
{
    match given {
        None => Some(None),
        Some(text) => match number_of(Some(text), setting) {
            Some(number) => Some(Some(number)),
            None => None,
        },
    }
}

/// The file that an option names, if it does. None where the name is empty.
fn file_in(name: Option<&str>) -> Option<Option<&str>>
    ensures { MatchOption result
        (option_map (λ text. text.now) name.entry ≡ Some [])
        (λ file. (file ≡ name.entry) × (option_map (λ text. text.now) name.entry ≢ Some [])) }
{
    match name {
        Some(text) if text.is_empty() => None,
        other => Some(other),
    }
}

/// The number that an option was given, or has by default, where it is within its bounds.
fn number_in(given: &ArgMatches<'_>, name: &str, setting: Setting) -> Option<u16>
    ensures { MatchOption result
        ((n : ℕ) → Sets setting (first_of name.now (rows_of (found_of given.now))) n → ⊥)
        (Sets setting (first_of name.now (rows_of (found_of given.now)))) }
{
    number_of(text_in(given, name), setting)
}

/// The number that an option's text gives, or the default, where it is within its bounds.
fn number_of(given: Option<&str>, setting: Setting) -> Option<u16>
    ensures { MatchOption result
        ((n : ℕ) → Sets setting (option_map (λ text. text.now) given.entry) n → ⊥)
        (Sets setting (option_map (λ text. text.now) given.entry)) }
{
    let number = match given {
        None => setting.default?,
        Some(text) => text.parse::<u16>().ok()?,
    };
    if setting.least <= number && number <= setting.most {
        Some(number)
    } else {
        None
    }
}
