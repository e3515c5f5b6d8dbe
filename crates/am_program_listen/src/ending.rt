//! What is said and left where the program ends.

ghost use Rattle.std.specs.Prelude.{◌≡◌, option_map};
ghost use Rattle.am_program_listen.specs.Subjects.{subject_of, subject_text};

use crate::fault::ListenFault;
use am_program_options::Listening;
use std::process::ExitCode;
use std::rt::Files;
use std::{fmt, fs, io};

/// Removes the socket of the file system, where one is named.
pub fn remove_socket<R: Files>(rt: &R, listening: &Listening<'_>) {
    if let Some(path) = listening.place.socket() {
        let _ = fs::remove_file(rt, path);
    }
}

/// What a fault is about.
#[derive(Clone, Copy)]
enum Subject<'a> {
    /// A port, by its number.
    Port(u16),
    /// A file, or a socket of the file system, by its name.
    Name(&'a str),
}

impl fmt::Display for Subject<'_> {
    ghost use Rattle.std.specs.Prelude.{Some};
    ghost use Rattle.am_program_listen.specs.Subjects.{subject_text};

    ghost output = { λ subject. Some (subject_text subject) };

    fn fmt<W: fmt::Write>(&self, f: &mut fmt::Formatter<W>) -> fmt::Result {
        match self {
            Subject::Port(number) => write!(f, "port {number}"),
            Subject::Name(name) => f.write_str(name),
        }
    }
}

// What a fault is about of which the system may have said something.
fn subject_of<'a>(listening: &Listening<'a>, fault: &ListenFault) -> Option<Subject<'a>>
    ensures { option_map subject_text result ≡ subject_of listening.now fault.now }
{
    match fault {
        ListenFault::CannotListenAtPort(_) => Some(Subject::Port(listening.place.port()?)),
        ListenFault::CannotListenAtSocket(_) => Some(Subject::Name(listening.place.socket()?)),
        ListenFault::CannotWriteTrace(_) => Some(Subject::Name(listening.trace?)),
        ListenFault::CannotAccept | ListenFault::NoMemory | ListenFault::CannotHear => None,
    }
}

/// Says what is wrong, and before it of what the system said why, where that wasn't told. Answers the program's status.
///
/// # Errors
/// What standard error has, where it can't be said.
pub fn tell<R: Eprint>(
    rt: &R,
    listening: &Listening<'_>,
    fault: &ListenFault,
) -> io::Result<ExitCode> {
    if let (Some(subject), Some(why)) = (subject_of(listening, fault), fault.why()) {
        eprintln!(rt; "amserve: {subject}: {why}")?;
    }
    eprintln!(rt; "{}", fault.words())?;
    Ok(ExitCode::from(fault.status()))
}
