//! The program `amaudit`: judges the text of a stored trace, or tells the records that it leaves.
#![tactic(auto)]

mod answer;
mod judgement;
mod output;
mod records;

use am_line_sink::Writing;
use am_program_start::{Audited, audited, hold_stack, words};
use answer::answer;
use judgement::{Judgement, say};
use output::Output;
use std::io::Read;
use std::process::ExitCode;
use std::rt::Files;
use std::{fs, io};

/// The program's name, where it says what is wrong.
const PROGRAM: &str = "amaudit";

/// What is read: a file, or standard input where none or `-` is named.
fn bytes<R: AllocGlobal + Files + Input>(rt: &R, file: Option<&str>) -> io::Result<Vec<u8>> {
    match file {
        Some(path) if path != "-" => fs::read(rt, path),
        _ => {
            let mut bytes = Vec::new(rt.alloc());
            rt.reader().read_to_end(&mut bytes)?;
            Ok(bytes)
        }
    }
}

/// The name by which what is read is told.
fn name_of<'a>(file: Option<&'a str>) -> &'a str {
    match file {
        Some(path) if path != "-" => path,
        _ => "standard input",
    }
}

/// Reads the text and writes what is to be said of it, or the records that it leaves. Where the text can't be read, or
/// that can't be written, it says why on standard error. It has a frame of its own, beside that of the words, so that
/// neither is large.
#[inline(never)]
fn audit<R: AllocGlobal + Files + Input + Print + Eprint>(rt: &R, asked: &Audited<'_>) -> ExitCode {
    let mut sink = Writing::new(Output::new(rt, io::writer(rt)));
    let said = match bytes(rt, asked.file) {
        Ok(text) => answer(rt.alloc(), asked, &text, &mut sink),
        Err(error) if error.kind() == io::ErrorKind::OutOfMemory => {
            say(&Judgement::NoMemory, &mut sink)
        }
        Err(why) => {
            let _ = eprintln!(rt; "{PROGRAM}: {}: {why}", name_of(asked.file));
            say(&Judgement::NoFile, &mut sink)
        }
    };
    ExitCode::from(said.unwrap_or(6))
}

fn main(rt: HostRuntime) -> io::Result<ExitCode> {
    if let Err(fault) = hold_stack(&rt) {
        return fault.tell(&rt, PROGRAM);
    }
    let words = match words(&rt) {
        Ok(words) => words,
        Err(fault) => return fault.tell(&rt, PROGRAM),
    };
    match audited(rt.alloc(), words.as_slice()) {
        Ok(asked) => Ok(audit(&rt, &asked)),
        Err(fault) => fault.tell(&rt, PROGRAM),
    }
}
