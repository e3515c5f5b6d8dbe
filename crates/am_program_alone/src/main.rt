//! The program `amserve alone`: one session over standard input and output, on a store of its own.
#![tactic(auto)]

ghost use Rattle.am_record.specs.Limits.{max_limit};
ghost use Rattle.std.specs.Prelude.{◌≤◌};

mod ending;

use am_line_alone::serve_alone;
use am_line_sink::Writing;
use am_line_source::Reading;
use am_program_options::{Options, options};
use am_program_start::{OptionsFault, draw_hash_key, hold_stack, words};
use ending::ending;
use std::io;
use std::io::BufWriter;
use std::process::ExitCode;
use std::random::RandomSource;
use std::rt::Clock;
use std::sync::Wait;

/// The program's name, where it says what is wrong with its words.
const PROGRAM: &str = "amserve";

/// Answers standard input on standard output; after each answer at most `auto` entries are merged. It has a frame of
/// its own, beside that of the words, so that neither is large.
#[inline(never)]
fn alone<R: AllocGlobal + Input + Print + Eprint + Clock + RandomSource + Wait>(
    rt: &R,
    auto: u64,
) -> io::Result<ExitCode>
    requires { auto ≤ max_limit }
{
    // Pieces of one answer, as the rows of a scan, go out together.
    let Ok(writer) = BufWriter::new(rt.alloc(), io::writer(rt)) else {
        return OptionsFault::NoMemory.tell(rt, PROGRAM);
    };
    let mut source = Reading::new(rt.reader());
    let mut sink = Writing::new(writer);
    let hash = draw_hash_key(rt);
    let end = serve_alone(rt, rt.alloc(), &mut source, &mut sink, auto, hash);
    let (status, text) = ending(&end);
    if !text.is_empty() {
        eprintln!(rt; "{text}")?;
    }
    Ok(ExitCode::from(status))
}

fn main(rt: HostRuntime) -> io::Result<ExitCode> {
    if let Err(fault) = hold_stack(&rt) {
        return fault.tell(&rt, PROGRAM);
    }
    let words = match words(&rt) {
        Ok(words) => words,
        Err(fault) => return fault.tell(&rt, PROGRAM),
    };
    match options(rt.alloc(), words.as_slice()) {
        Ok(Options::Alone { auto }) => alone(&rt, auto),
        Ok(Options::Listen(_)) => {
            OptionsFault::Unserved("this program serves alone").tell(&rt, PROGRAM)
        }
        Err(fault) => fault.tell(&rt, PROGRAM),
    }
}
