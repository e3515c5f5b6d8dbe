//! The program `amserve listen`: many sessions at a port or a socket of the file system, on one store.
#![tactic(auto)]

ghost use Rattle.std.specs.Prelude.{◌≤◌, IfOk};

mod ending;
mod fault;
mod port;
mod report;
mod stop_word;
mod trace;

use crate::fault::ListenFault;
use am_program_options::{Listening, Options, options};
use am_program_start::{OptionsFault, hold_stack, words};
use am_trace_file::Outbox;
use port::{Opened, close, make_ready, serve, stop_at_word};
use std::alloc::Global;
use std::process::ExitCode;
use std::{io, thread};

/// The program's name, where it says what is wrong with its words.
const PROGRAM: &str = "amserve";

// What the words ask this program for.
fn asked<'a>(alloc: Global, words: &'a [String]) -> Result<Listening<'a>, OptionsFault>
    ensures { IfOk result (λ l. (1 ≤ l.sessions) × (l.sessions ≤ 256) × (l.workers ≤ 16)) }
{
    match options(alloc, words)? {
        Options::Listen(listening) => Ok(listening),
        Options::Alone { .. } => Err(OptionsFault::Unserved("this program listens")),
    }
}

fn main(rt: HostRuntime) -> io::Result<ExitCode> {
    if let Err(fault) = hold_stack(&rt) {
        return fault.tell(&rt, PROGRAM);
    }
    let words = match words(&rt) {
        Ok(words) => words,
        Err(fault) => return fault.tell(&rt, PROGRAM),
    };
    let listening = match asked(rt.alloc(), words.as_slice()) {
        Ok(listening) => listening,
        Err(fault) => return fault.tell(&rt, PROGRAM),
    };
    let outbox = Outbox::new(rt.alloc());
    let (Opened { listener, file }, writer) = match make_ready(&rt, &listening, &outbox) {
        Ok(opened) => opened,
        Err(ended) => return ended,
    };
    let (sessions, workers) = (listening.sessions, listening.workers);
    let (runtime, endpoints, named, sending) = (&rt, &listener, &listening, &outbox);
    let served = thread::scope(
        thread::scope_env(),
        runtime,
        |scope|
            requires { (1 ≤ sessions) × (sessions ≤ 256) × (workers ≤ 16) }
        {
            if named.trace.is_some() {
                let _ = scope.spawn(move || sending.write_out(runtime));
            }
            let hears = !named.awaits_stop
                || scope
                    .spawn(move || stop_at_word(runtime, endpoints))
                    .is_ok();
            let served = if hears {
                serve(
                    runtime, endpoints, named, sessions, workers, sending, writer,
                )
            } else {
                Err(ListenFault::CannotHear)
            };
            sending.close(runtime);
            served
        },
    );
    close(&rt, &listening, file.as_ref(), &outbox, served)
}
