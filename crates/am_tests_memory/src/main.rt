//! The program `am_tests_memory`: makes worked calls of the libraries that neither a session nor C reaches, one after
//! another, and prints a line for each. A call that is refused memory has to leave everything as it was, and is made
//! again: so with any one allocation refused the program prints the same.
#![tactic(auto)]

mod call;
mod entries;
mod fault;
mod indexes;
mod loads;
mod numbers;
mod outcomes;
mod plain_map;
mod rows_back;
mod texts;

use call::{CALLS, Call};
use fault::Fault;
use std::alloc::Global;
use std::process::ExitCode;

// Makes the call. Where memory is refused while it is prepared, it is prepared anew, once.
fn attempt(alloc: Global, call: Call) -> Result<(), Fault> {
    match call.make(alloc) {
        Err(Fault::NoMemory) => call.make(alloc),
        outcome => outcome,
    }
}

fn word(outcome: Result<(), Fault>) -> &'static str {
    match outcome {
        Ok(()) => "ok",
        Err(Fault::NoMemory) => "no memory",
        Err(Fault::Changed) => "changed",
        Err(Fault::Differs) => "differs",
        Err(Fault::Refused) => "refused",
    }
}

fn main(rt: HostRuntime) -> ExitCode {
    for call in CALLS {
        let outcome = attempt(rt.alloc(), call);
        if println!(rt; "{} {}", call.name(), word(outcome)).is_err() {
            return ExitCode::from(1);
        }
        match outcome {
            Ok(()) => {}
            Err(Fault::NoMemory) => return ExitCode::from(5),
            Err(Fault::Changed | Fault::Differs | Fault::Refused) => return ExitCode::from(1),
        }
    }
    ExitCode::SUCCESS
}
