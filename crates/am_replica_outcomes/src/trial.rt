//! The texts of what lines are answered.

ghost use Rattle.std.specs.Prelude.{◌≡◌, IfOk};
ghost use Rattle.am_replica_outcomes.specs.Trials.{trial_text};

use crate::outcome::{CONFLICT, answer, put, respond};
use am_line_sink::StopSink;
use am_record::NoMemory;
use am_replica_trials::TrialAnswer;
use std::alloc::Global;

/// What a line of a transaction is answered, with its LF; nothing, where the session answers it.
///
/// # Errors
/// NoMemory, where memory was refused.
pub fn trial_text(alloc: Global, answered: &TrialAnswer) -> Result<Vec<u8>, NoMemory>
    ensures { IfOk result (λ text. text.items ≡ trial_text answered.now) }
{
    let mut sink = StopSink::new(alloc, 0);
    match answered {
        TrialAnswer::Reply(reply) => answer(&mut sink, reply)?,
        TrialAnswer::Stage(response) | TrialAnswer::Faulty(response) => respond(
            &mut sink, response,
        )?,
        TrialAnswer::Conflict => put(&mut sink, CONFLICT)?,
        TrialAnswer::Limit => put(&mut sink, b"ERR LIMIT\n")?,
        TrialAnswer::Other => {}
    }
    Ok(sink.into_bytes())
}
