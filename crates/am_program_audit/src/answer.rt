//! What is answered to the words.

ghost use Rattle.std.specs.Prelude.{◌≡◌, ◌^◌, ◌<◌, ◌+◌, false, IfOk, OnOk, OnErr};
ghost use Rattle.am_program_audit.specs.Answers.{AnswersWords, HasBegunAnswer, whole_run};

use crate::judgement::judge;
use crate::records::tell_records;
use am_line_sink::{Failed, Sink};
use am_program_start::Audited;
use std::alloc::Global;

/// Writes what is asked for of a stored trace: the line that says how its text is judged, or the records that it
/// leaves. Where its run isn't ended, what stands after the text's last LF is left out. Answers the program's status.
///
/// # Errors
/// Failed, where the sink failed once; a beginning of it went out.
pub fn answer<K: Sink>(
    alloc: Global,
    asked: &Audited<'_>,
    text: &[u8],
    sink: &mut K,
) -> Result<u8, Failed>
    requires countable { K.failures sink.old + 1 < 2 ^ 63 }
    ensures answered { IfOk result (AnswersWords K.holds asked.now text.now sink.old sink.new) }
    ensures sent { OnOk result (K.pending sink.new ≡ false) }
    ensures ok { OnOk result (K.failures sink.new ≡ K.failures sink.old) }
    ensures failed { OnErr result (K.failures sink.new ≡ K.failures sink.old + 1) }
    ensures torn { OnErr result (HasBegunAnswer K.holds asked.now text.now sink.old sink.new) }
{
    let run = if asked.is_open { whole_run(text) } else { text };
    if asked.tells_records {
        tell_records(alloc, run, sink)
    } else {
        judge(alloc, run, sink)
    }
}

// The text of the run so far: up to the last LF, and with it; where none has come yet, that of a run without steps.
fn whole_run(text: &[u8]) -> &[u8]
    ensures { result.now ≡ whole_run text.now }
{
    let mut end = text.len();
    'bytes: while end > 0 {
        if text[end - 1] == b'\n' {
            return &text[..end];
        }
        end -= 1;
    }
    b"TRACE 2\n"
}
