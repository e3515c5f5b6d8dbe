//! What is said of a text.

ghost use Rattle.std.specs.Prelude.{◌≡◌, ◌^◌, ◌<◌, ◌+◌, false, OnOk, OnErr, IfOk};
ghost use Rattle.am_line_sink.specs.SinkWrites.{Wrote};
ghost use Rattle.std.specs.Prelude.{◌≢◌, ℕ, List, IfErr};
ghost use Rattle.am_law_serial.specs.Trace.{Trace};
ghost use Rattle.am_trace_text.specs.Lines.{IsTextOf};
ghost use Rattle.am_trace_text.specs.Headers.{most_runs_of};
ghost use Rattle.am_audit.specs.Faults.{IsTrueFault};
ghost use Rattle.am_program_audit.specs.Judgements.{IsTrueOf, SaysJudgement, IsBegun, judgement_line, judgement_status};
ghost use Rattle.am_program_audit.specs.Judgements.{HasText};

use am_audit::{Audit, Fault, FaultKind};
use am_line_sink::{Failed, Sink, give_all};
use am_line_text::Text;
use am_trace_read::{read_header, read_line};
use am_trace_text::ReadFault;
use std::alloc::Global;

/// What is to be said of a text, or of one that can't be had.
#[derive(Clone, Copy)]
pub enum Judgement {
    /// A legal trace of so many commits.
    Legal(u64),
    /// A trace, and this line of it is the first that has a fault, which is of this kind.
    Wrong(u64, FaultKind),
    /// No trace: this line is the first that is none of a trace.
    Bad(u64),
    /// The text can't be read.
    NoFile,
    /// Memory was refused.
    NoMemory,
}

// Judges a text, a line at a time. Memory may be refused, and then nothing is known of it.
fn judge_text(alloc: Global, text: &[u8]) -> Judgement
    ensures { IsTrueOf text.now result }
{
    match audit_text(alloc, text) {
        Ok(audit) => match audit.verdict() {
            Ok(commits) => Judgement::Legal(commits),
            Err(fault) => judgement_of(fault),
        },
        Err(judgement) => judgement,
    }
}

/// What is to be said of a trace with the fault.
pub(crate) fn judgement_of(fault: Fault) -> Judgement
    ensures told { (text : List ℕ) (trace : Trace) (it : IsTextOf text trace) →
        IsTrueFault (most_runs_of it.header) trace fault → IsTrueOf text result }
    ensures others { judgement_status result ≢ 0 }
{
    match fault {
        Fault::Wrong(line, kind) => Judgement::Wrong(line, kind),
        Fault::NoMemory => Judgement::NoMemory,
    }
}

/// The audit of a text's lines, judged one after another.
///
/// # Errors
/// What is to be said of a text that is none of a trace, or where memory was refused.
pub(crate) fn audit_text(alloc: Global, text: &[u8]) -> Result<Audit, Judgement>
    ensures judged { IfOk result (HasText text.now) }
    ensures told { IfErr result (IsTrueOf text.now) }
    ensures others { IfErr result (λ judgement. judgement_status judgement ≢ 0) }
{
    let Some((header, mut rest)) = read_header(text) else {
        return Err(Judgement::Bad(1));
    };
    let Ok(mut audit) = Audit::new(alloc, header.most_runs()) else {
        return Err(Judgement::NoMemory);
    };
    let _bytes = text.len();
    let mut line = 2;
    'lines: while !rest.is_empty() {
        match read_line(alloc, header.version(), rest) {
            Ok(read) => {
                let ((step, reply), further) = read;
                audit.judge(alloc, step, reply);
                line += 1;
                rest = further;
            }
            Err(ReadFault::Bad) => return Err(Judgement::Bad(line)),
            Err(ReadFault::NoMemory) => return Err(Judgement::NoMemory),
        }
    }
    Ok(audit)
}

// The line that says it.
fn line(judgement: &Judgement) -> Text
    ensures { result ≡ judgement_line judgement.now }
{
    match judgement {
        Judgement::Legal(commits) => Text::new(b"LEGAL ").then_number(*commits).then(b"\n"),
        Judgement::Wrong(line, kind) => {
            let begun = Text::new(b"WRONG ").then_number(*line);
            match kind {
                FaultKind::Form => begun.then(b" FORM\n"),
                FaultKind::Busy => begun.then(b" BUSY\n"),
                FaultKind::Answer => begun.then(b" ANSWER\n"),
            }
        }
        Judgement::Bad(line) => Text::new(b"BAD ").then_number(*line).then(b"\n"),
        Judgement::NoFile => Text::new(b"NO FILE\n"),
        Judgement::NoMemory => Text::new(b"NO MEMORY\n"),
    }
}

// The program's status.
fn status(judgement: &Judgement) -> u8
    ensures { result ≡ judgement_status judgement.now }
{
    match judgement {
        Judgement::Legal(_) => 0,
        Judgement::Wrong(_, _) => 1,
        Judgement::Bad(_) => 3,
        Judgement::NoFile => 4,
        Judgement::NoMemory => 5,
    }
}

/// Writes the line that says it, and answers the program's status.
///
/// # Errors
/// Failed, where the sink failed once; a beginning of the line went out.
pub fn say<K: Sink>(judgement: &Judgement, sink: &mut K) -> Result<u8, Failed>
    requires countable { K.failures sink.old + 1 < 2 ^ 63 }
    ensures status { IfOk result (λ status. status ≡ judgement_status judgement.now) }
    ensures wrote { Wrote K.holds K.failures sink.old (judgement_line judgement.now) result sink.new }
    ensures sent { OnOk result (K.pending sink.new ≡ false) }
{
    give_all(sink, line(judgement).as_slice())?;
    sink.flush()?;
    Ok(status(judgement))
}

/// Judges a text, writes the line that says how, and answers the program's status.
///
/// # Errors
/// Failed, where the sink failed once; a beginning of the line went out.
pub fn judge<K: Sink>(alloc: Global, text: &[u8], sink: &mut K) -> Result<u8, Failed>
    requires countable { K.failures sink.old + 1 < 2 ^ 63 }
    ensures judged { IfOk result (SaysJudgement K.holds text.now sink.old sink.new) }
    ensures sent { OnOk result (K.pending sink.new ≡ false) }
    ensures ok { OnOk result (K.failures sink.new ≡ K.failures sink.old) }
    ensures failed { OnErr result (K.failures sink.new ≡ K.failures sink.old + 1) }
    ensures torn { OnErr result (IsBegun K.holds text.now sink.old sink.new) }
{
    say(&judge_text(alloc, text), sink)
}
