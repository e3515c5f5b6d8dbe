//! The records that a stored trace leaves.

ghost use Rattle.std.specs.Prelude.{◌≡◌, ◌^◌, ◌<◌, ◌+◌, ◌++◌, false, IfOk, IfErr, OnOk, OnErr};
ghost use Rattle.am_program_audit.specs.Judgements.{HasRecords, IsAgainst, PrintsRecords, HasBegunRecords};
ghost use Rattle.am_program_audit.specs.Judgements.{record_line, records_text};

use crate::judgement::{Judgement, audit_text, judgement_of, say};
use am_line_sink::{Failed, Sink, give_all};
use am_record::{Key, NoMemory, Value};
use std::alloc::Global;

/// Writes the records that the committed transactions of a stored trace leave, by rising key, a line each: key, TAB,
/// value. Where its text is none of a legal trace, writes the line that says so. Answers the program's status.
///
/// # Errors
/// Failed, where the sink failed once; a beginning of it went out.
pub fn tell_records<K: Sink>(alloc: Global, text: &[u8], sink: &mut K) -> Result<u8, Failed>
    requires countable { K.failures sink.old + 1 < 2 ^ 63 }
    ensures told { IfOk result (PrintsRecords K.holds text.now sink.old sink.new) }
    ensures sent { OnOk result (K.pending sink.new ≡ false) }
    ensures ok { OnOk result (K.failures sink.new ≡ K.failures sink.old) }
    ensures failed { OnErr result (K.failures sink.new ≡ K.failures sink.old + 1) }
    ensures torn { OnErr result (HasBegunRecords K.holds text.now sink.old sink.new) }
{
    match lines_of(alloc, text) {
        Ok(lines) => {
            give_all(sink, &lines)?;
            sink.flush()?;
            Ok(0)
        }
        Err(judgement) => say(&judgement, sink),
    }
}

// The lines of the records that a stored trace leaves.
fn lines_of(alloc: Global, text: &[u8]) -> Result<Vec<u8>, Judgement>
    ensures records { IfOk result (λ lines. HasRecords text.now lines.items) }
    ensures against { IfErr result (IsAgainst text.now) }
{
    let audit = audit_text(alloc, text)?;
    match audit.records(alloc) {
        Ok(records) => match records_text(alloc, &records) {
            Ok(lines) => Ok(lines),
            Err(NoMemory) => Err(Judgement::NoMemory),
        },
        Err(fault) => Err(judgement_of(fault)),
    }
}

fn records_text(alloc: Global, records: &[(Key, Value)]) -> Result<Vec<u8>, NoMemory>
    ensures { IfOk result (λ text. text.items ≡ records_text records.now) }
{
    let mut text = Vec::new(alloc);
    for pair in records {
        push_line(&mut text, pair)?;
    }
    Ok(text)
}

// Puts a record's line after a text. Where memory was refused, the text is no use.
fn push_line(text: &mut Vec<u8>, pair: &(Key, Value)) -> Result<(), NoMemory>
    ensures { OnOk result (text.new.items ≡ text.old.items ++ record_line pair.now) }
{
    text.extend_from_slice(pair.0.bytes())?;
    text.push(b'\t')?;
    text.extend_from_slice(pair.1.bytes())?;
    text.push(b'\n')?;
    Ok(())
}
