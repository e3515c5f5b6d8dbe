//! One line of a block.

ghost use Rattle.std.specs.Prelude.{◌≡◌, ◌≢◌, ◌+◌, ◌≤◌, List, [], ◌∷◌, ◌++◌, length, drop, false, Some, None, is_some};
ghost use Rattle.std.specs.Prelude.{IfOk, OnOk, IfSome};
ghost use Rattle.am_record.specs.Records.{Records as TheRecords};
ghost use Rattle.am_line_source.specs.Lines.{pieces_of, without_cr, line_of, HasNoLf, has_lf};
ghost use Rattle.am_line_dialogue.specs.Actions.{with_staged, staged_left, stage_response};
ghost use Rattle.am_line_dialogue.specs.ParsedLine.{parsed, MayParse};
ghost use Rattle.am_replica_blocks.specs.Blocks.{staged_by};
ghost use Rattle.am_replica_lines.specs.Lines.{at_work, is_own, TakesLine};

use crate::fault::BlockFault;
use am_line_dialogue::{Action, ParsedLine, Response, Session, parse};
use am_line_source::{LineKind, MAX_LINE_LEN};
use am_line_text::LineFault;
use am_line_wire::Request;
use am_record::{NoMemory, Op, Records, Step};
use std::alloc::Global;

/// The first line of some bytes, without its LF, and what stands after it.
pub fn cut_line(bytes: &[u8]) -> (&[u8], &[u8])
    requires { bytes.now ≢ [] }
    ensures cut { pieces_of bytes.now ≡ result.0.now ∷ pieces_of result.1.now }
    ensures shorter { length result.1.now + 1 ≤ length bytes.now }
{
    match first_line(bytes) {
        Some(line) => {
            let (_, after) = bytes.split_at(line.len() + 1);
            (line, after)
        }
        None => (bytes, &[]),
    }
}

// The first line, where it is whole.
fn first_line(bytes: &[u8]) -> Option<&[u8]>
    ensures line { IfSome result (λ l. bytes.now ≡ l.now ++ 10 ∷ drop (length l.now + 1) bytes.now) }
    ensures one { IfSome result (λ l. HasNoLf l.now) }
    ensures exact { is_some result ≡ has_lf bytes.now }
{
    let end = bytes.iter().position(|byte| *byte == b'\n')?;
    Some(&bytes[..end])
}

// Without one CR at the end.
fn trimmed(line: &[u8]) -> &[u8]
    ensures { result.now ≡ without_cr line.now }
{
    let Some((last, front)) = line.split_last() else {
        return line;
    };
    if *last == b'\r' { front } else { line }
}

/// What a line without its LF says, as a session reads it.
pub fn parse_cut(alloc: Global, line: &[u8]) -> ParsedLine
    ensures { MayParse (line_of line.now) result }
{
    if line.len() > MAX_LINE_LEN {
        return parse(alloc, LineKind::Long, line);
    }
    parse(alloc, LineKind::Text, trimmed(line))
}

/// The operation that a line asks for with what waits, where a transaction is active; None, where it has records wait.
pub(crate) fn take_line(
    alloc: Global,
    session: &mut Session,
    line: &[u8],
) -> Result<Option<Op>, BlockFault>
    ensures takes { (staged : TheRecords) → session.old ≡ at_work staged →
        IfOk result (λ op. TakesLine staged (parsed (line_of line.now)) op session.new) }
    ensures other { result ≡ Err BlockFault.OtherLine → is_own (parsed (line_of line.now)) ≡ false }
    ensures not_staged { result ≢ Err BlockFault.StillStaged }
{
    match parse_cut(alloc, line) {
        ParsedLine::Asked(Request::Do(op)) => Ok(Some(take_along(session, op)?)),
        ParsedLine::Asked(Request::Stage(records)) => {
            drop(stage(session, records)?);
            Ok(None)
        }
        ParsedLine::Faulty(LineFault::NoMemory) => Err(BlockFault::NoMemory),
        _ => Err(BlockFault::OtherLine),
    }
}

/// The operation with what waits.
///
/// # Errors
/// NoMemory, where memory was refused.
pub fn take_along(session: &mut Session, op: Op) -> Result<Op, NoMemory>
    ensures asks { (staged : TheRecords) → session.old ≡ at_work staged →
        IfOk result (λ whole. whole ≡ with_staged staged op) }
    ensures left { (staged : TheRecords) → session.old ≡ at_work staged →
        OnOk result (session.new ≡ at_work (staged_left staged op)) }
{
    match session.action(ParsedLine::Asked(Request::Do(op))) {
        Action::Take(Step::Do(_, whole)) => Ok(whole),
        _ => Err(NoMemory),
    }
}

/// Has records wait, where there is room beside those that wait already, and says what the line is answered.
///
/// # Errors
/// NoMemory, where memory was refused.
pub fn stage(session: &mut Session, records: Records) -> Result<Response, NoMemory>
    ensures says { (staged : TheRecords) → session.old ≡ at_work staged →
        IfOk result (λ response. response ≡ stage_response staged records) }
    ensures left { (staged : TheRecords) → session.old ≡ at_work staged →
        OnOk result (session.new ≡ at_work (staged_by staged records)) }
{
    match session.action(ParsedLine::Asked(Request::Stage(records))) {
        Action::Answer(Response::Faulty(_)) => Err(NoMemory),
        Action::Answer(response) => Ok(response),
        _ => Err(NoMemory),
    }
}
