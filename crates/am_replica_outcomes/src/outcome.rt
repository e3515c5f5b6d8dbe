//! The texts of outcomes.

ghost use Rattle.std.specs.Prelude.{◌≡◌, [], ◌++◌, List, drop, IfOk, OnOk};
ghost use Rattle.am_line_dialogue.specs.Responses.{response_text};
ghost use Rattle.am_line_wire.specs.Replies.{text_of};
ghost use Rattle.am_replica.specs.Ordered.{verdict};
ghost use Rattle.am_replica_blocks.specs.Blocks.{BlockLine, told};
ghost use Rattle.am_replica_lines.specs.Lines.{said, asked_by, told_lines};
ghost use Rattle.am_replica_outcomes.specs.Outcomes.{response_texts, conflict, conflict_texts, told_at_end, IsWritten};

use am_line_dialogue::{ParsedLine, Response, Session, put_response};
use am_line_sink::{Failed, StopSink, give_all};
use am_line_wire::{Request, put_reply};
use am_record::{NoMemory, Reply};
use am_replica::Outcome;
use am_replica_entries::Block;
use am_replica_lines::{cut_line, parse_cut, stage, take_along};
use std::alloc::Global;

// What a line is answered whose transaction doesn't stand.
pub(crate) const CONFLICT: &[u8] = b"ERR CONFLICT\n";

/// What the client of a block is told once it came in the log, and came to this: the answers to its lines, but for the
/// first ones, which were answered before, each with its LF, and the number of its commit. Where it doesn't stand, each
/// of these lines is answered that it is in conflict, and so is COMMIT.
///
/// # Errors
/// NoMemory, where memory was refused: the replica ends.
pub fn outcome_text(alloc: Global, block: &Block, outcome: &Outcome) -> Result<Vec<u8>, NoMemory>
    ensures { (lines : List BlockLine) → said block.now.lines.items ≡ asked_by lines →
        IfOk result (λ text. text.items ≡ told_at_end (told_lines block.now.told) lines (verdict outcome.now)) }
{
    let mut sink = StopSink::new(alloc, 0);
    match outcome {
        Outcome::Conflict => put_conflicts(&mut sink, &block.lines, told_lines(block))?,
        Outcome::Committed(number, replies) => {
            put_answers(alloc, &mut sink, &block.lines, told_lines(block), replies)?;
            answer(&mut sink, &Reply::Committed(*number))?;
        }
    }
    Ok(sink.into_bytes())
}

// How many lines were answered before the block was put.
fn told_lines(block: &Block) -> usize
    ensures { result ≡ told_lines block.now.told }
{
    match &block.told {
        None => 0,
        Some(told) => told.lines as usize,
    }
}

// The conflict, for each line after the first ones, and for COMMIT.
fn put_conflicts(sink: &mut StopSink, text: &[u8], first: usize) -> Result<(), NoMemory>
    requires empty { sink.old.bytes ≡ [] }
    requires sound { sink.old.failures ≡ 0 }
    ensures answers { (lines : List BlockLine) → said text.now ≡ asked_by lines →
        OnOk result (sink.new.bytes ≡ conflict_texts (drop first lines) ++ conflict) }
{
    let mut told = first;
    let mut rest = text;
    while !rest.is_empty() {
        let (_, after) = cut_line(rest);
        if told == 0 {
            put(sink, CONFLICT)?;
        } else {
            told -= 1;
        }
        rest = after;
    }
    put(sink, CONFLICT)
}

// The answers to the lines after the first ones.
fn put_answers(
    alloc: Global,
    sink: &mut StopSink,
    text: &[u8],
    first: usize,
    replies: &[Reply],
) -> Result<(), NoMemory>
    requires empty { sink.old.bytes ≡ [] }
    requires sound { sink.old.failures ≡ 0 }
    ensures answers { (lines : List BlockLine) → said text.now ≡ asked_by lines →
        OnOk result (sink.new.bytes ≡ response_texts (drop first (told [] lines replies.now))) }
    ensures sound { OnOk result (sink.new.failures ≡ 0) }
{
    let mut session = Session::new(alloc);
    session.reply(&Reply::Begun(1));
    let mut told = first;
    let mut left = replies;
    let mut rest = text;
    while !rest.is_empty() {
        let (line, after) = cut_line(rest);
        match parse_cut(alloc, line) {
            ParsedLine::Asked(Request::Do(op)) => {
                drop(take_along(&mut session, op)?);
                let Some((reply, others)) = left.split_first() else {
                    break;
                };
                answer_untold(sink, &mut told, reply)?;
                left = others;
            }
            ParsedLine::Asked(Request::Stage(records)) => {
                let response = stage(&mut session, records)?;
                respond_untold(sink, &mut told, &response)?;
            }
            _ => return Err(NoMemory),
        }
        rest = after;
    }
    Ok(())
}

// The answer to a line, unless it is one of those that were told before, of which so many are left.
fn answer_untold(sink: &mut StopSink, told: &mut usize, reply: &Reply) -> Result<(), NoMemory>
    requires { sink.old.failures ≡ 0 }
    ensures written { OnOk result
        (IsWritten told.old (Response.Replied reply.now) sink.old.bytes told.new sink.new.bytes) }
    ensures sound { OnOk result (sink.new.failures ≡ 0) }
{
    if *told == 0 {
        return answer(sink, reply);
    }
    *told -= 1;
    Ok(())
}

fn respond_untold(
    sink: &mut StopSink,
    told: &mut usize,
    response: &Response,
) -> Result<(), NoMemory>
    requires { sink.old.failures ≡ 0 }
    ensures written { OnOk result (IsWritten told.old response.now sink.old.bytes told.new sink.new.bytes) }
    ensures sound { OnOk result (sink.new.failures ≡ 0) }
{
    if *told == 0 {
        return respond(sink, response);
    }
    *told -= 1;
    Ok(())
}

pub(crate) fn answer(sink: &mut StopSink, reply: &Reply) -> Result<(), NoMemory>
    requires { sink.old.failures ≡ 0 }
    ensures text { OnOk result (sink.new.bytes ≡ sink.old.bytes ++ text_of reply.now) }
    ensures sound { OnOk result (sink.new.failures ≡ 0) }
{
    match put_reply(reply, sink) {
        Ok(()) => Ok(()),
        Err(Failed) => Err(NoMemory),
    }
}

pub(crate) fn respond(sink: &mut StopSink, response: &Response) -> Result<(), NoMemory>
    requires { sink.old.failures ≡ 0 }
    ensures text { OnOk result (sink.new.bytes ≡ sink.old.bytes ++ response_text response.now) }
    ensures sound { OnOk result (sink.new.failures ≡ 0) }
{
    match put_response(response, sink) {
        Ok(()) => Ok(()),
        Err(Failed) => Err(NoMemory),
    }
}

pub(crate) fn put(sink: &mut StopSink, text: &[u8]) -> Result<(), NoMemory>
    requires { sink.old.failures ≡ 0 }
    ensures text { OnOk result (sink.new.bytes ≡ sink.old.bytes ++ text.now) }
    ensures sound { OnOk result (sink.new.failures ≡ 0) }
{
    match give_all(sink, text) {
        Ok(()) => Ok(()),
        Err(Failed) => Err(NoMemory),
    }
}
