//! Transactions over texts.

ghost use Rattle.std.specs.Prelude.{◌≡◌, ◌+◌, ◌-◌, ◌*◌, ◌<◌, ◌++◌, ◌∷◌, [], List, Some, None, true, false};
ghost use Rattle.std.specs.Prelude.{IfOk, OnOk, IfSome, is_some, not, length};
ghost use Rattle.am_line_source.specs.Lines.{HasNoLf, line_of};
ghost use Rattle.am_line_dialogue.specs.ParsedLine.{parsed};
ghost use Rattle.am_line_dialogue.specs.declared.lines.ParsedLine.TheVariants.{Asked};
ghost use Rattle.am_replica_blocks.specs.Blocks.{BlockLine, asked_ops};
ghost use Rattle.am_replica_lines.specs.Lines.{AsksOps, told_lines};
ghost use Rattle.am_replica_trials.specs.Open.{StandsBy};
ghost use Rattle.am_replica_trials.specs.Trials.{HasLines, IsStage, IsLineAnswered, has_room, has_answer_room};
ghost use Rattle.am_replica_trials.specs.Trials.{longest_answer, first_trial, records_wait};

use crate::answer::TrialAnswer;
use crate::open::OpenTrial;
use am_line_dialogue::{Action, ParsedLine, Response, Session};
use am_line_text::LineFault;
use am_line_wire::{Request, reply_text};
use am_record::{NoMemory, Op, Records, Reply};
use am_replica::{Digest, Machine, Transaction, TrialFault};
use am_replica_entries::{Block, Told};
use am_replica_lines::{parse_cut, stage, take_along};
use std::alloc::Global;
use std::marker::Model;

/// The most bytes of a block's lines, each counted with 100 more, and of the answers to its operations.
const MAX_LINES_LEN: usize = 64_000_000;

const MAX_ANSWERS_LEN: usize = 64_000_000;
// The most bytes of a row, and of any answer beside its rows.
const MAX_ROW_LEN: usize = 98;

const MAX_SHORT_LEN: usize = 110;

/// A transaction: what it was told, the records that wait, and the lines that were answered.
#[derive(Drop)]
pub struct LineTransaction {
    transaction: Transaction,
    session: Session,
    lines: Vec<u8>,
    // The bytes of those up to the last operation.
    tried: usize,
    answered: u32,
    answers_left: usize,
    is_over: bool,
}

impl Model for LineTransaction {
    ghost use Rattle.am_replica_trials.specs.Trials.{TrialState, trial_code, IsInOrder};

    ghost Value = { TrialState };

    ghost coded = { trial_code };

    ghost view = { λ t. record {
      transaction = t.transaction;
      session = t.session;
      lines = t.lines.items;
      answered = t.answered;
      answers_left = t.answers_left;
      is_over = t.is_over;
    } };

    ghost invariant = { λ t. IsInOrder t.tried (record {
      transaction = t.transaction;
      session = t.session;
      lines = t.lines.items;
      answered = t.answered;
      answers_left = t.answers_left;
      is_over = t.is_over;
    }) };
}

impl LineTransaction {
    /// One that has no lines.
    ///
    /// # Errors
    /// NoMemory, where memory was refused.
    pub fn new<D: Digest>(alloc: Global, digest: &D) -> Result<LineTransaction, NoMemory>
        ensures exact { IfOk result (λ t. t ≡ first_trial D.digest_of) }
        ensures begun { IfOk result (λ t. HasLines [] t) }
    {
        let transaction = Transaction::new(alloc, digest)?;
        let mut session = Session::new(alloc);
        session.reply(&Reply::Begun(1));
        Ok(LineTransaction {
            transaction,
            session,
            lines: Vec::new(alloc),
            tried: 0,
            answered: 0,
            answers_left: MAX_ANSWERS_LEN,
            is_over: false,
        })
    }

    /// Takes a line, without its LF, where the store stands now. Where the trial that is open in the store isn't the
    /// transaction's own, all its operations are run again. Its own trial stays open.
    ///
    /// # Errors
    /// NoMemory, where memory was refused: the replica ends, and the transaction is over.
    pub fn take<M: Machine, D: Digest>(
        &mut self,
        alloc: Global,
        machine: &mut M,
        digest: &D,
        trial: &mut OpenTrial<D::Running>,
        line: &[u8],
    ) -> Result<TrialAnswer, NoMemory>
        requires stands { StandsBy (M.idle machine.old) (M.inside machine.old) D.holds (M.map machine.old) trial.old }
        requires one { HasNoLf line.now }
        ensures stands { OnOk result
            (StandsBy (M.idle machine.new) (M.inside machine.new) D.holds (M.map machine.new) trial.new) }
        ensures same { OnOk result (M.map machine.new ≡ M.map machine.old) }
        ensures answered { (own : List BlockLine) → HasLines own self.old →
            IfOk result (λ answer.
            IsLineAnswered D.digest_of own self.old line.now (M.map machine.old) answer self.new) }
        ensures over { (own : List BlockLine) → self.old.is_over ≡ true → IfOk result (λ answer.
            IsLineAnswered D.digest_of own self.old line.now (M.map machine.old) answer self.new) }
    {
        match parse_cut(alloc, line) {
            ParsedLine::Asked(Request::Do(op)) => {
                if self.is_over {
                    return Ok(TrialAnswer::Conflict);
                }
                if !self.has_room(line) {
                    return Ok(TrialAnswer::Limit);
                }
                if !self.has_answer_room(&op) {
                    return Ok(TrialAnswer::Limit);
                }
                self.operation(alloc, machine, digest, trial, line, op)
            }
            ParsedLine::Asked(Request::Stage(records)) => {
                if self.is_over {
                    return Ok(TrialAnswer::Conflict);
                }
                if !self.has_room(line) {
                    return Ok(TrialAnswer::Limit);
                }
                Ok(TrialAnswer::Stage(self.staging(line, records)?))
            }
            ParsedLine::Faulty(LineFault::NoMemory) => Err(NoMemory),
            ParsedLine::Faulty(fault) => Ok(TrialAnswer::Faulty(Response::Faulty(fault))),
            ParsedLine::TooLong => Ok(TrialAnswer::Faulty(Response::TooLong)),
            ParsedLine::Asked(_) => Ok(TrialAnswer::Other),
        }
    }

    /// The transaction as a block of an entry, which a replica reads as the operations that were tried, of which all
    /// were told. None, where records wait: they are loaded or put before.
    ///
    /// # Errors
    /// NoMemory, where memory was refused.
    pub fn into_block(self, alloc: Global) -> Result<Option<Block>, NoMemory>
        ensures waits { IfOk result (λ block. is_some block ≡ not (records_wait self.session)) }
        ensures read { (own : List BlockLine) → HasLines own self → IfOk result (λ block. IfSome block (λ entry.
            AsksOps entry.lines.items (told_lines entry.told) (asked_ops [] own) (length (asked_ops [] own)))) }
        ensures lines { IfOk result (λ block. IfSome block (λ entry. entry.lines.items ≡ self.lines)) }
        ensures none { self.answered ≡ 0 → IfOk result (λ block. IfSome block (λ entry. entry.told ≡ None)) }
        ensures told { 0 < self.answered → IfOk result (λ block. IfSome block (λ entry. entry.told ≡
            Some (record { lines = self.answered; digest = self.transaction.digest }))) }
    {
        let LineTransaction {
            transaction,
            session,
            lines,
            tried: _,
            answered,
            answers_left: _,
            is_over: _,
        } = self;
        if records_wait(session) {
            return Ok(None);
        }
        let told = told_of(alloc, transaction, answered)?;
        Ok(Some(Block { lines, told }))
    }

    // Tries an operation with what waits.
    fn operation<M: Machine, D: Digest>(
        &mut self,
        alloc: Global,
        machine: &mut M,
        digest: &D,
        trial: &mut OpenTrial<D::Running>,
        line: &[u8],
        op: Op,
    ) -> Result<TrialAnswer, NoMemory>
        requires stands { StandsBy (M.idle machine.old) (M.inside machine.old) D.holds (M.map machine.old) trial.old }
        requires one { HasNoLf line.now }
        requires not_over { self.old.is_over ≡ false }
        requires room { has_room self.old line.now ≡ true }
        requires answer_room { has_answer_room self.old op ≡ true }
        requires asks { parsed (line_of line.now) ≡ Asked (Request.Do op) }
        ensures stands { OnOk result
            (StandsBy (M.idle machine.new) (M.inside machine.new) D.holds (M.map machine.new) trial.new) }
        ensures same { OnOk result (M.map machine.new ≡ M.map machine.old) }
        ensures answered { (own : List BlockLine) → HasLines own self.old →
            IfOk result (λ answer.
            IsLineAnswered D.digest_of own self.old line.now (M.map machine.old) answer self.new) }
    {
        // It is over, should memory be refused.
        self.is_over = true;
        let whole = take_along(&mut self.session, op)?;
        trial.keep_for(alloc, machine, &self.lines[..self.tried])?;
        match self
            .transaction
            .trial(machine, digest, &mut trial.digest, whole)
        {
            Err(TrialFault::NoMemory) => Err(NoMemory),
            Err(TrialFault::Conflict) => Ok(TrialAnswer::Conflict),
            Ok(reply) => {
                let text = reply_text(alloc, &reply)?;
                put_line(&mut self.lines, line)?;
                trial.go_on(&self.lines)?;
                self.tried = self.lines.as_slice().len();
                self.answered += 1;
                self.answers_left = self.answers_left.saturating_sub(text.as_slice().len());
                self.is_over = false;
                Ok(TrialAnswer::Reply(reply))
            }
        }
    }

    // Has records wait.
    fn staging(&mut self, line: &[u8], records: Records) -> Result<Response, NoMemory>
        requires one { HasNoLf line.now }
        requires not_over { self.old.is_over ≡ false }
        requires room { has_room self.old line.now ≡ true }
        requires asks { parsed (line_of line.now) ≡ Asked (Request.Stage records) }
        ensures { (own : List BlockLine) → HasLines own self.old →
            IfOk result (λ response. IsStage own self.old line.now response self.new) }
    {
        // It is over, should memory be refused.
        self.is_over = true;
        let response = stage(&mut self.session, records)?;
        put_line(&mut self.lines, line)?;
        self.answered += 1;
        self.is_over = false;
        Ok(response)
    }

    // Whether the block has room for the line.
    fn has_room(&self, line: &[u8]) -> bool
        ensures { result ≡ has_room self.now line.now }
    {
        let counted = 99 * (self.answered as usize) + 100;
        let bytes = self.lines.len().saturating_add(line.len());
        bytes.saturating_add(counted) <= MAX_LINES_LEN
    }

    // Whether its answers have room for any to the operation.
    fn has_answer_room(&self, op: &Op) -> bool
        ensures { result ≡ has_answer_room self.now op.now }
    {
        longest_answer(op) <= self.answers_left
    }
}

// A line after the others, with its LF.
fn put_line(lines: &mut Vec<u8>, line: &[u8]) -> Result<(), NoMemory>
    ensures { OnOk result (lines.new.items ≡ lines.old.items ++ (line.now ++ 10 ∷ [])) }
{
    lines.extend_from_slice(line)?;
    lines.push(b'\n')?;
    Ok(())
}

// Bytes that no answer to the operation goes beyond.
fn longest_answer(op: &Op) -> usize
    ensures { result ≡ longest_answer op.now }
{
    if !op.is_bounded() {
        return MAX_SHORT_LEN;
    }
    match op {
        Op::Scan(_, most) | Op::ScanBack(_, most) => {
            MAX_SHORT_LEN + MAX_ROW_LEN * (*most as usize)
        }
        _ => MAX_SHORT_LEN,
    }
}

// Whether records wait in its transaction: then COMMIT isn't the store's to answer.
fn records_wait(mut session: Session) -> bool
    ensures { result ≡ records_wait session }
{
    let commit = session.action(ParsedLine::Asked(Request::Commit));
    matches!(commit, Action::Answer(Response::StillStaged))
}

// What was told, where some lines were answered.
fn told_of(alloc: Global, transaction: Transaction, answered: u32) -> Result<Option<Told>, NoMemory>
    ensures none { answered ≡ 0 → IfOk result (λ told. told ≡ None) }
    ensures some { 0 < answered → IfOk result (λ told. told ≡
        Some (record { lines = answered; digest = transaction.digest })) }
{
    let am_replica::Block {
        ops,
        told: _,
        digest,
    } = transaction.into_block(alloc, &[])?;
    drop(ops);
    if answered == 0 {
        return Ok(None);
    }
    Ok(Some(Told {
        lines: answered,
        digest,
    }))
}
