//! The desk.

ghost use Rattle.std.specs.Prelude.{◌≡◌, ◌<◌, ◌^◌, ◌++◌, [], Some, None, IfOk, OnOk, IfErr, IfSome};
ghost use Rattle.am_line_source.specs.Lines.{has_lf, pieces_of, HasNoLf};
ghost use Rattle.am_replica_store.specs.Alone.{IsIdle, at_rest, committed_map};
ghost use Rattle.am_replica_desk.specs.Desks.{first_desk, commits_at, StandsAt};
ghost use Rattle.am_replica_desk.specs.Calls.{TakesText, TakesTrialLine, PutsBlock, KeepsUp, Renews, Restores};
ghost use Rattle.am_replica_desk.specs.Calls.{AppliesText, TakesTrialLines, IsTriedOn, AreLinesTried, line_told};
ghost use Rattle.am_replica_desk.specs.Calls.{upkeep_step, IsStepTaken};

use crate::fault::Fault;
use am_line_dialogue::ParsedLine;
use am_line_wire::{Request, reply_text};
use am_record::{HashKey, NoMemory, Reply};
use am_replica::Replica;
use am_replica_digest::AnswerDigest;
use am_replica_entries::entry_text;
use am_replica_lines::{cut_line, parse_cut};
use am_replica_outcomes::{take_text, trial_text};
use am_replica_records::renewed;
use am_replica_store::ReplicaStore;
use am_replica_texts::{EntryOutcome, apply_text};
use am_replica_trials::{LineTransaction, OpenTrial};
use sha2::Sha256;
use std::alloc::Global;
use std::marker::Model;
use std::mem::replace;

type OwnReplica = Replica<ReplicaStore, AnswerDigest>;

/// A replica over a store of its own, and the answer to the last call.
pub struct Desk {
    alloc: Global,
    // None, once it ended.
    replica: Option<OwnReplica>,
    // What the last line of a transaction left open in its store.
    trial: OpenTrial<Sha256>,
    answer: Vec<u8>,
}

// By hand: a crate above then need not prove once more how the store is dropped.
impl Drop for Desk {
    fn drop(self) {
        let Desk {
            alloc: _,
            replica,
            trial,
            answer,
        } = self;
        drop(replica);
        drop(trial);
        drop(answer);
    }
}

impl Model for Desk {
    ghost use Rattle.std.specs.Prelude.{option_map, MatchOption};
    ghost use Rattle.am_replica_store.specs.Alone.{at_rest};
    ghost use Rattle.am_replica_desk.specs.Desks.{DeskState, desk_code, StandsAt};

    ghost Value = { DeskState };

    ghost coded = { desk_code };

    ghost view = { λ d. record {
      replica = option_map (λ r. record { store = at_rest r.machine; commits = r.commits }) d.replica;
      answer = d.answer.items;
    } };

    ghost invariant = { λ d. MatchOption d.replica (Unit {0}) (λ r. StandsAt r.machine d.trial) };
}

impl Desk {
    /// One with no records and no commits.
    ///
    /// # Errors
    /// NoMemory, where memory was refused.
    pub fn new(alloc: Global, hash: HashKey) -> Result<Desk, NoMemory>
        ensures { IfOk result (λ desk. desk ≡ first_desk) }
    {
        let machine = ReplicaStore::new(alloc, hash)?;
        Ok(Desk {
            alloc,
            replica: Some(Replica {
                machine,
                digest: AnswerDigest::new(alloc),
                commits: 0,
            }),
            trial: OpenTrial::none(alloc),
            answer: Vec::new(alloc),
        })
    }

    /// The answer to the last call.
    pub fn answer(&self) -> &[u8]
        ensures { result.now ≡ self.now.answer }
    {
        &self.answer
    }

    /// How many blocks of the log committed; none, once the replica ended.
    pub fn commits(&self) -> Option<u64>
        ensures { result ≡ commits_at self.now }
    {
        Some(self.replica.as_ref()?.commits)
    }

    /// Takes the text of an entry in its turn: the answer is what the clients of its blocks are told, one after
    /// another.
    ///
    /// # Errors
    /// NoEntry, Ended.
    pub fn take_text(&mut self, text: &[u8]) -> Result<(), Fault>
        ensures { TakesText text.now self.old result self.new }
    {
        let mut replica = self.lend_out()?;
        match take_text(&mut replica, self.alloc, text) {
            Err(NoMemory) => Err(Fault::Ended),
            Ok(None) => {
                self.put_back(replica, Vec::new(self.alloc));
                Err(Fault::NoEntry)
            }
            Ok(Some(told)) => {
                self.put_back(replica, told);
                Ok(())
            }
        }
    }

    /// Takes the text of an entry in its turn, of whose blocks no client is to be told: the answer is empty.
    ///
    /// # Errors
    /// NoEntry, Ended.
    pub fn apply_text(&mut self, text: &[u8]) -> Result<(), Fault>
        ensures { AppliesText text.now self.old result self.new }
    {
        let mut replica = self.lend_out()?;
        let Ok(outcome) = apply_text(&mut replica, self.alloc, text) else {
            return Err(Fault::Ended);
        };
        self.put_back(replica, Vec::new(self.alloc));
        match outcome {
            EntryOutcome::Applied(_) => Ok(()),
            EntryOutcome::Nothing => Err(Fault::NoEntry),
        }
    }

    /// Tries a line of a transaction, without its LF, where the store stands now: the answer is the line's. It is empty
    /// where the session answers the line. The transaction stays open in the store until another call needs that, so a
    /// line costs no more than its operation where the next call is the transaction's next line.
    ///
    /// # Errors
    /// OtherLine, where an LF is among it; Ended.
    pub fn take_line(&mut self, transaction: &mut LineTransaction, line: &[u8]) -> Result<(), Fault>
        ensures { TakesTrialLine line.now self.old transaction.old result self.new transaction.new }
    {
        let (mut replica, mut trial) = self.lend_open()?;
        let alloc = self.alloc;
        if has_lf(line) {
            self.put_open(replica, trial, Vec::new(alloc));
            return Err(Fault::OtherLine);
        }
        let Ok(told) = try_line(alloc, &mut replica, &mut trial, transaction, line) else {
            return Err(Fault::Ended);
        };
        self.put_open(replica, trial, told);
        Ok(())
    }

    /// Tries the lines of a text one after another, each as [`Desk::take_line`] does: the answer has a line for each,
    /// which is empty where the session answers it.
    ///
    /// # Errors
    /// Ended.
    pub fn take_lines(
        &mut self,
        transaction: &mut LineTransaction,
        text: &[u8],
    ) -> Result<(), Fault>
        ensures { TakesTrialLines text.now self.old transaction.old result self.new transaction.new }
    {
        let (mut replica, mut trial) = self.lend_open()?;
        let alloc = self.alloc;
        let Ok(told) = try_lines(alloc, &mut replica, &mut trial, transaction, text) else {
            return Err(Fault::Ended);
        };
        self.put_open(replica, trial, told);
        Ok(())
    }

    /// Takes a MERGE or a CLEAN: the answer is the store's.
    ///
    /// # Errors
    /// OtherLine, Ended.
    pub fn keep_up(&mut self, line: &[u8]) -> Result<(), Fault>
        ensures { KeepsUp line.now self.old result self.new }
    {
        let mut replica = self.lend_out()?;
        let asked = parse_cut(self.alloc, line);
        let Some(reply) = take_step(&mut replica.machine, &asked) else {
            self.put_back(replica, Vec::new(self.alloc));
            return Err(Fault::OtherLine);
        };
        let Ok(text) = reply_text(self.alloc, &reply) else {
            return Err(Fault::Ended);
        };
        self.put_back(replica, text);
        Ok(())
    }

    /// Gives the replica another store with the same records, before this one is out of runs. The answer is empty.
    ///
    /// # Errors
    /// Ended.
    pub fn renew(&mut self, hash: HashKey) -> Result<(), Fault>
        ensures { Renews self.old result self.new }
    {
        let Replica {
            machine,
            digest,
            commits,
        } = self.lend_out()?;
        let mut old = machine;
        let Ok(fresh) = ReplicaStore::new(self.alloc, hash) else {
            return Err(Fault::Ended);
        };
        let Ok(machine) = renewed(self.alloc, &mut old, fresh) else {
            return Err(Fault::Ended);
        };
        let replica = Replica {
            machine,
            digest,
            commits,
        };
        self.put_back(replica, Vec::new(self.alloc));
        Ok(())
    }

    /// Says how many blocks had committed when the snapshot was written whose records the store has.
    ///
    /// # Errors
    /// Ended.
    pub fn restore(&mut self, commits: u64) -> Result<(), Fault>
        ensures { Restores commits self.old result self.new }
    {
        let mut replica = self.lend_out()?;
        replica.commits = commits;
        self.put_back(replica, Vec::new(self.alloc));
        Ok(())
    }

    /// Makes a transaction a block: the answer is the text of an entry that has it alone.
    ///
    /// # Errors
    /// Staged, where its records wait; Ended.
    pub fn put_block(&mut self, transaction: LineTransaction) -> Result<(), Fault>
        ensures { PutsBlock transaction self.old result self.new }
    {
        let replica = self.lend_out()?;
        let Ok(made) = transaction.into_block(self.alloc) else {
            return Err(Fault::Ended);
        };
        let Some(block) = made else {
            self.put_back(replica, Vec::new(self.alloc));
            return Err(Fault::Staged);
        };
        if block.lines.len() > u32::MAX as usize {
            return Err(Fault::Ended);
        }
        let Ok(text) = entry_text(self.alloc, &[block]) else {
            return Err(Fault::Ended);
        };
        self.put_back(replica, text);
        Ok(())
    }

    // Takes the replica, where there is one that can count on, and forgets the last answer: it has ended, unless it is
    // put back. No trial is open in it.
    fn lend_out(&mut self) -> Result<OwnReplica, Fault>
        ensures lent { IfOk result (λ r. self.old.replica ≡ Some (record { store = r.machine; commits = r.commits })) }
        ensures idle { IfOk result (λ r. IsIdle r.machine) }
        ensures countable { IfOk result (λ r. r.commits < 2 ^ 63) }
        ensures ended { IfErr result (λ why. why ≡ Fault.Ended) }
        ensures gone { self.new.replica ≡ None }
        ensures no_answer { self.new.answer ≡ [] }
    {
        let (mut replica, trial) = self.lend_open()?;
        drop(trial);
        replica.machine.settle();
        Ok(replica)
    }

    fn put_back(&mut self, replica: OwnReplica, answer: Vec<u8>)
        requires { IsIdle replica.machine }
        ensures replica { self.new.replica ≡ Some (record { store = replica.machine; commits = replica.commits }) }
        ensures answer { self.new.answer ≡ answer.items }
    {
        let none = OpenTrial::none(self.alloc);
        self.put_open(replica, none, answer);
    }

    // The same, with the trial that is open in it.
    fn lend_open(&mut self) -> Result<(OwnReplica, OpenTrial<Sha256>), Fault>
        ensures lent { IfOk result (λ lent.
            self.old.replica ≡ Some (record { store = at_rest lent.0.machine; commits = lent.0.commits })) }
        ensures stands { IfOk result (λ lent. StandsAt lent.0.machine lent.1) }
        ensures countable { IfOk result (λ lent. lent.0.commits < 2 ^ 63) }
        ensures ended { IfErr result (λ why. why ≡ Fault.Ended) }
        ensures gone { self.new.replica ≡ None }
        ensures no_answer { self.new.answer ≡ [] }
    {
        self.answer = Vec::new(self.alloc);
        let trial = replace(&mut self.trial, OpenTrial::none(self.alloc));
        let Some(replica) = self.replica.take() else {
            return Err(Fault::Ended);
        };
        if replica.commits >= 1 << 63 {
            return Err(Fault::Ended);
        }
        Ok((replica, trial))
    }

    fn put_open(&mut self, replica: OwnReplica, trial: OpenTrial<Sha256>, answer: Vec<u8>)
        requires { StandsAt replica.machine trial }
        ensures replica { self.new.replica ≡
            Some (record { store = at_rest replica.machine; commits = replica.commits }) }
        ensures answer { self.new.answer ≡ answer.items }
    {
        self.replica = Some(replica);
        self.trial = trial;
        self.answer = answer;
    }
}

// Tries a line: what it is told, nothing where the session answers it.
fn try_line(
    alloc: Global,
    replica: &mut OwnReplica,
    trial: &mut OpenTrial<Sha256>,
    transaction: &mut LineTransaction,
    line: &[u8],
) -> Result<Vec<u8>, NoMemory>
    requires stands { StandsAt replica.old.machine trial.old }
    requires one { HasNoLf line.now }
    ensures stands { OnOk result (StandsAt replica.new.machine trial.new) }
    ensures same { OnOk result (committed_map replica.new.machine ≡ committed_map replica.old.machine) }
    ensures commits { replica.new.commits ≡ replica.old.commits }
    ensures told { IfOk result (λ told.
        IsTriedOn (committed_map replica.old.machine) transaction.old line.now told.items transaction.new) }
{
    let answered = transaction.take(alloc, &mut replica.machine, &replica.digest, trial, line)?;
    trial_text(alloc, &answered)
}

// Tries lines one after another: a line for each.
fn try_lines(
    alloc: Global,
    replica: &mut OwnReplica,
    trial: &mut OpenTrial<Sha256>,
    transaction: &mut LineTransaction,
    text: &[u8],
) -> Result<Vec<u8>, NoMemory>
    requires stands { StandsAt replica.old.machine trial.old }
    ensures stands { OnOk result (StandsAt replica.new.machine trial.new) }
    ensures same { OnOk result (committed_map replica.new.machine ≡ committed_map replica.old.machine) }
    ensures commits { replica.new.commits ≡ replica.old.commits }
    ensures told { IfOk result (λ told. AreLinesTried (committed_map replica.old.machine) (pieces_of text.now)
        transaction.old told.items transaction.new) }
{
    let mut told = Vec::new(alloc);
    let mut rest = text;
    while !rest.is_empty() {
        let (line, after) = cut_line(rest);
        let first = try_line(alloc, replica, trial, transaction, line)?;
        put_line(&mut told, &first)?;
        rest = after;
    }
    Ok(told)
}

// A line that was told behind the others, an empty one where nothing was.
fn put_line(told: &mut Vec<u8>, line: &[u8]) -> Result<(), NoMemory>
    ensures { OnOk result (told.new.items ≡ told.old.items ++ line_told line.now) }
{
    if line.is_empty() {
        told.push(b'\n')?;
        return Ok(());
    }
    told.extend_from_slice(line)?;
    Ok(())
}

// The store's reply, where the line merges or cleans.
fn take_step(machine: &mut ReplicaStore, asked: &ParsedLine) -> Option<Reply>
    requires { IsIdle machine.old }
    ensures taken { IfSome result (λ reply. IsStepTaken (upkeep_step asked.now) machine.old reply machine.new) }
    ensures other { result ≡ None → (upkeep_step asked.now ≡ None) × (machine.new ≡ machine.old) }
    ensures idle { IsIdle machine.new }
{
    match asked {
        ParsedLine::Asked(Request::Merge(limit)) => Some(machine.merge(*limit)),
        ParsedLine::Asked(Request::Clean(range, limit)) => Some(machine.clean(*range, *limit)),
        _ => None,
    }
}

fn has_lf(line: &[u8]) -> bool
    ensures { result ≡ has_lf line.now }
{
    line.iter().position(|byte| *byte == b'\n').is_some()
}
