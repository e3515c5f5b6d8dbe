//! Transactions before they are blocks.

ghost use Rattle.std.specs.Prelude.{◌≡◌, ◌≢◌, ◌⊎◌, ◌++◌, [], ◌∷◌, length, true, false, None};
ghost use Rattle.std.specs.Prelude.{IfOk, OnOk, OnErr, IsSome, MatchOption};
ghost use Rattle.am_record.specs.Plain.{answers};
ghost use Rattle.am_replica.specs.declared.transaction.TrialFault.TheVariants.{NoMemory as OutOfMemory};
ghost use Rattle.am_replica.specs.Bodies.{is_given, given_ops, own_behind, reply_behind};
ghost use Rattle.am_replica.specs.Told.{IsTrialOpen, still_stands, behind_lines, untold};

use crate::block::{Block, is_same};
use crate::machine::{Digest, Machine};
use am_record::{NoMemory, Op, Reply};
use std::alloc::{AllocError, Global};
use std::marker::Model;

/// Why lines weren't answered.
#[derive(Clone, Copy, Debug, PartialEq, Eq)]
pub enum TrialFault {
    /// Memory was refused: the replica ends.
    NoMemory,
    /// Another transaction came between, so an earlier answer no longer comes. Each further line is answered so.
    Conflict,
}

impl From<NoMemory> for TrialFault {
    ghost from_gives = { λ _ fault. fault ≡ OutOfMemory };

    fn from(_error: NoMemory) -> TrialFault {
        TrialFault::NoMemory
    }
}

impl From<AllocError> for TrialFault {
    ghost from_gives = { λ _ fault. fault ≡ OutOfMemory };

    fn from(_error: AllocError) -> TrialFault {
        TrialFault::NoMemory
    }
}

/// A transaction as its session has it: the lines that were answered, and the digest of their answers.
#[derive(Drop)]
pub struct Transaction {
    ops: Vec<Op>,
    digest: [u8; 32],
    is_over: bool,
}

impl Model for Transaction {
    ghost use Rattle.std.specs.Prelude.{◌≡◌};
    ghost use Rattle.am_replica.specs.Bodies.{kept_ops};
    ghost use Rattle.am_replica.specs.Told.{TransactionState, transaction_code};

    ghost Value = { TransactionState };

    ghost coded = { transaction_code };

    ghost view = { λ t. record { ops = t.ops.items; digest = t.digest; is_over = t.is_over } };

    ghost invariant = { λ t. kept_ops t.ops.items ≡ t.ops.items };
}

impl Transaction {
    /// One that was told nothing.
    ///
    /// # Errors
    /// NoMemory, where memory was refused.
    pub fn new<D: Digest>(alloc: Global, digest: &D) -> Result<Transaction, NoMemory>
        ensures { IfOk result (λ t. t ≡ record { ops = []; digest = D.digest_of []; is_over = false }) }
    {
        Ok(Transaction {
            ops: Vec::new(alloc),
            digest: digest.digest(&[])?,
            is_over: false,
        })
    }

    /// The answer to one more operation, where the store stands now. All earlier answers have to come again: where the
    /// trial of the earlier operations is open in the store, they stand in it, and else these are run again. The trial
    /// is open then.
    ///
    /// # Errors
    /// Conflict, where they don't come, and from then on: no trial is open then. NoMemory, where memory was refused:
    /// the replica ends.
    pub fn trial<M: Machine, D: Digest>(
        &mut self,
        machine: &mut M,
        digest: &D,
        started: &mut Option<D::Running>,
        op: Op,
    ) -> Result<Reply, TrialFault>
        requires { MatchOption started.old (M.idle machine.old) (λ running.
            IsTrialOpen (M.inside machine.old) (D.holds running) self.old.ops (M.map machine.old)) }
        ensures is_open { result ≢ Err TrialFault.NoMemory → MatchOption started.new (M.idle machine.new) (λ running.
            IsTrialOpen (M.inside machine.new) (D.holds running) self.new.ops (M.map machine.new)) }
        ensures same { result ≢ Err TrialFault.NoMemory → M.map machine.new ≡ M.map machine.old }
        ensures answer { IfOk result (λ reply. untold self.old (op ∷ []) (M.map machine.old) ≡ reply ∷ []) }
        ensures stands { OnOk result (still_stands D.digest_of self.old (op ∷ []) (M.map machine.old) ≡ true) }
        ensures goes_on { OnOk result (self.new ≡ behind_lines D.digest_of self.old (op ∷ []) (M.map machine.old)) }
        ensures stays_open { OnOk result (IsSome started.new) }
        ensures conflict { result ≡ Err TrialFault.Conflict → (self.old.is_over ≡ true)
            ⊎ (still_stands D.digest_of self.old (op ∷ []) (M.map machine.old) ≡ false) }
        ensures over { result ≡ Err TrialFault.Conflict →
            self.new ≡ record { ops = self.old.ops; digest = self.old.digest; is_over = true } }
        ensures ends { result ≡ Err TrialFault.Conflict → self.old.is_over ≡ false → started.new ≡ None }
        ensures stays_over { self.old.is_over ≡ true → result ≡ Err TrialFault.Conflict }
    {
        if self.is_over {
            return Err(TrialFault::Conflict);
        }
        let mut running = self.stand(machine, digest, started.take())?;
        if !is_same(&digest.sum(&running), &self.digest) {
            machine.abort()?;
            self.is_over = true;
            return Err(TrialFault::Conflict);
        }
        let reply = self.go_on(machine, digest, &mut running, op)?;
        *started = Some(running);
        Ok(reply)
    }

    /// The transaction as a block, with lines that come together with its COMMIT and weren't answered.
    ///
    /// # Errors
    /// NoMemory, where memory was refused.
    pub fn into_block(self, alloc: Global, lines: &[Op]) -> Result<Block, NoMemory>
        ensures ops { IfOk result (λ b. b.ops.items ≡ self.ops ++ lines.now) }
        ensures told { IfOk result (λ b. b.told ≡ length self.ops) }
        ensures digest { IfOk result (λ b. b.digest ≡ self.digest) }
    {
        let Transaction {
            mut ops,
            digest,
            is_over: _,
        } = self;
        let told = ops.len();
        for line in lines {
            ops.push(line.copy(alloc)?)?;
        }
        Ok(Block { ops, told, digest })
    }

    // The digest of its answers in the trial that is open; where none is, its operations are run again.
    fn stand<M: Machine, D: Digest>(
        &self,
        machine: &mut M,
        digest: &D,
        started: Option<D::Running>,
    ) -> Result<D::Running, NoMemory>
        requires { MatchOption started (M.idle machine.old) (λ running.
            IsTrialOpen (M.inside machine.old) (D.holds running) self.now.ops (M.map machine.old)) }
        ensures is_open { IfOk result (λ running.
            IsTrialOpen (M.inside machine.new) (D.holds running) self.now.ops (M.map machine.old)) }
        ensures same { OnOk result (M.map machine.new ≡ M.map machine.old) }
    {
        if let Some(running) = started {
            return Ok(running);
        }
        let replies = machine.run(&self.ops)?;
        let mut running = digest.begin();
        for reply in &replies {
            digest.add(&mut running, reply)?;
        }
        Ok(running)
    }

    // One more operation of the trial that is open. One that is refused is forgotten.
    fn go_on<M: Machine, D: Digest>(
        &mut self,
        machine: &mut M,
        digest: &D,
        running: &mut D::Running,
        op: Op,
    ) -> Result<Reply, NoMemory>
        requires { IsTrialOpen (M.inside machine.old) (D.holds running.old) self.old.ops (M.map machine.old) }
        ensures is_open { OnOk result
            (IsTrialOpen (M.inside machine.new) (D.holds running.new) self.new.ops (M.map machine.old)) }
        ensures same { OnOk result (M.map machine.new ≡ M.map machine.old) }
        ensures answer { IfOk result (λ reply. reply ≡ reply_behind self.old.ops (M.map machine.old) op) }
        ensures ops { OnOk result (self.new.ops ≡ own_behind self.old.ops op) }
        ensures digest { OnOk result
            (self.new.digest ≡ D.digest_of (answers (own_behind self.old.ops op) (M.map machine.old))) }
        ensures over { self.new.is_over ≡ self.old.is_over }
    {
        let reply = machine.go_on(&op)?;
        digest.add(running, &reply)?;
        keep(&mut self.ops, op, &reply)?;
        self.digest = digest.sum(running);
        Ok(reply)
    }
}

// Keeps an operation that was answered so, unless it was refused.
fn keep(ops: &mut Vec<Op>, op: Op, reply: &Reply) -> Result<(), NoMemory>
    ensures kept { OnOk result (ops.new.items ≡ ops.old.items ++ given_ops (op ∷ []) (reply.now ∷ [])) }
    ensures same { OnErr result (ops.new.items ≡ ops.old.items) }
{
    if is_given(reply) {
        ops.push(op)?;
    }
    Ok(())
}

fn is_given(reply: &Reply) -> bool
    ensures { result ≡ is_given reply.now }
{
    !matches!(reply, Reply::Refused(_))
}
