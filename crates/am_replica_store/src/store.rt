//! The store of a replica.

ghost use Rattle.std.specs.Prelude.{◌≡◌, List, [], Some, None, IfOk, OnOk, OnErr};
ghost use Rattle.am_record.specs.Limits.{max_runs};
ghost use Rattle.am_record.specs.Plain.{PlainMap};
ghost use Rattle.am_record.specs.declared.step.Op.{Op as TheOp};
ghost use Rattle.am_replica.specs.Bodies.{reply_behind, own_behind};
ghost use Rattle.am_law_sound.specs.StoreState.{empty_state, MayAnswer, state_after};
ghost use Rattle.am_replica_store.specs.Alone.{committed_map, draft_map, IsIdle, at_rest, IsAlone, IsInside};
ghost use Rattle.am_replica_store.specs.Alone.{is_out_of_room};
ghost use Rattle.am_replica_store.specs.Alone.{IsCommitted, IsAborted};

use am_index_btree::BTree;
use am_record::{HashKey, NoMemory, Op, Range, Refusal, Reply, Step};
use am_replica::Machine;
use am_store::Store;
use std::alloc::Global;
use std::marker::Model;

/// A store with one transaction at a time, which is run, may go on, and is then committed or aborted.
pub struct ReplicaStore {
    alloc: Global,
    store: Store<BTree>,
    // The transaction that is active.
    active: Option<u64>,
}

// By hand: a crate above then need not prove once more how the store is dropped.
impl Drop for ReplicaStore {
    fn drop(self) {
        let ReplicaStore {
            alloc: _,
            store,
            active: _,
        } = self;
        drop(store);
    }
}

impl Model for ReplicaStore {
    ghost use Rattle.am_law_sound.specs.StoreState.{StoreState};
    ghost use Rattle.am_store.specs.StoreContent.{state_code};
    ghost use Rattle.am_replica_store.specs.Alone.{IsAlone};

    ghost Value = { StoreState };

    ghost coded = { state_code };

    ghost view = { λ s. s.store };

    ghost invariant = { λ s. IsAlone s.store s.active };
}

impl ReplicaStore {
    /// A store with no records.
    ///
    /// # Errors
    /// NoMemory, where memory was refused.
    pub fn new(alloc: Global, hash: HashKey) -> Result<ReplicaStore, NoMemory>
        ensures { IfOk result (λ store. store ≡ empty_state max_runs) }
    {
        let store = Store::open(alloc, BTree::new(alloc)?, hash)?;
        Ok(ReplicaStore {
            alloc,
            store,
            active: None,
        })
    }

    /// Takes back what the transaction did that is active, where one is.
    pub fn settle(&mut self)
        ensures rests { self.new ≡ at_rest self.old }
        ensures idle { IsIdle self.new }
        ensures same { committed_map self.new ≡ committed_map self.old }
    {
        if let Some(tx) = self.active {
            abort(&mut self.store, tx);
            self.active = None;
        }
    }

    /// Merges what was read, at most so many entries, between two transactions. No answer changes by it.
    pub fn merge(&mut self, limit: u64) -> Reply
        requires { IsIdle self.old }
        ensures says { MayAnswer self.old (Step.Merge limit) result }
        ensures after { self.new ≡ state_after self.old (Step.Merge limit) result }
        ensures same { committed_map self.new ≡ committed_map self.old }
        ensures idle { IsIdle self.new }
    {
        self.store.step(Step::Merge(limit))
    }

    /// Lets places go that transactions left after, at most so many of the range, between two transactions. No answer
    /// changes by it.
    pub fn clean(&mut self, range: Range, limit: u64) -> Reply
        requires { IsIdle self.old }
        ensures says { MayAnswer self.old (Step.Clean range limit) result }
        ensures after { self.new ≡ state_after self.old (Step.Clean range limit) result }
        ensures same { committed_map self.new ≡ committed_map self.old }
        ensures idle { IsIdle self.new }
    {
        self.store.step(Step::Clean(range, limit))
    }
}

impl Machine for ReplicaStore {
    ghost map = { committed_map };

    ghost draft = { draft_map };

    ghost idle = { IsIdle };

    ghost inside = { λ p own m. IsInside p p.begun own m };

    fn run(&mut self, ops: &[Op]) -> Result<Vec<Reply>, NoMemory> {
        am_law_sound::steps_lift();
        let mut told = Vec::with_capacity(self.alloc, ops.len())?;
        let tx = begin(&mut self.store)?;
        self.active = Some(tx);
        for op in ops {
            let reply = answer(self.alloc, &mut self.store, tx, op)?;
            told.push(reply)?;
        }
        Ok(told)
    }

    fn go_on(&mut self, op: &Op) -> Result<Reply, NoMemory> {
        am_law_sound::steps_lift();
        let Some(tx) = self.active else {
            return Err(NoMemory);
        };
        answer(self.alloc, &mut self.store, tx, op)
    }

    fn commit(&mut self) -> Result<(), NoMemory> {
        if let Some(tx) = self.active {
            commit(&mut self.store, tx);
            self.active = None;
        }
        Ok(())
    }

    fn abort(&mut self) -> Result<(), NoMemory> {
        self.settle();
        Ok(())
    }
}

// Begins a transaction, where none is active.
fn begin(store: &mut Store<BTree>) -> Result<u64, NoMemory>
    ensures goes { IsAlone store.old None → IfOk result (λ tx. IsInside store.new tx [] (draft_map store.old)) }
    ensures same { IsAlone store.old None → OnErr result (store.new ≡ store.old) }
{
    am_law_sound::steps_lift();
    match store.step(Step::Begin) {
        Reply::Begun(tx) => Ok(tx),
        _ => Err(NoMemory),
    }
}

// The answer to an operation of the transaction. What the store refuses for its own past would be granted by a store
// with room, so it is none.
fn answer(alloc: Global, store: &mut Store<BTree>, tx: u64, op: &Op) -> Result<Reply, NoMemory>
    ensures told { (own : List TheOp) (m : PlainMap) → IsInside store.old tx own m →
        IfOk result (λ reply. reply ≡ reply_behind own m op.now) }
    ensures goes { (own : List TheOp) (m : PlainMap) → IsInside store.old tx own m →
        OnOk result (IsInside store.new tx (own_behind own op.now) m) }
    ensures same { OnErr result (store.new ≡ store.old) }
{
    let reply = store.step(Step::Do(tx, op.copy(alloc)?));
    if is_out_of_room(&reply) {
        return Err(NoMemory);
    }
    Ok(reply)
}

fn is_out_of_room(reply: &Reply) -> bool
    ensures { result ≡ is_out_of_room reply.now }
{
    matches!(
        reply,
        Reply::Refused(Refusal::NoMemory | Refusal::TooManyRuns)
    )
}

fn commit(store: &mut Store<BTree>, tx: u64)
    ensures { IsAlone store.old (Some tx) → IsCommitted store.old store.new }
{
    store.step(Step::Commit(tx));
}

fn abort(store: &mut Store<BTree>, tx: u64)
    ensures { IsAlone store.old (Some tx) → IsAborted store.old store.new }
{
    store.step(Step::Abort(tx));
}
