//! The store.

ghost use Rattle.std.specs.Prelude.{◌≡◌, ◌+◌, ◌≤◌, ◌^◌, [], ◌∷◌, true, length, IfOk};
ghost use Rattle.am_record.specs.Limits.{max_runs, last_run};
ghost use Rattle.am_record.specs.Plain.{is_rising};
ghost use Rattle.am_record.specs.declared.step.Op.TheVariants.{Load};
ghost use Rattle.am_record.specs.declared.step.Step.TheVariants.{Do};
ghost use Rattle.am_record.specs.declared.step.Refusal.{Refusal as TheRefusal};
ghost use Rattle.am_record.specs.declared.step.Refusal.TheVariants.{NoMemory as OutOfMemory};
ghost use Rattle.am_index.specs.Entries.{next_ghost};
ghost use Rattle.am_index.specs.Rooms.{KeepRoom};
ghost use Rattle.am_law_sound.specs.StoreState.{empty_state, IsFit, MayAnswer, state_after};
ghost use Rattle.am_index_parts.specs.Figures.{AreFigures};
ghost use Rattle.am_store_merge.specs.Fronts.{IsNextInRuns};
ghost use Rattle.am_store.specs.Memory.{may_want_memory};
ghost use Rattle.am_store.specs.StoreSteps.{IsSoundAt, Extends, IsWithin, KeepsContent};
ghost use Rattle.am_store.specs.InnerState.{inner_state, HasRooms};

use crate::asked_operation::SourceLoad;
use crate::entries::all_entries;
use crate::inner::Inner;
use am_index::{Figures, PartIndex, RecordSource};
use am_index_parts::Parts;
use am_record::{Entry, HashKey, Key, MAX_RUNS, NoMemory, Range, Reply, Step};
use am_store_merge::{Wishes, next_in_runs};
use am_store_tx::TxTable;
use std::alloc::Global;
use std::marker::Model;

/// A transactional store over a partitioned index.
pub struct Store<I: PartIndex + Drop> {
    // On the heap, since it is large: so a store is moved by a pointer.
    inner: Box<Inner<I>>,
}

// By hand: a crate above then need not prove once more how each part of a store is dropped.
impl<I: PartIndex + Drop> Drop for Store<I> {
    fn drop(self) {
        let Store { inner } = self;
        drop(inner);
    }
}

impl<I: PartIndex + Drop> Model for Store<I> {
    ghost use Rattle.am_law_sound.specs.StoreState.{StoreState};
    ghost use Rattle.am_store.specs.StoreContent.{state_code, IsReached};
    ghost use Rattle.am_store.specs.InnerState.{inner_state, HasRooms};

    ghost Value = { StoreState };

    ghost coded = { state_code };

    ghost view = { λ s. inner_state s.inner.value };

    ghost invariant = { λ s. IsReached (inner_state s.inner.value) × HasRooms s.inner.value };
}

impl<I: PartIndex + Drop> Store<I> {
    /// A store over an empty index, which makes 65,535 runs at most. By the hash key the keys of runs have numbers: no
    /// answer depends on it.
    ///
    /// # Errors
    /// NoMemory, where memory was refused for the ring of wishes, the tables or what holds them.
    pub fn open(alloc: Global, index: I, hash: HashKey) -> Result<Store<I>, NoMemory>
        requires { I.entries index ≡ [] }
        ensures empty { IfOk result (λ store. store ≡ empty_state max_runs) }
        ensures stands { IfOk result (λ store. IsSoundAt [] store) }
    {
        Store::open_for(alloc, index, hash, MAX_RUNS)
    }

    /// The same of a store that makes so many runs at most, 4,294,967,294 or fewer.
    ///
    /// # Errors
    /// NoMemory, as above.
    pub fn open_for(
        alloc: Global,
        index: I,
        hash: HashKey,
        most_runs: u32,
    ) -> Result<Store<I>, NoMemory>
        requires empty { I.entries index ≡ [] }
        requires few { most_runs ≤ last_run }
        ensures empty { IfOk result (λ store. store ≡ empty_state most_runs) }
        ensures stands { IfOk result (λ store. IsSoundAt [] store) }
    {
        am_law_sound::steps_lift();
        let wishes = Wishes::new(alloc)?;
        let parts = Parts::new(alloc, index, hash);
        // Asked here, each value is known to have its room.
        prove!(parts.runs() <= 4294967294);
        let inner = Inner {
            alloc,
            parts,
            txs: TxTable::new(alloc)?,
            wishes,
            commits: 0,
            most_runs,
        };
        Ok(Store {
            inner: Box::new(alloc, inner)?,
        })
    }

    /// Takes one step, whole, and answers it. What a step owes is said by what the store keeps
    /// before it, and wherever the store stood, it stands there with this step added: so the trace of
    /// all its steps is sound at each moment.
    pub fn step(&mut self, step: Step) -> Reply
        ensures says { MayAnswer self.old step result }
        ensures after { self.new ≡ state_after self.old step result }
        ensures goes { Extends self.old ((step, result) ∷ []) self.new }

        // A refused step leaves the store as it was.
        ensures refused { (why : TheRefusal) → result ≡ Reply.Refused why → self.new ≡ self.old }
        ensures memory { result ≡ Reply.Refused OutOfMemory → may_want_memory self.old step ≡ true }

        // A Merge or a Clean leaves the content as it was.
        ensures content { KeepsContent self.old step self.new }
        ensures within { IsWithin step result }
    {
        am_law_sound::steps_lift();
        step_there(&mut self.inner, step)
    }

    /// Loads the records of a source, which rise, one or more: the step `Do(tx, Load(records))`. None of them is copied
    /// but to where it stays in the index.
    pub fn load<S: RecordSource>(&mut self, tx: u64, source: &S) -> Reply
        requires { is_rising (S.records source.now) ≡ true }
        ensures says { MayAnswer self.old (Do tx (Load (S.records source.now))) result }
        ensures after { self.new ≡ state_after self.old (Do tx (Load (S.records source.now))) result }
        ensures goes { Extends self.old ((Do tx (Load (S.records source.now)), result) ∷ []) self.new }

        // A refused load leaves the store as it was.
        ensures refused { (why : TheRefusal) → result ≡ Reply.Refused why → self.new ≡ self.old }
        ensures memory { result ≡ Reply.Refused OutOfMemory →
            may_want_memory self.old (Do tx (Load (S.records source.now))) ≡ true }
    {
        am_law_sound::steps_lift();
        load_there(&mut self.inner, tx, source)
    }

    /// The entries of all partitions, ghosts too, by partition and key.
    ///
    /// # Errors
    /// NoMemory, where memory was refused.
    pub fn entries(&self, alloc: Global) -> Result<Vec<Entry>, NoMemory>
        ensures { IfOk result (λ entries. entries.items ≡ self.now.entries) }
    {
        all_entries(alloc, &self.inner.parts)
    }

    /// How many entries there are, final and in runs. It costs no look into the index.
    pub fn figures(&self) -> Figures
        ensures { AreFigures self.now.entries result }
    {
        self.inner.parts.figures()
    }

    /// The first ghost at or above the place of a partition and key. It may be one of a later
    /// partition.
    pub fn next_ghost(&self, part: u32, key: Key) -> Option<Entry>
        ensures { result ≡ next_ghost self.now.entries part key }
    {
        self.inner.parts.next_ghost(part, key)
    }

    /// The next piece of the range to merge where nobody asked: the range up to the first key at which a run has its
    /// sixteenth entry of it, live or ghost, or all of it where no run has so many. None, where no run has an entry in
    /// the range. It wants no memory.
    pub fn next_in_runs(&self, range: Range) -> Option<Range>
        ensures { IsNextInRuns self.now.entries range result }
    {
        next_in_runs(&self.inner.parts, range)
    }

    /// How many transactions are active.
    pub fn active(&self) -> u64
        ensures { result ≡ length self.now.active }
    {
        self.inner.txs.active() as u64
    }

    /// How many transactions committed.
    pub fn commits(&self) -> u64
        ensures { result ≡ self.now.commits }
    {
        self.inner.commits
    }
}

// Takes the step where the store stands.
fn step_there<I: PartIndex + Drop>(inner: &mut Box<Inner<I>>, step: Step) -> Reply
    requires fit { IsFit (inner_state inner.old.value) }
    requires few { inner.old.value.commits + length inner.old.value.txs.active ≤ 2 ^ 63 }
    requires room { HasRooms inner.old.value }
    requires runs { inner.old.value.most_runs ≤ last_run }
    ensures says { MayAnswer (inner_state inner.old.value) step result }
    ensures after { inner_state inner.new.value ≡ state_after (inner_state inner.old.value) step result }
    ensures memory { result ≡ Reply.Refused OutOfMemory → may_want_memory (inner_state inner.old.value) step ≡ true }
    ensures rooms { KeepRoom inner.old.value.parts.roomy inner.new.value.parts.roomy inner.new.value.parts.entries }
    ensures content { KeepsContent (inner_state inner.old.value) step (inner_state inner.new.value) }
{
    let inner = &mut **inner;
    inner.step(step)
}

// Loads the source's records where the store stands.
fn load_there<I: PartIndex + Drop, S: RecordSource>(
    inner: &mut Box<Inner<I>>,
    tx: u64,
    source: &S,
) -> Reply
    requires fit { IsFit (inner_state inner.old.value) }
    requires room { HasRooms inner.old.value }
    requires runs { inner.old.value.most_runs ≤ last_run }
    requires rising { is_rising (S.records source.now) ≡ true }
    ensures says { MayAnswer (inner_state inner.old.value) (Do tx (Load (S.records source.now))) result }
    ensures after { inner_state inner.new.value ≡
        state_after (inner_state inner.old.value) (Do tx (Load (S.records source.now))) result }
    ensures memory { result ≡ Reply.Refused OutOfMemory →
        may_want_memory (inner_state inner.old.value) (Do tx (Load (S.records source.now))) ≡ true }
    ensures rooms { KeepRoom inner.old.value.parts.roomy inner.new.value.parts.roomy inner.new.value.parts.entries }
{
    let inner = &mut **inner;
    inner.operate(tx, SourceLoad::new(source))
}
