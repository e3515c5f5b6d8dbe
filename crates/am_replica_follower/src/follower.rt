//! A reader of the log with a replica.

ghost use Rattle.std.specs.Prelude.{◌≡◌, ◌<◌, ◌≤◌, ◌^◌, [], ◌∷◌, ◌++◌, Some, None, true, false, IfOk, OnOk};
ghost use Rattle.am_replica_log.specs.History.{History, Change, shown, counted_by, revision_of, first_behind};
ghost use Rattle.am_replica_log.specs.History.{open_pieces};
ghost use Rattle.am_replica_log.specs.LogState.{LogState};
ghost use Rattle.am_replica_log.specs.Readers.{is_known, is_stray};
ghost use Rattle.am_replica.specs.Ordered.{Ordered};
ghost use Rattle.am_replica_follower.specs.Following.{Follows, IsTaken, IsTold};
ghost use Rattle.am_replica_follower.specs.Joining.{Joins, IsLeftAt};

use am_record::NoMemory;
use am_replica::{Digest, Machine, Replica};
use am_replica_log::{Entry, Event, Floor, Log, LogFault};
use am_replica_texts::{EntryOutcome, apply_text};
use std::alloc::Global;

/// Where a reader of the log stands, and the replica that the entries lead to.
#[derive(Drop)]
pub struct Follower<M: Machine + Drop, D: Digest + Drop> {
    pub log: Log,
    pub replica: Replica<M, D>,
    /// What counts up to this revision is in the replica already.
    pub known: u64,
    pub alloc: Global,
}

impl<M: Machine + Drop, D: Digest + Drop> Follower<M, D> {
    /// At the log's beginning.
    pub fn new(alloc: Global, replica: Replica<M, D>) -> Follower<M, D>
        ensures same { result.replica ≡ replica }
        ensures known { result.known ≡ 0 }
        ensures begun { (start : Ordered) →
            start ≡ record { map = M.map replica.machine; commits = replica.commits } →
            Follows D.digest_of start [] result.log start }
    {
        Follower {
            log: Log::new(alloc),
            replica,
            known: 0,
            alloc,
        }
    }

    /// By the snapshot that the floor names: a store with its records, their commits, and the revision up to which
    /// whoever wrote it had read the log. The log is read on from [`Log::first_behind`] of that revision, which the
    /// snapshot notes.
    pub fn begin_at(
        alloc: Global,
        machine: M,
        digest: D,
        commits: u64,
        floor: Floor,
        revision: u64,
    ) -> Follower<M, D>
        requires { 0 < floor.snapshot.generation }
        ensures machine { result.replica.machine ≡ machine }
        ensures digest { result.replica.digest ≡ digest }
        ensures commits { result.replica.commits ≡ commits }
        ensures known { result.known ≡ revision }
        ensures joins { (start : Ordered) (read before : History) (writer : LogState) →
            Follows D.digest_of start (read ++ before) writer (record { map = M.map machine; commits = commits }) →
            IsLeftAt floor revision (read ++ before) →
            revision_of before ≡ first_behind revision (open_pieces (read ++ before)) →
            Joins D.digest_of start (read ++ before) before result.log result.known
            (record { map = M.map machine; commits = commits }) }
    {
        Follower {
            log: Log::behind(alloc, floor),
            replica: Replica {
                machine,
                digest,
                commits,
            },
            known: revision,
            alloc,
        }
    }

    /// Takes a change in its turn: what became of the entry that it ends, where that counts. An entry that the snapshot
    /// has, by which the follower began, does nothing more.
    ///
    /// # Errors
    /// NoMemory, where memory was refused; WentBack, where the cluster did. The follower is no use then.
    pub fn take(
        &mut self,
        revision: u64,
        event: Event,
        text: &[u8],
    ) -> Result<Option<EntryOutcome>, LogFault>
        requires idle { M.idle self.old.replica.machine }
        requires countable { self.old.replica.commits < 2 ^ 63 }
        ensures follows { (start : Ordered) (history : History) (change : Change) →
            Follows D.digest_of start history self.old.log
            (record { map = M.map self.old.replica.machine; commits = self.old.replica.commits }) →
            self.old.known ≤ revision_of history →
            shown change history ≡ Some (record { revision = revision; event = event; text = text.now }) →
            OnOk result (Follows D.digest_of start (change ∷ history) self.new.log
            (record { map = M.map self.new.replica.machine; commits = self.new.replica.commits })) }
        ensures told { (start : Ordered) (history : History) (change : Change) →
            Follows D.digest_of start history self.old.log
            (record { map = M.map self.old.replica.machine; commits = self.old.replica.commits }) →
            self.old.known ≤ revision_of history →
            shown change history ≡ Some (record { revision = revision; event = event; text = text.now }) →
            IfOk result (λ told. IsTold D.digest_of (counted_by change history)
            (record { map = M.map self.old.replica.machine; commits = self.old.replica.commits }) told
            (record { map = M.map self.new.replica.machine; commits = self.new.replica.commits })) }
        ensures joins { (start : Ordered) (rest history : History) (change : Change) →
            Joins D.digest_of start (rest ++ change ∷ history) history self.old.log self.old.known
            (record { map = M.map self.old.replica.machine; commits = self.old.replica.commits }) →
            shown change history ≡ Some (record { revision = revision; event = event; text = text.now }) →
            OnOk result (Joins D.digest_of start (rest ++ change ∷ history) (change ∷ history) self.new.log
            self.new.known
            (record { map = M.map self.new.replica.machine; commits = self.new.replica.commits })) }
        ensures had { revision ≤ self.old.known → IfOk result (λ told. told ≡ None) }
        ensures unmoved { revision ≤ self.old.known → self.new.replica ≡ self.old.replica }
        ensures known { self.new.known ≡ self.old.known }
        ensures again { is_known self.old.log revision event ≡ true →
            (self.new.log ≡ self.old.log) × (self.new.replica ≡ self.old.replica) × (result ≡ Ok None) }
        ensures followed { OnOk result (is_stray self.old.log revision event ≡ false) }
        ensures went_back { result ≡ Err LogFault.WentBack → is_stray self.old.log revision event ≡ true }
        ensures idle { OnOk result (M.idle self.new.replica.machine) }
    {
        match self.log.take(self.alloc, revision, event, text)? {
            None => Ok(None),
            Some(entry) => {
                if revision <= self.known {
                    return Ok(None);
                }
                match take_entry(&mut self.replica, self.alloc, &entry) {
                    Ok(told) => Ok(Some(told)),
                    Err(NoMemory) => Err(LogFault::NoMemory),
                }
            }
        }
    }
}

// What becomes of an entry. One whose pieces didn't all come does nothing.
fn take_entry<M: Machine + Drop, D: Digest + Drop>(
    replica: &mut Replica<M, D>,
    alloc: Global,
    entry: &Entry,
) -> Result<EntryOutcome, NoMemory>
    requires idle { M.idle replica.old.machine }
    requires countable { replica.old.commits < 2 ^ 63 }
    ensures taken { IfOk result (λ told. IsTaken D.digest_of entry.now.text
        (record { map = M.map replica.old.machine; commits = replica.old.commits }) told
        (record { map = M.map replica.new.machine; commits = replica.new.commits })) }
    ensures idle { OnOk result (M.idle replica.new.machine) }
{
    match &entry.text {
        None => Ok(EntryOutcome::Nothing),
        Some(text) => apply_text(replica, alloc, text.as_slice()),
    }
}
