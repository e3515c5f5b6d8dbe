//! The calls of a replica: it is opened and closed, takes entries, is kept up, and tells its answer.

ghost use Rattle.std.specs.Prelude.{◌≡◌, ◌++◌, None, IfOk, length, take, drop};
ghost use Rattle.am_c_steps.specs.Statuses.{status_code};
ghost use Rattle.am_replica_desk.specs.Calls.{TakesText, AppliesText, KeepsUp, Renews, Restores};
ghost use Rattle.am_replica_desk.specs.Desks.{first_desk};
ghost use Rattle.am_c_replica.specs.ReplicaCalls.{OpensReplica, replica_status, DoesCall, answer_len, answer_part};
ghost use Rattle.am_c_replica.specs.ReplicaCalls.{AreCommitsTold};

use crate::ends::{end_status, no_replica, put_back};
use crate::replica_handle::ReplicaHandle;
use am_c_steps::Status;
use am_record::{HashKey, NoMemory};
use am_replica_desk::Desk;
use std::alloc::Global;

/// Opens a replica with no records and no commits behind a handle that has none. The two words are its hash key's.
#[unsafe(no_mangle)]
pub extern "C" fn tiuvrokk_replica_open(
    alloc: Global,
    replica: &mut ReplicaHandle,
    first: u64,
    second: u64,
) -> u32
    ensures { OpensReplica replica.old.held result replica.new.held }
{
    if let Some(open) = replica.take(alloc) {
        replica.put(open);
        return Status::IsOpen.code();
    }
    match new_desk(alloc, HashKey::new(first, second)) {
        Ok(new) => {
            replica.put(new);
            Status::Fine.code()
        }
        Err(NoMemory) => Status::NoMemory.code(),
    }
}

fn new_desk(alloc: Global, hash: HashKey) -> Result<Box<Desk>, NoMemory>
    ensures { IfOk result (λ b. b.value ≡ first_desk) }
{
    let desk = Desk::new(alloc, hash)?;
    Ok(Box::new(alloc, desk)?)
}

/// Gives back all memory of the replica, and leaves the handle without one.
#[unsafe(no_mangle)]
pub extern "C" fn tiuvrokk_replica_close(alloc: Global, replica: &mut ReplicaHandle) -> u32
    ensures told { result ≡ status_code (replica_status replica.old.held) }
    ensures closed { replica.new.held ≡ None }
{
    match replica.take(alloc) {
        Some(open) => {
            drop(open);
            Status::Fine.code()
        }
        None => Status::NoStore.code(),
    }
}

/// Takes the text of an entry in its turn: the answer is what the clients of its blocks are told, and its length goes
/// out.
#[unsafe(no_mangle)]
pub extern "C" fn tiuvrokk_replica_take(
    alloc: Global,
    replica: &mut ReplicaHandle,
    text: &[u8],
    told: &mut u64,
) -> u32
    ensures call { DoesCall (TakesText text.now) replica.old.held result replica.new.held }
    ensures len { told.new ≡ answer_len replica.new.held }
{
    let Some(mut desk) = replica.take(alloc) else {
        return no_replica(told);
    };
    let ended = desk.take_text(text);
    put_back(replica, desk, end_status(ended), told)
}

/// Takes the text of an entry in its turn, of whose blocks no client is to be told: there is no answer.
#[unsafe(no_mangle)]
pub extern "C" fn tiuvrokk_replica_apply(
    alloc: Global,
    replica: &mut ReplicaHandle,
    text: &[u8],
) -> u32
    ensures { DoesCall (AppliesText text.now) replica.old.held result replica.new.held }
{
    let Some(mut desk) = replica.take(alloc) else {
        return Status::NoStore.code();
    };
    let ended = desk.apply_text(text);
    replica.put(desk);
    end_status(ended).code()
}

/// Takes a line that merges or cleans: the answer is the store's, and its length goes out.
#[unsafe(no_mangle)]
pub extern "C" fn tiuvrokk_replica_keep_up(
    alloc: Global,
    replica: &mut ReplicaHandle,
    line: &[u8],
    told: &mut u64,
) -> u32
    ensures call { DoesCall (KeepsUp line.now) replica.old.held result replica.new.held }
    ensures len { told.new ≡ answer_len replica.new.held }
{
    let Some(mut desk) = replica.take(alloc) else {
        return no_replica(told);
    };
    let ended = desk.keep_up(line);
    put_back(replica, desk, end_status(ended), told)
}

/// Gives the replica another store with the same records, before this one is out of runs. The two words are its hash
/// key's.
#[unsafe(no_mangle)]
pub extern "C" fn tiuvrokk_replica_renew(
    alloc: Global,
    replica: &mut ReplicaHandle,
    first: u64,
    second: u64,
) -> u32
    ensures { DoesCall Renews replica.old.held result replica.new.held }
{
    let Some(mut desk) = replica.take(alloc) else {
        return Status::NoStore.code();
    };
    let ended = desk.renew(HashKey::new(first, second));
    replica.put(desk);
    end_status(ended).code()
}

/// Says how many blocks had committed when the snapshot was written whose records the replica has.
#[unsafe(no_mangle)]
pub extern "C" fn tiuvrokk_replica_restore(
    alloc: Global,
    replica: &mut ReplicaHandle,
    commits: u64,
) -> u32
    ensures { DoesCall (Restores commits) replica.old.held result replica.new.held }
{
    let Some(mut desk) = replica.take(alloc) else {
        return Status::NoStore.code();
    };
    let ended = desk.restore(commits);
    replica.put(desk);
    end_status(ended).code()
}

/// How many blocks of the log committed. A replica that ended has no number.
#[unsafe(no_mangle)]
pub extern "C" fn tiuvrokk_replica_commits(
    alloc: Global,
    replica: &mut ReplicaHandle,
    told: &mut u64,
) -> u32
    ensures count { AreCommitsTold replica.old.held result told.new }
    ensures kept { replica.new.held ≡ replica.old.held }
{
    let Some(desk) = replica.take(alloc) else {
        return no_replica(told);
    };
    let commits = desk.commits();
    replica.put(desk);
    match commits {
        Some(commits) => {
            *told = commits;
            Status::Fine.code()
        }
        None => {
            *told = 0;
            Status::NoMemory.code()
        }
    }
}

/// Copies the answer to the last call from a place on, as many bytes as fit: how many these are goes out.
#[unsafe(no_mangle)]
pub extern "C" fn tiuvrokk_replica_answer(
    alloc: Global,
    replica: &mut ReplicaHandle,
    from: u64,
    out: &mut [u8],
    told: &mut u64,
) -> u32
    ensures status { result ≡ status_code (replica_status replica.old.held) }
    ensures len { told.new ≡ length (answer_part replica.old.held from (length out.old)) }
    ensures bytes { out.new ≡ answer_part replica.old.held from (length out.old) ++ drop told.new out.old }
    ensures kept { replica.new.held ≡ replica.old.held }
{
    let Some(desk) = replica.take(alloc) else {
        return no_replica(told);
    };
    *told = copy_part(desk.answer(), from, out);
    replica.put(desk);
    Status::Fine.code()
}

/// Copies the bytes from a place on, as many as fit. How many these are.
pub(crate) fn copy_part(bytes: &[u8], from: u64, out: &mut [u8]) -> u64
    ensures len { result ≡ length (take (length out.old) (drop from bytes.now)) }
    ensures bytes { out.new ≡ take (length out.old) (drop from bytes.now) ++ drop result out.old }
{
    let behind = &bytes[bytes.len().min(from as usize)..];
    let len = behind.len().min(out.len());
    out[..len].copy_from_slice(&behind[..len]);
    len as u64
}
