//! How a replica's call ended, as C is told it.

ghost use Rattle.std.specs.Prelude.{◌≡◌, Some, length};
ghost use Rattle.am_c_steps.specs.Statuses.{status_code};
ghost use Rattle.am_c_steps.specs.declared.status.Status.TheVariants.{NoStore};
ghost use Rattle.am_c_replica.specs.ReplicaCalls.{end_status};

use crate::replica_handle::ReplicaHandle;
use am_c_steps::Status;
use am_replica_desk::{Desk, Fault};

/// The status of a call that ended so.
pub(crate) fn end_status(ended: Result<(), Fault>) -> Status
    ensures { result ≡ end_status ended }
{
    match ended {
        Ok(()) => Status::Fine,
        Err(Fault::Ended) => Status::NoMemory,
        Err(Fault::NoEntry) => Status::NoEntry,
        Err(Fault::OtherLine) => Status::BadLine,
        Err(Fault::Staged) => Status::Staged,
    }
}

/// Puts the replica back behind its handle, and tells a status and how long the answer is.
pub(crate) fn put_back(
    replica: &mut ReplicaHandle,
    desk: Box<Desk>,
    status: Status,
    told: &mut u64,
) -> u32
    ensures status { result ≡ status_code status }
    ensures len { told.new ≡ length desk.value.answer }
    ensures held { replica.new.held ≡ Some desk.value }
{
    *told = desk.answer().len() as u64;
    replica.put(desk);
    status.code()
}

/// There is no replica, and so no answer.
pub(crate) fn no_replica(told: &mut u64) -> u32
    ensures status { result ≡ status_code NoStore }
    ensures len { told.new ≡ 0 }
{
    *told = 0;
    Status::NoStore.code()
}
