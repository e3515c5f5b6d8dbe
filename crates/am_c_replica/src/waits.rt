//! The calls of those that wait: blocks for their place in the log, and reads for the log's end.

ghost use Rattle.std.specs.Prelude.{◌≡◌, ◌++◌, None, length, map, drop, option_map};
ghost use Rattle.am_c_steps.specs.Statuses.{status_code};
ghost use Rattle.am_c_steps.specs.declared.status.Status.TheVariants.{NoStore};
ghost use Rattle.am_replica_waits.specs.Queues.{with_handed, with_settled, with_expired};
ghost use Rattle.am_replica_waits.specs.Ends.{with_reached};
ghost use Rattle.am_c_replica.specs.WaitsCalls.{queue_by, ends_by, waits_status, OpensWaits, EntersWaits};
ghost use Rattle.am_c_replica.specs.WaitsCalls.{AnswersWaits, handed_waits, settled_status, ended_status};
ghost use Rattle.am_c_replica.specs.WaitsCalls.{expired_status, known_told, reached_told};

use crate::waits_handle::WaitsHandle;
use am_c_steps::Status;
use am_replica_waits::{Expired, Question, Waits};
use std::alloc::Global;

/// Opens a queue in which nobody waits, and ends of which nothing is known, behind a handle that has none.
#[unsafe(no_mangle)]
pub extern "C" fn tiuvrokk_waits_open(alloc: Global, waits: &mut WaitsHandle) -> u32
    ensures { OpensWaits waits.old.held result waits.new.held }
{
    if let Some(open) = waits.take(alloc) {
        waits.put(open);
        return Status::IsOpen.code();
    }
    match Box::new(alloc, Waits::new(alloc)) {
        Ok(new) => {
            waits.put(new);
            Status::Fine.code()
        }
        Err(_) => Status::NoMemory.code(),
    }
}

/// Gives back all memory, and leaves the handle without any.
#[unsafe(no_mangle)]
pub extern "C" fn tiuvrokk_waits_close(alloc: Global, waits: &mut WaitsHandle) -> u32
    ensures told { result ≡ status_code (waits_status waits.old.held) }
    ensures closed { waits.new.held ≡ None }
{
    match waits.take(alloc) {
        Some(open) => {
            drop(open);
            Status::Fine.code()
        }
        None => Status::NoStore.code(),
    }
}

/// Has blocks wait behind all others: their number goes out.
#[unsafe(no_mangle)]
pub extern "C" fn tiuvrokk_waits_enter(
    alloc: Global,
    waits: &mut WaitsHandle,
    bytes: u64,
    told: &mut u64,
) -> u32
    ensures { EntersWaits bytes waits.old.held result told.new waits.new.held }
{
    *told = 0;
    let Some(mut open) = waits.take(alloc) else {
        return Status::NoStore.code();
    };
    let entered = open.queue.enter(bytes);
    waits.put(open);
    match entered {
        Ok(number) => {
            *told = number;
            Status::Fine.code()
        }
        Err(_) => Status::NoMemory.code(),
    }
}

/// Lets those go on their way that have waited longest, as far as they are within the limit and there is room for
/// their numbers, which go out.
#[unsafe(no_mangle)]
pub extern "C" fn tiuvrokk_waits_hand_over(
    alloc: Global,
    waits: &mut WaitsHandle,
    most_bytes: u64,
    numbers: &mut [u64],
    told: &mut u64,
) -> u32
    ensures status { result ≡ status_code (waits_status waits.old.held) }
    ensures count { told.new ≡ length (handed_waits most_bytes (length numbers.old) waits.old.held) }
    ensures numbers { numbers.new ≡
        map (λ w. w.number) (handed_waits most_bytes (length numbers.old) waits.old.held) ++ drop told.new numbers.old }
    ensures left { waits.new.held ≡
        option_map (queue_by (with_handed most_bytes (length numbers.old))) waits.old.held }
{
    let Some(mut open) = waits.take(alloc) else {
        *told = 0;
        return Status::NoStore.code();
    };
    *told = open.queue.hand_over(most_bytes, numbers) as u64;
    waits.put(open);
    Status::Fine.code()
}

/// Tells a client what its blocks came to, where they were on their way.
#[unsafe(no_mangle)]
pub extern "C" fn tiuvrokk_waits_settle(alloc: Global, waits: &mut WaitsHandle, number: u64) -> u32
    ensures was { result ≡ status_code (settled_status number waits.old.held) }
    ensures gone { waits.new.held ≡ option_map (queue_by (with_settled number)) waits.old.held }
{
    let Some(mut open) = waits.take(alloc) else {
        return Status::NoStore.code();
    };
    let was = open.queue.settle(number);
    waits.put(open);
    if was {
        Status::Fine.code()
    } else {
        Status::Absent.code()
    }
}

/// What a client is told whose time is over.
#[unsafe(no_mangle)]
pub extern "C" fn tiuvrokk_waits_expire(alloc: Global, waits: &mut WaitsHandle, number: u64) -> u32
    ensures how { result ≡ status_code (expired_status number waits.old.held) }
    ensures gone { waits.new.held ≡ option_map (queue_by (with_expired number)) waits.old.held }
{
    let Some(mut open) = waits.take(alloc) else {
        return Status::NoStore.code();
    };
    let how = open.queue.expire(number);
    waits.put(open);
    ended_status(how).code()
}

/// All up to a revision is applied.
#[unsafe(no_mangle)]
pub extern "C" fn tiuvrokk_waits_reach(alloc: Global, waits: &mut WaitsHandle, revision: u64) -> u32
    ensures status { result ≡ status_code (waits_status waits.old.held) }
    ensures applied { waits.new.held ≡ option_map (ends_by (with_reached revision)) waits.old.held }
{
    let Some(mut open) = waits.take(alloc) else {
        return Status::NoStore.code();
    };
    open.ends.reach(revision);
    waits.put(open);
    Status::Fine.code()
}

/// The cluster answered where the log's end is, which was asked at a moment.
#[unsafe(no_mangle)]
pub extern "C" fn tiuvrokk_waits_answered(
    alloc: Global,
    waits: &mut WaitsHandle,
    asked: u64,
    end: u64,
) -> u32
    ensures { AnswersWaits (record { asked = asked; end = end }) waits.old.held result waits.new.held }
{
    let Some(mut open) = waits.take(alloc) else {
        return Status::NoStore.code();
    };
    let answered = open.ends.answered(Question { asked, end });
    waits.put(open);
    match answered {
        Ok(()) => Status::Fine.code(),
        Err(_) => Status::NoMemory.code(),
    }
}

/// The newest moment whose end of the log is applied goes out.
#[unsafe(no_mangle)]
pub extern "C" fn tiuvrokk_waits_known(
    alloc: Global,
    waits: &mut WaitsHandle,
    told: &mut u64,
) -> u32
    ensures status { result ≡ status_code (waits_status waits.old.held) }
    ensures known { told.new ≡ known_told waits.old.held }
    ensures kept { waits.new.held ≡ waits.old.held }
{
    let Some(open) = waits.take(alloc) else {
        *told = 0;
        return Status::NoStore.code();
    };
    *told = open.ends.known();
    waits.put(open);
    Status::Fine.code()
}

/// Whether a read by the log that began at a moment may be answered: 1 goes out, or 0.
#[unsafe(no_mangle)]
pub extern "C" fn tiuvrokk_waits_is_reached(
    alloc: Global,
    waits: &mut WaitsHandle,
    begun: u64,
    told: &mut u64,
) -> u32
    ensures status { result ≡ status_code (waits_status waits.old.held) }
    ensures reached { told.new ≡ reached_told begun waits.old.held }
    ensures kept { waits.new.held ≡ waits.old.held }
{
    let Some(open) = waits.take(alloc) else {
        *told = 0;
        return Status::NoStore.code();
    };
    *told = u64::from(open.ends.is_reached(begun));
    waits.put(open);
    Status::Fine.code()
}

fn ended_status(how: Option<Expired>) -> Status
    ensures { result ≡ ended_status how }
{
    match how {
        None => Status::Absent,
        Some(Expired::Unreachable) => Status::Unreachable,
        Some(Expired::Unknown) => Status::Unknown,
    }
}
