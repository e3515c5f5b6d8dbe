//! A store in another's place.

ghost use Rattle.std.specs.Prelude.{◌≡◌, IfOk, OnOk};
ghost use Rattle.std.specs.FinMap.{empty};
ghost use Rattle.am_replica_records.specs.Records.{HasKeys};

use crate::laws::records_are_the_map;
use crate::loading::load_records;
use crate::pages::records;
use am_record::NoMemory;
use am_replica::Machine;
use std::alloc::Global;

/// A store that had no records, with those of another one: to take that one's place before it is out of runs. The fresh
/// one has made no runs but those that hold them.
///
/// # Errors
/// NoMemory, where memory was refused, or a store said so. Both are no use then.
pub fn renewed<M: Machine + Drop>(alloc: Global, machine: &mut M, fresh: M) -> Result<M, NoMemory>
    requires idle { M.idle machine.old }
    requires fresh { M.idle fresh }
    requires none { M.map fresh ≡ empty }
    ensures records { HasKeys (M.map machine.old) → IfOk result (λ renewed. M.map renewed ≡ M.map machine.old) }
    ensures renewed { IfOk result (λ renewed. M.idle renewed) }
    ensures same { OnOk result (M.map machine.new ≡ M.map machine.old) }
    ensures idle { OnOk result (M.idle machine.new) }
{
    records_are_the_map();
    let all = records(alloc, machine)?;
    let mut fresh = fresh;
    load_records(alloc, &mut fresh, all.as_slice())?;
    Ok(fresh)
}
