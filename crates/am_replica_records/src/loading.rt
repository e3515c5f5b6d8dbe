//! Records into a store.

ghost use Rattle.std.specs.Prelude.{◌≡◌, true, OnOk};
ghost use Rattle.std.specs.FinMap.{empty, is_sorted};
ghost use Rattle.am_record.specs.OrderedKey.{key_cmp};
ghost use Rattle.am_record.specs.Plain.{insert_all, least_taken, load_where, is_rising};

use am_record::{Key, MAX_RUN_RECORDS, NoMemory, Op, Records, Value};
use am_replica::Machine;
use std::alloc::Global;

/// Loads records, whose keys rise, into a store that has none, in a transaction for each run.
///
/// # Errors
/// NoMemory, where the store said so. It is no use then.
pub fn load_records<M: Machine>(
    alloc: Global,
    machine: &mut M,
    records: &[(Key, Value)],
) -> Result<(), NoMemory>
    requires idle { M.idle machine.old }
    requires none { M.map machine.old ≡ empty }
    requires rising { is_sorted key_cmp records.now ≡ true }
    ensures loaded { OnOk result (M.map machine.new ≡ insert_all records.now empty) }
    ensures idle { OnOk result (M.idle machine.new) }
{
    let mut rest = records;
    while !rest.is_empty() {
        let (run, after) = rest.split_at(rest.len().min(MAX_RUN_RECORDS));
        load_run(alloc, machine, run)?;
        rest = after;
    }
    Ok(())
}

// Loads one run.
fn load_run<M: Machine>(
    alloc: Global,
    machine: &mut M,
    run: &[(Key, Value)],
) -> Result<(), NoMemory>
    requires idle { M.idle machine.old }
    requires rising { is_rising run.now ≡ true }
    ensures loaded { OnOk result (M.map machine.new ≡
        load_where (least_taken run.now (M.map machine.old)) run.now (M.map machine.old)) }
    ensures idle { OnOk result (M.idle machine.new) }
{
    let ops = [Op::Load(Records::new(Vec::from_slice(alloc, run)?))];
    machine.run(&ops)?;
    machine.commit()
}
