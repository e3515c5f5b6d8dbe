//! What a block of a log does in a session on a store of its own.
#![tactic(auto)]

ghost use Rattle.std.specs.Prelude.{◌≡◌, ◌+◌, ◌≤◌, ◌<◌, ℕ, List, []};
ghost use Rattle.am_record.specs.Limits.{max_begun, max_runs};
ghost use Rattle.am_record.specs.Plain.{PlainMap};
ghost use Rattle.am_replica_blocks.specs.Blocks.{BlockLine, asked_ops, waiting, loads, IsTakenAlone, IsTried};

/// A transaction's lines in a dialogue where none is active. They are answered as they are alone on the committed map,
/// whatever was begun, committed and loaded before, so long as there is room for its runs. COMMIT leaves what they
/// leave alone, and is the next commit; ABORT leaves the map. So stores that committed the same answer alike, whatever
/// they tried meanwhile.
pub fn blocks_are_alone()
    ensures block { (begun commits runs : ℕ) (m : PlainMap) (lines : List BlockLine) → begun < max_begun →
        runs + loads (asked_ops [] lines) ≤ max_runs → waiting [] lines ≡ [] → IsTakenAlone begun commits runs m lines }
    ensures trial { (begun commits runs : ℕ) (m : PlainMap) (lines : List BlockLine) → begun < max_begun →
        runs + loads (asked_ops [] lines) ≤ max_runs → IsTried begun commits runs m lines }
{}
