//! What a replica's outcomes are, and what its transactions are told: theorems.

ghost use Rattle.std.specs.Prelude.{◌≡◌, ◌++◌, List, length, true, take};
ghost use Rattle.std.specs.List.{AllByRecursion};
ghost use Rattle.am_record.specs.Plain.{PlainMap, left};
ghost use Rattle.am_record.specs.declared.step.Op.{Op as TheOp};
ghost use Rattle.am_record.specs.declared.step.Reply.{Reply as TheReply};
ghost use Rattle.am_replica.specs.declared.block.Block.{Block as TheBlock};
ghost use Rattle.am_replica.specs.Bodies.{replies, given};
ghost use Rattle.am_replica.specs.Ordered.{Sum, Ordered, after_blocks, commits_of, AreInTurn, left_by};
ghost use Rattle.am_replica.specs.Told.{TransactionState, still_stands, NoCollision, WasTold, IsOneState, only_reads};

/// Over every list of blocks, the ones that commit are answered as if they alone were applied whole, one after another,
/// to the map, their refused lines aside; the numbers rise by one; and the map is what they leave.
pub fn committed_blocks_are_serial()
    ensures serial { (digest : List TheReply → Sum) (blocks : List TheBlock) (start : Ordered) →
        AreInTurn (commits_of digest blocks start) start }
    ensures left { (digest : List TheReply → Sum) (blocks : List TheBlock) (start : Ordered) →
        (after_blocks digest blocks start).map ≡ left_by (commits_of digest blocks start) start.map }
{}

/// Where a transaction's lines still stand, all that it was ever told is what one map answers, which is the one that
/// they are tried on: unless two lists of answers have one digest.
pub fn told_answers_are_one_states()
    ensures { (digest : List TheReply → Sum) (t : TransactionState) (told : List TheReply) (lines : List TheOp)
        (m : PlainMap) →
        WasTold digest t told →
        NoCollision digest (given (take (length t.ops) (replies (t.ops ++ lines) m))) told →
        still_stands digest t lines m ≡ true → IsOneState digest t told lines m }
{}

/// A transaction that only reads leaves the map as it was, and needs no block.
pub fn reads_leave_the_map()
    ensures { (ops : List TheOp) (m : PlainMap) → AllByRecursion (λ op. only_reads op ≡ true) ops → left ops m ≡ m }
{}
