//! What trials and blocks have to do with one another, and how long answers are: theorems.

ghost use Rattle.std.specs.Prelude.{◌≡◌, ◌≤◌, List, [], length};
ghost use Rattle.am_record.specs.Plain.{PlainMap};
ghost use Rattle.am_record.specs.declared.step.Op.{Op as TheOp};
ghost use Rattle.am_record.specs.declared.step.Reply.{Reply as TheReply};
ghost use Rattle.am_line_wire.specs.Replies.{text_of};
ghost use Rattle.am_replica.specs.Bodies.{reply_behind};
ghost use Rattle.am_replica.specs.declared.block.Block.{Block as TheBlock};
ghost use Rattle.am_replica.specs.Ordered.{Sum, stands};
ghost use Rattle.am_replica.specs.Told.{still_stands};
ghost use Rattle.am_replica_blocks.specs.Blocks.{BlockLine, asked_ops};
ghost use Rattle.am_replica_trials.specs.Bounds.{TellsShort};
ghost use Rattle.am_replica_trials.specs.Trials.{TrialState, HasLines, longest_answer};

/// A transaction's block commits on a map exactly where the transaction's answers come again on it.
pub fn blocks_stand_where_trials_do()
    ensures { (digest : List TheReply → Sum) (own : List BlockLine) (s : TrialState) (block : TheBlock) (m : PlainMap) →
        HasLines own s → block.ops.items ≡ asked_ops [] own → block.told ≡ length (asked_ops [] own) →
        block.digest ≡ s.transaction.digest → stands digest block m ≡ still_stands digest s.transaction [] m }
{}

/// No answer to an operation is longer than its longest one, where keys and values are no longer than they may be.
pub fn answers_are_no_longer()
    ensures { (own : List TheOp) (m : PlainMap) (op : TheOp) → TellsShort (reply_behind own m op) →
        length (text_of (reply_behind own m op)) ≤ longest_answer op }
{}
