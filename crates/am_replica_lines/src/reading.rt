//! The blocks of entries.

ghost use Rattle.std.specs.Prelude.{◌≡◌, [], ◌∷◌, ◌++◌, false, cond, nat_le, IfOk, OnOk};
ghost use Rattle.std.specs.List.{list_all};
ghost use Rattle.std.specs.Option.{option_to_list};
ghost use Rattle.am_replica_entries.specs.Texts.{the_block};
ghost use Rattle.am_replica_lines.specs.Lines.{said, is_own, AsksOps, LeavesWaiting, IsBlockOf, told_lines};

use crate::fault::BlockFault;
use crate::line::{cut_line, take_line};
use am_line_dialogue::{Action, ParsedLine, Session};
use am_line_wire::Request;
use am_record::{Op, Reply, Step};
use am_replica::{Block, Digest};
use std::alloc::{AllocFailed, Global};

// The operations that lines ask for, and how many of them the first lines ask for.
#[derive(Drop)]
struct AskedOps {
    ops: Vec<Op>,
    told: usize,
}

/// The block of an entry, as a replica takes it: a session is asked for these operations by just these lines, between
/// BEGIN and COMMIT.
///
/// # Errors
/// OtherLine and StillStaged, where the lines are no block's; NoMemory, where memory was refused.
pub fn read_block<D: Digest>(
    alloc: Global,
    digest: &D,
    entry: &am_replica_entries::Block,
) -> Result<Block, BlockFault>
    ensures read { IfOk result (λ block. IsBlockOf D.digest_of (the_block entry.now) block) }
    ensures other { result ≡ Err BlockFault.OtherLine → list_all is_own (said entry.now.lines.items) ≡ false }
    ensures staged { result ≡ Err BlockFault.StillStaged → LeavesWaiting entry.now.lines.items }
{
    let (first, sum) = match &entry.told {
        None => (0, digest.digest(&[])?),
        Some(told) => (told.lines as usize, told.digest),
    };
    let AskedOps { ops, told } = asked_ops(alloc, &entry.lines, first)?;
    Ok(Block {
        ops,
        told,
        digest: sum,
    })
}

fn asked_ops(alloc: Global, text: &[u8], first: usize) -> Result<AskedOps, BlockFault>
    ensures read { IfOk result (λ asked. AsksOps text.now first asked.ops.items asked.told) }
    ensures other { result ≡ Err BlockFault.OtherLine → list_all is_own (said text.now) ≡ false }
    ensures staged { result ≡ Err BlockFault.StillStaged → LeavesWaiting text.now }
{
    let mut session = Session::new(alloc);
    session.reply(&Reply::Begun(1));
    let mut ops = Vec::new(alloc);
    let mut told = 0;
    let mut number = 0;
    let mut rest = text;
    while !rest.is_empty() {
        let (line, after) = cut_line(rest);
        let op = take_line(alloc, &mut session, line)?;
        put(&mut ops, op)?;
        number += 1;
        told = told_by(told, number, first, ops.len());
        rest = after;
    }
    match session.action(ParsedLine::Asked(Request::Commit)) {
        Action::Take(Step::Commit(_)) => Ok(AskedOps { ops, told }),
        _ => Err(BlockFault::StillStaged),
    }
}

fn put(ops: &mut Vec<Op>, op: Option<Op>) -> Result<(), AllocFailed<Op>>
    ensures { OnOk result (ops.new.items ≡ ops.old.items ++ option_to_list op) }
{
    if let Some(op) = op {
        ops.push(op)?;
    }
    Ok(())
}

// How many operations the first lines ask for, once so many lines asked for so many.
fn told_by(told: usize, number: usize, first: usize, asked: usize) -> usize
    ensures { result ≡ cond (nat_le number first) asked told }
{
    if number <= first { asked } else { told }
}
