//! Texts of entries.

ghost use Rattle.std.specs.Prelude.{◌≡◌, ◌<◌, ◌^◌, ◌++◌, length, OnOk, IfOk};
ghost use Rattle.am_replica_entries.specs.Texts.{the_block, the_blocks, block_bytes, AreBlocks, entry_text};

use crate::block::Block;
use std::alloc::{AllocError, Global};

/// The form of an entry's text.
pub(crate) const FORM: u8 = 1;

fn put_block(text: &mut Vec<u8>, block: &Block) -> Result<(), AllocError>
    requires { length block.now.lines.items < 2 ^ 32 }
    ensures { OnOk result (text.new.items ≡ text.old.items ++ block_bytes (the_block block.now)) }
{
    text.extend_from_slice(&(block.lines.len() as u32).to_be_bytes())?;
    text.extend_from_slice(&block.lines)?;
    match &block.told {
        None => text.push(0)?,
        Some(told) => {
            text.push(1)?;
            text.extend_from_slice(&told.lines.to_be_bytes())?;
            text.extend_from_slice(&told.digest)?;
        }
    }
    Ok(())
}

/// The one text of an entry.
///
/// # Errors
/// AllocError, where memory was refused.
pub fn entry_text(alloc: Global, blocks: &[Block]) -> Result<Vec<u8>, AllocError>
    requires { AreBlocks (the_blocks blocks.now) }
    ensures { IfOk result (λ v. v.items ≡ entry_text (the_blocks blocks.now)) }
{
    let mut text = Vec::new(alloc);
    text.push(FORM)?;
    text.extend_from_slice(&(blocks.len() as u32).to_be_bytes())?;
    for block in blocks {
        put_block(&mut text, block)?;
    }
    Ok(text)
}
