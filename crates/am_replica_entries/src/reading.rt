//! Entries of texts.

ghost use Rattle.std.specs.Prelude.{◌≡◌, List, Ok, IfOk};
ghost use Rattle.std.specs.Int.{w32};
ghost use Rattle.am_replica_entries.specs.Texts.{TheBlock, the_block, the_blocks, AreBlocks, entry_text};
ghost use Rattle.am_replica_entries.specs.Reading.{Gives, form_at, number_at, string_at, lines_at, digest_at, told_at};
ghost use Rattle.am_replica_entries.specs.Reading.{block_at, blocks_at, entry_in};

use crate::block::{Block, Told};
use crate::fault::{Fault, ReadError};
use crate::writing::FORM;
use std::alloc::Global;

fn form_at(bytes: &[u8]) -> Result<&[u8], ReadError>
    ensures { Gives (λ rest. rest.now) result (form_at bytes.now) }
{
    match bytes {
        [] => Err(ReadError::NoEntry(Fault::Short)),
        [first, rest @ ..] => {
            if *first == FORM {
                Ok(rest)
            } else if *first >= b'0' && *first <= b'9' {
                Err(ReadError::NoEntry(Fault::OldForm))
            } else {
                Err(ReadError::NoEntry(Fault::OtherForm))
            }
        }
    }
}

fn u32_at(bytes: &[u8]) -> Result<(u32, &[u8]), ReadError>
    ensures { Gives (λ x. (x.0, x.1.now)) result (number_at w32 bytes.now) }
{
    if bytes.len() < 4 {
        return Err(ReadError::NoEntry(Fault::Short));
    }
    let (front, rest) = bytes.split_at(4);
    let number = u32::from_be_bytes([front[0], front[1], front[2], front[3]]);
    Ok((number, rest))
}

#[tactic(auto, unfolding(crate::specs::Reading::string_at))]
fn string_of(alloc: Global, bytes: &[u8]) -> Result<(Vec<u8>, &[u8]), ReadError>
    ensures { Gives (λ x. (x.0.items, x.1.now)) result (string_at bytes.now) }
{
    let (length, rest) = u32_at(bytes)?;
    let length = length as usize;
    if rest.len() < length {
        return Err(ReadError::NoEntry(Fault::Short));
    }
    let (text, rest) = rest.split_at(length);
    Ok((Vec::from_slice(alloc, text)?, rest))
}

// How many lines were answered: some.
#[tactic(auto, unfolding(crate::specs::Reading::lines_at))]
fn lines_of(bytes: &[u8]) -> Result<(u32, &[u8]), ReadError>
    ensures { Gives (λ x. (x.0, x.1.now)) result (lines_at bytes.now) }
{
    let (lines, rest) = u32_at(bytes)?;
    if lines == 0 {
        return Err(ReadError::NoEntry(Fault::NothingTold));
    }
    Ok((lines, rest))
}

fn digest_of(bytes: &[u8]) -> Result<([u8; 32], &[u8]), ReadError>
    ensures { Gives (λ x. (x.0, x.1.now)) result (digest_at bytes.now) }
{
    match bytes.split_first_chunk::<32>() {
        None => Err(ReadError::NoEntry(Fault::Short)),
        Some((digest, rest)) => Ok((*digest, rest)),
    }
}

#[tactic(auto, unfolding(crate::specs::Reading::told_at))]
fn told_of(bytes: &[u8]) -> Result<(Option<Told>, &[u8]), ReadError>
    ensures { Gives (λ x. (x.0, x.1.now)) result (told_at bytes.now) }
{
    match bytes {
        [] => Err(ReadError::NoEntry(Fault::Short)),
        [0, rest @ ..] => Ok((None, rest)),
        [1, rest @ ..] => {
            let (lines, rest) = lines_of(rest)?;
            let (digest, rest) = digest_of(rest)?;
            Ok((Some(Told { lines, digest }), rest))
        }
        [_, ..] => Err(ReadError::NoEntry(Fault::Flag)),
    }
}

#[tactic(auto, unfolding(crate::specs::Reading::block_at))]
fn block_of(alloc: Global, bytes: &[u8]) -> Result<(Block, &[u8]), ReadError>
    ensures { Gives (λ x. (the_block x.0, x.1.now)) result (block_at bytes.now) }
{
    let (lines, rest) = string_of(alloc, bytes)?;
    let (told, rest) = told_of(rest)?;
    Ok((Block { lines, told }, rest))
}

fn blocks_of(alloc: Global, count: u32, bytes: &[u8]) -> Result<(Vec<Block>, &[u8]), ReadError>
    ensures { Gives (λ x. (the_blocks x.0.items, x.1.now)) result (blocks_at count bytes.now) }
{
    let mut found = Vec::new(alloc);
    let mut rest = bytes;
    for _ in 0..count {
        let (block, after) = block_of(alloc, rest)?;
        found.push(block)?;
        rest = after;
    }
    Ok((found, rest))
}

#[tactic(auto, unfolding(crate::specs::Reading::entry_in))]
fn entry_of(alloc: Global, text: &[u8]) -> Result<Vec<Block>, ReadError>
    ensures { Gives (λ v. the_blocks v.items) result (entry_in text.now) }
{
    let rest = form_at(text)?;
    let (count, rest) = u32_at(rest)?;
    let (blocks, rest) = blocks_of(alloc, count, rest)?;
    if !rest.is_empty() {
        return Err(ReadError::NoEntry(Fault::Trailing));
    }
    Ok(blocks)
}

/// The entry of a text.
///
/// # Errors
/// NoEntry, where it is none's, with the first fault; NoMemory, where memory was refused.
pub fn read_entry(alloc: Global, text: &[u8]) -> Result<Vec<Block>, ReadError>
    ensures found { IfOk result (λ v. AreBlocks (the_blocks v.items) × (text.now ≡ entry_text (the_blocks v.items))) }
    ensures again { (blocks : List TheBlock) → AreBlocks blocks → text.now ≡ entry_text blocks →
        Gives (λ v. the_blocks v.items) result (Ok blocks) }
    ensures exact { Gives (λ v. the_blocks v.items) result (entry_in text.now) }
{
    entry_of(alloc, text)
}
