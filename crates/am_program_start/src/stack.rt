//! The stack of a program's first thread, made sure of at its start.

ghost use Rattle.std.specs.Prelude.{◌≡◌, ◌⊎◌, Err, OnErr};
ghost use Rattle.am_program_start.specs.declared.fault.OptionsFault.TheVariants.{NoStack, NoMemory};

use crate::fault::OptionsFault;
use std::fs;
use std::rt::Files;

/// How many bytes are touched by one step down.
const PAGE_LEN: usize = 4096;

/// So many pages are more than twice as many as a program was seen to need.
const PAGES: u8 = 48;

/// A stack of fewer bytes has no room for these, the environment and the words of the command line.
const LEAST_STACK: u64 = 512 * 1024;

/// Where Linux tells what a process may have.
const LIMITS: &str = "/proc/self/limits";

/// Has the stack reach as deep as the program may need it.
///
/// The system gives a program's first thread more stack when it is touched. Where the address space is limited and used
/// up there is none, and the program is ended by a signal. So as much room is asked for while it can still be refused,
/// and then the stack is touched down to there. A stack that is limited to less isn't touched.
///
/// # Errors
/// NoStack, where the stack is limited to less than 512 KB; NoMemory, where there is no such room.
pub fn hold_stack<R: AllocGlobal + Files>(rt: &R) -> Result<(), OptionsFault>
    ensures { OnErr result ((result ≡ Err NoStack) ⊎ (result ≡ Err NoMemory)) }
{
    if stack_limit(rt).is_some_and(|limit| limit < LEAST_STACK) {
        return Err(OptionsFault::NoStack);
    }
    let room: Vec<u8> = Vec::with_capacity(rt.alloc(), usize::from(PAGES + 1) * PAGE_LEN)?;
    drop(room);
    // It never is another number. A compiler doesn't know that, and so it keeps the walk.
    if reached(PAGES) == PAGES {
        Ok(())
    } else {
        Err(OptionsFault::NoMemory)
    }
}

/// How many bytes the stack may have, where that is limited, and can be read.
fn stack_limit<R: AllocGlobal + Files>(rt: &R) -> Option<u64> {
    let limits = fs::read_to_string(rt, LIMITS).ok()?;
    let line = limits
        .lines()
        .find(|line| line.starts_with("Max stack size"))?;
    line.split_whitespace().nth(3)?.parse().ok()
}

/// How many pages the walk goes down. Each is written, and read after those below it.
#[inline(never)]
fn reached(pages: u8) -> u8
    ensures { result ≡ pages }
{
    let Some(fewer) = pages.checked_sub(1) else {
        return 0;
    };
    let page = [pages; PAGE_LEN];
    let last = usize::from(reached(fewer));
    page[last]
}
