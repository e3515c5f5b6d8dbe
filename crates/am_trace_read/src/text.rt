//! The whole text, and one line of it.

ghost use Rattle.std.specs.Prelude.{◌≡◌, ◌++◌, ℕ, IfOk, Err};
ghost use Rattle.am_trace_text.specs.Lines.{IsEvent, event_words, with_lf, IsTextOf, IsBadLine, BeginsNoEvent};

use crate::front::front_event;
use crate::header::read_header;
use crate::line::read_by_fields;
use am_record::{Reply, Step};
use am_trace_text::{ReadFault, Version};
use std::alloc::Global;
use thiserror::Error;

/// Why a text is no trace.
#[derive(Clone, Copy, Debug, PartialEq, Eq, Error)]
pub enum TraceFault {
    /// This line, the first that isn't one of a trace. Lines count from 1, the header included.
    #[error("line {0} is none of a trace")]
    Bad(u64),
    /// Memory was refused.
    #[error("no memory")]
    NoMemory,
}

/// The trace of a text, which may come from anybody.
///
/// # Errors
/// The first line that isn't one of a trace; or NoMemory, where memory was refused.
#[inline(never)]
pub fn read_trace(alloc: Global, text: &[u8]) -> Result<Vec<(Step, Reply)>, TraceFault>
    ensures trace { IfOk result (λ trace. IsTextOf text.now trace.items) }
    ensures bad { (n : ℕ) → result ≡ Err (TraceFault.Bad n) → IsBadLine text.now n }
{
    let (header, mut rest) = read_header(text).ok_or(TraceFault::Bad(1))?;
    let mut trace = Vec::new(alloc);
    'lines: while !rest.is_empty() {
        match read_line(alloc, header.version(), rest) {
            Ok((event, further)) => {
                if trace.push(event).is_err() {
                    return Err(TraceFault::NoMemory);
                }
                rest = further;
            }
            Err(ReadFault::Bad) => return Err(TraceFault::Bad(trace.len() as u64 + 2)),
            Err(ReadFault::NoMemory) => return Err(TraceFault::NoMemory),
        }
    }
    Ok(trace)
}

/// The event of the first line, and the lines after it: so a text is read a line at a time.
///
/// # Errors
/// Bad, where the text begins with no line of an event; or NoMemory, where memory was refused.
#[inline(never)]
pub fn read_line(
    alloc: Global,
    version: Version,
    text: &[u8],
) -> Result<((Step, Reply), &[u8]), ReadFault>
    ensures event { IfOk result (λ p. IsEvent version p.0 × (text.now ≡ with_lf (event_words version p.0) ++ p.1.now)) }
    ensures bad { result ≡ Err ReadFault.Bad → BeginsNoEvent version text.now }
{
    am_trace_text::lines_are_alike();
    if let Version::Two | Version::Three = version {
        if let Some(read) = front_event(text) {
            return Ok(read);
        }
    }
    read_by_fields(alloc, version, text)
}
