//! One line of a text.

ghost use Rattle.std.specs.Prelude.{◌≡◌, ◌++◌, IfOk, Err};
ghost use Rattle.am_trace_text.specs.Lines.{IsEvent, event_words, with_lf, BeginsNoEvent};

use crate::cut::cut;
use crate::event::read_event;
use am_line_text::words_are_fields;
use am_record::{Reply, Step};
use am_trace_text::{ReadFault, Version};
use std::alloc::Global;

/// The event of the first line, and the lines after it. The line's fields are cut first and then read.
///
/// # Errors
/// Bad, where the text begins with no line of an event; or NoMemory, where memory was refused.
#[inline(never)]
pub fn read_by_fields(
    alloc: Global,
    version: Version,
    text: &[u8],
) -> Result<((Step, Reply), &[u8]), ReadFault>
    ensures event { IfOk result (λ p. IsEvent version p.0 × (text.now ≡ with_lf (event_words version p.0) ++ p.1.now)) }
    ensures bad { result ≡ Err ReadFault.Bad → BeginsNoEvent version text.now }
{
    words_are_fields();
    let Some((line, further)) = cut(text, b'\n') else {
        return Err(ReadFault::Bad);
    };
    match read_event(alloc, version, line) {
        Ok(event) => Ok((event, further)),
        Err(fault) => Err(fault),
    }
}
