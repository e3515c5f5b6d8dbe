//! The whole text, and lines after it.

ghost use Rattle.std.specs.Prelude.{◌≡◌, IfOk};
ghost use Rattle.am_trace_text.specs.Lines.{CanBeStored, IsTextOf, event_lines, trace_text};
ghost use Rattle.am_trace_text.specs.Versions.{version_needed};
ghost use Rattle.am_trace_text.specs.declared.header.Header.TheVariants.{Profile};

use crate::print::Page;
use am_record::{NoMemory, Reply, Step};
use am_trace_text::{Header, Version};
use std::alloc::Global;

/// The text of a trace of a store with the profile's limits, in the version that it needs: the second, where that can
/// write it, and else the third.
///
/// # Errors
/// NoMemory, where memory was refused.
#[inline(never)]
pub fn trace_text(alloc: Global, trace: &[(Step, Reply)]) -> Result<Vec<u8>, NoMemory>
    ensures text { IfOk result (λ text. text.items ≡ trace_text (Profile (version_needed trace.now)) trace.now) }
    ensures whole { IfOk result (λ text. CanBeStored trace.now → IsTextOf text.items trace.now) }
{
    let mut page = Page::new(alloc);
    let header = Header::Profile(Version::for_trace(trace));
    page.put(header.line().as_slice())?;
    for event in trace {
        page.put_event(&event.0, &event.1)?;
    }
    Ok(page.into_bytes())
}

/// The lines of events, in version 3, which are those of version 2 too where that can write them: what the text of a
/// trace has more where they stand after it.
///
/// # Errors
/// NoMemory, where memory was refused.
#[inline(never)]
pub fn event_lines(alloc: Global, events: &[(Step, Reply)]) -> Result<Vec<u8>, NoMemory>
    ensures { IfOk result (λ text. text.items ≡ event_lines Version.Three events.now) }
{
    let mut page = Page::new(alloc);
    for event in events {
        page.put_event(&event.0, &event.1)?;
    }
    Ok(page.into_bytes())
}
