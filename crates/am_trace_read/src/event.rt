//! Lines as they are read.

ghost use Rattle.std.specs.Prelude.{◌≡◌, ◌≢◌, List, ℕ, IfOk, IfSome, IfNone, Err};
ghost use Rattle.am_trace_text.specs.Cuts.{IsParted};
ghost use Rattle.am_trace_text.specs.FieldReadings.{IsReadAs};
ghost use Rattle.am_record.specs.Events.{Event};
ghost use Rattle.am_trace_text.specs.Lines.{IsEvent, event_words, parts_in};

use crate::cut::cut;
use crate::read_reply::read_reply;
use crate::read_step::read_step;
use am_line_text::{Fields, words_are_fields};
use am_record::{Reply, Step};
use am_trace_text::{ReadFault, Version};
use std::alloc::Global;

/// The step of a line and its reply. The line has no LF.
pub(crate) fn read_event(
    alloc: Global,
    version: Version,
    line: &[u8],
) -> Result<(Step, Reply), ReadFault>
    ensures event { IfOk result (λ e. IsEvent version e × (line.now ≡ event_words version e)) }
    ensures bad { result ≡ Err ReadFault.Bad → (e : Event) → IsEvent version e → line.now ≢ event_words version e }
{
    words_are_fields();
    match split(line) {
        Some((step, reply)) => read_parts(alloc, version, step, reply),
        None => Err(ReadFault::Bad),
    }
}

fn read_parts(
    alloc: Global,
    version: Version,
    step: &[u8],
    reply: &[u8],
) -> Result<(Step, Reply), ReadFault>
    ensures { IsReadAs (parts_in version step.now reply.now) result }
{
    let step = read_step(alloc, version, Fields::new(step))?;
    let reply = read_reply(alloc, version, Fields::new(reply))?;
    Ok((step, reply))
}

// What stands before the first bar and its spaces, and what stands after them.
fn split(line: &[u8]) -> Option<(&[u8], &[u8])>
    ensures some { IfSome result (λ p. IsParted line.now p.0.now p.1.now) }
    ensures none { IfNone result ((step reply : List ℕ) → IsParted line.now step reply → ⊥) }
{
    let (before, after) = cut(line, b'|')?;
    let (space, step) = before.split_last()?;
    let (other, reply) = after.split_first()?;
    if *space == b' ' && *other == b' ' {
        Some((step, reply))
    } else {
        None
    }
}
