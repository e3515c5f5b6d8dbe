//! The line that tells how a server does.

ghost use Rattle.std.specs.Prelude.{◌≡◌, ◌++◌, IfOk, OnOk, string_bytes};
ghost use Rattle.std.specs.List.{flat_map};
ghost use Rattle.am_serve_drain.specs.Logs.{count_words, log_text};

use crate::counts::ServerCounts;
use itoa::Buffer;
use std::alloc::{AllocError, Global};

// Writes counts, each with its name before it and a space after it.
fn put_counts(text: &mut String, counts: &[(&str, u64)]) -> Result<(), AllocError>
    ensures { OnOk result (string_bytes text.new ≡
        string_bytes text.old ++ flat_map (λ c. count_words (c.0.now, c.1)) counts.now) }
{
    for counted in counts {
        let (name, count) = counted;
        text.push_str(name)?;
        text.push_str("=")?;
        text.push_str(Buffer::new().format(*count))?;
        text.push_str(" ")?;
    }
    Ok(())
}

/// The line that tells these counts, how many bytes of the trace wait to be written, and whether it is cut.
///
/// # Errors
/// Memory was refused.
pub fn log_text(
    alloc: Global,
    counts: &ServerCounts,
    waiting: u64,
    is_cut: bool,
) -> Result<String, AllocError>
    ensures { IfOk result (λ text. string_bytes text ≡ log_text counts.now waiting is_cut) }
{
    let mut text = String::new(alloc);
    let sessions = &counts.sessions;
    let trace = &counts.trace;
    let index = &counts.index;
    put_counts(
        &mut text,
        &[
            ("sessions", sessions.begun),
            ("open", sessions.open),
            ("steps", trace.events),
            ("commits", trace.of.commits),
            ("busy", trace.of.busy),
            ("too_many", trace.of.too_many),
            ("wrong", trace.of.wrong),
            ("in_final", index.in_final),
            ("in_runs", index.in_runs),
            ("runs", index.runs),
            ("ghosts", index.ghosts),
            ("kept", trace.kept),
            ("waiting", waiting),
            ("unaccepted", sessions.refused_by_system),
        ],
    )?;
    text.push_str(if is_cut { "trace=cut" } else { "trace=whole" })?;
    text.push_str("\n")?;
    Ok(text)
}
