//! Failures of streams, which are counted.

ghost use Rattle.std.specs.Prelude.{◌≡◌, ◌-◌, ◌^◌, ◌<◌, ◌↔◌, MatchResult, IsTrue};
ghost use Rattle.am_line_sink.specs.Failures.{IsAnswered, IsCounted};

use std::io;

/// A source could not be read, or a sink could not be written.
#[derive(Clone, Copy, Debug, PartialEq, Eq)]
pub struct Failed;

/// Counts a call, and says whether it is the one that was waited for. `left` is how many calls there are up to that
/// one, itself counted, and 0 where none is waited for.
pub fn falls_due(left: &mut u64) -> bool
    ensures due { IsTrue result ↔ (left.old ≡ 1) }
    ensures left { left.new ≡ left.old - 1 }
{
    let is_due = *left == 1;
    *left = left.saturating_sub(1);
    is_due
}

/// An answer of one of std's streams. Any error is a failure, and is counted.
///
/// # Errors
/// Failed, where it is one.
pub fn or_failed<T: Drop>(answer: io::Result<T>, failures: &mut u64) -> Result<T, Failed>
    requires countable { failures.old < 2 ^ 63 }
    ensures { MatchResult answer
        (λ x. IsAnswered result x failures.old failures.new)
        (λ _. IsCounted result failures.old failures.new) }
{
    match answer {
        Ok(x) => Ok(x),
        Err(_) => {
            *failures += 1;
            Err(Failed)
        }
    }
}
