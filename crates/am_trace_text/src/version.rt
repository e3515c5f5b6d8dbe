//! The versions of the text.

ghost use Rattle.std.specs.Prelude.{◌≡◌};
ghost use Rattle.am_trace_text.specs.Versions.{op_needs_three, needs_three, version_needed};

use am_record::{Op, Reply, Step};

/// The version of a trace's lines. It says nothing of the store's limits.
#[derive(Clone, Copy, Debug, PartialEq, Eq)]
pub enum Version {
    /// Keys are numbers, and there are no savepoints. It is read, and not written any more.
    One,
    /// Keys are strings of bytes.
    Two,
    /// The lines of version 2, and those of Set, ScanBack, DeleteRange and Put.
    Three,
}

impl Version {
    /// The version in which the trace is written: the second, where that can write it.
    pub fn for_trace(trace: &[(Step, Reply)]) -> Version
        ensures { result ≡ version_needed trace.now }
    {
        if trace.iter().any(needs_three) {
            Version::Three
        } else {
            Version::Two
        }
    }
}

/// Whether version 3 alone writes the step or its reply.
pub fn needs_three(event: &(Step, Reply)) -> bool
    ensures { result ≡ needs_three event.now }
{
    match &event.0 {
        Step::Do(_, op) if op_needs_three(op) => true,
        _ => matches!(&event.1, Reply::Deleted(_)),
    }
}

fn op_needs_three(op: &Op) -> bool
    ensures { result ≡ op_needs_three op.now }
{
    matches!(
        op,
        Op::ScanBack(_, _) | Op::Set(_, _) | Op::DeleteRange(_, _) | Op::Put(_)
    )
}
