//! What a session heard.

ghost use Rattle.std.specs.Prelude.{◌≡◌};
ghost use Rattle.am_line_source.specs.LineAnswers.{line_by};
ghost use Rattle.am_line_session.specs.Heard.{MayHear, is_quit_heard};

use am_line_dialogue::{ParsedLine, parse};
use am_line_source::LineKind;
use std::alloc::Global;

/// What a session heard.
#[derive(Drop)]
pub enum Heard {
    /// A line.
    Line(ParsedLine),
    /// A line that came too late: the transaction has lapsed. What it says doesn't count.
    Late,
}

/// Reads a line that was cut from the input, unless it came too late. Only the records that it brings take memory.
pub(crate) fn hear(alloc: Global, is_late: bool, kind: LineKind, line: &[u8]) -> Heard
    ensures { MayHear is_late (line_by kind line.now) result }
{
    if is_late {
        return Heard::Late;
    }
    Heard::Line(parse(alloc, kind, line))
}

impl Heard {
    /// Whether the session ends here.
    pub(crate) fn is_quit(&self) -> bool
        ensures { result ≡ is_quit_heard self.now }
    {
        match self {
            Heard::Line(parsed) => parsed.is_quit(),
            Heard::Late => false,
        }
    }

    /// Whether it is answered while another session holds.
    pub(crate) fn is_urgent(&self) -> bool {
        match self {
            Heard::Line(parsed) => parsed.is_urgent(),
            Heard::Late => false,
        }
    }
}
