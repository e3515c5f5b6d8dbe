//! What a line says.

ghost use Rattle.std.specs.Prelude.{◌≡◌};
ghost use Rattle.am_line_source.specs.LineAnswers.{line_by};
ghost use Rattle.am_line_dialogue.specs.ParsedLine.{MayParse, is_quit, is_urgent};

use am_line_source::LineKind;
use am_line_text::LineFault;
use am_line_wire::{Request, parse_line};
use std::alloc::Global;

/// What a line says.
#[derive(Drop)]
pub enum ParsedLine {
    Asked(Request),
    Faulty(LineFault),
    TooLong,
}

/// Reads a line that was cut from the input. Only the records that it brings take memory.
pub fn parse(alloc: Global, kind: LineKind, line: &[u8]) -> ParsedLine
    ensures { MayParse (line_by kind line.now) result }
{
    match kind {
        LineKind::Long => ParsedLine::TooLong,
        LineKind::Text => match parse_line(alloc, line) {
            Ok(request) => ParsedLine::Asked(request),
            Err(fault) => ParsedLine::Faulty(fault),
        },
    }
}

impl ParsedLine {
    /// Whether the session ends here.
    pub fn is_quit(&self) -> bool
        ensures { result ≡ is_quit self.now }
    {
        matches!(self, ParsedLine::Asked(Request::Quit))
    }

    /// Whether it is answered while another session holds: who would hold hears which one does, and a session that
    /// is in the way can be found and ended.
    pub fn is_urgent(&self) -> bool
        ensures { result ≡ is_urgent self.now }
    {
        matches!(
            self,
            ParsedLine::Asked(Request::Hold(_) | Request::Who(_) | Request::End(_))
        )
    }
}
