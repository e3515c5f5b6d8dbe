//! How the program ends.

ghost use Rattle.std.specs.Prelude.{◌≡◌};
ghost use Rattle.am_program_alone.specs.Endings.{ending_status, ending_words};

use am_line_session::End;

/// The program's status, and what it says on standard error, by how its session ended. The text is empty where there is
/// nothing to say.
pub fn ending(end: &End) -> (u8, &'static str)
    ensures status { result.0 ≡ ending_status end.now }
    ensures text { result.1.now ≡ ending_words end.now }
{
    match end {
        End::Quit | End::EndedItself | End::EndedByAnother | End::EndOfInput => (0, ""),
        End::ReadFailed => (6, "amserve: read failed"),
        End::WriteFailed => (6, "amserve: write failed"),
        End::NoMemory => (5, "amserve: no memory"),
    }
}
