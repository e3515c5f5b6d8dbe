//! How a session says BYE.

ghost use Rattle.std.specs.Prelude.{◌≡◌, ◌^◌, ◌<◌, false, None, OnOk};
ghost use Rattle.am_line_sink.specs.SinkWrites.{Wrote};
ghost use Rattle.am_line_dialogue.specs.Responses.{bye};

use crate::backend::Backend;
use am_line_sink::{Failed, Sink, give_all};

/// A sink at which BYE is said only while nothing is active in the backend: whoever says it shows the backend. Every
/// sink is one beside every backend. Code over any such sink has no other way to part from it.
pub trait PartingSink<B: Backend>: Sink {
    // Beside which backend BYE was said, or a beginning of it, and at which sink, and what that left.
    ghost parts: { B → Self → Self → Type 0 };

    /// Answers QUIT, and sends the answer on. Who reads it knows that nothing is active any more.
    fn say_bye(&mut self, backend: &B) -> Result<(), Failed>
        requires countable { Self.failures self.old < 2 ^ 63 }
        requires idle { B.means.active backend.now ≡ None }
        ensures parted { parts backend.now self.old self.new }
        ensures wrote { Wrote Self.holds Self.failures self.old bye result self.new }
        ensures sent { OnOk result (Self.pending self.new ≡ false) };
}

impl<B: Backend, K: Sink> PartingSink<B> for K {
    ghost parts = { λ _ _ _. Unit {0} };

    fn say_bye(&mut self, _backend: &B) -> Result<(), Failed> {
        give_all(self, b"BYE\n")?;
        self.flush()
    }
}
