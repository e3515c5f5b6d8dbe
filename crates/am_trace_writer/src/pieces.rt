//! Who takes a trace by pieces, while a server runs.

ghost use Rattle.std.specs.Prelude.{◌≡◌, [], ◌++◌, Bool};
ghost use Rattle.am_law_serial.specs.Trace.{Trace};

use am_record::{Reply, Step};

/// Takes a trace piece by piece, each after those before it.
pub trait PieceTaker {
    // From the one state to the other it took these events, in their order.
    ghost took: { Self → Trace → Self → Type 0 };

    // Whether some of what it took is lost.
    ghost has_lost: { Self → Bool };

    // Whether version 3 of the text alone writes what it took.
    ghost needs: { Self → Bool };

    /// Takes the events that come next.
    fn take(&mut self, piece: &[(Step, Reply)])
        ensures { took self.old piece.now self.new };

    /// Whether some of what it took is lost.
    fn is_cut(&self) -> bool
        ensures { result ≡ has_lost self.now };

    /// Whether version 3 of the text alone writes what it took.
    fn needs_three(&self) -> bool
        ensures { result ≡ needs self.now };

    ghost took_none: { (a : Self) → took a [] a };

    ghost took_both: { (a b c : Self) (x y : Trace) → took a x b → took b y c → took a (x ++ y) c };
}

/// Lets all pieces go.
#[derive(Drop)]
pub struct LetGo;

impl PieceTaker for LetGo {
    ghost use Rattle.std.specs.Prelude.{false};

    ghost took = { λ _ _ _. Unit {0} };

    ghost has_lost = { λ _. false };

    ghost needs = { λ _. false };

    fn take(&mut self, _piece: &[(Step, Reply)]) {}

    fn is_cut(&self) -> bool {
        false
    }

    fn needs_three(&self) -> bool {
        false
    }

    ghost took_none = { λ _. tt };

    ghost took_both = { λ _ _ _ _ _ _ _. tt };
}
