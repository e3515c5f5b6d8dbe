//! Lines that came together, whose steps are taken with nobody else's between them.

ghost use Rattle.std.specs.Prelude.{◌≡◌, ◌+◌, ◌<◌, None, IfSome, false};
ghost use Rattle.am_line_session.specs.Unsent.{unsent_with};

use am_line_dialogue::Response;
use am_record::Reply;

/// So many lines at most are answered while others wait.
const MOST_LINES: u32 = 16;

/// So many answers at most are unsent meanwhile. They have room in a sink's buffer, so that none waits to be written.
const MOST_UNSENT: u32 = 64;

/// What a session has of the store while it answers lines that came together.
#[derive(Drop)]
pub(crate) struct Together<H: Drop> {
    /// What keeps others' steps out, while it does.
    pub(crate) held: Option<H>,
    // How many lines were answered meanwhile.
    lines: u32,
    // How many answers aren't sent on.
    unsent: u32,
}

impl<H: Drop> Together<H> {
    pub(crate) fn new() -> Together<H>
        ensures held { result.held ≡ None }
        ensures lines { result.lines ≡ 0 }
        ensures unsent { result.unsent ≡ 0 }
    {
        Together {
            held: None,
            lines: 0,
            unsent: 0,
        }
    }

    // Others may take their steps.
    fn let_go(&mut self)
        ensures held { self.new.held ≡ None }
        ensures lines { self.new.lines ≡ 0 }
        ensures unsent { self.new.unsent ≡ self.old.unsent }
    {
        self.held = None;
        self.lines = 0;
    }

    /// A line has this response. Lets go, unless the session goes on with a further one at once, and few were answered.
    pub(crate) fn note(&mut self, response: &Response, goes_on: bool)
        ensures free { goes_on ≡ false → self.new.held ≡ None }
        ensures few { IfSome self.new.held (λ held. (self.new.lines ≡ self.old.lines + 1) × (self.new.lines < 16)) }
        ensures short { IfSome self.new.held (λ held. self.new.unsent < 64) }
        ensures unsent { self.new.unsent ≡ unsent_with response.now self.old.unsent }
    {
        self.lines = self.lines.saturating_add(1);
        self.unsent = match response {
            // (their text may be long)
            Response::Replied(Reply::Rows(_)) | Response::Who(_) => u32::MAX,
            _ => self.unsent.saturating_add(1),
        };
        if !goes_on || self.lines >= MOST_LINES || self.unsent >= MOST_UNSENT {
            self.let_go();
        }
    }

    /// All answers were sent on.
    pub(crate) fn send(&mut self)
        ensures held { self.new.held ≡ self.old.held }
        ensures lines { self.new.lines ≡ self.old.lines }
        ensures unsent { self.new.unsent ≡ 0 }
    {
        self.unsent = 0;
    }
}
