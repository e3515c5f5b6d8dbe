//! What a session stands on.

ghost use Rattle.std.specs.Prelude.{◌≡◌, None, true};
ghost use Rattle.am_record.specs.Sessions.{IsAllowed, active_after};
ghost use Rattle.am_line_dialogue.specs.Actions.{EndsAbort};
ghost use Rattle.am_line_dialogue.specs.Backends.{BackendMeaning};

use am_line_dialogue::{EndAnswer, HoldAnswer, ToldSessions};
use am_line_wire::WhichSessions;
use am_record::{NoMemory, Reply, Step};
use std::alloc::Global;
use std::rt::Clock;
use std::sync::Wait;

/// A store as one session sees it.
pub trait Backend {
    // Its active transaction, its steps, and what it shows.
    ghost means: { BackendMeaning Self };

    // Whether another session may end this one.
    ghost ended: { Type 0 };

    /// What keeps others' steps out between two steps of a session.
    type Held: Drop;

    /// Takes a step: a Begin where no transaction is active, a Do, Commit or Abort of the one that is. An Abort always
    /// succeeds. What keeps others out meanwhile, where something does, stays with the caller, who drops it before the
    /// session waits for anything.
    fn call<W: Wait>(&mut self, rt: &W, held: &mut Option<Self::Held>, step: Step) -> Reply
        requires { IsAllowed (means.active self.old) step }
        ensures steps { means.steps self.old step result self.new }
        ensures active { means.active self.new ≡ active_after (means.active self.old) result }
        ensures aborted { EndsAbort step result };

    /// The number of the session, and how many commits it sees. No step is taken.
    fn seen(&mut self) -> (u64, u64)
        ensures shows { means.shows self.old result.0 result.1 self.new }
        ensures active { means.active self.new ≡ means.active self.old };

    /// Keeps others from their turns that have no transaction active, for so many milliseconds at most, as soon as none
    /// has. Whether it does, and else why not. No step is taken.
    fn hold<W: Wait + Clock>(&self, rt: &W, millis: u64) -> HoldAnswer
        requires idle { means.active self.now ≡ None }
        ensures holds { means.holds self.now millis result };

    /// The sessions that have a transaction active, or all. No step is taken, and others' steps aren't kept out.
    ///
    /// # Errors
    /// NoMemory, where memory was refused for them.
    fn who<W: Wait + Clock>(
        &self,
        rt: &W,
        alloc: Global,
        which: WhichSessions,
        held: &Option<Self::Held>,
    ) -> Result<ToldSessions, NoMemory>
        requires free { held.now ≡ None }
        ensures tells { means.tells self.now which result };

    /// Has the session of that number end as one does whose client is gone: none of its lines is taken then. Where it
    /// is the session itself, that is told, and whoever asks ends it. No step is taken, and others' steps aren't kept
    /// out, the Abort of what is active there among them.
    fn end<W: Wait>(&self, rt: &W, session: u64, held: &Option<Self::Held>) -> EndAnswer
        requires free { held.now ≡ None }
        ensures ends { means.ends self.now session result };

    /// Whether another session ended this one, so that no line of it is taken any more.
    fn is_ended(&self) -> bool
        ensures { result ≡ true → ended };

    /// Whether a transaction is aborted where no line comes of its session for too long.
    fn may_lapse(&self) -> bool
        ensures lapses { result ≡ true → means.lapses };

    /// Returns once it is the session's turn, which has no transaction active: a line of it may be answered, and no
    /// other holds. It returns too where another session ended this one.
    fn await_turn<W: Wait + Clock>(&self, rt: &W)
        requires idle { means.active self.now ≡ None };

    /// Returns once the session, which has its turn, may take the step that begins a transaction.
    fn await_ticket<W: Wait + Clock>(&self, rt: &W)
        requires idle { means.active self.now ≡ None };

    /// Whether the session, which has no transaction active, would wait for its turn, or to begin one.
    fn is_kept(&self) -> bool
        requires idle { means.active self.now ≡ None };

    /// The turn is over: what a line asked for is done, and no transaction is active.
    fn end_turn<W: Wait>(&self, rt: &W)
        requires idle { means.active self.now ≡ None };

    /// The session ends, with no transaction active. It has no turn any more, and holds no more.
    fn end_session<W: Wait>(&self, rt: &W)
        requires idle { means.active self.now ≡ None };
}
