//! What is told of sessions.

ghost use Rattle.std.specs.Prelude.{◌≡◌};

use std::marker::Model;

/// How a session stands beside those that would have the store to themselves.
#[derive(Clone, Copy, PartialEq, Eq)]
pub enum Standing {
    /// It neither holds nor waits.
    Free,
    /// It holds.
    Holds,
    /// It waits, to hold or for its turn while another holds.
    Waits,
}

/// What is told of a session.
#[derive(Clone, Copy, PartialEq, Eq)]
pub struct ToldSession {
    /// Its number.
    pub session: u64,
    /// The number of its transaction, where one is active.
    pub tx: Option<u64>,
    /// How many whole seconds ago its last line came.
    pub seconds: u64,
    pub standing: Standing,
}

/// What is told of sessions.
pub struct ToldSessions {
    items: Vec<ToldSession>,
}

// By hand: a crate above then need not prove once more how they are dropped.
impl Drop for ToldSessions {
    fn drop(self) {
        let ToldSessions { items } = self;
        drop(items);
    }
}

impl Model for ToldSessions {
    ghost use Rattle.std.specs.Prelude.{List};
    ghost use Rattle.am_line_dialogue.specs.declared.told_sessions.ToldSession.{ToldSession};

    ghost Value = { List ToldSession };

    ghost view = { λ a. a.items.items };
}

impl ToldSessions {
    /// The sessions of a vector. Takes no memory.
    pub fn new(items: Vec<ToldSession>) -> ToldSessions
        ensures { result ≡ items.items }
    {
        ToldSessions { items }
    }

    pub fn as_slice(&self) -> &[ToldSession]
        ensures { result.now ≡ self.now }
    {
        &self.items
    }
}
