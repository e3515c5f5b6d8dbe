//! Up to where a replica stands at the log's end.

ghost use Rattle.std.specs.Prelude.{◌≡◌, OnOk, OnErr};
ghost use Rattle.am_replica_waits.specs.Ends.{no_ends, newest_known, with_reached, with_answered, has_reached};

use am_record::NoMemory;
use std::alloc::Global;
use std::marker::Model;

/// A question for the log's end that was answered: the moment before which it wasn't asked, and the revision.
#[derive(Clone, Copy, Debug)]
pub struct Question {
    pub asked: u64,
    pub end: u64,
}

/// What is known of the log's end: a read by the log is answered only where that says so.
pub struct Ends {
    known: u64,
    applied: u64,
    unreached: Vec<Question>,
}

// By hand: a crate above then need not prove once more how the questions are dropped.
impl Drop for Ends {
    fn drop(self) {
        let Ends {
            known: _,
            applied: _,
            unreached,
        } = self;
        drop(unreached);
    }
}

impl Model for Ends {
    ghost use Rattle.am_replica_waits.specs.Ends.{EndsState};

    ghost Value = { EndsState };

    ghost view = { λ e. record { known = e.known; applied = e.applied; unreached = e.unreached.items } };
}

impl Ends {
    /// Nothing was applied or asked.
    pub fn new(alloc: Global) -> Ends
        ensures { result ≡ no_ends }
    {
        Ends {
            known: 0,
            applied: 0,
            unreached: Vec::new(alloc),
        }
    }

    /// All up to the revision is applied. It takes no memory.
    pub fn reach(&mut self, revision: u64)
        ensures { self.new ≡ with_reached revision self.old }
    {
        let applied = self.applied.max(revision);
        self.known = newest_known(applied, self.known, &self.unreached);
        self.applied = applied;
        self.unreached.retain(|question| applied < question.end);
    }

    /// A question was answered.
    ///
    /// # Errors
    /// NoMemory, where memory was refused: then nothing is known by it.
    pub fn answered(&mut self, question: Question) -> Result<(), NoMemory>
        ensures known { OnOk result (self.new ≡ with_answered question self.old) }
        ensures same { OnErr result (self.new ≡ self.old) }
    {
        if question.end <= self.applied {
            self.known = self.known.max(question.asked);
        } else {
            self.unreached.push(question)?;
        }
        Ok(())
    }

    /// The newest moment whose end of the log is applied: 0 where there is none.
    pub fn known(&self) -> u64
        ensures { result ≡ self.now.known }
    {
        self.known
    }

    /// The revision up to which all is applied.
    pub fn applied(&self) -> u64
        ensures { result ≡ self.now.applied }
    {
        self.applied
    }

    /// Whether a read by the log that began at this moment may be answered now. No read begins at 0.
    pub fn is_reached(&self, begun: u64) -> bool
        ensures { result ≡ has_reached begun self.now }
    {
        0 < begun && begun <= self.known
    }
}

// The newest of the moments whose end is applied.
fn newest_known(applied: u64, known: u64, questions: &[Question]) -> u64
    ensures { result ≡ newest_known applied known questions.now }
{
    let mut newest = known;
    for question in questions {
        if question.end <= applied {
            newest = newest.max(question.asked);
        }
    }
    newest
}
