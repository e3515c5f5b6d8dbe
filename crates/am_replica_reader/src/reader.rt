//! The reader.

ghost use Rattle.std.specs.Prelude.{◌≡◌, ◌<◌, ◌-◌, ◌++◌, [], ℕ, List, IfOk, ltb};
ghost use Rattle.am_replica_log.specs.declared.event.Name.{Name as TheName};
ghost use Rattle.am_replica_log.specs.declared.event.Part.{Part as ThePart};
ghost use Rattle.am_replica_log.specs.History.{History, Puts, first_behind};
ghost use Rattle.am_replica_log.specs.Writers.{AllKeepPremise, KeepsPremise, NeverCounted};
ghost use Rattle.am_replica_reader.specs.Reading.{reader_at, over_by, came_of, text_left, of_log};
ghost use Rattle.am_replica_reader.specs.Reading.{ReadsFrom, TakesChange, StandsBehind};

use crate::came::Came;
use am_replica_log::{Entry, Event, Floor, Log, LogFault, Text};
use std::alloc::Global;
use std::marker::Model;

/// Where a reader of the log stands, and the text of the entry that its last change ended.
pub struct Reader {
    alloc: Global,
    // Why it is over, once it is.
    log: Result<Log, LogFault>,
    text: Text,
}

// By hand: a crate above then need not prove once more how the log is dropped.
impl Drop for Reader {
    fn drop(self) {
        let Reader {
            alloc: _,
            log,
            text,
        } = self;
        drop(log);
        drop(text);
    }
}

impl Model for Reader {
    ghost use Rattle.am_replica_reader.specs.Reading.{ReaderState, reader_code};

    ghost Value = { ReaderState };

    ghost coded = { reader_code };

    ghost view = { λ r. record { log = r.log; text = r.text } };
}

impl Reader {
    /// At the log's beginning.
    pub fn new(alloc: Global) -> Reader
        ensures exact { result ≡ reader_at (record { floor = 0; generation = 0; pieces = [] }) }
        ensures begun { StandsBehind 0 result [] }
    {
        Reader::of(alloc, Log::new(alloc))
    }

    /// With a snapshot that the floor names: the log is read on from a revision that was noted by
    /// [`Reader::first_behind`].
    pub fn behind(alloc: Global, floor: Floor) -> Reader
        requires { 0 < floor.snapshot.generation }
        ensures { result ≡ reader_at (record {
          floor = floor.since;
          generation = floor.snapshot.generation - 1;
          pieces = [];
        }) }
    {
        Reader::of(alloc, Log::behind(alloc, floor))
    }

    fn of(alloc: Global, log: Log) -> Reader
        ensures { result ≡ reader_at log }
    {
        Reader {
            alloc,
            log: Ok(log),
            text: Text::new(alloc),
        }
    }

    /// Takes a change in its turn, as [`Log::take`] does. Of an entry that it ends, and whose pieces all came, the text
    /// stands in the reader until the next change.
    ///
    /// # Errors
    /// NoMemory, where memory was refused; WentBack, where the floor doesn't follow the one that is known. The reader
    /// is over then: each further change is answered the same.
    pub fn take(&mut self, revision: u64, event: Event, text: &[u8]) -> Result<Came, LogFault>
        ensures { TakesChange (record { revision = revision; event = event; text = text.now }) self.old result
            self.new }
    {
        match self.read(revision, event, text) {
            Ok(entry) => Ok(self.keep(entry)),
            Err(why) => {
                self.end(why);
                Err(why)
            }
        }
    }

    // The entry that the change ends, where the reader isn't over.
    fn read(&mut self, revision: u64, event: Event, text: &[u8]) -> Result<Option<Entry>, LogFault>
        ensures { ReadsFrom (record { revision = revision; event = event; text = text.now }) self.old.log result
            self.new.log }
    {
        match &mut self.log {
            Ok(log) => log.take(self.alloc, revision, event, text),
            Err(why) => Err(*why),
        }
    }

    // Lets the entry's text stand in place of the last one, where an entry came with all its pieces.
    fn keep(&mut self, entry: Option<Entry>) -> Came
        ensures says { result ≡ came_of entry }
        ensures log { self.new.log ≡ self.old.log }
        ensures text { self.new.text ≡ text_left entry }
    {
        self.text = Text::new(self.alloc);
        let Some(Entry { name: _, text }) = entry else {
            return Came::Nothing;
        };
        let Some(text) = text else {
            return Came::PartsMissing;
        };
        self.text = text;
        Came::Whole
    }

    fn end(&mut self, why: LogFault)
        ensures { self.new ≡ over_by why }
    {
        self.log = Err(why);
        self.text = Text::new(self.alloc);
    }

    /// The text of the entry that the last change ended: no bytes where it ended none, or pieces are missing.
    pub fn text(&self) -> &[u8]
        ensures { result.now ≡ self.now.text }
    {
        self.text.as_slice()
    }

    /// As [`Log::generation`] has it.
    ///
    /// # Errors
    /// The fault by which the reader is over.
    pub fn generation(&self) -> Result<u64, LogFault>
        ensures now { result ≡ of_log (λ log. log.generation) self.now }
        ensures puts { IfOk result (λ g. (from : ℕ) (name : TheName) (part : ThePart) (text : List ℕ)
            (history later : History) → AllKeepPremise (later ++ history) → StandsBehind from self.now history →
            NeverCounted name history → KeepsPremise (Puts g name part text) (later ++ history)) }
    {
        match &self.log {
            Ok(log) => Ok(log.generation()),
            Err(why) => Err(*why),
        }
    }

    /// As [`Log::may_be_left`] has it.
    ///
    /// # Errors
    /// The fault by which the reader is over.
    pub fn may_be_left(&self, revision: u64) -> Result<bool, LogFault>
        ensures { result ≡ of_log (λ log. ltb log.floor revision) self.now }
    {
        match &self.log {
            Ok(log) => Ok(log.may_be_left(revision)),
            Err(why) => Err(*why),
        }
    }

    /// As [`Log::first_behind`] has it.
    ///
    /// # Errors
    /// The fault by which the reader is over.
    pub fn first_behind(&self, revision: u64) -> Result<u64, LogFault>
        ensures { result ≡ of_log (λ log. first_behind revision log.pieces) self.now }
    {
        match &self.log {
            Ok(log) => Ok(log.first_behind(revision)),
            Err(why) => Err(*why),
        }
    }
}
