//! Where a session stands between two lines, and what is due for the next one.

ghost use Rattle.am_record.specs.Sessions.{active_after};
ghost use Rattle.std.specs.Prelude.{◌≡◌, ◌≤◌, Some, [], length};
ghost use Rattle.am_line_dialogue.specs.Session.{at_start, session_after};
ghost use Rattle.am_line_dialogue.specs.Actions.{IsActionFor, IsActionForRequest, MayStage, MayTakeAlong, MayGather};
ghost use Rattle.am_line_dialogue.specs.Actions.{IsAllowedAction, hold_action};

use crate::action::Action;
use crate::lines::ParsedLine;
use crate::response::{HoldAnswer, Response};
use am_line_text::LineFault;
use am_line_wire::Request;
use am_record::{Key, MAX_RUN_RECORDS, NoMemory, Op, Records, Reply, Step, Value};
use std::alloc::Global;
use std::marker::Model;

/// The longest that a session may ask to hold.
const MAX_HOLD_MILLIS: u64 = 60_000;

/// Where a session stands between two lines: the transaction that is active in it, and the records that were staged for
/// its next load or put.
pub struct Session {
    active: Option<u64>,
    staged: Vec<(Key, Value)>,
    alloc: Global,
}

// By hand: a crate above then need not prove once more how a session is dropped.
impl Drop for Session {
    fn drop(self) {
        let Session {
            active: _,
            staged,
            alloc: _,
        } = self;
        drop(staged);
    }
}

impl Model for Session {
    ghost use Rattle.std.specs.Prelude.{◌≤◌, length};
    ghost use Rattle.am_line_dialogue.specs.Session.{SessionState, session_code};
    ghost use Rattle.am_record.specs.Limits.{max_run_records};

    ghost Value = { SessionState };

    ghost coded = { session_code };

    ghost view = { λ s. record { active = s.active; staged = s.staged.items } };

    ghost invariant = { λ s. length s.staged.items ≤ max_run_records };
}

impl Session {
    /// A session that begins. Takes no memory.
    pub fn new(alloc: Global) -> Session
        ensures { result ≡ at_start }
    {
        Session {
            active: None,
            staged: Vec::new(alloc),
            alloc,
        }
    }

    /// The transaction that is active in the session.
    pub fn active(&self) -> Option<u64>
        ensures { result ≡ self.now.active }
    {
        self.active
    }

    /// What is due for a line. A load takes with it what was staged. Only room for records that the line brings beside
    /// those staged takes memory; where it is refused, the line is answered so and nothing is changed.
    pub fn action(&mut self, parsed: ParsedLine) -> Action
        ensures action { IsActionFor self.old parsed result self.new }
        ensures allowed { IsAllowedAction self.old.active result }
        ensures active { self.new.active ≡ self.old.active }
    {
        match parsed {
            ParsedLine::TooLong => Action::Answer(Response::TooLong),
            ParsedLine::Faulty(fault) => Action::Answer(Response::Faulty(fault)),
            ParsedLine::Asked(request) => self.action_for_request(request),
        }
    }

    /// Goes on after the reply to a step that was due.
    pub fn reply(&mut self, reply: &Reply)
        ensures { self.new ≡ session_after self.old reply.now }
    {
        if matches!(reply, Reply::Committed(_) | Reply::Aborted) {
            let _ = self.take_staged();
        }
        self.active = active_behind(self.active, reply);
    }

    // What is asked of the store itself needs no transaction. QUIT takes no step here: the session ends at it.
    fn action_for_request(&mut self, request: Request) -> Action
        ensures action { IsActionForRequest self.old request result self.new }
        ensures allowed { IsAllowedAction self.old.active result }
    {
        match request {
            Request::Begin => match self.active {
                None => Action::Take(Step::Begin),
                Some(_) => Action::Answer(Response::Active),
            },
            Request::Do(op) => match self.active {
                None => Action::Answer(Response::NoTransaction),
                Some(tx) => self.operation(tx, op),
            },
            Request::Stage(records) => match self.active {
                None => Action::Answer(Response::NoTransaction),
                Some(_) => Action::Answer(self.stage(records)),
            },
            Request::Commit => match self.active {
                None => Action::Answer(Response::NoTransaction),
                Some(_) if !self.staged.is_empty() => Action::Answer(Response::StillStaged),
                Some(tx) => Action::Take(Step::Commit(tx)),
            },
            Request::Abort => match self.active {
                None => Action::Answer(Response::NoTransaction),
                Some(tx) => Action::Take(Step::Abort(tx)),
            },
            Request::Merge(limit) => Action::Take(Step::Merge(limit)),
            Request::Clean(range, limit) => Action::Take(Step::Clean(range, limit)),
            Request::Seen => Action::TellSeen,
            Request::Hold(millis) => match self.active {
                None => hold(millis),
                Some(_) => Action::Answer(Response::Active),
            },
            Request::Who(which) => Action::TellWho(which),
            Request::End(session) => Action::AskEnd(session),
            Request::Quit => Action::Answer(Response::NoTransaction),
        }
    }

    // An operation of the active transaction.
    fn operation(&mut self, tx: u64, op: Op) -> Action
        requires { self.old.active ≡ Some tx }
        ensures action { IsActionForRequest self.old (Request.Do op) result self.new }
        ensures allowed { IsAllowedAction self.old.active result }
    {
        match self.take_along(op) {
            Ok(whole) => Action::Take(Step::Do(tx, whole)),
            Err(NoMemory) => Action::Answer(Response::Faulty(LineFault::NoMemory)),
        }
    }

    // The operation with what was staged, which a load or a put takes along.
    fn take_along(&mut self, op: Op) -> Result<Op, NoMemory>
        ensures { MayTakeAlong self.old op result self.new }
    {
        match op {
            Op::Load(records) => Ok(Op::Load(self.gather(records)?)),
            Op::Put(records) => Ok(Op::Put(self.gather(records)?)),
            _ => Ok(op),
        }
    }

    // What was staged and then these records. Nothing is staged afterwards.
    fn gather(&mut self, records: Records) -> Result<Records, NoMemory>
        ensures { MayGather self.old records result self.new }
    {
        if self.staged.is_empty() {
            return Ok(records);
        }
        let mut more = records.into_vec();
        self.staged.reserve(more.len())?;
        let mut all = std::mem::replace(&mut self.staged, Vec::new(self.alloc));
        let Ok(()) = all.append(&mut more) else {
            unreachable!()
        };
        Ok(Records::new(all))
    }

    // Lets records wait for the next load or put.
    fn stage(&mut self, records: Records) -> Response
        ensures { MayStage self.old records result self.new }
    {
        let mut more = records.into_vec();
        if more.len() > MAX_RUN_RECORDS - self.staged.len() {
            return Response::TooManyStaged;
        }
        match self.staged.append(&mut more) {
            Ok(()) => Response::Staged,
            Err(_) => Response::Faulty(LineFault::NoMemory),
        }
    }

    // The records that were staged. None are afterwards.
    fn take_staged(&mut self) -> Vec<(Key, Value)>
        ensures staged { result.items ≡ self.old.staged }
        ensures left { self.new ≡ record { active = self.old.active; staged = [] } }
    {
        std::mem::replace(&mut self.staged, Vec::new(self.alloc))
    }
}

// Who would hold for longer than anybody may, or not at all, is told so at once.
fn hold(millis: u64) -> Action
    ensures { result ≡ hold_action millis }
{
    if (1..=MAX_HOLD_MILLIS).contains(&millis) {
        Action::AskHold(millis)
    } else {
        Action::Answer(Response::Hold(HoldAnswer::OutOfBounds))
    }
}

/// The transaction that is active after a reply.
pub fn active_behind(active: Option<u64>, reply: &Reply) -> Option<u64>
    ensures { result ≡ active_after active reply.now }
{
    match reply {
        Reply::Begun(tx) => Some(*tx),
        Reply::Committed(_) | Reply::Aborted => None,
        _ => active,
    }
}
