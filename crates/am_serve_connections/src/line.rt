//! Who holds a turnstile, and who waits at it.

ghost use Rattle.std.specs.Prelude.{◌≡◌, ◌≤◌, ◌<◌, [], None, length, map, nat_lt, IfOk};
ghost use Rattle.am_serve_connections.specs.Connections.{with_standing};
ghost use Rattle.std.specs.VecDeque.{deque_capacity, deque_len};
ghost use Rattle.am_serve_connections.specs.Tickets.{without};
ghost use Rattle.am_serve_connections.specs.Turnstiles.{asked_anew, asking_end, first_stage, granted, granted_at};
ghost use Rattle.am_serve_connections.specs.Turnstiles.{granted_beside, held_at, holder_standing, is_holder};
ghost use Rattle.am_serve_connections.specs.Turnstiles.{is_kept, is_shut, joined_by, nap_of, next_waiter, released};
ghost use Rattle.am_serve_connections.specs.Turnstiles.{shut_by, shuts, stage_at, standing_of, stretch_of};
ghost use Rattle.am_serve_connections.specs.Turnstiles.{waiter_standing, waiting_after, waits};

use crate::connections::ServedSession;
use std::alloc::{AllocError, Global};
use std::collections::VecDeque;

/// So many sessions at most are served at once.
const MOST_PLACES: usize = 512;

/// So long one waits at most until it looks again, in microseconds.
pub(crate) const NAP_MICROS: u64 = 100_000;

/// So long at most who would hold does, in microseconds.
const ASKING_NAP_MICROS: u64 = 10_000;

/// For so long at least others are kept out where one would hold, in microseconds.
const LEAST_STRETCH: u64 = 50_000;

/// How far one is that asked to hold.
#[derive(Clone, Copy, PartialEq, Eq)]
pub(crate) enum Stage {
    /// It doesn't hold yet. Who comes is kept out, until those that are inside have gone.
    KeepsOut,
    /// It doesn't hold yet. Who comes is let in meanwhile: those that are inside take too long.
    LetsIn,
    /// It holds, up to that time in microseconds.
    Holds(u64),
}

/// A session that holds, or would once no other is inside.
#[derive(Clone, Copy, PartialEq, Eq)]
pub(crate) struct Holder {
    pub(crate) place: usize,
    pub(crate) session: u64,
    /// When it asked, in microseconds.
    pub(crate) since: u64,
    /// For so many microseconds at most it asks, and then holds.
    pub(crate) micros: u64,
    pub(crate) stage: Stage,
}

/// A session that waits for its turn.
#[derive(Clone, Copy, PartialEq, Eq)]
pub(crate) struct Waiter {
    pub(crate) place: usize,
    pub(crate) session: u64,
}

/// How a session stands at a turnstile.
#[derive(Clone, Copy, PartialEq, Eq)]
pub enum Standing {
    /// It neither holds nor waits.
    Free,
    /// It holds.
    Holds,
    /// It would hold, or waits for its turn.
    Waits,
}

/// What becomes of a session that asks to hold.
#[derive(Clone, Copy, PartialEq, Eq)]
pub(crate) enum Asked {
    /// It doesn't: this session holds, or asked before.
    KeptBy(u64),
    /// Nobody holds any more. Those that wait go on before it may ask.
    OthersFirst,
    /// It is the one that would hold.
    Asks,
}

/// What becomes of a session that would hold.
#[derive(Clone, Copy, PartialEq, Eq)]
pub(crate) enum Grant {
    /// It holds.
    Holds,
    /// It would no more: this session is inside, and its time is over.
    InVain(u64),
    /// It looks again after so many microseconds at most.
    AsksOn(u64),
    /// It was told before that it doesn't hold.
    Gone,
}

// For how many microseconds others are kept out at once where one asks to hold for so many.
fn stretch_of(micros: u64) -> u64
    ensures stretch { result ≡ stretch_of micros }
    ensures positive { 0 < result }
{
    (micros / 10).max(LEAST_STRETCH)
}

impl Holder {
    /// Who asks to hold from now on.
    pub(crate) fn new(place: usize, session: u64, since: u64, micros: u64) -> Holder
        ensures { result ≡ record {
          place = place;
          session = session;
          since = since;
          micros = micros;
          stage = first_stage;
        } }
    {
        Holder {
            place,
            session,
            since,
            micros,
            stage: Stage::KeepsOut,
        }
    }

    // When it has asked for as long as it may.
    fn end(&self) -> u64
        ensures { result ≡ asking_end self.now }
    {
        self.since.saturating_add(self.micros)
    }

    // Whether who comes is kept out.
    fn shuts(&self) -> bool
        ensures { result ≡ shuts self.now.stage }
    {
        match self.stage {
            Stage::KeepsOut | Stage::Holds(_) => true,
            Stage::LetsIn => false,
        }
    }

    fn standing(&self) -> Standing
        ensures { result ≡ holder_standing self.now.stage }
    {
        match self.stage {
            Stage::KeepsOut | Stage::LetsIn => Standing::Waits,
            Stage::Holds(_) => Standing::Holds,
        }
    }

    // How far it is at a time at which another is inside: others are kept out for the first stretch and the tenth.
    fn stage_at(&self, now: u64) -> Stage
        ensures { result ≡ stage_at self.now now }
    {
        let stretches = now.saturating_sub(self.since) / stretch_of(self.micros);
        if stretches.is_multiple_of(9) {
            Stage::KeepsOut
        } else {
            Stage::LetsIn
        }
    }

    // What becomes of it beside a session that is inside, and who would hold then.
    fn granted_beside(self, session: u64, now: u64) -> (Grant, Option<Holder>)
        ensures { result ≡ granted_beside self session now }
    {
        let end = self.end();
        if end <= now {
            return (Grant::InVain(session), None);
        }
        let stage = self.stage_at(now);
        let nap = (end - now).min(ASKING_NAP_MICROS);
        (Grant::AsksOn(nap), Some(Holder { stage, ..self }))
    }

    // What becomes of it by a session that is inside, where one is, and who holds or would then.
    fn granted(self, other: Option<u64>, now: u64) -> (Grant, Option<Holder>)
        ensures { result ≡ granted_at self.stage self other now }
    {
        match self.stage {
            Stage::Holds(_) => (Grant::Holds, Some(self)),
            Stage::KeepsOut => match other {
                Some(session) => self.granted_beside(session, now),
                None => {
                    let stage = Stage::Holds(now.saturating_add(self.micros));
                    (Grant::Holds, Some(Holder { stage, ..self }))
                }
            },
            Stage::LetsIn => match other {
                Some(session) => self.granted_beside(session, now),
                None => {
                    let stage = Stage::KeepsOut;
                    (Grant::AsksOn(0), Some(Holder { stage, ..self }))
                }
            },
        }
    }
}

// How one stands that doesn't hold, by whether it waits.
fn waiter_standing(waits: bool) -> Standing
    ensures { result ≡ waiter_standing waits }
{
    if waits {
        Standing::Waits
    } else {
        Standing::Free
    }
}

/// Who holds, and who waits, in the order in which they came.
#[derive(Drop)]
pub(crate) struct Line {
    holder: Option<Holder>,
    waiting: VecDeque<Waiter, Global>,
    ghost room: { 512 ≤ deque_capacity waiting },
    ghost few: { deque_len waiting ≤ 512 },
}

impl Line {
    /// Nobody holds or waits. The room for all that ever wait is got here.
    pub(crate) fn new(alloc: Global) -> Result<Line, AllocError>
        ensures none { IfOk result (λ line. (line.holder ≡ None) × (line.waiting.items ≡ [])) }
    {
        let waiting = VecDeque::with_capacity(alloc, MOST_PLACES)?;
        Ok(Line {
            holder: None,
            waiting,
        })
    }

    /// Whether who comes is kept out.
    pub(crate) fn is_shut(&self) -> bool
        ensures { result ≡ is_shut self.now.holder }
    {
        self.holder.is_some_and(|holder| holder.shuts())
    }

    /// The place that keeps those out that come, where one does.
    pub(crate) fn shut_by(&self) -> Option<usize>
        ensures { result ≡ shut_by self.now.holder }
    {
        let holder = self.holder?;
        if holder.shuts() {
            Some(holder.place)
        } else {
            None
        }
    }

    /// Whether who stands at this place has to wait.
    pub(crate) fn is_kept(&self, place: usize) -> bool
        ensures { result ≡ is_kept self.now.holder place }
    {
        self.holder
            .is_some_and(|holder| holder.place != place && holder.shuts())
    }

    /// Whether it holds that stands at this place, or would.
    pub(crate) fn is_holder(&self, place: usize) -> bool
        ensures { result ≡ is_holder self.now.holder place }
    {
        self.holder.is_some_and(|holder| holder.place == place)
    }

    /// A session asks to hold, from its line on. Where another does it is told which. Where it holds itself that ends,
    /// and while anybody waits these go on first, and it asks again.
    pub(crate) fn hold_anew(&mut self, asking: Holder) -> Asked
        ensures asked { result ≡ (asked_anew self.old.holder self.old.waiting.items asking).0 }
        ensures holder { self.new.holder ≡ (asked_anew self.old.holder self.old.waiting.items asking).1 }
        ensures same { self.new.waiting ≡ self.old.waiting }
    {
        match self.holder {
            Some(other) if other.place != asking.place => Asked::KeptBy(other.session),
            None if self.waiting.is_empty() => {
                self.holder = Some(asking);
                Asked::Asks
            }
            _ => {
                self.holder = None;
                Asked::OthersFirst
            }
        }
    }

    /// Whether who would hold at this place does from now on, by a session that is inside, where one is. While one is,
    /// others are kept out for the first tenth of its time and for the last, and let in between. It holds only once
    /// nobody was inside while others were kept out.
    pub(crate) fn grant(&mut self, place: usize, other: Option<u64>, now: u64) -> Grant
        ensures granted { result ≡ (granted self.old.holder place other now).0 }
        ensures holder { self.new.holder ≡ (granted self.old.holder place other now).1 }
        ensures same { self.new.waiting ≡ self.old.waiting }
    {
        match self.holder {
            Some(holder) if holder.place == place => {
                let (grant, after) = holder.granted(other, now);
                self.holder = after;
                grant
            }
            _ => Grant::Gone,
        }
    }

    /// Who stands at this place holds no more.
    pub(crate) fn release(&mut self, place: usize)
        ensures holder { self.new.holder ≡ released self.old.holder place }
        ensures same { self.new.waiting ≡ self.old.waiting }
    {
        if self.holder.is_some_and(|holder| holder.place == place) {
            self.holder = None;
        }
    }

    /// Nobody holds any more.
    pub(crate) fn release_any(&mut self)
        ensures holder { self.new.holder ≡ None }
        ensures same { self.new.waiting ≡ self.old.waiting }
    {
        self.holder = None;
    }

    /// It is so late: nobody holds longer than it may.
    pub(crate) fn look(&mut self, now: u64)
        ensures holder { self.new.holder ≡ held_at self.old.holder now }
        ensures same { self.new.waiting ≡ self.old.waiting }
    {
        if let Some(
            Holder {
                stage: Stage::Holds(until),
                ..
            },
        ) = self.holder
            && until <= now
        {
            self.holder = None;
        }
    }

    /// One more waits, after the others. Takes no memory; whether there was room.
    pub(crate) fn join(&mut self, waiter: Waiter) -> bool
        ensures room { result ≡ nat_lt (length self.old.waiting.items) 512 }
        ensures waits { self.new.waiting.items ≡ joined_by self.old.waiting.items waiter }
        ensures same { self.new.holder ≡ self.old.holder }
    {
        if self.waiting.len() >= MOST_PLACES {
            return false;
        }
        self.waiting.push_back_reserved(waiter);
        true
    }

    /// Who stands at this place waits no more.
    pub(crate) fn leave(&mut self, place: usize)
        ensures left { self.new.waiting.items ≡ without place self.old.waiting.items }
        ensures same { self.new.holder ≡ self.old.holder }
    {
        self.waiting.retain(|waiter| waiter.place != place);
    }

    /// Who goes on: while nobody is kept out, who has waited longest, and waits no more.
    pub(crate) fn next(&mut self) -> Option<Waiter>
        ensures next { result ≡ next_waiter (is_shut self.old.holder) self.old.waiting.items }
        ensures left { self.new.waiting.items ≡ waiting_after (is_shut self.old.holder) self.old.waiting.items }
        ensures same { self.new.holder ≡ self.old.holder }
    {
        if self.is_shut() {
            return None;
        }
        self.waiting.pop_front()
    }

    // Whether the session of this number waits for its turn.
    fn waits(&self, session: u64) -> bool
        ensures { result ≡ waits self.now.waiting.items session }
    {
        self.waiting.iter().any(|waiter| waiter.session == session)
    }

    // How the session of this number stands.
    fn standing(&self, session: u64) -> Standing
        ensures { result ≡ standing_of self.now.holder self.now.waiting.items session }
    {
        match self.holder {
            Some(holder) if holder.session == session => holder.standing(),
            _ => waiter_standing(self.waits(session)),
        }
    }

    /// Says of these sessions how they stand.
    pub(crate) fn tell(&self, sessions: &mut [ServedSession])
        ensures { sessions.new ≡ map (with_standing self.now.holder self.now.waiting.items) sessions.old }
    {
        for told in sessions.iter_mut() {
            told.standing = self.standing(told.session);
        }
    }

    /// How many microseconds one that waits sleeps until it looks again.
    pub(crate) fn nap(&self, now: u64) -> u64
        ensures { result ≡ nap_of self.now.holder now }
    {
        match self.holder {
            None => 0,
            Some(holder) => match holder.stage {
                Stage::LetsIn => 0,
                Stage::KeepsOut => NAP_MICROS,
                Stage::Holds(until) => until.saturating_sub(now).min(NAP_MICROS),
            },
        }
    }
}
