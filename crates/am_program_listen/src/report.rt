//! What a server that stays says on standard error while it runs.

ghost use Rattle.std.specs.Prelude.{◌≡◌, false};
ghost use Rattle.am_program_listen.specs.Reports.{is_due};

use crate::fault::ListenFault;
use am_program_options::Listening;
use am_serve_connections::SessionCounts;
use am_serve_drain::{ServerCounts, Watcher, log_text};
use am_trace_file::Outbox;
use std::io;
use std::rt::Clock;
use std::sync::Wait;
use std::time::Instant;

/// How often it is told how the server does.
const LOG_SECONDS: u64 = 60;

// Whether it is told how the server does, so many seconds after that was told.
fn is_due(is_logged: bool, is_last: bool, past: u64) -> bool
    ensures { result ≡ is_due is_logged is_last past }
{
    is_logged && (is_last || past >= LOG_SECONDS)
}

/// Says once what goes wrong, and each minute and at the end how the server does, where that is asked for. What becomes
/// of a bounded server is said at its end.
#[derive(Drop)]
pub struct Reporter<'r, 'o, R> {
    rt: &'r R,
    outbox: &'o Outbox,
    is_logged: bool,
    stays: bool,
    told_at: Option<Instant>,
    told_accept: bool,
}

impl<'r, 'o, R: AllocGlobal + Eprint + Clock + Wait> Reporter<'r, 'o, R> {
    /// Nothing is told yet. Of a bounded server it isn't said that its trace is cut.
    pub fn new(rt: &'r R, outbox: &'o Outbox, listening: &Listening<'_>) -> Reporter<'r, 'o, R>
        ensures logged { result.is_logged ≡ listening.now.is_logged }
        ensures stays { result.stays ≡ listening.now.stays }
        ensures told { result.told_accept ≡ false }
    {
        Reporter {
            rt,
            outbox,
            is_logged: listening.is_logged,
            stays: listening.stays,
            told_at: Instant::now(rt).ok(),
            told_accept: false,
        }
    }

    // Whether it is time to tell.
    fn is_due(&self, is_last: bool) -> bool {
        let past = match self.told_at {
            Some(at) => at.elapsed(self.rt).map_or(0, |past| past.as_secs()),
            None => 0,
        };
        is_due(self.is_logged, is_last, past)
    }

    fn log(&self, counts: &ServerCounts) {
        let is_cut = counts.is_cut || self.outbox.is_failed();
        let waiting = self.outbox.len(self.rt) as u64;
        if let Ok(text) = log_text(self.rt.alloc(), counts, waiting, is_cut) {
            let _ = eprint!(self.rt; "{text}");
        }
    }

    // Says once that a connection couldn't be accepted, and why, as the system has it.
    fn tell_accept(&mut self, sessions: &SessionCounts) {
        if sessions.refused_by_system == 0 || self.told_accept {
            return;
        }
        if let Some(number) = sessions.first_refusal {
            let why = io::Error::from_raw_os_error(number);
            let _ = eprintln!(self.rt; "amserve: a connection: {why}");
        }
        self.told_accept = true;
        if self.stays {
            let _ = eprintln!(self.rt; "{}", ListenFault::CannotAccept.words());
        }
    }

    // Says once that the trace is cut, unless its file said so.
    fn tell_cut(&self, counts: &ServerCounts) {
        if counts.is_cut && self.stays && self.outbox.is_untold() {
            let _ = eprintln!(self.rt; "{}", ListenFault::CannotWriteTrace(None).words());
        }
    }
}

impl<'r, 'o, R: AllocGlobal + Eprint + Clock + Wait> Watcher for Reporter<'r, 'o, R> {
    ghost saw = { λ _ _ _ _. Unit {0} };

    fn look(&mut self, counts: &ServerCounts, is_last: bool) {
        self.tell_accept(&counts.sessions);
        self.tell_cut(counts);
        if self.is_due(is_last) {
            self.log(counts);
            self.told_at = Instant::now(self.rt).ok();
        }
    }
}
