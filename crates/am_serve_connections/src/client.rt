//! A client's connection: what waits to be sent there, and how long one waits for the client.

ghost use Rattle.std.specs.Prelude.{◌≡◌, IfOk, length, ◌≤◌};
ghost use Rattle.am_serve_connections.specs.Patience.{patience_for, write_patience};

use crate::connections::{Connections, millis_of};
use crate::unsent::Unsent;
use libc::net::{POLLIN, POLLOUT, poll};
use libc::types::pollfd;
use std::alloc::Global;
use std::cell::RefCell;
use std::io::{self, ErrorKind, Read, Write};
use std::net::TcpStream;
use std::os::fd::AsRawFd;
use std::rt::Clock;
use std::sync::Wait;
use std::time::Duration;

/// So often a wait goes on that was interrupted.
const MOST_INTERRUPTIONS: u32 = 1000;

/// For so long the system keeps a write waiting that it has no room for. Then it is for the client's connection to
/// wait, which knows what else may come, and for how long.
const WRITE_MILLIS: u64 = 1;

/// What is due where nothing comes.
#[derive(Clone, Copy, PartialEq, Eq)]
pub(crate) enum Due {
    /// The transaction lapses.
    Lapse,
    /// The session ends.
    End,
}

/// For how many milliseconds one waits, and what is due then.
#[derive(Clone, Copy, PartialEq, Eq)]
struct Patience {
    millis: u64,
    then: Due,
}

// How one waits who has waited for a line for so many milliseconds: a transaction lapses after so many, and a session
// ends after so many in which nothing comes, where that is limited.
fn patience_for(lapse: u64, waited: u64, idle: Option<u64>) -> Patience
    ensures { result ≡ patience_for lapse waited idle }
{
    let rest = lapse.saturating_sub(waited);
    match idle {
        Some(idle) if idle < rest => Patience {
            millis: idle,
            then: Due::End,
        },
        _ => Patience {
            millis: rest,
            then: Due::Lapse,
        },
    }
}

// For how many milliseconds one waits until an answer is taken, so many after the last line came: while a transaction
// is active that lapses, no longer than until then, and no longer than nothing may be taken. None where nothing limits
// it.
fn write_patience(lapse: Option<u64>, waited: u64, idle: Option<u64>) -> Option<u64>
    ensures { result ≡ write_patience lapse waited idle }
{
    match lapse {
        Some(lapse) => Some(patience_for(lapse, waited, idle).millis),
        None => idle,
    }
}

/// What a connection is ready for.
#[derive(Clone, Copy)]
struct Readiness {
    /// Something came, or the end, or a failure.
    has_come: bool,
    /// The system takes answers.
    has_room: bool,
}

// What the connection is ready for within so many milliseconds, or at any time where that isn't limited. None where
// that was interrupted.
fn ready_within(stream: &TcpStream, events: i16, millis: Option<u64>) -> Option<Readiness> {
    let mut asked = [pollfd {
        fd: stream.as_raw_fd(),
        events,
        revents: 0,
    }];
    let limit = millis.map_or(-1, |millis| i32::try_from(millis).unwrap_or(i32::MAX));
    if poll(&mut asked, limit) < 0 {
        return None;
    }
    let found = asked[0].revents;
    Some(Readiness {
        has_come: found & !POLLOUT != 0,
        has_room: found & POLLOUT != 0,
    })
}

// Whether the system only takes nothing just now.
fn is_full(fault: &io::Error) -> bool {
    matches!(
        fault.kind(),
        ErrorKind::WouldBlock | ErrorKind::TimedOut | ErrorKind::Interrupted
    )
}

/// The connection of a session's client. Answers that the system doesn't take at once wait, and are sent on while the
/// session waits for lines: a client may send many before it reads. Whoever waits here awaits the client, and the
/// limits of time count.
#[derive(Drop)]
pub struct Client<'a, R> {
    rt: &'a R,
    stream: &'a TcpStream,
    // In milliseconds, where these are limited.
    lapse: Option<u64>,
    idle: Option<u64>,
    // Where it stands when the last line came, and whether a transaction is active.
    connections: &'a Connections,
    place: usize,
    unsent: RefCell<Unsent>,
}

impl<'a, R: Wait + Clock> Client<'a, R> {
    /// The client of the connection that has this place. A transaction lapses after so long without a line, and a
    /// session ends after so long without any byte, where that is limited.
    pub fn new(
        rt: &'a R,
        alloc: Global,
        stream: &'a TcpStream,
        lapse: Option<Duration>,
        idle: Option<Duration>,
        connections: &'a Connections,
        place: usize,
    ) -> Client<'a, R> {
        if idle.is_some() {
            let _ = stream.set_read_timeout(idle);
        }
        let _ = stream.set_write_timeout(Some(Duration::from_millis(WRITE_MILLIS)));
        // Each answer is written whole, and goes out at once where the system can be told so.
        let _ = stream.set_nodelay(true);
        Client {
            rt,
            stream,
            lapse: lapse.map(millis_of),
            idle: idle.map(millis_of),
            connections,
            place,
            unsent: RefCell::new(Unsent::new(alloc)),
        }
    }

    /// The next bytes of the client, once some have come. Meanwhile what waits is sent on.
    pub(crate) fn receive(&self, into: &mut [u8]) -> io::Result<usize>
        ensures { IfOk result (λ n. n ≤ length into.new) }
    {
        self.connections.set_awaiting(self.place, true);
        let came = self.read(into);
        self.connections.set_awaiting(self.place, false);
        if let Ok(len) = came
            && into[..len].contains(&b'\n')
        {
            self.connections.hear(self.rt, self.place);
        }
        came
    }

    fn read(&self, into: &mut [u8]) -> io::Result<usize>
        ensures { IfOk result (λ n. n ≤ length into.new) }
    {
        self.send_until_more()?;
        let mut stream = self.stream;
        stream.read(into)
    }

    // Sends on what waits, until nothing does, or more bytes have come.
    fn send_until_more(&self) -> io::Result<()> {
        for _ in self.rt.forever() {
            if !self.has_unsent() {
                return Ok(());
            }
            match ready_within(self.stream, POLLIN | POLLOUT, self.idle) {
                Some(ready) if ready.has_come => return Ok(()),
                Some(ready) if ready.has_room => self.send_on()?,
                Some(_) => return Err(io::Error::from(ErrorKind::TimedOut)),
                None => {}
            }
        }
        unreachable!()
    }

    /// Waits until something comes of the client, whose transaction is active, and sends on meanwhile what waits. What
    /// is due where nothing does.
    pub(crate) fn await_more(&self) -> Option<Due> {
        let lapse = self.lapse?;
        for _ in self.rt.forever() {
            let patience = patience_for(lapse, self.waited(), self.idle);
            let events = if self.has_unsent() {
                POLLIN | POLLOUT
            } else {
                POLLIN
            };
            match ready_within(self.stream, events, Some(patience.millis)) {
                Some(ready) if ready.has_come => return None,
                // (where nothing can be sent any more the next round sees that)
                Some(ready) if ready.has_room => {
                    let _ = self.send_on();
                }
                Some(_) => return Some(patience.then),
                None => {}
            }
        }
        unreachable!()
    }

    /// Sends a piece on, or has it wait, as far as there is room: so many bytes of it. Where there is none one waits.
    ///
    /// # Errors
    /// TimedOut, where the client takes nothing for too long; and what the system says.
    pub(crate) fn send(&self, piece: &[u8]) -> io::Result<usize>
        ensures { IfOk result (λ n. n ≤ length piece.now) }
    {
        for _ in self.rt.forever() {
            self.send_on()?;
            if !self.has_unsent() {
                match self.write(piece) {
                    Err(fault) if is_full(&fault) => {}
                    answer => return answer,
                }
            }
            let kept = self.keep(piece);
            if kept > 0 || piece.is_empty() {
                return Ok(kept);
            }
            self.await_room()?;
        }
        unreachable!()
    }

    /// Sends on what waits, as far as the system takes it at once.
    pub(crate) fn send_on(&self) -> io::Result<()> {
        let Ok(mut unsent) = self.unsent.try_borrow_mut() else {
            return Ok(());
        };
        if unsent.is_empty() {
            return Ok(());
        }
        match ready_within(self.stream, POLLOUT, Some(0)) {
            Some(ready) if ready.has_room || ready.has_come => {}
            _ => return Ok(()),
        }
        match self.write(unsent.as_slice()) {
            Ok(count) => {
                unsent.send(count);
                Ok(())
            }
            Err(fault) if is_full(&fault) => Ok(()),
            Err(fault) => Err(fault),
        }
    }

    /// Sends on all that waits, before the connection is closed, as long as the client takes it.
    pub fn finish(&self) {
        self.connections.set_awaiting(self.place, true);
        for _ in self.rt.forever() {
            if !self.has_unsent() || self.send_on().is_err() {
                return;
            }
            if self.has_unsent() && self.await_room().is_err() {
                return;
            }
        }
    }

    fn write(&self, piece: &[u8]) -> io::Result<usize>
        ensures { IfOk result (λ n. n ≤ length piece.now) }
    {
        let mut stream = self.stream;
        stream.write(piece)
    }

    fn keep(&self, piece: &[u8]) -> usize
        ensures { result ≤ length piece.now }
    {
        match self.unsent.try_borrow_mut() {
            Ok(mut unsent) => unsent.keep(piece),
            Err(_) => 0,
        }
    }

    fn has_unsent(&self) -> bool {
        match self.unsent.try_borrow() {
            Ok(unsent) => !unsent.is_empty(),
            Err(_) => false,
        }
    }

    // Waits until the system takes answers again, or the connection has failed.
    //
    // # Errors
    // TimedOut, where the client takes nothing for too long.
    fn await_room(&self) -> io::Result<()> {
        self.connections.set_awaiting(self.place, true);
        let found = self.room_in_time();
        self.connections.set_awaiting(self.place, false);
        if found {
            Ok(())
        } else {
            Err(io::Error::from(ErrorKind::TimedOut))
        }
    }

    fn room_in_time(&self) -> bool {
        let lapse = if self.connections.has_transaction(self.place) {
            self.lapse
        } else {
            None
        };
        for _ in 0..MOST_INTERRUPTIONS {
            let limit = write_patience(lapse, self.waited(), self.idle);
            if let Some(ready) = ready_within(self.stream, POLLOUT, limit) {
                return ready.has_room || ready.has_come;
            }
        }
        true
    }

    // How many milliseconds have passed since the last line.
    fn waited(&self) -> u64 {
        self.connections.waited(self.rt, self.place)
    }
}
