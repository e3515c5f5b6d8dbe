//! Where a server listens, and its serving there.

ghost use Rattle.std.specs.Prelude.{◌≡◌, ◌≤◌, ◌<◌, ◌*◌, IfOk, IsSomeAnd, is_some, None, if◌then◌else◌};
ghost use Rattle.am_serve.specs.Listeners.{IsAtPort, IsAtSocket};
ghost use Rattle.am_serve.specs.ServerTraces.{IsServerTrace};

use crate::header::header_of;
use crate::server::run;
use crate::server_trace::ServerTrace;
use am_latch::Blank;
use am_latch_counters::Counters;
use am_record::{HashKey, NoMemory};
use am_serve_connections::{
    Endpoint, Endpoints, Lifetime, Limits, SharedState, listen_at_port, listen_at_socket,
};
use am_serve_drain::{DrainSetup, Watcher};
use am_trace_writer::PieceTaker;
use std::alloc::Global;
use std::marker::Brand;
use std::net::{Net, TcpListener, TcpStream};
use std::rt::{Clock, Files};
use std::sync::Wait;
use std::sync::atomic::{AtomicBool, Ordering};
use std::thread::Threads;
use std::time::Duration;
use std::{io, thread};
use thiserror::Error;

/// How long it takes until a stop tries again to wake the thread that waits for a connection.
const WAKE_MILLIS: u64 = 100;

/// Why nothing is listened at.
#[derive(Clone, Copy, Debug, Error)]
pub enum BindFault {
    /// Memory was refused.
    #[error("no memory")]
    NoMemory,
    /// The system refused it, and says why.
    #[error("{0}")]
    Refused(io::Error),
}

/// A listener at a port of this machine, which takes connections from this machine alone, or at a socket of the file
/// system, or at both.
#[derive(Drop)]
pub struct Listener {
    endpoint: Endpoint,
    second: Option<Endpoint>,
    alloc: Global,
    is_stopped: AtomicBool,
}

/// Listens at 127.0.0.1, at that port, or at any free one where it is 0.
///
/// # Errors
/// Refused, where the system refuses it, as it does where the port is in use.
pub fn bind<R: AllocGlobal + Net<Listener = TcpListener, Stream = TcpStream>>(
    rt: &R,
    port: u16,
) -> Result<Listener, BindFault>
    ensures port { IfOk result (λ l. IsAtPort l.endpoint) }
    ensures alone { IfOk result (λ l. l.second ≡ None) }
{
    match listen_at_port(rt, port) {
        Ok((listener, port)) => Ok(Listener::at(rt, Endpoint::Port { listener, port })),
        Err(why) => Err(BindFault::Refused(why)),
    }
}

/// Listens at a socket of the file system, which its owner alone may open. A socket of that name at which nobody
/// listens is replaced. The file stays when the listener goes.
///
/// # Errors
/// Refused, where the system refuses it, as it does where another listens there, or where there is another file of that
/// name; NoMemory, where memory was refused.
pub fn bind_socket<R: AllocGlobal + Files + Net>(rt: &R, path: &str) -> Result<Listener, BindFault>
    ensures socket { IfOk result (λ l. IsAtSocket path.now l.endpoint) }
    ensures alone { IfOk result (λ l. l.second ≡ None) }
{
    Ok(Listener::at(rt, endpoint_at_socket(rt, path)?))
}

impl Listener {
    fn at<R: AllocGlobal>(rt: &R, endpoint: Endpoint) -> Listener
        ensures { (result.endpoint ≡ endpoint) × (result.second ≡ None) }
    {
        Listener {
            endpoint,
            second: None,
            alloc: rt.alloc(),
            is_stopped: AtomicBool::new(false),
        }
    }

    /// The endpoint, or the first of two.
    pub fn endpoint(&self) -> &Endpoint
        ensures { result.now ≡ self.now.endpoint }
    {
        &self.endpoint
    }

    /// Listens at a socket of the file system too, as [`bind_socket`] does.
    ///
    /// # Errors
    /// Those of [`bind_socket`].
    pub fn with_socket<R: AllocGlobal + Files + Net>(
        self,
        rt: &R,
        path: &str,
    ) -> Result<Listener, BindFault>
        ensures socket { IfOk result (λ l. IsSomeAnd l.second (IsAtSocket path.now)) }
        ensures same { IfOk result (λ l. l.endpoint ≡ self.endpoint) }
    {
        let second = Some(endpoint_at_socket(rt, path)?);
        Ok(Listener { second, ..self })
    }

    /// No further connection is taken, and `serve` returns once the sessions begun have ended. May be called from
    /// another thread while `serve` runs. Where no connection can be made, as where no files are left, it returns only
    /// once one can.
    pub fn stop<R: Net<Listener = TcpListener, Stream = TcpStream> + Wait + Clock>(&self, rt: &R) {
        self.is_stopped.store(true, Ordering::SeqCst);
        wake(rt, &self.endpoint);
        if let Some(second) = &self.second {
            wake(rt, second);
        }
    }

    fn endpoints(&self) -> Endpoints<'_>
        ensures first { result.first.now ≡ self.now.endpoint }
        ensures second { is_some result.second ≡ is_some self.now.second }
    {
        Endpoints {
            first: &self.endpoint,
            second: self.second.as_ref(),
        }
    }

    /// Serves connections over one store that begins with no records, until [`Listener::stop`], so many at once at each
    /// endpoint, each on a thread and a seat of its own, and lets so many workers merge beside them: one turn for each
    /// answered line, and further ones while no line is answered, where more runs have entries than workers leave. A
    /// bounded server serves no more connections than there are seats, and one that stays any number, one after another
    /// at each seat; further ones wait to be accepted. The trace is taken by pieces meanwhile, and its rest at the end,
    /// once all sessions have ended. All pieces together are sound and legal, and their store has so many commits.
    ///
    /// # Errors
    /// NoMemory, where memory was refused before a connection was accepted.
    pub fn serve<
        R: Threads + Wait + Clock + Sync,
        T: PieceTaker + Drop + Send,
        V: Watcher + Drop + Send,
    >(
        &self,
        rt: &R,
        lifetime: Lifetime,
        sessions: u64,
        workers: u64,
        hash: HashKey,
        limits: Limits,
        setup: DrainSetup<T, V>,
    ) -> Result<ServerTrace<T>, NoMemory>
        requires sessions { (1 ≤ sessions) × (sessions ≤ 256) }
        requires workers { workers ≤ 16 }
        ensures { IfOk result (IsServerTrace T.took setup.pieces lifetime limits.runs
            (if is_some self.now.second then 2 * sessions else sessions) workers) }
    {
        let endpoints = self.endpoints();
        let seats = endpoints.seats(sessions);
        // Whatever its steps need, the header says as many.
        let most_runs = header_of(lifetime, false).most_runs();
        let Ok(blank) = Blank::new(self.alloc, seats + workers, most_runs) else {
            return Err(NoMemory);
        };
        let Ok((counters, counter_seats)) = Counters::open(self.alloc, seats as usize) else {
            return Err(NoMemory);
        };
        let shared = SharedState::new(
            rt,
            self.alloc,
            endpoints,
            &self.is_stopped,
            sessions,
            lifetime,
            limits,
        )?;
        run::<Brand, R, T, V>(
            rt,
            self.alloc,
            hash,
            &shared,
            blank,
            &counters,
            counter_seats,
            setup,
        )
    }
}

// An endpoint at a socket of the file system.
fn endpoint_at_socket<R: AllocGlobal + Files + Net>(
    rt: &R,
    path: &str,
) -> Result<Endpoint, BindFault>
    ensures { IfOk result (IsAtSocket path.now) }
{
    let Ok(name) = String::from_str(rt.alloc(), path) else {
        return Err(BindFault::NoMemory);
    };
    match listen_at_socket(rt, path) {
        Ok(listener) => Ok(Endpoint::Socket {
            listener,
            path: name,
        }),
        Err(why) => Err(BindFault::Refused(why)),
    }
}

// Connects until it could, so that a thread which waits at the endpoint sees that it is to stop.
fn wake<R: Net<Listener = TcpListener, Stream = TcpStream> + Wait + Clock>(
    rt: &R,
    endpoint: &Endpoint,
) {
    for _ in rt.forever() {
        if endpoint.wake(rt) {
            return;
        }
        thread::sleep(rt, Duration::from_millis(WAKE_MILLIS));
    }
}
