//! Serving where connections come to: what comes before the sessions, and after them.
//!
//! Each part has a frame of its own, beside that of the words, so that none is large.

ghost use Rattle.std.specs.Prelude.{◌≡◌, ◌≢◌, ◌≤◌, if◌then◌else◌};
ghost use Rattle.am_trace_text.specs.Headers.{line_version};
ghost use Rattle.am_trace_text.specs.declared.version.Version.TheVariants.{One};

use crate::ending::{remove_socket, tell};
use crate::fault::ListenFault;
use crate::report::Reporter;
use crate::stop_word::await_stop;
use crate::trace::{OpenedTrace, Writer, begin_trace, forget_trace, store_trace};
use am_program_options::{Listening, Place};
use am_program_start::draw_hash_key;
use am_serve::{BindFault, Listener, bind, bind_socket, header_of};
use am_serve_connections::{Lifetime, Limits};
use am_serve_drain::{DrainSetup, Watcher};
use am_trace_file::{Outbox, TraceFile};
use am_trace_text::Header;
use am_trace_writer::{LetGo, PieceTaker};
use std::fs::File;
use std::io;
use std::net::{Net, TcpListener, TcpStream};
use std::process::ExitCode;
use std::random::RandomSource;
use std::rt::{Clock, Files};
use std::sync::Wait;
use std::thread::Threads;
use std::time::Duration;

/// What is there before the first connection: where it may come to, and where one is named the file for the trace.
#[derive(Drop)]
pub(crate) struct Opened {
    pub(crate) listener: Listener,
    pub(crate) file: Option<TraceFile>,
}

/// Opens what is named, begins the trace with a writer of it, and says which port or socket it is. Where that doesn't
/// go it says why, and how the program ends.
#[inline(never)]
pub(crate) fn make_ready<
    'a,
    R: AllocGlobal
        + Files<File = File>
        + Net<Listener = TcpListener, Stream = TcpStream>
        + Print
        + Eprint
        + Wait,
>(
    rt: &'a R,
    listening: &Listening<'_>,
    outbox: &'a Outbox,
) -> Result<(Opened, Option<Writer<'a, R>>), io::Result<ExitCode>> {
    let opened = match open(rt, listening, outbox) {
        Ok(opened) => opened,
        Err(fault) => return Err(tell(rt, listening, &fault)),
    };
    let writer = match begin_trace(rt, listening, outbox, begun_header(listening)) {
        Ok(writer) => writer,
        // The file said what fails.
        Err(fault) if outbox.is_failed() => return Err(Ok(ExitCode::from(fault.status()))),
        Err(fault) => return Err(tell(rt, listening, &fault)),
    };
    match say_ready(rt, &opened.listener, listening, opened.file.as_ref()) {
        Ok(()) => Ok((opened, writer)),
        Err(fault) => Err(Err(fault)),
    }
}

/// What a server did.
#[derive(Clone, Copy)]
pub(crate) struct Served {
    events: u64,
    commits: u64,
    accepted_all: bool,
    is_cut: bool,
    needs_three: bool,
}

// Says which port it is, or which socket where there is no port. Where that can't be said nothing is left of the trace
// and the socket.
fn say_ready<R: Files + Print>(
    rt: &R,
    listener: &Listener,
    listening: &Listening<'_>,
    file: Option<&TraceFile>,
) -> io::Result<()> {
    let said = println!(rt; "LISTEN {}", listener.endpoint());
    if said.is_err() {
        forget_trace(rt, file);
        remove_socket(rt, listening);
    }
    said
}

// The file for the trace, where one is named, which the outbox gets, and then where connections come to.
#[inline(never)]
fn open<
    R: AllocGlobal + Files<File = File> + Net<Listener = TcpListener, Stream = TcpStream> + Wait,
>(rt: &R, listening: &Listening<'_>, outbox: &Outbox) -> Result<Opened, ListenFault> {
    let trace = OpenedTrace::open(rt, listening)?;
    let listener = match open_endpoints(rt, listening.place) {
        Ok(listener) => listener,
        Err(fault) => {
            trace.forget(rt);
            return Err(fault);
        }
    };
    let file = trace.give_to(rt, outbox);
    Ok(Opened { listener, file })
}

fn open_endpoints<R: AllocGlobal + Files + Net<Listener = TcpListener, Stream = TcpStream>>(
    rt: &R,
    place: Place<'_>,
) -> Result<Listener, ListenFault> {
    match place {
        Place::Port(port) => bind(rt, port).map_err(at_port),
        Place::Socket(path) => bind_socket(rt, path).map_err(at_socket),
        Place::Both { port, socket } => bind(rt, port)
            .map_err(at_port)?
            .with_socket(rt, socket)
            .map_err(at_socket),
    }
}

// What is wrong where that is so at the port.
fn at_port(fault: BindFault) -> ListenFault {
    match fault {
        BindFault::NoMemory => ListenFault::NoMemory,
        BindFault::Refused(why) => ListenFault::CannotListenAtPort(why),
    }
}

// The same at the socket.
fn at_socket(fault: BindFault) -> ListenFault {
    match fault {
        BindFault::NoMemory => ListenFault::NoMemory,
        BindFault::Refused(why) => ListenFault::CannotListenAtSocket(why),
    }
}

/// Has the server stop once a line STOP, or the end of standard input or a fault of it, has come.
#[inline(never)]
pub(crate) fn stop_at_word<
    R: AllocGlobal + Input + Net<Listener = TcpListener, Stream = TcpStream> + Wait + Clock,
>(rt: &R, listener: &Listener) {
    await_stop(rt);
    listener.stop(rt);
}

/// Serves so many sessions, or so many at once until a stop, with so many workers beside them, on a store whose hash
/// key no stranger knows.
#[inline(never)]
pub(crate) fn serve<R: AllocGlobal + Threads + Wait + RandomSource + Clock + Eprint + Sync>(
    rt: &R,
    listener: &Listener,
    listening: &Listening<'_>,
    sessions: u64,
    workers: u64,
    outbox: &Outbox,
    writer: Option<Writer<'_, R>>,
) -> Result<Served, ListenFault>
    requires sessions { (1 ≤ sessions) × (sessions ≤ 256) }
    requires workers { workers ≤ 16 }
{
    match writer {
        Some(writer) => serve_with(rt, listener, listening, sessions, workers, outbox, writer),
        None => serve_with(rt, listener, listening, sessions, workers, outbox, LetGo),
    }
}

fn serve_with<
    R: AllocGlobal + Threads + Wait + RandomSource + Clock + Eprint + Sync,
    T: PieceTaker + Drop + Send,
>(
    rt: &R,
    listener: &Listener,
    listening: &Listening<'_>,
    sessions: u64,
    workers: u64,
    outbox: &Outbox,
    pieces: T,
) -> Result<Served, ListenFault>
    requires sessions { (1 ≤ sessions) × (sessions ≤ 256) }
    requires workers { workers ≤ 16 }
{
    let limits = Limits {
        idle: listening.idle.map(Duration::from_secs),
        lapse: seconds(listening.lapse),
        idle_seat: seconds(listening.idle_seat),
        hold: listening.hold,
        runs: listening.runs,
    };
    let setup = DrainSetup {
        pieces,
        watcher: Reporter::new(rt, outbox, listening),
        grace: listening.grace.map(Duration::from_secs),
    };
    serve_drained(
        rt,
        listener,
        lifetime_of(listening),
        sessions,
        workers,
        limits,
        setup,
    )
}

// How long the server serves.
fn lifetime_of(listening: &Listening<'_>) -> Lifetime
    ensures { result ≡ (if listening.now.stays then Lifetime.Staying else Lifetime.Bounded) }
{
    if listening.stays {
        Lifetime::Staying
    } else {
        Lifetime::Bounded
    }
}

// The first line with which the trace is begun: nobody knows yet whether version 2 can write what comes.
fn begun_header(listening: &Listening<'_>) -> Header
    ensures { line_version result ≢ One }
{
    header_of(lifetime_of(listening), true)
}

// So many seconds; none where there are 0.
fn seconds(count: u64) -> Option<Duration> {
    if count == 0 {
        None
    } else {
        Some(Duration::from_secs(count))
    }
}

// Serves, whoever takes the trace and looks at the server.
fn serve_drained<
    R: Threads + Wait + RandomSource + Clock + Sync,
    T: PieceTaker + Drop + Send,
    V: Watcher + Drop + Send,
>(
    rt: &R,
    listener: &Listener,
    lifetime: Lifetime,
    sessions: u64,
    workers: u64,
    limits: Limits,
    setup: DrainSetup<T, V>,
) -> Result<Served, ListenFault>
    requires sessions { (1 ≤ sessions) × (sessions ≤ 256) }
    requires workers { workers ≤ 16 }
{
    match listener.serve(
        rt,
        lifetime,
        sessions,
        workers,
        draw_hash_key(rt),
        limits,
        setup,
    ) {
        Ok(run) => Ok(Served {
            events: run.events,
            commits: run.commits,
            accepted_all: run.accepted_all,
            is_cut: run.pieces.is_cut(),
            needs_three: run.pieces.needs_three(),
        }),
        Err(_) => Err(ListenFault::NoMemory),
    }
}

/// Stores the trace, unless some of its text could not be written, and tells what was done. The program's status.
#[inline(never)]
pub(crate) fn close<R: Files<File = File> + Print + Eprint>(
    rt: &R,
    listening: &Listening<'_>,
    file: Option<&TraceFile>,
    outbox: &Outbox,
    served: Result<Served, ListenFault>,
) -> io::Result<ExitCode> {
    remove_socket(rt, listening);
    let stays = listening.stays;
    let served = match served {
        Ok(served) => served,
        Err(fault) => {
            forget_trace(rt, file);
            return tell(rt, listening, &fault);
        }
    };
    let (is_cut, due) = (
        served.is_cut || outbox.is_failed(),
        header_of(lifetime_of(listening), served.needs_three),
    );
    let stored = store_trace(rt, file, is_cut, begun_header(listening), due);
    if stays || stored.is_ok() {
        println!(rt; "CLOSED {} {}", served.events, served.commits)?;
    }
    match stored {
        // A server that stays said what fails when it failed, unless that was after its last look.
        Err(fault) if stays && !outbox.is_untold() => Ok(ExitCode::from(fault.status())),
        _ if !stays && !served.accepted_all => tell(rt, listening, &ListenFault::CannotAccept),
        Err(fault) => tell(rt, listening, &fault),
        Ok(()) => Ok(ExitCode::SUCCESS),
    }
}
