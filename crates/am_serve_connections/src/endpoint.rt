//! Where connections come to.

use std::fs::Permissions;
use std::io::ErrorKind;
use std::net::{Ipv4Addr, Net, TcpListener, TcpStream};
use std::os::fd::{AsRawFd, OwnedFd, RawFd};
use std::os::unix::fs::{FileTypeExt, PermissionsExt};
use std::os::unix::net::{UnixListener, UnixStream};
use std::rt::Files;
use std::{fmt, fs, io};

/// So many connections may wait for the system to give them out, as far as it lets them: std asks for 128.
const MOST_UNACCEPTED: i32 = 4096;

/// So many connections at most may have come to a socket before its mode was set.
const MOST_EARLY: u32 = 4096;

/// Where Linux tells which sockets of the file system are open.
const OPEN_SOCKETS: &str = "/proc/net/unix";

/// What a line there has where connections are taken.
const TAKES_CONNECTIONS: &str = " 00010000 ";

/// A port of this machine, or a socket of its file system.
#[derive(Drop)]
pub enum Endpoint {
    Port {
        listener: TcpListener,
        port: u16,
    },
    Socket {
        listener: UnixListener,
        path: String,
    },
}

impl Endpoint {
    /// The next connection. One that came to a socket of the file system is read, written and shut down as any other.
    pub(crate) fn accept(&self) -> io::Result<TcpStream> {
        match self {
            Endpoint::Port { listener, .. } => {
                let (stream, _) = listener.accept()?;
                Ok(stream)
            }
            Endpoint::Socket { listener, .. } => {
                let (stream, _) = listener.accept()?;
                Ok(TcpStream::from(OwnedFd::from(stream)))
            }
        }
    }

    /// Whether `accept` fails at once where no connection has come, and doesn't wait for one.
    pub(crate) fn set_nonblocking(&self, nonblocking: bool) -> io::Result<()> {
        match self {
            Endpoint::Port { listener, .. } => listener.set_nonblocking(nonblocking),
            Endpoint::Socket { listener, .. } => listener.set_nonblocking(nonblocking),
        }
    }

    /// Connects, so that a thread which waits for a connection gets this one. Whether it could.
    pub fn wake<R: Net<Listener = TcpListener, Stream = TcpStream>>(&self, rt: &R) -> bool {
        match self {
            Endpoint::Port { port, .. } => {
                TcpStream::connect(rt, (Ipv4Addr::LOCALHOST, *port)).is_ok()
            }
            Endpoint::Socket { path, .. } => UnixStream::connect(rt, path.as_str()).is_ok(),
        }
    }
}

/// By the number of the port, or the name of the socket.
impl fmt::Display for Endpoint {
    ghost use Rattle.std.specs.Prelude.{Some};
    ghost use Rattle.am_serve_connections.specs.Endpoints.{endpoint_text};

    ghost output = { λ endpoint. Some (endpoint_text endpoint) };

    fn fmt<W: fmt::Write>(&self, f: &mut fmt::Formatter<W>) -> fmt::Result {
        match self {
            Endpoint::Port { port, .. } => write!(f, "{port}"),
            Endpoint::Socket { path, .. } => f.write_str(path),
        }
    }
}

/// Listens at a port of this machine, at any free one where it is 0. The listener and its port.
pub fn listen_at_port<R: Net<Listener = TcpListener, Stream = TcpStream>>(
    rt: &R,
    port: u16,
) -> io::Result<(TcpListener, u16)> {
    let listener = TcpListener::bind(rt, (Ipv4Addr::LOCALHOST, port))?;
    let_wait(listener.as_raw_fd());
    let port = listener.local_addr()?.port();
    Ok((listener, port))
}

// Lets more connections wait there. Where the system refuses that as many wait as before.
fn let_wait(listener: RawFd) {
    let _ = libc::net::listen(listener, MOST_UNACCEPTED);
}

/// Listens at a socket of the file system that nobody but its owner may open. One of that name at which nobody listens
/// is replaced.
pub fn listen_at_socket<R: AllocGlobal + Files + Net>(
    rt: &R,
    path: &str,
) -> io::Result<UnixListener> {
    let listener = match UnixListener::bind(rt, path) {
        Err(fault) if fault.kind() == ErrorKind::AddrInUse && is_left(rt, path) => {
            fs::remove_file(rt, path)?;
            UnixListener::bind(rt, path)?
        }
        bound => bound?,
    };
    fs::set_permissions(rt, path, Permissions::from_mode(0o600))?;
    close_early(&listener)?;
    let_wait(listener.as_raw_fd());
    Ok(listener)
}

// Closes the connections that came before the mode was set.
fn close_early(listener: &UnixListener) -> io::Result<()> {
    listener.set_nonblocking(true)?;
    for _ in 0..MOST_EARLY {
        if listener.accept().is_err() {
            break;
        }
    }
    listener.set_nonblocking(false)
}

// Whether there is a socket of that name at which nobody listens. Where the system doesn't know it by just that name,
// whoever listens there gets a connection that ends at once.
fn is_left<R: AllocGlobal + Files + Net>(rt: &R, path: &str) -> bool {
    match fs::symlink_metadata(rt, path) {
        Ok(found) if found.file_type().is_socket() => {}
        _ => return false,
    }
    if is_open(rt, path) {
        return false;
    }
    match UnixStream::connect(rt, path) {
        Err(fault) => fault.kind() == ErrorKind::ConnectionRefused,
        Ok(_) => false,
    }
}

// Whether the system tells that somebody listens at a socket of just that name, as far as it can be asked.
fn is_open<R: AllocGlobal + Files>(rt: &R, path: &str) -> bool {
    let Ok(sockets) = fs::read_to_string(rt, OPEN_SOCKETS) else {
        return false;
    };
    for line in sockets.lines() {
        if line.contains(TAKES_CONNECTIONS)
            && line
                .strip_suffix(path)
                .is_some_and(|rest| rest.ends_with(' '))
        {
            return true;
        }
    }
    false
}
