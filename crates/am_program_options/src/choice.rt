//! What a command line of `amserve` asks for.

ghost use Rattle.std.specs.Prelude.{◌≡◌, option_map};
ghost use Rattle.am_program_options.specs.Options.{port_of, socket_of};

/// The program that was asked for, with its numbers.
#[derive(Clone, Copy, PartialEq, Eq)]
pub enum Options<'a> {
    /// One session over standard input and output, on a store of its own. After each answer at most `auto` entries are
    /// merged; 0 to 64.
    Alone { auto: u64 },
    /// Many sessions, on one store.
    Listen(Listening<'a>),
}

/// Where a server listens.
#[derive(Clone, Copy, PartialEq, Eq)]
pub enum Place<'a> {
    /// At a port of this machine; 0 for any that is free.
    Port(u16),
    /// At a socket of the file system, by its name, which isn't empty.
    Socket(&'a str),
    /// At both.
    Both { port: u16, socket: &'a str },
}

impl<'a> Place<'a> {
    /// The port, where there is one.
    pub fn port(self) -> Option<u16>
        ensures { result ≡ port_of self.entry }
    {
        match self {
            Place::Socket(_) => None,
            Place::Port(port) | Place::Both { port, .. } => Some(port),
        }
    }

    /// The name of the socket, where there is one.
    pub fn socket(self) -> Option<&'a str>
        ensures { option_map (λ name. name.now) result ≡ socket_of self.entry }
    {
        match self {
            Place::Port(_) => None,
            Place::Socket(name) | Place::Both { socket: name, .. } => Some(name),
        }
    }
}

/// How sessions are listened for and served.
#[derive(Clone, Copy, PartialEq, Eq)]
pub struct Listening<'a> {
    /// Where connections come to.
    pub place: Place<'a>,
    /// How many sessions are served at the port, and at the socket; where the server stays, how many at once; 1 to 256.
    pub sessions: u64,
    /// How many workers merge; 0 to 16.
    pub workers: u64,
    /// For how many milliseconds at most a session may hold; 0 to 60,000.
    pub hold: u64,
    /// The file that gets the trace, where one is named; never the empty name.
    pub trace: Option<&'a str>,
    /// Whether the server goes on until a line `STOP`, or the end of its standard input, has come.
    pub awaits_stop: bool,
    /// Whether the server takes connections until it is stopped, any number in all.
    pub stays: bool,
    /// How many seconds sessions may go on after the stop of a server that stays, where that is limited; 0 to 3,600.
    pub grace: Option<u64>,
    /// After how many seconds in which nothing came a session of a server that stays ends, where it does; 1 to 43,200.
    pub idle: Option<u64>,
    /// After how many seconds without a line of its session a transaction of a server that stays is aborted: 0 to
    /// 43,200, and 0 for none.
    pub lapse: u64,
    /// After how many seconds without a line a session of a server that stays makes way for another, where all are
    /// taken and it has no transaction; 0 to 43,200, and 0 for never.
    pub idle_seat: u64,
    /// Above how many runs with entries the workers of a server that stays merge in idle time what nobody asked for; 0
    /// to 65,535, and 0 for never.
    pub runs: u64,
    /// Whether a server that stays tells each minute, and at the end, how it does.
    pub is_logged: bool,
}
