//! Why a server doesn't end well.

ghost use Rattle.std.specs.Prelude.{◌≡◌};
ghost use Rattle.am_program_listen.specs.Faults.{fault_status, fault_why, fault_words};

use am_trace_file::TraceFileFault;
use std::io;

/// Why a server doesn't end well, with what the system said of it, where that isn't told when it happens.
#[derive(Clone, Copy, Debug)]
pub enum ListenFault {
    /// The port can't be listened at.
    CannotListenAtPort(io::Error),
    /// The socket of the file system can't be listened at.
    CannotListenAtSocket(io::Error),
    /// A connection could not be accepted. In a bounded server no session comes after it.
    CannotAccept,
    /// The trace can't be written.
    CannotWriteTrace(Option<io::Error>),
    /// Memory was refused.
    NoMemory,
    /// A stop is awaited, and no thread can be started that would hear it.
    CannotHear,
}

impl ListenFault {
    /// The program's status.
    pub fn status(self) -> u8
        ensures { result ≡ fault_status self }
    {
        match self {
            ListenFault::CannotListenAtPort(_)
            | ListenFault::CannotListenAtSocket(_)
            | ListenFault::CannotAccept => 3,
            ListenFault::CannotWriteTrace(_) => 4,
            ListenFault::NoMemory | ListenFault::CannotHear => 5,
        }
    }

    /// What the system said.
    pub fn why(self) -> Option<io::Error>
        ensures { result ≡ fault_why self }
    {
        match self {
            ListenFault::CannotListenAtPort(why) | ListenFault::CannotListenAtSocket(why) => Some(
                why,
            ),
            ListenFault::CannotWriteTrace(why) => why,
            ListenFault::CannotAccept | ListenFault::NoMemory | ListenFault::CannotHear => None,
        }
    }

    /// What is said on standard error.
    pub fn words(self) -> &'static str
        ensures { result.now ≡ fault_words self }
    {
        match self {
            ListenFault::CannotListenAtPort(_) | ListenFault::CannotListenAtSocket(_) => {
                "amserve: cannot listen"
            }
            ListenFault::CannotAccept => "amserve: cannot accept",
            ListenFault::CannotWriteTrace(_) => "amserve: cannot write the trace",
            ListenFault::NoMemory => "amserve: no memory",
            ListenFault::CannotHear => "amserve: no thread to hear STOP",
        }
    }
}

impl From<TraceFileFault> for ListenFault {
    ghost use Rattle.am_program_listen.specs.Faults.{fault_of_file};

    ghost from_gives = { λ file fault. fault ≡ fault_of_file file };

    fn from(fault: TraceFileFault) -> ListenFault {
        match fault {
            TraceFileFault::CannotWrite(why) => ListenFault::CannotWriteTrace(Some(why)),
            TraceFileFault::NoMemory => ListenFault::NoMemory,
        }
    }
}
