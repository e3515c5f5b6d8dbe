//! Why no request is read.

ghost use Rattle.std.specs.Prelude.{◌≡◌};
ghost use Rattle.am_resp_text.specs.declared.fault.RequestFault.TheVariants.{NoMemory as OutOfMemory};
ghost use Rattle.am_resp_text.specs.Gaps.{request_fault};

use std::alloc::AllocError;
use thiserror::Error;

/// Why no whole text stands at the front of some bytes.
#[derive(Clone, Copy, Debug, PartialEq, Eq)]
pub enum Gap {
    /// Bytes are missing that can still come.
    Incomplete,
    /// Whatever comes, there will be none.
    Bad,
}

/// Why no request is read from some bytes.
#[derive(Clone, Copy, Debug, PartialEq, Eq, Error)]
pub enum RequestFault {
    /// They are the beginning of a request.
    #[error("the request is not whole yet")]
    Incomplete,
    /// No request begins so.
    #[error("not a request")]
    Bad,
    /// Memory was refused for the list of words.
    #[error("no memory")]
    NoMemory,
}

impl From<Gap> for RequestFault {
    ghost from_gives = { λ gap fault. fault ≡ request_fault gap };

    fn from(gap: Gap) -> RequestFault {
        match gap {
            Gap::Incomplete => RequestFault::Incomplete,
            Gap::Bad => RequestFault::Bad,
        }
    }
}

impl From<AllocError> for RequestFault {
    ghost from_gives = { λ _ fault. fault ≡ OutOfMemory };

    fn from(_error: AllocError) -> RequestFault {
        RequestFault::NoMemory
    }
}
