//! Whose call it is.

/// Whose call a pair of the trace is.
#[derive(Clone, Copy, PartialEq, Eq)]
pub struct CallId {
    pub seat: u64,
    pub call: u64,
}
