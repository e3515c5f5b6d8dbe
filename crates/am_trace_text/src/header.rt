//! The first line of a text.

ghost use Rattle.std.specs.Prelude.{◌≡◌};
ghost use Rattle.am_trace_text.specs.Headers.{line_version, most_runs_of, store_limits};
ghost use Rattle.am_trace_text.specs.Lines.{header_line};

use crate::store_limits::StoreLimits;
use crate::version::Version;
use am_line_text::Text;
use am_record::MAX_RUNS;

/// What the first line of a text says.
#[derive(Clone, Copy, Debug, PartialEq, Eq)]
pub enum Header {
    /// `TRACE 1`, `TRACE 2` or `TRACE 3`: the version of the lines after it. The store has the profile's limits.
    Profile(Version),
    /// `TRACE 4 runs key value locks operations`: the limits of the store. The lines after it are of version 3.
    Limits(StoreLimits),
}

impl Header {
    /// The version of the lines after it.
    pub fn version(self) -> Version
        ensures { result ≡ line_version self }
    {
        match self {
            Header::Profile(version) => version,
            Header::Limits(_) => Version::Three,
        }
    }

    /// The limits of the store.
    pub fn limits(self) -> StoreLimits
        ensures { result ≡ store_limits self }
    {
        match self {
            Header::Profile(_) => StoreLimits::with_runs(MAX_RUNS),
            Header::Limits(limits) => limits,
        }
    }

    /// How many runs the store makes at most.
    pub fn most_runs(self) -> u32
        ensures { result ≡ most_runs_of self }
    {
        self.limits().runs
    }

    /// The line, with its LF.
    pub fn line(self) -> Text
        ensures { result ≡ header_line self }
    {
        match self {
            Header::Profile(Version::One) => Text::new(b"TRACE 1\n"),
            Header::Profile(Version::Two) => Text::new(b"TRACE 2\n"),
            Header::Profile(Version::Three) => Text::new(b"TRACE 3\n"),
            Header::Limits(limits) => Text::new(b"TRACE 4 ")
                .then_number(u64::from(limits.runs))
                .then(b" ")
                .then_number(limits.key_bytes)
                .then(b" ")
                .then_number(limits.value_bytes)
                .then(b" ")
                .then_number(limits.locks)
                .then(b" ")
                .then_number(limits.operations)
                .then(b"\n"),
        }
    }
}
