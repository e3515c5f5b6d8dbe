//! The first line of a server's trace.

ghost use Rattle.std.specs.Prelude.{◌≡◌, ◌≢◌};
ghost use Rattle.am_trace_text.specs.Headers.{line_version, most_runs_of};
ghost use Rattle.am_serve.specs.Headers.{header_of, most_runs_for};

use am_record::LAST_RUN;
use am_serve_connections::Lifetime;
use am_trace_text::{Header, StoreLimits, Version};

/// What the first line of a server's trace says, by whether version 3 alone writes its steps. The server's store makes
/// as many runs at most as that line says.
pub fn header_of(lifetime: Lifetime, needs_three: bool) -> Header
    ensures header { result ≡ header_of lifetime needs_three }
    ensures runs { most_runs_of result ≡ most_runs_for lifetime }
    ensures written { line_version result ≢ Version.One }
{
    match lifetime {
        Lifetime::Bounded if needs_three => Header::Profile(Version::Three),
        Lifetime::Bounded => Header::Profile(Version::Two),
        Lifetime::Staying => Header::Limits(StoreLimits::with_runs(LAST_RUN)),
    }
}
