//! Where bytes come from.

ghost use Rattle.std.specs.Prelude.{◌≡◌, ℕ, ◌+◌, ◌-◌, ◌^◌, ◌<◌, ◌≤◌, ◌↔◌, List, [], length, take, drop, min, OnOk};
ghost use Rattle.std.specs.Prelude.{OnErr, IfOk, IsErr};
ghost use Rattle.am_line_source.specs.SourceReads.{Took, Incoming, IsRest, next_size};

use am_line_sink::{Failed, falls_due};
use std::marker::Model;

/// A stream of bytes that comes in pieces, each of a size that the source chooses.
pub trait Source {
    // The bytes that may still come.
    ghost comes: { Self → List ℕ → Type 0 };

    // How often it has failed.
    ghost failures: { Self → ℕ };

    /// Takes some of the bytes that come next, at most as many as fit, and says how many. None, where there is room,
    /// means the end of the source. At a failure nothing was taken.
    fn take(&mut self, into: &mut [u8]) -> Result<usize, Failed>
        requires countable { failures self.old < 2 ^ 63 }
        ensures fits { IfOk result (λ n. n ≤ length into.new) }
        ensures taken { IfOk result (λ n. Took comes self.old (take n into.new) self.new) }
        ensures end { IfOk result (λ n. n ≡ 0 → 0 < length into.new → comes self.new []) }
        ensures ok { OnOk result (failures self.new ≡ failures self.old) }
        ensures failed { OnErr result (failures self.new ≡ failures self.old + 1) }
        ensures kept { OnErr result (Took comes self.old [] self.new) };

    /// Returns once there is something to take, or the source has ended or fails. Whether that was so in time: some
    /// sources know how long one waits for them. Nothing is taken.
    fn await_more(&mut self) -> bool
        ensures kept { Took comes self.old [] self.new }
        ensures same { failures self.new ≡ failures self.old };
}

/// A source over memory, which gives its bytes in pieces of given sizes, and can be made to fail once.
#[derive(Drop)]
pub struct PieceSource<'a> {
    bytes: &'a [u8],
    sizes: &'a [usize],
    calls_to_failure: u64,
    failures: u64,
}

impl<'a> Model for PieceSource<'a> {
    ghost use Rattle.am_line_source.specs.SourceReads.{Incoming};

    ghost Value = { Incoming };

    ghost view = { λ s. record {
      rest = s.bytes.now;
      sizes = s.sizes.now;
      calls_to_failure = s.calls_to_failure;
      failures = s.failures;
    } };
}

impl<'a> PieceSource<'a> {
    /// The bytes, to be given in pieces of these sizes: of one byte where the list has ended or the size is 0, and
    /// never more than fit or are left. Call number `fail_at` fails, the first being 1; 0 means that none does. The
    /// failing call uses up no size.
    pub fn new(bytes: &'a [u8], sizes: &'a [usize], fail_at: u64) -> Self
        ensures { result ≡ record { rest = bytes.now; sizes = sizes.now; calls_to_failure = fail_at; failures = 0 } }
    {
        PieceSource {
            bytes,
            sizes,
            calls_to_failure: fail_at,
            failures: 0,
        }
    }
}

/// Uses up the first of the sizes.
fn next_size(sizes: &mut &[usize]) -> usize
    ensures size { result ≡ next_size sizes.old.now }
    ensures rest { sizes.new.now ≡ drop 1 sizes.old.now }
{
    match sizes.split_first() {
        Some((size, rest)) => {
            *sizes = rest;
            (*size).max(1)
        }
        None => 1,
    }
}

impl<'a> Source for PieceSource<'a> {
    ghost comes = { IsRest };

    ghost failures = { λ s. s.failures };

    fn take(&mut self, into: &mut [u8]) -> Result<usize, Failed>
        requires countable { self.old.failures < 2 ^ 63 }
        ensures fits { IfOk result (λ n. n ≤ length into.new) }
        ensures taken { IfOk result (λ n. Took IsRest self.old (take n into.new) self.new) }
        ensures end { IfOk result (λ n. n ≡ 0 → 0 < length into.new → IsRest self.new []) }
        ensures ok { OnOk result (self.new.failures ≡ self.old.failures) }
        ensures failed { OnErr result (self.new.failures ≡ self.old.failures + 1) }
        ensures kept { OnErr result (Took IsRest self.old [] self.new) }

        // When it fails, and how much it gives.
        ensures due { IsErr result ↔ (self.old.calls_to_failure ≡ 1) }
        ensures counted { self.new.calls_to_failure ≡ self.old.calls_to_failure - 1 }
        ensures size { IfOk result (λ n. n ≡ min (min (next_size self.old.sizes) (length self.old.rest))
            (length into.new)) }
        ensures size_used { OnOk result (self.new.sizes ≡ drop 1 self.old.sizes) }
        ensures sizes_kept { OnErr result (self.new.sizes ≡ self.old.sizes) }
    {
        if falls_due(&mut self.calls_to_failure) {
            self.failures += 1;
            return Err(Failed);
        }
        let size = next_size(&mut self.sizes);
        let n = size.min(self.bytes.len()).min(into.len());
        let (front, back) = self.bytes.split_at(n);
        into[..n].copy_from_slice(front);
        self.bytes = back;
        Ok(n)
    }

    fn await_more(&mut self) -> bool {
        true
    }
}
