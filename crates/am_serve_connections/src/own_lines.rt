//! Lines of the protocol, and no others.

ghost use Rattle.std.specs.Prelude.{◌≡◌, ◌≢◌, ◌∷◌, ◌++◌, ◌+◌, ◌^◌, ◌<◌, ◌≤◌, [], length, take, drop, true, false};
ghost use Rattle.std.specs.Prelude.{IfOk, IfSome, IfNone, OnOk, OnErr, IsErr};
ghost use Rattle.am_serve_connections.specs.Http.{is_of_http};
ghost use Rattle.am_line_source.specs.Lines.{HasNoLf};
ghost use Rattle.am_line_source.specs.SourceReads.{Took};
ghost use Rattle.am_serve_connections.specs.OwnLines.{http_end, line_behind, begins_line, own_end, line_begun};
ghost use Rattle.am_serve_connections.specs.OwnLines.{may_come, Passed, Refused};
ghost use Rattle.am_serve_connections.specs.declared.own_lines.Stage.TheVariants.{First, Closed};

use crate::unended_line::UnendedLine;
use am_line_sink::Failed;
use am_line_source::Source;
use std::alloc::{AllocError, Global};

/// Where a connection stands.
#[derive(Clone, Copy, PartialEq, Eq)]
enum Stage {
    /// Nothing has come yet.
    First,
    /// What came so far are lines of the protocol.
    Open,
    /// Something else came.
    Closed,
}

/// A source that fails from where its bytes cease to be lines of the protocol: at its first byte, where that begins no
/// such line, or at the end of a line of HTTP. So a session after it ends as where its connection was lost, and takes
/// no such line.
#[derive(Drop)]
pub struct OwnLines<S: Source + Drop> {
    source: S,
    line: UnendedLine,
    stage: Stage,
    // How often it failed since it is closed.
    refused: u64,
}

// The first line of these bytes, without its LF, where a whole one is there.
fn first_line(bytes: &[u8]) -> Option<&[u8]>
    ensures line { IfSome result (λ l. bytes.now ≡ l.now ++ 10 ∷ drop (length l.now + 1) bytes.now) }
    ensures one { IfSome result (λ l. HasNoLf l.now) }
    ensures none { IfNone result (HasNoLf bytes.now) }
{
    let end = bytes.iter().position(|byte| *byte == b'\n')?;
    Some(&bytes[..end])
}

// Where bytes end a line of HTTP that go on with a line. Where they end none, how the next line begins is kept.
fn http_end(line: &mut UnendedLine, bytes: &[u8]) -> Option<usize>
    ensures end { result ≡ http_end line.old.bytes.items bytes.now }
    ensures within { IfSome result (λ place. place ≤ length bytes.now) }
    ensures line { IfNone result (line.new.bytes.items ≡ take 4097 (line_behind line.old.bytes.items bytes.now)) }
{
    let mut start = 0;
    'lines: while let Some(rest) = first_line(&bytes[start..]) {
        let end = start + rest.len();
        if line.end(rest) {
            return Some(end);
        }
        start = end + 1;
    }
    line.add(&bytes[start..]);
    None
}

// Whether the first byte, where there is one, begins a line of text: it is printed, or is a blank.
fn begins_line(bytes: &[u8]) -> bool
    ensures { result ≡ begins_line bytes.now }
{
    match bytes.split_first() {
        Some((byte, _)) => byte.is_ascii_graphic() || byte.is_ascii_whitespace(),
        None => true,
    }
}

// Where bytes cease to be lines of the protocol. Where they don't, how the next line begins is kept.
fn own_end(stage: Stage, line: &mut UnendedLine, bytes: &[u8]) -> Option<usize>
    ensures end { result ≡ own_end stage line.old.bytes.items bytes.now }
    ensures within { IfSome result (λ place. place ≤ length bytes.now) }
    ensures line { IfNone result (line.new.bytes.items ≡ take 4097 (line_behind line.old.bytes.items bytes.now)) }
{
    match stage {
        Stage::Closed => Some(0),
        Stage::First if !begins_line(bytes) => Some(0),
        Stage::First | Stage::Open => http_end(line, bytes),
    }
}

impl<S: Source + Drop> OwnLines<S> {
    /// A source from which nothing has come yet.
    ///
    /// # Errors
    /// Memory was refused.
    pub fn new(alloc: Global, source: S) -> Result<OwnLines<S>, AllocError>
        ensures source { IfOk result (λ s. s.source ≡ source) }
        ensures first { IfOk result (λ s. (s.stage ≡ First) × (line_begun s ≡ [])) }
        ensures failures { IfOk result (λ s. S.failures s.source + s.refused ≡ S.failures source) }
    {
        Ok(OwnLines {
            source,
            line: UnendedLine::new(alloc)?,
            stage: Stage::First,
            refused: 0,
        })
    }

    // It is closed, and fails.
    fn refuse(&mut self) -> Result<usize, Failed>
        requires { S.failures self.old.source + self.old.refused < 2 ^ 63 }
        ensures err { IsErr result }
        ensures closed { self.new.stage ≡ Closed }
        ensures counted { self.new.refused ≡ self.old.refused + 1 }
        ensures same { (self.new.source ≡ self.old.source) × (line_begun self.new ≡ line_begun self.old) }
    {
        self.stage = Stage::Closed;
        self.refused += 1;
        Err(Failed)
    }

    // Takes more of a source of which all that came so far are lines of the protocol.
    fn take_open(&mut self, into: &mut [u8]) -> Result<usize, Failed>
        requires countable { S.failures self.old.source + self.old.refused < 2 ^ 63 }
        requires unclosed { self.old.stage ≢ Closed }
        ensures fits { IfOk result (λ n. n ≤ length into.new) }
        ensures taken { IfOk result (λ n. Took (λ s. may_come S.comes s) self.old (take n into.new) self.new) }
        ensures end { IfOk result (λ n. n ≡ 0 → 0 < length into.new → may_come S.comes self.new []) }
        ensures ok { OnOk result (S.failures self.new.source + self.new.refused ≡
            S.failures self.old.source + self.old.refused) }
        ensures failed { OnErr result (S.failures self.new.source + self.new.refused ≡
            (S.failures self.old.source + self.old.refused) + 1) }
        ensures kept { OnErr result (Took (λ s. may_come S.comes s) self.old [] self.new) }
        ensures passed { IfOk result (λ n. Passed S.comes self.old (length into.old) (take n into.new) self.new) }
        ensures refused { OnErr result (Refused S.comes S.failures self.old self.new) }
    {
        let Ok(len) = self.source.take(into) else {
            return Err(Failed);
        };
        if len == 0 {
            return self.end(into.is_empty());
        }
        match own_end(self.stage, &mut self.line, &into[..len]) {
            None => {
                self.stage = Stage::Open;
                Ok(len)
            }
            Some(0) => self.refuse(),
            Some(end) => {
                self.stage = Stage::Closed;
                Ok(end)
            }
        }
    }

    // Nothing came: the source has ended, unless there was no room.
    fn end(&mut self, is_full: bool) -> Result<usize, Failed>
        requires { S.failures self.old.source + self.old.refused < 2 ^ 63 }
        ensures none { IfOk result (λ n. n ≡ 0) }
        ensures ended { OnOk result (is_full ≡ false → is_of_http (line_begun self.old) ≡ false) }
        ensures ok { OnOk result (self.new ≡ self.old) }
        ensures http { OnErr result (is_of_http (line_begun self.old) ≡ true) }
        ensures closed { OnErr result (self.new.stage ≡ Closed) }
        ensures counted { OnErr result (self.new.refused ≡ self.old.refused + 1) }
        ensures same { OnErr result (self.new.source ≡ self.old.source) }
    {
        if !is_full && self.line.is_of_http() {
            return self.refuse();
        }
        Ok(0)
    }
}

impl<S: Source + Drop> Source for OwnLines<S> {
    ghost use Rattle.std.specs.Prelude.{◌+◌};
    ghost use Rattle.am_serve_connections.specs.OwnLines.{may_come};

    ghost comes = { λ s bytes. may_come S.comes s bytes };

    ghost failures = { λ s. S.failures s.source + s.refused };

    fn take(&mut self, into: &mut [u8]) -> Result<usize, Failed>
        requires countable { S.failures self.old.source + self.old.refused < 2 ^ 63 }
        ensures fits { IfOk result (λ n. n ≤ length into.new) }
        ensures taken { IfOk result (λ n. Took (λ s. may_come S.comes s) self.old (take n into.new) self.new) }
        ensures end { IfOk result (λ n. n ≡ 0 → 0 < length into.new → may_come S.comes self.new []) }
        ensures ok { OnOk result (S.failures self.new.source + self.new.refused ≡
            S.failures self.old.source + self.old.refused) }
        ensures failed { OnErr result (S.failures self.new.source + self.new.refused ≡
            (S.failures self.old.source + self.old.refused) + 1) }
        ensures kept { OnErr result (Took (λ s. may_come S.comes s) self.old [] self.new) }

        // What it passes on, and why it fails.
        ensures passed { IfOk result (λ n. Passed S.comes self.old (length into.old) (take n into.new) self.new) }
        ensures refused { OnErr result (Refused S.comes S.failures self.old self.new) }
        ensures closed { self.old.stage ≡ Closed → IsErr result }
    {
        match self.stage {
            Stage::Closed => self.refuse(),
            Stage::First | Stage::Open => self.take_open(into),
        }
    }

    // Once it is closed nothing is waited for.
    fn await_more(&mut self) -> bool
        ensures kept { Took (λ s. may_come S.comes s) self.old [] self.new }
        ensures same { S.failures self.new.source + self.new.refused ≡
            S.failures self.old.source + self.old.refused }
        ensures stage { (self.new.stage ≡ self.old.stage) × (line_begun self.new ≡ line_begun self.old) }
    {
        match self.stage {
            Stage::Closed => true,
            Stage::First | Stage::Open => self.source.await_more(),
        }
    }
}
