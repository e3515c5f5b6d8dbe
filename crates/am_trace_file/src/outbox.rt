//! The text of a trace on its way to its file, which a thread of its own writes.
//!
//! So a file that takes long holds up nobody but that thread, and what waits for it is text.

ghost use Rattle.std.specs.Prelude.{◌≡◌, false};
ghost use Rattle.am_trace_file.specs.Outboxes.{sending_failures, is_unwritten};

use crate::growing_file::GrowingFile;
use am_line_sink::{Failed, Sink};
use std::alloc::Global;
use std::mem;
use std::rt::Clock;
use std::sync::atomic::{AtomicBool, AtomicU64, Ordering};
use std::sync::{Mutex, Wait};
use std::time::Duration;

/// So many bytes may wait: the trace is cut where its file is further behind.
const MOST_WAITING: usize = 256 << 20;

/// How long the writing thread sleeps where nothing wakes it.
const ROUND_MILLIS: u64 = 100;

/// What waits to be written, and the file while no thread has taken it.
#[derive(Drop)]
struct Waiting {
    file: Option<GrowingFile>,
    pieces: Vec<Vec<u8>>,
    // How many bytes aren't written yet, of these pieces and of those that were taken.
    len: usize,
    // Whether no further one comes.
    is_closed: bool,
}

/// Pieces of text that wait for a thread to write them to a file.
#[derive(Drop)]
pub struct Outbox {
    waiting: Mutex<Waiting>,
    // 0 while nothing waits.
    has_come: AtomicU64,
    is_failed: AtomicBool,
    is_told: AtomicBool,
    most_waiting: usize,
    alloc: Global,
}

impl Outbox {
    /// An outbox that has no file yet.
    pub fn new(alloc: Global) -> Outbox {
        Outbox::with_bound(alloc, MOST_WAITING)
    }

    /// The same, in which so many bytes may wait.
    pub fn with_bound(alloc: Global, most_waiting: usize) -> Outbox
        ensures { result.most_waiting ≡ most_waiting }
    {
        Outbox {
            waiting: Mutex::new(Waiting {
                file: None,
                pieces: Vec::new(alloc),
                len: 0,
                is_closed: false,
            }),
            has_come: AtomicU64::new(0),
            is_failed: AtomicBool::new(false),
            is_told: AtomicBool::new(false),
            most_waiting,
            alloc,
        }
    }

    /// The file that gets the pieces. Until a thread takes it, whoever has a piece writes it.
    pub fn give_file<R: Wait>(&self, rt: &R, file: GrowingFile) {
        self.waiting.lock(rt).file = Some(file);
    }

    /// Whether some of the text could not be written.
    pub fn is_failed(&self) -> bool {
        self.is_failed.load(Ordering::SeqCst)
    }

    /// Whether it is to be said that the trace is cut, where it is: the file didn't say so, and nobody asked before.
    pub fn is_untold(&self) -> bool {
        !self.is_failed() && !self.is_told.swap(true, Ordering::SeqCst)
    }

    /// How many bytes aren't written yet.
    pub fn len<R: Wait>(&self, rt: &R) -> usize {
        self.waiting.lock(rt).len
    }

    /// No further piece comes.
    pub fn close<R: Wait>(&self, rt: &R) {
        self.waiting.lock(rt).is_closed = true;
        self.ring();
    }

    // Lets a piece wait after the others, or writes it where no thread does.
    fn put<R: Wait + Eprint>(&self, rt: &R, piece: &[u8]) -> Result<(), Failed> {
        if self.is_failed() {
            return Err(Failed);
        }
        let mut waiting = self.waiting.lock(rt);
        if let Some(file) = &mut waiting.file {
            return self.note(file.write(rt, piece));
        }
        let len = waiting.len.saturating_add(piece.len());
        let Ok(copy) = Vec::from_slice(self.alloc, piece) else {
            return Err(Failed);
        };
        if len > self.most_waiting || waiting.pieces.push(copy).is_err() {
            return Err(Failed);
        }
        waiting.len = len;
        drop(waiting);
        self.ring();
        Ok(())
    }

    // Notes whether a piece could be written.
    fn note(&self, written: Result<(), Failed>) -> Result<(), Failed>
        ensures { result ≡ written }
    {
        if written.is_err() {
            self.is_failed.store(true, Ordering::SeqCst);
        }
        written
    }

    fn ring(&self) {
        self.has_come.store(1, Ordering::SeqCst);
        self.has_come.wake_all();
    }

    // So many bytes don't wait any more.
    fn let_go<R: Wait>(&self, rt: &R, count: usize) {
        let mut waiting = self.waiting.lock(rt);
        waiting.len = waiting.len.saturating_sub(count);
    }

    // The pieces that wait, and whether no further ones come.
    fn take_pieces<R: Wait>(&self, rt: &R) -> (Vec<Vec<u8>>, bool) {
        self.has_come.store(0, Ordering::SeqCst);
        let mut waiting = self.waiting.lock(rt);
        let pieces = mem::replace(&mut waiting.pieces, Vec::new(self.alloc));
        (pieces, waiting.is_closed)
    }

    /// Takes the file and writes the pieces as they come, until no further one does. After one that can't be written
    /// none is.
    #[inline(never)]
    pub fn write_out<R: Wait + Clock + Eprint>(&self, rt: &R) {
        let Some(mut file) = mem::replace(&mut self.waiting.lock(rt).file, None) else {
            return;
        };
        for _ in rt.forever() {
            let (pieces, is_closed) = self.take_pieces(rt);
            for piece in &pieces {
                if !self.is_failed() {
                    let _ = self.note(file.write(rt, piece));
                }
                self.let_go(rt, piece.len());
            }
            if is_closed {
                return;
            }
            self.has_come
                .park_timeout(rt, 0, Duration::from_millis(ROUND_MILLIS));
        }
    }
}

/// The end of an outbox that takes the text of a trace.
#[derive(Drop)]
pub struct Sending<'a, R> {
    rt: &'a R,
    outbox: &'a Outbox,
    failures: u64,
    is_pending: bool,
}

impl<'a, R> Sending<'a, R> {
    /// A sink that has taken nothing yet.
    pub fn new(rt: &'a R, outbox: &'a Outbox) -> Sending<'a, R>
        ensures failures { sending_failures result ≡ 0 }
        ensures sent { is_unwritten result ≡ false }
    {
        Sending {
            rt,
            outbox,
            failures: 0,
            is_pending: false,
        }
    }
}

impl<'a, R: Eprint + Wait> Sink for Sending<'a, R> {
    ghost use Rattle.std.specs.Prelude.{None};

    ghost holds = { λ _. None };

    ghost failures = { sending_failures };

    ghost pending = { is_unwritten };

    fn give(&mut self, piece: &[u8]) -> Result<usize, Failed> {
        if self.outbox.put(self.rt, piece).is_err() {
            self.failures += 1;
            return Err(Failed);
        }
        self.is_pending = self.is_pending || !piece.is_empty();
        Ok(piece.len())
    }

    fn flush(&mut self) -> Result<(), Failed> {
        self.is_pending = false;
        Ok(())
    }
}
