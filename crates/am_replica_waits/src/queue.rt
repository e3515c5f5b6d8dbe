//! Blocks that wait for their place in the log.

ghost use Rattle.std.specs.Prelude.{◌≡◌, ◌<◌, ◌≤◌, ◌++◌, true, false, length, drop, map, MatchOption, OnOk, OnErr};
ghost use Rattle.std.specs.Prelude.{◌+◌, IfOk, leb};
ghost use Rattle.std.specs.List.{remove};
ghost use Rattle.am_replica_waits.specs.Queues.{new_queue, is_of, all_but, with_entered, keeps_within, first_within};
ghost use Rattle.am_replica_waits.specs.Queues.{handed_together, with_handed, with_settled, expires_as, with_expired};

use am_record::NoMemory;
use std::alloc::Global;
use std::marker::Model;

/// A client's blocks: the number under which they wait, and how many bytes they have.
#[derive(Clone, Copy, Debug)]
pub struct Waiting {
    pub number: u64,
    pub bytes: u64,
}

/// What a client is told whose time is over.
#[derive(Clone, Copy, Debug, PartialEq, Eq)]
pub enum Expired {
    /// Its blocks were never handed over, and never will be.
    Unreachable,
    /// They were, and what they came to isn't known.
    Unknown,
}

/// Which blocks wait, and which are on their way to the log.
pub struct Queue {
    next: u64,
    // Those on their way, and behind them those that wait.
    all: Vec<Waiting>,
    on_way: usize,
}

// By hand: a crate above then need not prove once more how the list is dropped.
impl Drop for Queue {
    fn drop(self) {
        let Queue {
            next: _,
            all,
            on_way: _,
        } = self;
        drop(all);
    }
}

impl Model for Queue {
    ghost use Rattle.std.specs.Prelude.{◌≤◌, length, take, drop};
    ghost use Rattle.am_replica_waits.specs.Queues.{QueueState};

    ghost Value = { QueueState };

    ghost view = { λ q. record {
      next = q.next;
      on_way = take q.on_way q.all.items;
      waiting = drop q.on_way q.all.items;
    } };

    ghost invariant = { λ q. q.on_way ≤ length q.all.items };
}

impl Queue {
    /// Nobody waits.
    pub fn new(alloc: Global) -> Queue
        ensures { result ≡ new_queue }
    {
        Queue {
            next: 1,
            all: Vec::new(alloc),
            on_way: 0,
        }
    }

    /// Those that were handed over, and are told nothing yet.
    pub fn on_way(&self) -> &[Waiting]
        ensures { result.now ≡ self.now.on_way }
    {
        &self.all[..self.on_way]
    }

    /// Those that still wait.
    pub fn waiting(&self) -> &[Waiting]
        ensures { result.now ≡ self.now.waiting }
    {
        &self.all[self.on_way..]
    }

    /// Has blocks wait behind all others, under a number of their own, which is told. Numbers rise.
    ///
    /// # Errors
    /// NoMemory, where memory was refused, or 2^64 - 2 numbers were given: nothing waits then that didn't.
    pub fn enter(&mut self, bytes: u64) -> Result<u64, NoMemory>
        ensures number { IfOk result (λ number. number ≡ self.old.next) }
        ensures entered { OnOk result (self.new ≡ with_entered bytes self.old) }
        ensures same { OnErr result (self.new ≡ self.old) }
    {
        let number = self.next;
        let next = number.checked_add(1).ok_or(NoMemory)?;
        self.all.push(Waiting { number, bytes })?;
        self.next = next;
        Ok(number)
    }

    /// Lets those go on their way that have waited longest: the first one whatever its size, and further ones as long
    /// as all have at most so many bytes, and there is room for their numbers. How many these are is told, and their
    /// numbers go out. It takes no memory.
    pub fn hand_over(&mut self, most_bytes: u64, numbers: &mut [u64]) -> usize
        ensures count { result ≡ length (handed_together most_bytes (length numbers.old) self.old) }
        ensures numbers { numbers.new ≡
            map (λ w. w.number) (handed_together most_bytes (length numbers.old) self.old) ++ drop result numbers.old }
        ensures left { self.new ≡ with_handed most_bytes (length numbers.old) self.old }
    {
        let waiting = self.waiting();
        let most = waiting.len().min(numbers.len());
        let count = first_within(most_bytes, &waiting[..most]);
        tell_numbers(&waiting[..count], numbers);
        self.on_way += count;
        count
    }

    /// Tells a client what its blocks came to, where they were on their way: they are gone then. It takes no memory.
    pub fn settle(&mut self, number: u64) -> bool
        ensures was { result ≡ is_of number self.old.on_way }
        ensures gone { self.new ≡ with_settled number self.old }
    {
        match place_of(number, self.on_way()) {
            Some(at) => {
                self.all.remove(at);
                self.on_way -= 1;
                true
            }
            None => false,
        }
    }

    /// What a client is told whose time is over, unless it was told before. Its blocks are gone: if they waited, they
    /// are never handed over. It takes no memory.
    pub fn expire(&mut self, number: u64) -> Option<Expired>
        ensures how { result ≡ expires_as number self.old }
        ensures gone { self.new ≡ with_expired number self.old }
    {
        if self.settle(number) {
            return Some(Expired::Unknown);
        }
        match place_of(number, self.waiting()) {
            Some(at) => {
                self.all.remove(self.on_way + at);
                Some(Expired::Unreachable)
            }
            None => None,
        }
    }
}

// How many of those that wait go on their way, of those that there is room for.
fn first_within(most_bytes: u64, waiting: &[Waiting]) -> usize
    ensures count { result ≡ length (first_within most_bytes waiting.now) }
    ensures fits { result ≤ length waiting.now }
{
    let Some(first) = waiting.first() else {
        return 0;
    };
    1 + keeps_within(most_bytes, first.bytes, &waiting[1..])
}

fn keeps_within(most_bytes: u64, first: u64, waiting: &[Waiting]) -> usize
    ensures count { result ≡ length (keeps_within most_bytes first waiting.now) }
    ensures fits { result ≤ length waiting.now }
{
    let mut size = first;
    let mut count = 0;
    for next in waiting {
        if !fits(most_bytes, size, next.bytes) {
            return count;
        }
        size += next.bytes;
        count += 1;
    }
    count
}

fn fits(most_bytes: u64, size: u64, more: u64) -> bool
    ensures { result ≡ leb (size + more) most_bytes }
{
    size <= most_bytes && more <= most_bytes - size
}

fn tell_numbers(handed: &[Waiting], numbers: &mut [u64])
    requires { length handed.now ≤ length numbers.old }
    ensures { numbers.new ≡ map (λ w. w.number) handed.now ++ drop (length handed.now) numbers.old }
{
    for (at, waiting) in handed.iter().enumerate() {
        numbers[at] = waiting.number;
    }
}

// At which place the one of that number is.
fn place_of(number: u64, waiting: &[Waiting]) -> Option<usize>
    ensures { MatchOption result (is_of number waiting.now ≡ false)
        (λ at. (at < length waiting.now) × (is_of number waiting.now ≡ true) ×
        (all_but number waiting.now ≡ remove waiting.now at)) }
{
    for (at, one) in waiting.iter().enumerate() {
        if one.number == number {
            return Some(at);
        }
    }
    None
}
