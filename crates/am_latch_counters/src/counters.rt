//! The two counters, and their seats.

ghost use Rattle.std.specs.Prelude.{◌≡◌, ◌+◌, ◌<◌, ◌≤◌, ◌∷◌, ◌++◌, [], All, IfErr, IfOk, MatchOption, OnOk};
ghost use Rattle.std.specs.Prelude.{length, max, vec_len, ◌⊎◌, ◌↔◌};
ghost use Rattle.am_latch_counters.specs.Counters.{CounterHistory, new_history, most_draws, HeldAtEnd};
ghost use Rattle.am_latch_counters.specs.Faults.{IsBadCount};

use crate::rule::{Draws, OneSeat, Publishes, Sees, TwoWords, View};
use am_latch::{CommitReceipt, MAX_SEATS};
use atomic_table::{Seat, Table};
use std::alloc::Global;
use std::marker::Model;
use thiserror::Error;

/// So many draws of all seats of a table that numbers don't wrap, and more than any seat makes.
const MOST_DRAWS: u64 = 1 << 50;

const NEXT: usize = 0;

const WATCH: usize = 1;

/// Why there are no counters.
#[derive(Clone, Copy, Debug, PartialEq, Eq, Error)]
pub enum CountersFault {
    /// There are 1 to 1,024 seats.
    #[error("the number of seats is out of its range")]
    BadSeats,
    /// Memory was refused.
    #[error("no memory")]
    NoMemory,
}

/// The two counters. None of its calls waits.
pub struct Counters {
    table: Table<u8, View, (), TwoWords, Global>,
}

// By hand: a crate above then need not prove once more how counters are dropped.
impl Drop for Counters {
    fn drop(self) {
        let Counters { table } = self;
        drop(table);
    }
}

impl Model for Counters {
    ghost use Rattle.std.specs.Prelude.{◌≡◌};
    ghost use Rattle.atomic_table.specs.Seated.{TableId};

    ghost Value = { TableId };

    ghost view = { λ w. w.table.shared.table_id };

    ghost invariant = { λ w. (w.table.shared.table_id.words ≡ 2) × (w.table.shared.table_id.slots ≡ 0) };
}

/// What one thread drew, saw and published.
#[derive(Drop)]
pub struct CounterSeat {
    seat: Seat<u8, View>,
    drawn: u64,
}

impl Model for CounterSeat {
    ghost use Rattle.std.specs.Prelude.{◌≡◌, ◌≤◌, length};
    ghost use Rattle.am_latch_counters.specs.Counters.{CounterHistory, most_draws};

    ghost Value = { CounterHistory };

    ghost view = { λ s. record {
      of = s.seat.table_id;
      drawn = s.seat.me.0.drawn;
      saw = s.seat.me.0.saw;
      published = s.seat.me.0.published;
    } };

    ghost invariant = { λ s. (s.drawn ≡ length s.seat.me.0.drawn) × (s.drawn ≤ most_draws) × (1 ≤ s.seat.me.0.seats) };
}

impl Counters {
    /// The two counters at 0, and so many seats.
    ///
    /// # Errors
    /// BadSeats, unless 1 to 1,024 seats are asked for; NoMemory, where memory was refused.
    pub fn open(alloc: Global, count: usize) -> Result<(Counters, Vec<CounterSeat>), CountersFault>
        ensures ok { IfOk result (λ r. (vec_len r.1 ≡ count) × All (λ s. s ≡ new_history r.0) r.1.items) }
        ensures bad { IfErr result (λ e. IsBadCount e ↔ ((count ≡ 0) ⊎ (1024 < count))) }
        ensures counted { OnOk result ((1 ≤ count) × (count ≤ 1024)) }
    {
        if count == 0 || count > MAX_SEATS {
            return Err(CountersFault::BadSeats);
        }
        let Ok((table, mut rest)) = Table::of_words(alloc, &[0, 0], &()) else {
            return Err(CountersFault::NoMemory);
        };
        let mut seats = Vec::new(alloc);
        if seats.reserve(count).is_err() {
            return Err(CountersFault::NoMemory);
        }
        for _ in 0..count {
            let seat = table.shared.split_seat::<OneSeat>(&mut rest);
            if seats.push(CounterSeat { seat, drawn: 0 }).is_err() {
                return Err(CountersFault::NoMemory);
            }
        }
        Ok((Counters { table }, seats))
    }

    /// A number that no seat drew before. None exactly where this seat has drawn 2 ^ 50. The numbers that all
    /// seats have drawn are those below the next number, each once.
    pub fn draw(&self, me: &mut CounterSeat) -> Option<u64>
        requires { me.old.of ≡ self.now }
        ensures { MatchOption result ((length me.old.drawn ≡ most_draws) × (me.new ≡ me.old))
            (λ n. (length me.old.drawn < most_draws) × (me.new ≡ record me.old { drawn = me.old.drawn ++ n ∷ [] })) }
    {
        if me.drawn >= MOST_DRAWS {
            return None;
        }
        let number = self.table.shared.fetch_add::<Draws>(&mut me.seat, NEXT, 1);
        me.drawn += 1;
        Some(number)
    }

    /// Raises the watch to the receipt's commit number, where it is below.
    pub fn publish(&self, me: &mut CounterSeat, receipt: &CommitReceipt)
        requires { me.old.of ≡ self.now }
        ensures { me.new ≡ record me.old { published = max me.old.published receipt.now } }
    {
        self.table
            .shared
            .fetch_max::<Publishes>(&mut me.seat, WATCH, receipt.commit());
    }

    /// Ends the counters, and gives the next number and the watch. The rule held of them and of all views, this seat's
    /// among them: this is where a contract says it.
    pub fn end(self, me: CounterSeat) -> (u64, u64)
        requires { me.of ≡ self }
        ensures { HeldAtEnd result.0 result.1 me }
    {
        let Counters { table } = self;
        let CounterSeat { seat, drawn: _ } = me;
        let closed = table.close_with(seat);
        let next = closed.word(NEXT);
        let watch = closed.word(WATCH);
        closed.free();
        (next, watch)
    }

    /// The watch, which is never below what this seat saw or published.
    pub fn seen(&self, me: &mut CounterSeat) -> u64
        requires { me.old.of ≡ self.now }
        ensures saw { me.new ≡ record me.old { saw = result } }
        ensures later { (me.old.saw ≤ result) × (me.old.published ≤ result) }
    {
        self.table.shared.load::<Sees>(&mut me.seat, WATCH)
    }
}
