//! The rule of the two counters, and what each step tells.

use atomic_table::{Play, Split, TableRule};
use std::collections::LinkedList;

/// What a seat knows. No value of it is made.
pub(crate) struct View {
    /// For how many seats it stands.
    pub seats: u64,
    pub drawn: LinkedList<u64>,
    pub saw: u64,
    pub published: u64,
}

pub(crate) struct TwoWords;

impl TableRule<u8, View, ()> for TwoWords {
    ghost use Rattle.am_latch_counters.specs.Counters.{IsRuleOfCounters, all_seats};

    ghost holds = { λ _. IsRuleOfCounters };

    ghost first = { λ _. all_seats };
}

pub(crate) struct Draws;

impl Play<u8, View> for Draws {
    ghost use Rattle.am_latch_counters.specs.Counters.{DrawsNumber};

    ghost then = { DrawsNumber };
}

pub(crate) struct Publishes;

impl Play<u8, View> for Publishes {
    ghost use Rattle.am_latch_counters.specs.Counters.{RaisesWatch};

    ghost then = { RaisesWatch };
}

pub(crate) struct Sees;

impl Play<u8, View> for Sees {
    ghost use Rattle.am_latch_counters.specs.Counters.{SeesWatch};

    ghost then = { SeesWatch };
}

/// Cuts one seat off.
pub(crate) struct OneSeat;

impl Split<View> for OneSeat {
    ghost use Rattle.am_latch_counters.specs.Counters.{without_one_seat, one_seat};

    ghost left = { without_one_seat };

    ghost right = { λ _. one_seat };
}
