//! Where a child of a node begins.

ghost use Rattle.std.specs.Prelude.{◌≡◌, ◌<◌, ◌^◌};
ghost use Rattle.am_index_btree.specs.Fronts.{short_front};
ghost use Rattle.am_index_btree.specs.Separators.{IsReach, SeparatorsRise};

use am_record::{Entry, Key};
use std::cmp::Ordering;

/// How many separators a long step of a search passes.
const STEP: usize = 8;

/// All partitions from this one on have one front.
const LAST_PART: u32 = 65_535;

/// The least place that a child may hold.
#[derive(Clone, Copy)]
pub(crate) struct Separator {
    pub(crate) part: u32,
    pub(crate) key: Key,
}

impl Separator {
    ghost use Rattle.std.specs.Ordering.{is_le};
    ghost use Rattle.am_record.specs.EntryOrder.{place_cmp};
    ghost use Rattle.am_index_btree.specs.Fronts.{place_front};
    ghost use Rattle.am_index_btree.specs.Separators.{separator_for, separator_place};

    /// The place of the entry.
    pub(crate) fn of(entry: &Entry) -> Separator
        ensures { result ≡ separator_for entry.now }
    {
        Separator {
            part: entry.part,
            key: entry.key,
        }
    }

    /// A number that follows the order of places: where one place's front is below another's, so is the place. Where
    /// they are equal, it says nothing.
    #[tactic(auto, unfolding(crate::specs::Fronts::place_front))]
    pub(crate) fn front(&self) -> u64
        ensures { result ≡ place_front (separator_place self.now) }
    {
        if self.part < LAST_PART {
            u64::from(self.part) * (1 << 48) + short_front(self.key.front())
        } else {
            u64::MAX
        }
    }

    /// Whether it stands at or below the place.
    pub(crate) fn is_reached(&self, part: u32, key: Key) -> bool
        ensures { result ≡ is_le (place_cmp (separator_place self.now) (part, key)) }
    {
        self.cmp_place(part, key).is_le()
    }

    #[tactic(auto, unfolding(am_record::specs::EntryOrder::place_cmp))]
    fn cmp_place(&self, part: u32, key: Key) -> Ordering
        ensures { result ≡ place_cmp (separator_place self.now) (part, key) }
    {
        self.part.cmp(&part).then(self.key.cmp(&key))
    }
}

// A key's front in 48 bits. Small numbers keep all of theirs, since numbers that count up differ in their last bits.
// The fronts of texts are no small numbers.
#[tactic(auto, unfolding(crate::specs::Fronts::short_front))]
fn short_front(front: u64) -> u64
    ensures value { result ≡ short_front front }
    ensures short { result < 2 ^ 48 }
{
    if front < 1 << 47 {
        front
    } else {
        (1 << 47) + front / (1 << 17)
    }
}

/// How many separators stand at or below the place. The last one is asked first, since a load goes there. Then the
/// search takes long steps and short ones, each to a separator that doesn't depend on what the one before it was: so
/// several of them come from memory at once, where a search by halves would wait for each.
pub(crate) fn reached(separators: &[Separator], part: u32, key: Key) -> usize
    requires { SeparatorsRise separators.now }
    ensures { IsReach separators.now part key result }
{
    let len = separators.len();
    if len > 0 && separators[len - 1].is_reached(part, key) {
        return len;
    }
    let mut reach = 0;
    while len - reach > STEP && separators[reach + STEP - 1].is_reached(part, key) {
        reach += STEP;
    }
    while reach < len && separators[reach].is_reached(part, key) {
        reach += 1;
    }
    reach
}
