//! Where a search of a leaf has to compare whole keys.

ghost use Rattle.std.specs.Prelude.{◌≡◌, length};
ghost use Rattle.am_index_leaf.specs.Stretch.{PlacesRise, IsStretchFor};

use crate::places::Places;
use am_record::{Key, fronts_follow_keys};

/// The places among which the one may be: those before are below it, and those after above. Where all are of its
/// partition, fronts tell apart all but those of its own front, of which mostly there is none. The first and the last
/// are asked before: a load goes after the last, and texts that begin alike have one front.
pub(crate) fn stretch(places: &Places, len: usize, part: u32, key: &Key) -> (usize, usize)
    requires all { len ≡ length places.now.items }
    requires rising { PlacesRise places.now.items }
    ensures { IsStretchFor places.now.items (part, key.now) result.0 result.1 }
{
    if len == 0 {
        return (0, 0);
    }
    fronts_follow_keys();
    let front = key.front();
    let first = places.front(0);
    let last = places.front(len - 1);
    if first.0 != part || last.0 != part {
        return (0, len);
    }
    if last.1 < front {
        return (len, len);
    }
    if first.1 == front && last.1 == front {
        return (0, len);
    }
    let lower = places.count_lower(len, front);
    let alike = places.count_alike(lower, len, front);
    (lower, lower + alike)
}
