//! The way of a run's entries to the final partition.

ghost use Rattle.std.specs.Prelude.{◌≡◌, ◌⊎◌, ◌<◌, ◌≤◌, ◌++◌, ◌∷◌, List, [], length, take, drop, true, false, OnOk};
ghost use Rattle.std.specs.Prelude.{OnErr, nat_lt, if◌then◌else◌};
ghost use Rattle.am_record.specs.declared.entry.Entry.{Entry};
ghost use Rattle.am_index.specs.Entries.{find, IsRising};
ghost use Rattle.am_index.specs.Rooms.{needs_room, HaveRoom, KeepRoom};
ghost use Rattle.am_index_parts.specs.Catalogs.{IsCatalog};
ghost use Rattle.am_index_parts.specs.GoingHome.{AreHomesOf, goes_behind};
ghost use Rattle.am_index_parts.specs.Partitions.{settled_too, all_settled, FirstNeedsRoom};

use crate::catalog::Catalog;
use am_index::{Batch, Hint, PartIndex};
use am_record::{Entry, NoMemory};

// How many rounds that bring one entry alone there are before no others are looked for beside it: those that go into
// full leaves, or over ghosts, would be looked for twice.
const MOST_LONE: u32 = 3;

/// Lets entries of a run stand in the final partition too, over ghosts there, but for those that are ghosts. How many
/// it came past: all, or fewer where the next one was refused memory for its place, or for its value there.
pub(crate) fn settle_all<I: PartIndex + Drop>(
    index: &mut I,
    catalog: &mut Catalog,
    entries: &[Entry],
) -> usize
    requires counted { IsCatalog (I.entries index.old) catalog.old }
    requires room { HaveRoom (I.entries index.old) (I.roomy index.old) }
    ensures most { result ≤ length entries.now }
    ensures settled { I.entries index.new ≡ all_settled (take result entries.now) (I.entries index.old) }
    ensures greatest { (result ≡ length entries.now) ⊎ FirstNeedsRoom (I.entries index.new) (drop result entries.now) }
    ensures catalog { IsCatalog (I.entries index.new) catalog.new }
    ensures rooms { KeepRoom (I.roomy index.old) (I.roomy index.new) (I.entries index.new) }
{
    let all_homes = first_homes(entries);
    let mut count = 0;
    let mut lone: u32 = 0;
    'settle: while count < entries.len() {
        let homes = homes_from(all_homes.entries(), count, lone);
        let more = settle_first(index, catalog, &entries[count..], homes);
        if more == 0 {
            return count;
        }
        lone = lone.saturating_add(u32::from(more == 1));
        count += more;
    }
    count
}

// The homes from that one on, or none where so many rounds brought one entry alone.
fn homes_from(homes: &[Entry], from: usize, lone: u32) -> &[Entry]
    ensures { result.now ≡ if nat_lt lone 3 then drop from homes.now else [] }
{
    if lone < MOST_LONE {
        &homes[from.min(homes.len())..]
    } else {
        &[]
    }
}

// Lets the first of the entries stand in the final partition too: as many of those with homes as go by one walk, and
// the one at which that ends. How many: none where the first was refused memory.
fn settle_first<I: PartIndex + Drop>(
    index: &mut I,
    catalog: &mut Catalog,
    entries: &[Entry],
    homes: &[Entry],
) -> usize
    requires some { 0 < length entries.now }
    requires homes { AreHomesOf entries.now homes.now }
    requires counted { IsCatalog (I.entries index.old) catalog.old }
    requires room { HaveRoom (I.entries index.old) (I.roomy index.old) }
    ensures most { result ≤ length entries.now }
    ensures settled { I.entries index.new ≡ all_settled (take result entries.now) (I.entries index.old) }
    ensures refused { result ≡ 0 → FirstNeedsRoom (I.entries index.new) entries.now }
    ensures catalog { IsCatalog (I.entries index.new) catalog.new }
    ensures rooms { KeepRoom (I.roomy index.old) (I.roomy index.new) (I.entries index.new) }
{
    let between = settle_between(index, catalog, entries, homes);
    let Some(next) = entries.get(between) else {
        return between;
    };
    match settle(index, catalog, next) {
        Ok(()) => between + 1,
        Err(NoMemory) => between,
    }
}

// Lets the first of the entries stand in the final partition too, as many of those with homes as go between others
// there: by one walk, and without memory. KnowsOf how many.
fn settle_between<I: PartIndex + Drop>(
    index: &mut I,
    catalog: &mut Catalog,
    entries: &[Entry],
    homes: &[Entry],
) -> usize
    requires homes { AreHomesOf entries.now homes.now }
    requires counted { IsCatalog (I.entries index.old) catalog.old }
    requires room { HaveRoom (I.entries index.old) (I.roomy index.old) }
    ensures most { result ≤ length entries.now }
    ensures settled { I.entries index.new ≡ all_settled (take result entries.now) (I.entries index.old) }
    ensures catalog { IsCatalog (I.entries index.new) catalog.new }
    ensures rooms { KeepRoom (I.roomy index.old) (I.roomy index.new) (I.entries index.new) }
{
    if homes.is_empty() || !catalog.has_count_for(homes.len()) {
        return 0;
    }
    let count = index.insert_among(homes);
    catalog.add_homes(count);
    count
}

// The first of the entries as live ones of the final partition: those that rise, up to the first ghost.
fn first_homes(entries: &[Entry]) -> Batch
    ensures { AreHomesOf entries.now result }
{
    let mut homes = Batch::new();
    let mut at = 0;
    'take: while at < entries.len() {
        let entry = &entries[at];
        let home = Entry {
            part: 0,
            is_ghost: false,
            ..*entry
        };
        if entry.is_ghost || homes.is_full() || !goes_behind(homes.entries(), &home) {
            break;
        }
        homes.push(home);
        at += 1;
    }
    homes
}

// Whether an entry goes after others that rise.
fn goes_behind(entries: &[Entry], entry: &Entry) -> bool
    ensures exact { result ≡ goes_behind entries.now entry.now }
    ensures rising { result ≡ true → IsRising entries.now → IsRising (entries.now ++ entry.now ∷ []) }
{
    let len = entries.len();
    if len == 0 {
        return true;
    }
    let last = &entries[len - 1];
    last.cmp_place(entry.part, entry.key).is_lt()
}

// Lets an entry of a run stand in the final partition too, over a ghost there, unless it is a ghost itself.
fn settle<I: PartIndex + Drop>(
    index: &mut I,
    catalog: &mut Catalog,
    entry: &Entry,
) -> Result<(), NoMemory>
    requires counted { IsCatalog (I.entries index.old) catalog.old }
    requires room { HaveRoom (I.entries index.old) (I.roomy index.old) }
    ensures ok { OnOk result (I.entries index.new ≡ settled_too entry.now (I.entries index.old)) }
    ensures err { OnErr result (I.entries index.new ≡ I.entries index.old) }
    ensures live { OnErr result (entry.now.is_ghost ≡ false) }
    ensures needs { OnErr result (needs_room (find (I.entries index.old) 0 entry.now.key) entry.now.value ≡ true) }
    ensures catalog { IsCatalog (I.entries index.new) catalog.new }
    ensures rooms { KeepRoom (I.roomy index.old) (I.roomy index.new) (I.entries index.new) }
{
    if entry.is_ghost {
        return Ok(());
    }
    let home = Entry {
        part: 0,
        is_ghost: false,
        ..*entry
    };
    let (found, hint) = index.look(0, entry.key, Hint::none());
    if found.is_none() {
        index.insert(home, hint)?;
        if catalog.add(0, false).is_err() {
            index.remove(0, entry.key);
            return Err(NoMemory);
        }
        return Ok(());
    }
    index.make_room(0, entry.key, entry.value.len(), hint)?;
    let was_live = index.set(0, entry.key, entry.value, false, hint);
    catalog.mark(0, was_live, false);
    Ok(())
}

/// Takes neighbours out of the index.
pub(crate) fn remove_all<I: PartIndex + Drop>(index: &mut I, entries: &[Entry])
    requires stand { (front : List Entry) × (back : List Entry) ×
        (I.entries index.old ≡ front ++ (entries.now ++ back)) }
    requires rising { IsRising (I.entries index.old) }
    requires room { HaveRoom (I.entries index.old) (I.roomy index.old) }
    ensures gone { (front back : List Entry) → I.entries index.old ≡ front ++ (entries.now ++ back) →
        I.entries index.new ≡ front ++ back }
    ensures rooms { KeepRoom (I.roomy index.old) (I.roomy index.new) (I.entries index.new) }
{
    let mut gone = 0;
    while gone < entries.len() {
        let first = &entries[gone];
        gone += index.remove_from(first.part, first.key, entries.len() - gone);
    }
}

/// Counts neighbours as gone. Takes no memory.
pub(crate) fn forget_all(catalog: &mut Catalog, entries: &[Entry])
    requires { (front : List Entry) × (back : List Entry) × IsRising (front ++ (entries.now ++ back)) ×
        IsCatalog (front ++ (entries.now ++ back)) catalog.old }
    ensures { (front back : List Entry) → IsRising (front ++ (entries.now ++ back)) →
        IsCatalog (front ++ (entries.now ++ back)) catalog.old → IsCatalog (front ++ back) catalog.new }
{
    for entry in entries {
        catalog.take(entry.part, !entry.is_ghost);
    }
}
