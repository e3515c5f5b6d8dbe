//! The order of records by their keys, which mostly their beginnings tell.

ghost use Rattle.std.specs.Prelude.{◌≡◌, ◌==◌, ◌<◌, ◌≤◌, IfOk, IfErr, OnOk, length, nat_lt};
ghost use Rattle.std.specs.List.{prefix_len};
ghost use Rattle.std.specs.List.Sorted.{IsNonDecreasingBy, IsPermutation};
ghost use Rattle.am_store_runs.specs.Cuts.{IsPieceFault, IsSortFault};
ghost use Rattle.am_store_runs.specs.RecordPlaces.{AreSpots, IsGroupAdded, IsByKey, IsOrder};
ghost use Rattle.am_store_runs.specs.RecordPlaces.{keys_among, records_at, piece, spots_among};

use crate::fault::LoadFault;
use crate::ties::first_tie;
use am_index::RecordSource;
use am_record::{Key, Value, fronts_follow_keys};
use std::alloc::{AllocError, Global};

/// Names a record of a source.
#[derive(Clone, Copy)]
pub struct Spot {
    /// The number of its key's first eight bytes.
    pub front: u64,
    /// Where it stands.
    pub place: usize,
}

impl Spot {
    // Whether its front is below the other's, and so its key below that one's.
    fn is_below(&self, other: &Spot) -> bool
        ensures { result ≡ nat_lt self.now.front other.now.front }
    {
        self.front < other.front
    }
}

/// The order of the records from one place to another, of which there is one or more: their spots, by rising key.
///
/// # Errors
/// Twice, where a key stands twice in them: one such key. NoMemory, where memory was refused; it may come where Twice
/// is due.
pub(crate) fn order_of<S: RecordSource>(
    alloc: Global,
    source: &S,
    from: usize,
    to: usize,
) -> Result<Vec<Spot>, LoadFault>
    requires some { from < to }
    requires within { to ≤ length (S.records source.now) }
    ensures order { IfOk result (λ spots. IsOrder (S.records source.now) spots.items) }
    ensures same { IfOk result (λ spots. IsPermutation (piece (S.records source.now) from to)
        (records_at (S.records source.now) spots.items)) }
    ensures fault { IfErr result (IsPieceFault (piece (S.records source.now) from to)) }
{
    fronts_follow_keys();
    let mut spots = spots_of(alloc, source, from, to)?;
    spots.sort_unstable_by_key(|spot| spot.front);
    if spots.is_sorted_by(|a, b| a.is_below(b)) {
        return Ok(spots);
    }
    settled(alloc, source, &spots)
}

// The spots by rising key, from their order by fronts, where keys with one front may stand in any order.
fn settled<S: RecordSource>(
    alloc: Global,
    source: &S,
    spots: &[Spot],
) -> Result<Vec<Spot>, LoadFault>
    requires some { 0 < length spots.now }
    requires spots { AreSpots (S.records source.now) spots.now }
    requires sorted { IsNonDecreasingBy (λ s. s.front) spots.now }
    ensures order { IfOk result (λ settled. IsOrder (S.records source.now) settled.items) }
    ensures same { IfOk result (λ settled. IsPermutation spots.now settled.items) }
    ensures fault { IfErr result (IsPieceFault (records_at (S.records source.now) spots.now)) }
{
    fronts_follow_keys();
    let mut settled = Vec::with_capacity(alloc, spots.len())?;
    let mut left = spots;
    while let [first, ..] = left {
        let (group, others) = left.split_at(count_alike(left, first.front));
        add_group(alloc, source, group, &mut settled)?;
        left = others;
    }
    Ok(settled)
}

// How many spots at the beginning have the front.
fn count_alike(spots: &[Spot], front: u64) -> usize
    ensures { result ≡ prefix_len (λ s. s.front == front) spots.now }
{
    spots.iter().take_while(|spot| spot.front == front).count()
}

// Adds the spots of a group by rising key. A spot that stands alone is added as it is.
fn add_group<S: RecordSource>(
    alloc: Global,
    source: &S,
    group: &[Spot],
    settled: &mut Vec<Spot>,
) -> Result<(), LoadFault>
    requires some { 0 < length group.now }
    requires spots { AreSpots (S.records source.now) group.now }
    ensures added { OnOk result (IsGroupAdded (S.records source.now) settled.old.items group.now settled.new.items) }
    ensures fault { IfErr result (IsPieceFault (records_at (S.records source.now) group.now)) }
{
    if let [spot] = group {
        settled.push(*spot)?;
        return Ok(());
    }
    let sorted = by_key(alloc, source, group)?;
    settled.extend_from_slice(&sorted)?;
    Ok(())
}

fn spots_of<S: RecordSource>(
    alloc: Global,
    source: &S,
    from: usize,
    to: usize,
) -> Result<Vec<Spot>, AllocError>
    requires order { from ≤ to }
    requires within { to ≤ length (S.records source.now) }
    ensures within { IfOk result (λ spots. AreSpots (S.records source.now) spots.items) }
    ensures all { IfOk result (λ spots. records_at (S.records source.now) spots.items ≡
        piece (S.records source.now) from to) }
{
    let mut spots = Vec::with_capacity(alloc, to - from)?;
    for place in from..to {
        spots.push(Spot {
            front: source.key(place).front(),
            place,
        })?;
    }
    Ok(spots)
}

// The spots by rising key, where keys may begin alike.
fn by_key<S: RecordSource>(
    alloc: Global,
    source: &S,
    spots: &[Spot],
) -> Result<Vec<Spot>, LoadFault>
    requires some { 0 < length spots.now }
    requires spots { AreSpots (S.records source.now) spots.now }
    ensures order { IfOk result (λ sorted. IsOrder (S.records source.now) sorted.items) }
    ensures same { IfOk result (λ sorted. IsPermutation spots.now sorted.items) }
    ensures fault { IfErr result (IsSortFault (records_at (S.records source.now) spots.now)) }
{
    let keyed = keyed_in_order(alloc, source, spots)?;
    let keys = keys_among(alloc, &keyed)?;
    if let Some(key) = first_tie(&keys) {
        return Err(LoadFault::Twice(key));
    }
    Ok(spots_among(alloc, &keyed)?)
}

// The keys of the spots in order, each in front of its spot: to read keys from the source while they are sorted would
// be slow.
fn keyed_in_order<S: RecordSource>(
    alloc: Global,
    source: &S,
    spots: &[Spot],
) -> Result<Vec<(Key, Spot)>, AllocError>
    requires { AreSpots (S.records source.now) spots.now }
    ensures { IfOk result (λ keyed. IsByKey (S.records source.now) spots.now keyed.items) }
{
    let mut keyed = Vec::with_capacity(alloc, spots.len())?;
    for spot in spots {
        keyed.push((source.key(spot.place), *spot))?;
    }
    keyed.sort_unstable_by_key(|pair| pair.0);
    Ok(keyed)
}

fn keys_among(alloc: Global, keyed: &[(Key, Spot)]) -> Result<Vec<Key>, AllocError>
    ensures { IfOk result (λ keys. keys.items ≡ keys_among keyed.now) }
{
    keyed.iter().map(|pair| pair.0).collect(alloc)
}

fn spots_among(alloc: Global, keyed: &[(Key, Spot)]) -> Result<Vec<Spot>, AllocError>
    ensures { IfOk result (λ spots. spots.items ≡ spots_among keyed.now) }
{
    keyed.iter().map(|pair| pair.1).collect(alloc)
}

/// The records that the spots name, in the spots' order.
pub(crate) fn gather<S: RecordSource>(
    alloc: Global,
    source: &S,
    spots: &[Spot],
) -> Result<Vec<(Key, Value)>, AllocError>
    requires { AreSpots (S.records source.now) spots.now }
    ensures { IfOk result (λ gathered. gathered.items ≡ records_at (S.records source.now) spots.now) }
{
    let mut gathered = Vec::with_capacity(alloc, spots.len())?;
    for spot in spots {
        gathered.push(source.get(spot.place))?;
    }
    Ok(gathered)
}
