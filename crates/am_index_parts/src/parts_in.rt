//! The partitions in which something may stand in a range.

ghost use Rattle.std.specs.Prelude.{◌≡◌, ◌&&◌, ℕ, List, true, nat_le, IfOk};
ghost use Rattle.am_record.specs.declared.entry.Entry.{Entry};
ghost use Rattle.am_index_parts.specs.ApartRuns.{AreInOrder};
ghost use Rattle.am_index_parts.specs.Catalogs.{IsCatalog, PartsRise, parts_of, is_one_of, AllStandIn};
ghost use Rattle.am_index_parts.specs.MergedRanges.{HasNoneBefore};
ghost use Rattle.am_index_parts.specs.RunKeys.{AreKnown};

use crate::catalog::Catalog;
use crate::run_keys::RunKeys;
use am_record::{NoMemory, Range};
use std::alloc::Global;

/// The partitions with entries in which something may stand in the range, rising. No run before the first one has.
///
/// # Errors
/// NoMemory, where memory was refused.
pub(crate) fn parts_in(
    alloc: Global,
    catalog: &Catalog,
    keys: &RunKeys,
    first_run: u32,
    range: Range,
) -> Result<Vec<u32>, NoMemory>
    requires order { AreInOrder keys.now.apart.list.items }
    requires parts { PartsRise (parts_of catalog.now.runs.items) }
    ensures every { IfOk result (λ parts. (es : List Entry) → IsCatalog es catalog.now → AreKnown es keys.now →
        HasNoneBefore es range first_run → AllStandIn es range parts.items) }
    ensures rising { IfOk result (λ parts. PartsRise parts.items) }
{
    let mut parts = Vec::new(alloc);
    keys.add_runs_in(range, &mut parts)?;
    parts.retain(|part| is_open(catalog, first_run, *part));
    if catalog.has_final() {
        parts.push(0)?;
    }
    put_in_order(&mut parts);
    Ok(parts)
}

// Whether it is a run from the first one on that has entries.
fn is_open(catalog: &Catalog, first_run: u32, part: u32) -> bool
    requires { PartsRise (parts_of catalog.now.runs.items) }
    ensures { result ≡ (nat_le first_run part && is_one_of (parts_of catalog.now.runs.items) part) }
{
    first_run <= part && catalog.has_run(part)
}

// Puts numbers of partitions in order, each of them once.
fn put_in_order(parts: &mut Vec<u32>)
    ensures rising { PartsRise parts.new.items }
    ensures kept { (part : ℕ) → is_one_of parts.old.items part ≡ true → is_one_of parts.new.items part ≡ true }
{
    parts.sort_unstable();
    parts.dedup();
}
