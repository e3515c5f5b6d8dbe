//! The calls that load records in any order.

ghost use Rattle.std.specs.Prelude.{◌≡◌};
ghost use Rattle.am_c_steps.specs.AskedSteps.{pairs_given};
ghost use Rattle.am_c_steps.specs.LoadAnswers.{without_key, load_key_told};
ghost use Rattle.am_c_steps.specs.Statuses.{status, number};
ghost use Rattle.am_c_store.specs.Loads.{TellsRuns, TellsText};
ghost use Rattle.am_c_steps.specs.Structs.{structs_given};
ghost use Rattle.am_c_steps.specs.declared.bringing.Bringing.TheVariants.{Load};

use am_c_steps::{
    Bringing, GivenLines, GivenRecords, KeyText, Layout, Record, Structs, structs_asked,
};
use am_c_store::{Handle, tell_runs};
use std::alloc::Global;

/// Adds records in any order, as runs of 65,536 that are loaded in turn, until one is refused: how many records stand
/// in front of that one goes out, and the least key that has a record already, or that stands twice.
#[unsafe(no_mangle)]
pub extern "C" fn tiuvrokk_load_sorting(
    alloc: Global,
    store: &mut Handle,
    tx: u64,
    records: &[Record],
    key: &mut KeyText,
    loaded: &mut u64,
    told: &mut u64,
) -> u32
    ensures { TellsRuns store.old.held tx Load (pairs_given records.now) store.new.held
        (λ n answer. (result ≡ status (without_key answer)) × (told.new ≡ number (without_key answer))
        × (key.new ≡ load_key_told answer key.old) × (loaded.new ≡ n)) }
{
    let given = GivenRecords::new(records);
    tell_runs(alloc, store, tx, Bringing::Load, given, key, loaded, told)
}

/// The same of so many structs of the caller's own, one after another. Those that stand there whole and all have a
/// record are read where they lie; else pairs are made of them, up to the first that has none.
#[unsafe(no_mangle)]
pub extern "C" fn tiuvrokk_load_structs(
    alloc: Global,
    store: &mut Handle,
    tx: u64,
    structs: &[u8],
    count: usize,
    layout: &Layout,
    key: &mut KeyText,
    loaded: &mut u64,
    told: &mut u64,
) -> u32
    ensures { TellsRuns store.old.held tx Load (structs_given layout.now structs.now count) store.new.held
        (λ n answer. (result ≡ status (without_key answer)) × (told.new ≡ number (without_key answer))
        × (key.new ≡ load_key_told answer key.old) × (loaded.new ≡ n)) }
{
    match Structs::whole(structs, count, layout) {
        Some(whole) => tell_runs(
            alloc,
            store,
            tx,
            Bringing::Load,
            Ok(whole),
            key,
            loaded,
            told,
        ),
        None => {
            let pairs = structs_asked(alloc, structs, count, layout);
            tell_runs(alloc, store, tx, Bringing::Load, pairs, key, loaded, told)
        }
    }
}

/// The same of the records of a text. Where a line is none, its number goes out, and else 0.
#[unsafe(no_mangle)]
pub extern "C" fn tiuvrokk_load_text(
    alloc: Global,
    store: &mut Handle,
    tx: u64,
    text: &[u8],
    key: &mut KeyText,
    line: &mut u64,
    loaded: &mut u64,
    told: &mut u64,
) -> u32
    ensures { TellsText store.old.held tx Load text.now line.new store.new.held
        (λ n answer. (result ≡ status (without_key answer)) × (told.new ≡ number (without_key answer))
        × (key.new ≡ load_key_told answer key.old) × (loaded.new ≡ n)) }
{
    let given = GivenLines::read(alloc, text, line);
    tell_runs(alloc, store, tx, Bringing::Load, given, key, loaded, told)
}
