//! The store as a library: a run is loaded and queried at once, what was asked for is merged, and a record is changed.
#![tactic(auto)]

use am_index_btree::BTree;
use am_record::{HashKey, Key, Op, Range, Records, Reply, Step, Value};
use am_store::Store;
use anyhow::{Context, Result, bail};
use std::alloc::Global;

/// Records of a run, by rising key.
const PRICES: [(&str, &str); 3] = [("apple", "6"), ("cherry", "4"), ("plum", "9")];

fn key(text: &str) -> Result<Key> {
    Key::new(text.as_bytes()).context("a key has at most 32 bytes")
}

fn value(text: &str) -> Result<Value> {
    Value::new(text.as_bytes()).context("a value has at most 64 bytes")
}

fn run_of(alloc: Global, records: &[(&str, &str)]) -> Result<Records> {
    let mut run = Vec::new(alloc);
    for (name, price) in records {
        run.push((key(name)?, value(price)?))?;
    }
    Ok(Records::new(run))
}

/// Takes operations as one transaction, and answers the last reply.
fn transact(store: &mut Store<BTree>, ops: Vec<Op>) -> Result<Reply> {
    let Reply::Begun(tx) = store.step(Step::Begin) else {
        bail!("64 transactions are active");
    };
    let mut last = Reply::Done;
    for op in ops {
        last = store.step(Step::Do(tx, op));
    }
    store.step(Step::Commit(tx));
    Ok(last)
}

/// Loads the prices, and answers how many records a scan finds, which asks for them to be merged.
fn load_prices(alloc: Global, store: &mut Store<BTree>) -> Result<usize> {
    let fruit = Range::new(key("a")?, key("z")?).context(
        "a range goes from a key to a higher one",
    )?;
    let load = Op::Load(run_of(alloc, &PRICES)?);
    let reply = transact(store, vec![in alloc; load, Op::Scan(fruit, 10)]?)?;
    let Reply::Rows(rows) = reply else {
        bail!("the records aren't there");
    };
    Ok(rows.as_slice().len())
}

/// Changes a price, and answers what stands there then.
fn change_price(alloc: Global, store: &mut Store<BTree>, name: &str, price: &str) -> Result<Value> {
    let changed = Op::Replace(key(name)?, value(price)?);
    let reply = transact(store, vec![in alloc; changed, Op::Get(key(name)?)]?)?;
    let Reply::Found(found) = reply else {
        bail!("the record isn't there");
    };
    Ok(found)
}

fn first_session(rt: &HostRuntime, store: &mut Store<BTree>) -> Result<()> {
    let count = load_prices(rt.alloc(), store)?;
    println!(rt; "{count} records, loaded as a run")?;
    if let Reply::Moved(entries, run) = store.step(Step::Merge(16)) {
        println!(rt; "{entries} of run {run} merged, since the scan asked for them")?;
    }
    let price = change_price(rt.alloc(), store, "plum", "10")?;
    println!(rt; "plum {}", str::from_utf8(price.bytes())?)?;
    Ok(())
}

fn main(rt: HostRuntime) -> Result<()> {
    let alloc = rt.alloc();
    let mut store = Store::open(alloc, BTree::new(alloc)?, HashKey::known())?;
    first_session(&rt, &mut store)
}
