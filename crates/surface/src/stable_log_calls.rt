use crate::receipts::receipt;
use model::{Letter, Mark, NoMemory, Record, Source, Unit};
use stable_log::{FuseStore, SharedLog, Store, StoreFault, WriterStore};
use std::alloc::Global;
use std::test::Fail;

const FROM_UNIT_0_AND_FROM_OUTSIDE: &str =
    r#"{"from":0,"letter":0,"mark":[0,1],"number":0,"tenant":"a","text":"x","unit":1,"vector":[[0,1],[0,1]]}
{"from":"outside","letter":null,"mark":[0,1],"number":0,"tenant":"a","text":"x","unit":0,"vector":[[0,1],[0,0]]}
"#;

/// The first interval of a unit.
fn first() -> Mark {
    Mark {
        incarnation: 0,
        index: 1,
    }
}

fn from_unit_0(alloc: Global) -> Result<Record, NoMemory> {
    let source = Source::Unit(Unit::new(0));
    let letter = Some(Letter::new(0));
    receipt(alloc, "a", 1, source, letter, 0, &[first(), first()])
}

fn from_outside(alloc: Global) -> Result<Record, NoMemory> {
    let begin = Mark {
        incarnation: 0,
        index: 0,
    };
    receipt(alloc, "a", 0, Source::Outside, None, 0, &[first(), begin])
}

/// A store that writes its lines into a list of bytes.
type Lines = WriterStore<Vec<u8>>;

fn write(store: &mut Lines, logged: &Record) -> Result<(), StoreFault> {
    store.append(logged)
}

fn write_both(alloc: Global, store: &mut Lines) -> Result<(), StoreFault> {
    write(store, &from_unit_0(alloc)?)?;
    write(store, &from_outside(alloc)?)
}

/// Whether the store is open, and wrote this.
fn has_written(store: &Lines, text: &str) -> bool {
    store.writer().as_slice() == text.as_bytes() && !store.is_closed()
}

#[test]
fn each_record_is_a_line(rt: HostRuntime) -> Result<(), Fail> {
    let alloc = rt.alloc();
    let mut store = WriterStore::new(alloc, Vec::new(alloc));
    write_both(alloc, &mut store)?;
    assert!(rt; has_written(&store, FROM_UNIT_0_AND_FROM_OUTSIDE));
    Ok(())
}

/// A log over a store that fails what it is told to.
type Fused = SharedLog<FuseStore>;

/// A log whose store fails its second append and its first fetch.
fn fused(alloc: Global) -> Result<Fused, NoMemory> {
    let bad_appends = [1].to_vec(alloc)?;
    let bad_fetches = [0].to_vec(alloc)?;
    Ok(SharedLog::new(alloc, FuseStore::new(alloc, bad_appends, bad_fetches)))
}

fn append(log: &mut Fused, logged: &Record) -> Result<(), StoreFault> {
    log.append(logged)
}

/// The first live record of a record's unit, fetched from the store.
fn fetch_first(log: &mut Fused, of: &Record) -> Result<Record, StoreFault> {
    let places = log.of(&of.tenant, of.unit);
    if places.is_empty() {
        return Err(StoreFault::NoMemory);
    }
    let place = places[0];
    log.fetch(place)
}

/// Whether of three appends the second fails.
fn fails_an_append(log: &mut Fused, logged: &Record) -> bool {
    append(log, logged) == Ok(())
        && append(log, logged) == Err(StoreFault::Device)
        && append(log, logged) == Ok(())
}

/// Whether of two fetches the first fails.
fn fails_a_fetch(log: &mut Fused, logged: &Record) -> Result<bool, StoreFault> {
    let is_failed = matches!(fetch_first(log, logged), Err(StoreFault::Device));
    let fetched = fetch_first(log, logged)?;
    Ok(is_failed && fetched.unit == Unit::new(0))
}

fn fails_both(alloc: Global, log: &mut Fused) -> Result<bool, StoreFault> {
    let logged = from_outside(alloc)?;
    Ok(fails_an_append(log, &logged) && fails_a_fetch(log, &logged)?)
}

#[test]
fn a_fuse_store_fails_what_it_is_told_to(rt: HostRuntime) -> Result<(), Fail> {
    let alloc = rt.alloc();
    let mut log = fused(alloc)?;
    assert!(rt; fails_both(alloc, &mut log)?);
    Ok(())
}
