// Threads adopt sets over a shared store.
ghost use Rattle.std.specs.Prelude.{◌≡◌, ◌<◌, IfOk, IfSome};
ghost use Rattle.pt_sets.specs.Automata.{SetOfState};
ghost use Rattle.pt_handles.specs.Handles.{Has};

use crate::tests::number_table;
use crate::*;
use pt_store::{Codes, Interner, OneShard, SharedStore, Sharing, StoreFault};
use pt_tables::Table;
use std::alloc::Global;
use std::test::Fail;
use std::thread::{Threads, join};

// Adopts the set of a state, and hands the pass back.
fn adopt_through<R: Threads + Sync, I: Sharing>(
    rt: &R,
    alloc: Global,
    store: &I,
    mut pass: I::Pass,
    table: &Table,
    start: u32,
) -> (I::Pass, Result<Handle, StoreFault>)
    requires owned { I.owns store.now pass }
    requires start { start < table.now.states }
    ensures owned { I.owns store.now result.0 }
    ensures ok { IfOk result.1 (Has I.Pass.home (I.Pass.lists result.0) table.now.tracks (SetOfState table.now start)) }
{
    let handle = adopt(rt, alloc, store, &mut pass, table, start);
    (pass, handle)
}

// Two threads adopt the set of one state, each through a pass of its own. After the join it is one handle, which is known.
fn adopt_twice<R: Threads + Sync, I: Sharing>(
    rt: &R,
    alloc: Global,
    store: &I,
    first: I::Pass,
    second: I::Pass,
    table: &Table,
    start: u32,
) -> Option<(I::Pass, Handle, Handle)>
where
    I::Pass: Send,
    requires first { I.owns store.now first }
    requires second { I.owns store.now second }
    requires start { start < table.now.states }
    ensures owned { IfSome result (λ joined. I.owns store.now joined.0) }
    ensures one { IfSome result (λ joined. joined.1 ≡ joined.2) }
    ensures known { IfSome result (λ joined. Has I.Pass.home (I.Pass.lists joined.0) table.now.tracks (SetOfState table.now start) joined.1) }
{
    let (one, two) = join(
        rt,
        || -> (I::Pass, Result<Handle, StoreFault>)
            requires { I.owns store.now first × (start < table.now.states) }
            ensures owned { I.owns store.entry.now result.0 }
            ensures ok { IfOk result.1 (Has I.Pass.home (I.Pass.lists result.0) table.entry.now.tracks (SetOfState table.entry.now start)) }
        { adopt_through(rt, alloc, store, first, table, start) },
        || -> (I::Pass, Result<Handle, StoreFault>)
            requires { I.owns store.now second × (start < table.now.states) }
            ensures owned { I.owns store.entry.now result.0 }
            ensures ok { IfOk result.1 (Has I.Pass.home (I.Pass.lists result.0) table.entry.now.tracks (SetOfState table.entry.now start)) }
        { adopt_through(rt, alloc, store, second, table, start) },
    );
    let (mut pass, one) = one;
    let (other, two) = two;
    let joined = store.join(alloc, &mut pass, other);
    match (joined, one, two) {
        (Ok(()), Ok(one), Ok(two)) => Some((pass, one, two)),
        _ => None,
    }
}

#[test]
fn two_threads_adopt_one_set(rt: HostRuntime) -> Result<(), Fail> {
    let alloc = rt.alloc();
    let (store, mut first) = SharedStore::new(alloc, 1, 1000, OneShard)?;
    let second = store.split(alloc, &mut first)?;
    let table = number_table(alloc, 1_000_000)?;
    if table.states() < 2 {
        return Err("start")?;
    }
    let adopted = adopt_twice(&rt, alloc, &store, first, second, &table, 1);
    let (pass, one, two) = adopted.ok_or("both adopt")?;
    assert!(rt; same(one, two) && knows(&rt, alloc, &pass, one)?);
    Ok(())
}

// Numbers with their handles, where there was memory for them.
type Adopted = Option<Vec<(u32, Handle)>>;

// Adopts {n} for each n below 100 through a pass, in an order that goes on by so many each time.
fn adopt_by<R: Threads + Sync, I: Sharing>(
    rt: &R,
    alloc: Global,
    store: &I,
    pass: &mut I::Pass,
    tables: &[Table],
    step: u8,
) -> Result<Vec<(u32, Handle)>, StoreFault>
    requires { I.owns store.now pass.old }
    ensures { I.owns store.now pass.new }
{
    let mut adopted = Vec::new(alloc);
    for k in 0..100u32 {
        let n = k * u32::from(step) % 100;
        match tables.get(n as usize) {
            Some(table) if table.states() > 1 => {
                let handle = adopt(rt, alloc, store, pass, table, 1)?;
                if adopted.push((n, handle)).is_err() {
                    return Err(StoreFault::NoMemory);
                }
            }
            _ => {}
        }
    }
    Ok(adopted)
}

// The same on a thread, which hands the pass back.
fn adopt_apart<R: Threads + Sync, I: Sharing>(
    rt: &R,
    alloc: Global,
    store: &I,
    mut pass: I::Pass,
    tables: &[Table],
    step: u8,
) -> (I::Pass, Adopted)
    requires { I.owns store.now pass }
    ensures { I.owns store.now result.0 }
{
    let adopted = adopt_by(rt, alloc, store, &mut pass, tables, step).ok();
    (pass, adopted)
}

// Joins what two threads hand back.
fn unite<I: Sharing>(
    alloc: Global,
    store: &I,
    one: (I::Pass, Adopted),
    two: (I::Pass, Adopted),
) -> (I::Pass, Adopted)
    requires one { I.owns store.now one.0 }
    requires two { I.owns store.now two.0 }
    ensures { I.owns store.now result.0 }
{
    let (mut pass, one) = one;
    let (other, two) = two;
    let joined = store.join(alloc, &mut pass, other);
    let (Ok(()), Some(mut all), Some(more)) = (joined, one, two) else {
        return (pass, None);
    };
    match all.extend_from_slice(&more) {
        Ok(()) => (pass, Some(all)),
        Err(_) => (pass, None),
    }
}

// Two threads adopt all numbers, each in an order of its own, and are joined.
fn adopt_in_two<R: Threads + Sync, I: Sharing>(
    rt: &R,
    alloc: Global,
    store: &I,
    mut first: I::Pass,
    tables: &[Table],
    steps: (u8, u8),
) -> (I::Pass, Adopted)
where
    I::Pass: Send,
    requires { I.owns store.now first }
    ensures { I.owns store.now result.0 }
{
    let Ok(second) = store.split(alloc, &mut first) else {
        return (first, None);
    };
    let (one, two) = join(
        rt,
        || -> (I::Pass, Adopted)
            requires { I.owns store.now first }
            ensures { I.owns store.entry.now result.0 }
        { adopt_apart(rt, alloc, store, first, tables, steps.0) },
        || -> (I::Pass, Adopted)
            requires { I.owns store.now second }
            ensures { I.owns store.entry.now result.0 }
        { adopt_apart(rt, alloc, store, second, tables, steps.1) },
    );
    unite(alloc, store, one, two)
}

// Four threads adopt all numbers, each in an order of its own, and are joined.
fn adopt_in_four<R: Threads + Sync, I: Sharing>(
    rt: &R,
    alloc: Global,
    store: &I,
    mut first: I::Pass,
    tables: &[Table],
) -> (I::Pass, Adopted)
where
    I::Pass: Send,
    requires { I.owns store.now first }
    ensures { I.owns store.now result.0 }
{
    let Ok(second) = store.split(alloc, &mut first) else {
        return (first, None);
    };
    let (one, two) = join(
        rt,
        || -> (I::Pass, Adopted)
            requires { I.owns store.now first }
            ensures { I.owns store.entry.now result.0 }
        { adopt_in_two(rt, alloc, store, first, tables, (1, 99)) },
        || -> (I::Pass, Adopted)
            requires { I.owns store.now second }
            ensures { I.owns store.entry.now result.0 }
        { adopt_in_two(rt, alloc, store, second, tables, (37, 63)) },
    );
    unite(alloc, store, one, two)
}

#[test]
fn four_threads_adopt_a_hundred_numbers(rt: HostRuntime) -> Result<(), Fail> {
    let alloc = rt.alloc();
    let (store, first) = SharedStore::new(alloc, 1, 1000, OneShard)?;
    let mut tables = Vec::new(alloc);
    for n in 0..100u32 {
        tables.push(number_table(alloc, n)?)?;
    }
    let (pass, adopted) = adopt_in_four(&rt, alloc, &store, first, &tables);
    let adopted = adopted.ok_or("all adopt")?;
    assert_eq!(rt; adopted.len(), 400);
    for (n, handle) in adopted.iter() {
        assert!(rt; knows(&rt, alloc, &pass, *handle)?, "{n}");
        for (m, other) in adopted.iter() {
            assert_eq!(rt; same(*handle, *other), n == m, "{n}, {m}");
        }
    }
    Ok(())
}
