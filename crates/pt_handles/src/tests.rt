// Sets of single numbers, made known in different orders.
ghost use Rattle.pt_store.specs.Local.{Owns};
ghost use Rattle.pt_store.specs.Spreading.{first_shard};

use crate::*;
use pt_code::Place;
use pt_store::{LocalPass, LocalStore, OneShard};
use pt_tables::{Builder, Table};
use std::alloc::Global;
use std::test::Fail;
use std::thread::Threads;

/// The table of one track with these ends, two a state, and one output that is true.
fn table_of(alloc: Global, ends: &[u32], state: u32, sign: u16) -> Result<Table, Fail> {
    let mut builder = Builder::new(alloc, 1)?;
    let states = ends.len() / 2;
    if states > 65_536 || state as usize >= states || sign >= 2 {
        return Err("states")?;
    }
    for _ in 0..states as u32 {
        builder.state()?;
    }
    for from in 0..states as u32 {
        for letter in 0..2u16 {
            match ends.get(from as usize * 2 + letter as usize) {
                Some(to) if (*to as usize) < states => builder.edge(from, letter, *to),
                _ => return Err("end")?,
            }
        }
    }
    builder.output(state, sign, true);
    Ok(builder.finish(alloc)?)
}

/// The table of {n}: state 0 is empty, state k + 1 has the digits from k on, and the last state is {0}.
pub(crate) fn number_table(alloc: Global, n: u32) -> Result<Table, Fail> {
    let mut ends = vec![in alloc; 0u32; 2]?;
    for k in 0..32u32 {
        if n >> k == 0 {
            break;
        }
        let digit = (n >> k) % 2;
        ends.push(if digit == 0 { k + 2 } else { 0 })?;
        ends.push(if digit == 0 { 0 } else { k + 2 })?;
    }
    let last = u32::try_from(ends.len() / 2)?;
    ends.push(last)?;
    ends.push(0)?;
    table_of(alloc, &ends, last, 0)
}

/// The handle of {n}.
fn adopt_number<R: Threads + Sync>(
    rt: &R,
    alloc: Global,
    store: &LocalStore<OneShard>,
    pass: &mut LocalPass<OneShard>,
    n: u32,
) -> Result<Handle, Fail>
    requires { Owns first_shard store.now pass.old }
    ensures { Owns first_shard store.now pass.new }
{
    let table = number_table(alloc, n)?;
    if table.states() < 2 {
        return Err("start")?;
    }
    Ok(adopt(rt, alloc, store, pass, &table, 1)?)
}

#[test]
fn zero_stands_above_the_empty_set(rt: HostRuntime) -> Result<(), Fail> {
    let alloc = rt.alloc();
    let (store, mut pass) = LocalStore::new(alloc, 1, 9, OneShard)?;
    let table = table_of(alloc, &[0, 1, 1, 1], 0, 0)?;
    table.is_automaton();
    let zero = adopt(&rt, alloc, &store, &mut pass, &table, 0)?;
    let place = Place { shard: 0, index: 1 };
    assert_eq!(rt;
        zero,
        Handle {
            tracks: 1,
            place,
            entry: 0
        }
    );
    let (reached, start) = expand(alloc, &pass, zero)?;
    assert_eq!(rt; (reached.states(), start), (2, 0));
    if zero.tracks != 1 {
        return Err("tracks")?;
    }
    let none = Handle {
        place: Place { shard: 0, index: 0 },
        ..zero
    };
    assert!(rt; step(&pass, zero, 0) == zero && step(&pass, zero, 1) == none);
    assert!(rt; output(&pass, zero, 0) && !output(&pass, zero, 1));
    assert_eq!(rt; adopt_number(&rt, alloc, &store, &mut pass, 0)?, zero);
    Ok(())
}

#[test]
fn numbers_in_two_orders(rt: HostRuntime) -> Result<(), Fail> {
    let alloc = rt.alloc();
    let (store, mut pass) = LocalStore::new(alloc, 1, 1000, OneShard)?;
    let mut handles = Vec::new(alloc);
    for n in 0..100u32 {
        handles.push(adopt_number(&rt, alloc, &store, &mut pass, n)?)?;
    }
    for k in 0..100u32 {
        let n = 99 - k;
        let handle = adopt_number(&rt, alloc, &store, &mut pass, n)?;
        for (m, other) in handles.iter().enumerate() {
            assert_eq!(rt; same(handle, *other), m == n as usize);
        }
    }
    Ok(())
}

#[test]
fn known_and_made_up_handles(rt: HostRuntime) -> Result<(), Fail> {
    let alloc = rt.alloc();
    let (store, mut pass) = LocalStore::new(alloc, 1, 9, OneShard)?;
    let zero = adopt_number(&rt, alloc, &store, &mut pass, 0)?;
    assert_eq!(rt; knows(&rt, alloc, &pass, zero)?, true);
    let place = Place { shard: 0, index: 5 };
    for handle in [
        Handle { place, ..zero },
        Handle { tracks: 2, ..zero },
        Handle { entry: 1, ..zero },
    ]
    .iter()
    {
        assert_eq!(rt; knows(&rt, alloc, &pass, *handle)?, false);
    }
    Ok(())
}
