// Operations on {0} and {-1}, whose pairs of residuals are four: the two, one of them and none, and none twice.
ghost use Rattle.std.specs.Prelude.{◌≡◌, ◌<◌, IfOk};

use crate::*;
use pt_handles::{TableFault, adopt, expand, longer_lists_know, same};
use pt_store::{LocalStore, OneShard};
use pt_tables::{Builder, Table};
use std::alloc::Global;
use std::test::Fail;
use std::thread::Threads;

/// The table over one track whose state 0 has the vector of the sign alone, and state 1 none.
fn sign_table(alloc: Global, sign: u16) -> Result<Table, Fail>
    ensures states { IfOk result (λ t. 1 < t.states) }
    ensures tracks { IfOk result (λ t. t.tracks ≡ 1) }
{
    let mut builder = Builder::new(alloc, 1)?;
    let only = builder.state()?;
    let none = builder.state()?;
    let (by_zero, by_one) = if sign == 0 {
        (only, none)
    } else {
        (none, only)
    };
    builder.edge(only, 0, by_zero);
    builder.edge(only, 1, by_one);
    builder.edge(none, 0, none);
    builder.edge(none, 1, none);
    builder.output(only, if sign == 0 { 0 } else { 1 }, true);
    let table = builder.finish(alloc)?;
    if table.states() < 2 || table.tracks() != 1 {
        return Err("table")?;
    }
    Ok(table)
}

/// Whether 0, -1 and 1 are in the combined set.
fn combined_signs<R: Threads + Sync>(
    rt: &R,
    alloc: Global,
    op: Op,
    bound: u32,
) -> Result<Result<[bool; 3], TableFault>, Fail> {
    let (store, mut pass) = LocalStore::new(alloc, 1, 100, OneShard)?;
    let zero = adopt(rt, alloc, &store, &mut pass, &sign_table(alloc, 0)?, 0)?;
    let minus = adopt(rt, alloc, &store, &mut pass, &sign_table(alloc, 1)?, 0)?;
    longer_lists_know();
    if bound == 0 || bound > 65_536 {
        return Err("bound")?;
    }
    pair_costs_exclude_each_other(&pass);
    match combine_table(alloc, &pass, op, zero, &[0], minus, &[0], 1, bound) {
        Ok(table) => {
            Ok(Ok([
                table.member(0, &[0]),
                table.member(0, &[-1]),
                table.member(0, &[1]),
            ]))
        }
        Err(fault) => Ok(Err(fault)),
    }
}

/// Whether {0} and {-1} in common are the handle of no vector.
fn common_is_none<R: Threads + Sync>(rt: &R, alloc: Global) -> Result<bool, Fail> {
    let (store, mut pass) = LocalStore::new(alloc, 1, 100, OneShard)?;
    let zero = adopt(rt, alloc, &store, &mut pass, &sign_table(alloc, 0)?, 0)?;
    let minus = adopt(rt, alloc, &store, &mut pass, &sign_table(alloc, 1)?, 0)?;
    longer_lists_know();
    let common = combine(
        rt,
        alloc,
        &store,
        &mut pass,
        Op::And,
        zero,
        &[0],
        minus,
        &[0],
        1,
        4,
    )?;
    let none = adopt(rt, alloc, &store, &mut pass, &sign_table(alloc, 0)?, 1)?;
    Ok(same(common, none))
}

/// Whether the first of three components is 0, and the last -1, by an operation over tracks with a gap.
fn combined_apart<R: Threads + Sync>(
    rt: &R,
    alloc: Global,
    op: Op,
    z: [i128; 3],
) -> Result<bool, Fail> {
    let (store, mut pass) = LocalStore::new(alloc, 1, 100, OneShard)?;
    let zero = adopt(rt, alloc, &store, &mut pass, &sign_table(alloc, 0)?, 0)?;
    let minus = adopt(rt, alloc, &store, &mut pass, &sign_table(alloc, 1)?, 0)?;
    longer_lists_know();
    let table = combine_table(alloc, &pass, op, zero, &[0], minus, &[2], 3, 4)?;
    Ok(table.member(0, z.as_slice()))
}

/// Whether the vector without components is in the set of it and in no set, by an operation.
fn combined_without_tracks<R: Threads + Sync>(rt: &R, alloc: Global, op: Op) -> Result<bool, Fail> {
    let (store, mut pass) = LocalStore::new(alloc, 1, 100, OneShard)?;
    let mut builder = Builder::new(alloc, 0)?;
    let whole = builder.state()?;
    let none = builder.state()?;
    builder.edge(whole, 0, whole);
    builder.edge(none, 0, none);
    builder.output(whole, 0, true);
    let table = builder.finish(alloc)?;
    if table.states() < 2 || table.tracks() != 0 {
        return Err("table")?;
    }
    let one = adopt(rt, alloc, &store, &mut pass, &table, 0)?;
    let other = adopt(rt, alloc, &store, &mut pass, &table, 1)?;
    longer_lists_know();
    let combined = combine_table(alloc, &pass, op, one, &[], other, &[], 0, 1)?;
    Ok(combined.member(0, &[]))
}

#[test]
fn operations_over_other_tracks(rt: HostRuntime) -> Result<(), Fail> {
    let alloc = rt.alloc();
    for (z, of_and, of_or) in [
        ([0, 7, -1], true, true),
        ([0, -1, 0], false, true),
        ([1, 0, -1], false, true),
        ([-1, 0, 0], false, false),
    ] {
        assert_eq!(rt; combined_apart(&rt, alloc, Op::And, z)?, of_and);
        assert_eq!(rt; combined_apart(&rt, alloc, Op::Or, z)?, of_or);
    }
    assert!(rt; !combined_without_tracks(&rt, alloc, Op::And)?);
    assert!(rt; combined_without_tracks(&rt, alloc, Op::Xor)?);
    Ok(())
}

#[test]
fn operations_have_their_members_and_their_cost(rt: HostRuntime) -> Result<(), Fail> {
    let alloc = rt.alloc();
    for (op, members) in [
        (Op::And, [false, false, false]),
        (Op::Or, [true, true, false]),
        (Op::Iff, [false, false, true]),
        (Op::Xor, [true, true, false]),
    ] {
        assert!(rt; combined_signs(&rt, alloc, op, 4)? == Ok(members));
        assert!(rt; combined_signs(&rt, alloc, op, 5)? == Ok(members));
        assert!(rt; combined_signs(&rt, alloc, op, 3)? == Err(TableFault::States { bound: 3 }));
    }
    assert!(rt; common_is_none(&rt, alloc)?);
    Ok(())
}

/// Whether a number is outside {0}, or at state 1 outside the empty set.
fn is_outside<R: Threads + Sync>(rt: &R, alloc: Global, state: u32, x: i128) -> Result<bool, Fail>
    requires { state < 2 }
{
    let (store, mut pass) = LocalStore::new(alloc, 1, 100, OneShard)?;
    let set = adopt(rt, alloc, &store, &mut pass, &sign_table(alloc, 0)?, state)?;
    let others = complement(rt, alloc, &store, &mut pass, set)?;
    let (table, start) = expand(alloc, &pass, others)?;
    Ok(table.member(start, &[x]))
}

/// Whether a pair is in {0} over the second of two tracks.
fn is_second_zero<R: Threads + Sync>(rt: &R, alloc: Global, z: [i128; 2]) -> Result<bool, Fail> {
    let (store, mut pass) = LocalStore::new(alloc, 1, 100, OneShard)?;
    let zero = adopt(rt, alloc, &store, &mut pass, &sign_table(alloc, 0)?, 0)?;
    let pairs = widen(rt, alloc, &store, &mut pass, zero, &[1], 2)?;
    let (table, start) = expand(alloc, &pass, pairs)?;
    Ok(table.member(start, z.as_slice()))
}

#[test]
fn complements_and_more_tracks(rt: HostRuntime) -> Result<(), Fail> {
    let alloc = rt.alloc();
    for (x, is_other) in [(0, false), (-1, true), (7, true)] {
        assert_eq!(rt; is_outside(&rt, alloc, 0, x)?, is_other);
        assert!(rt; is_outside(&rt, alloc, 1, x)?);
    }
    for (z, is_in) in [
        ([5, 0], true),
        ([-3, 0], true),
        ([0, 5], false),
        ([0, -1], false),
    ] {
        assert_eq!(rt; is_second_zero(&rt, alloc, z)?, is_in);
    }
    Ok(())
}
