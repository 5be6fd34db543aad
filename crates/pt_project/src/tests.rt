// Projections of tables over two tracks, compared with a search for the number that can be added.
ghost use Rattle.std.specs.Prelude.{◌≡◌, ◌<◌, IfOk};

use crate::bits::{clear_words, set_bit, take_numbers};
use crate::*;
use pt_handles::{TableFault, adopt, expand};
use pt_store::{LocalStore, OneShard};
use pt_tables::{Builder, Table};
use std::alloc::Global;
use std::test::Fail;
use std::thread::Threads;

/// The table with these ends, four a state, whose outputs at these states and signs are true.
fn table_of(alloc: Global, ends: &[u32], outputs: &[(u32, u16)]) -> Result<Table, Fail>
    ensures states { IfOk result (λ t. 0 < t.states) }
    ensures tracks { IfOk result (λ t. t.tracks ≡ 2) }
{
    let mut builder = Builder::new(alloc, 2)?;
    let states = ends.len() / 4;
    if states == 0 || states > 65_536 {
        return Err("states")?;
    }
    for _ in 0..states as u32 {
        builder.state()?;
    }
    for from in 0..states as u32 {
        for letter in 0..4u16 {
            match ends.get(from as usize * 4 + letter as usize) {
                Some(to) if (*to as usize) < states => builder.edge(from, letter, *to),
                _ => return Err("end")?,
            }
        }
    }
    for (state, sign) in outputs {
        if *state as usize >= states || *sign >= 4 {
            return Err("output")?;
        }
        builder.output(*state, *sign, true);
    }
    let table = builder.finish(alloc)?;
    if table.states() == 0 || table.tracks() != 2 {
        return Err("table")?;
    }
    Ok(table)
}

/// The table of the one vector with these letters and the sign 0.
fn vector_table(alloc: Global, letters: &[u16]) -> Result<Table, Fail>
    ensures states { IfOk result (λ t. 0 < t.states) }
    ensures tracks { IfOk result (λ t. t.tracks ≡ 2) }
{
    let last = match u32::try_from(letters.len()) {
        Ok(last) if last < 2000 => last,
        _ => return Err("letters")?,
    };
    let mut ends = Vec::new(alloc);
    for (k, letter) in letters.iter().enumerate() {
        for other in 0..4u16 {
            ends.push(if other == *letter {
                k as u32 + 1
            } else {
                last + 1
            })?;
        }
    }
    ends.extend_from_slice(&[last, last + 1, last + 1, last + 1])?;
    ends.extend_from_slice(&[last + 1, last + 1, last + 1, last + 1])?;
    table_of(alloc, &ends, &[(last, 0)])
}

/// The projection of the set of state 0.
fn projection<R: Threads + Sync>(
    rt: &R,
    alloc: Global,
    table: &Table,
    track: u32,
    bound: u32,
) -> Result<Result<Table, TableFault>, Fail>
    requires states { 0 < table.now.states }
    requires tracks { table.now.tracks ≡ 2 }
{
    if track > 1 || bound == 0 || bound > 65_536 {
        return Err("track or bound")?;
    }
    let (store, mut pass) = LocalStore::new(alloc, 1, 1000, OneShard)?;
    let set = adopt(rt, alloc, &store, &mut pass, table, 0)?;
    family_costs_exclude_each_other(&pass);
    Ok(exists_table(alloc, &pass, set, track, bound))
}

/// Whether some number from -100 to 100 can be added in the track.
fn has_number(table: &Table, track: u32, x: i128) -> bool
    requires states { 0 < table.now.states }
    requires tracks { table.now.tracks ≡ 2 }
{
    for k in 0..201u32 {
        let y = i128::from(k) - 100;
        let z = if track == 0 { [y, x] } else { [x, y] };
        if table.member(0, &z) {
            return true;
        }
    }
    false
}

/// Whether the numbers from -20 to 20 are in the projection exactly where a number can be added.
fn agrees(table: &Table, projected: &Table, track: u32) -> bool
    requires states { 0 < table.now.states }
    requires tracks { table.now.tracks ≡ 2 }
    requires projected { projected.now.tracks ≡ 1 }
    requires some { 0 < projected.now.states }
{
    for k in 0..41u32 {
        let x = i128::from(k) - 20;
        if projected.member(0, &[x]) != has_number(table, track, x) {
            return false;
        }
    }
    true
}

/// Whether both projections agree with the table.
fn both_agree<R: Threads + Sync>(rt: &R, alloc: Global, table: &Table) -> Result<bool, Fail>
    requires states { 0 < table.now.states }
    requires tracks { table.now.tracks ≡ 2 }
{
    let first = projection(rt, alloc, table, 0, 100)??;
    let second = projection(rt, alloc, table, 1, 100)??;
    if first.tracks() != 1 || second.tracks() != 1 {
        return Err("tracks")?;
    }
    Ok(agrees(table, &first, 0) && agrees(table, &second, 1))
}

#[test]
fn projections_have_the_vectors_to_which_a_number_can_be_added(
    rt: HostRuntime,
) -> Result<(), Fail> {
    let alloc = rt.alloc();
    let doubled = table_of(
        alloc,
        &[0, 2, 1, 2, 2, 0, 2, 1, 2, 2, 2, 2],
        &[(0, 0), (1, 3)],
    )?;
    let tripled = table_of(
        alloc,
        &[0, 3, 3, 1, 3, 0, 2, 3, 1, 3, 3, 2, 3, 3, 3, 3],
        &[(0, 0), (2, 3)],
    )?;
    let at_most = table_of(
        alloc,
        &[0, 1, 0, 0, 1, 1, 0, 1],
        &[(0, 0), (0, 1), (0, 3), (1, 1)],
    )?;
    assert!(rt; both_agree(&rt, alloc, &doubled)?);
    assert!(rt; both_agree(&rt, alloc, &tripled)?);
    assert!(rt; both_agree(&rt, alloc, &at_most)?);
    Ok(())
}

/// The states of the projection of {(0, 5)}.
fn cost<R: Threads + Sync>(
    rt: &R,
    alloc: Global,
    bound: u32,
) -> Result<Result<u32, TableFault>, Fail> {
    let table = vector_table(alloc, &[2, 0, 2])?;
    match projection(rt, alloc, &table, 1, bound)? {
        Ok(projected) => Ok(Ok(projected.states())),
        Err(fault) => Ok(Err(fault)),
    }
}

/// Whether state 0 of the projection of {(0, 5)} has 0 alone of the numbers from -20 to 20.
fn has_zero_alone<R: Threads + Sync>(rt: &R, alloc: Global) -> Result<bool, Fail> {
    let table = vector_table(alloc, &[2, 0, 2])?;
    let projected = projection(rt, alloc, &table, 1, 100)??;
    if projected.tracks() != 1 {
        return Err("tracks")?;
    }
    for k in 0..41u32 {
        let x = i128::from(k) - 20;
        if projected.member(0, &[x]) != (x == 0) {
            return Ok(false);
        }
    }
    Ok(true)
}

#[test]
fn the_cost_of_a_projection_is_exact(rt: HostRuntime) -> Result<(), Fail> {
    let alloc = rt.alloc();
    assert!(rt; has_zero_alone(&rt, alloc)?);
    for bound in [100, 5] {
        assert!(rt; cost(&rt, alloc, bound)? == Ok(5));
    }
    for bound in [4, 1] {
        assert!(rt; cost(&rt, alloc, bound)? == Err(TableFault::States { bound }));
    }
    Ok(())
}

/// Whether {(0, y)}, y given by letters, is projected to {0} as a known handle, and that to the one vector without components.
fn projects_to_zero<R: Threads + Sync>(
    rt: &R,
    alloc: Global,
    letters: &[u16],
) -> Result<bool, Fail> {
    let table = vector_table(alloc, letters)?;
    let (store, mut pass) = LocalStore::new(alloc, 1, 4000, OneShard)?;
    let set = adopt(rt, alloc, &store, &mut pass, &table, 0)?;
    let zero = exists(rt, alloc, &store, &mut pass, set, 1, 2000)?;
    let (zeros, first) = expand(alloc, &pass, zero)?;
    let whole = exists(rt, alloc, &store, &mut pass, zero, 0, 100)?;
    let (all, only) = expand(alloc, &pass, whole)?;
    Ok(
        zeros.states() == 2
            && zeros.member(first, &[0])
            && !zeros.member(first, &[1])
            && all.states() == 1
            && all.member(only, &[]),
    )
}

#[test]
fn the_number_that_is_added_may_be_far_longer(rt: HostRuntime) -> Result<(), Fail> {
    let alloc = rt.alloc();
    assert!(rt; projects_to_zero(&rt, alloc, &[2, 0, 2])?);
    // Of 1,102 states the families of one are sorted, the others read off their bits.
    for length in [40, 1100] {
        let mut letters = vec![in alloc; 0u16; length]?;
        letters.push(2)?;
        assert!(rt; projects_to_zero(&rt, alloc, &letters)?);
    }
    Ok(())
}

/// Numbers below 199 by their bits, and by a plain sort.
fn in_order_by_bits_and_by_sorting(
    alloc: Global,
    count: u32,
) -> Result<(Vec<u32>, Vec<u32>), Fail> {
    let mut words = clear_words(alloc, 199)?;
    let mut sorted = Vec::new(alloc);
    for k in 0..count {
        let number = k % 1000 * 7919 % 199;
        set_bit(&mut words, number);
        sorted.push(number)?;
    }
    sorted.sort_unstable();
    sorted.dedup();
    let mut first = Vec::new(alloc);
    take_numbers(&mut words, &mut first)?;
    let mut again = Vec::new(alloc);
    take_numbers(&mut words, &mut again)?;
    if !again.is_empty() {
        return Err("bits are left")?;
    }
    Ok((first, sorted))
}

#[test]
fn bits_are_read_in_the_order_of_a_sort(rt: HostRuntime) -> Result<(), Fail> {
    for count in [0, 1, 2, 30, 150, 400] {
        let (by_bits, by_sorting) = in_order_by_bits_and_by_sorting(rt.alloc(), count)?;
        assert_eq!(rt; by_bits, by_sorting);
    }
    Ok(())
}
