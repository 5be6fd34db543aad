// Queries on small sets, compared with a search through small numbers.
ghost use Rattle.std.specs.Prelude.{◌≡◌, ◌<◌, IfOk};

use crate::*;
use pt_handles::{adopt, longer_lists_know};
use pt_store::{LocalStore, OneShard};
use pt_tables::{Builder, Table};
use std::alloc::Global;
use std::test::Fail;
use std::thread::Threads;

/// The table over one track with these ends, two a state, whose outputs at these states and signs are true.
fn table_of(alloc: Global, ends: &[u32], outputs: &[(u32, u16)]) -> Result<Table, Fail>
    ensures states { IfOk result (λ t. 0 < t.states) }
    ensures tracks { IfOk result (λ t. t.tracks ≡ 1) }
{
    let mut builder = Builder::new(alloc, 1)?;
    let states = ends.len() / 2;
    if states == 0 || states > 65_536 {
        return Err("states")?;
    }
    for _ in 0..states as u32 {
        builder.state()?;
    }
    for from in 0..states as u32 {
        for letter in 0..2u16 {
            match ends.get(from as usize * 2 + letter as usize) {
                Some(to) if (*to as usize) < states => builder.edge(from, letter, *to),
                _ => return Err("end")?,
            }
        }
    }
    for (state, sign) in outputs {
        if *state as usize >= states || *sign >= 2 {
            return Err("output")?;
        }
        builder.output(*state, *sign, true);
    }
    let table = builder.finish(alloc)?;
    if table.states() == 0 || table.tracks() != 1 {
        return Err("table")?;
    }
    Ok(table)
}

/// The table of the number `2^digits`: as many zeros, a one, and the sign 0; if it is wanted, with 0 besides.
fn power_table(alloc: Global, digits: u32, with_zero: bool) -> Result<Table, Fail>
    ensures states { IfOk result (λ t. 0 < t.states) }
    ensures tracks { IfOk result (λ t. t.tracks ≡ 1) }
{
    if digits > 1000 {
        return Err("digits")?;
    }
    let mut ends = Vec::new(alloc);
    let mut outputs = Vec::new(alloc);
    for k in 0..digits {
        ends.push(k + 1)?;
        ends.push(digits + 2)?;
        if with_zero {
            outputs.push((k, 0u16))?;
        }
    }
    if with_zero {
        outputs.push((digits, 0u16))?;
    }
    outputs.push((digits + 1, 0u16))?;
    let (zero, none) = (digits + 1, digits + 2);
    for end in [
        if with_zero { zero } else { none },
        zero,
        zero,
        none,
        none,
        none,
    ] {
        ends.push(end)?;
    }
    table_of(alloc, ends.as_slice(), outputs.as_slice())
}

/// What the queries tell of the set of state 0: whether it is empty, whether it is finite, how many residuals it has, and
/// its least member or how many letters its shortest word has.
#[derive(PartialEq, Eq, Debug, Drop)]
struct Told {
    empty: bool,
    finite: bool,
    states: u64,
    least: Result<Option<i128>, u32>,
}

fn ask<R: Threads + Sync>(rt: &R, alloc: Global, table: &Table) -> Result<Told, Fail> {
    table.is_automaton();
    let (store, mut pass) = LocalStore::new(alloc, 1, 1000, OneShard)?;
    let set = adopt(rt, alloc, &store, &mut pass, table, 0)?;
    let least = match least_member(alloc, &pass, set) {
        Ok(None) => Ok(None),
        Ok(Some(z)) => Ok(z.first().copied()),
        Err(WitnessFault::Wide { letters }) => Err(letters),
        Err(WitnessFault::NoMemory) => return Err("memory")?,
    };
    Ok(Told {
        empty: is_empty(&pass, set),
        finite: is_finite(alloc, &pass, set)?,
        states: state_count(alloc, &pass, set)?,
        least,
    })
}

/// Whether the set of state 0 of the first table is included in that of the second.
fn included<R: Threads + Sync>(
    rt: &R,
    alloc: Global,
    first: &Table,
    second: &Table,
    bound: u32,
) -> Result<Result<bool, TableFault>, Fail> {
    if first.tracks() != second.tracks() {
        return Err("tracks")?;
    }
    let (store, mut pass) = LocalStore::new(alloc, 1, 1000, OneShard)?;
    let a = adopt(rt, alloc, &store, &mut pass, first, 0)?;
    let b = adopt(rt, alloc, &store, &mut pass, second, 0)?;
    longer_lists_know();
    if bound == 0 || bound > 65_536 {
        return Err("bound")?;
    }
    Ok(is_subset(alloc, &pass, a, b, bound))
}

/// Whether `contains` tells the members among small numbers as the table does.
fn contains_small<R: Threads + Sync>(rt: &R, alloc: Global, table: &Table) -> Result<bool, Fail> {
    if table.tracks() != 1 {
        return Err("tracks")?;
    }
    let (store, mut pass) = LocalStore::new(alloc, 1, 1000, OneShard)?;
    let set = adopt(rt, alloc, &store, &mut pass, table, 0)?;
    for i in 0..80u8 {
        let x = i128::from(i) - 40;
        if contains(&pass, set, &[x]) != table.member(0, &[x]) {
            return Ok(false);
        }
    }
    Ok(true)
}

/// How many letters the shortest word of a number has.
fn letter_count(x: i128) -> u32 {
    for n in 0..127u32 {
        let rest = x >> n;
        if rest == 0 || rest == -1 {
            return n + 1;
        }
    }
    128
}

/// Whether a number comes before another in shortlex order.
fn comes_before(x: i128, y: i128) -> bool {
    let letters = letter_count(x);
    if letters != letter_count(y) {
        return letters < letter_count(y);
    }
    for k in 0..127u32 {
        let (a, b) = ((x >> k) & 1, (y >> k) & 1);
        if a != b {
            return a < b;
        }
    }
    false
}

/// The first small number in the set of state 0 that comes after another, or of all.
fn next_small(table: &Table, after: Option<i128>) -> Option<i128> {
    if table.tracks() != 1 {
        return None;
    }
    let mut best: Option<i128> = None;
    for i in 0..80u8 {
        let x = i128::from(i) - 40;
        let is_next = match after {
            Some(y) => comes_before(y, x),
            None => true,
        };
        let is_better = match best {
            Some(y) => comes_before(x, y),
            None => true,
        };
        if is_next && is_better && table.member(0, &[x]) {
            best = Some(x);
        }
    }
    best
}

/// Whether the first k members, or all, are those that the search through small numbers finds one after the other.
fn lists_small<R: Threads + Sync>(
    rt: &R,
    alloc: Global,
    table: &Table,
    k: u32,
) -> Result<bool, Fail> {
    table.is_automaton();
    if k > 1000 {
        return Err("members")?;
    }
    let (store, mut pass) = LocalStore::new(alloc, 1, 1000, OneShard)?;
    let set = adopt(rt, alloc, &store, &mut pass, table, 0)?;
    let Ok(members) = list(alloc, &pass, set, k) else {
        return Err("list")?;
    };
    let mut last = None;
    for z in members.iter() {
        let next = z.first().copied();
        if next != next_small(table, last) {
            return Ok(false);
        }
        last = next;
    }
    Ok(members.len() == k as usize || next_small(table, last).is_none())
}

/// Whether the first k members, or all, are these numbers.
fn lists_numbers<R: Threads + Sync>(
    rt: &R,
    alloc: Global,
    table: &Table,
    k: u32,
    numbers: &[i128],
) -> Result<bool, Fail> {
    table.is_automaton();
    if k > 1000 {
        return Err("members")?;
    }
    let (store, mut pass) = LocalStore::new(alloc, 1, 1000, OneShard)?;
    let set = adopt(rt, alloc, &store, &mut pass, table, 0)?;
    let Ok(members) = list(alloc, &pass, set, k) else {
        return Err("list")?;
    };
    let are_equal = members
        .iter()
        .zip(numbers)
        .all(|(z, x)| z.first().copied() == Some(*x));
    Ok(members.len() == numbers.len() && are_equal)
}

/// How many members are listed, or how many letters the first wide one has.
fn listed<R: Threads + Sync>(
    rt: &R,
    alloc: Global,
    table: &Table,
    k: u32,
) -> Result<Result<usize, u32>, Fail> {
    table.is_automaton();
    if k > 1000 {
        return Err("members")?;
    }
    let (store, mut pass) = LocalStore::new(alloc, 1, 1000, OneShard)?;
    let set = adopt(rt, alloc, &store, &mut pass, table, 0)?;
    match list(alloc, &pass, set, k) {
        Ok(members) => Ok(Ok(members.len())),
        Err(WitnessFault::Wide { letters }) => Ok(Err(letters)),
        Err(WitnessFault::NoMemory) => Err("memory")?,
    }
}

#[test]
fn small_sets(rt: HostRuntime) -> Result<(), Fail> {
    let alloc = rt.alloc();
    let zero = table_of(alloc, &[0, 1, 1, 1], &[(0, 0)])?;
    let minus = table_of(alloc, &[1, 0, 1, 1], &[(0, 1)])?;
    let none = table_of(alloc, &[0, 0], &[])?;
    let all = table_of(alloc, &[0, 0], &[(0, 0), (0, 1)])?;
    let evens = table_of(alloc, &[1, 2, 1, 1, 2, 2], &[(0, 0), (1, 0), (1, 1)])?;
    let from_zero = table_of(alloc, &[0, 0], &[(0, 0)])?;
    let below_four = table_of(alloc, &[1, 1, 2, 2, 2, 3, 3, 3], &[(0, 0), (1, 0), (2, 0)])?;
    let one_and_seven = table_of(alloc, &[4, 1, 3, 2, 4, 3, 3, 4, 4, 4], &[(1, 0), (3, 0)])?;
    let wide = power_table(alloc, 132, false)?;
    let widest = power_table(alloc, 126, false)?;
    for (table, empty, finite, states, least) in [
        (&zero, false, true, 2, Ok(Some(0))),
        (&minus, false, true, 2, Ok(Some(-1))),
        (&none, true, true, 1, Ok(None)),
        (&all, false, false, 1, Ok(Some(0))),
        (&evens, false, false, 3, Ok(Some(0))),
        (&from_zero, false, false, 1, Ok(Some(0))),
        (&below_four, false, true, 4, Ok(Some(0))),
        (&one_and_seven, false, true, 5, Ok(Some(1))),
        (&wide, false, true, 135, Err(134)),
        (&widest, false, true, 129, Ok(Some(1i128 << 126))),
    ] {
        assert_eq!(rt;
            ask(&rt, alloc, table)?,
            Told {
                empty,
                finite,
                states,
                least
            }
        );
    }
    for (table, x) in [
        (&zero, 0),
        (&minus, -1),
        (&below_four, 0),
        (&one_and_seven, 1),
        (&from_zero, 0),
    ] {
        assert!(rt; contains_small(&rt, alloc, table)?);
        assert_eq!(rt; next_small(table, None), Some(x));
    }
    for (first, second, bound, yes) in [
        (&zero, &minus, 4, Ok(false)),
        (&zero, &minus, 3, Err(TableFault::States { bound: 3 })),
        (&below_four, &from_zero, 4, Ok(true)),
        (&from_zero, &below_four, 4, Ok(false)),
        (&none, &minus, 2, Ok(true)),
        (&evens, &all, 3, Ok(true)),
    ] {
        assert!(rt; included(&rt, alloc, first, second, bound)? == yes);
    }
    for (table, k) in [
        (&zero, 3),
        (&minus, 3),
        (&none, 3),
        (&all, 12),
        (&evens, 12),
        (&from_zero, 9),
        (&below_four, 2),
        (&below_four, 10),
        (&one_and_seven, 10),
    ] {
        assert!(rt; lists_small(&rt, alloc, table, k)?);
    }
    assert!(rt; lists_numbers(&rt, alloc, &below_four, 2, &[0, 1])?);
    assert!(rt; lists_numbers(&rt, alloc, &below_four, 9, &[0, 1, 2, 3])?);
    let two = power_table(alloc, 132, true)?;
    for (table, k, wanted) in [
        (&wide, 0, Ok(0)),
        (&wide, 1, Err(134)),
        (&widest, 2, Ok(1)),
        (&two, 1, Ok(1)),
        (&two, 2, Err(134)),
        (&below_four, 1000, Ok(4)),
        (&all, 1000, Ok(1000)),
    ] {
        assert!(rt; listed(&rt, alloc, table, k)? == wanted);
    }
    Ok(())
}
