//! The classes of equal outputs.

ghost use Rattle.std.specs.Prelude.{◌≡◌, ℕ, ◌+◌, ◌^◌, ◌<◌, ◌≤◌, length, slice_index, IfOk};
ghost use Rattle.std.specs.HashMap.{get, hash_map_len};
ghost use Rattle.pt_sets.specs.Automata.{output_of};
ghost use Rattle.pt_refine.specs.Refining.{Separates, Numbers, NumbersPairs, SameOutputs, ToldBy, same_pair, binary};

use pt_tables::Table;
use rayon::prelude::*;
use std::alloc::{AllocError, Global};
use std::collections::HashMap;
use std::thread::Threads;

/// From how many cells on, states times letters, keys are computed in several threads: each call starts threads, which
/// costs more than the keys of a smaller table.
pub(crate) const CELLS_FOR_THREADS: usize = 1 << 24;

/// A class for each state, numbered from 0 on.
#[derive(Drop)]
pub(crate) struct Classes {
    pub(crate) numbers: Vec<u32>,
    pub(crate) count: usize,
}

/// The number of a pair: that which it has, or the next one.
fn number(known: &mut HashMap<(u32, u64), u32>, pair: (u32, u64)) -> Result<u32, AllocError>
    requires { hash_map_len known.old < 65536 }
    ensures { IfOk result (λ n. Numbers (get same_pair known.old) (get same_pair known.new) (hash_map_len known.old) (hash_map_len known.new) pair n) }
{
    if let Some(number) = known.get(&pair) {
        return Ok(*number);
    }
    let number = known.len() as u32;
    known.insert(pair, number)?;
    Ok(number)
}

/// Splits classes by keys: two states keep one class where both agree.
fn split(alloc: Global, classes: &[u32], keys: &[u64]) -> Result<Classes, AllocError>
    requires keys { length keys.now ≡ length classes.now }
    requires few { length classes.now ≤ 65536 }
    ensures { IfOk result (λ c. NumbersPairs classes.now keys.now c.numbers.items c.count) }
{
    let mut known = HashMap::new(alloc);
    let mut numbers = Vec::with_capacity(alloc, classes.len())?;
    for q in 0..classes.len() {
        let n = number(&mut known, (classes[q], keys[q]))?;
        numbers.push(n)?;
    }
    let count = known.len();
    Ok(Classes { numbers, count })
}

/// The outputs of a state at `count` signs from `from` on, as binary digits.
fn output_key(table: &Table, state: usize, from: usize, count: usize) -> u64
    requires state { state < table.now.states }
    requires signs { from + count ≤ 2 ^ table.now.tracks }
    requires count { count ≤ 64 }
    ensures { result ≡ binary (λ i. output_of table.now state (from + i)) count }
{
    let outputs = table.outputs();
    let first = state * table.letters() + from;
    let mut key = 0u64;
    for i in 0..count {
        key = key * 2 + u64::from(outputs[first + i]);
    }
    key
}

/// The keys of all states, on the caller.
fn output_keys(
    alloc: Global,
    table: &Table,
    from: usize,
    count: usize,
) -> Result<Vec<u64>, AllocError>
    requires signs { from + count ≤ 2 ^ table.now.tracks }
    requires count { count ≤ 64 }
    ensures len { IfOk result (λ keys. length keys.items ≡ table.now.states) }
    ensures keys { IfOk result (λ keys. (q : ℕ) → q < table.now.states → slice_index keys.items q ≡ binary (λ i. output_of table.now q (from + i)) count) }
{
    let states = table.states() as usize;
    let mut keys = Vec::with_capacity(alloc, states)?;
    for q in 0..states {
        keys.push(output_key(table, q, from, count))?;
    }
    Ok(keys)
}

/// The keys of all states, in several threads.
fn output_keys_in_parallel<R: Threads + Sync>(
    rt: &R,
    alloc: Global,
    table: &Table,
    from: usize,
    count: usize,
) -> Result<Vec<u64>, AllocError>
    requires signs { from + count ≤ 2 ^ table.now.tracks }
    requires count { count ≤ 64 }
    ensures len { IfOk result (λ keys. length keys.items ≡ table.now.states) }
    ensures keys { IfOk result (λ keys. (q : ℕ) → q < table.now.states → slice_index keys.items q ≡ binary (λ i. output_of table.now q (from + i)) count) }
{
    let states = table.states() as usize;
    (0..states)
        .into_par_iter()
        .map(
            |q: usize| -> u64
                requires { (q < table.now.states) × (from + count ≤ 2 ^ table.now.tracks) × (count ≤ 64) }
                ensures { result ≡ binary (λ i. output_of table.entry.now q (from + i)) count }
            { output_key(table, q, from, count) },
        )
        .collect(rt, alloc)
}

/// The keys of all states, in several threads where the table has so many cells or more.
fn keys_of<R: Threads + Sync>(
    rt: &R,
    alloc: Global,
    table: &Table,
    cells_for_threads: usize,
    from: usize,
    count: usize,
) -> Result<Vec<u64>, AllocError>
    requires signs { from + count ≤ 2 ^ table.now.tracks }
    requires count { count ≤ 64 }
    ensures len { IfOk result (λ keys. length keys.items ≡ table.now.states) }
    ensures keys { IfOk result (λ keys. (q : ℕ) → q < table.now.states → slice_index keys.items q ≡ binary (λ i. output_of table.now q (from + i)) count) }
{
    if table.states() as usize * table.letters() < cells_for_threads {
        output_keys(alloc, table, from, count)
    } else {
        output_keys_in_parallel(rt, alloc, table, from, count)
    }
}

/// The classes of equal outputs, which are read in several threads where the table has so many cells or more.
pub(crate) fn by_outputs<R: Threads + Sync>(
    rt: &R,
    alloc: Global,
    table: &Table,
    cells_for_threads: usize,
) -> Result<Classes, AllocError>
    ensures classes { IfOk result (λ c. Separates table.now.states (SameOutputs table.now (2 ^ table.now.tracks)) (ToldBy table.now) c.numbers.items c.count) }
    ensures few { IfOk result (λ c. c.count ≤ table.now.states) }
{
    let letters = table.letters();
    let numbers = vec![in alloc; 0u32; table.states() as usize]?;
    let mut classes = Classes { numbers, count: 1 };
    let mut from = 0;
    while from < letters {
        let count = (letters - from).min(64);
        let keys = keys_of(rt, alloc, table, cells_for_threads, from, count)?;
        classes = split(alloc, &classes.numbers, &keys)?;
        from += count;
    }
    Ok(classes)
}
