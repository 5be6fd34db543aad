//! Tables by hand, and random ones.

ghost use Rattle.std.specs.Prelude.{◌≡◌, ◌<◌, ◌≤◌, ◌^◌, IfOk};

use super::*;
use pt_tables::Builder;
use std::collections::HashMap;
use std::test::Fail;

/// A table by its rows: the ends and the outputs of state q begin at `q * letters`.
#[derive(Drop)]
struct Rows {
    letters: u16,
    ends: Vec<u32>,
    outputs: Vec<bool>,
}

impl Rows {
    fn cell(&self, state: usize, letter: usize) -> usize {
        state
            .saturating_mul(self.letters as usize)
            .saturating_add(letter)
    }

    fn end(&self, state: usize, letter: usize) -> usize {
        let end = self.ends.get(self.cell(state, letter));
        end.map_or(usize::MAX, |to| *to as usize)
    }

    fn output(&self, state: usize, letter: usize) -> bool {
        self.outputs
            .get(self.cell(state, letter))
            .copied()
            .unwrap_or(false)
    }
}

fn table_of(alloc: Global, tracks: u32, rows: &Rows) -> Result<Table, Fail>
    requires tracks { tracks ≤ 10 }
    requires letters { rows.now.letters ≡ 2 ^ tracks }
{
    let states = rows.ends.len() / rows.letters as usize;
    if states == 0 || states > 65_536 {
        return Err("states")?;
    }
    let mut builder = Builder::new(alloc, tracks)?;
    for _ in 0..states as u32 {
        builder.state()?;
    }
    for from in 0..states as u32 {
        for letter in 0..rows.letters {
            let to = rows.end(from as usize, letter as usize);
            if to >= states {
                return Err("end")?;
            }
            builder.edge(from, letter, to as u32);
            builder.output(from, letter, rows.output(from as usize, letter as usize));
        }
    }
    Ok(builder.finish(alloc)?)
}

fn put(cells: &mut Vec<bool>, at: usize) {
    if let Some(cell) = cells.get_mut(at) {
        *cell = true;
    }
}

fn get(cells: &[bool], at: usize) -> bool {
    cells.get(at).copied().unwrap_or(false)
}

/// Whether two states differ at an output, or lead by a letter to states that are told apart.
fn differ(rows: &Rows, apart: &[bool], states: usize, p: usize, q: usize) -> bool {
    for l in 0..rows.letters as usize {
        let pair = rows
            .end(p, l)
            .saturating_mul(states)
            .saturating_add(rows.end(q, l));
        if rows.output(p, l) != rows.output(q, l) || get(apart, pair) {
            return true;
        }
    }
    false
}

/// Which pairs of states are told apart: marked until nothing changes.
fn told_apart(alloc: Global, rows: &Rows, states: usize) -> Result<Vec<bool>, AllocError> {
    let mut apart = vec![in alloc; false; states.saturating_mul(states)]?;
    for _ in 0..states {
        for p in 0..states {
            for q in 0..states {
                if differ(rows, &apart, states, p, q) {
                    put(&mut apart, p.saturating_mul(states).saturating_add(q));
                }
            }
        }
    }
    Ok(apart)
}

/// The number of each pair of a class and a key, and how many there are.
fn numbered(alloc: Global, classes: &[u32], keys: &[u32]) -> Result<(Vec<u32>, u32), AllocError> {
    let mut known = HashMap::new(alloc);
    let mut numbers = Vec::new(alloc);
    let mut count = 0u32;
    for (class, key) in classes.iter().zip(keys) {
        let pair = (*class, *key);
        let number = known.get(&pair).copied().unwrap_or(count);
        if number == count {
            known.insert(pair, number)?;
            count = count.wrapping_add(1);
        }
        numbers.push(number)?;
    }
    Ok((numbers, count))
}

/// The outputs of all states at a sign.
fn output_keys(
    alloc: Global,
    rows: &Rows,
    states: usize,
    sign: usize,
) -> Result<Vec<u32>, AllocError> {
    let mut keys = Vec::new(alloc);
    for q in 0..states {
        keys.push(u32::from(rows.output(q, sign)))?;
    }
    Ok(keys)
}

/// The classes of the successors of all states by a letter.
fn end_keys(
    alloc: Global,
    rows: &Rows,
    classes: &[u32],
    letter: usize,
) -> Result<Vec<u32>, AllocError> {
    let mut keys = Vec::new(alloc);
    for q in 0..classes.len() {
        keys.push(classes.get(rows.end(q, letter)).copied().unwrap_or(0))?;
    }
    Ok(keys)
}

/// Classes that are split by the classes of successors, and how many there are.
fn round(alloc: Global, rows: &Rows, classes: &[u32]) -> Result<(Vec<u32>, u32), AllocError> {
    let mut finer = (Vec::from_slice(alloc, classes)?, 0);
    for letter in 0..rows.letters as usize {
        let keys = end_keys(alloc, rows, classes, letter)?;
        finer = numbered(alloc, &finer.0, &keys)?;
    }
    Ok(finer)
}

/// The class of each state by rounds (Moore, "Gedanken-experiments on sequential machines", 1956): classes of equal
/// outputs are split by the classes of successors until nothing changes.
fn by_rounds(alloc: Global, rows: &Rows, states: usize) -> Result<Vec<u32>, AllocError> {
    let mut classes = (vec![in alloc; 0u32; states]?, 0);
    for sign in 0..rows.letters as usize {
        let keys = output_keys(alloc, rows, states, sign)?;
        classes = numbered(alloc, &classes.0, &keys)?;
    }
    for _ in 0..states {
        let finer = round(alloc, rows, &classes.0)?;
        if finer.1 == classes.1 {
            break;
        }
        classes = finer;
    }
    Ok(classes.0)
}

/// The number of classes, or `None` where two states have one class and are told apart, or the other way round, also
/// by rounds, or where a class has no state.
fn classes_of<R: Threads + Sync>(
    rt: &R,
    alloc: Global,
    tracks: u32,
    rows: &Rows,
) -> Result<Option<u32>, Fail>
    requires tracks { tracks ≤ 10 }
    requires letters { rows.now.letters ≡ 2 ^ tracks }
{
    let table = table_of(alloc, tracks, rows)?;
    let states = table.states();
    let apart = told_apart(alloc, rows, states as usize)?;
    let rounds = by_rounds(alloc, rows, states as usize)?;
    let made = reduce(rt, alloc, &table)?;
    let mut used = vec![in alloc; false; made.table().states() as usize]?;
    for p in 0..states {
        put(&mut used, made.class(p) as usize);
        for q in 0..states {
            let told = get(&apart, p as usize * states as usize + q as usize);
            let split = rounds.get(p as usize) != rounds.get(q as usize);
            if (made.class(p) == made.class(q)) == told || split != told {
                return Ok(None);
            }
        }
    }
    Ok(if used.contains(&false) {
        None
    } else {
        Some(made.table().states())
    })
}

#[test]
fn small_tables(rt: HostRuntime) -> Result<(), Fail> {
    let alloc = rt.alloc();
    // Two states that go to each other, without outputs.
    let ends = [1, 1, 0, 0].to_vec(alloc)?;
    let outputs = [false; 4].to_vec(alloc)?;
    let rows = Rows {
        letters: 2,
        ends,
        outputs,
    };
    assert_eq!(rt; classes_of(&rt, alloc, 1, &rows)?, Some(1));
    let ends = [0].to_vec(alloc)?;
    let outputs = [true].to_vec(alloc)?;
    let rows = Rows {
        letters: 1,
        ends,
        outputs,
    };
    assert_eq!(rt; classes_of(&rt, alloc, 0, &rows)?, Some(1));
    // Of 1,024 letters one leads on; the first state and the last are alike, the middle one has another output.
    let mut ends = vec![in alloc; 0u32; 3072]?;
    let mut outputs = vec![in alloc; false; 3072]?;
    for (cell, end) in ends.iter_mut().enumerate() {
        *end = if cell % 1024 == 1023 {
            1
        } else {
            (cell / 1024) as u32
        };
    }
    put(&mut outputs, 1029);
    let rows = Rows {
        letters: 1024,
        ends,
        outputs,
    };
    assert_eq!(rt; classes_of(&rt, alloc, 10, &rows)?, Some(2));
    Ok(())
}

/// The power of two `2^(states - 3)`, all of whose states differ: a chain of zeros, then the one, then zeros for ever.
fn chain(alloc: Global, states: u32) -> Result<Rows, AllocError>
    requires { 3 ≤ states }
    ensures { IfOk result (λ rows. rows.letters ≡ 2) }
{
    let (one, all, none) = (states - 3, states - 2, states - 1);
    let mut rows = Rows {
        letters: 2,
        ends: Vec::new(alloc),
        outputs: Vec::new(alloc),
    };
    for q in 0..states {
        let zero = if q < one {
            q + 1
        } else if q == one {
            none
        } else {
            q
        };
        rows.ends.push(zero)?;
        rows.ends.push(if q == one { all } else { none })?;
        rows.outputs.push(q == all)?;
        rows.outputs.push(false)?;
    }
    Ok(rows)
}

/// A ring of equal states, and powers of two: by rounds the long one takes hours.
#[test]
fn ring_and_chains(rt: HostRuntime) -> Result<(), Fail> {
    let alloc = rt.alloc();
    let mut ends = Vec::new(alloc);
    for q in 0..60u32 {
        ends.push((q + 1) % 60)?;
    }
    let ring = Rows {
        letters: 1,
        ends,
        outputs: vec![in alloc; true; 60]?,
    };
    assert_eq!(rt; classes_of(&rt, alloc, 0, &ring)?, Some(1));
    assert_eq!(rt; classes_of(&rt, alloc, 1, &chain(alloc, 60)?)?, Some(60));
    let table = table_of(alloc, 1, &chain(alloc, 65_536)?)?;
    assert_eq!(rt; reduce(&rt, alloc, &table)?.table().states(), 65_536);
    Ok(())
}

/// The least state of the cycle that repeating the letter ends in.
fn rest(rows: &Rows, states: usize, state: usize, letter: usize) -> usize {
    let mut at = state;
    for _ in 0..states {
        at = rows.end(at, letter);
    }
    let mut least = at;
    for _ in 0..states {
        at = rows.end(at, letter);
        least = least.min(at);
    }
    least
}

/// A table with random ends, whose outputs keep the sign rule since they are chosen for each cycle of a letter.
fn random_rows(alloc: Global, seed: &mut u32, letters: u16, states: u32) -> Result<Rows, AllocError>
    requires { 0 < states }
    ensures { IfOk result (λ rows. rows.letters ≡ letters) }
{
    let mut rows = Rows {
        letters,
        ends: Vec::new(alloc),
        outputs: Vec::new(alloc),
    };
    for _ in 0..states as usize * letters as usize {
        *seed = seed.wrapping_mul(1_664_525).wrapping_add(1_013_904_223);
        rows.ends.push((*seed / 65_536) % states)?;
    }
    for q in 0..states as usize {
        for s in 0..letters as usize {
            let bit = rest(&rows, states as usize, q, s).wrapping_add(s.wrapping_mul(3)) % 16;
            rows.outputs.push((*seed / 65_536) >> bit as u32 & 1 == 1)?;
        }
    }
    Ok(rows)
}

/// Whether a random table is reduced to the classes of its sets.
fn is_reduced<R: Threads + Sync>(
    rt: &R,
    alloc: Global,
    seed: &mut u32,
    tracks: u32,
    letters: u16,
    states: u32,
) -> Result<bool, Fail>
    requires tracks { tracks ≤ 10 }
    requires letters { letters ≡ 2 ^ tracks }
    requires states { 0 < states }
{
    let rows = random_rows(alloc, seed, letters, states)?;
    Ok(classes_of(rt, alloc, tracks, &rows)?.is_some())
}

#[test]
fn random_tables(rt: HostRuntime) -> Result<(), Fail> {
    let mut seed = 7u32;
    for turn in 0..50u32 {
        let states = 1 + turn % 9;
        assert!(rt;
            is_reduced(&rt, rt.alloc(), &mut seed, 0, 1, states)?,
            "turn {turn}"
        );
        assert!(rt;
            is_reduced(&rt, rt.alloc(), &mut seed, 1, 2, states)?,
            "turn {turn}"
        );
        assert!(rt;
            is_reduced(&rt, rt.alloc(), &mut seed, 2, 4, states)?,
            "turn {turn}"
        );
        assert!(rt;
            is_reduced(&rt, rt.alloc(), &mut seed, 3, 8, states)?,
            "turn {turn}"
        );
        assert!(rt;
            is_reduced(&rt, rt.alloc(), &mut seed, 4, 16, states)?,
            "turn {turn}"
        );
    }
    Ok(())
}

/// 256 states over 128 letters that all lead back to them, in pairs of equal outputs: those of a pair have their one sign
/// at the number of the pair, so that two keys of 64 signs are needed to tell all pairs apart.
fn pairs(alloc: Global) -> Result<Rows, AllocError>
    ensures { IfOk result (λ rows. rows.letters ≡ 128) }
{
    let mut rows = Rows {
        letters: 128,
        ends: Vec::new(alloc),
        outputs: Vec::new(alloc),
    };
    for cell in 0..32_768u32 {
        rows.ends.push(cell / 128)?;
        rows.outputs.push(cell % 128 == cell / 256)?;
    }
    Ok(rows)
}

/// Outputs are read on the caller and in several threads.
#[test]
fn outputs_in_pairs(rt: HostRuntime) -> Result<(), Fail> {
    let alloc = rt.alloc();
    let table = table_of(alloc, 7, &pairs(alloc)?)?;
    for cells_for_threads in [usize::MAX, 32_769, 32_768, 0] {
        let made = keys::by_outputs(&rt, alloc, &table, cells_for_threads)?;
        assert_eq!(rt; made.count, 128);
        for q in 0..256usize {
            assert_eq!(rt; made.numbers.get(q), Some(&((q / 2) as u32)), "at {q}");
        }
    }
    let made = reduce(&rt, alloc, &table)?;
    assert_eq!(rt; made.table().states(), 128);
    Ok(())
}
