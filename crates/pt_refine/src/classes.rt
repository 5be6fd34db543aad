//! The rows of the automaton of the classes.

ghost use Rattle.std.specs.Prelude.{◌≡◌, ℕ, ◌+◌, ◌*◌, ◌/◌, ◌%◌, ◌^◌, ◌<◌, ◌≤◌, length, slice_index, slice_index_or, IfOk, false};
ghost use Rattle.pt_sets.specs.Automata.{next_of, output_of};
ghost use Rattle.pt_refine.specs.Refining.{IsNumbering, AreMembers};

use pt_tables::Table;
use std::alloc::{AllocError, Global};

/// A member of each class.
pub(crate) fn members(alloc: Global, numbers: &[u32], count: usize) -> Result<Vec<u32>, AllocError>
    requires numbers { IsNumbering (length numbers.now) numbers.now count }
    requires few { length numbers.now ≤ 65536 }
    ensures { IfOk result (λ m. AreMembers numbers.now m.items count) }
{
    let mut members = vec![in alloc; 0u32; count]?;
    for (q, class) in numbers.iter().enumerate() {
        members[*class as usize] = q as u32;
    }
    Ok(members)
}

/// The rows of outputs of the classes.
pub(crate) fn class_outputs(
    alloc: Global,
    table: &Table,
    members: &[u32],
) -> Result<Vec<bool>, AllocError>
    requires members { (c : ℕ) → c < length members.now → slice_index members.now c < table.now.states }
    requires few { length members.now ≤ table.now.states }
    ensures len { IfOk result (λ rows. length rows.items ≡ length members.now * 2 ^ table.now.tracks) }
    ensures rows { IfOk result (λ rows. (c s : ℕ) → c < length members.now → s < 2 ^ table.now.tracks → slice_index_or rows.items (c * 2 ^ table.now.tracks + s) false ≡ output_of table.now (slice_index members.now c) s) }
{
    let outputs = table.outputs();
    let letters = table.letters();
    let size = members.len() * letters;
    let mut rows = Vec::with_capacity(alloc, size)?;
    for cell in 0..size {
        rows.push(outputs[members[cell / letters] as usize * letters + cell % letters])?;
    }
    Ok(rows)
}

/// The rows of edges of the classes.
pub(crate) fn class_edges(
    alloc: Global,
    table: &Table,
    numbers: &[u32],
    members: &[u32],
) -> Result<Vec<u32>, AllocError>
    requires members { (c : ℕ) → c < length members.now → slice_index members.now c < table.now.states }
    requires few { length members.now ≤ table.now.states }
    requires numbers { length numbers.now ≡ table.now.states }
    ensures len { IfOk result (λ rows. length rows.items ≡ length members.now * 2 ^ table.now.tracks) }
    ensures rows { IfOk result (λ rows. (c l : ℕ) → c < length members.now → l < 2 ^ table.now.tracks → slice_index rows.items (c * 2 ^ table.now.tracks + l) ≡ slice_index numbers.now (next_of table.now (slice_index members.now c) l)) }
{
    let edges = table.edges();
    let letters = table.letters();
    let size = members.len() * letters;
    let mut rows = Vec::with_capacity(alloc, size)?;
    for cell in 0..size {
        let end = edges[members[cell / letters] as usize * letters + cell % letters];
        rows.push(numbers[end as usize])?;
    }
    Ok(rows)
}
