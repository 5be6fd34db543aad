// The states that a state of a table reaches.
ghost use Rattle.std.specs.Prelude.{◌≡◌, ℕ, ◌<◌, length, slice_index, IfOk, OnOk};
ghost use Rattle.pt_handles.specs.Adopting.{AreReached};
ghost use Rattle.pt_handles.specs.Searching.{IsQueue, Meets};

use crate::pieces::successors;
use pt_tables::Table;
use std::alloc::{AllocError, Global};

/// Marks a state and puts it last, unless it is marked.
fn meet(marks: &mut Vec<bool>, queue: &mut Vec<u32>, state: u32) -> Result<(), AllocError>
    requires state { state < length marks.old.items }
    requires queue { IsQueue (length marks.old.items) marks.old.items queue.old.items }
    ensures queue { OnOk result (IsQueue (length marks.old.items) marks.new.items queue.new.items) }
    ensures meets { OnOk result (Meets (λ j. state) 1 marks.old.items marks.new.items queue.old.items queue.new.items) }
{
    if marks[state as usize] {
        return Ok(());
    }
    queue.push(state)?;
    marks[state as usize] = true;
    Ok(())
}

/// Marks states and puts those last that were not marked.
fn meet_all(marks: &mut Vec<bool>, queue: &mut Vec<u32>, states: &[u32]) -> Result<(), AllocError>
    requires states { (j : ℕ) → j < length states.now → slice_index states.now j < length marks.old.items }
    requires queue { IsQueue (length marks.old.items) marks.old.items queue.old.items }
    ensures queue { OnOk result (IsQueue (length marks.old.items) marks.new.items queue.new.items) }
    ensures meets { OnOk result (Meets (slice_index states.now) (length states.now) marks.old.items marks.new.items queue.old.items queue.new.items) }
{
    for state in states {
        meet(marks, queue, *state)?;
    }
    Ok(())
}

/// Marks the states that a state reaches, by a breadth-first search. Linear in states times letters.
pub(crate) fn reached_states(
    alloc: Global,
    table: &Table,
    start: u32,
) -> Result<Vec<bool>, AllocError>
    requires { start < table.now.states }
    ensures { IfOk result (λ marks. AreReached table.now start marks.items) }
{
    let mut marks = vec![in alloc; false; table.states() as usize]?;
    let mut queue = Vec::new(alloc);
    meet(&mut marks, &mut queue, start)?;
    let mut next = 0;
    while next < queue.len() {
        let row = successors(table, queue[next]);
        meet_all(&mut marks, &mut queue, row)?;
        next += 1;
    }
    Ok(marks)
}
