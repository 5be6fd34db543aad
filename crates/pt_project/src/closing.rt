// The sign closure: states from which letters that are all one sign lead to an output.
ghost use Rattle.std.specs.Prelude.{◌≡◌, ◌≢◌, ◌↔◌, ◌<◌, ◌≤◌, ◌+◌, ◌^◌, ℕ, All, [], ◌∷◌, IfOk, OnOk, IsTrue, slice_index_or, false, length, vec_len};
ghost use Rattle.pt_sets.specs.Automata.{next_of, output_of};
ghost use Rattle.pt_project.specs.Closing.{Leads, HasOutput, IsMarked, MarksMore, AreClosings};
ghost use Rattle.pt_base.specs.Elements.{ContainsByRecursion};

use crate::family::{letter_with, power};
use crate::sources::sources;
use pt_tables::Table;
use std::alloc::{AllocError, Global};

/// Marks the states with an output at one of two signs.
fn states_with_output(
    alloc: Global,
    table: &Table,
    zero: u16,
    one: u16,
) -> Result<Vec<bool>, AllocError>
    requires zero { zero < 2 ^ table.now.tracks }
    requires one { one < 2 ^ table.now.tracks }
    ensures length { IfOk result (λ marks. vec_len marks ≡ table.now.states) }
    ensures marks { IfOk result (λ marks. (x : ℕ) → x < table.now.states → IsMarked marks.items x ↔ HasOutput table.now zero one x) }
{
    let mut marks = Vec::new(alloc);
    for state in 0..table.states() {
        marks.push(table.output(state, zero) || table.output(state, one))?;
    }
    Ok(marks)
}

/// The states that are marked.
fn marked_states(alloc: Global, marks: &[bool]) -> Result<Vec<u32>, AllocError>
    requires { length marks.now ≤ 65536 }
    ensures all { IfOk result (λ states. (x : ℕ) → IsMarked marks.now x → ContainsByRecursion x states.items) }
    ensures within { IfOk result (λ states. (x : ℕ) → ContainsByRecursion x states.items → (x < length marks.now) × IsMarked marks.now x) }
{
    let mut states = Vec::new(alloc);
    for (state, marked) in marks.iter().enumerate() {
        if *marked {
            states.push(state as u32)?;
        }
    }
    Ok(states)
}

/// Marks a state; one that was not marked is open.
fn mark(marks: &mut Vec<bool>, open: &mut Vec<u32>, state: u32) -> Result<(), AllocError>
    requires { state < length marks.old.items }
    ensures { OnOk result (MarksMore (state ∷ []) marks.old.items marks.new.items open.old.items open.new.items) }
{
    if marks[state as usize] {
        return Ok(());
    }
    open.push(state)?;
    marks[state as usize] = true;
    Ok(())
}

/// Marks states; those that were not marked are open.
fn mark_all(marks: &mut Vec<bool>, open: &mut Vec<u32>, states: &[u32]) -> Result<(), AllocError>
    requires { (x : ℕ) → ContainsByRecursion x states.now → x < length marks.old.items }
    ensures { OnOk result (MarksMore states.now marks.old.items marks.new.items open.old.items open.new.items) }
{
    for state in states {
        mark(marks, open, *state)?;
    }
    Ok(())
}

/// Marks the states from which steps by two letters lead to an output at one of them, by a search over reverse edges.
/// Linear in the states.
pub(crate) fn closing_states(
    alloc: Global,
    table: &Table,
    zero: u16,
    one: u16,
) -> Result<Vec<bool>, AllocError>
    requires zero { zero < 2 ^ table.now.tracks }
    requires one { one < 2 ^ table.now.tracks }
    ensures length { IfOk result (λ marks. vec_len marks ≡ table.now.states) }
    ensures marks { IfOk result (λ marks. (x : ℕ) → x < table.now.states → IsMarked marks.items x ↔ Leads table.now zero one x) }
{
    table.is_automaton();
    let sources = sources(alloc, table, zero, one)?;
    let mut marks = states_with_output(alloc, table, zero, one)?;
    let mut open = marked_states(alloc, &marks)?;
    while let Some(state) = open.pop() {
        mark_all(&mut marks, &mut open, sources[state as usize].as_slice())?;
    }
    Ok(marks)
}

/// For each sign of the remaining tracks, from which states letters that are that sign without the track lead to an
/// output at one more such letter.
pub(crate) fn closings(
    alloc: Global,
    table: &Table,
    track: u32,
    tracks: u32,
) -> Result<Vec<Vec<bool>>, AllocError>
    requires track { track ≤ tracks }
    requires tracks { table.now.tracks ≡ tracks + 1 }
    requires few { tracks < 10 }
    ensures count { IfOk result (λ closings. vec_len closings ≡ 2 ^ tracks) }
    ensures marks { IfOk result (λ closings. AreClosings table.now tracks track (2 ^ tracks) closings.items) }
{
    let mut closings = Vec::new(alloc);
    for sign in 0..power(tracks) {
        let zero = letter_with(track, 0, sign, tracks);
        let one = letter_with(track, 1, sign, tracks);
        closings.push(closing_states(alloc, table, zero, one)?)?;
    }
    Ok(closings)
}

/// Whether a state of a family is marked.
pub(crate) fn has_marked(marks: &[bool], family: &[u32]) -> bool
    requires within { All (λ x. x < length marks.now) family.now }
    ensures { IsTrue result ↔ ((x : ℕ) × ContainsByRecursion x family.now × IsMarked marks.now x) }
{
    for state in family {
        if marks[*state as usize] {
            return true;
        }
    }
    false
}
