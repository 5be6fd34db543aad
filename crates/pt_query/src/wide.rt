// The least number of letters, more than 128, of a member's shortest word.
ghost use Rattle.std.specs.Prelude.{◌≡◌, ◌≢◌, ◌↔◌, ◌+◌, ◌^◌, ◌<◌, ◌≤◌, ◌++◌, [], ◌∷◌, ℕ, List, Bool, None, Some, false, length, slice_set, slice_index, slice_index_or, IsTrue, IfOk, IfSome, IfNone, OnOk};
ghost use Rattle.pt_sets.specs.Automata.{output_of};
ghost use Rattle.pt_query.specs.Fresh.{IsLeastWide, HasNoWide};
ghost use Rattle.pt_query.specs.Spreads.{IsMarked, IsLevel, IsImageTo, MarksSuccessors, IsReachedFrom, IsSpread, HasSpread, IsFinal, IsLeastDepth, HasNoFinal};

use crate::digits::letters;
use crate::walking::no_places;
use pt_tables::Table;
use std::alloc::{AllocError, Global};

/// States in order of their depths, each with its depth; and the place of each state that was met.
#[derive(Drop)]
pub(crate) struct Spread {
    pub(crate) states: Vec<u32>,
    pub(crate) depths: Vec<u32>,
    pub(crate) places: Vec<Option<u32>>,
}

/// Marks the successors of a state.
fn mark_successors(table: &Table, marks: &mut Vec<bool>, state: u32)
    requires state { state < table.now.states }
    requires count { length marks.old.items ≡ table.now.states }
    ensures { MarksSuccessors table.now state (2 ^ table.now.tracks) marks.old.items marks.new.items }
{
    for letter in 0..letters(table.tracks()) {
        marks[table.next(state, letter) as usize] = true;
    }
}

/// So many marks that are false.
fn no_marks(alloc: Global, count: u32) -> Result<Vec<bool>, AllocError>
    ensures count { IfOk result (λ marks. length marks.items ≡ count) }
    ensures none { IfOk result (λ marks. (q : ℕ) → slice_index_or marks.items q false ≡ false) }
{
    let mut marks = Vec::new(alloc);
    marks.resize(count as usize, false)?;
    Ok(marks)
}

/// The successors of marked states.
fn image(alloc: Global, table: &Table, row: &[bool]) -> Result<Vec<bool>, AllocError>
    requires { length row.now ≡ table.now.states }
    ensures { IfOk result (λ next. IsImageTo table.now row.now table.now.states next.items) }
{
    let mut next = no_marks(alloc, table.states())?;
    for state in 0..table.states() {
        if row[state as usize] {
            mark_successors(table, &mut next, state);
        }
    }
    Ok(next)
}

/// The states to which just 127 letters lead.
fn level(alloc: Global, table: &Table, start: u32) -> Result<Vec<bool>, AllocError>
    requires { start < table.now.states }
    ensures { IfOk result (λ row. IsLevel table.now start 127 row.items) }
{
    let mut row = no_marks(alloc, table.states())?;
    row[start as usize] = true;
    for _ in 0..127u32 {
        row = image(alloc, table, row.as_slice())?;
    }
    Ok(row)
}

/// Puts a state last.
fn push_state(spread: &mut Spread, state: u32, depth: u32) -> Result<(), AllocError>
    requires state { state < length spread.old.places.items }
    requires few { length spread.old.states.items ≤ 65536 }
    ensures states { OnOk result (spread.new.states.items ≡ spread.old.states.items ++ state ∷ []) }
    ensures depths { OnOk result (spread.new.depths.items ≡ spread.old.depths.items ++ depth ∷ []) }
    ensures places { OnOk result (spread.new.places.items ≡ slice_set spread.old.places.items state (Some (length spread.old.states.items))) }
{
    let place = spread.states.len() as u32;
    spread.states.push(state)?;
    spread.depths.push(depth)?;
    spread.places[state as usize] = Some(place);
    Ok(())
}

/// The marked states, at depth 0.
fn first_spread(alloc: Global, table: &Table, row: &[bool]) -> Result<Spread, AllocError>
    requires { length row.now ≡ table.now.states }
    ensures { IfOk result (λ spread. HasSpread table.now row.now table.now.states spread 0 0) }
{
    let mut spread = Spread {
        states: Vec::new(alloc),
        depths: Vec::new(alloc),
        places: no_places(alloc, table.states())?,
    };
    for state in 0..table.states() {
        if row[state as usize] {
            push_state(&mut spread, state, 0)?;
        }
    }
    Ok(spread)
}

/// Follows one letter from the state at a place.
fn follow(spread: &mut Spread, table: &Table, place: u32, letter: u16) -> Result<(), AllocError>
    requires place { place < length spread.old.states.items }
    requires letter { letter < 2 ^ table.now.tracks }
    requires spread { (row : List Bool) × HasSpread table.now row table.now.states spread.old place letter }
    ensures spread { OnOk result ((row : List Bool) → HasSpread table.now row table.now.states spread.old place letter → HasSpread table.now row table.now.states spread.new place (letter + 1)) }
    ensures grows { OnOk result (length spread.old.states.items ≤ length spread.new.states.items) }
    ensures kept { OnOk result ((j : ℕ) → j < length spread.old.states.items → slice_index spread.new.states.items j ≡ slice_index spread.old.states.items j) }
{
    table.is_automaton();
    let next = table.next(spread.states[place as usize], letter);
    if spread.places[next as usize].is_some() {
        return Ok(());
    }
    let depth = spread.depths[place as usize] + 1;
    push_state(spread, next, depth)?;
    Ok(())
}

/// Follows all letters from the state at a place.
fn follow_all(spread: &mut Spread, table: &Table, place: u32) -> Result<(), AllocError>
    requires place { place < length spread.old.states.items }
    requires spread { (row : List Bool) × HasSpread table.now row table.now.states spread.old place 0 }
    ensures spread { OnOk result ((row : List Bool) → HasSpread table.now row table.now.states spread.old place 0 → HasSpread table.now row table.now.states spread.new (place + 1) 0) }
    ensures grows { OnOk result (length spread.old.states.items ≤ length spread.new.states.items) }
    ensures kept { OnOk result ((j : ℕ) → j < length spread.old.states.items → slice_index spread.new.states.items j ≡ slice_index spread.old.states.items j) }
{
    for letter in 0..letters(table.tracks()) {
        follow(spread, table, place, letter)?;
    }
    Ok(())
}

/// Whether a state has an output at another sign than this one.
fn has_other_output(table: &Table, state: u32, letter: u16) -> bool
    requires { state < table.now.states }
    ensures { IsTrue result ↔ ((s : ℕ) × (s < 2 ^ table.now.tracks) × (letter ≢ s) × IsTrue (output_of table.now state s)) }
{
    for sign in 0..letters(table.tracks()) {
        if letter != sign && table.output(state, sign) {
            return true;
        }
    }
    false
}

/// Whether two letters that differ lead from a state to the end of a word.
fn is_final(table: &Table, state: u32) -> bool
    requires { state < table.now.states }
    ensures { IsTrue result ↔ IsFinal table.now state }
{
    for letter in 0..letters(table.tracks()) {
        if has_other_output(table, table.next(state, letter), letter) {
            return true;
        }
    }
    false
}

/// The least distance of a final state from the marked ones, breadth first.
fn least_depth(alloc: Global, table: &Table, row: &[bool]) -> Result<Option<u32>, AllocError>
    requires { length row.now ≡ table.now.states }
    ensures some { IfOk result (λ found. IfSome found (IsLeastDepth table.now row.now)) }
    ensures none { IfOk result (λ found. IfNone found (HasNoFinal table.now row.now)) }
    ensures few { IfOk result (λ found. IfSome found (λ d. d ≤ 65536)) }
{
    table.is_automaton();
    let mut spread = first_spread(alloc, table, row)?;
    let mut place = 0u32;
    while (place as usize) < spread.states.len() {
        if is_final(table, spread.states[place as usize]) {
            return Ok(Some(spread.depths[place as usize]));
        }
        follow_all(&mut spread, table, place)?;
        place += 1;
    }
    Ok(None)
}

/// The least number of letters, more than 128, of a fresh word from a state: the states to which just 127 letters lead,
/// and from these the nearest one from which two letters that differ end a word. 127 passes over the edges, and then one
/// search that is linear in the edges but for the letters squared of each state.
pub(crate) fn wide_letters(
    alloc: Global,
    table: &Table,
    start: u32,
) -> Result<Option<u32>, AllocError>
    requires { start < table.now.states }
    ensures some { IfOk result (λ found. IfSome found (IsLeastWide table.now start)) }
    ensures none { IfOk result (λ found. IfNone found (HasNoWide table.now start)) }
{
    table.is_automaton();
    let row = level(alloc, table, start)?;
    match least_depth(alloc, table, row.as_slice())? {
        Some(depth) => Ok(Some(depth + 129)),
        None => Ok(None),
    }
}
