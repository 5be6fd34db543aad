// Breadth-first search through the states of an automaton.
ghost use Rattle.std.specs.Prelude.{◌≡◌, ℕ, ◌+◌, ◌^◌, ◌<◌, ◌≤◌, ◌++◌, [], ◌∷◌, None, Some, length, slice_set, slice_index_or, IfOk, OnOk};
ghost use Rattle.pt_query.specs.Walks.{HasWalked};

use crate::digits::letters;
use pt_tables::Table;
use std::alloc::{AllocError, Global};

/// The states that were met, in order, each but the first with the place of the state that led to it and the letter;
/// and the place of each state that was met.
#[derive(Drop)]
pub(crate) struct Walk {
    pub(crate) states: Vec<u32>,
    pub(crate) parents: Vec<u32>,
    pub(crate) letters: Vec<u16>,
    pub(crate) places: Vec<Option<u32>>,
}

/// Puts a state last.
fn push_state(walk: &mut Walk, state: u32, parent: u32, letter: u16) -> Result<(), AllocError>
    requires state { state < length walk.old.places.items }
    requires few { length walk.old.states.items ≤ 65536 }
    ensures states { OnOk result (walk.new.states.items ≡ walk.old.states.items ++ state ∷ []) }
    ensures parents { OnOk result (walk.new.parents.items ≡ walk.old.parents.items ++ parent ∷ []) }
    ensures letters { OnOk result (walk.new.letters.items ≡ walk.old.letters.items ++ letter ∷ []) }
    ensures places { OnOk result (walk.new.places.items ≡ slice_set walk.old.places.items state (Some (length walk.old.states.items))) }
{
    let place = walk.states.len() as u32;
    walk.states.push(state)?;
    walk.parents.push(parent)?;
    walk.letters.push(letter)?;
    walk.places[state as usize] = Some(place);
    Ok(())
}

/// So many states that were not met.
pub(crate) fn no_places(alloc: Global, count: u32) -> Result<Vec<Option<u32>>, AllocError>
    ensures count { IfOk result (λ places. length places.items ≡ count) }
    ensures none { IfOk result (λ places. (q : ℕ) → slice_index_or places.items q None ≡ None) }
{
    let mut places = Vec::new(alloc);
    places.resize(count as usize, None)?;
    Ok(places)
}

/// The search before its first letter.
fn first_walk(alloc: Global, table: &Table, start: u32) -> Result<Walk, AllocError>
    requires { start < table.now.states }
    ensures { IfOk result (λ walk. HasWalked table.now start walk 0 0) }
{
    let mut walk = Walk {
        states: Vec::new(alloc),
        parents: Vec::new(alloc),
        letters: Vec::new(alloc),
        places: no_places(alloc, table.states())?,
    };
    push_state(&mut walk, start, 0, 0)?;
    Ok(walk)
}

/// Follows one letter from the state at a place.
fn follow(walk: &mut Walk, table: &Table, place: u32, letter: u16) -> Result<(), AllocError>
    ghost start: { ℕ }
    requires place { place < length walk.old.states.items }
    requires letter { letter < 2 ^ table.now.tracks }
    requires walked { HasWalked table.now start walk.old place letter }
    ensures walked { OnOk result (HasWalked table.now start walk.new place (letter + 1)) }
    ensures grows { OnOk result (length walk.old.states.items ≤ length walk.new.states.items) }
{
    table.is_automaton();
    let next = table.next(walk.states[place as usize], letter);
    if walk.places[next as usize].is_some() {
        return Ok(());
    }
    push_state(walk, next, place, letter)?;
    Ok(())
}

/// Follows all letters from the state at a place.
fn follow_all(walk: &mut Walk, table: &Table, place: u32) -> Result<(), AllocError>
    ghost start: { ℕ }
    requires place { place < length walk.old.states.items }
    requires walked { HasWalked table.now start walk.old place 0 }
    ensures walked { OnOk result (HasWalked table.now start walk.new (place + 1) 0) }
    ensures grows { OnOk result (length walk.old.states.items ≤ length walk.new.states.items) }
{
    for letter in 0..letters(table.tracks()) {
        follow(walk, table, place, letter)?;
    }
    Ok(())
}

/// The states that a state reaches, breadth first and letters in increasing order: so in the shortlex order of the least
/// words that lead to them. Linear in states times letters.
pub(crate) fn walk_from(alloc: Global, table: &Table, start: u32) -> Result<Walk, AllocError>
    requires { start < table.now.states }
    ensures { IfOk result (λ walk. HasWalked table.now start walk (length walk.states.items) 0) }
{
    table.is_automaton();
    let mut walk = first_walk(alloc, table, start)?;
    let mut place = 0u32;
    while (place as usize) < walk.states.len() {
        follow_all(&mut walk, table, place)?;
        place += 1;
    }
    Ok(walk)
}
