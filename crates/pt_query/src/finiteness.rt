// Whether a set is finite.
ghost use Rattle.std.specs.Prelude.{◌≡◌, ◌↔◌, ◌<◌, ◌^◌, ℕ, [], length, slice_index, slice_index_or, IsTrue, IfOk, IfSome, IfNone};
ghost use Rattle.pt_sets.specs.Words.{IsLetter};
ghost use Rattle.pt_sets.specs.Automata.{SetOfState, IsReduced, next_of};
ghost use Rattle.pt_scc.specs.Components.{lists_of};
ghost use Rattle.pt_handles.specs.Handles.{IsKnown, SetOfHandle};
ghost use Rattle.pt_query.specs.Queries.{IsEmptySet, IsBounded};
ghost use Rattle.pt_query.specs.Steps.{IsStill};
ghost use Rattle.pt_query.specs.Tame.{IsSingle, HasLoop, IsTame, IsEmptyState, IsOff};

use crate::digits::letters;
use pt_handles::{Handle, expand};
use pt_scc::components;
use pt_store::Codes;
use pt_tables::{NoMemory, Table};
use std::alloc::Global;

fn is_same(state: u32, other: u32) -> bool
    ensures { IsTrue result ↔ (state ≡ other) }
{
    state == other
}

/// Whether a state has no output at a letter, and leads to itself by it.
fn is_still_at(table: &Table, state: u32, letter: u16) -> bool
    requires reduced { IsReduced table.now }
    requires state { state < table.now.states }
    requires letter { letter < 2 ^ table.now.tracks }
    ensures { IsTrue result ↔ IsStill table.now.tracks (SetOfState table.now state) letter }
{
    table.is_automaton();
    if table.output(state, letter) {
        return false;
    }
    is_same(table.next(state, letter), state)
}

/// Whether a state has the empty set.
fn has_none(table: &Table, state: u32) -> bool
    requires reduced { IsReduced table.now }
    requires state { state < table.now.states }
    ensures { IsTrue result ↔ IsEmptySet table.now.tracks (SetOfState table.now state) }
{
    for letter in 0..letters(table.tracks()) {
        if !is_still_at(table, state, letter) {
            return false;
        }
    }
    true
}

/// The state with the empty set, if there is one.
fn empty_state(table: &Table) -> Option<u32>
    requires { IsReduced table.now }
    ensures { IsEmptyState table.now result }
{
    for state in 0..table.states() {
        if has_none(table, state) {
            return Some(state);
        }
    }
    None
}

/// Whether a state has no output at a letter, and leads to the empty set by it.
fn is_off(table: &Table, empty: Option<u32>, state: u32, letter: u16) -> bool
    requires reduced { IsReduced table.now }
    requires empty { IsEmptyState table.now empty }
    requires state { state < table.now.states }
    requires letter { letter < 2 ^ table.now.tracks }
    ensures { IsTrue result ↔ IsOff table.now state letter }
{
    table.is_automaton();
    if table.output(state, letter) {
        return false;
    }
    match empty {
        Some(none) => is_same(table.next(state, letter), none),
        None => false,
    }
}

/// A letter by which a state leads to itself.
fn loop_letter(table: &Table, state: u32) -> Option<u16>
    requires { state < table.now.states }
    ensures some { IfSome result (λ l. (l < 2 ^ table.now.tracks) × (next_of table.now state l ≡ state)) }
    ensures none { IfNone result (HasLoop table.now state → ⊥) }
{
    for letter in 0..letters(table.tracks()) {
        if is_same(table.next(state, letter), state) {
            return Some(letter);
        }
    }
    None
}

/// Whether a state that leads to itself by a sign has no vector but that of a sign: it is the empty set, or the set of the
/// vector of that sign.
fn is_single(table: &Table, empty: Option<u32>, state: u32, sign: u16) -> bool
    requires reduced { IsReduced table.now }
    requires empty { IsEmptyState table.now empty }
    requires state { state < table.now.states }
    requires sign { sign < 2 ^ table.now.tracks }
    requires loop_ { next_of table.now state sign ≡ state }
    ensures { IsTrue result ↔ IsSingle table.now.tracks (SetOfState table.now state) }
{
    for letter in 0..letters(table.tracks()) {
        if letter != sign && !is_off(table, empty, state, letter) {
            return false;
        }
    }
    true
}

/// Whether a strongly connected part has no cycle, or no vector but that of a sign.
fn is_tame(table: &Table, empty: Option<u32>, part: &[u32]) -> bool
    requires reduced { IsReduced table.now }
    requires empty { IsEmptyState table.now empty }
    requires some { 0 < length part.now }
    requires state { slice_index part.now 0 < table.now.states }
    ensures { IsTrue result ↔ IsTame table.now part.now }
{
    table.is_automaton();
    let state = part[0];
    match loop_letter(table, state) {
        Some(letter) => is_single(table, empty, state, letter),
        None => part.len() == 1,
    }
}

/// Whether all parts are tame.
fn are_tame(table: &Table, empty: Option<u32>, parts: &[Vec<u32>]) -> bool
    requires reduced { IsReduced table.now }
    requires empty { IsEmptyState table.now empty }
    requires some { (i : ℕ) → i < length parts.now → 0 < length (slice_index_or (lists_of parts.now) i []) }
    requires states { (i : ℕ) → i < length parts.now → slice_index (slice_index_or (lists_of parts.now) i []) 0 < table.now.states }
    ensures { IsTrue result ↔ ((i : ℕ) → i < length parts.now → IsTame table.now (slice_index_or (lists_of parts.now) i [])) }
{
    for i in 0..parts.len() {
        if !is_tame(table, empty, parts[i].as_slice()) {
            return false;
        }
    }
    true
}

/// Whether a number bounds every component of every member, that is, whether the set is finite: it is not exactly where a
/// state on a cycle holds a vector and is not the set of the one vector of a sign, whose words repeat it.
///
/// The strongly connected components of the set's automaton show its cycles. Linear in states times letters.
pub fn is_finite<P: Codes>(alloc: Global, pass: &P, a: Handle) -> Result<bool, NoMemory>
    requires { IsKnown P.home (P.lists pass.now) a }
    ensures { IfOk result (λ yes. IsTrue yes ↔ IsBounded a.tracks (SetOfHandle (P.lists pass.now) a)) }
{
    let (table, _start) = expand(alloc, pass, a)?;
    table.is_automaton();
    let parts = components(alloc, &table)?;
    Ok(are_tame(&table, empty_state(&table), parts.as_slice()))
}
