// Whether a set is included in another.
ghost use Rattle.std.specs.Prelude.{◌≡◌, ℕ, ◌+◌, ◌<◌, ◌≤◌, ◌^◌, ◌↔◌, Some, slice_get, IsTrue, IfOk, IfErr, OnOk};
ghost use Rattle.std.specs.List.{AllByRecursion};
ghost use Rattle.indexmap.specs.IndexSet.{index_set_len};
ghost use Rattle.pt_sets.specs.Costs.{SamePair, CostWithin};
ghost use Rattle.pt_sets.specs.Numbering.{Adds};
ghost use Rattle.pt_handles.specs.Handles.{IsKnown, SetOfHandle};
ghost use Rattle.pt_handles.specs.Refusing.{StatesOnlyAbove};
ghost use Rattle.pt_query.specs.Queries.{IsSubset};
ghost use Rattle.pt_query.specs.Pairs.{ArePairs, HasNoRoom, AreTooMany, IsIncluded};
ghost use Rattle.pt_query.specs.declared.inclusion.Pair.{Pair as PairValue};

use crate::digits::letters;
use indexmap::IndexSet;
use pt_handles::{Handle, TableFault, expand};
use pt_store::Codes;
use pt_tables::Table;
use std::alloc::Global;
use std::hash::Hash;

/// A state of each of two tables.
#[derive(Clone, Copy, Debug, PartialEq, Eq, Hash)]
pub(crate) struct Pair {
    pub(crate) first: u32,
    pub(crate) second: u32,
}

/// Adds a pair where it is not there, unless there are as many as the bound.
fn add(pairs: &mut IndexSet<Pair>, pair: Pair, bound: u32) -> Result<(), TableFault>
    requires { index_set_len pairs.old ≤ bound }
    ensures adds { OnOk result (Adds pair pairs.old.keys pairs.new.keys) }
    ensures found { OnOk result ((k : ℕ) × (slice_get pairs.new.keys k ≡ Some pair)) }
    ensures room { OnOk result (index_set_len pairs.new ≤ bound) }
    ensures full { IfErr result (HasNoRoom pairs.old.keys pair bound) }
{
    if let Some(_) = pairs.get_index_of(&pair) {
        return Ok(());
    }
    let place = pairs.len();
    if place == bound as usize {
        return Err(TableFault::States { bound });
    }
    pairs.insert(pair)?;
    Ok(())
}

/// The pair at a place.
fn pair_at(pairs: &IndexSet<Pair>, place: u32) -> Pair
    requires { place < index_set_len pairs.now }
    ensures { slice_get pairs.now.keys place ≡ Some result }
{
    match pairs.get_index(place as usize) {
        Some(pair) => *pair,
        None => unreachable!(),
    }
}

/// Adds the pair to which a letter leads from the pair at a place.
fn meet(
    first: &Table,
    second: &Table,
    pairs: &mut IndexSet<Pair>,
    place: u32,
    letter: u16,
    bound: u32,
) -> Result<(), TableFault>
    ghost start: { PairValue }
    requires tracks { second.now.tracks ≡ first.now.tracks }
    requires place { place < index_set_len pairs.old }
    requires letter { letter < 2 ^ first.now.tracks }
    requires room { index_set_len pairs.old ≤ bound }
    requires pairs { ArePairs first.now second.now start pairs.old.keys place letter }
    ensures pairs { OnOk result (ArePairs first.now second.now start pairs.new.keys place (letter + 1)) }
    ensures grows { OnOk result (index_set_len pairs.old ≤ index_set_len pairs.new) }
    ensures room { OnOk result (index_set_len pairs.new ≤ bound) }
    ensures above { IfErr result (AreTooMany first.now second.now start bound) }
{
    first.is_automaton();
    second.is_automaton();
    let pair = pair_at(pairs, place);
    let next = Pair {
        first: first.next(pair.first, letter),
        second: second.next(pair.second, letter),
    };
    if let Err(fault) = add(pairs, next, bound) {
        return Err(fault);
    }
    Ok(())
}

/// Adds the pairs to which the letters lead from the pair at a place.
fn meet_all(
    first: &Table,
    second: &Table,
    pairs: &mut IndexSet<Pair>,
    place: u32,
    bound: u32,
) -> Result<(), TableFault>
    ghost start: { PairValue }
    requires tracks { second.now.tracks ≡ first.now.tracks }
    requires place { place < index_set_len pairs.old }
    requires room { index_set_len pairs.old ≤ bound }
    requires pairs { ArePairs first.now second.now start pairs.old.keys place 0 }
    ensures pairs { OnOk result (ArePairs first.now second.now start pairs.new.keys (place + 1) 0) }
    ensures grows { OnOk result (index_set_len pairs.old ≤ index_set_len pairs.new) }
    ensures room { OnOk result (index_set_len pairs.new ≤ bound) }
    ensures above { IfErr result (AreTooMany first.now second.now start bound) }
{
    for letter in 0..letters(first.tracks()) {
        if let Err(fault) = meet(first, second, pairs, place, letter, bound) {
            return Err(fault);
        }
    }
    Ok(())
}

/// The pairs to which the same letters lead from a pair, breadth first. Linear in pairs times letters.
fn reached_pairs(
    alloc: Global,
    first: &Table,
    second: &Table,
    start: Pair,
    bound: u32,
) -> Result<IndexSet<Pair>, TableFault>
    requires tracks { second.now.tracks ≡ first.now.tracks }
    requires in_first { start.first < first.now.states }
    requires in_second { start.second < second.now.states }
    requires some { 0 < bound }
    requires few { bound ≤ 65536 }
    ensures pairs { IfOk result (λ pairs. ArePairs first.now second.now start pairs.keys (index_set_len pairs) 0) }
    ensures room { IfOk result (λ pairs. index_set_len pairs ≤ bound) }
    ensures above { IfErr result (AreTooMany first.now second.now start bound) }
{
    let mut pairs = IndexSet::new(alloc);
    pairs.insert(start)?;
    let mut place = 0u32;
    while (place as usize) < pairs.len() {
        if let Err(fault) = meet_all(first, second, &mut pairs, place, bound) {
            return Err(fault);
        }
        place += 1;
    }
    Ok(pairs)
}

/// Whether the first state of a pair has an output only where the second has.
fn is_included(first: &Table, second: &Table, pair: Pair) -> bool
    requires tracks { second.now.tracks ≡ first.now.tracks }
    requires in_first { pair.first < first.now.states }
    requires in_second { pair.second < second.now.states }
    ensures { IsTrue result ↔ IsIncluded first.now second.now pair }
{
    for sign in 0..letters(first.tracks()) {
        if first.output(pair.first, sign) && !second.output(pair.second, sign) {
            return false;
        }
    }
    true
}

/// Whether that is so of all pairs.
fn are_included(first: &Table, second: &Table, pairs: &IndexSet<Pair>) -> bool
    requires tracks { second.now.tracks ≡ first.now.tracks }
    requires few { index_set_len pairs.now ≤ 65536 }
    requires within { AllByRecursion (λ p. (p.first < first.now.states) × (p.second < second.now.states)) pairs.now.keys }
    ensures { IsTrue result ↔ ((j : ℕ) (p : PairValue) → slice_get pairs.now.keys j ≡ Some p → IsIncluded first.now second.now p) }
{
    for place in 0..pairs.len() as u32 {
        if !is_included(first, second, pair_at(pairs, place)) {
            return false;
        }
    }
    true
}

/// Whether each member of the first set is one of the second.
///
/// `States` exactly where there are more pairs of residuals of the two sets than the bound. A search over pairs of states of
/// the two expanded tables, which is over once all pairs are met; the set is included exactly where in each pair the first
/// state has an output only where the second has. Linear in pairs times letters, and the time of `expand` for each set.
pub fn is_subset<P: Codes>(
    alloc: Global,
    pass: &P,
    a: Handle,
    b: Handle,
    bound: u32,
) -> Result<bool, TableFault>
    requires known_a { IsKnown P.home (P.lists pass.now) a }
    requires known_b { IsKnown P.home (P.lists pass.now) b }
    requires tracks { b.tracks ≡ a.tracks }
    requires some { 0 < bound }
    requires few { bound ≤ 65536 }
    ensures ok { IfOk result (λ yes. IsTrue yes ↔ IsSubset a.tracks (SetOfHandle (P.lists pass.now) a) (SetOfHandle (P.lists pass.now) b)) }
    ensures within { OnOk result (CostWithin (SamePair a.tracks (SetOfHandle (P.lists pass.now) a) (SetOfHandle (P.lists pass.now) b)) a.tracks bound) }
    ensures above { IfErr result (StatesOnlyAbove (SamePair a.tracks (SetOfHandle (P.lists pass.now) a) (SetOfHandle (P.lists pass.now) b)) a.tracks bound) }
{
    let (first, start) = expand(alloc, pass, a)?;
    let (second, other) = expand(alloc, pass, b)?;
    first.is_automaton();
    second.is_automaton();
    let from = Pair {
        first: start,
        second: other,
    };
    let pairs = match reached_pairs(alloc, &first, &second, from, bound) {
        Ok(pairs) => pairs,
        Err(fault) => return Err(fault),
    };
    Ok(are_included(&first, &second, &pairs))
}
