// The search over pairs of residuals.
ghost use Rattle.std.specs.Prelude.{◌≡◌, ◌+◌, ◌*◌, ◌^◌, ◌<◌, ◌≤◌, [], ◌∷◌, ◌++◌, Some, slice_get, length, IfOk, IfErr, OnOk};
ghost use Rattle.indexmap.specs.IndexSet.{index_set_len};
ghost use Rattle.pt_handles.specs.Refusing.{StatesOnlyAbove};
ghost use Rattle.pt_sets.specs.Numbering.{Adds};
ghost use Rattle.pt_product.specs.Pairs.{task, IsTask, same_pair, IsFull};
ghost use Rattle.pt_product.specs.Searching.{HasProgress};

use crate::factor::Factor;
use crate::pair::{Pair, next_pair, pair_answer};
use indexmap::IndexSet;
use pt_formula::Op;
use pt_handles::TableFault;
use std::alloc::Global;

/// The numbered pairs, with an output and a successor for each cell so far.
#[derive(Drop)]
pub(crate) struct Search {
    pub(crate) pairs: IndexSet<Pair>,
    pub(crate) outputs: Vec<bool>,
    pub(crate) edges: Vec<u32>,
}

/// The number of a pair. A new one is added, unless there are as many as the bound.
fn number_of(pairs: &mut IndexSet<Pair>, pair: Pair, bound: u32) -> Result<u32, TableFault>
    requires { index_set_len pairs.old ≤ bound }
    ensures found { IfOk result (λ number. slice_get pairs.new.keys number ≡ Some pair) }
    ensures adds { OnOk result (Adds pair pairs.old.keys pairs.new.keys) }
    ensures room { OnOk result (index_set_len pairs.new ≤ bound) }
    ensures full { IfErr result (IsFull pairs.old.keys pair bound) }
{
    if let Some(number) = pairs.get_index_of(&pair) {
        return Ok(number as u32);
    }
    let number = pairs.len() as u32;
    if number == bound {
        return Err(TableFault::States { bound });
    }
    pairs.insert(pair)?;
    Ok(number)
}

/// Puts an answer and a number behind the cells.
fn push_cell(search: &mut Search, answer: bool, number: u32) -> Result<(), TableFault>
    ensures outputs { OnOk result (search.new.outputs.items ≡ search.old.outputs.items ++ answer ∷ []) }
    ensures edges { OnOk result (search.new.edges.items ≡ search.old.edges.items ++ number ∷ []) }
    ensures pairs { search.new.pairs ≡ search.old.pairs }
    ensures err { IfErr result (λ fault. fault ≡ TableFault.NoMemory) }
{
    search.outputs.push(answer)?;
    search.edges.push(number)?;
    Ok(())
}

/// The pair of a number.
fn pair_at(pairs: &IndexSet<Pair>, number: u32) -> Pair
    requires { number < index_set_len pairs.now }
    ensures { slice_get pairs.now.keys number ≡ Some result }
{
    match pairs.get_index(number as usize) {
        Some(pair) => *pair,
        None => unreachable!(),
    }
}

/// One cell: the answer of a pair at a letter, and the number of the pair behind it.
fn visit_letter(
    op: Op,
    a: &Factor,
    b: &Factor,
    bound: u32,
    search: &mut Search,
    state: u32,
    letter: u16,
) -> Result<(), TableFault>
    requires task { IsTask (task op a.now b.now) }
    requires state { state < index_set_len search.old.pairs }
    requires letter { letter < 2 ^ a.now.tracks }
    requires progress { HasProgress (task op a.now b.now) bound search.old (state * 2 ^ a.now.tracks + letter) }
    ensures progress { OnOk result (HasProgress (task op a.now b.now) bound search.new (state * 2 ^ a.now.tracks + (letter + 1))) }
    ensures grows { OnOk result (index_set_len search.old.pairs ≤ index_set_len search.new.pairs) }
    ensures above { IfErr result (StatesOnlyAbove (same_pair (task op a.now b.now)) a.now.tracks bound) }
{
    let pair = pair_at(&search.pairs, state);
    let next = next_pair(pair, a, b, letter);
    let answer = pair_answer(op, pair, a, b, letter);
    let number = number_of(&mut search.pairs, next, bound)?;
    push_cell(search, answer, number)
}

/// The cells of one pair.
fn visit_state(
    op: Op,
    a: &Factor,
    b: &Factor,
    bound: u32,
    search: &mut Search,
    state: u32,
) -> Result<(), TableFault>
    requires task { IsTask (task op a.now b.now) }
    requires state { state < index_set_len search.old.pairs }
    requires progress { HasProgress (task op a.now b.now) bound search.old (state * 2 ^ a.now.tracks) }
    ensures progress { OnOk result (HasProgress (task op a.now b.now) bound search.new ((state + 1) * 2 ^ a.now.tracks)) }
    ensures grows { OnOk result (index_set_len search.old.pairs ≤ index_set_len search.new.pairs) }
    ensures above { IfErr result (StatesOnlyAbove (same_pair (task op a.now b.now)) a.now.tracks bound) }
{
    for letter in 0..a.letters() {
        visit_letter(op, a, b, bound, search, state, letter)?;
    }
    Ok(())
}

/// The search before its first cell.
fn first_search(alloc: Global, a: u32, b: u32) -> Result<Search, TableFault>
    ensures pairs { IfOk result (λ search. search.pairs.keys ≡ (record { a = a; b = b }) ∷ []) }
    ensures outputs { IfOk result (λ search. search.outputs.items ≡ []) }
    ensures edges { IfOk result (λ search. search.edges.items ≡ []) }
    ensures err { IfErr result (λ fault. fault ≡ TableFault.NoMemory) }
{
    let mut pairs = IndexSet::new(alloc);
    pairs.insert(Pair { a, b })?;
    Ok(Search {
        pairs,
        outputs: Vec::new(alloc),
        edges: Vec::new(alloc),
    })
}

/// All pairs that are reached, with their cells.
pub(crate) fn search_pairs(
    alloc: Global,
    op: Op,
    a: &Factor,
    b: &Factor,
    bound: u32,
) -> Result<Search, TableFault>
    requires task { IsTask (task op a.now b.now) }
    requires some { 0 < bound }
    requires few { bound ≤ 65536 }
    ensures done { IfOk result (λ search. HasProgress (task op a.now b.now) bound search (index_set_len search.pairs * 2 ^ a.now.tracks)) }
    ensures above { IfErr result (StatesOnlyAbove (same_pair (task op a.now b.now)) a.now.tracks bound) }
{
    let mut search = first_search(alloc, a.start(), b.start())?;
    let mut state: u32 = 0;
    while (state as usize) < search.pairs.len() {
        visit_state(op, a, b, bound, &mut search, state)?;
        state += 1;
    }
    Ok(search)
}
