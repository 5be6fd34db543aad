// Words in order, one after the other.
ghost use Rattle.std.specs.Prelude.{◌≡◌, ◌≢◌, ◌↔◌, ◌+◌, ◌^◌, ◌<◌, ◌≤◌, ℕ, List, [], ◌∷◌, Some, false, length, reverse, slice_index_or, IsTrue, IfOk, IfSome, IfNone};
ghost use Rattle.pt_sets.specs.Words.{AreLetters};
ghost use Rattle.pt_sets.specs.Automata.{next_of};
ghost use Rattle.pt_query.specs.Fresh.{IsAcceptedFrom, IsLeastFrom, HasNoneFrom, IsLeastAfter, HasNoneAfter, IsRow, AreRows};

use crate::digits::letters;
use crate::witness::first_sign;
use pt_tables::Table;
use std::alloc::{AllocError, Global};

/// Marks of the states with an output.
pub(crate) fn first_row(alloc: Global, table: &Table) -> Result<Vec<bool>, AllocError>
    ensures { IfOk result (λ row. IsRow table.now 1 row.items) }
{
    let mut row = Vec::new(alloc);
    for state in 0..table.states() {
        row.push(first_sign(table, state).is_some())?;
    }
    Ok(row)
}

/// Whether a letter leads to a marked state.
fn leads_into(table: &Table, row: &[bool], state: u32) -> bool
    requires state { state < table.now.states }
    requires row { length row.now ≡ table.now.states }
    ensures { IsTrue result ↔ ((l : ℕ) × (l < 2 ^ table.now.tracks) × IsTrue (slice_index_or row.now (next_of table.now state l) false)) }
{
    for letter in 0..letters(table.tracks()) {
        if row[table.next(state, letter) as usize] {
            return true;
        }
    }
    false
}

/// Marks of the states with an accepted word of one letter more. Linear in states times letters.
pub(crate) fn next_row(alloc: Global, table: &Table, row: &[bool]) -> Result<Vec<bool>, AllocError>
    requires { length row.now ≡ table.now.states }
    ensures { IfOk result (λ next. (n : ℕ) → 0 < n → IsRow table.now n row.now → IsRow table.now (n + 1) next.items) }
{
    let mut next = Vec::new(alloc);
    for state in 0..table.states() {
        next.push(leads_into(table, row, state))?;
    }
    Ok(next)
}

/// The least sign from `low` on at which a state has an output, but for the letter before.
fn last_letter(
    alloc: Global,
    table: &Table,
    before: Option<u16>,
    state: u32,
    low: u16,
) -> Result<Option<Vec<u16>>, AllocError>
    requires state { state < table.now.states }
    ensures some { IfOk result (λ found. IfSome found (λ word. IsLeastFrom table.now before state 1 low (reverse word.items))) }
    ensures none { IfOk result (λ found. IfNone found (HasNoneFrom table.now before state 1 low)) }
{
    for sign in low..letters(table.tracks()) {
        if table.output(state, sign) && is_other(before, sign) {
            return Ok(Some(one_letter(alloc, sign)?));
        }
    }
    Ok(None)
}

/// Whether a sign repeats no letter before it.
fn is_other(before: Option<u16>, sign: u16) -> bool
    ensures { IsTrue result ↔ (before ≢ Some sign) }
{
    match before {
        Some(letter) => letter != sign,
        None => true,
    }
}

fn one_letter(alloc: Global, letter: u16) -> Result<Vec<u16>, AllocError>
    ensures { IfOk result (λ word. word.items ≡ letter ∷ []) }
{
    let mut word = Vec::new(alloc);
    word.push(letter)?;
    Ok(word)
}

/// The least fresh word of so many letters whose first letter is at least `low`, the last letter first.
pub(crate) fn least_from(
    alloc: Global,
    table: &Table,
    rows: &[Vec<bool>],
    before: Option<u16>,
    state: u32,
    count: u32,
    low: u16,
) -> Result<Option<Vec<u16>>, AllocError>
    requires state { state < table.now.states }
    requires some { 0 < count }
    requires rows { AreRows table.now rows.now }
    requires enough { count ≤ length rows.now + 1 }
    ensures some { IfOk result (λ found. IfSome found (λ word. IsLeastFrom table.now before state count low (reverse word.items))) }
    ensures none { IfOk result (λ found. IfNone found (HasNoneFrom table.now before state count low)) }
{
    if count == 1 {
        return last_letter(alloc, table, before, state, low);
    }
    for letter in low..letters(table.tracks()) {
        let next = table.next(state, letter);
        if may_end(table, rows, next, count - 1) {
            if let Some(mut word) = least_from(
                alloc,
                table,
                rows,
                Some(letter),
                next,
                count - 1,
                0,
            )? {
                word.push(letter)?;
                return Ok(Some(word));
            }
        }
    }
    Ok(None)
}

/// Whether a state is marked in the row of so many letters.
fn may_end(table: &Table, rows: &[Vec<bool>], state: u32, count: u32) -> bool
    requires state { state < table.now.states }
    requires some { 0 < count }
    requires rows { AreRows table.now rows.now }
    requires enough { count ≤ length rows.now }
    ensures { (w : List ℕ) → IsAcceptedFrom table.now state w → length w ≡ count → IsTrue result }
{
    rows[count as usize - 1][state as usize]
}

/// The least fresh word after a word of as many letters, the last letter first.
pub(crate) fn least_after(
    alloc: Global,
    table: &Table,
    rows: &[Vec<bool>],
    before: Option<u16>,
    state: u32,
    bound: &[u16],
) -> Result<Option<Vec<u16>>, AllocError>
    requires state { state < table.now.states }
    requires some { 0 < length bound.now }
    requires few { length bound.now ≤ 128 }
    requires letters { AreLetters table.now.tracks bound.now }
    requires rows { AreRows table.now rows.now }
    requires enough { length bound.now ≤ length rows.now + 1 }
    ensures some { IfOk result (λ found. IfSome found (λ word. IsLeastAfter table.now before state bound.now (reverse word.items))) }
    ensures none { IfOk result (λ found. IfNone found (HasNoneAfter table.now before state bound.now)) }
{
    table.is_automaton();
    let letter = bound[0];
    if bound.len() > 1 {
        let next = table.next(state, letter);
        if let Some(mut word) = least_after(alloc, table, rows, Some(letter), next, &bound[1..])? {
            word.push(letter)?;
            return Ok(Some(word));
        }
    }
    least_from(
        alloc,
        table,
        rows,
        before,
        state,
        bound.len() as u32,
        letter + 1,
    )
}
