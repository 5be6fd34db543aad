// The first members of a set.
ghost use Rattle.std.specs.Prelude.{◌≡◌, ◌+◌, ◌<◌, ◌≤◌, None, length, reverse, vec_len, IfOk, IfErr, IfSome, IfNone, OnOk};
ghost use Rattle.std.specs.List.{AllByRecursion};
ghost use Rattle.pt_sets.specs.Automata.{SetOfState};
ghost use Rattle.pt_sets.specs.Shortlex.{IsFirstMembers};
ghost use Rattle.pt_handles.specs.Handles.{IsKnown, SetOfHandle};
ghost use Rattle.pt_query.specs.Queries.{vectors_of, IsNarrow, IsListCause};
ghost use Rattle.pt_query.specs.Fresh.{AreRows, words_of, values_of, AreShortWords, IsListed, IsReversed, IsNextWord, HasNoNextWord, FoundAll, AreFirstWords};

use crate::fault::WitnessFault;
use crate::ordered::{first_row, least_after, least_from, next_row};
use crate::wide::wide_letters;
use crate::witness::short_value;
use pt_handles::{Handle, expand};
use pt_store::Codes;
use pt_tables::{NoMemory, Table};
use std::alloc::{AllocError, Global};

/// A word with its letters in order, where the last one stood first.
fn in_order(word: Option<Vec<u16>>) -> Option<Vec<u16>>
    ensures { IsReversed word result }
{
    match word {
        Some(mut word) => {
            word.reverse();
            Some(word)
        }
        None => None,
    }
}

/// The least fresh word of so many letters after those found.
fn next_word(
    alloc: Global,
    table: &Table,
    rows: &[Vec<bool>],
    start: u32,
    count: u32,
    found: &[Vec<u16>],
) -> Result<Option<Vec<u16>>, AllocError>
    requires start { start < table.now.states }
    requires some { 0 < count }
    requires few { count ≤ 128 }
    requires rows { AreRows table.now rows.now }
    requires enough { count ≤ length rows.now + 1 }
    requires listed { IsListed table.now start count (words_of found.now) }
    ensures some { IfOk result (λ next. IfSome next (λ word. IsNextWord table.now start count (words_of found.now) word.items)) }
    ensures none { IfOk result (λ next. IfNone next (HasNoNextWord table.now start count (words_of found.now))) }
{
    if let Some(last) = found.last() {
        if last.len() == count as usize {
            let word = least_after(alloc, table, rows, None, start, last.as_slice())?;
            return Ok(in_order(word));
        }
    }
    let word = least_from(alloc, table, rows, None, start, count, 0)?;
    Ok(in_order(word))
}

/// Finds the fresh words of so many letters, until there are k words.
fn fill(
    alloc: Global,
    table: &Table,
    rows: &[Vec<bool>],
    start: u32,
    count: u32,
    k: usize,
    found: &mut Vec<Vec<u16>>,
) -> Result<(), AllocError>
    requires start { start < table.now.states }
    requires some { 0 < count }
    requires few { count ≤ 128 }
    requires rows { AreRows table.now rows.now }
    requires enough { count ≤ length rows.now + 1 }
    requires room { length found.old.items ≤ k }
    requires listed { IsListed table.now start count (words_of found.old.items) }
    ensures listed { OnOk result (IsListed table.now start count (words_of found.new.items)) }
    ensures room { OnOk result (length found.new.items ≤ k) }
    ensures all { OnOk result (length found.new.items < k → FoundAll table.now start count (words_of found.new.items)) }
{
    while found.len() < k {
        match next_word(alloc, table, rows, start, count, found.as_slice())? {
            Some(word) => found.push(word)?,
            None => return Ok(()),
        }
    }
    Ok(())
}

/// Puts the row of one letter more behind the rows.
fn push_row(alloc: Global, table: &Table, rows: &mut Vec<Vec<bool>>) -> Result<(), AllocError>
    requires few { length rows.old.items < 128 }
    requires rows { AreRows table.now rows.old.items }
    ensures count { OnOk result (length rows.new.items ≡ length rows.old.items + 1) }
    ensures rows { OnOk result (AreRows table.now rows.new.items) }
{
    let count = rows.len();
    let row = if count == 0 {
        first_row(alloc, table)?
    } else {
        next_row(alloc, table, rows[count - 1].as_slice())?
    };
    rows.push(row)?;
    Ok(())
}

/// The first k fresh words, or all of at most 128 letters.
fn first_words(
    alloc: Global,
    table: &Table,
    start: u32,
    k: usize,
) -> Result<Vec<Vec<u16>>, AllocError>
    requires { start < table.now.states }
    ensures { IfOk result (λ found. AreFirstWords table.now start k (words_of found.items)) }
{
    let mut rows = Vec::new(alloc);
    let mut found = Vec::new(alloc);
    for letters in 0..128u32 {
        fill(
            alloc,
            table,
            rows.as_slice(),
            start,
            letters + 1,
            k,
            &mut found,
        )?;
        if found.len() == k {
            return Ok(found);
        }
        push_row(alloc, table, &mut rows)?;
    }
    Ok(found)
}

/// The vectors of words.
fn vectors(alloc: Global, words: &[Vec<u16>], tracks: u32) -> Result<Vec<Vec<i128>>, NoMemory>
    requires tracks { tracks ≤ 10 }
    requires words { AreShortWords tracks (words_of words.now) }
    ensures { IfOk result (λ zs. vectors_of zs.items ≡ values_of tracks (words_of words.now)) }
{
    let mut found = Vec::new(alloc);
    for i in 0..words.len() {
        let z = short_value(alloc, words[i].as_slice(), tracks)?;
        found.push(z)?;
    }
    Ok(found)
}

/// The first members of the set of a state.
fn list_of(alloc: Global, table: &Table, start: u32, k: u32) -> Result<Vec<Vec<i128>>, WitnessFault>
    requires { start < table.now.states }
    ensures first { IfOk result (λ zs. IsFirstMembers table.now.tracks (SetOfState table.now start) k (vectors_of zs.items)) }
    ensures narrow { IfOk result (λ zs. AllByRecursion IsNarrow (vectors_of zs.items)) }
    ensures wide { IfErr result (IsListCause table.now.tracks (SetOfState table.now start) k) }
{
    let tracks = table.tracks();
    let words = first_words(alloc, table, start, k as usize)?;
    if words.len() < k as usize {
        if let Some(letters) = wide_letters(alloc, table, start)? {
            return Err(WitnessFault::Wide { letters });
        }
    }
    let members = vectors(alloc, words.as_slice(), tracks)?;
    Ok(members)
}

/// The first `k` members in shortlex order, or all where there are fewer. `Wide` exactly where the shortest word of one
/// of these has more than 128 letters; it names the number of the first such one.
///
/// Words are found one after the other, each the least after the one before, letter by letter; marks of the states that
/// accept a word of just so many letters keep the search from dead ends. At most 128 rows of marks, each in time of
/// states times letters, and for each member at most 128 times the letters, and as much for each member found before.
pub fn list<P: Codes>(
    alloc: Global,
    pass: &P,
    a: Handle,
    k: u32,
) -> Result<Vec<Vec<i128>>, WitnessFault>
    requires known { IsKnown P.home (P.lists pass.now) a }
    requires few { k ≤ 1000 }
    ensures first { IfOk result (λ zs. IsFirstMembers a.tracks (SetOfHandle (P.lists pass.now) a) k (vectors_of zs.items)) }
    ensures narrow { IfOk result (λ zs. AllByRecursion IsNarrow (vectors_of zs.items)) }
    ensures wide { IfErr result (IsListCause a.tracks (SetOfHandle (P.lists pass.now) a) k) }
{
    let (table, start) = expand(alloc, pass, a)?;
    list_of(alloc, &table, start, k)
}
