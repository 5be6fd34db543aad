// The least member of a set.
ghost use Rattle.std.specs.Prelude.{◌≡◌, ◌<◌, ◌≤◌, ◌^◌, ◌++◌, ℕ, [], ◌∷◌, length, slice_index, IsTrue, IfOk, IfErr, IfSome, IfNone};
ghost use Rattle.pt_sets.specs.Words.{IsWord, value};
ghost use Rattle.pt_sets.specs.Automata.{output_of, SetOfState};
ghost use Rattle.pt_sets.specs.Shortlex.{IsLeastMember};
ghost use Rattle.pt_handles.specs.Handles.{IsKnown, SetOfHandle};
ghost use Rattle.pt_query.specs.Queries.{IsEmptySet, IsNarrow, IsWideCause};
ghost use Rattle.pt_query.specs.Walks.{HasWalked, access, IsFirstOutput};
ghost use Rattle.pt_query.specs.Narrow.{IsWideWord};

use crate::digits::letters;
use crate::fault::WitnessFault;
use crate::walking::{Walk, walk_from};
use pt_digits::{DigitFault, decode};
use pt_handles::{Handle, expand};
use pt_store::Codes;
use pt_tables::{NoMemory, Table};
use std::alloc::{AllocError, Global};

/// The least sign at which a state has an output.
pub(crate) fn first_sign(table: &Table, state: u32) -> Option<u16>
    requires { state < table.now.states }
    ensures sign { IfSome result (λ s. s < 2 ^ table.now.tracks) }
    ensures shown { IfSome result (λ s. IsTrue (output_of table.now state s)) }
    ensures least { IfSome result (λ s. (r : ℕ) → r < s → ¬ IsTrue (output_of table.now state r)) }
    ensures none { IfNone result ((r : ℕ) → r < 2 ^ table.now.tracks → ¬ IsTrue (output_of table.now state r)) }
{
    for sign in 0..letters(table.tracks()) {
        if table.output(state, sign) {
            return Some(sign);
        }
    }
    None
}

/// The first place whose state has an output, and the least sign of one.
fn first_output(table: &Table, walk: &Walk) -> Option<(u32, u16)>
    requires few { length walk.now.states.items ≤ 65536 }
    requires within { (j : ℕ) → j < length walk.now.states.items → slice_index walk.now.states.items j < table.now.states }
    ensures some { IfSome result (λ found. IsFirstOutput table.now walk.now.states.items found.0 found.1) }
    ensures none { IfNone result ((j r : ℕ) → j < length walk.now.states.items → r < 2 ^ table.now.tracks → ¬ IsTrue (output_of table.now (slice_index walk.now.states.items j) r)) }
{
    for (place, state) in walk.states.iter().enumerate() {
        if let Some(sign) = first_sign(table, *state) {
            return Some((place as u32, sign));
        }
    }
    None
}

/// The letters by which a place was met, and then a sign.
fn word_of(alloc: Global, walk: &Walk, place: u32, sign: u16) -> Result<Vec<u16>, AllocError>
    requires place { place < length walk.now.states.items }
    requires parents { length walk.now.parents.items ≡ length walk.now.states.items }
    requires letters { length walk.now.letters.items ≡ length walk.now.states.items }
    requires earlier { (j : ℕ) → 0 < j → j < length walk.now.states.items → slice_index walk.now.parents.items j < j }
    ensures { IfOk result (λ word. word.items ≡ access walk.now.parents.items walk.now.letters.items place ++ sign ∷ []) }
{
    let mut word = Vec::new(alloc);
    word.push(sign)?;
    let mut at = place;
    while at != 0 {
        word.push(walk.letters[at as usize])?;
        at = walk.parents[at as usize];
    }
    word.reverse();
    Ok(word)
}

/// The vector of a word of at most 128 letters.
pub(crate) fn short_value(alloc: Global, word: &[u16], tracks: u32) -> Result<Vec<i128>, NoMemory>
    requires tracks { tracks ≤ 10 }
    requires word { IsWord tracks word.now }
    requires few { length word.now ≤ 128 }
    ensures { IfOk result (λ z. z.items ≡ value tracks word.now) }
{
    match decode(alloc, word, tracks) {
        Ok(z) => Ok(z),
        Err(DigitFault::Wide) => unreachable!(),
        Err(DigitFault::NoMemory) => Err(NoMemory),
    }
}

/// The vector of a word, if it has at most 128 letters.
pub(crate) fn narrow_value(
    alloc: Global,
    word: &[u16],
    tracks: u32,
) -> Result<Vec<i128>, WitnessFault>
    requires tracks { tracks ≤ 10 }
    requires word { IsWord tracks word.now }
    requires few { length word.now ≤ 65536 }
    ensures value { IfOk result (λ z. z.items ≡ value tracks word.now) }
    ensures narrow { IfOk result (λ _. length word.now ≤ 128) }
    ensures wide { IfErr result (IsWideWord word.now) }
{
    if word.len() > 128 {
        return Err(WitnessFault::Wide {
            letters: word.len() as u32,
        });
    }
    let z = short_value(alloc, word, tracks)?;
    Ok(z)
}

/// The least member of the set of a state.
fn least_of(alloc: Global, table: &Table, start: u32) -> Result<Option<Vec<i128>>, WitnessFault>
    requires { start < table.now.states }
    ensures none { IfOk result (λ found. IfNone found (IsEmptySet table.now.tracks (SetOfState table.now start))) }
    ensures least { IfOk result (λ found. IfSome found (λ z. IsLeastMember table.now.tracks (SetOfState table.now start) z.items)) }
    ensures narrow { IfOk result (λ found. IfSome found (λ z. IsNarrow z.items)) }
    ensures wide { IfErr result (IsWideCause table.now.tracks (SetOfState table.now start)) }
{
    let tracks = table.tracks();
    let walk = walk_from(alloc, table, start)?;
    let Some((place, sign)) = first_output(table, &walk) else {
        return Ok(None);
    };
    let word = word_of(alloc, &walk, place, sign)?;
    match narrow_value(alloc, word.as_slice(), tracks) {
        Ok(z) => Ok(Some(z)),
        Err(fault) => Err(fault),
    }
}

/// The least member in shortlex order, none exactly for the empty set. `Wide` exactly where the set is not empty and the
/// shortest word of its least member has more than 128 letters, so many as it names.
///
/// A breadth-first search over the states of the set, letters in increasing order, meets them in the shortlex order of the
/// least words that lead to them; the first one with an output, and its least sign, end the least word. Linear in states
/// times letters; no number is made before the word is known to fit.
pub fn least_member<P: Codes>(
    alloc: Global,
    pass: &P,
    a: Handle,
) -> Result<Option<Vec<i128>>, WitnessFault>
    requires { IsKnown P.home (P.lists pass.now) a }
    ensures none { IfOk result (λ found. IfNone found (IsEmptySet a.tracks (SetOfHandle (P.lists pass.now) a))) }
    ensures least { IfOk result (λ found. IfSome found (λ z. IsLeastMember a.tracks (SetOfHandle (P.lists pass.now) a) z.items)) }
    ensures narrow { IfOk result (λ found. IfSome found (λ z. IsNarrow z.items)) }
    ensures wide { IfErr result (IsWideCause a.tracks (SetOfHandle (P.lists pass.now) a)) }
{
    let (table, start) = expand(alloc, pass, a)?;
    least_of(alloc, &table, start)
}
