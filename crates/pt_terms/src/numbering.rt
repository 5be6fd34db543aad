// Numbers of names.
ghost use Rattle.std.specs.Prelude.{◌≡◌, ◌<◌, ◌≤◌, ◌++◌, ℕ, List, length, map, IfOk};
ghost use Rattle.pt_grammar.specs.Words.{Name};
ghost use Rattle.pt_terms.specs.Bindings.{name_at, place_in, AreDistinct};

use indexmap::IndexSet;
use pt_digits::NoMemory;
use std::alloc::Global;

/// The number of the name, which is added where it is new.
pub(crate) fn number_of(
    alloc: Global,
    names: &mut IndexSet<Vec<u8>>,
    newest: &mut Vec<Option<usize>>,
    name: &[u8],
) -> Result<usize, NoMemory>
    requires distinct { AreDistinct (map (λ k. k.items) names.old.keys) }
    requires count { length names.old.keys ≤ length newest.old.items }
    ensures name { IfOk result (λ n. name_at (map (λ k. k.items) names.new.keys) n ≡ name.now) }
    ensures range { IfOk result (λ n. n < length names.new.keys) }
    ensures names { (more : List Name) × (map (λ k. k.items) names.new.keys ≡ map (λ k. k.items) names.old.keys ++ more) }
    ensures distinct { AreDistinct (map (λ k. k.items) names.new.keys) }
    ensures count { length names.new.keys ≤ length newest.new.items }
    ensures newest { (n : ℕ) → place_in newest.new.items n ≡ place_in newest.old.items n }
{
    if let Some((number, _)) = names.get_full(name) {
        return Ok(number);
    }
    newest.push(None)?;
    let copy = Vec::from_slice(alloc, name)?;
    let (number, _) = names.insert_full(copy)?;
    Ok(number)
}
