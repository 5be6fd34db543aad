// Reverse edges of a table by two letters.
ghost use Rattle.std.specs.Prelude.{◌≡◌, ◌≢◌, ◌<◌, ◌^◌, ℕ, [], ◌∷◌, ◌++◌, length, IfOk, OnOk};
ghost use Rattle.pt_project.specs.Closing.{row_of, AreSources};

use pt_tables::Table;
use std::alloc::{AllocError, Global};

/// So many empty lists.
fn empty_lists(alloc: Global, count: u32) -> Result<Vec<Vec<u32>>, AllocError>
    ensures count { IfOk result (λ lists. length lists.items ≡ count) }
    ensures empty { IfOk result (λ lists. (y : ℕ) → row_of lists.items y ≡ []) }
{
    let mut lists = Vec::new(alloc);
    for _ in 0..count {
        lists.push(Vec::new(alloc))?;
    }
    Ok(lists)
}

/// Puts a state last in the list of another.
fn add_source(lists: &mut Vec<Vec<u32>>, target: u32, source: u32) -> Result<(), AllocError>
    requires { target < length lists.old.items }
    ensures count { length lists.new.items ≡ length lists.old.items }
    ensures added { OnOk result (row_of lists.new.items target ≡ row_of lists.old.items target ++ source ∷ []) }
    ensures others { OnOk result ((y : ℕ) → y ≢ target → row_of lists.new.items y ≡ row_of lists.old.items y) }
{
    lists[target as usize].push(source)?;
    Ok(())
}

/// For each state those with an edge to it by one of two letters.
pub(crate) fn sources(
    alloc: Global,
    table: &Table,
    zero: u16,
    one: u16,
) -> Result<Vec<Vec<u32>>, AllocError>
    requires zero { zero < 2 ^ table.now.tracks }
    requires one { one < 2 ^ table.now.tracks }
    ensures count { IfOk result (λ lists. length lists.items ≡ table.now.states) }
    ensures sources { IfOk result (λ lists. AreSources table.now zero one table.now.states lists.items) }
{
    let mut lists = empty_lists(alloc, table.states())?;
    for source in 0..table.states() {
        add_source(&mut lists, table.next(source, zero), source)?;
        add_source(&mut lists, table.next(source, one), source)?;
    }
    Ok(lists)
}
