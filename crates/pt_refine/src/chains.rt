//! The edges into a state, as a chain of cells.

ghost use Rattle.std.specs.Prelude.{◌≡◌, ◌≢◌, ℕ, ◌^◌, ◌<◌, [], ◌∷◌, ◌++◌, length, slice_index, IfOk, OnOk};
ghost use Rattle.pt_sets.specs.Automata.{IsAutomaton};
ghost use Rattle.pt_refine.specs.Partitions.{IsPartition};
ghost use Rattle.pt_refine.specs.Dealing.{AreChains, AreDealt, Deals, row_of};

use crate::partition::Partition;
use pt_tables::Table;
use std::alloc::{AllocError, Global};

/// The cells whose edges lead to a state, from the last one down. A cell is named by one more than its place, and 0
/// stands for none.
#[derive(Drop)]
pub(crate) struct Chains {
    /// The last cell that leads to a state.
    last: Vec<u32>,
    /// The last cell before a cell that leads to the same state.
    before: Vec<u32>,
}

impl Chains {
    /// The chains of a table.
    pub(crate) fn of(alloc: Global, table: &Table) -> Result<Chains, AllocError>
        ensures { IfOk result (λ c. AreChains table.now c.last.items c.before.items) }
    {
        let edges = table.edges();
        let mut last = vec![in alloc; 0u32; table.states() as usize]?;
        let mut before = Vec::with_capacity(alloc, edges.len())?;
        for (cell, to) in edges.iter().enumerate() {
            before.push(last[*to as usize])?;
            last[*to as usize] = cell as u32 + 1;
        }
        Ok(Chains { last, before })
    }

    /// Puts each state into the row of each letter by which its successor is a state of the class.
    pub(crate) fn deal(
        &self,
        table: &Table,
        partition: &Partition,
        class: u32,
        rows: &mut Vec<Vec<u32>>,
    ) -> Result<(), AllocError>
        requires automaton { IsAutomaton table.now }
        requires chains { AreChains table.now self.now.last.items self.now.before.items }
        requires partition { IsPartition partition.now }
        requires states { length partition.now.class.items ≡ table.now.states }
        requires class { class < length partition.now.starts.items }
        requires rows { length rows.old.items ≡ 2 ^ table.now.tracks }
        ensures rows { length rows.new.items ≡ length rows.old.items }
        ensures dealt { OnOk result (AreDealt table.now (slice_index partition.now.class.items) class rows.new.items) }
    {
        clear_rows(rows);
        for at in partition.start(class)..partition.end(class) {
            self.deal_state(table, partition.state(at), rows)?;
        }
        Ok(())
    }

    /// Puts each state into the row of each letter by which it leads to a state.
    fn deal_state(
        &self,
        table: &Table,
        state: u32,
        rows: &mut Vec<Vec<u32>>,
    ) -> Result<(), AllocError>
        requires chains { AreChains table.now self.now.last.items self.now.before.items }
        requires state { state < table.now.states }
        requires rows { length rows.old.items ≡ 2 ^ table.now.tracks }
        ensures rows { length rows.new.items ≡ length rows.old.items }
        ensures deals { OnOk result (Deals table.now state rows.old.items rows.new.items) }
    {
        let letters = table.letters();
        let mut next = self.last[state as usize] as usize;
        while next > 0 {
            let cell = next - 1;
            add(rows, cell % letters, (cell / letters) as u32)?;
            next = self.before[cell] as usize;
        }
        Ok(())
    }
}

/// So many empty rows.
pub(crate) fn empty_rows(alloc: Global, count: usize) -> Result<Vec<Vec<u32>>, AllocError>
    ensures count { IfOk result (λ rows. length rows.items ≡ count) }
    ensures empty { IfOk result (λ rows. (y : ℕ) → row_of rows.items y ≡ []) }
{
    let mut rows = Vec::new(alloc);
    for _ in 0..count {
        rows.push(Vec::new(alloc))?;
    }
    Ok(rows)
}

/// Makes all rows empty.
fn clear_rows(rows: &mut Vec<Vec<u32>>)
    ensures count { length rows.new.items ≡ length rows.old.items }
    ensures empty { (y : ℕ) → row_of rows.new.items y ≡ [] }
{
    for y in 0..rows.len() {
        rows[y].clear();
    }
}

/// Puts a state last into a row.
pub(crate) fn add(rows: &mut Vec<Vec<u32>>, row: usize, state: u32) -> Result<(), AllocError>
    requires { row < length rows.old.items }
    ensures count { length rows.new.items ≡ length rows.old.items }
    ensures added { OnOk result (row_of rows.new.items row ≡ row_of rows.old.items row ++ state ∷ []) }
    ensures others { OnOk result ((y : ℕ) → y ≢ row → row_of rows.new.items y ≡ row_of rows.old.items y) }
{
    rows[row].push(state)?;
    Ok(())
}
