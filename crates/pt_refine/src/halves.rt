//! Partition refinement by the smaller half.

ghost use Rattle.std.specs.Prelude.{◌≡◌, ℕ, ◌+◌, ◌^◌, ◌<◌, ◌≤◌, ◌↔◌, length, slice_index, IfOk, OnOk};
ghost use Rattle.pt_sets.specs.Automata.{next_of};
ghost use Rattle.pt_refine.specs.Refining.{IsNumbering, IsStable};
ghost use Rattle.pt_refine.specs.Halving.{Refines, Pends};
ghost use Rattle.pt_refine.specs.Partitions.{IsPartition, IsUnmarked};
ghost use Rattle.pt_refine.specs.Dealing.{AreChains, AreRowsOf};

use crate::chains::{Chains, add, empty_rows};
use crate::keys::{CELLS_FOR_THREADS, Classes, by_outputs};
use crate::partition::Partition;
use pt_tables::Table;
use std::alloc::{AllocError, Global};
use std::thread::Threads;

/// The states of each class, a row a class.
fn rows_of(alloc: Global, classes: &Classes) -> Result<Vec<Vec<u32>>, AllocError>
    requires classes { IsNumbering (length classes.now.numbers.items) classes.now.numbers.items classes.now.count }
    requires few { length classes.now.numbers.items ≤ 65536 }
    ensures count { IfOk result (λ rows. length rows.items ≡ classes.now.count) }
    ensures rows { IfOk result (λ rows. AreRowsOf (length classes.now.numbers.items) (slice_index classes.now.numbers.items) rows.items) }
{
    let mut rows = empty_rows(alloc, classes.count)?;
    for (state, class) in classes.numbers.iter().enumerate() {
        add(&mut rows, *class as usize, state as u32)?;
    }
    Ok(rows)
}

/// The partition into classes.
fn partition_of(alloc: Global, classes: &Classes) -> Result<Partition, AllocError>
    requires classes { IsNumbering (length classes.now.numbers.items) classes.now.numbers.items classes.now.count }
    requires some { 0 < length classes.now.numbers.items }
    requires few { length classes.now.numbers.items ≤ 65536 }
    ensures partition { IfOk result IsPartition }
    ensures unmarked { IfOk result IsUnmarked }
    ensures size { IfOk result (λ p. length p.class.items ≡ length classes.now.numbers.items) }
    ensures classes { IfOk result (λ p. (q r : ℕ) → q < length classes.now.numbers.items → r < length classes.now.numbers.items → (slice_index p.class.items q ≡ slice_index p.class.items r) ↔ (slice_index classes.now.numbers.items q ≡ slice_index classes.now.numbers.items r)) }
{
    let rows = rows_of(alloc, classes)?;
    let mut touched = Vec::new(alloc);
    let mut partition = Partition::whole(alloc, classes.numbers.len() as u32)?;
    for class in 0..classes.count {
        partition.split(&rows[class], &mut touched)?;
    }
    Ok(partition)
}

/// Splits all classes by the letters that lead into a class as it is now.
fn split_by_class(
    table: &Table,
    chains: &Chains,
    class: u32,
    partition: &mut Partition,
    rows: &mut Vec<Vec<u32>>,
    touched: &mut Vec<u32>,
) -> Result<(), AllocError>
    requires chains { AreChains table.now chains.now.last.items chains.now.before.items }
    requires class { class < length partition.old.starts.items }
    requires partition { IsPartition partition.old }
    requires unmarked { IsUnmarked partition.old }
    requires size { length partition.old.class.items ≡ table.now.states }
    requires refines { Refines table.now (slice_index partition.old.class.items) }
    requires pends { Pends table.now.states (2 ^ table.now.tracks) (next_of table.now) (slice_index partition.old.class.items) class }
    requires rows { length rows.old.items ≡ 2 ^ table.now.tracks }
    ensures partition { OnOk result (IsPartition partition.new) }
    ensures unmarked { OnOk result (IsUnmarked partition.new) }
    ensures size { OnOk result (length partition.new.class.items ≡ table.now.states) }
    ensures grows { OnOk result (length partition.old.starts.items ≤ length partition.new.starts.items) }
    ensures refines { OnOk result (Refines table.now (slice_index partition.new.class.items)) }
    ensures pends { OnOk result (Pends table.now.states (2 ^ table.now.tracks) (next_of table.now) (slice_index partition.new.class.items) (class + 1)) }
    ensures rows { length rows.new.items ≡ length rows.old.items }
{
    let letters = table.letters();
    chains.deal(table, partition, class, rows)?;
    for letter in 0..letters {
        partition.split(&rows[letter], touched)?;
    }
    Ok(())
}

/// The classes of equal sets.
pub(crate) fn stable_classes<R: Threads + Sync>(
    rt: &R,
    alloc: Global,
    table: &Table,
) -> Result<Classes, AllocError>
    ensures { IfOk result (λ c. IsStable table.now c.numbers.items c.count) }
{
    let letters = table.letters();
    let first = by_outputs(rt, alloc, table, CELLS_FOR_THREADS)?;
    let mut partition = partition_of(alloc, &first)?;
    let chains = Chains::of(alloc, table)?;
    let mut rows = empty_rows(alloc, letters)?;
    let mut touched = Vec::new(alloc);
    let mut class = 1;
    while class < partition.count() {
        split_by_class(
            table,
            &chains,
            class,
            &mut partition,
            &mut rows,
            &mut touched,
        )?;
        class += 1;
    }
    Ok(partition.into_classes())
}
