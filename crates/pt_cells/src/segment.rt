// A segment of set-once cells.
ghost use Rattle.std.specs.Prelude.{◌≡◌, ◌<◌, IfOk, IfSome, Some, length, slice_get};
ghost use Rattle.once_cell.specs.Once.{cell_name};

use once_cell::race::{Note, OnceBox};
use pt_code::NoMemory;
use pt_shards::HashedCode;
use std::alloc::{AllocError, Global};
use std::marker::Model;

/// A segment of N cells, each set once. Contracts see the names of its cells.
#[derive(Drop)]
pub(crate) struct Segment<const N: usize> {
    cells: Vec<OnceBox<HashedCode>>,
}

impl<const N: usize> Model for Segment<N> {
    ghost use Rattle.std.specs.Prelude.{◌≡◌, ℕ, List, map, length};
    ghost use Rattle.once_cell.specs.Once.{cell_name};

    ghost Value = { List ℕ };

    ghost view = { λ s. map cell_name s.cells.items };

    ghost invariant = { λ s. length s.cells.items ≡ N };
}

/// Cells that are empty. They are collected, which writes them all in one go, and not pushed one by one.
fn empty_cells(alloc: Global, count: usize) -> Result<Vec<OnceBox<HashedCode>>, AllocError>
    ensures { IfOk result (λ cells. length cells.items ≡ count) }
{
    (0..count).map(|_| OnceBox::new(alloc)).collect(alloc)
}

impl<const N: usize> Segment<N> {
    /// A segment of N cells, which are empty.
    pub(crate) fn new(alloc: Global) -> Result<Segment<N>, NoMemory>
        ensures { IfOk result (λ s. length s ≡ N) }
    {
        let cells = empty_cells(alloc, N)?;
        Ok(Segment { cells })
    }

    /// The cell at a position.
    pub(crate) fn cell(&self, position: usize) -> &OnceBox<HashedCode>
        requires { position < N }
        ensures { slice_get self.now position ≡ Some (cell_name result.now) }
    {
        &self.cells[position]
    }
}

/// The segment in a cell, which gets a new one where it has none.
pub(crate) fn reach<'a, const N: usize>(
    alloc: Global,
    cell: &'a OnceBox<Segment<N>>,
    note: &mut Note<Segment<N>>,
) -> Result<&'a Segment<N>, NoMemory>
    requires { note.old.cell ≡ cell_name cell.now }
    ensures cell { note.new.cell ≡ note.old.cell }
    ensures kept { IfSome note.old.known (λ names. note.new.known ≡ Some names) }
    ensures seen { IfOk result (λ s. note.new.known ≡ Some s.now) }
{
    match cell.get_as(note) {
        Some(segment) => Ok(segment),
        None => {
            let made = Box::new(alloc, Segment::new(alloc)?)?;
            Ok(cell.get_or_init_as(move || made, note))
        }
    }
}
