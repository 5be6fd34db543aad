//! Reducing automata: one state for each set.
#![tactic(auto)]

mod chains;
mod classes;
mod halves;
mod keys;
mod partition;

ghost use Rattle.std.specs.Prelude.{◌≡◌, ◌<◌, ◌≤◌, ◌^◌, IfOk, length};
ghost use Rattle.pt_sets.specs.Automata.{IsReduced};
ghost use Rattle.pt_refine.specs.Reduction.{IsReductionOf, class_of};

use pt_tables::{NoMemory, Table};
use std::alloc::{AllocError, Global};
use std::marker::Model;
use std::thread::Threads;

/// A reduced table, and for each state of the table that it was made of the number of its class.
#[derive(Drop)]
pub struct Reduced {
    table: Table,
    classes: Vec<u32>,
}

impl Model for Reduced {
    ghost use Rattle.pt_refine.specs.Reduction.{Reduction};

    ghost Value = { Reduction };

    ghost view = { λ r. record { table = r.table; classes = r.classes.items } };
}

impl Reduced {
    /// The reduced table.
    pub fn table(&self) -> &Table
        ensures { result.now ≡ self.now.table }
    {
        &self.table
    }

    /// The class of a state of the table that was reduced: a state of the reduced table.
    pub fn class(&self, state: u32) -> u32
        requires { state < length self.now.classes }
        ensures { result ≡ class_of self.now state }
    {
        self.classes[state as usize]
    }
}

/// The reduced table of a table: two states have one class exactly where their sets are equal.
///
/// By the smaller half (Hopcroft, "An n log n algorithm for minimizing states in a finite automaton", 1971): classes
/// begin with equal outputs, and each class, as it is when its turn comes, splits all others by the letters that lead
/// into it. A split gives the next number to the smaller part, so the classes that are yet to split others are those
/// from some number on. Parts are split by marking states in place, as Valmari and Lehtinen do ("Efficient minimization
/// of DFAs with partial transition functions", 2008). Time: edges times the logarithm of the states, and letters times
/// states. Memory: one number for each edge, and while a class splits others one for each edge into it. Threads are
/// started only where the table has 2^24 cells (states times letters) or more, once for each 64 signs, to read its
/// outputs.
pub fn reduce<R: Threads + Sync>(rt: &R, alloc: Global, table: &Table) -> Result<Reduced, NoMemory>
    ensures reduction { IfOk result (IsReductionOf table.now) }
    ensures reduced { IfOk result (λ r. IsReduced r.table) }
{
    Ok(reduce_by_halves(rt, alloc, table)?)
}

fn reduce_by_halves<R: Threads + Sync>(
    rt: &R,
    alloc: Global,
    table: &Table,
) -> Result<Reduced, AllocError>
    ensures { IfOk result (IsReductionOf table.now) }
{
    let tracks = table.tracks();
    let keys::Classes { numbers, count } = halves::stable_classes(rt, alloc, table)?;
    let members = classes::members(alloc, &numbers, count)?;
    let outputs = classes::class_outputs(alloc, table, &members)?;
    let edges = classes::class_edges(alloc, table, &numbers, &members)?;
    let table = Table::from_parts(tracks, count as u32, outputs, edges);
    Ok(Reduced {
        table,
        classes: numbers,
    })
}

#[cfg(test)]
mod tests;
