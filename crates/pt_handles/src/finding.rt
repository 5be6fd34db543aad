// Finding a set among what is known.
ghost use Rattle.std.specs.Prelude.{◌≡◌, ℕ, ◌+◌, ◌<◌, ◌≤◌, List, length, IfOk, IfErr, OnOk};
ghost use Rattle.pt_sets.specs.Automata.{SetOfState, IsReduced};
ghost use Rattle.pt_scc.specs.Components.{AreComponents, IsEdge, lists_of};
ghost use Rattle.pt_handles.specs.Handles.{Has};
ghost use Rattle.pt_handles.specs.Adopting.{AreReached, ArePlaced};
ghost use Rattle.pt_handles.specs.Knowing.{KnowsSet, Refutes, no_memory_to_find};

use crate::handle::Handle;
use crate::pieces::{number_part, piece_of, place_part};
use crate::reaching::reached_states;
use pt_code::{Edge, least_code};
use pt_refine::reduce;
use pt_scc::components;
use pt_store::Codes;
use pt_tables::{NoMemory, Table};
use std::alloc::{AllocError, AllocFailed, Global};
use std::thread::Threads;

/// Why a search in lists of codes stops.
#[derive(Clone, Copy, Debug, PartialEq, Eq)]
pub(crate) enum Stop {
    /// What is sought is not known.
    Unknown,
    /// There is no memory.
    NoMemory,
}

impl From<NoMemory> for Stop {
    ghost from_gives = { λ error stop. stop ≡ no_memory_to_find };

    fn from(_error: NoMemory) -> Self {
        Stop::NoMemory
    }
}

impl From<pt_code::NoMemory> for Stop {
    ghost from_gives = { λ error stop. stop ≡ no_memory_to_find };

    fn from(_error: pt_code::NoMemory) -> Self {
        Stop::NoMemory
    }
}

impl From<AllocError> for Stop {
    ghost from_gives = { λ error stop. stop ≡ no_memory_to_find };

    fn from(_error: AllocError) -> Self {
        Stop::NoMemory
    }
}

impl<T: Drop> From<AllocFailed<T>> for Stop {
    ghost from_gives = { λ error stop. stop ≡ no_memory_to_find };

    fn from(_failed: AllocFailed<T>) -> Self {
        Stop::NoMemory
    }
}

/// The known handle with the set of a state of a table. As `adopt`, but that codes are found and none is interned.
pub(crate) fn find_set<R: Threads + Sync, P: Codes>(
    rt: &R,
    alloc: Global,
    pass: &P,
    table: &Table,
    start: u32,
) -> Result<Handle, Stop>
    requires start { start < table.now.states }
    ensures ok { IfOk result (Has P.home (P.lists pass.now) table.now.tracks (SetOfState table.now start)) }
    ensures err { IfErr result (Refutes (KnowsSet P.home (P.lists pass.now) table.now.tracks (SetOfState table.now start))) }
{
    let reduced = reduce(rt, alloc, table)?;
    let class = reduced.class(start);
    find_reduced(alloc, pass, reduced.table(), class)
}

/// The known handle with the set of a state of a reduced table.
fn find_reduced<P: Codes>(
    alloc: Global,
    pass: &P,
    table: &Table,
    start: u32,
) -> Result<Handle, Stop>
    requires reduced { IsReduced table.now }
    requires start { start < table.now.states }
    ensures ok { IfOk result (Has P.home (P.lists pass.now) table.now.tracks (SetOfState table.now start)) }
    ensures err { IfErr result (Refutes (KnowsSet P.home (P.lists pass.now) table.now.tracks (SetOfState table.now start))) }
{
    let parts = components(alloc, table)?;
    let marks = reached_states(alloc, table, start)?;
    let targets = match find_parts(alloc, pass, table, &parts, &marks) {
        Ok(targets) => targets,
        Err(stop) => return Err(stop),
    };
    match targets[start as usize] {
        Edge::Far(exit) => Ok(Handle {
            tracks: table.tracks(),
            place: exit.place,
            entry: exit.entry,
        }),
        Edge::Near(_) => unreachable!(),
    }
}

/// Finds the parts of a reduced table whose states are reached. Their targets are then their exits.
fn find_parts<P: Codes>(
    alloc: Global,
    pass: &P,
    table: &Table,
    parts: &[Vec<u32>],
    marks: &[bool],
) -> Result<Vec<Edge>, Stop>
    requires reduced { IsReduced table.now }
    requires parts { AreComponents table.now.states (IsEdge table.now) (lists_of parts.now) }
    requires reached { (start : ℕ) × (start < table.now.states) × AreReached table.now start marks.now }
    ensures ok { IfOk result (λ targets. ArePlaced P.home (P.lists pass.now) table.now (lists_of parts.now) marks.now (length parts.now) targets.items) }
    ensures err { IfErr result (λ stop. (start : ℕ) → start < table.now.states → AreReached table.now start marks.now → Refutes (KnowsSet P.home (P.lists pass.now) table.now.tracks (SetOfState table.now start)) stop) }
{
    let mut targets = vec![in alloc; Edge::Near(0); table.states() as usize]?;
    for i in 0..parts.len() {
        if let Err(stop) = find_part(alloc, pass, table, parts, marks, i, &mut targets) {
            return Err(stop);
        }
    }
    Ok(targets)
}

/// Finds a part of a reduced table whose states are reached, after the parts before it. The targets of its states are then their exits.
fn find_part<P: Codes>(
    alloc: Global,
    pass: &P,
    table: &Table,
    parts: &[Vec<u32>],
    marks: &[bool],
    i: usize,
    targets: &mut Vec<Edge>,
) -> Result<(), Stop>
    requires reduced { IsReduced table.now }
    requires parts { AreComponents table.now.states (IsEdge table.now) (lists_of parts.now) }
    requires reached { (start : ℕ) × (start < table.now.states) × AreReached table.now start marks.now }
    requires part { i < length parts.now }
    requires placed { ArePlaced P.home (P.lists pass.now) table.now (lists_of parts.now) marks.now i targets.old.items }
    ensures ok { OnOk result (ArePlaced P.home (P.lists pass.now) table.now (lists_of parts.now) marks.now (i + 1) targets.new.items) }
    ensures err { IfErr result (λ stop. (start : ℕ) → start < table.now.states → AreReached table.now start marks.now → Refutes (KnowsSet P.home (P.lists pass.now) table.now.tracks (SetOfState table.now start)) stop) }
{
    table.is_automaton();
    let part = parts[i].as_slice();
    if !marks[part[0] as usize] {
        return Ok(());
    }
    number_part(targets, part);
    let piece = piece_of(alloc, pass, table, part, targets)?;
    let coded = least_code(alloc, &piece)?;
    let place = match pass.find(coded.code()) {
        Some(place) => place,
        None => return Err(Stop::Unknown),
    };
    place_part(targets, part, place, &coded);
    Ok(())
}
