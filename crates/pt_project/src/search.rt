// The search over families.
ghost use Rattle.std.specs.Prelude.{◌≡◌, ◌+◌, ◌*◌, ◌^◌, ◌<◌, ◌≤◌, [], ◌∷◌, ◌++◌, length, IfOk, IfErr, OnOk};
ghost use Rattle.pt_sets.specs.Automata.{SetOfState};
ghost use Rattle.pt_handles.specs.Refusing.{StatesOnlyAbove};
ghost use Rattle.pt_project.specs.Bits.{IsClear};
ghost use Rattle.pt_project.specs.Families.{same_family};
ghost use Rattle.pt_project.specs.Closing.{AreClosings};
ghost use Rattle.pt_project.specs.Searching.{IsTask, HasProgress};

use crate::closing::{closings, has_marked};
use crate::families::Families;
use crate::family::{Scratch, power, step_family};
use pt_handles::TableFault;
use pt_tables::Table;
use std::alloc::Global;

/// What is searched: families of states that are reached from a start, without one of the tracks of the table, and how
/// many there may be. `tracks` are left.
#[derive(Clone, Copy)]
pub(crate) struct Task {
    pub(crate) start: u32,
    pub(crate) track: u32,
    pub(crate) tracks: u32,
    pub(crate) bound: u32,
}

/// The numbered families, with an output and a successor for each cell so far.
#[derive(Drop)]
pub(crate) struct Search {
    pub(crate) families: Families,
    pub(crate) outputs: Vec<bool>,
    pub(crate) edges: Vec<u32>,
}

/// The search before its first cell.
fn first_search(alloc: Global, start: u32) -> Result<Search, TableFault>
    ensures families { IfOk result (λ search. search.families ≡ (start ∷ []) ∷ []) }
    ensures outputs { IfOk result (λ search. search.outputs.items ≡ []) }
    ensures edges { IfOk result (λ search. search.edges.items ≡ []) }
    ensures err { IfErr result (λ fault. fault ≡ TableFault.NoMemory) }
{
    Ok(Search {
        families: Families::with_first(alloc, &[start])?,
        outputs: Vec::new(alloc),
        edges: Vec::new(alloc),
    })
}

/// Puts an answer and a number behind the cells.
fn push_cell(search: &mut Search, answer: bool, number: u32) -> Result<(), TableFault>
    ensures outputs { OnOk result (search.new.outputs.items ≡ search.old.outputs.items ++ answer ∷ []) }
    ensures edges { OnOk result (search.new.edges.items ≡ search.old.edges.items ++ number ∷ []) }
    ensures families { search.new.families ≡ search.old.families }
    ensures err { IfErr result (λ fault. fault ≡ TableFault.NoMemory) }
{
    search.outputs.push(answer)?;
    search.edges.push(number)?;
    Ok(())
}

/// One cell: the answer of a family at a letter, and the number of the family behind it.
fn visit_letter(
    alloc: Global,
    table: &Table,
    task: Task,
    closings: &[Vec<bool>],
    search: &mut Search,
    scratch: &mut Scratch,
    state: u32,
    letter: u16,
) -> Result<(), TableFault>
    requires task { IsTask table.now task }
    requires count { length closings.now ≡ 2 ^ task.tracks }
    requires closings { AreClosings table.now task.tracks task.track (2 ^ task.tracks) closings.now }
    requires state { state < length search.old.families }
    requires letter { letter < 2 ^ task.tracks }
    requires clear { IsClear table.now.states scratch.old.words.items }
    requires progress { HasProgress table.now task search.old (state * 2 ^ task.tracks + letter) }
    ensures clear { OnOk result (IsClear table.now.states scratch.new.words.items) }
    ensures progress { OnOk result (HasProgress table.now task search.new (state * 2 ^ task.tracks + (letter + 1))) }
    ensures grows { OnOk result (length search.old.families ≤ length search.new.families) }
    ensures above { IfErr result (StatesOnlyAbove (same_family task.tracks task.track (SetOfState table.now task.start)) task.tracks task.bound) }
{
    let family = search.families.family(state);
    let answer = has_marked(closings[letter as usize].as_slice(), family);
    step_family(table, task.track, family, letter, task.tracks, scratch)?;
    let next = scratch.family.as_slice();
    let number = search.families.number_of(alloc, next, task.bound)?;
    push_cell(search, answer, number)
}

/// The cells of one family.
fn visit_state(
    alloc: Global,
    table: &Table,
    task: Task,
    closings: &[Vec<bool>],
    search: &mut Search,
    scratch: &mut Scratch,
    state: u32,
) -> Result<(), TableFault>
    requires task { IsTask table.now task }
    requires count { length closings.now ≡ 2 ^ task.tracks }
    requires closings { AreClosings table.now task.tracks task.track (2 ^ task.tracks) closings.now }
    requires state { state < length search.old.families }
    requires clear { IsClear table.now.states scratch.old.words.items }
    requires progress { HasProgress table.now task search.old (state * 2 ^ task.tracks) }
    ensures clear { OnOk result (IsClear table.now.states scratch.new.words.items) }
    ensures progress { OnOk result (HasProgress table.now task search.new ((state + 1) * 2 ^ task.tracks)) }
    ensures grows { OnOk result (length search.old.families ≤ length search.new.families) }
    ensures above { IfErr result (StatesOnlyAbove (same_family task.tracks task.track (SetOfState table.now task.start)) task.tracks task.bound) }
{
    for letter in 0..power(task.tracks) {
        visit_letter(alloc, table, task, closings, search, scratch, state, letter)?;
    }
    Ok(())
}

/// All families that are reached, with their cells.
pub(crate) fn search_families(
    alloc: Global,
    table: &Table,
    task: Task,
) -> Result<Search, TableFault>
    requires task { IsTask table.now task }
    ensures done { IfOk result (λ search. HasProgress table.now task search (length search.families * 2 ^ task.tracks)) }
    ensures above { IfErr result (StatesOnlyAbove (same_family task.tracks task.track (SetOfState table.now task.start)) task.tracks task.bound) }
{
    let closings = closings(alloc, table, task.track, task.tracks)?;
    let mut search = first_search(alloc, task.start)?;
    let mut scratch = Scratch::new(alloc, table.states())?;
    let mut state: u32 = 0;
    while (state as usize) < search.families.len() {
        let marks = closings.as_slice();
        visit_state(alloc, table, task, marks, &mut search, &mut scratch, state)?;
        state += 1;
    }
    Ok(search)
}
