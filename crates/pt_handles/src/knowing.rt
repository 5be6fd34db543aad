// Deciding whether lists know a handle.
ghost use Rattle.std.specs.Prelude.{◌≡◌, ◌↔◌, IsTrue, IfOk, IfErr};
ghost use Rattle.pt_handles.specs.Handles.{IsKnown};
ghost use Rattle.pt_handles.specs.Knowing.{Refutes};

use crate::compare::same;
use crate::exploring::explore;
use crate::finding::{Stop, find_set};
use crate::handle::Handle;
use pt_store::Codes;
use pt_tables::NoMemory;
use std::alloc::Global;
use std::thread::Threads;

/// Whether the lists know a handle: each code that it reaches is the least code of a strongly connected component, stands
/// where `find` finds it, has the tracks and the height that it should, has exits to states, and keeps the sign rule, and
/// no two of its states, which are few, have equal sets.
///
/// The automaton of the handle is read from the lists as it stands, and its set is sought among what is known: a handle is
/// known exactly where that gives the handle itself. Costs what `expand` and `adopt` cost.
pub fn knows<R: Threads + Sync, P: Codes>(
    rt: &R,
    alloc: Global,
    pass: &P,
    handle: Handle,
) -> Result<bool, NoMemory>
    ensures { IfOk result (λ known. IsTrue known ↔ IsKnown P.home (P.lists pass.now) handle) }
{
    match find_handle(rt, alloc, pass, handle) {
        Ok(found) => Ok(same(found, handle)),
        Err(Stop::Unknown) => Ok(false),
        Err(Stop::NoMemory) => Err(NoMemory),
    }
}

/// The known handle with the set that a handle has, whether that is known or not.
fn find_handle<R: Threads + Sync, P: Codes>(
    rt: &R,
    alloc: Global,
    pass: &P,
    handle: Handle,
) -> Result<Handle, Stop>
    ensures known { IfOk result (IsKnown P.home (P.lists pass.now)) }
    ensures one { IfOk result (λ found. IsKnown P.home (P.lists pass.now) handle → found ≡ handle) }
    ensures err { IfErr result (Refutes (IsKnown P.home (P.lists pass.now) handle)) }
{
    let table = match explore(alloc, pass, handle) {
        Ok(table) => table,
        Err(stop) => return Err(stop),
    };
    match find_set(rt, alloc, pass, &table, handle.entry) {
        Ok(found) => Ok(found),
        Err(stop) => Err(stop),
    }
}
