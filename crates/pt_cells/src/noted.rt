// The notes of the cells that a pass walked.
ghost use Rattle.std.specs.Prelude.{◌≡◌, map, IfOk};
ghost use Rattle.pt_shards.specs.Shards.{Agree};
ghost use Rattle.pt_cells.specs.Seeing.{NamesAgree};

use crate::walked::Walked;
use pt_code::NoMemory;
use std::alloc::Global;

/// Compares the notes of two passes cell by cell: one cell shows one code. Takes no memory.
pub(crate) fn compare_all(one: &mut Vec<Walked>, other: &mut Vec<Walked>)
    requires { NamesAgree (map (λ w. w.0) one.old.items) (map (λ w. w.0) other.old.items) }
    ensures same { (one.new.items ≡ one.old.items) × (other.new.items ≡ other.old.items) }
    ensures agree { Agree (map (λ w. w.1) one.old.items) (map (λ w. w.1) other.old.items) }
{
    for k in 0..one.len().min(other.len()) {
        one[k].compare(&mut other[k]);
    }
}

/// Other notes of the same cells. The loop writes into room that is there and does nothing else, so that it costs little more
/// than the bytes.
pub(crate) fn notes_again(alloc: Global, walked: &mut Vec<Walked>) -> Result<Vec<Walked>, NoMemory>
    ensures same { walked.new.items ≡ walked.old.items }
    ensures ok { IfOk result (λ all. all.items ≡ walked.old.items) }
{
    let mut all = Vec::with_capacity(alloc, walked.len())?;
    for k in 0..walked.len() {
        all.push_reserved(walked[k].again());
    }
    Ok(all)
}
