// Whether a set has a vector, and whether it has any.
ghost use Rattle.std.specs.Prelude.{◌≡◌, ◌↔◌, ◌<◌, ◌^◌, length, IsTrue};
ghost use Rattle.pt_handles.specs.Handles.{IsKnown, SetOfHandle};
ghost use Rattle.pt_query.specs.Queries.{IsEmptySet};
ghost use Rattle.pt_query.specs.Steps.{IsStill};

use crate::digits::{are_signs_behind, letter_at, letters};
use pt_handles::{Handle, output, same, step};
use pt_store::Codes;

/// Whether a handle has no output at a letter, and leads to itself by it.
fn is_still<P: Codes>(pass: &P, a: Handle, letter: u16) -> bool
    requires known { IsKnown P.home (P.lists pass.now) a }
    requires letter { letter < 2 ^ a.tracks }
    ensures { IsTrue result ↔ IsStill a.tracks (SetOfHandle (P.lists pass.now) a) letter }
{
    if output(pass, a, letter) {
        return false;
    }
    same(step(pass, a, letter), a)
}

/// Whether the set is empty: known handles of equal sets are equal, so the empty set is the one state that has no output
/// and whose successors are itself. Reads at most one row, in time of the letters, and takes no memory.
pub fn is_empty<P: Codes>(pass: &P, a: Handle) -> bool
    requires { IsKnown P.home (P.lists pass.now) a }
    ensures { IsTrue result ↔ IsEmptySet a.tracks (SetOfHandle (P.lists pass.now) a) }
{
    for letter in 0..letters(a.tracks) {
        if !is_still(pass, a, letter) {
            return false;
        }
    }
    true
}

/// Whether a vector is in the set. At most 128 steps, each in time of the tracks; takes no memory.
pub fn contains<P: Codes>(pass: &P, a: Handle, z: &[i128]) -> bool
    requires known { IsKnown P.home (P.lists pass.now) a }
    requires components { length z.now ≡ a.tracks }
    ensures { IsTrue result ↔ SetOfHandle (P.lists pass.now) a z.now }
{
    let mut reached = a;
    let mut k = 0;
    while !are_signs_behind(z, k) {
        reached = step(pass, reached, letter_at(z, k));
        k += 1;
    }
    output(pass, reached, letter_at(z, k))
}
