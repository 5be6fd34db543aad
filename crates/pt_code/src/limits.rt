// Limits on the places where searches may meet states.
ghost use Rattle.std.specs.Prelude.{◌≡◌, ℕ, ◌+◌, ◌*◌, ◌<◌, ◌≤◌};
ghost use Rattle.pt_code.specs.Limiting.{AreLimits};

use crate::bounds::Bound;

/// The least place at which a bound does not tell that a high state comes within the run.
fn limit_of(bound: Bound, run: usize) -> u32
    requires run { run ≤ 65536 }
    ensures soon { (n : ℕ) → n < result → n * bound.weight + bound.offset < run }
    ensures high { bound ≡ record { weight = 1; offset = 0 } → result ≡ run }
{
    let (weight, offset) = (bound.weight as usize, bound.offset as usize);
    if weight == 0 || run <= offset {
        return 0;
    }
    ((run - offset - 1) / weight + 1) as u32
}

/// The run to be used: none where it is short, since limits take a pass over all states, and without them only so many rows
/// more are read from each entry.
pub(crate) fn run_to_use(run: usize) -> usize
    ensures { result ≤ run }
{
    if run < 16 { 0 } else { run }
}

/// Sets the limit of each state, below which its bound tells that a high state comes within the run. They were those for
/// another run, or for the same.
pub(crate) fn set_limits(bounds: &[Bound], before: usize, run: usize, limits: &mut Vec<u32>)
    requires run { run ≤ 65536 }
    requires before { AreLimits bounds.now before limits.old.items }
    ensures { AreLimits bounds.now run limits.new.items }
{
    if run == before {
        return;
    }
    for (state, bound) in bounds.iter().enumerate() {
        limits[state] = limit_of(*bound, run);
    }
}
