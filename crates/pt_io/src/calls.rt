ghost use Rattle.std.specs.Prelude.{◌≡◌, ◌==◌, if◌then◌else◌, ◌||◌};
ghost use Rattle.std.specs.List.{list_any};
ghost use Rattle.pt_io.specs.Memory.{counted};

/// Which calls of a device over memory fail, by their number from 0, and how many bytes another
/// call moves at most. Both counts stay at their greatest value.
#[derive(Drop)]
pub struct Calls {
    pub per_call: usize,
    pub failing: Vec<u64>,
    pub made: u64,
    pub faults: u64,
}

impl Calls {
    pub fn new(per_call: usize, failing: Vec<u64>) -> Self
        ensures { result ≡ record { per_call = per_call; failing = failing; made = 0; faults = 0 } }
    {
        Calls {
            per_call,
            failing,
            made: 0,
            faults: 0,
        }
    }

    /// Counts a call: whether it fails, by its number or because it cannot be met. The cost is a
    /// walk over the numbers of failing calls.
    pub fn fails(&mut self, cannot: bool) -> bool
        ensures answer { result ≡ (cannot || list_any (λ n. n == self.old.made) self.old.failing.items) }
        ensures made { self.new.made ≡ counted self.old.made }
        ensures faults { self.new.faults ≡ (if result then counted self.old.faults else self.old.faults) }
        ensures failing { self.new.failing.items ≡ self.old.failing.items }
        ensures per_call { self.new.per_call ≡ self.old.per_call }
    {
        let fails = cannot || self.failing.contains(&self.made);
        self.made = self.made.saturating_add(1);
        if fails {
            self.faults = self.faults.saturating_add(1);
        }
        fails
    }
}
