// What an operation gave, and its cost.
ghost use Rattle.std.specs.Prelude.{◌≡◌, ◌<◌, ◌≤◌, Some, None};

/// What an operation gave, and its cost: the number that a bound is compared with.
#[derive(Clone, Copy, Debug, PartialEq, Eq)]
pub struct Answer<V> {
    pub value: V,
    pub cost: u32,
}

impl<V: Copy> Answer<V> {
    /// What the operation gave, where its cost is at most the bound.
    pub fn within(self, bound: u32) -> Option<V>
        ensures within { self.cost ≤ bound → result ≡ Some self.value }
        ensures above { bound < self.cost → result ≡ None }
    {
        if self.cost <= bound {
            Some(self.value)
        } else {
            None
        }
    }
}
