ghost use Rattle.std.specs.Prelude.{◌≡◌, replicate, pos, IfOk};

use pt_digits::NoMemory;
use std::alloc::Global;
use std::marker::Model;

/// One coefficient for each track. A contract sees the list of the coefficients.
#[derive(Drop)]
pub struct Coefficients {
    items: Vec<i64>,
}

impl Model for Coefficients {
    ghost use Rattle.std.specs.Prelude.{List, ℤ};

    ghost Value = { List ℤ };

    ghost view = { λ c. c.items.items };
}

impl Coefficients {
    /// The coefficients in the vector.
    pub fn new(items: Vec<i64>) -> Coefficients
        ensures { result ≡ items.items }
    {
        Coefficients { items }
    }

    /// As many zeros as tracks.
    pub(crate) fn zeros(alloc: Global, tracks: usize) -> Result<Coefficients, NoMemory>
        ensures { IfOk result (λ c. c ≡ replicate tracks (pos 0)) }
    {
        let items = vec![in alloc; 0i64; tracks]?;
        Ok(Coefficients::new(items))
    }

    /// The coefficients as a slice.
    pub fn as_slice(&self) -> &[i64]
        ensures { result.now ≡ self.now }
    {
        self.items.as_slice()
    }

    /// A copy of the coefficients in the slice.
    pub(crate) fn copy_of(alloc: Global, coefficients: &[i64]) -> Result<Coefficients, NoMemory>
        ensures { IfOk result (λ c. c ≡ coefficients.now) }
    {
        let items = Vec::from_slice(alloc, coefficients)?;
        Ok(Coefficients::new(items))
    }
}
