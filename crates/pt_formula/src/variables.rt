ghost use Rattle.std.specs.Prelude.{◌≡◌, ◌<◌, ◌≤◌, ◌++◌, [], length, map, IfOk};
ghost use Rattle.pt_formula.specs.Forms.{IsIncreasing};
ghost use Rattle.pt_formula.specs.Truth.{union, without};

use crate::Var;
use pt_digits::NoMemory;
use std::alloc::Global;
use std::cmp::Ordering;
use std::marker::Model;

/// Variables in increasing order. A contract sees the list of them.
#[derive(Drop)]
pub struct Variables {
    items: Vec<Var>,
}

impl Model for Variables {
    ghost use Rattle.std.specs.Prelude.{List, ℕ};

    ghost Value = { List ℕ };

    ghost view = { λ v. v.items.items };
}

impl Variables {
    /// How many there are.
    pub fn len(&self) -> usize
        ensures { result ≡ length self.now }
    {
        self.items.len()
    }

    /// The variables as a slice.
    pub fn as_slice(&self) -> &[Var]
        ensures { result.now ≡ self.now }
    {
        self.items.as_slice()
    }

    /// No variables.
    pub fn none(alloc: Global) -> Variables
        ensures { result ≡ [] }
    {
        Variables {
            items: Vec::new(alloc),
        }
    }

    /// A copy of the variables in the slice.
    pub fn copy_of(alloc: Global, variables: &[Var]) -> Result<Variables, NoMemory>
        ensures { IfOk result (λ v. v ≡ variables.now) }
    {
        let items = Vec::from_slice(alloc, variables)?;
        Ok(Variables { items })
    }

    /// The variables of the terms.
    pub fn of_terms(alloc: Global, terms: &[(Var, i64)]) -> Result<Variables, NoMemory>
        ensures { IfOk result (λ v. v ≡ map (λ t. t.0) terms.now) }
    {
        let items = terms.iter().map(|t| t.0).collect(alloc)?;
        Ok(Variables { items })
    }

    /// The variables other than one, by one pass.
    pub fn without(alloc: Global, variables: &[Var], left_out: Var) -> Result<Variables, NoMemory>
        ensures { IfOk result (λ v. v ≡ without left_out variables.now) }
    {
        let items = variables
            .iter()
            .copied()
            .filter(|v| left_out != *v)
            .collect(alloc)?;
        Ok(Variables { items })
    }

    /// The variables of two lists, merged by one pass.
    pub fn united(alloc: Global, a: &[Var], b: &[Var]) -> Result<Variables, NoMemory>
        requires a { IsIncreasing a.now }
        requires b { IsIncreasing b.now }
        ensures { IfOk result (λ v. v ≡ union a.now b.now) }
    {
        let mut items = Vec::new(alloc);
        let mut i = 0usize;
        let mut j = 0usize;
        while i < a.len() && j < b.len() {
            let v = a[i];
            let u = b[j];
            match v.cmp(&u) {
                Ordering::Less => {
                    items.push(v)?;
                    i += 1;
                }
                Ordering::Equal => {
                    items.push(v)?;
                    i += 1;
                    j += 1;
                }
                Ordering::Greater => {
                    items.push(u)?;
                    j += 1;
                }
            }
        }
        items.extend_from_slice(&a[i..])?;
        items.extend_from_slice(&b[j..])?;
        Ok(Variables { items })
    }
}
