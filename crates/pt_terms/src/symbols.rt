// The live names, by a hash.
ghost use Rattle.std.specs.Prelude.{◌≡◌, ◌≤◌, [], ◌∷◌, ◌++◌, length, filter, take, nat_le, false, option_map, OnOk, OnErr};
ghost use Rattle.std.specs.List.{AllByRecursion};
ghost use Rattle.pt_terms.specs.Symbols.{shown_use, constant_count};

use crate::meaning::{Meaning, Sort};
use crate::parameters::Parameters;
use crate::sorts::Sorts;
use indexmap::IndexMap;
use pt_digits::NoMemory;
use std::alloc::Global;
use std::marker::Model;

/// What a live name stands for: a constant's variable and its sort, or the parameters of a definition, their sorts and its meaning.
#[derive(Drop)]
pub enum Use {
    Constant(u32, Sort),
    Definition(Parameters, Sorts, Meaning),
}

/// What a live name stands for, and the level that made it.
#[derive(Drop)]
struct Live {
    stands_for: Use,
    level: u128,
}

impl Live {
    /// One for a constant, else none.
    fn constants(&self) -> usize
        ensures { result ≡ constant_count (shown_use self.now.stands_for) }
    {
        match self.stands_for {
            Use::Constant(..) => 1,
            Use::Definition(..) => 0,
        }
    }
}

/// The live names in order, the newest last, with what they stand for and the levels that made them. No name is there twice.
#[derive(Drop)]
pub struct Symbols {
    entries: IndexMap<Vec<u8>, Live>,
}

impl Model for Symbols {
    ghost use Rattle.std.specs.Prelude.{List};
    ghost use Rattle.pt_terms.specs.Names.{Symbol};

    ghost Value = { List Symbol };

    ghost use Rattle.pt_terms.specs.Symbols.{shown, HasOrder};

    ghost view = { shown };

    ghost invariant = { HasOrder };
}

impl Symbols {
    ghost use Rattle.pt_terms.specs.Names.{Symbol, find_symbol, is_live, constants_in};

    /// No names.
    pub fn new(alloc: Global) -> Symbols
        ensures { result ≡ [] }
    {
        Symbols {
            entries: IndexMap::new(alloc),
        }
    }

    /// How many names there are.
    pub fn len(&self) -> usize
        ensures { result ≡ length self.now }
    {
        self.entries.len()
    }

    /// What the name stands for, by one hash.
    pub fn find(&self, name: &[u8]) -> Option<&Use>
        ensures { option_map (λ u. shown_use u.now) result ≡ find_symbol self.now name.now }
    {
        match self.entries.get(name) {
            Some(live) => Some(&live.stands_for),
            None => None,
        }
    }

    /// One more name, by one hash. Where memory runs out nothing changes.
    pub fn push(&mut self, name: Vec<u8>, stands_for: Use, level: u128) -> Result<(), NoMemory>
        requires new { is_live self.old name.items ≡ false }
        requires level { AllByRecursion (λ (s : Symbol). s.level ≤ level) self.old }
        ensures ok { OnOk result (self.new ≡ self.old ++ record { name = name.items; stands_for = shown_use stands_for; level = level } ∷ []) }
        ensures err { OnErr result (self.new ≡ self.old) }
    {
        match self.entries.insert(name, Live { stands_for, level }) {
            Ok(_) => Ok(()),
            Err(_) => Err(NoMemory),
        }
    }

    /// Takes away the names of higher levels, in constant time for each.
    pub fn truncate(&mut self, level: u128)
        ensures { self.new ≡ filter (λ (s : Symbol). nat_le s.level level) self.old }
    {
        let kept = self.count_up_to(level);
        self.entries.truncate(kept);
    }

    /// How many names are of this level or lower ones.
    fn count_up_to(&self, level: u128) -> usize
        ensures { filter (λ (s : Symbol). nat_le s.level level) self.now ≡ take result self.now }
    {
        let mut kept = self.entries.len();
        while kept > 0 {
            match self.entries.get_index(kept - 1) {
                Some((_, live)) if live.level > level => kept -= 1,
                _ => break,
            }
        }
        kept
    }

    /// How many constants are of this level or lower ones, where there are so many in all; in constant time for each of the others.
    pub fn constants_up_to(&self, level: u128, constants: usize) -> usize
        requires { constants ≡ length (constants_in self.now) }
        ensures front { constants_in (filter (λ (s : Symbol). nat_le s.level level) self.now) ≡ take result (constants_in self.now) }
    {
        let mut kept = self.entries.len();
        let mut left = constants;
        while kept > 0 {
            match self.entries.get_index(kept - 1) {
                Some((_, live)) if live.level > level => {
                    kept -= 1;
                    left -= live.constants();
                }
                _ => break,
            }
        }
        left
    }

    /// Takes all names away.
    pub fn clear(&mut self)
        ensures { self.new ≡ [] }
    {
        self.entries.clear();
    }
}
