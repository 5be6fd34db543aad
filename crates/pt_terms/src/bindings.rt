// Names that are bound in a term.
ghost use Rattle.std.specs.Prelude.{◌≡◌, ◌<◌, ◌≤◌, [], ◌∷◌, ◌++◌, ◌-◌, List, length, map, drop, option_copied, slice_get, reverse, Some, IfOk, OnOk};
ghost use Rattle.pt_grammar.specs.Words.{Name};

use crate::arithmetic::copy_of_bound;
use crate::meaning::Bound;
use crate::numbering::number_of;
use indexmap::IndexSet;
use pt_digits::NoMemory;
use std::alloc::Global;
use std::marker::Model;

/// A bound name by its number, what it stands for, and the place of the binding that it hides.
#[derive(Drop)]
struct Binding {
    name: usize,
    stands_for: Bound,
    hidden: Option<usize>,
}

/// Bound names with what they stand for; a contract sees the innermost first. Names have numbers, and of each number the place of its newest
/// binding is kept, so a look-up is one hash, and so are adding and taking away a binding.
#[derive(Drop)]
pub struct Bindings {
    names: IndexSet<Vec<u8>>,
    newest: Vec<Option<usize>>,
    stack: Vec<Binding>,
}

impl Model for Bindings {
    ghost use Rattle.std.specs.Prelude.{List};
    ghost use Rattle.pt_grammar.specs.Words.{Name};
    ghost use Rattle.pt_terms.specs.declared.meaning.Bound.{Bound};

    ghost Value = { List (Name × Bound) };

    ghost use Rattle.pt_terms.specs.Bindings.{shown, AreIndexed};

    ghost view = { shown };

    ghost invariant = { AreIndexed };
}

impl Bindings {
    ghost use Rattle.pt_terms.specs.Names.{find_bound};
    ghost use Rattle.pt_grammar.specs.Words.{is_among};

    /// No names.
    pub fn new(alloc: Global) -> Bindings
        ensures { result ≡ [] }
    {
        Bindings {
            names: IndexSet::new(alloc),
            newest: Vec::new(alloc),
            stack: Vec::new(alloc),
        }
    }

    /// How many names are bound, hidden ones too.
    pub fn len(&self) -> usize
        ensures { result ≡ length self.now }
    {
        self.stack.len()
    }

    /// What the name stands for, by one hash.
    pub(crate) fn find(&self, name: &[u8]) -> Option<&Bound>
        ensures { option_copied result ≡ find_bound self.now name.now }
    {
        match self.names.get_full(name) {
            Some((number, _)) => match self.newest[number] {
                Some(place) => Some(&self.stack[place].stands_for),
                None => None,
            },
            None => None,
        }
    }

    /// Whether the name is bound, by one hash.
    #[tactic(auto, using(crate::proofs::BoundNames::has_found))]
    pub(crate) fn has(&self, name: &[u8]) -> bool
        ensures { result ≡ is_among name.now (map (λ b. b.0) self.now) }
    {
        match self.find(name) {
            Some(_) => true,
            None => false,
        }
    }

    /// Binds a name, which hides an earlier binding of it.
    pub fn push(&mut self, alloc: Global, name: &[u8], stands_for: Bound) -> Result<(), NoMemory>
        ensures { OnOk result (self.new ≡ (name.now, stands_for) ∷ self.old) }
    {
        let number = number_of(alloc, &mut self.names, &mut self.newest, name)?;
        let hidden = self.newest[number];
        let place = self.stack.len();
        let binding = Binding {
            name: number,
            stands_for,
            hidden,
        };
        self.stack.push(binding)?;
        self.newest[number] = Some(place);
        Ok(())
    }

    /// Takes the innermost binding away.
    fn pop(&mut self)
        requires { 0 < length self.old }
        ensures { self.new ≡ drop 1 self.old }
    {
        match self.stack.pop() {
            Some(binding) => {
                self.newest[binding.name] = binding.hidden;
            }
            None => {}
        }
    }

    /// Takes the innermost bindings away, up to the number that stays.
    pub(crate) fn truncate(&mut self, len: usize)
        requires { len ≤ length self.old }
        ensures { self.new ≡ drop (length self.old - len) self.old }
    {
        while self.len() > len {
            self.pop();
        }
    }

    /// The name at a place, and what it stands for, of the outermost first.
    fn entry(&self, place: usize) -> (&[u8], &Bound)
        requires { place < length self.now }
        ensures { slice_get (reverse self.now) place ≡ Some (result.0.now, result.1.now) }
    {
        let binding = &self.stack[place];
        (self.names[binding.name].as_slice(), &binding.stands_for)
    }

    /// Binds all these names, in their order.
    pub(crate) fn append(&mut self, alloc: Global, inner: &Bindings) -> Result<(), NoMemory>
        ensures { OnOk result (self.new ≡ inner.now ++ self.old) }
    {
        for place in 0..inner.len() {
            let (name, stands_for) = inner.entry(place);
            let copy = copy_of_bound(alloc, stands_for)?;
            self.push(alloc, name, copy)?;
        }
        Ok(())
    }
}
