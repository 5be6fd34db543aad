// Applications of definitions.
ghost use Rattle.std.specs.Prelude.{◌≡◌, length, map, IfOk};
ghost use Rattle.pt_terms.specs.declared.meaning.Meaning.{Meaning as MeaningValue};
ghost use Rattle.pt_terms.specs.Gives.{Says};
ghost use Rattle.pt_terms.specs.Theory.{of_sort, replacements};

use crate::arithmetic::{Argument, form_of_number};
use crate::elaborator::Elaborator;
use crate::meaning::{Meaning, Sort};
use crate::refusals::refused;
use crate::replacing::Replacement;
use pt_syntax::{Position, ReadKind, ReadRefusal};
use std::alloc::Global;

/// That a meaning has a sort.
pub fn of_sort(sort: Sort, at: Position, meaning: &Meaning) -> Result<(), ReadRefusal>
    ensures { Says (λ _. meaning.now) result (of_sort sort at meaning.now) }
{
    if sort.is(meaning.sort()) {
        Ok(())
    } else {
        Err(refused(ReadKind::Sort, at))
    }
}

/// The parameters with their arguments, each of which is to have its parameter's sort.
fn replacements<'a>(
    alloc: Global,
    parameters: &[u32],
    sorts: &[Sort],
    arguments: &'a [Argument],
) -> Result<Vec<Replacement<'a>>, ReadRefusal>
    requires parameters { length parameters.now ≡ length arguments.now }
    requires sorts { length sorts.now ≡ length arguments.now }
    ensures { Says (λ v. map (λ r. (r.0, r.1.now)) v.items) result (replacements parameters.now sorts.now arguments.now) }
{
    let mut found = Vec::new(alloc);
    for i in 0..arguments.len() {
        let argument = &arguments[i];
        match of_sort(sorts[i], argument.0, &argument.1) {
            Ok(()) => found.push((parameters[i], &argument.1))?,
            Err(refusal) => return Err(refusal),
        }
    }
    Ok(found)
}

impl Elaborator {
    ghost use Rattle.std.specs.Prelude.{◌≡◌, length, IfOk, map, All};
    ghost use Rattle.pt_terms.specs.Theory.{Argument, instance_of, call};
    ghost use Rattle.pt_terms.specs.Gives.{Gives, Grows};
    ghost use Rattle.pt_terms.specs.Sorts.{HaveSorts};
    ghost use Rattle.pt_terms.specs.Sound.{IsMeaningIn, AreReplacing};

    /// The meaning with arguments in the places of the parameters.
    fn instance(
        &mut self,
        alloc: Global,
        at: Position,
        replacements: &[Replacement<'_>],
        meaning: &Meaning,
    ) -> Result<Meaning, ReadRefusal>
        requires meaning { IsMeaningIn self.old meaning.now }
        requires replacements { AreReplacing self.old (map (λ r. (r.0, r.1.now)) replacements.now) }
        ensures gives { Gives (λ m. m) result self.old self.new (instance_of at (map (λ r. (r.0, r.1.now)) replacements.now) meaning.now) }
        ensures range { IfOk result (IsMeaningIn self.new) }
        ensures grows { Grows self.old self.new }
    {
        match meaning {
            Meaning::Int(f) => {
                let first = form_of_number(alloc, f.constant);
                let terms = f.terms.as_slice();
                let g = self.substituted(alloc, at, replacements, first, terms)?;
                Ok(Meaning::Int(g))
            }
            Meaning::Bool(i) => {
                let j = self.copy(alloc, at, replacements, *i)?;
                Ok(Meaning::Bool(j))
            }
        }
    }

    /// The meaning of a definition with arguments in the places of its parameters, all at once. Another number of arguments is refused with
    /// Sort at the term, then an argument of another sort than its parameter's. The nodes that the definition reaches are copied in order of
    /// their numbers, in time linear in the number of its node, in the copied nodes and, for each of their terms, in the parameters.
    pub(crate) fn call(
        &mut self,
        alloc: Global,
        at: Position,
        parameters: &[u32],
        sorts: &[Sort],
        meaning: &Meaning,
        arguments: &[Argument],
    ) -> Result<Meaning, ReadRefusal>
        requires meaning { IsMeaningIn self.old meaning.now }
        requires sorts { HaveSorts self.old.given parameters.now sorts.now }
        requires arguments { All (λ (a : Argument). IsMeaningIn self.old a.1) arguments.now }
        ensures gives { Gives (λ m. m) result self.old self.new (call at (parameters.now, sorts.now, meaning.now) arguments.now) }
        ensures range { IfOk result (IsMeaningIn self.new) }
        ensures grows { Grows self.old self.new }
    {
        if arguments.len() != parameters.len() {
            return Err(refused(ReadKind::Sort, at));
        }
        let found = replacements(alloc, parameters, sorts, arguments)?;
        self.instance(alloc, at, found.as_slice(), meaning)
    }
}
