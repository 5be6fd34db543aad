// Arguments in the places of parameters.
ghost use Rattle.std.specs.Prelude.{◌≡◌, option_map, map};
ghost use Rattle.pt_terms.specs.Theory.{replacement};

use crate::arithmetic::form_of_variable;
use crate::elaborator::Elaborator;
use crate::meaning::Meaning;
use pt_formula::{Form, Position};
use pt_syntax::ReadRefusal;
use std::alloc::Global;

/// A parameter, and the argument that replaces it.
pub(crate) type Replacement<'a> = (u32, &'a Meaning);

/// The argument that replaces a variable, if one does. Linear in the parameters.
pub(crate) fn replacement<'a>(replacements: &[Replacement<'a>], v: u32) -> Option<&'a Meaning>
    ensures { option_map (λ m. m.now) result ≡ replacement (map (λ r. (r.0, r.1.now)) replacements.now) v }
{
    for r in replacements {
        if r.0 == v {
            return Some(r.1);
        }
    }
    None
}

/// Steps that only look.
impl Elaborator {
    ghost use Rattle.std.specs.Prelude.{◌≡◌, IfOk, map};
    ghost use Rattle.pt_terms.specs.declared.meaning.Sort.TheVariants as sort;
    ghost use Rattle.pt_terms.specs.Theory.{substituted};
    ghost use Rattle.pt_terms.specs.Copies.{added};
    ghost use Rattle.pt_terms.specs.Gives.{Gives};
    ghost use Rattle.pt_terms.specs.Sorts.{HasSort, AreIntegers};
    ghost use Rattle.pt_terms.specs.Sound.{IsFormOver, AreReplacing};

    /// A term with the form in the place of its variable, added to a form.
    fn added(
        &self,
        alloc: Global,
        at: Position,
        replacements: &[Replacement<'_>],
        so_far: &Form,
        term: (u32, i64),
    ) -> Result<Form, ReadRefusal>
        requires replacements { AreReplacing self.now (map (λ r. (r.0, r.1.now)) replacements.now) }
        requires so_far { IsFormOver self.now.given so_far.now }
        requires term { HasSort self.now.given term.0 sort.Int }
        ensures gives { Gives (λ f. f) result self.now self.now (added at (map (λ r. (r.0, r.1.now)) replacements.now) so_far.now term) }
        ensures range { IfOk result (IsFormOver self.now.given) }
    {
        let (v, by) = term;
        match replacement(replacements, v) {
            Some(Meaning::Int(f)) => {
                let g = self.scale(alloc, by, f, at)?;
                self.sum(alloc, so_far, &g, at)
            }
            Some(Meaning::Bool(_)) => unreachable!(),
            None => {
                let f = form_of_variable(alloc, v)?;
                let g = self.scale(alloc, by, &f, at)?;
                self.sum(alloc, so_far, &g, at)
            }
        }
    }

    /// The terms with forms in the places of the parameters, added up behind a form.
    pub(crate) fn substituted(
        &self,
        alloc: Global,
        at: Position,
        replacements: &[Replacement<'_>],
        first: Form,
        terms: &[(u32, i64)],
    ) -> Result<Form, ReadRefusal>
        requires replacements { AreReplacing self.now (map (λ r. (r.0, r.1.now)) replacements.now) }
        requires first { IsFormOver self.now.given first }
        requires terms { AreIntegers self.now.given terms.now }
        ensures gives { Gives (λ f. f) result self.now self.now (substituted at (map (λ r. (r.0, r.1.now)) replacements.now) first terms.now) }
        ensures range { IfOk result (IsFormOver self.now.given) }
    {
        let mut so_far = first;
        for t in terms {
            match self.added(alloc, at, replacements, &so_far, *t) {
                Ok(next) => so_far = next,
                Err(refusal) => return Err(refusal),
            }
        }
        Ok(so_far)
    }
}
