// What commands speak of, as sets of vectors: laws on sets are called with these.
use pt_read::{Predicate, Scope};
use pt_sets::set::TestsVectors;

/// The set of a predicate over its parameters.
#[derive(Clone, Copy)]
pub(crate) struct PredicateSet<'a> {
    pub(crate) scope: &'a Scope,
    pub(crate) predicate: &'a Predicate,
}

impl<'a> TestsVectors for PredicateSet<'a> {
    ghost use Rattle.pt_script.specs.Step.{set_of};

    ghost contains = { λ p z. set_of p.scope.now p.predicate.now z };
}

/// The solutions of the conjunction of the assertions.
#[derive(Clone, Copy)]
pub(crate) struct ConjunctionSet<'a> {
    pub(crate) scope: &'a Scope,
}

impl<'a> TestsVectors for ConjunctionSet<'a> {
    ghost use Rattle.pt_script.specs.Step.{ConjunctionHolds};

    ghost contains = { λ c z. ConjunctionHolds c.scope.now z };
}
