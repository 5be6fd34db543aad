// Laws of projections, each proved of every set.
ghost use Rattle.std.specs.Prelude.{◌-◌, ℕ};
ghost use Rattle.pt_sets.specs.Costs.{RestrictsBy, SameFamily, CostAbove, CostWithin};
ghost use Rattle.pt_handles.specs.Handles.{SetOfHandle};
ghost use Rattle.pt_handles.specs.declared.handle.Handle.{Handle};
ghost use Rattle.pt_project.specs.Projecting.{SignClosureIsProjection, without};
ghost use Rattle.pt_project.specs.Families.{ClosingIsProjection};
ghost use Rattle.pt_project.specs.Caching.{GoodAnswersStayGood};

use pt_handles::longer_lists_know;
use pt_store::Codes;

/// Sign closure gives the projection: a word over the remaining tracks is accepted by it exactly where some integer can be
/// added to its vector. At a sign, as automata have it: the vector of the sign is in the projection of the set of a state
/// exactly where some path over letters that are the sign without the dropped track leads to an output at one more such letter.
pub fn sign_closures_are_projections()
    ensures words { SignClosureIsProjection }
    ensures signs { ClosingIsProjection }
{}

/// The number of families of residuals of a set, which a projection compares with its bound, is not both over a bound and
/// within it: an answer and a refusal for the number of states exclude each other.
pub fn family_costs_exclude_each_other<P: Codes>(pass: &P)
    ensures { (a : Handle) (track B : ℕ) →
        CostAbove (SameFamily (RestrictsBy a.tracks (without track)) a.tracks (SetOfHandle (P.lists pass.now) a)) (a.tracks - 1) B →
        CostWithin (SameFamily (RestrictsBy a.tracks (without track)) a.tracks (SetOfHandle (P.lists pass.now) a)) (a.tracks - 1) B → ⊥ }
{}

/// A memo whose answers are right for lists is right for longer ones: what they know stays known, with its set, and so the costs stay.
pub fn good_answers_stay_good()
    ensures { GoodAnswersStayGood }
{
    longer_lists_know();
}
