// Laws of products, each proved of every pair of sets.
ghost use Rattle.std.specs.Prelude.{ℕ, List};
ghost use Rattle.pt_sets.specs.Costs.{SamePair, CostAbove, CostWithin};
ghost use Rattle.pt_sets.specs.Restricting.{widened};
ghost use Rattle.pt_handles.specs.Handles.{SetOfHandle};
ghost use Rattle.pt_handles.specs.declared.handle.Handle.{Handle};
ghost use Rattle.pt_product.specs.Caching.{GoodAnswersStayGood};

use pt_handles::longer_lists_know;
use pt_store::Codes;

/// The number of pairs of residuals of two sets, which `combine` compares with its bound, is not both over a bound and
/// within it: an answer and a refusal for the number of states exclude each other.
pub fn pair_costs_exclude_each_other<P: Codes>(pass: &P)
    ensures { (a b : Handle) (map_a map_b : List ℕ) (tracks B : ℕ) →
        CostAbove (SamePair tracks (widened map_a (SetOfHandle (P.lists pass.now) a)) (widened map_b (SetOfHandle (P.lists pass.now) b))) tracks B →
        CostWithin (SamePair tracks (widened map_a (SetOfHandle (P.lists pass.now) a)) (widened map_b (SetOfHandle (P.lists pass.now) b))) tracks B → ⊥ }
{}

/// A memo whose answers are right for lists is right for longer ones: what they know stays known, with its set, and so the costs stay.
pub fn good_answers_stay_good()
    ensures { GoodAnswersStayGood }
{
    longer_lists_know();
}
