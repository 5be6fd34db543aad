// The laws of costs and of orders at concrete values and sets.
ghost use Rattle.std.specs.Prelude.{◌≡◌, ℕ, [], ◌∷◌, List, length, pos};
ghost use Rattle.pt_sets.specs.Costs.{CostAbove, CostWithin, CostIs};
ghost use Rattle.pt_sets.specs.Words.{Vector};
ghost use Rattle.pt_sets.specs.Shortlex.{IsLeastMember};

use pt_sets::cost_laws::{GivesValues, a_cost_is_one_number, costs_exclude_each_other};
use pt_sets::order_laws::first_members_are_unique;
use pt_sets::set::TestsVectors;
use std::test::Fail;

/// The value of a list of letters is its length.
struct Lengths;

impl GivesValues for Lengths {
    ghost use Rattle.std.specs.Prelude.{◌≡◌, length};

    ghost same = { λ _ v w. length v ≡ length w };
}

/// The set of the number 0.
struct Zero;

impl TestsVectors for Zero {
    ghost use Rattle.std.specs.Prelude.{◌≡◌, [], ◌∷◌, pos};

    ghost contains = { λ _ z. z ≡ pos 0 ∷ [] };
}

/// The cost of lengths is one number, and not both over a bound and within it.
fn lengths_have_one_cost()
    ensures unique { (t B C : ℕ) → CostIs (λ v w. length v ≡ length w) t B → CostIs (λ v w. length v ≡ length w) t C → B ≡ C }
    ensures exclude { (t B : ℕ) → CostAbove (λ v w. length v ≡ length w) t B → CostWithin (λ v w. length v ≡ length w) t B → ⊥ }
{
    a_cost_is_one_number(&Lengths);
    costs_exclude_each_other(&Lengths);
}

/// The set of 0 has one least member.
fn zero_has_one_least_member()
    ensures { (y z : Vector) → IsLeastMember 1 (λ x. x ≡ pos 0 ∷ []) y → IsLeastMember 1 (λ x. x ≡ pos 0 ∷ []) z → y ≡ z }
{
    first_members_are_unique(&Zero);
}

#[test]
fn laws_hold_at_concrete_values(_rt: HostRuntime) -> Result<(), Fail> {
    lengths_have_one_cost();
    zero_has_one_least_member();
    Ok(())
}
