//! The laws cited at one formula: there is an integer whose double is x. What is tested is proved; running shows no more.
ghost use Rattle.std.specs.Prelude.{◌≡◌, ◌⊎◌, ◌≤◌, ℕ, ℤ, pos, List, [], ◌∷◌, length, unsigned_abs};
ghost use Rattle.std.specs.List.{AllByRecursion};
ghost use Rattle.pt_sets.specs.Costs.{CostIs, SameResidual};
ghost use Rattle.pt_sets.specs.Shortlex.{IsFirstMembers};
ghost use Rattle.pt_formula.specs.Truth.{Holds, Solutions, Widened, free_variables, updated};
ghost use Rattle.pt_formula.specs.Costs.{TreeCostAbove, TreeCostWithin, IsRefused, NoneRefused};
ghost use Rattle.pt_formula.specs.Formulas.{start, IsFormula};
ghost use Rattle.pt_truth.specs.Examples.{doubled, even};

use crate::laws::{
    costs_are_decided, facts_on_solutions_are_decided, refusals_are_decided,
    residuals_are_a_number, solutions_have_first_ones, truth_is_decided, what_cannot_fail_holds,
};

fn three_is_even_or_not()
    ensures { Holds even (λ v. pos 3) ⊎ (¬ Holds even (λ v. pos 3)) }
{
    truth_is_decided();
}

fn a_half_that_cannot_be_missing_is_there()
    ensures { (¬ (¬ Holds even (λ v. pos 4))) → (k : ℤ) × Holds doubled (updated (λ v. pos 4) 1 k) }
{
    what_cannot_fail_holds();
}

fn three_families_or_more_than_two()
    ensures { TreeCostAbove even 2 ⊎ TreeCostWithin even 2 }
{
    costs_are_decided();
}

fn even_numbers_are_bounded_or_not()
    ensures { ((bound : ℕ) × ((z : List ℤ) → length z ≡ 1 → Widened (0 ∷ []) (free_variables even) (Solutions even) z → AllByRecursion (λ x. unsigned_abs x ≤ bound) z))
        ⊎ (¬ ((bound : ℕ) × ((z : List ℤ) → length z ≡ 1 → Widened (0 ∷ []) (free_variables even) (Solutions even) z → AllByRecursion (λ x. unsigned_abs x ≤ bound) z))) }
{
    facts_on_solutions_are_decided();
}

fn even_numbers_have_residuals()
    ensures { (n : ℕ) × CostIs (SameResidual 1 (Widened (0 ∷ []) (free_variables even) (Solutions even))) 1 n }
{
    residuals_are_a_number();
}

fn even_numbers_have_a_first_ten()
    ensures { (zs : List (List ℤ)) × IsFirstMembers 1 (Widened (0 ∷ []) (free_variables even) (Solutions even)) 10 zs }
{
    solutions_have_first_ones();
}

fn the_first_node_is_refused_or_not()
    ensures { IsFormula start → NoneRefused start (0 ∷ []) 1 ⊎ ((i : ℕ) × IsRefused start (0 ∷ []) 1 i) }
{
    refusals_are_decided();
}

#[test]
fn laws_at_even_numbers() {
    three_is_even_or_not();
    a_half_that_cannot_be_missing_is_there();
    three_families_or_more_than_two();
    even_numbers_are_bounded_or_not();
    even_numbers_have_residuals();
    even_numbers_have_a_first_ten();
    the_first_node_is_refused_or_not();
}
