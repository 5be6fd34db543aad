//! Laws about terms: each holds for all values, and is cited by its contract.

ghost use Rattle.std.specs.Prelude.{ℕ, ℤ, ◌↔◌, List};
ghost use Rattle.pt_formula.specs.Formulas.{IsFormula, tree_of};
ghost use Rattle.pt_formula.specs.Truth.{Solutions};
ghost use Rattle.pt_terms.specs.declared.meaning.Sort.{Sort};
ghost use Rattle.pt_syntax.specs.Sizes.{size_within};
ghost use Rattle.pt_syntax.specs.declared.sexpr.SExpr.{SExpr as SExprValue};
ghost use Rattle.pt_terms.specs.Elaboration.{Work};
ghost use Rattle.pt_terms.specs.Names.{Env};
ghost use Rattle.pt_terms.specs.Gives.{Grows};
ghost use Rattle.pt_terms.specs.Sound.{IsEnvIn};
ghost use Rattle.pt_terms.specs.Free.{Nodes, IsWhole, AreTermsOver};
ghost use Rattle.pt_terms.specs.Keeps.{TermsKeep, ConjunctionsKeep};
ghost use Rattle.pt_terms.specs.Sorts.{AreSorted, AgreeBySort};
ghost use Rattle.pt_terms.specs.Numbers.{AddsAtMost, looks};
ghost use Rattle.pt_terms.specs.Terms.{term_within};

use pt_formula::laws::{
    appended_nodes_change_no_earlier_one, trees_are_made_of_those_of_the_children,
    truth_depends_on_oddness_alone,
};
use pt_syntax::laws::a_deeper_look_finds_no_less;

/// What a term stands for has no free variables but those of the names that it sees, and the nodes that it adds bind new variables alone,
/// or those that earlier nodes bind.
pub fn terms_are_over_the_names_that_they_see()
    ensures whole { (f : Nodes) → IsFormula f → IsWhole f }
    ensures terms { (f : Nodes) → IsFormula f → AreTermsOver f }
{
    appended_nodes_change_no_earlier_one();
    trees_are_made_of_those_of_the_children();
}

/// What names stand for stays in the range of the work while it grows.
pub fn names_stay_in_range()
    ensures { (v w : Work) (env : Env) → Grows v w → IsEnvIn v env → IsEnvIn w env }
{}

/// A term gives out at most one variable number for each leaf and each list that stands in it.
pub fn terms_give_out_few_numbers()
    ensures { (depth : ℕ) (env : Env) (e : SExprValue) → AddsAtMost (size_within (looks depth) e) (term_within depth env e) }
{
    a_deeper_look_finds_no_less();
}

/// From a well-formed formula on, over variables that have been given out, a term only adds to it and leaves it so, and what
/// the term stands for is in its range; and so does the conjunction of two nodes.
pub fn terms_keep_formulas_well_formed()
    ensures terms { TermsKeep }
    ensures conjunctions { ConjunctionsKeep }
{
    appended_nodes_change_no_earlier_one();
    trees_are_made_of_those_of_the_children();
}

/// Where each atom has terms of sort Int alone or is that of a variable of sort Bool, the solutions of a node depend on the oddness alone of
/// variables of sort Bool.
pub fn solutions_depend_on_oddness_alone()
    ensures { (f : Nodes) (given : List Sort) → AreSorted f given → (i : ℕ) (y z : List ℤ) → AgreeBySort given (tree_of f i) y z → Solutions (tree_of f i) y ↔ Solutions (tree_of f i) z }
{
    truth_depends_on_oddness_alone();
}
