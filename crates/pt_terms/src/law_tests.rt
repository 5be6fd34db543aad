//! The laws cited at one term, `(not false)`, over node 0 alone. What is tested is proved; running shows no more.
ghost use Rattle.pt_terms.specs.Sound.{IsMeaningIn};
ghost use Rattle.pt_terms.specs.Terms.{term};
ghost use Rattle.pt_terms.specs.Keeps.{IsNodeIn, Keeps};
ghost use Rattle.pt_terms.specs.Elaboration.{make};
ghost use Rattle.pt_formula.specs.declared.node.Node.TheVariants as node;
ghost use Rattle.pt_terms.specs.Examples.{beginning, nothing_named, place, negation};

use crate::laws::terms_keep_formulas_well_formed;

fn a_negation_keeps_node_0_well_formed()
    ensures term { Keeps (λ m w. IsMeaningIn w m) (term nothing_named negation) beginning }
    ensures conjunction { Keeps IsNodeIn (make (node.And 0 0) place) beginning }
{
    terms_keep_formulas_well_formed();
}

#[test]
fn laws_at_a_negation() {
    a_negation_keeps_node_0_well_formed();
}
