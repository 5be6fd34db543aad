// What is known of nodes.
ghost use Rattle.std.specs.Prelude.{◌≡◌};
ghost use Rattle.pt_eval.specs.Outcomes.{outcome_in};

use pt_formula::NodeId;
use pt_handles::Handle;
use std::collections::HashMap;

/// What is known of a node while a formula is evaluated.
#[derive(Clone, Copy)]
pub(crate) enum Outcome {
    /// Nothing yet.
    Pending,
    /// A known handle of its solutions, over its free variables; its cost and that of each descendant is within the bound.
    Known(Handle),
    /// Its cost is over the bound, and that of no descendant is.
    Costly,
    /// Some descendant is refused.
    LeftOut,
}

/// The outcomes of the nodes of which something is known, by their numbers.
pub(crate) type Outcomes = HashMap<NodeId, Outcome>;

/// What is known of a node.
pub(crate) fn outcome_of(outcomes: &Outcomes, node: NodeId) -> Outcome
    ensures { result ≡ outcome_in outcomes.now node }
{
    match outcomes.get(&node) {
        Some(outcome) => *outcome,
        None => Outcome::Pending,
    }
}
