// The nodes that a node reaches.
ghost use Rattle.std.specs.Prelude.{◌≡◌, ◌<◌, ◌^◌, ℕ, length, IfOk, IfErr, replicate, false};
ghost use Rattle.std.specs.List.{AllByRecursion};
ghost use Rattle.pt_formula.specs.Formulas.{children};
ghost use Rattle.pt_syntax.specs.Rest.{no_memory};
ghost use Rattle.pt_terms.specs.Copies.{marked_all};

use crate::elaborator::Elaborator;
use pt_formula::Node;
use pt_syntax::ReadRefusal;
use std::alloc::Global;

/// Marks the children of a node.
fn mark_children(marks: &mut Vec<bool>, node: &Node)
    requires { AllByRecursion (λ c. c < length marks.old.items) (children node.now) }
    ensures { marks.new.items ≡ marked_all marks.old.items (children node.now) }
{
    match node {
        Node::Not(a) | Node::Exists(_, a) => marks[*a as usize] = true,
        Node::And(a, b) | Node::Or(a, b) | Node::Iff(a, b) | Node::Xor(a, b) => {
            marks[*a as usize] = true;
            marks[*b as usize] = true;
        }
        Node::True | Node::False | Node::Atom { .. } => {}
    }
}

/// No mark.
fn no_marks(alloc: Global, count: usize) -> Result<Vec<bool>, ReadRefusal>
    ensures ok { IfOk result (λ v. v.items ≡ replicate count false) }
    ensures err { IfErr result (λ e. e ≡ no_memory) }
{
    Ok(vec![in alloc; false; count]?)
}

impl Elaborator {
    ghost use Rattle.std.specs.Prelude.{◌≡◌, ◌<◌, length, IfOk, IfErr};
    ghost use Rattle.pt_syntax.specs.Rest.{no_memory};
    ghost use Rattle.pt_terms.specs.Copies.{marks_of};

    /// The marks of the nodes that a node reaches, for each node up to it. Linear.
    pub(crate) fn marks(&self, alloc: Global, body: u32) -> Result<Vec<bool>, ReadRefusal>
        requires { body < length self.now.formula }
        ensures ok { IfOk result (λ v. v.items ≡ marks_of self.now.formula body) }
        ensures err { IfErr result (λ e. e ≡ no_memory) }
    {
        self.formula().is_formula();
        let mut marks = no_marks(alloc, body as usize + 1)?;
        marks[body as usize] = true;
        for k in 0..body + 1 {
            let i = body - k;
            if marks[i as usize] {
                mark_children(&mut marks, self.node(i));
            }
        }
        Ok(marks)
    }
}
