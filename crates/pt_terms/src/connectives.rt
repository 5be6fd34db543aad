// Connectives.
use crate::elaborator::Elaborator;
use pt_formula::{Op, Position};
use pt_syntax::ReadRefusal;
use std::alloc::Global;

impl Elaborator {
    ghost use Rattle.std.specs.Prelude.{◌≡◌, ◌<◌, length, IfOk, All};
    ghost use Rattle.pt_formula.specs.Formulas.{op_node};
    ghost use Rattle.pt_terms.specs.Theory.{join, implication, choice};
    ghost use Rattle.pt_terms.specs.Chains.{implied, implied_by};
    ghost use Rattle.pt_terms.specs.Gives.{Gives, Grows};

    /// The nodes joined by an operation, from the left.
    #[tactic(auto, using(crate::proofs::Ranges::ranges))]
    pub(crate) fn join(
        &mut self,
        alloc: Global,
        op: Op,
        at: Position,
        first: u32,
        rest: &[u32],
    ) -> Result<u32, ReadRefusal>
        requires first { first < length self.old.formula }
        requires rest { All (λ i. i < length self.old.formula) rest.now }
        ensures gives { Gives (λ i. i) result self.old self.new (join (op_node op) at first rest.now) }
        ensures range { IfOk result (λ i. i < length self.new.formula) }
        ensures grows { Grows self.old self.new }
    {
        let mut so_far = first;
        for i in rest {
            so_far = self.binary(alloc, op, so_far, *i, at)?;
        }
        Ok(so_far)
    }

    /// That a node implies another.
    fn implied_next(
        &mut self,
        alloc: Global,
        at: Position,
        a: u32,
        b: u32,
    ) -> Result<u32, ReadRefusal>
        requires a { a < length self.old.formula }
        requires b { b < length self.old.formula }
        ensures gives { Gives (λ i. i) result self.old self.new (implied at a b) }
        ensures range { IfOk result (λ i. i < length self.new.formula) }
        ensures grows { Grows self.old self.new }
    {
        let n = self.not(alloc, a, at)?;
        self.binary(alloc, Op::Or, n, b, at)
    }

    /// That all these nodes imply the last one, from the right.
    #[tactic(auto, using(crate::proofs::Ranges::ranges))]
    fn implied_by(
        &mut self,
        alloc: Global,
        at: Position,
        nodes: &[u32],
        last: u32,
    ) -> Result<u32, ReadRefusal>
        requires nodes { All (λ i. i < length self.old.formula) nodes.now }
        requires last { last < length self.old.formula }
        ensures gives { Gives (λ i. i) result self.old self.new (implied_by at nodes.now last) }
        ensures range { IfOk result (λ i. i < length self.new.formula) }
        ensures grows { Grows self.old self.new }
    {
        let mut so_far = last;
        let mut left = nodes.len();
        while left > 0 {
            left -= 1;
            match self.implied_next(alloc, at, nodes[left], so_far) {
                Ok(next) => so_far = next,
                Err(refusal) => return Err(refusal),
            }
        }
        Ok(so_far)
    }

    /// That the first implies what the others give, from the right.
    #[tactic(auto, using(crate::proofs::Ranges::ranges, crate::proofs::Chaining::implication_back))]
    pub(crate) fn implication(
        &mut self,
        alloc: Global,
        at: Position,
        first: u32,
        rest: &[u32],
    ) -> Result<u32, ReadRefusal>
        requires first { first < length self.old.formula }
        requires rest { All (λ i. i < length self.old.formula) rest.now }
        ensures gives { Gives (λ i. i) result self.old self.new (implication at first rest.now) }
        ensures range { IfOk result (λ i. i < length self.new.formula) }
        ensures grows { Grows self.old self.new }
    {
        match rest.split_last() {
            None => Ok(first),
            Some((last, front)) => {
                let c = self.implied_by(alloc, at, front, *last)?;
                self.implied_next(alloc, at, first, c)
            }
        }
    }

    /// The second where the first holds, and else the third.
    pub(crate) fn choice(
        &mut self,
        alloc: Global,
        at: Position,
        c: u32,
        a: u32,
        b: u32,
    ) -> Result<u32, ReadRefusal>
        requires c { c < length self.old.formula }
        requires a { a < length self.old.formula }
        requires b { b < length self.old.formula }
        ensures gives { Gives (λ i. i) result self.old self.new (choice at c a b) }
        ensures range { IfOk result (λ i. i < length self.new.formula) }
        ensures grows { Grows self.old self.new }
    {
        let left = self.binary(alloc, Op::And, c, a, at)?;
        let n = self.not(alloc, c, at)?;
        let right = self.binary(alloc, Op::And, n, b, at)?;
        self.binary(alloc, Op::Or, left, right, at)
    }
}
