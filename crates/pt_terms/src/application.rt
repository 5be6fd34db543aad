// Applications of the symbols of the theories to arguments.
ghost use Rattle.std.specs.Prelude.{◌≡◌, ◌<◌, ◌^◌, pos, neg_ℤ};
ghost use Rattle.std.specs.Int.{int_rem_euclid};

use crate::arithmetic::{Argument, copy_of_form};
use crate::elaborator::Elaborator;
use crate::meaning::Meaning;
use crate::refusals::refused;
use pt_formula::{Form, Kind, Op, Position};
use pt_grammar::words::{Operator, Relation};
use pt_syntax::{ReadKind, ReadRefusal};
use std::alloc::Global;

/// The residue of the negative of a number.
fn residue_of_negative(constant: i64, modulus: u64) -> i128
    requires some { 0 < modulus }
    requires small { modulus < 2 ^ 63 }
    ensures { result ≡ int_rem_euclid (neg_ℤ constant) (pos modulus) }
{
    (-i128::from(constant)).rem_euclid(i128::from(modulus))
}

impl Elaborator {
    ghost use Rattle.std.specs.Prelude.{◌≡◌, ◌<◌, ◌^◌, ◌∷◌, List, length, map, IfOk, All};
    ghost use Rattle.pt_formula.specs.Formulas.{op_node};
    ghost use Rattle.pt_terms.specs.Theory.{Argument, apply, divides, chosen, relation, distinct, as_truth, as_form};
    ghost use Rattle.pt_grammar.specs.declared.words.Operator.TheVariants as symbol;
    ghost use Rattle.pt_terms.specs.Chains.{joined};
    ghost use Rattle.pt_terms.specs.Elaboration.{give};
    ghost use Rattle.pt_terms.specs.Gives.{Gives, Grows};
    ghost use Rattle.pt_terms.specs.Sound.{IsFormOver, IsMeaningIn};

    fn apply_not(
        &mut self,
        alloc: Global,
        at: Position,
        arguments: &[Argument],
    ) -> Result<Meaning, ReadRefusal>
        requires { All (λ (a : Argument). IsMeaningIn self.old a.1) arguments.now }
        ensures gives { Gives (λ m. m) result self.old self.new (apply at symbol.Not arguments.now) }
        ensures range { IfOk result (IsMeaningIn self.new) }
        ensures grows { Grows self.old self.new }
    {
        match arguments {
            [a] => {
                let i = self.node_of(a)?;
                let n = self.not(alloc, i, at)?;
                Ok(Meaning::Bool(n))
            }
            _ => Err(refused(ReadKind::Sort, at)),
        }
    }

    fn apply_join(
        &mut self,
        alloc: Global,
        op: Op,
        at: Position,
        arguments: &[Argument],
    ) -> Result<Meaning, ReadRefusal>
        requires { All (λ (a : Argument). IsMeaningIn self.old a.1) arguments.now }
        ensures gives { Gives (λ m. m) result self.old self.new (joined (op_node op) at arguments.now) }
        ensures range { IfOk result (IsMeaningIn self.new) }
        ensures grows { Grows self.old self.new }
    {
        match arguments {
            [] => Err(refused(ReadKind::Sort, at)),
            [a, rest @ ..] => {
                let i = self.node_of(a)?;
                let others = self.nodes_of(alloc, rest)?;
                let n = self.join(alloc, op, at, i, others.as_slice())?;
                Ok(Meaning::Bool(n))
            }
        }
    }

    fn apply_implies(
        &mut self,
        alloc: Global,
        at: Position,
        arguments: &[Argument],
    ) -> Result<Meaning, ReadRefusal>
        requires { All (λ (a : Argument). IsMeaningIn self.old a.1) arguments.now }
        ensures gives { Gives (λ m. m) result self.old self.new (apply at symbol.Implies arguments.now) }
        ensures range { IfOk result (IsMeaningIn self.new) }
        ensures grows { Grows self.old self.new }
    {
        match arguments {
            [] | [_] => Err(refused(ReadKind::Sort, at)),
            [a, rest @ ..] => {
                let i = self.node_of(a)?;
                let others = self.nodes_of(alloc, rest)?;
                let n = self.implication(alloc, at, i, others.as_slice())?;
                Ok(Meaning::Bool(n))
            }
        }
    }

    fn relation(
        &mut self,
        alloc: Global,
        at: Position,
        how: Relation,
        first: &Argument,
        rest: &[Argument],
    ) -> Result<u32, ReadRefusal>
        requires first { IsMeaningIn self.old first.now.1 }
        requires rest { All (λ (a : Argument). IsMeaningIn self.old a.1) rest.now }
        ensures gives { Gives (λ i. i) result self.old self.new (relation at how first.now.0 first.now.1 rest.now) }
        ensures range { IfOk result (λ i. i < length self.new.formula) }
        ensures grows { Grows self.old self.new }
    {
        match &first.1 {
            Meaning::Bool(i) => match how {
                Relation::Equal => {
                    let others = self.nodes_of(alloc, rest)?;
                    self.equal_neighbours(alloc, at, *i, others.as_slice())
                }
                _ => Err(refused(ReadKind::Sort, first.0)),
            },
            Meaning::Int(f) => {
                let others = self.integers(alloc, rest)?;
                self.compare_neighbours(alloc, at, how, f, others.as_slice())
            }
        }
    }

    fn apply_relation(
        &mut self,
        alloc: Global,
        at: Position,
        how: Relation,
        arguments: &[Argument],
    ) -> Result<Meaning, ReadRefusal>
        requires { All (λ (a : Argument). IsMeaningIn self.old a.1) arguments.now }
        ensures gives { Gives (λ m. m) result self.old self.new (apply at (symbol.Compare how) arguments.now) }
        ensures range { IfOk result (IsMeaningIn self.new) }
        ensures grows { Grows self.old self.new }
    {
        match arguments {
            [] | [_] => Err(refused(ReadKind::Sort, at)),
            [a, rest @ ..] => {
                let n = self.relation(alloc, at, how, a, rest)?;
                Ok(Meaning::Bool(n))
            }
        }
    }

    fn apply_distinct(
        &mut self,
        alloc: Global,
        at: Position,
        arguments: &[Argument],
    ) -> Result<Meaning, ReadRefusal>
        requires { All (λ (a : Argument). IsMeaningIn self.old a.1) arguments.now }
        ensures gives { Gives (λ m. m) result self.old self.new (apply at symbol.Distinct arguments.now) }
        ensures range { IfOk result (IsMeaningIn self.new) }
        ensures grows { Grows self.old self.new }
    {
        match arguments {
            [] | [_] => Err(refused(ReadKind::Sort, at)),
            [a, ..] => {
                let n = self.distinct(alloc, at, a, arguments)?;
                Ok(Meaning::Bool(n))
            }
        }
    }

    fn distinct(
        &mut self,
        alloc: Global,
        at: Position,
        first: &Argument,
        all: &[Argument],
    ) -> Result<u32, ReadRefusal>
        ghost rest: { List Argument }
        requires all { All (λ (a : Argument). IsMeaningIn self.old a.1) all.now }
        requires parts { all.now ≡ first.now ∷ rest }
        ensures gives { Gives (λ i. i) result self.old self.new (distinct at first.now.1 rest) }
        ensures range { IfOk result (λ i. i < length self.new.formula) }
        ensures grows { Grows self.old self.new }
    {
        match &first.1 {
            Meaning::Bool(_) => {
                let nodes = self.nodes_of(alloc, all)?;
                self.all_unlike(alloc, at, nodes.as_slice())
            }
            Meaning::Int(_) => {
                let forms = self.integers(alloc, all)?;
                self.all_different(alloc, at, forms.as_slice())
            }
        }
    }

    fn chosen(
        &mut self,
        alloc: Global,
        at: Position,
        c: u32,
        a: &Meaning,
        b: &Argument,
    ) -> Result<Meaning, ReadRefusal>
        requires c { c < length self.old.formula }
        requires a { IsMeaningIn self.old a.now }
        requires b { IsMeaningIn self.old b.now.1 }
        ensures gives { Gives (λ m. m) result self.old self.new (chosen at c a.now b.now) }
        ensures range { IfOk result (IsMeaningIn self.new) }
        ensures grows { Grows self.old self.new }
    {
        match a {
            Meaning::Bool(i) => {
                let j = self.node_of(b)?;
                let n = self.choice(alloc, at, c, *i, j)?;
                Ok(Meaning::Bool(n))
            }
            Meaning::Int(_) => {
                self.integer(b)?;
                Err(refused(ReadKind::Unsupported, at))
            }
        }
    }

    fn apply_choice(
        &mut self,
        alloc: Global,
        at: Position,
        arguments: &[Argument],
    ) -> Result<Meaning, ReadRefusal>
        requires { All (λ (a : Argument). IsMeaningIn self.old a.1) arguments.now }
        ensures gives { Gives (λ m. m) result self.old self.new (apply at symbol.Ite arguments.now) }
        ensures range { IfOk result (IsMeaningIn self.new) }
        ensures grows { Grows self.old self.new }
    {
        match arguments {
            [c, a, b] => {
                let i = self.node_of(c)?;
                self.chosen(alloc, at, i, &a.1, b)
            }
            _ => Err(refused(ReadKind::Sort, at)),
        }
    }

    fn copied(&self, alloc: Global, f: &Form) -> Result<Form, ReadRefusal>
        requires { IsFormOver self.now.given f.now }
        ensures gives { Gives (λ g. g) result self.now self.now (give f.now) }
        ensures range { IfOk result (IsFormOver self.now.given) }
    {
        Ok(copy_of_form(alloc, f)?)
    }

    fn apply_sum(
        &mut self,
        alloc: Global,
        at: Position,
        arguments: &[Argument],
    ) -> Result<Meaning, ReadRefusal>
        requires { All (λ (a : Argument). IsMeaningIn self.old a.1) arguments.now }
        ensures gives { Gives (λ m. m) result self.old self.new (apply at symbol.Plus arguments.now) }
        ensures range { IfOk result (IsMeaningIn self.new) }
        ensures grows { Grows self.old self.new }
    {
        match arguments {
            [] => Err(refused(ReadKind::Sort, at)),
            [a, rest @ ..] => {
                let f = self.integer(a)?;
                let others = self.integers(alloc, rest)?;
                let first = self.copied(alloc, f)?;
                let sum = self.sum_all(alloc, at, first, others.as_slice())?;
                Ok(Meaning::Int(sum))
            }
        }
    }

    fn apply_difference(
        &mut self,
        alloc: Global,
        at: Position,
        arguments: &[Argument],
    ) -> Result<Meaning, ReadRefusal>
        requires { All (λ (a : Argument). IsMeaningIn self.old a.1) arguments.now }
        ensures gives { Gives (λ m. m) result self.old self.new (apply at symbol.Minus arguments.now) }
        ensures range { IfOk result (IsMeaningIn self.new) }
        ensures grows { Grows self.old self.new }
    {
        match arguments {
            [] => Err(refused(ReadKind::Sort, at)),
            [a] => {
                let f = self.integer(a)?;
                let g = self.scale(alloc, -1, f, at)?;
                Ok(Meaning::Int(g))
            }
            [a, rest @ ..] => {
                let f = self.integer(a)?;
                let others = self.integers(alloc, rest)?;
                let first = self.copied(alloc, f)?;
                let g = self.subtract_all(alloc, at, first, others.as_slice())?;
                Ok(Meaning::Int(g))
            }
        }
    }

    fn apply_product(
        &mut self,
        alloc: Global,
        at: Position,
        arguments: &[Argument],
    ) -> Result<Meaning, ReadRefusal>
        requires { All (λ (a : Argument). IsMeaningIn self.old a.1) arguments.now }
        ensures gives { Gives (λ m. m) result self.old self.new (apply at symbol.Times arguments.now) }
        ensures range { IfOk result (IsMeaningIn self.new) }
        ensures grows { Grows self.old self.new }
    {
        match arguments {
            [] => Err(refused(ReadKind::Sort, at)),
            [a, rest @ ..] => {
                let f = self.integer(a)?;
                let others = self.integers(alloc, rest)?;
                let first = self.copied(alloc, f)?;
                let product = self.multiply_all(alloc, at, first, others.as_slice())?;
                Ok(Meaning::Int(product))
            }
        }
    }

    /// An application of an operator; another number of arguments is refused.
    pub(crate) fn apply(
        &mut self,
        alloc: Global,
        at: Position,
        operator: Operator,
        arguments: &[Argument],
    ) -> Result<Meaning, ReadRefusal>
        requires { All (λ (a : Argument). IsMeaningIn self.old a.1) arguments.now }
        ensures gives { Gives (λ m. m) result self.old self.new (apply at operator arguments.now) }
        ensures range { IfOk result (IsMeaningIn self.new) }
        ensures grows { Grows self.old self.new }
    {
        match operator {
            Operator::Not => self.apply_not(alloc, at, arguments),
            Operator::And => self.apply_join(alloc, Op::And, at, arguments),
            Operator::Or => self.apply_join(alloc, Op::Or, at, arguments),
            Operator::Xor => self.apply_join(alloc, Op::Xor, at, arguments),
            Operator::Implies => self.apply_implies(alloc, at, arguments),
            Operator::Compare(relation) => self.apply_relation(alloc, at, relation, arguments),
            Operator::Distinct => self.apply_distinct(alloc, at, arguments),
            Operator::Ite => self.apply_choice(alloc, at, arguments),
            Operator::Plus => self.apply_sum(alloc, at, arguments),
            Operator::Minus => self.apply_difference(alloc, at, arguments),
            Operator::Times => self.apply_product(alloc, at, arguments),
        }
    }

    /// That a modulus divides the argument.
    pub(crate) fn divides(
        &mut self,
        alloc: Global,
        at: Position,
        modulus: u64,
        arguments: &[Argument],
    ) -> Result<Meaning, ReadRefusal>
        requires arguments { All (λ (a : Argument). IsMeaningIn self.old a.1) arguments.now }
        requires some { 0 < modulus }
        requires small { modulus < 2 ^ 63 }
        ensures gives { Gives (λ m. m) result self.old self.new (divides at modulus arguments.now) }
        ensures range { IfOk result (IsMeaningIn self.new) }
        ensures grows { Grows self.old self.new }
    {
        match arguments {
            [a] => {
                let f = self.integer(a)?;
                let constant = residue_of_negative(f.constant, modulus);
                let kind = Kind::Mod(modulus);
                let n = self.relation_atom(alloc, kind, f.terms.as_slice(), constant, at)?;
                Ok(Meaning::Bool(n))
            }
            _ => Err(refused(ReadKind::Sort, at)),
        }
    }
}
