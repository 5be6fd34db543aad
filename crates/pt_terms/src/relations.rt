// Atoms, and relations of neighbours and of all pairs.
ghost use Rattle.std.specs.Prelude.{◌≡◌, ◌^◌, ◌<◌, ◌≤ℤ◌, pos};
ghost use Rattle.pt_terms.specs.Theory.{zero_compares};
ghost use Rattle.pt_atoms.specs.Atoms.{IsModulus};

use crate::arithmetic::Argument;
use crate::elaborator::Elaborator;
use crate::meaning::Meaning;
use crate::refusals::refused;
use pt_formula::{Form, Kind, Op, Position};
use pt_grammar::words::Relation;
use pt_syntax::{ReadKind, ReadRefusal};
use std::alloc::Global;

/// Whether 0 compares with the constant.
fn zero_compares_with(kind: Kind, constant: i128) -> bool
    requires { IsModulus kind }
    ensures { result ≡ zero_compares kind constant }
{
    match kind {
        Kind::Eq => constant == 0,
        Kind::Le => 0 <= constant,
        Kind::Mod(m) => constant.rem_euclid(i128::from(m)) == 0,
    }
}

/// Each pair makes its nodes and then an And with what stands so far, after the first one.
impl Elaborator {
    ghost use Rattle.std.specs.Prelude.{◌≡◌, ◌<◌, ℕ, ◌∷◌, pos, length, IfOk, IfSome, map, drop, All};
    ghost use Rattle.pt_atoms.specs.Atoms.{IsModulus};
    ghost use Rattle.pt_formula.specs.declared.node.Node.TheVariants as node;
    ghost use Rattle.pt_formula.specs.Forms.{AreTerms};
    ghost use Rattle.pt_terms.specs.Elaboration.{make};
    ghost use Rattle.pt_terms.specs.Theory.{atom, compared, compare, different, conjunction, neighbours, later_pairs};
    ghost use Rattle.pt_terms.specs.Chains.{with_next, next, run, close, heads};
    ghost use Rattle.pt_terms.specs.Gives.{Gives, Grows};
    ghost use Rattle.pt_terms.specs.Sorts.{AreIntegers};
    ghost use Rattle.pt_terms.specs.Sound.{IsFormOver};

    /// The atom of the terms and the constant, or True or False without terms.
    pub(crate) fn relation_atom(
        &mut self,
        alloc: Global,
        kind: Kind,
        terms: &[(u32, i64)],
        constant: i128,
        at: Position,
    ) -> Result<u32, ReadRefusal>
        requires terms { AreTerms terms.now }
        requires sorts { AreIntegers self.old.given terms.now }
        requires kind { IsModulus kind }
        ensures gives { Gives (λ i. i) result self.old self.new (atom at kind terms.now constant) }
        ensures range { IfOk result (λ i. i < length self.new.formula) }
        ensures grows { Grows self.old self.new }
    {
        if terms.is_empty() {
            return self.truth(alloc, zero_compares_with(kind, constant), at);
        }
        if constant < -0x8000_0000_0000_0000 || constant > 0x7fff_ffff_ffff_ffff {
            return Err(refused(ReadKind::Coefficient, at));
        }
        self.atom(alloc, kind, terms, constant as i64, at)
    }

    /// The atom by which a difference compares with 0.
    fn compared(
        &mut self,
        alloc: Global,
        at: Position,
        relation: Relation,
        f: &Form,
    ) -> Result<u32, ReadRefusal>
        requires { IsFormOver self.old.given f.now }
        ensures gives { Gives (λ i. i) result self.old self.new (compared at relation f.now) }
        ensures range { IfOk result (λ i. i < length self.new.formula) }
        ensures grows { Grows self.old self.new }
    {
        let terms = f.terms.as_slice();
        let constant = -i128::from(f.constant);
        match relation {
            Relation::Equal => self.relation_atom(alloc, Kind::Eq, terms, constant, at),
            Relation::AtMost | Relation::AtLeast => {
                self.relation_atom(alloc, Kind::Le, terms, constant, at)
            }
            Relation::Below | Relation::Above => {
                self.relation_atom(alloc, Kind::Le, terms, constant - 1, at)
            }
        }
    }

    /// The atom of a pair.
    fn compare(
        &mut self,
        alloc: Global,
        at: Position,
        relation: Relation,
        a: &Form,
        b: &Form,
    ) -> Result<u32, ReadRefusal>
        requires a { IsFormOver self.old.given a.now }
        requires b { IsFormOver self.old.given b.now }
        ensures gives { Gives (λ i. i) result self.old self.new (compare at relation (a.now, b.now)) }
        ensures range { IfOk result (λ i. i < length self.new.formula) }
        ensures grows { Grows self.old self.new }
    {
        let f = match relation {
            Relation::AtLeast | Relation::Above => self.difference(alloc, b, a, at)?,
            Relation::Equal | Relation::AtMost | Relation::Below => {
                self.difference(alloc, a, b, at)?
            }
        };
        self.compared(alloc, at, relation, &f)
    }

    /// That two forms differ.
    fn different(
        &mut self,
        alloc: Global,
        at: Position,
        a: &Form,
        b: &Form,
    ) -> Result<u32, ReadRefusal>
        requires a { IsFormOver self.old.given a.now }
        requires b { IsFormOver self.old.given b.now }
        ensures gives { Gives (λ i. i) result self.old self.new (different at (a.now, b.now)) }
        ensures range { IfOk result (λ i. i < length self.new.formula) }
        ensures grows { Grows self.old self.new }
    {
        let i = self.compare(alloc, at, Relation::Equal, a, b)?;
        self.not(alloc, i, at)
    }

    /// The node so far, and one more.
    fn with_next(
        &mut self,
        alloc: Global,
        at: Position,
        so_far: Option<u32>,
        next: u32,
    ) -> Result<u32, ReadRefusal>
        requires so_far { IfSome so_far (λ i. i < length self.old.formula) }
        requires next { next < length self.old.formula }
        ensures gives { Gives (λ i. i) result self.old self.new (with_next at so_far next) }
        ensures range { IfOk result (λ i. i < length self.new.formula) }
        ensures grows { Grows self.old self.new }
    {
        match so_far {
            Some(i) => self.binary(alloc, Op::And, i, next, at),
            None => Ok(next),
        }
    }

    /// The node at the end.
    fn closed(
        &mut self,
        alloc: Global,
        at: Position,
        so_far: Option<u32>,
    ) -> Result<u32, ReadRefusal>
        requires { IfSome so_far (λ i. i < length self.old.formula) }
        ensures gives { Gives (λ i. i) result self.old self.new (close at so_far) }
        ensures range { IfOk result (λ i. i < length self.new.formula) }
        ensures grows { Grows self.old self.new }
    {
        match so_far {
            Some(i) => Ok(i),
            None => self.truth(alloc, true, at),
        }
    }

    /// The node so far, and that a pair compares.
    fn compare_next(
        &mut self,
        alloc: Global,
        at: Position,
        so_far: Option<u32>,
        relation: Relation,
        a: &Form,
        b: &Form,
    ) -> Result<u32, ReadRefusal>
        requires so_far { IfSome so_far (λ i. i < length self.old.formula) }
        requires a { IsFormOver self.old.given a.now }
        requires b { IsFormOver self.old.given b.now }
        ensures gives { Gives (λ i. i) result self.old self.new (next (compare at relation) at so_far (a.now, b.now)) }
        ensures range { IfOk result (λ i. i < length self.new.formula) }
        ensures grows { Grows self.old self.new }
    {
        let j = self.compare(alloc, at, relation, a, b)?;
        self.with_next(alloc, at, so_far, j)
    }

    /// The node so far, and that a pair is equivalent.
    fn equal_next(
        &mut self,
        alloc: Global,
        at: Position,
        so_far: Option<u32>,
        a: u32,
        b: u32,
    ) -> Result<u32, ReadRefusal>
        requires so_far { IfSome so_far (λ i. i < length self.old.formula) }
        requires a { a < length self.old.formula }
        requires b { b < length self.old.formula }
        ensures gives { Gives (λ i. i) result self.old self.new (next (λ (ab : ℕ × ℕ). make (node.Iff ab.0 ab.1) at) at so_far (a, b)) }
        ensures range { IfOk result (λ i. i < length self.new.formula) }
        ensures grows { Grows self.old self.new }
    {
        let j = self.binary(alloc, Op::Iff, a, b, at)?;
        self.with_next(alloc, at, so_far, j)
    }

    /// The node so far, and that a pair differs.
    fn different_next(
        &mut self,
        alloc: Global,
        at: Position,
        so_far: Option<u32>,
        a: &Form,
        b: &Form,
    ) -> Result<u32, ReadRefusal>
        requires so_far { IfSome so_far (λ i. i < length self.old.formula) }
        requires a { IsFormOver self.old.given a.now }
        requires b { IsFormOver self.old.given b.now }
        ensures gives { Gives (λ i. i) result self.old self.new (next (different at) at so_far (a.now, b.now)) }
        ensures range { IfOk result (λ i. i < length self.new.formula) }
        ensures grows { Grows self.old self.new }
    {
        let j = self.different(alloc, at, a, b)?;
        self.with_next(alloc, at, so_far, j)
    }

    /// The node so far, and that a pair is not equivalent.
    fn unlike_next(
        &mut self,
        alloc: Global,
        at: Position,
        so_far: Option<u32>,
        a: u32,
        b: u32,
    ) -> Result<u32, ReadRefusal>
        requires so_far { IfSome so_far (λ i. i < length self.old.formula) }
        requires a { a < length self.old.formula }
        requires b { b < length self.old.formula }
        ensures gives { Gives (λ i. i) result self.old self.new (next (λ (ab : ℕ × ℕ). make (node.Xor ab.0 ab.1) at) at so_far (a, b)) }
        ensures range { IfOk result (λ i. i < length self.new.formula) }
        ensures grows { Grows self.old self.new }
    {
        let j = self.binary(alloc, Op::Xor, a, b, at)?;
        self.with_next(alloc, at, so_far, j)
    }

    /// That neighbouring forms compare.
    #[tactic(auto, using(crate::proofs::Ranges::ranges, crate::proofs::Chaining::conjunction_run))]
    pub(crate) fn compare_neighbours(
        &mut self,
        alloc: Global,
        at: Position,
        relation: Relation,
        first: &Form,
        rest: &[&Form],
    ) -> Result<u32, ReadRefusal>
        requires first { IsFormOver self.old.given first.now }
        requires rest { All (λ f. IsFormOver self.old.given f.now) rest.now }
        ensures gives { Gives (λ i. i) result self.old self.new (conjunction (compare at relation) at (neighbours first.now (map (λ f. f.now) rest.now))) }
        ensures range { IfOk result (λ i. i < length self.new.formula) }
        ensures grows { Grows self.old self.new }
    {
        let mut so_far = None;
        let mut before = first;
        for f in rest {
            match self.compare_next(alloc, at, so_far, relation, before, *f) {
                Ok(next) => so_far = Some(next),
                Err(refusal) => return Err(refusal),
            }
            before = *f;
        }
        self.closed(alloc, at, so_far)
    }

    /// That neighbouring nodes are equivalent.
    #[tactic(auto, using(crate::proofs::Ranges::ranges, crate::proofs::Chaining::conjunction_run))]
    pub(crate) fn equal_neighbours(
        &mut self,
        alloc: Global,
        at: Position,
        first: u32,
        rest: &[u32],
    ) -> Result<u32, ReadRefusal>
        requires first { first < length self.old.formula }
        requires rest { All (λ i. i < length self.old.formula) rest.now }
        ensures gives { Gives (λ i. i) result self.old self.new (conjunction (λ (ab : ℕ × ℕ). make (node.Iff ab.0 ab.1) at) at (neighbours first rest.now)) }
        ensures range { IfOk result (λ i. i < length self.new.formula) }
        ensures grows { Grows self.old self.new }
    {
        let mut so_far = None;
        let mut before = first;
        for i in rest {
            match self.equal_next(alloc, at, so_far, before, *i) {
                Ok(next) => so_far = Some(next),
                Err(refusal) => return Err(refusal),
            }
            before = *i;
        }
        self.closed(alloc, at, so_far)
    }

    /// That a form differs from each of the later ones.
    #[tactic(auto, using(crate::proofs::Ranges::ranges))]
    fn different_from_all(
        &mut self,
        alloc: Global,
        at: Position,
        so_far: Option<u32>,
        first: &Form,
        rest: &[&Form],
    ) -> Result<Option<u32>, ReadRefusal>
        requires so_far { IfSome so_far (λ i. i < length self.old.formula) }
        requires first { IsFormOver self.old.given first.now }
        requires rest { All (λ f. IsFormOver self.old.given f.now) rest.now }
        ensures gives { Gives (λ i. i) result self.old self.new (run (different at) at so_far (map (λ g. (first.now, g)) (map (λ f. f.now) rest.now))) }
        ensures range { IfOk result (λ r. IfSome r (λ i. i < length self.new.formula)) }
        ensures grows { Grows self.old self.new }
    {
        let mut so_far = so_far;
        for f in rest {
            match self.different_next(alloc, at, so_far, first, *f) {
                Ok(next) => so_far = Some(next),
                Err(refusal) => return Err(refusal),
            }
        }
        Ok(so_far)
    }

    /// That the form at a place differs from each of the later ones.
    #[tactic(auto, using(crate::proofs::Rows::heads_at))]
    fn different_row(
        &mut self,
        alloc: Global,
        at: Position,
        so_far: Option<u32>,
        forms: &[&Form],
        place: usize,
    ) -> Result<Option<u32>, ReadRefusal>
        requires so_far { IfSome so_far (λ i. i < length self.old.formula) }
        requires forms { All (λ f. IsFormOver self.old.given f.now) forms.now }
        requires place { place < length forms.now }
        ensures gives { Gives (λ i. i) result self.old self.new (run (different at) at so_far (heads (map (λ f. f.now) (drop place forms.now)))) }
        ensures range { IfOk result (λ r. IfSome r (λ i. i < length self.new.formula)) }
        ensures grows { Grows self.old self.new }
    {
        let first = forms[place];
        let rest = &forms[place + 1..];
        self.different_from_all(alloc, at, so_far, first, rest)
    }

    /// That all forms differ.
    #[tactic(auto, using(crate::proofs::Ranges::ranges, crate::proofs::Chaining::conjunction_run))]
    pub(crate) fn all_different(
        &mut self,
        alloc: Global,
        at: Position,
        forms: &[&Form],
    ) -> Result<u32, ReadRefusal>
        requires { All (λ f. IsFormOver self.old.given f.now) forms.now }
        ensures gives { Gives (λ i. i) result self.old self.new (conjunction (different at) at (later_pairs (map (λ f. f.now) forms.now))) }
        ensures range { IfOk result (λ i. i < length self.new.formula) }
        ensures grows { Grows self.old self.new }
    {
        let mut so_far = None;
        for i in 0..forms.len() {
            match self.different_row(alloc, at, so_far, forms, i) {
                Ok(next) => so_far = next,
                Err(refusal) => return Err(refusal),
            }
        }
        self.closed(alloc, at, so_far)
    }

    /// That a node is not equivalent to any of the later ones.
    #[tactic(auto, using(crate::proofs::Ranges::ranges))]
    fn unlike_all(
        &mut self,
        alloc: Global,
        at: Position,
        so_far: Option<u32>,
        first: u32,
        rest: &[u32],
    ) -> Result<Option<u32>, ReadRefusal>
        requires so_far { IfSome so_far (λ i. i < length self.old.formula) }
        requires first { first < length self.old.formula }
        requires rest { All (λ i. i < length self.old.formula) rest.now }
        ensures gives { Gives (λ i. i) result self.old self.new (run (λ (ab : ℕ × ℕ). make (node.Xor ab.0 ab.1) at) at so_far (map (λ j. (first, j)) rest.now)) }
        ensures range { IfOk result (λ r. IfSome r (λ i. i < length self.new.formula)) }
        ensures grows { Grows self.old self.new }
    {
        let mut so_far = so_far;
        for i in rest {
            match self.unlike_next(alloc, at, so_far, first, *i) {
                Ok(next) => so_far = Some(next),
                Err(refusal) => return Err(refusal),
            }
        }
        Ok(so_far)
    }

    /// That the node at a place is not equivalent to any of the later ones.
    #[tactic(auto, using(crate::proofs::Rows::heads_of))]
    fn unlike_row(
        &mut self,
        alloc: Global,
        at: Position,
        so_far: Option<u32>,
        nodes: &[u32],
        place: usize,
    ) -> Result<Option<u32>, ReadRefusal>
        requires so_far { IfSome so_far (λ i. i < length self.old.formula) }
        requires nodes { All (λ i. i < length self.old.formula) nodes.now }
        requires place { place < length nodes.now }
        ensures gives { Gives (λ i. i) result self.old self.new (run (λ (ab : ℕ × ℕ). make (node.Xor ab.0 ab.1) at) at so_far (heads (drop place nodes.now))) }
        ensures range { IfOk result (λ r. IfSome r (λ i. i < length self.new.formula)) }
        ensures grows { Grows self.old self.new }
    {
        let first = nodes[place];
        let rest = &nodes[place + 1..];
        self.unlike_all(alloc, at, so_far, first, rest)
    }

    /// That no two nodes are equivalent.
    #[tactic(auto, using(crate::proofs::Ranges::ranges, crate::proofs::Chaining::conjunction_run))]
    pub(crate) fn all_unlike(
        &mut self,
        alloc: Global,
        at: Position,
        nodes: &[u32],
    ) -> Result<u32, ReadRefusal>
        requires { All (λ i. i < length self.old.formula) nodes.now }
        ensures gives { Gives (λ i. i) result self.old self.new (conjunction (λ (ab : ℕ × ℕ). make (node.Xor ab.0 ab.1) at) at (later_pairs nodes.now)) }
        ensures range { IfOk result (λ i. i < length self.new.formula) }
        ensures grows { Grows self.old self.new }
    {
        let mut so_far = None;
        for i in 0..nodes.len() {
            match self.unlike_row(alloc, at, so_far, nodes, i) {
                Ok(next) => so_far = next,
                Err(refusal) => return Err(refusal),
            }
        }
        self.closed(alloc, at, so_far)
    }
}
