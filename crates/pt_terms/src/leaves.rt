// Terms that are no lists, and the moduli of heads.
use crate::arithmetic::{form_of_number, form_of_variable};
use crate::elaborator::Elaborator;
use crate::environment::Environment;
use crate::meaning::{Bound, Meaning, Sort};
use crate::numerals::number_at;
use crate::refusals::refused;
use pt_grammar::exprs::{numeral, place, symbol};
use pt_grammar::words::is;
use pt_syntax::{Leaf, Position, ReadKind, ReadRefusal, SExpr};
use std::alloc::Global;

impl Elaborator {
    ghost use Rattle.std.specs.Prelude.{◌<◌, ◌^◌, IfOk};
    ghost use Rattle.pt_terms.specs.Terms.{leaf_term, modulus, indexed_head};
    ghost use Rattle.pt_terms.specs.Layers.{symbol_term, bound_term};
    ghost use Rattle.pt_terms.specs.Gives.{Gives, Grows};
    ghost use Rattle.pt_terms.specs.Sound.{IsMeaningIn, IsBoundIn, IsEnvIn};

    /// A term that is no list.
    pub(crate) fn leaf_term(
        &mut self,
        alloc: Global,
        env: &Environment<'_>,
        at: Position,
        leaf: &Leaf,
    ) -> Result<Meaning, ReadRefusal>
        requires env { IsEnvIn self.old env.now }
        ensures gives { Gives (λ m. m) result self.old self.new (leaf_term env.now at leaf.now) }
        ensures range { IfOk result (IsMeaningIn self.new) }
        ensures grows { Grows self.old self.new }
    {
        match leaf {
            Leaf::Numeral(digits) => {
                let n = number_at(at, digits.as_slice())?;
                Ok(Meaning::Int(form_of_number(alloc, n as i64)))
            }
            Leaf::Symbol(name) => self.symbol_term(alloc, env, at, name.as_slice()),
            Leaf::Constant | Leaf::Text(_) => Err(refused(ReadKind::Unsupported, at)),
            Leaf::Keyword(_) => Err(refused(ReadKind::Syntax, at)),
        }
    }

    /// A symbol as a term of its own.
    fn symbol_term(
        &mut self,
        alloc: Global,
        env: &Environment<'_>,
        at: Position,
        name: &[u8],
    ) -> Result<Meaning, ReadRefusal>
        requires env { IsEnvIn self.old env.now }
        ensures gives { Gives (λ m. m) result self.old self.new (symbol_term env.now at name.now) }
        ensures range { IfOk result (IsMeaningIn self.new) }
        ensures grows { Grows self.old self.new }
    {
        if is(name, b"true") {
            let n = self.truth(alloc, true, at)?;
            return Ok(Meaning::Bool(n));
        }
        if is(name, b"false") {
            let n = self.truth(alloc, false, at)?;
            return Ok(Meaning::Bool(n));
        }
        match env.plain(alloc, name, at) {
            Ok(bound) => self.bound_term(alloc, at, bound),
            Err(refusal) => Err(refusal),
        }
    }

    /// What a name is bound to, as a term of its own: a variable of sort Bool makes a node.
    fn bound_term(
        &mut self,
        alloc: Global,
        at: Position,
        bound: Bound,
    ) -> Result<Meaning, ReadRefusal>
        requires { IsBoundIn self.old bound }
        ensures gives { Gives (λ m. m) result self.old self.new (bound_term at bound) }
        ensures range { IfOk result (IsMeaningIn self.new) }
        ensures grows { Grows self.old self.new }
    {
        match bound {
            Bound::Variable(v, Sort::Int) => {
                let form = form_of_variable(alloc, v)?;
                Ok(Meaning::Int(form))
            }
            Bound::Variable(v, Sort::Bool) => {
                let i = self.truth_atom(alloc, v, at)?;
                Ok(Meaning::Bool(i))
            }
            Bound::Term(meaning) => Ok(meaning),
        }
    }

    /// The modulus of a head `(_ divisible N)` at its place.
    pub(crate) fn indexed_head(&self, at: Position, index: &[SExpr]) -> Result<u64, ReadRefusal>
        ensures gives { Gives (λ n. n) result self.now self.now (indexed_head at index.now) }
        ensures some { IfOk result (λ n. 0 < n) }
        ensures small { IfOk result (λ n. n < 2 ^ 63) }
    {
        match index {
            [mark, name, indices @ ..] => match (symbol(mark), symbol(name)) {
                (Some(mark), Some(name)) => {
                    if !is(mark, b"_") {
                        Err(refused(ReadKind::Syntax, at))
                    } else if is(name, b"divisible") {
                        self.modulus(at, indices)
                    } else {
                        Err(refused(ReadKind::Unsupported, at))
                    }
                }
                _ => Err(refused(ReadKind::Syntax, at)),
            },
            _ => Err(refused(ReadKind::Syntax, at)),
        }
    }

    /// The one number behind `divisible`.
    fn modulus(&self, at: Position, indices: &[SExpr]) -> Result<u64, ReadRefusal>
        ensures gives { Gives (λ n. n) result self.now self.now (modulus at indices.now) }
        ensures some { IfOk result (λ n. 0 < n) }
        ensures small { IfOk result (λ n. n < 2 ^ 63) }
    {
        match indices {
            [index] => match numeral(index) {
                Some(digits) => {
                    let n = number_at(place(index), digits)?;
                    if n == 0 {
                        return Err(refused(ReadKind::Unsupported, place(index)));
                    }
                    Ok(n)
                }
                None => Err(refused(ReadKind::Syntax, at)),
            },
            _ => Err(refused(ReadKind::Syntax, at)),
        }
    }
}
