// What a command is elaborated in.
ghost use Rattle.std.specs.Prelude.{◌≡◌, option_map};
ghost use Rattle.pt_grammar.specs.Exprs.{symbol_of};
ghost use Rattle.pt_terms.specs.Names.{is_live};
ghost use Rattle.pt_terms.specs.Symbols.{shown_use};
ghost use Rattle.pt_read.specs.Commands.{constant_by};
ghost use Rattle.pt_terms.specs.Gives.{Says};

use crate::constants::Constants;
use pt_grammar::exprs::{items_in, name_in, place, symbol};
use pt_grammar::words::{is, is_reserved_word};
use pt_syntax::{Position, ReadKind, ReadRefusal, SExpr};
use pt_terms::bytes::Bytes;
use pt_terms::meaning::Constant;
use pt_terms::refusals::refused;
use pt_terms::symbols::{Symbols, Use};
use std::alloc::Global;
use std::marker::Model;

/// The live names, and the conjunction of the assertions, if there are any. A contract sees a scope with these names and this conjunction.
#[derive(Drop)]
pub(crate) struct Context<'s> {
    live: &'s Symbols,
    conjunction: Option<u32>,
}

impl<'s> Model for Context<'s> {
    ghost use Rattle.pt_read.specs.Scope.{State};

    ghost Value = { State };

    ghost use Rattle.pt_read.specs.Context.{state_of};

    ghost view = { λ c. state_of c.live.now c.conjunction };
}

impl<'s> Context<'s> {
    ghost use Rattle.std.specs.Prelude.{◌≡◌, ◌||◌};
    ghost use Rattle.pt_terms.specs.Elaboration.{each};
    ghost use Rattle.pt_grammar.specs.Exprs.{symbol_of, items_of, name_of, items_or_none};
    ghost use Rattle.pt_grammar.specs.Words.{is_reserved};
    ghost use Rattle.pt_terms.specs.Names.{is_live};
    ghost use Rattle.pt_read.specs.Context.{state_of};
    ghost use Rattle.pt_read.specs.Commands.{new_name, constant_of};
    ghost use Rattle.pt_terms.specs.Gives.{Says};

    /// With these live names, and the conjunction of the assertions, if there are any.
    pub(crate) fn new(live: &'s Symbols, conjunction: Option<u32>) -> Context<'s>
        ensures { result ≡ state_of live.now conjunction }
    {
        Context { live, conjunction }
    }

    /// The live names.
    pub(crate) fn live(&self) -> &'s Symbols
        ensures { result.now ≡ self.now.symbols }
    {
        self.live
    }

    /// The conjunction of the assertions, if there are any.
    pub(crate) fn conjunction(&self) -> Option<u32>
        ensures { self.now ≡ state_of self.now.symbols result }
    {
        self.conjunction
    }

    /// Whether the name of a symbol is reserved or live.
    fn is_taken(&self, e: &SExpr) -> bool
        ensures { result ≡ (is_reserved (name_of (symbol_of e.now)) || is_live self.now.symbols (name_of (symbol_of e.now))) }
    {
        let name = name_in(e);
        is_reserved_word(name) || is_live_name(self.live, name)
    }

    /// The name of a symbol that is to be declared or defined: neither reserved nor live. One hash.
    pub(crate) fn new_name<'e>(&self, e: &'e SExpr) -> Result<&'e [u8], ReadRefusal>
        ensures { Says (λ n. n.now) result (new_name self.now e.now) }
    {
        if self.is_taken(e) {
            return Err(refused(ReadKind::Redeclared, place(e)));
        }
        Ok(name_in(e))
    }

    /// The declared constant that a symbol names.
    fn constant(&self, alloc: Global, e: &SExpr) -> Result<Constant, ReadRefusal>
        ensures { Says (λ c. c) result (constant_of self.now e.now (symbol_of e.now)) }
    {
        match symbol(e) {
            Some(name) => {
                if is(name, b"true") || is(name, b"false") {
                    return Err(refused(ReadKind::Unsupported, place(e)));
                }
                constant_used(alloc, place(e), name, self.live.find(name))
            }
            None => Err(refused(ReadKind::Unsupported, place(e))),
        }
    }

    /// The declared constants that the symbols of a list name, in order.
    pub(crate) fn constants(&self, alloc: Global, list: &SExpr) -> Result<Constants, ReadRefusal>
        ensures { Says (λ v. v) result (each (λ e. constant_of self.now e (symbol_of e)) (items_or_none (items_of list.now))) }
    {
        let es = items_in(list);
        let mut found = Vec::new(alloc);
        for e in es {
            match self.constant(alloc, e) {
                Ok(c) => found.push(c)?,
                Err(refusal) => return Err(refusal),
            }
        }
        Ok(Constants::new(found))
    }
}

/// Whether a name is live, by one hash.
fn is_live_name(live: &Symbols, name: &[u8]) -> bool
    ensures { result ≡ is_live live.now name.now }
{
    live.find(name).is_some()
}

/// The constant of this name, by what the name stands for.
fn constant_used(
    alloc: Global,
    at: Position,
    name: &[u8],
    found: Option<&Use>,
) -> Result<Constant, ReadRefusal>
    ensures { Says (λ c. c) result (constant_by at name.now (option_map (λ u. shown_use u.now) found.entry)) }
{
    match found {
        Some(Use::Constant(v, sort)) => {
            let name = Bytes::copy_of(alloc, name)?;
            Ok(Constant {
                name,
                variable: *v,
                sort: *sort,
            })
        }
        Some(Use::Definition(..)) => Err(refused(ReadKind::Unsupported, at)),
        None => Err(refused(ReadKind::Unknown, at)),
    }
}
