// Pairs of states.
ghost use Rattle.std.specs.Prelude.{◌≡◌, ◌<◌, ◌^◌};
ghost use Rattle.pt_sets.specs.Automata.{next_of, output_of};
ghost use Rattle.pt_sets.specs.Costs.{restricted};
ghost use Rattle.pt_product.specs.Operations.{truth};

use crate::factor::Factor;
use pt_formula::Op;
use std::hash::Hash;

/// A state of each of two factors.
#[derive(Clone, Copy, Debug, PartialEq, Eq, Hash)]
pub(crate) struct Pair {
    pub(crate) a: u32,
    pub(crate) b: u32,
}

/// The operation on two answers.
fn apply(op: Op, a: bool, b: bool) -> bool
    ensures { result ≡ truth op a b }
{
    match op {
        Op::And => a && b,
        Op::Or => a || b,
        Op::Iff => a == b,
        Op::Xor => a != b,
    }
}

/// The pair behind a pair by a letter of the result.
pub(crate) fn next_pair(pair: Pair, a: &Factor, b: &Factor, letter: u16) -> Pair
    requires in_a { pair.a < a.now.table.states }
    requires in_b { pair.b < b.now.table.states }
    requires letter_a { letter < 2 ^ a.now.tracks }
    requires letter_b { letter < 2 ^ b.now.tracks }
    ensures a { result.a ≡ next_of a.now.table pair.a (restricted a.now.map letter) }
    ensures b { result.b ≡ next_of b.now.table pair.b (restricted b.now.map letter) }
{
    Pair {
        a: a.next(pair.a, letter),
        b: b.next(pair.b, letter),
    }
}

/// The answer of a pair at a sign of the result.
pub(crate) fn pair_answer(op: Op, pair: Pair, a: &Factor, b: &Factor, sign: u16) -> bool
    requires in_a { pair.a < a.now.table.states }
    requires in_b { pair.b < b.now.table.states }
    requires sign_a { sign < 2 ^ a.now.tracks }
    requires sign_b { sign < 2 ^ b.now.tracks }
    ensures { result ≡ truth op (output_of a.now.table pair.a (restricted a.now.map sign)) (output_of b.now.table pair.b (restricted b.now.map sign)) }
{
    let in_a = a.answer(pair.a, sign);
    let in_b = b.answer(pair.b, sign);
    apply(op, in_a, in_b)
}
