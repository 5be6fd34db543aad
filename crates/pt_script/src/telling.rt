// What the set commands say of the sets of their predicates, handles of which the pass knows.
ghost use Rattle.std.specs.Prelude.{◌≡◌, ◌<◌, ◌≤◌, ℕ, [], ◌∷◌, IfOk, IfErr, decimal, length};
ghost use Rattle.pt_query.specs.Queries.{vectors_of};
ghost use Rattle.pt_read.specs.Fits.{FitsKind};
ghost use Rattle.pt_script.specs.Texts.{line, truth, vectors};
ghost use Rattle.pt_script.specs.Step.{predicates};
ghost use Rattle.pt_script.specs.Sets.{HasSetOf, Tells, RefusesTelling};

use crate::fault::SessionFault;
use crate::subjects::PredicateSet;
use crate::texts::{write_number, write_truth, write_vectors};
use pt_digits::NoMemory;
use pt_formula::Position;
use pt_handles::{Handle, TableFault, same};
use pt_query::{
    WitnessFault, comparisons_tell_of_sets_alone, contains, is_empty, is_finite, is_subset, list,
    queries_tell_of_sets_alone, state_count,
};
use pt_read::{CommandKind, Predicate, Scope};
use pt_store::Codes;
use std::alloc::Global;

/// What a command of one predicate says, from a handle of its set.
pub(crate) fn tell_one<P: Codes>(
    alloc: Global,
    pass: &P,
    scope: &Scope,
    kind: &CommandKind,
    p: &Predicate,
    at: Position,
    a: Handle,
) -> Result<Vec<u8>, SessionFault>
    requires fits { FitsKind kind.now scope.now }
    requires about { predicates kind.now ≡ p.now ∷ [] }
    requires set { HasSetOf P.home (P.lists pass.now) scope.now p.now a }
    ensures ok { IfOk result (λ reply. (bound : ℕ) → Tells scope.now kind.now bound reply.items) }
    ensures err { IfErr result (λ fault. (bound : ℕ) → RefusesTelling scope.now at kind.now bound fault) }
{
    match kind {
        CommandKind::SetEmpty(_) => Ok(say_empty(alloc, pass, scope, p, a)?),
        CommandKind::SetFinite(_) => Ok(say_finite(alloc, pass, scope, p, a)?),
        CommandKind::SetStates(_) => Ok(say_states(alloc, pass, scope, p, a)?),
        CommandKind::SetMember(_, z) => { Ok(truth_of(alloc, contains(pass, a, z.as_slice()))?) }
        CommandKind::SetList(_, k) => say_list(alloc, pass, scope, p, *k, at, a),
        _ => unreachable!(),
    }
}

/// What a command of two predicates says, from handles of their sets.
pub(crate) fn tell_two<P: Codes>(
    alloc: Global,
    pass: &P,
    scope: &Scope,
    kind: &CommandKind,
    p: &Predicate,
    q: &Predicate,
    at: Position,
    bound: u32,
    a: Handle,
    b: Handle,
) -> Result<Vec<u8>, SessionFault>
    requires fits { FitsKind kind.now scope.now }
    requires about { predicates kind.now ≡ p.now ∷ q.now ∷ [] }
    requires first { HasSetOf P.home (P.lists pass.now) scope.now p.now a }
    requires second { HasSetOf P.home (P.lists pass.now) scope.now q.now b }
    requires some { 0 < bound }
    requires few { bound ≤ 65536 }
    ensures ok { IfOk result (λ reply. Tells scope.now kind.now bound reply.items) }
    ensures err { IfErr result (RefusesTelling scope.now at kind.now bound) }
{
    match kind {
        CommandKind::SetEqual(_, _) => Ok(truth_of(alloc, same(a, b))?),
        CommandKind::SetSubset(_, _) => { say_subset(alloc, pass, scope, p, q, at, bound, a, b) }
        _ => unreachable!(),
    }
}

/// Whether a set is empty.
fn say_empty<P: Codes>(
    alloc: Global,
    pass: &P,
    scope: &Scope,
    p: &Predicate,
    a: Handle,
) -> Result<Vec<u8>, NoMemory>
    requires { HasSetOf P.home (P.lists pass.now) scope.now p.now a }
    ensures { IfOk result (λ reply. (bound : ℕ) → Tells scope.now (CommandKind.SetEmpty p.now) bound reply.items) }
{
    queries_tell_of_sets_alone(&PredicateSet {
        scope,
        predicate: p,
    });
    let reply = truth_of(alloc, is_empty(pass, a))?;
    Ok(reply)
}

/// Whether a set is finite.
fn say_finite<P: Codes>(
    alloc: Global,
    pass: &P,
    scope: &Scope,
    p: &Predicate,
    a: Handle,
) -> Result<Vec<u8>, NoMemory>
    requires { HasSetOf P.home (P.lists pass.now) scope.now p.now a }
    ensures { IfOk result (λ reply. (bound : ℕ) → Tells scope.now (CommandKind.SetFinite p.now) bound reply.items) }
{
    queries_tell_of_sets_alone(&PredicateSet {
        scope,
        predicate: p,
    });
    let yes = is_finite(alloc, pass, a)?;
    let reply = truth_of(alloc, yes)?;
    Ok(reply)
}

/// How many residuals a set has.
fn say_states<P: Codes>(
    alloc: Global,
    pass: &P,
    scope: &Scope,
    p: &Predicate,
    a: Handle,
) -> Result<Vec<u8>, NoMemory>
    requires { HasSetOf P.home (P.lists pass.now) scope.now p.now a }
    ensures { IfOk result (λ reply. (bound : ℕ) → Tells scope.now (CommandKind.SetStates p.now) bound reply.items) }
{
    queries_tell_of_sets_alone(&PredicateSet {
        scope,
        predicate: p,
    });
    let count = state_count(alloc, pass, a)?;
    let reply = number_of(alloc, count)?;
    Ok(reply)
}

/// The first members of a set. Refused where one of them does not fit 128 bits.
fn say_list<P: Codes>(
    alloc: Global,
    pass: &P,
    scope: &Scope,
    p: &Predicate,
    k: u32,
    at: Position,
    a: Handle,
) -> Result<Vec<u8>, SessionFault>
    requires few { k ≤ 1000 }
    requires set { HasSetOf P.home (P.lists pass.now) scope.now p.now a }
    ensures ok { IfOk result (λ reply. (bound : ℕ) → Tells scope.now (CommandKind.SetList p.now k) bound reply.items) }
    ensures err { IfErr result (λ fault. (bound : ℕ) → RefusesTelling scope.now at (CommandKind.SetList p.now k) bound fault) }
{
    queries_tell_of_sets_alone(&PredicateSet {
        scope,
        predicate: p,
    });
    match list(alloc, pass, a, k) {
        Ok(members) => Ok(members_of(alloc, &members)?),
        Err(WitnessFault::Wide { letters }) => Err(SessionFault::WideValue {
            position: at,
            letters,
        }),
        Err(WitnessFault::NoMemory) => Err(SessionFault::NoMemory),
    }
}

/// Whether a set is a subset of another. Refused where the comparison costs more than the bound.
fn say_subset<P: Codes>(
    alloc: Global,
    pass: &P,
    scope: &Scope,
    p: &Predicate,
    q: &Predicate,
    at: Position,
    bound: u32,
    a: Handle,
    b: Handle,
) -> Result<Vec<u8>, SessionFault>
    requires tracks { length p.now.parameters ≡ length q.now.parameters }
    requires first { HasSetOf P.home (P.lists pass.now) scope.now p.now a }
    requires second { HasSetOf P.home (P.lists pass.now) scope.now q.now b }
    requires some { 0 < bound }
    requires few { bound ≤ 65536 }
    ensures ok { IfOk result (λ reply. Tells scope.now (CommandKind.SetSubset p.now q.now) bound reply.items) }
    ensures err { IfErr result (RefusesTelling scope.now at (CommandKind.SetSubset p.now q.now) bound) }
{
    comparisons_tell_of_sets_alone(
        &PredicateSet {
            scope,
            predicate: p,
        },
        &PredicateSet {
            scope,
            predicate: q,
        },
    );
    match is_subset(alloc, pass, a, b, bound) {
        Ok(yes) => Ok(truth_of(alloc, yes)?),
        Err(TableFault::States { .. }) => Err(SessionFault::States { position: at }),
        Err(TableFault::NoMemory) => Err(SessionFault::NoMemory),
    }
}

/// The line of a truth value.
fn truth_of(alloc: Global, value: bool) -> Result<Vec<u8>, NoMemory>
    ensures { IfOk result (λ bytes. bytes.items ≡ truth value) }
{
    let mut bytes = Vec::new(alloc);
    write_truth(&mut bytes, value)?;
    Ok(bytes)
}

/// The line of a number.
fn number_of(alloc: Global, n: u64) -> Result<Vec<u8>, NoMemory>
    ensures { IfOk result (λ bytes. bytes.items ≡ line (decimal n)) }
{
    let mut bytes = Vec::new(alloc);
    write_number(alloc, &mut bytes, n)?;
    Ok(bytes)
}

/// The line of vectors.
fn members_of(alloc: Global, members: &[Vec<i128>]) -> Result<Vec<u8>, NoMemory>
    ensures { IfOk result (λ bytes. bytes.items ≡ vectors (vectors_of members.now)) }
{
    let mut bytes = Vec::new(alloc);
    write_vectors(alloc, &mut bytes, members)?;
    Ok(bytes)
}
