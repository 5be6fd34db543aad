// Families of states, as increasing lists.
ghost use Rattle.std.specs.Prelude.{◌≡◌, ◌↔◌, ◌<◌, ◌≤◌, ◌+◌, ◌*◌, ◌^◌, ℕ, [], ◌∷◌, All, IfOk, OnOk, length};
ghost use Rattle.std.specs.List.{flat_map};
ghost use Rattle.pt_sets.specs.Automata.{IsAutomaton, next_of};
ghost use Rattle.pt_base.specs.Elements.{ContainsByRecursion, PairsByRecursion};
ghost use Rattle.pt_project.specs.Bits.{HasBit, IsClear};
ghost use Rattle.pt_project.specs.Families.{IsStepFamily, IsSuccessor};
ghost use Rattle.pt_project.specs.Projecting.{with_digit};

use crate::bits::{clear_words, set_bit, take_numbers};
use pt_tables::Table;
use std::alloc::{AllocError, Global};

/// What each step of a search uses again: a bit for each state, all clear between steps, and the family of the last step.
#[derive(Drop)]
pub(crate) struct Scratch {
    pub(crate) words: Vec<u64>,
    pub(crate) family: Vec<u32>,
}

impl Scratch {
    pub(crate) fn new(alloc: Global, states: u32) -> Result<Scratch, AllocError>
        requires { states ≤ 65536 }
        ensures { IfOk result (λ scratch. IsClear states scratch.words.items) }
    {
        Ok(Scratch {
            words: clear_words(alloc, states)?,
            family: Vec::new(alloc),
        })
    }
}

/// Puts numbers in increasing order, each once.
fn in_order(states: &mut Vec<u32>)
    ensures increasing { PairsByRecursion ◌<◌ states.new.items }
    ensures kept { (x : ℕ) → ContainsByRecursion x states.old.items → ContainsByRecursion x states.new.items }
    ensures others { (x : ℕ) → ContainsByRecursion x states.new.items → ContainsByRecursion x states.old.items }
{
    states.sort_unstable();
    states.dedup();
}

/// Appends the successors of states by two letters, one after the other.
fn push_successors(
    table: &Table,
    zero: u16,
    one: u16,
    family: &[u32],
    next: &mut Vec<u32>,
) -> Result<(), AllocError>
    requires zero { zero < 2 ^ table.now.tracks }
    requires one { one < 2 ^ table.now.tracks }
    requires within { All (λ x. x < table.now.states) family.now }
    requires empty { next.old.items ≡ [] }
    ensures { OnOk result (next.new.items ≡ flat_map (λ x. next_of table.now x zero ∷ next_of table.now x one ∷ []) family.now) }
{
    for state in family {
        next.push(table.next(*state, zero))?;
        next.push(table.next(*state, one))?;
    }
    Ok(())
}

/// Sets the bits of the successors of states by two letters.
fn mark_successors(table: &Table, zero: u16, one: u16, family: &[u32], words: &mut Vec<u64>)
    requires valid { IsAutomaton table.now }
    requires zero { zero < 2 ^ table.now.tracks }
    requires one { one < 2 ^ table.now.tracks }
    requires within { All (λ x. x < table.now.states) family.now }
    requires clear { IsClear table.now.states words.old.items }
    ensures count { length words.new.items ≡ length words.old.items }
    ensures marked { (y : ℕ) → HasBit words.new.items y ↔ IsSuccessor table.now zero one family.now y }
{
    for state in family {
        set_bit(words, table.next(*state, zero));
        set_bit(words, table.next(*state, one));
    }
}

/// A power of two.
pub(crate) fn power(exponent: u32) -> u16
    requires { exponent ≤ 10 }
    ensures value { result ≡ 2 ^ exponent }
    ensures bound { result ≤ 1024 }
    ensures some { 0 < result }
{
    1 << exponent
}

/// The letter with a digit put in at a track.
pub(crate) fn letter_with(track: u32, digit: u16, letter: u16, tracks: u32) -> u16
    requires track { track ≤ tracks }
    requires tracks { tracks < 10 }
    requires digit { digit < 2 }
    requires letter { letter < 2 ^ tracks }
    ensures value { result ≡ with_digit track digit letter }
    ensures letter { result < 2 ^ (tracks + 1) }
{
    let place = power(track);
    letter / place * (2 * place) + (digit * place + letter % place)
}

/// The successors of states by two letters, in increasing order: sorted where they are few against the states of the
/// table, read off their bits otherwise. Linear in the family and the words, or the time of the sort.
fn step(
    table: &Table,
    zero: u16,
    one: u16,
    family: &[u32],
    scratch: &mut Scratch,
) -> Result<(), AllocError>
    requires valid { IsAutomaton table.now }
    requires zero { zero < 2 ^ table.now.tracks }
    requires one { one < 2 ^ table.now.tracks }
    requires within { All (λ x. x < table.now.states) family.now }
    requires clear { IsClear table.now.states scratch.old.words.items }
    ensures clear { OnOk result (IsClear table.now.states scratch.new.words.items) }
    ensures increasing { OnOk result (PairsByRecursion ◌<◌ scratch.new.family.items) }
    ensures members { OnOk result ((y : ℕ) → ContainsByRecursion y scratch.new.family.items ↔ IsSuccessor table.now zero one family.now y) }
{
    scratch.family.clear();
    if family.len() < table.states() as usize / 512 {
        push_successors(table, zero, one, family, &mut scratch.family)?;
        in_order(&mut scratch.family);
        return Ok(());
    }
    mark_successors(table, zero, one, family, &mut scratch.words);
    take_numbers(&mut scratch.words, &mut scratch.family)
}

/// Puts the successors of a family by both letters that are `letter` without the track into the scratch.
pub(crate) fn step_family(
    table: &Table,
    track: u32,
    family: &[u32],
    letter: u16,
    tracks: u32,
    scratch: &mut Scratch,
) -> Result<(), AllocError>
    requires valid { IsAutomaton table.now }
    requires track { track ≤ tracks }
    requires tracks { table.now.tracks ≡ tracks + 1 }
    requires letter { letter < 2 ^ tracks }
    requires within { All (λ x. x < table.now.states) family.now }
    requires clear { IsClear table.now.states scratch.old.words.items }
    ensures clear { OnOk result (IsClear table.now.states scratch.new.words.items) }
    ensures step { OnOk result (IsStepFamily table.now track family.now letter scratch.new.family.items) }
{
    let zero = letter_with(track, 0, letter, tracks);
    let one = letter_with(track, 1, letter, tracks);
    step(table, zero, one, family, scratch)
}
