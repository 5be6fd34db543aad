// How numbers are dealt to workers.
ghost use Rattle.std.specs.Prelude.{◌≡◌, ◌≢◌, ◌<◌, ℕ, [], ◌∷◌, ◌++◌, length, IfOk, OnOk};
ghost use Rattle.std.specs.List.Sorted.{IsPermutation};
ghost use Rattle.pt_workers.specs.Works.{all_of, dealt, hand_of};

use std::alloc::{AllocError, Global};

/// So many empty hands.
fn empty_hands(alloc: Global, count: usize) -> Result<Vec<Vec<u32>>, AllocError>
    ensures count { IfOk result (λ hands. length hands.items ≡ count) }
    ensures empty { IfOk result (λ hands. (k : ℕ) → hand_of hands.items k ≡ []) }
    ensures all { IfOk result (λ hands. all_of hands.items ≡ []) }
{
    let mut hands = Vec::new(alloc);
    for _ in 0..count {
        hands.push(Vec::new(alloc))?;
    }
    Ok(hands)
}

/// Puts a number last in one of the hands.
fn add(hands: &mut Vec<Vec<u32>>, hand: usize, number: u32) -> Result<(), AllocError>
    requires { hand < length hands.old.items }
    ensures count { length hands.new.items ≡ length hands.old.items }
    ensures added { OnOk result (hand_of hands.new.items hand ≡ hand_of hands.old.items hand ++ number ∷ []) }
    ensures others { OnOk result ((k : ℕ) → k ≢ hand → hand_of hands.new.items k ≡ hand_of hands.old.items k) }
{
    hands[hand].push(number)?;
    Ok(())
}

/// Deals numbers into so many hands: the j-th number, from 0, goes to the hand of number j mod `count`.
pub(crate) fn deal(
    alloc: Global,
    numbers: &[u32],
    count: usize,
) -> Result<Vec<Vec<u32>>, AllocError>
    requires { 0 < count }
    ensures count { IfOk result (λ hands. length hands.items ≡ count) }
    ensures each { IfOk result (λ hands. (k : ℕ) → k < count → hand_of hands.items k ≡ dealt count k 0 numbers.now) }
    ensures once { IfOk result (λ hands. IsPermutation numbers.now (all_of hands.items)) }
{
    let mut hands = empty_hands(alloc, count)?;
    for (j, number) in numbers.iter().enumerate() {
        add(&mut hands, j % count, *number)?;
    }
    Ok(hands)
}
