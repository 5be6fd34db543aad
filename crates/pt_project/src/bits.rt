// Sets of numbers as bits, 64 a word.
ghost use Rattle.std.specs.Prelude.{◌≡◌, ◌≢◌, ◌↔◌, ◌⊎◌, ◌<◌, ◌≤◌, ◌+◌, ◌*◌, ◌^◌, ℕ, [], length, OnOk, IfOk};
ghost use Rattle.std.specs.Int.{bit_at};
ghost use Rattle.pt_base.specs.Elements.{ContainsByRecursion, PairsByRecursion};
ghost use Rattle.pt_project.specs.Bits.{bit_of, HasBit, IsClear};

use std::alloc::{AllocError, Global};

/// Words for so many numbers, without a bit.
pub(crate) fn clear_words(alloc: Global, numbers: u32) -> Result<Vec<u64>, AllocError>
    requires { numbers ≤ 65536 }
    ensures { IfOk result (λ words. IsClear numbers words.items) }
{
    let count = numbers.div_ceil(64);
    vec![in alloc; 0u64; count as usize]
}

/// Sets the bit of a number.
pub(crate) fn set_bit(words: &mut Vec<u64>, number: u32)
    requires { number < 64 * length words.old.items }
    ensures count { length words.new.items ≡ length words.old.items }
    ensures here { HasBit words.new.items number }
    ensures others { (x : ℕ) → x ≢ number → bit_of words.new.items x ≡ bit_of words.old.items x }
{
    words[number as usize / 64] |= 1 << (number % 64);
}

/// Appends the numbers of the bits of a word, in increasing order, counted from a first one.
fn push_bits(word: u64, first: u32, numbers: &mut Vec<u32>) -> Result<(), AllocError>
    requires first { first + 64 ≤ 65536 }
    requires below { (x : ℕ) → ContainsByRecursion x numbers.old.items → x < first }
    requires increasing { PairsByRecursion ◌<◌ numbers.old.items }
    ensures increasing { OnOk result (PairsByRecursion ◌<◌ numbers.new.items) }
    ensures below { OnOk result ((x : ℕ) → ContainsByRecursion x numbers.new.items → x < first + 64) }
    ensures members { OnOk result ((x : ℕ) → ContainsByRecursion x numbers.new.items ↔ (ContainsByRecursion x numbers.old.items ⊎ ((i : ℕ) × (i < 64) × (bit_at word i ≡ 1) × (first + i ≡ x)))) }
{
    let mut left = word;
    while left != 0 {
        let bit = left.trailing_zeros();
        numbers.push(first + bit)?;
        left &= !(1 << bit);
    }
    Ok(())
}

/// Clears the words, and appends the numbers whose bits were set in increasing order.
pub(crate) fn take_numbers(words: &mut Vec<u64>, numbers: &mut Vec<u32>) -> Result<(), AllocError>
    requires few { length words.old.items ≤ 1024 }
    requires empty { numbers.old.items ≡ [] }
    ensures count { length words.new.items ≡ length words.old.items }
    ensures none { OnOk result ((x : ℕ) → bit_of words.new.items x ≡ 0) }
    ensures increasing { OnOk result (PairsByRecursion ◌<◌ numbers.new.items) }
    ensures members { OnOk result ((x : ℕ) → ContainsByRecursion x numbers.new.items ↔ HasBit words.old.items x) }
{
    for k in 0..words.len() {
        let word = words[k];
        words[k] = 0;
        push_bits(word, 64 * k as u32, numbers)?;
    }
    Ok(())
}
