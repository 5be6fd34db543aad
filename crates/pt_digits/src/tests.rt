// Worked words and values.
ghost use Rattle.std.specs.Prelude.{◌≤◌, length, IsTrue};
ghost use Rattle.pt_sets.specs.Words.{IsWord, AreLetters};

use crate::*;
use std::alloc::Global;
use std::test::Fail;

fn has_word(alloc: Global, z: &[i128], word: &[u16]) -> Result<bool, NoMemory>
    requires { length z.now ≤ 10 }
{
    Ok(encode(alloc, z)?.as_slice() == word)
}

fn has_value(alloc: Global, word: &[u16], z: &[i128]) -> Result<bool, DigitFault>
    requires word { IsWord (length z.now) word.now }
    requires few { length z.now ≤ 10 }
{
    Ok(decode(alloc, word, z.len() as u32)?.as_slice() == z)
}

fn are_bits(word: &[u16]) -> bool
    ensures { IsTrue result → AreLetters 1 word.now }
{
    word.iter().all(|a| *a < 2)
}

#[test]
fn vectors_have_their_shortest_words(rt: HostRuntime) -> Result<(), Fail> {
    let alloc = rt.alloc();
    assert!(rt; has_word(alloc, &[5], &[1, 0, 1, 0])?);
    assert!(rt; has_word(alloc, &[0, -1], &[2])?);
    assert!(rt; has_word(alloc, &[1, 0], &[1, 0])?);
    assert!(rt; has_word(alloc, &[], &[0])?);
    Ok(())
}

#[test]
fn words_have_their_values(rt: HostRuntime) -> Result<(), Fail> {
    let alloc = rt.alloc();
    assert!(rt; has_value(alloc, &[0, 1], &[-2])?);
    assert!(rt; has_value(alloc, &[1, 2, 3], &[-3, -2])?);
    assert_eq!(rt; restrict(6, &[1, 0, 2]), 5);
    Ok(())
}

// -2^127 has 128 letters, and with a digit 0 in front -2^128, which does not fit.
#[test]
fn values_end_at_128_bits(rt: HostRuntime) -> Result<(), Fail> {
    let alloc = rt.alloc();
    let mut word = encode(alloc, &[i128::MIN])?;
    assert_eq!(rt; word.len(), 128);
    assert!(rt; has_value(alloc, word.as_slice(), &[i128::MIN])?);
    let mut by_hand = vec![in alloc; 0u16; 127]?;
    by_hand.push(1)?;
    assert!(rt; are_bits(by_hand.as_slice()) && by_hand.as_slice() == word.as_slice());
    assert!(rt; has_value(alloc, by_hand.as_slice(), &[i128::MIN])?);
    word.insert(0, 0)?;
    assert!(rt; decode(alloc, word.as_slice(), 1) == Err(DigitFault::Wide));
    Ok(())
}
