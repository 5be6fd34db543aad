// Words and vectors.
ghost use Rattle.std.specs.Prelude.{◌≡◌, ◌<◌, ◌≤◌, ◌^◌, length, All, IfOk, IfErr};
ghost use Rattle.pt_sets.specs.Words.{IsWord, value};
ghost use Rattle.pt_sets.specs.Costs.{restricted};
ghost use Rattle.pt_sets.specs.Shortlex.{IsShortestWord};
ghost use Rattle.pt_digits.specs.Fits.{FitsAll, IsCauseOf};

use crate::fault::{DigitFault, NoMemory};
use crate::vector::{are_signs, halve, lowest_letter, put_in_front, signs_of};
use std::alloc::Global;

/// The shortest word of a vector in two's complement, least digits first: one letter for each digit, whose bit i is the
/// digit of component i, and the sign last. At most 10 components; with none the word is the one letter 0.
/// Linear in letters times components; the word has at most 128 letters.
pub fn encode(alloc: Global, z: &[i128]) -> Result<Vec<u16>, NoMemory>
    requires { length z.now ≤ 10 }
    ensures { IfOk result (λ word. IsShortestWord word.items z.now) }
{
    let mut rest = Vec::from_slice(alloc, z)?;
    let mut word = Vec::new(alloc);
    while !are_signs(rest.as_slice()) {
        word.push(lowest_letter(rest.as_slice()))?;
        halve(&mut rest);
    }
    word.push(lowest_letter(rest.as_slice()))?;
    Ok(word)
}

/// The vector that a word stands for, one component for each track, by Horner's rule from the sign. `Wide` exactly where a
/// component does not fit 128 bits, however often the sign is repeated. Linear in letters times tracks.
pub fn decode(alloc: Global, word: &[u16], tracks: u32) -> Result<Vec<i128>, DigitFault>
    requires tracks { tracks ≤ 10 }
    requires word { IsWord tracks word.now }
    ensures ok { IfOk result (λ z. (z.items ≡ value tracks word.now) × FitsAll z.items) }
    ensures err { IfErr result (IsCauseOf (value tracks word.now)) }
{
    let last = word.len() - 1;
    let mut z = signs_of(alloc, word[last], tracks)?;
    for i in (0..last).rev() {
        if let Err(fault) = put_in_front(&mut z, word[i]) {
            return Err(fault);
        }
    }
    Ok(z)
}

/// The letter whose digit in track i is that of `letter` in track `map[i]`. Takes no memory.
pub fn restrict(letter: u16, map: &[u8]) -> u16
    requires few { length map.now ≤ 10 }
    requires tracks { All (λ i. i < 10) map.now }
    ensures { result ≡ restricted map.now letter }
{
    let mut answer = 0u16;
    for i in (0..map.len()).rev() {
        answer = 2 * answer + ((letter >> map[i]) & 1);
    }
    answer
}
