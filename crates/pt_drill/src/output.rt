// What is written of the output of the script.
ghost use Rattle.std.specs.Prelude.{◌≡◌, ◌++◌, IfOk, OnOk, IfSome, decimal};
ghost use Rattle.pt_drill.specs.Summary.{count_of, number_on, sum_of, summary as summary_line, last_line as last_line_of};

use crate::script::write_number;
use pt_digits::NoMemory;
use std::alloc::Global;

/// The line of mode drill where every command of the script of this seed and this size is answered: how many lines of the
/// script's output are `sat`, how many are `unsat`, and the sum of those that are numbers.
///
/// No output of such a script has numbers whose sum is over 64 bits; there it would answer `NoMemory`. Linear in the output.
pub fn summary(alloc: Global, seed: u32, size: u32, output: &[u8]) -> Result<Vec<u8>, NoMemory>
    ensures { IfOk result (λ line. line.items ≡ summary_line seed size output.now) }
{
    let Some(states) = sum(output) else {
        return Err(NoMemory);
    };
    let mut line = Vec::new(alloc);
    write_number(alloc, &mut line, b"drill ", seed)?;
    write_number(alloc, &mut line, b" ", size)?;
    write_count(alloc, &mut line, b": ", count(output, b"sat"))?;
    write_count(alloc, &mut line, b" sat, ", count(output, b"unsat"))?;
    write_count(alloc, &mut line, b" unsat, ", states)?;
    line.extend_from_slice(b" states\n")?;
    Ok(line)
}

/// A count, and what stands before it.
fn write_count(alloc: Global, out: &mut Vec<u8>, before: &[u8], n: u64) -> Result<(), NoMemory>
    ensures { OnOk result (out.new.items ≡ out.old.items ++ before.now ++ decimal n) }
{
    let digits = format!(in alloc; "{n}")?;
    out.extend_from_slice(before)?;
    out.extend_from_slice(digits.as_bytes())?;
    Ok(())
}

/// How many lines are this word.
fn count(output: &[u8], word: &[u8]) -> u64
    ensures { result ≡ count_of word.now output.now }
{
    output
        .split(|b| *b == b'\n')
        .filter(|line| *line == word)
        .count() as u64
}

/// The sum of the lines that are numbers, where it fits.
fn sum(output: &[u8]) -> Option<u64>
    ensures { IfSome result (λ n. n ≡ sum_of output.now) }
{
    let mut sum: u64 = 0;
    for line in output.split(|b| *b == b'\n') {
        let n = number_on(line)?;
        sum = sum.checked_add(n)?;
    }
    Some(sum)
}

/// The number that a line writes, where it fits; 0 where it writes none.
fn number_on(line: &[u8]) -> Option<u64>
    ensures { IfSome result (λ n. n ≡ number_on line.now) }
{
    let mut n: u64 = 0;
    for b in line {
        if !b.is_ascii_digit() {
            return Some(0);
        }
        let shifted = n.checked_mul(10)?;
        n = shifted.checked_add(u64::from(*b - b'0'))?;
    }
    Some(n)
}

/// The last line, with its line feed. Linear in the text.
pub fn last_line(text: &[u8]) -> &[u8]
    ensures { result.now ≡ last_line_of text.now }
{
    let mut start = 0;
    for i in 1..text.len() {
        if text[i - 1] == b'\n' {
            start = i;
        }
    }
    &text[start..]
}
