// Numbers.
ghost use Rattle.std.specs.Prelude.{◌≡◌, ◌^◌, ◌<◌, min, IfOk};
ghost use Rattle.pt_syntax.specs.Bytes.{numeral_value};
ghost use Rattle.pt_terms.specs.Terms.{numeral};
ghost use Rattle.pt_terms.specs.Gives.{Says};

use crate::refusals::refused;
use pt_syntax::{Position, ReadKind, ReadRefusal};

/// The value of digits, or `2^63` where it is greater. One pass.
fn magnitude(digits: &[u8]) -> u64
    ensures { result ≡ min (numeral_value digits.now) (2 ^ 63) }
{
    let mut value = 0u64;
    for b in digits {
        let next = 10 * u128::from(value) + u128::from(b.saturating_sub(48));
        value = next.min(1 << 63) as u64;
    }
    value
}

/// The number of these digits, which has to fit 63 bits.
pub fn number_at(at: Position, digits: &[u8]) -> Result<u64, ReadRefusal>
    ensures says { Says (λ n. n) result (numeral at digits.now) }
    ensures small { IfOk result (λ n. n < 2 ^ 63) }
{
    let value = magnitude(digits);
    if value < 1 << 63 {
        Ok(value)
    } else {
        Err(refused(ReadKind::Coefficient, at))
    }
}
