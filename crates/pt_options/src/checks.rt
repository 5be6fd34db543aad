// The numbers and the mode, from their texts.
ghost use Rattle.std.specs.Prelude.{◌≡◌, ◌≢◌, ◌⊎◌, ◌↔◌, ◌<◌, ◌≤◌, ◌^◌, ℕ, IsTrue, slice_index, option_map, codes, decimal, MatchOption};
ghost use Rattle.clap.specs.Words.{found_of, first_value};
ghost use Rattle.pt_options.specs.declared.given.Mode.{Mode as GivenMode};
ghost use Rattle.pt_options.specs.declared.given.Options.{Options as GivenOptions};
ghost use Rattle.pt_options.specs.Values.{HaveOptions, IsMode, IsNumber, IsNumberOr, IsDrill};

use crate::given::{Mode, Options};
use clap::ArgMatches;

/// The options that the values give.
pub(crate) fn checked(values: &ArgMatches) -> Option<Options>
    ensures { MatchOption result ((o : GivenOptions) → ¬ HaveOptions (first_value (found_of values.now)) o) (HaveOptions (first_value (found_of values.now))) }
{
    let Some(mode) = mode_of(values.get_str("mode")) else {
        return None;
    };
    let Some(workers) = number_or(values.get_str("workers"), 1, 16, 1) else {
        return None;
    };
    let Some(states) = number_or(values.get_str("states"), 1, 65_536, 16_384) else {
        return None;
    };
    let Some((seed, size)) = drill_of(mode, values.get_str("seed"), values.get_str("size")) else {
        return None;
    };
    Some(Options {
        mode,
        workers,
        states,
        seed,
        size,
    })
}

/// The mode, solve by default.
fn mode_of(value: Option<&str>) -> Option<Mode>
    ensures { MatchOption result ((mode : GivenMode) → ¬ IsMode (option_map (λ s. s.now) value.entry) mode) (IsMode (option_map (λ s. s.now) value.entry)) }
{
    match value {
        Some("solve") | None => Some(Mode::Solve),
        Some("drill") => Some(Mode::Drill),
        Some(_) => None,
    }
}

/// The seed and the size: both in mode drill, and none else.
fn drill_of(mode: Mode, seed: Option<&str>, size: Option<&str>) -> Option<(u32, u32)>
    ensures { MatchOption result ((m n : ℕ) → ¬ IsDrill (option_map (λ s. s.now) seed.entry) (option_map (λ s. s.now) size.entry) mode m n) (λ p. IsDrill (option_map (λ s. s.now) seed.entry) (option_map (λ s. s.now) size.entry) mode p.0 p.1) }
{
    match mode {
        Mode::Solve => {
            if seed.is_some() || size.is_some() {
                return None;
            }
            Some((0, 0))
        }
        Mode::Drill => {
            let Some(first) = required(seed, 0, 2_147_483_647) else {
                return None;
            };
            let Some(second) = required(size, 1, 4_096) else {
                return None;
            };
            Some((first, second))
        }
    }
}

/// A number between bounds, or a default where there is no text.
fn number_or(value: Option<&str>, least: u32, most: u32, default: u32) -> Option<u32>
    ensures { MatchOption result ((n : ℕ) → ¬ IsNumberOr (option_map (λ s. s.now) value.entry) least most default n) (IsNumberOr (option_map (λ s. s.now) value.entry) least most default) }
{
    match value {
        Some(text) => number(text, least, most),
        None => Some(default),
    }
}

/// A number between bounds.
fn required(value: Option<&str>, least: u32, most: u32) -> Option<u32>
    ensures { MatchOption result ((n : ℕ) → ¬ IsNumber (option_map (λ s. s.now) value.entry) least most n) (IsNumber (option_map (λ s. s.now) value.entry) least most) }
{
    match value {
        Some(text) => number(text, least, most),
        None => None,
    }
}

/// A number between bounds, in decimal digits without a leading zero.
fn number(text: &str, least: u32, most: u32) -> Option<u32>
    ensures { MatchOption result ((n : ℕ) → least ≤ n → n ≤ most → text.now ≢ decimal n) (λ n. (least ≤ n) × (n ≤ most) × (text.now ≡ decimal n)) }
{
    match number_of(text) {
        Some(n) if least <= n && n <= most => Some(n),
        _ => None,
    }
}

/// The number that is written so, without a leading zero.
fn number_of(digits: &str) -> Option<u32>
    ensures { MatchOption result ((n : ℕ) → n < 2 ^ 32 → digits.now ≢ decimal n) (λ n. digits.now ≡ decimal n) }
{
    match digits.parse::<u32>() {
        Ok(n) if is_plain(digits) => Some(n),
        _ => None,
    }
}

/// Whether a number begins with no zero or sign, or is 0.
fn is_plain(text: &str) -> bool
    ensures { IsTrue result ↔ ((text.now ≡ codes "0") ⊎ (48 < slice_index text.now 0)) }
{
    match text.as_bytes() {
        b"0" => true,
        [first, ..] => *first > b'0',
        [] => false,
    }
}
