// The options that the words give.
ghost use Rattle.std.specs.Prelude.{◌≡◌, ℕ, List, map, string_bytes, IfOk};
ghost use Rattle.pt_options.specs.Options.{GiveOptions, AreOptions};

use crate::checks::checked;
use crate::given::{Options, WordsFault};
use crate::line::parsed;
use crate::shape::are_settings;
use std::alloc::Global;

/// The options that the words give. Each word is `--name=value`, in any order, with a name once at most: `--mode=solve` or
/// `--mode=drill`, `--workers=N` from 1 to 16, `--states=B` from 1 to 65,536, and in mode drill `--seed=N` below 2^31 and
/// `--size=K` from 1 to 4,096. Numbers have no leading zero. By default the mode is solve, with one worker and 16,384 states.
///
/// `Usage` where the words are no such. The time is linear in the words and their bytes.
pub fn options(alloc: Global, words: &[String]) -> Result<Options, WordsFault>
    ensures given { IfOk result (λ o. GiveOptions (map string_bytes words.now) o) }
    ensures usage { result ≡ Err WordsFault.Usage → ¬ AreOptions (map string_bytes words.now) }
{
    if !are_settings(words) {
        return Err(WordsFault::Usage);
    }
    let Ok(matches) = parsed(alloc, words) else {
        return Err(WordsFault::NoMemory);
    };
    match checked(&matches) {
        Some(options) => Ok(options),
        None => Err(WordsFault::Usage),
    }
}

/// Words give one list of options at most.
pub fn options_are_one()
    ensures { (words : List (List ℕ)) (one two : Options) → GiveOptions words one → GiveOptions words two → one ≡ two }
{}
