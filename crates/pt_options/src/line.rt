// The words, read by the parser of command lines.
ghost use Rattle.std.specs.Prelude.{◌≡◌, map, string_bytes, IfOk, IfErr, false};
ghost use Rattle.clap.specs.Words.{kind_of, found_of, first_value, rule_of, new_rule};
ghost use Rattle.pt_options.specs.Options.{AreSettings};
ghost use Rattle.pt_options.specs.Values.{AreValues};

use clap::error::ErrorKind;
use clap::{Arg, ArgAction, ArgMatches, Command, Error};
use std::alloc::Global;

/// The values that the words give the options. The parser takes each such line, so it fails for want of memory alone.
pub(crate) fn parsed<'a>(alloc: Global, words: &'a [String]) -> Result<ArgMatches<'a>, Error>
    requires { AreSettings (map string_bytes words.now) }
    ensures ok { IfOk result (λ m. AreValues (map string_bytes words.entry.now) (first_value (found_of m))) }
    ensures err { IfErr result (λ e. kind_of e ≡ ErrorKind.OutOfMemory) }
{
    let command = Command::new(alloc, "prestaf")
        .no_binary_name(true)
        .disable_help_flag(true)
        .arg(option(alloc, "mode"))?
        .arg(option(alloc, "workers"))?
        .arg(option(alloc, "states"))?
        .arg(option(alloc, "seed"))?
        .arg(option(alloc, "size"))?;
    command.try_get_matches_from(words)
}

/// An option that takes the values of all its uses.
fn option<'a>(alloc: Global, name: &'a str) -> Arg<'a>
    ensures rule { rule_of result ≡ record (new_rule name.entry.now) { long = Some name.entry.now; action = Some ArgAction.Append } }
    ensures local { result.global ≡ false }
{
    Arg::new(alloc, name).long(name).action(ArgAction::Append)
}
