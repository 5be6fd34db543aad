ghost use Rattle.std.specs.Prelude.{◌≤◌, ◌≡◌, ℕ, Bool, List};
ghost use Rattle.pt_main.specs.Output.{IsOutput, IsFrontOf, IsFrontOfOutput};
ghost use Rattle.pt_main.specs.Wanted.{IsWork, IsScriptWork};
ghost use Rattle.pt_main.specs.Modes.{IsDefined, IsFrontOfDefined};
ghost use Rattle.pt_options.specs.Options.{AreOptions};

use pt_eval::refusals_are_exact;
use pt_options::words::options_are_one;
use pt_read::laws::{commands_that_are_read_fit, scopes_stay_sound};
use pt_script::laws::commands_have_a_reply_or_a_refusal;

/// A text has at most one output and one status under a bound.
pub fn outputs_are_one()
    ensures { (text : List ℕ) (bound : ℕ) (one two : List ℕ) (first second : Bool) → IsOutput text bound one first → IsOutput text bound two second → (one ≡ two) × (first ≡ second) }
{
    refusals_are_exact();
}

/// A text has an output and a status under each bound: each rest of it has a next command or a refusal, each command that is read
/// has a reply or a refusal, and each takes one list of the text.
pub fn texts_have_outputs()
    ensures { (text : List ℕ) (bound : ℕ) → (out : List ℕ) × (refused : Bool) × IsOutput text bound out refused }
{
    scopes_stay_sound();
    commands_that_are_read_fit();
    commands_have_a_reply_or_a_refusal();
}

/// What a run that is cut off has written is a prefix of the output of its text under the same bound.
pub fn fronts_are_prefixes()
    ensures { (text : List ℕ) (bound : ℕ) (front out : List ℕ) (refused : Bool) → IsFrontOfOutput text bound front → IsOutput text bound out refused → IsFrontOf front out }
{
    refusals_are_exact();
}

/// The work of a command to which a run comes is at most that of the script, which is the work at the last one.
pub fn work_is_within_that_of_the_script()
    ensures { (text : List ℕ) (bound work whole : ℕ) → IsWork text bound work → IsScriptWork text bound whole → work ≤ whole }
{
    scopes_stay_sound();
    commands_that_are_read_fit();
    commands_have_a_reply_or_a_refusal();
}

/// Words and the bytes of a source define at most one output and one status.
pub fn definitions_are_one()
    ensures { (words : List (List ℕ)) (bytes one two : List ℕ) (first second : Bool) → IsDefined words bytes one first → IsDefined words bytes two second → (one ≡ two) × (first ≡ second) }
{
    options_are_one();
    outputs_are_one();
}

/// Words that give options define an output and a status for all bytes of a source.
pub fn options_have_outputs()
    ensures { (words : List (List ℕ)) (bytes : List ℕ) → AreOptions words → (out : List ℕ) × (refused : Bool) × IsDefined words bytes out refused }
{
    texts_have_outputs();
}

/// What a run that is cut off has written is a prefix of the output that its words and bytes define.
pub fn fronts_of_definitions_are_prefixes()
    ensures { (words : List (List ℕ)) (bytes front out : List ℕ) (refused : Bool) → IsFrontOfDefined words bytes front → IsDefined words bytes out refused → IsFrontOf front out }
{
    options_are_one();
    outputs_are_one();
    fronts_are_prefixes();
}
