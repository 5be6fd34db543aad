//! Laws about commands: each holds for all values, and is cited by its contract.

ghost use Rattle.std.specs.Prelude.{◌⊎◌, ℕ, List};
ghost use Rattle.pt_read.specs.declared.command.Command.{Command as CommandValue};
ghost use Rattle.pt_read.specs.Fits.{FitsKind};
ghost use Rattle.pt_read.specs.Sound.{IsSoundScope};
ghost use Rattle.pt_script.specs.State.{Standing};
ghost use Rattle.pt_script.specs.Step.{Step};
ghost use Rattle.pt_script.specs.Answering.{HasReply, HasRefusal};

use pt_formula::laws::widening_puts_no_condition_on_added_variables;
use pt_read::laws::scopes_stay_sound;
use pt_sets::word_laws::each_vector_has_one_shortest_word;
use pt_truth::laws::{
    costs_are_decided, facts_on_solutions_are_decided, refusals_are_decided,
    residuals_are_a_number, solutions_have_first_ones,
};

/// In a sound scope each command that fits has, under every bound, a reply and a state after it, or a refusal of its own; and the
/// scope after it is sound.
pub fn commands_have_a_reply_or_a_refusal()
    ensures one { (s : Standing) (c : CommandValue) (bound : ℕ) → IsSoundScope s.scope → FitsKind c.kind s.scope → HasReply s c bound ⊎ HasRefusal s c bound }
    ensures sound { (s : Standing) (c : CommandValue) (bound : ℕ) (reply : List ℕ) (new : Standing) → IsSoundScope s.scope → FitsKind c.kind s.scope → Step s c bound reply new → IsSoundScope new.scope }
{
    widening_puts_no_condition_on_added_variables();
    each_vector_has_one_shortest_word();
    scopes_stay_sound();
    costs_are_decided();
    facts_on_solutions_are_decided();
    residuals_are_a_number();
    solutions_have_first_ones();
    refusals_are_decided();
}
