//! The laws cited at one command, `check-sat`, in the initial state. What is tested is proved; running shows no more.
ghost use Rattle.std.specs.Prelude.{◌⊎◌, ℕ, List};
ghost use Rattle.pt_read.specs.Sound.{IsSoundScope};
ghost use Rattle.pt_script.specs.State.{Standing, initial};
ghost use Rattle.pt_script.specs.Step.{Step};
ghost use Rattle.pt_script.specs.Answering.{HasReply, HasRefusal};
ghost use Rattle.pt_script.specs.Examples.{check};

use crate::laws::commands_have_a_reply_or_a_refusal;
use pt_read::laws::scopes_stay_sound;

fn a_check_has_a_reply_or_a_refusal()
    ensures one { HasReply initial check 16384 ⊎ HasRefusal initial check 16384 }
    ensures sound { (reply : List ℕ) (new : Standing) → Step initial check 16384 reply new → IsSoundScope new.scope }
{
    scopes_stay_sound();
    commands_have_a_reply_or_a_refusal();
}

#[test]
fn laws_at_a_check() {
    a_check_has_a_reply_or_a_refusal();
}
