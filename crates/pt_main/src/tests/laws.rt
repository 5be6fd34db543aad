//! The laws cited at one text. What is tested is proved; running shows no more.
ghost use Rattle.std.specs.Prelude.{◌≡◌, ℕ, Bool, List, codes};
ghost use Rattle.pt_main.specs.Output.{IsOutput};

use crate::laws::{outputs_are_one, texts_have_outputs};

fn a_text_has_one_output()
    ensures some { (out : List ℕ) × (refused : Bool) × IsOutput (codes "(check-sat)") 16384 out refused }
    ensures one { (one two : List ℕ) (first second : Bool) → IsOutput (codes "(check-sat)") 16384 one first → IsOutput (codes "(check-sat)") 16384 two second → (one ≡ two) × (first ≡ second) }
{
    texts_have_outputs();
    outputs_are_one();
}

#[test]
fn laws_at_a_text() {
    a_text_has_one_output();
}
