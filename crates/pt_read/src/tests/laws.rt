//! The laws cited at one text, `(check-sat)`, in the initial scope. What is tested is proved; running shows no more.
ghost use Rattle.std.specs.Prelude.{codes, Some};
ghost use Rattle.pt_syntax.specs.Lists.{Script, script};
ghost use Rattle.pt_read.specs.declared.command.Command.{Command as CommandValue};
ghost use Rattle.pt_read.specs.declared.command.CommandKind.TheVariants as kind;
ghost use Rattle.pt_read.specs.Scope.{State, initial, after};
ghost use Rattle.pt_read.specs.Fits.{FitsKind};
ghost use Rattle.pt_read.specs.Reader.{IsNext};
ghost use Rattle.pt_read.specs.Sound.{IsSoundScope, HasAnswer};

use crate::laws::{commands_that_are_read_fit, reading_has_one_answer, scopes_stay_sound};

fn a_text_has_an_answer()
    ensures { HasAnswer (script (codes "(check-sat)")) initial }
{
    reading_has_one_answer();
}

fn its_first_command_fits()
    ensures { (rest : Script) (new : State) (c : CommandValue) → IsNext (Some c) (script (codes "(check-sat)")) initial rest new → FitsKind c.kind new }
{
    scopes_stay_sound();
    commands_that_are_read_fit();
}

fn the_initial_scope_is_sound_after_a_reset()
    ensures { IsSoundScope (after kind.Reset initial) }
{
    scopes_stay_sound();
}

#[test]
fn laws_at_a_text() {
    a_text_has_an_answer();
    its_first_command_fits();
    the_initial_scope_is_sound_after_a_reset();
}
