//! Laws about reading: each holds for all texts and scopes, and is cited by its contract.

ghost use Rattle.std.specs.Prelude.{◌≡◌, ◌≤◌, ◌<◌, ◌+◌, ◌^◌, ◌⊎◌, ℕ, List, Option, Some, length};
ghost use Rattle.pt_syntax.specs.declared.kinds.ReadRefusal.{ReadRefusal as RefusalValue};
ghost use Rattle.pt_syntax.specs.Lists.{Script, script};
ghost use Rattle.pt_read.specs.declared.command.Command.{Command as CommandValue};
ghost use Rattle.pt_read.specs.declared.command.CommandKind.{CommandKind as KindValue};
ghost use Rattle.pt_read.specs.Scope.{State, initial, after, conjunction};
ghost use Rattle.pt_read.specs.Fits.{FitsKind};
ghost use Rattle.pt_read.specs.Numbers.{numbers_in};
ghost use Rattle.pt_read.specs.Reader.{IsNext, IsRefusedWith, OnlyAdds};
ghost use Rattle.pt_read.specs.Sound.{IsSoundScope, HasAnswer};

use pt_syntax::laws::lists_are_no_larger_than_their_text;
use pt_terms::laws::{
    names_stay_in_range, terms_are_over_the_names_that_they_see, terms_give_out_few_numbers,
    terms_keep_formulas_well_formed,
};

/// What is left of a text has exactly one answer in every scope: no command is left, or this one is next and these nodes and
/// variable numbers are added, or this refusal.
pub fn reading_has_one_answer()
    ensures answer { (left : Script) (s : State) → HasAnswer left s }
    ensures next { (left rest other : Script) (s new now : State) (c d : Option CommandValue) → IsNext c left s rest new → IsNext d left s other now → (c ≡ d) × (rest ≡ other) × (new ≡ now) }
    ensures refusal { (left : Script) (s : State) (e f : RefusalValue) → IsRefusedWith left s e → IsRefusedWith left s f → e ≡ f }
    ensures apart { (left rest : Script) (s new : State) (c : Option CommandValue) (e : RefusalValue) → IsNext c left s rest new → ¬ IsRefusedWith left s e }
{}

/// In a sound scope the next command fits, only nodes and variable numbers are added, and the scope stays sound.
pub fn commands_that_are_read_fit()
    ensures { (left rest : Script) (s new : State) (c : CommandValue) → IsSoundScope s → IsNext (Some c) left s rest new → IsSoundScope new × OnlyAdds s new × FitsKind c.kind new }
{
    terms_are_over_the_names_that_they_see();
    terms_keep_formulas_well_formed();
    names_stay_in_range();
}

/// The initial scope is sound, and a sound scope is so after each command that fits. The conjunction of its assertions is one of
/// its nodes.
pub fn scopes_stay_sound()
    ensures initial { IsSoundScope initial }
    ensures after { (k : KindValue) (s : State) → FitsKind k s → IsSoundScope s → IsSoundScope (after k s) }
    ensures conjunction { (s : State) → IsSoundScope s → conjunction s < length s.formula }
{}

/// A text gives out at most as many variable numbers as it has bytes: each stands for a leaf or a list of it. What a
/// command gives out, its list has, so the commands that are left have as much less.
pub fn texts_give_out_few_numbers()
    ensures whole { (text : List ℕ) → numbers_in (script text) ≤ length text }
    ensures given { (c : CommandValue) (old left : Script) (s t : State) → IsNext (Some c) old s left t → length (after c.kind t).given + numbers_in left < length s.given + numbers_in old }
    ensures fewer { (c : CommandValue) (old left : Script) (s t : State) → IsNext (Some c) old s left t → numbers_in left < numbers_in old }
{
    lists_are_no_larger_than_their_text();
    terms_give_out_few_numbers();
}

/// A command pushes fewer than 2^63 levels.
pub fn commands_push_few_levels()
    ensures { (c : CommandValue) (old left : Script) (s t : State) → IsNext (Some c) old s left t → (after c.kind t).depth < s.depth + 2 ^ 63 }
{}
