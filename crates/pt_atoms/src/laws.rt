//! Laws about atoms, normal forms and residuals: each holds for all values, and is cited by its contract.

ghost use Rattle.std.specs.Prelude.{◌≡◌, ◌↔◌, ℕ, List, ◌++◌, ◌∷◌, [], length};
ghost use Rattle.pt_sets.specs.Words.{value, sign_vector};
ghost use Rattle.pt_sets.specs.Sets.{SameSet, residual_by};
ghost use Rattle.pt_sets.specs.Costs.{SameResidual, CostAbove, CostWithin, CostIs};
ghost use Rattle.pt_atoms.specs.Atoms.{AtomSet, NormalSet, IsAtom, IsNormal, IsNormalFormOf, SameForm, SameParameter, residual_form, form_after};
ghost use Rattle.pt_atoms.specs.Tables.{ResidualsAbove, ResidualsWithin, ResidualsAre};
ghost use Rattle.pt_atoms.specs.declared.Atom.{Atom as AtomValue};
ghost use Rattle.pt_atoms.specs.declared.Normal.{Normal as NormalValue};

/// Each atom has a normal form, and only one.
pub fn each_atom_has_one_normal_form()
    ensures exists { (a : AtomValue) → (n : NormalValue) × IsNormalFormOf a n }
    ensures unique { (a : AtomValue) (m n : NormalValue) → IsNormalFormOf a m → IsNormalFormOf a n → m ≡ n }
{}

/// The normal form of an atom is one, has as many coefficients and has the atom's set.
pub fn normal_forms_have_the_sets_of_atoms()
    ensures normal_form { (a : AtomValue) (n : NormalValue) → IsAtom a → IsNormalFormOf a n → IsNormal n }
    ensures tracks { (a : AtomValue) (n : NormalValue) → IsAtom a → IsNormalFormOf a n → length n.coefficients ≡ length a.coefficients }
    ensures set { (a : AtomValue) (n : NormalValue) → IsAtom a → IsNormalFormOf a n → SameSet (length a.coefficients) (NormalSet n) (AtomSet a) }
{}

/// The form after a list of letters is a normal form, has as many coefficients and has the residual set.
pub fn forms_after_letters_have_the_residuals()
    ensures normal_form { (n : NormalValue) (w : List ℕ) → IsNormal n → IsNormal (form_after n w) }
    ensures tracks { (n : NormalValue) (w : List ℕ) → IsNormal n → length (form_after n w).coefficients ≡ length n.coefficients }
    ensures set { (n : NormalValue) (w : List ℕ) → IsNormal n → SameSet (length n.coefficients) (NormalSet (form_after n w)) (residual_by (NormalSet n) w) }
{}

/// The forms that are reached and the residuals are one to one, and so are their parameters: their kinds and constants.
pub fn forms_and_residuals_are_one_to_one()
    ensures form { (n : NormalValue) (v w : List ℕ) → IsNormal n → SameForm n v w ↔ SameResidual (length n.coefficients) (NormalSet n) v w }
    ensures parameter { (n : NormalValue) (v w : List ℕ) → IsNormal n → SameParameter n v w ↔ SameResidual (length n.coefficients) (NormalSet n) v w }
{}

/// So the number of parameters that are reached is the number of residuals.
pub fn parameters_count_the_residuals()
    ensures above { (n : NormalValue) (bound : ℕ) → IsNormal n → CostAbove (SameParameter n) (length n.coefficients) bound ↔ ResidualsAbove n bound }
    ensures within { (n : NormalValue) (bound : ℕ) → IsNormal n → CostWithin (SameParameter n) (length n.coefficients) bound ↔ ResidualsWithin n bound }
    ensures number { (n : NormalValue) (count : ℕ) → IsNormal n → CostIs (SameParameter n) (length n.coefficients) count ↔ ResidualsAre n count }
{}

/// The residual by a sign has the sign's vector exactly where the form has it, and the value of a word is in the set
/// exactly where the form after its letters but the last has the vector of the last.
pub fn signs_decide_words()
    ensures sign_rule { (n : NormalValue) (s : ℕ) → IsNormal n → NormalSet (residual_form n s) (sign_vector (length n.coefficients) s) ↔ NormalSet n (sign_vector (length n.coefficients) s) }
    ensures words { (n : NormalValue) (w : List ℕ) (s : ℕ) → IsNormal n → NormalSet n (value (length n.coefficients) (w ++ s ∷ [])) ↔ NormalSet (form_after n w) (sign_vector (length n.coefficients) s) }
{}

/// More residuals than the bound, and at most as many as the bound, exclude each other.
pub fn costs_over_and_within_a_bound_exclude_each_other()
    ensures { (n : NormalValue) (bound : ℕ) → ResidualsAbove n bound → ResidualsWithin n bound → ⊥ }
{}
