//! Laws of texts and their lists: each holds for all texts, and is cited by its contract.

ghost use Rattle.std.specs.Prelude.{◌≤◌, ℕ, suc, length};
ghost use Rattle.pt_syntax.specs.Rest.{Rest, lists_left};
ghost use Rattle.pt_syntax.specs.Sizes.{size_within, script_size};
ghost use Rattle.pt_syntax.specs.declared.sexpr.SExpr.{SExpr as SExprValue};

/// A text has at least as many bytes as its lists have leaves and lists, since each begins at a byte of its own.
pub fn lists_are_no_larger_than_their_text()
    ensures { (depth : ℕ) (r : Rest) → script_size depth (lists_left r) ≤ length r.text }
{}

/// A deeper look into lists finds no less.
pub fn a_deeper_look_finds_no_less()
    ensures { (depth : ℕ) (e : SExprValue) → size_within depth e ≤ size_within (suc depth) e }
{}
