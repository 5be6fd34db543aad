ghost use Rattle.std.specs.Prelude.{ℕ, ◌≤◌, length};
ghost use Rattle.pt_drill.specs.Drill.{drill_text};

/// A script of at most 4,096 groups has at most 4,194,304 bytes.
pub fn scripts_are_short()
    ensures { (seed size : ℕ) → size ≤ 4096 → length (drill_text seed size) ≤ 4194304 }
{}
