// The form of the words.
ghost use Rattle.std.specs.Prelude.{◌≡◌, ◌≢◌, ◌↔◌, ◌++◌, ℕ, List, [], IsTrue, map, string_bytes, MatchOption};
ghost use Rattle.std.specs.List.{Any, Contains};
ghost use Rattle.pt_options.specs.Options.{AreSettings, IsSetting, names, start};

/// Whether each word is `--name=value`, with the name of an option and a value that is not empty, and no name stands twice.
/// At most six words are looked at.
pub(crate) fn are_settings(words: &[String]) -> bool
    ensures { IsTrue result ↔ AreSettings (map string_bytes words.now) }
{
    for (i, word) in words.iter().enumerate() {
        match start_of(word.as_str()) {
            Some(start) if !stands_in(start, &words[..i]) => {}
            _ => return false,
        }
    }
    true
}

/// Whether one of the words begins so.
fn stands_in(start: &str, words: &[String]) -> bool
    ensures { IsTrue result ↔ Any (λ word. (value : List ℕ) × (string_bytes word ≡ start.now ++ value)) words.now }
{
    for word in words {
        if begins_with(word.as_str(), start) {
            return true;
        }
    }
    false
}

/// Whether the word begins so.
fn begins_with(word: &str, start: &str) -> bool
    ensures { IsTrue result ↔ ((value : List ℕ) × (word.now ≡ start.now ++ value)) }
{
    word.strip_prefix(start).is_some()
}

/// What a word `--name=value` begins with, up to its value, where it has the name of an option and a value.
fn start_of(word: &str) -> Option<&'static str>
    ensures { MatchOption result (¬ IsSetting word.now) (λ s. (name : List ℕ) × (value : List ℕ) × Contains names name × (s.now ≡ start name) × (value ≢ []) × (word.now ≡ s.now ++ value)) }
{
    if is_set(word, "--mode=") {
        return Some("--mode=");
    }
    if is_set(word, "--workers=") {
        return Some("--workers=");
    }
    if is_set(word, "--states=") {
        return Some("--states=");
    }
    if is_set(word, "--seed=") {
        return Some("--seed=");
    }
    if is_set(word, "--size=") {
        return Some("--size=");
    }
    None
}

/// Whether the word begins so, and goes on.
fn is_set(word: &str, start: &str) -> bool
    ensures { IsTrue result ↔ ((value : List ℕ) × (value ≢ []) × (word.now ≡ start.now ++ value)) }
{
    match word.strip_prefix(start) {
        Some(value) => !value.is_empty(),
        None => false,
    }
}
