ghost use Rattle.std.specs.Prelude.{◌≡◌, ◌<◌, ◌≤◌, ◌+◌, ℕ, ◌∷◌, drop, length, take, MatchOption, true, Some, None, slice_index};
ghost use Rattle.pt_syntax.specs.Lexemes.{number, based, keyword, quoted, literal, literal_rest};
ghost use Rattle.pt_syntax.specs.Fronts.{IsFrontOf, IsFront};

use crate::bytes;

/// What a word is.
#[derive(Clone, Copy)]
pub(crate) enum WordKind {
    Numeral,
    Constant,
    Text,
    Symbol,
    Quoted,
    Keyword,
}

/// What a text has at its front, with the number of its bytes.
#[derive(Clone, Copy)]
pub(crate) enum Front {
    Gap(usize),
    Opening,
    Closing,
    Word(usize, WordKind),
    Unclosed,
    Malformed,
}

/// What a run that begins with a digit is.
fn number_front(word: &[u8]) -> Front
    requires { 0 < length word.now }
    ensures { IsFrontOf (number word.now) result word.now }
{
    if bytes::is_written_numeral(word) {
        Front::Word(word.len(), WordKind::Numeral)
    } else if bytes::is_written_decimal(word) {
        Front::Word(word.len(), WordKind::Constant)
    } else {
        Front::Malformed
    }
}

/// What a run behind `#` makes of it.
fn based_front(run: &[u8]) -> Front
    ensures { IsFrontOf (based run.now) result (35 ∷ run.now) }
{
    let [base, digits @ ..] = run else {
        return Front::Malformed;
    };
    if *base == b'x' && bytes::are_hexadecimal(digits)
        || *base == b'b' && bytes::are_binary(digits)
    {
        Front::Word(run.len() + 1, WordKind::Constant)
    } else {
        Front::Malformed
    }
}

/// What a run behind `:` makes of it.
fn keyword_front(run: &[u8]) -> Front
    ensures { IsFrontOf (keyword run.now) result (58 ∷ run.now) }
{
    if run.is_empty() {
        Front::Malformed
    } else {
        Front::Word(run.len() + 1, WordKind::Keyword)
    }
}

/// What the bytes behind a bar make of it.
fn quoted_front(behind: &[u8]) -> Front
    ensures { IsFrontOf (quoted behind.now) result (124 ∷ behind.now) }
{
    let end = bytes::first_of(behind, b'|');
    if end == behind.len() {
        Front::Unclosed
    } else if bytes::may_be_a_name(&behind[..end]) {
        Front::Word(end + 2, WordKind::Quoted)
    } else {
        Front::Malformed
    }
}

/// How many bytes behind its first quote a string has.
fn literal_len(behind: &[u8]) -> Option<usize>
    ensures { MatchOption result (literal_rest true behind.now ≡ None) (λ n. (literal_rest true behind.now ≡ Some (take n behind.now)) × (n ≤ length behind.now)) }
{
    let mut is_inside = true;
    for (i, b) in behind.iter().enumerate() {
        let is_quote = *b == b'"';
        if !is_inside && !is_quote {
            return Some(i);
        }
        is_inside = is_inside != is_quote;
    }
    if is_inside { None } else { Some(behind.len()) }
}

/// What the bytes behind a quote make of it.
fn literal_front(behind: &[u8]) -> Front
    ensures { IsFrontOf (literal (literal_rest true behind.now)) result (34 ∷ behind.now) }
{
    match literal_len(behind) {
        None => Front::Unclosed,
        Some(n) if bytes::may_all_be_quoted(&behind[..n]) => Front::Word(n + 1, WordKind::Text),
        Some(_) => Front::Malformed,
    }
}

fn behind_first<'a>(text: &'a [u8]) -> &'a [u8]
    requires { 0 < length text.now }
    ensures { result.now ≡ drop 1 text.now }
{
    &text[1..]
}

/// What stands at the front: the longest run that begins there.
fn front_of(text: &[u8]) -> Front
    requires { 0 < length text.now }
    ensures { IsFront result text.now }
{
    let b = text[0];
    let behind = behind_first(text);
    if bytes::is_blank(b) {
        Front::Gap(1)
    } else if b == b';' {
        Front::Gap(bytes::line_len(behind) + 1)
    } else if b == b'(' {
        Front::Opening
    } else if b == b')' {
        Front::Closing
    } else if bytes::is_decimal_digit(b) {
        number_front(bytes::run_of(text))
    } else if bytes::is_in_symbol(b) {
        Front::Word(bytes::run_of(text).len(), WordKind::Symbol)
    } else if b == b'#' {
        based_front(bytes::run_of(behind))
    } else if b == b':' {
        keyword_front(bytes::run_of(behind))
    } else if b == b'"' {
        literal_front(behind)
    } else if b == b'|' {
        quoted_front(behind)
    } else {
        Front::Malformed
    }
}

/// The same at a place in a text.
pub(crate) fn front_at(text: &[u8], place: usize) -> Front
    requires { place < length text.now }
    ensures { IsFront result (drop place text.now) }
{
    front_of(&text[place..])
}
