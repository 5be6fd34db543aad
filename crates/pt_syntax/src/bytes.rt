ghost use Rattle.std.specs.Prelude.{◌≡◌, not, ◌==◌, ◌&&◌, take_while, ◌≤◌, length, codes};
ghost use Rattle.std.specs.List.{list_all, list_any, prefix_len, position_or_len};
ghost use Rattle.pt_syntax.specs.Bytes.{is_space, ends_line, is_digit, is_letter, is_hexadecimal, is_binary, is_symbol_byte, is_printable, is_numeral, all_of};
ghost use Rattle.pt_syntax.specs.Lexemes.{is_decimal};

pub(crate) fn is_blank(b: u8) -> bool
    ensures { result ≡ is_space b }
{
    b == 9 || b == 10 || b == 13 || b == 32
}

fn is_line_end(b: u8) -> bool
    ensures { result ≡ ends_line b }
{
    b == 10 || b == 13
}

/// Whether a byte is one of the digits `0` to `9`. Constant time, no memory.
pub fn is_decimal_digit(b: u8) -> bool
    ensures { result ≡ is_digit b }
{
    48 <= b && b <= 57
}

fn is_latin_letter(b: u8) -> bool
    ensures { result ≡ is_letter b }
{
    65 <= b && b <= 90 || 97 <= b && b <= 122
}

fn is_hexadecimal_digit(b: u8) -> bool
    ensures { result ≡ is_hexadecimal b }
{
    is_decimal_digit(b) || 65 <= b && b <= 70 || 97 <= b && b <= 102
}

fn is_binary_digit(b: u8) -> bool
    ensures { result ≡ is_binary b }
{
    b == 48 || b == 49
}

fn is_mark(b: u8) -> bool
    ensures { result ≡ list_any (λ c. b == c) (codes "~!@$%^&*_-+=<>.?/") }
{
    b"~!@$%^&*_-+=<>.?/".iter().any(|c| b == *c)
}

/// Whether a byte may stand in a simple symbol: an ASCII letter, a digit or one of
/// ``~!@$%^&*_-+=<>.?/`` (SMT-LIB 2.6, section 3.1). A simple symbol is one or more of them, not
/// beginning with a digit. Constant time, no memory.
pub fn is_in_symbol(b: u8) -> bool
    ensures { result ≡ is_symbol_byte b }
{
    is_latin_letter(b) || is_decimal_digit(b) || is_mark(b)
}

/// Whether the byte may stand in a string.
fn may_be_quoted(b: u8) -> bool
    ensures { result ≡ is_printable b }
{
    is_blank(b) || 32 <= b && b != 127
}

/// How many bytes from the front are of a symbol.
fn run_len(bytes: &[u8]) -> usize
    ensures { result ≡ prefix_len is_symbol_byte bytes.now }
{
    for (i, b) in bytes.iter().enumerate() {
        if !is_in_symbol(*b) {
            return i;
        }
    }
    bytes.len()
}

/// The longest run of symbol bytes at the front.
pub(crate) fn run_of<'a>(bytes: &'a [u8]) -> &'a [u8]
    ensures { result.now ≡ take_while is_symbol_byte bytes.now }
{
    &bytes[..run_len(bytes)]
}

/// How many bytes from the front stand on the same line.
pub(crate) fn line_len(bytes: &[u8]) -> usize
    ensures len { result ≡ prefix_len (λ c. not (ends_line c)) bytes.now }
    ensures within { result ≤ length bytes.now }
{
    for (i, b) in bytes.iter().enumerate() {
        if is_line_end(*b) {
            return i;
        }
    }
    bytes.len()
}

/// Where the byte first stands; the number of bytes where it does not.
pub(crate) fn first_of(bytes: &[u8], byte: u8) -> usize
    ensures place { result ≡ position_or_len (λ c. c == byte) bytes.now }
    ensures within { result ≤ length bytes.now }
{
    for (i, b) in bytes.iter().enumerate() {
        if *b == byte {
            return i;
        }
    }
    bytes.len()
}

fn are_digits(word: &[u8]) -> bool
    ensures { result ≡ list_all is_digit word.now }
{
    word.iter().all(|b| is_decimal_digit(*b))
}

fn are_some_digits(word: &[u8]) -> bool
    ensures { result ≡ all_of is_digit word.now }
{
    match word {
        [] => false,
        [_, ..] => are_digits(word),
    }
}

pub(crate) fn is_written_numeral(word: &[u8]) -> bool
    ensures { result ≡ is_numeral word.now }
{
    match word {
        [] => false,
        [b] => is_decimal_digit(*b),
        [b, ..] => *b != b'0' && are_digits(word),
    }
}

pub(crate) fn is_written_decimal(word: &[u8]) -> bool
    ensures { result ≡ is_decimal word.now }
{
    let point = first_of(word, b'.');
    point < word.len() && is_written_numeral(&word[..point]) && are_some_digits(&word[point + 1..])
}

fn are_all_hexadecimal(digits: &[u8]) -> bool
    ensures { result ≡ list_all is_hexadecimal digits.now }
{
    digits.iter().all(|b| is_hexadecimal_digit(*b))
}

pub(crate) fn are_hexadecimal(digits: &[u8]) -> bool
    ensures { result ≡ all_of is_hexadecimal digits.now }
{
    match digits {
        [] => false,
        [_, ..] => are_all_hexadecimal(digits),
    }
}

fn are_all_binary(digits: &[u8]) -> bool
    ensures { result ≡ list_all is_binary digits.now }
{
    digits.iter().all(|b| is_binary_digit(*b))
}

pub(crate) fn are_binary(digits: &[u8]) -> bool
    ensures { result ≡ all_of is_binary digits.now }
{
    match digits {
        [] => false,
        [_, ..] => are_all_binary(digits),
    }
}

/// Whether all may stand in a string.
pub(crate) fn may_all_be_quoted(bytes: &[u8]) -> bool
    ensures { result ≡ list_all is_printable bytes.now }
{
    bytes.iter().all(|b| may_be_quoted(*b))
}

/// Whether all may stand in a quoted symbol.
pub(crate) fn may_be_a_name(bytes: &[u8]) -> bool
    ensures { result ≡ list_all (λ c. is_printable c && not (c == 92)) bytes.now }
{
    bytes.iter().all(|b| may_be_quoted(*b) && *b != b'\\')
}
