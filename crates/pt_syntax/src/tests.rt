use crate::{
    Leaf, ListReader, Position, ReadKind, ReadRefusal, SExpr, is_decimal_digit, is_in_symbol,
};
use std::alloc::{AllocError, Global};
use std::process::Abort;
use std::test::Fail;

const LIMIT: usize = 4_194_304;

fn write_place(alloc: Global, out: &mut Vec<u8>, at: Position) -> Result<(), AllocError> {
    let place = format!(in alloc; " {}:{}", at.line, at.column)?;
    out.extend_from_slice(place.as_bytes())
}

fn write_bytes(out: &mut Vec<u8>, kind: &[u8], bytes: &[u8]) -> Result<(), AllocError> {
    out.extend_from_slice(kind)?;
    out.extend_from_slice(bytes)
}

fn write_leaf(out: &mut Vec<u8>, leaf: &Leaf) -> Result<(), AllocError> {
    match leaf {
        Leaf::Numeral(digits) => write_bytes(out, b" numeral ", digits.as_slice()),
        Leaf::Constant => out.extend_from_slice(b" constant"),
        Leaf::Text(text) => write_bytes(out, b" text ", text.as_slice()),
        Leaf::Symbol(name) => write_bytes(out, b" symbol ", name.as_slice()),
        Leaf::Keyword(name) => write_bytes(out, b" keyword ", name.as_slice()),
    }
}

/// What stands in a list, down to so many levels.
fn write_items(
    alloc: Global,
    out: &mut Vec<u8>,
    depth: u32,
    items: &[SExpr],
) -> Result<(), AllocError> {
    if depth == 0 {
        return Ok(());
    }
    out.extend_from_slice(b" [")?;
    for item in items {
        match item {
            SExpr::Leaf(leaf, at) => {
                write_place(alloc, out, *at)?;
                write_leaf(out, leaf)?;
            }
            SExpr::List(inner, at) => {
                write_place(alloc, out, *at)?;
                write_items(alloc, out, depth - 1, inner.as_slice())?;
            }
        }
    }
    out.extend_from_slice(b" ]")
}

fn write_refusal(alloc: Global, out: &mut Vec<u8>, refusal: ReadRefusal) -> Result<(), AllocError> {
    let kind = format!(in alloc; " {:?}", refusal.kind)?;
    out.extend_from_slice(kind.as_bytes())?;
    write_place(alloc, out, refusal.position)
}

/// The lists of a text, and what ends it.
fn outline(alloc: Global, text: &[u8]) -> Result<Vec<u8>, AllocError> {
    let mut out = Vec::new(alloc);
    if text.len() > LIMIT {
        return Ok(out);
    }
    let mut reader = ListReader::new(text);
    for _ in 0..text.len() + 1 {
        match reader.next_list(alloc) {
            Ok(Some(list)) => {
                write_place(alloc, &mut out, list.position)?;
                write_items(alloc, &mut out, 300, list.items.as_slice())?;
            }
            Ok(None) => {
                out.extend_from_slice(b" end")?;
                return Ok(out);
            }
            Err(refusal) => {
                write_refusal(alloc, &mut out, refusal)?;
                return Ok(out);
            }
        }
    }
    Ok(out)
}

/// A text, and the outline that it has.
fn expect(
    rt: &(impl Abort + Eprint),
    alloc: Global,
    text: &[u8],
    expected: &[u8],
) -> Result<(), Fail> {
    let found = outline(alloc, text)?;
    assert_eq!(rt; found.as_slice(), expected, "{text:?}");
    Ok(())
}

#[test]
fn tokens_of_each_kind(rt: HostRuntime) -> Result<(), Fail> {
    for (text, expected) in [
        ("", " end"),
        (" \t\r\n; (\r", " end"),
        ("()", " 1:1 [ ] end"),
        (
            "(0 7 10 987)",
            " 1:1 [ 1:2 numeral 0 1:4 numeral 7 1:6 numeral 10 1:9 numeral 987 ] end",
        ),
        ("(0.0 10.050)", " 1:1 [ 1:2 constant 1:6 constant ] end"),
        ("(#xaF09 #b010)", " 1:1 [ 1:2 constant 1:9 constant ] end"),
        (
            "(\"\" \"a\nb\"\"\"c)",
            " 1:1 [ 1:2 text \"\" 1:5 text \"a\nb\"\"\" 2:5 symbol c ] end",
        ),
        (
            "(a.b ~!@$%^&*_-+=<>.?/ .1 -1)",
            " 1:1 [ 1:2 symbol a.b 1:6 symbol ~!@$%^&*_-+=<>.?/ 1:24 symbol .1 1:27 symbol -1 ] end",
        ),
        (
            "(|a b|c || |\n|)",
            " 1:1 [ 1:2 symbol a b 1:7 symbol c 1:9 symbol  1:12 symbol \n ] end",
        ),
        ("(:a :1.b)", " 1:1 [ 1:2 keyword a 1:5 keyword 1.b ] end"),
        (
            "(a;)\n(b;)\r));",
            " 1:1 [ 1:2 symbol a 2:1 [ 2:2 symbol b ] ] end",
        ),
        (
            "(a\"b\"|c|(d)12:e#b1)",
            " 1:1 [ 1:2 symbol a 1:3 text \"b\" 1:6 symbol c 1:9 [ 1:10 symbol d ] 1:12 numeral 12 1:14 keyword e 1:16 constant ] end",
        ),
        ("(\u{e9}", " Syntax 1:2"),
        (
            "(\"\u{e9}\" |\u{e9}|) ;\u{e9}",
            " 1:1 [ 1:2 text \"\u{e9}\" 1:7 symbol \u{e9} ] end",
        ),
    ] {
        expect(&rt, rt.alloc(), text.as_bytes(), expected.as_bytes())?;
    }
    Ok(())
}

#[test]
fn refusals_at_their_places(rt: HostRuntime) -> Result<(), Fail> {
    for (text, expected) in [
        ("(assert 01)", " Syntax 1:9"),
        ("(00", " Syntax 1:2"),
        ("(1. )", " Syntax 1:2"),
        ("(1.2.3)", " Syntax 1:2"),
        ("(00.5)", " Syntax 1:2"),
        ("(12ab)", " Syntax 1:2"),
        ("(1-)", " Syntax 1:2"),
        ("(#x)", " Syntax 1:2"),
        ("(#xfg)", " Syntax 1:2"),
        ("(#b12)", " Syntax 1:2"),
        ("(#B1)", " Syntax 1:2"),
        ("(#)", " Syntax 1:2"),
        ("(:)", " Syntax 1:2"),
        ("(a\n |b\\c|)", " Syntax 2:2"),
        ("(a\n |b\u{7f}c|)", " Syntax 2:2"),
        ("(a\n \"b\u{1}\nc\")", " Syntax 2:2"),
        ("(a 'b)", " Syntax 1:4"),
        ("(a\t[\n)", " Syntax 1:4"),
        ("(\"a)\n b", " Syntax 2:3"),
        ("(\"a\"\")\n b", " Syntax 2:3"),
        ("(|a)\n b\n", " Syntax 3:1"),
        ("(\"\u{1}", " Syntax 1:4"),
        ("(|\\", " Syntax 1:4"),
        ("\"a\nb", " Syntax 2:2"),
        ("|", " Syntax 1:2"),
        ("\"a\"", " Syntax 1:1"),
        ("|a|", " Syntax 1:1"),
        ("(a)\n b", " 1:1 [ 1:2 symbol a ] Syntax 2:2"),
        ("(a))", " 1:1 [ 1:2 symbol a ] Syntax 1:4"),
        ("(a\n(b)", " Syntax 2:4"),
        ("(a\n(b)\n", " Syntax 3:1"),
        ("(a) (b 01 \u{1}", " 1:1 [ 1:2 symbol a ] Syntax 1:8"),
        ("(a) (b", " 1:1 [ 1:2 symbol a ] Syntax 1:7"),
        (" :a", " Syntax 1:2"),
        ("12", " Syntax 1:1"),
    ] {
        expect(&rt, rt.alloc(), text.as_bytes(), expected.as_bytes())?;
    }
    Ok(())
}

/// How many lists a text has and how many items they have, or its refusal.
#[derive(Clone, Copy, Debug, PartialEq, Eq)]
enum Outcome {
    Lists(usize, usize),
    Refused(ReadRefusal),
}

fn refused(kind: ReadKind, line: u32, column: u32) -> Outcome {
    Outcome::Refused(ReadRefusal {
        kind,
        position: Position { line, column },
    })
}

fn fault(column: u32) -> Outcome {
    refused(ReadKind::Syntax, 1, column)
}

fn outcome_of(alloc: Global, text: &[u8]) -> Outcome {
    let mut lists = 0usize;
    let mut items = 0usize;
    if text.len() > LIMIT {
        return Outcome::Lists(lists, items);
    }
    let mut reader = ListReader::new(text);
    for _ in 0..text.len() + 1 {
        match reader.next_list(alloc) {
            Ok(Some(list)) => {
                lists = lists.saturating_add(1);
                items = items.saturating_add(list.items.len());
            }
            Ok(None) => return Outcome::Lists(lists, items),
            Err(refusal) => return Outcome::Refused(refusal),
        }
    }
    Outcome::Lists(lists, items)
}

#[derive(Clone, Copy)]
enum Class {
    Blank,
    Opening,
    Closing,
    Semicolon,
    Digit,
    Symbol,
    Hash,
    Colon,
    Quote,
    Bar,
    Backslash,
    Forbidden,
    Other,
}

fn class_of(b: u8) -> Class {
    match b {
        b'\t' | b'\n' | b'\r' | b' ' => Class::Blank,
        b'(' => Class::Opening,
        b')' => Class::Closing,
        b';' => Class::Semicolon,
        b'0'..=b'9' => Class::Digit,
        b'a'..=b'z' | b'A'..=b'Z' => Class::Symbol,
        b'#' => Class::Hash,
        b':' => Class::Colon,
        b'"' => Class::Quote,
        b'|' => Class::Bar,
        b'\\' => Class::Backslash,
        0..=31 | 127 => Class::Forbidden,
        b'\'' | b',' | b'[' | b']' | b'`' | b'{' | b'}' | 128..=255 => Class::Other,
        _ => Class::Symbol,
    }
}

/// Where a byte stands.
#[derive(Clone, Copy)]
enum Context {
    Alone,
    BetweenSymbols,
    InSymbol,
    InString,
    InQuotedSymbol,
    InComment,
    BehindHash,
    BehindHexadecimal,
    BehindBinary,
    BehindColon,
    InNumber,
    BehindZero,
}

/// What stands before and behind it.
fn around(context: Context) -> (&'static [u8], &'static [u8]) {
    match context {
        Context::Alone => (b"", b""),
        Context::BetweenSymbols => (b"(a ", b" z)"),
        Context::InSymbol => (b"(a", b"z)"),
        Context::InString => (b"(\"a", b"z\")"),
        Context::InQuotedSymbol => (b"(|a", b"z|)"),
        Context::InComment => (b"(a;", b"z\n)"),
        Context::BehindHash => (b"(#", b"1)"),
        Context::BehindHexadecimal => (b"(#x", b")"),
        Context::BehindBinary => (b"(#b", b")"),
        Context::BehindColon => (b"(:", b")"),
        Context::InNumber => (b"(1", b"2)"),
        Context::BehindZero => (b"(0", b"2)"),
    }
}

fn alone(class: Class) -> Outcome {
    match class {
        Class::Blank | Class::Semicolon => Outcome::Lists(0, 0),
        Class::Opening | Class::Quote | Class::Bar => fault(2),
        _ => fault(1),
    }
}

fn between(class: Class) -> Outcome {
    match class {
        Class::Blank => Outcome::Lists(1, 2),
        Class::Digit | Class::Symbol => Outcome::Lists(1, 3),
        Class::Opening | Class::Semicolon | Class::Quote | Class::Bar => fault(8),
        Class::Closing => fault(6),
        _ => fault(4),
    }
}

/// Behind one byte of a word, and before another.
fn inside(class: Class, joins: bool) -> Outcome {
    match class {
        Class::Digit | Class::Symbol if joins => Outcome::Lists(1, 1),
        Class::Digit | Class::Symbol => fault(2),
        Class::Blank | Class::Colon => Outcome::Lists(1, 2),
        Class::Opening | Class::Semicolon | Class::Quote | Class::Bar => fault(6),
        Class::Closing => fault(4),
        _ => fault(3),
    }
}

fn one_item_if(holds: bool) -> Outcome {
    if holds {
        Outcome::Lists(1, 1)
    } else {
        fault(2)
    }
}

fn quoted(class: Class, end: u8, b: u8, is_allowed: bool) -> Outcome {
    if b == end {
        fault(8)
    } else {
        one_item_if(is_allowed && !matches!(class, Class::Forbidden))
    }
}

fn expected(context: Context, b: u8) -> Outcome {
    let class = class_of(b);
    match context {
        Context::Alone => alone(class),
        Context::BetweenSymbols => between(class),
        Context::InSymbol => inside(class, true),
        Context::InString => quoted(class, b'"', b, true),
        Context::InQuotedSymbol => quoted(class, b'|', b, b != b'\\'),
        Context::InComment => Outcome::Lists(1, if b == b'\n' || b == b'\r' { 2 } else { 1 }),
        Context::BehindHash => one_item_if(b == b'x' || b == b'b'),
        Context::BehindHexadecimal => one_item_if(b.is_ascii_hexdigit()),
        Context::BehindBinary => one_item_if(b == b'0' || b == b'1'),
        Context::BehindColon => one_item_if(matches!(class, Class::Digit | Class::Symbol)),
        Context::InNumber => inside(class, matches!(class, Class::Digit) || b == b'.'),
        Context::BehindZero => inside(class, b == b'.'),
    }
}

#[test]
fn each_byte_in_each_context(rt: HostRuntime) -> Result<(), Fail> {
    for context in [
        Context::Alone,
        Context::BetweenSymbols,
        Context::InSymbol,
        Context::InString,
        Context::InQuotedSymbol,
        Context::InComment,
        Context::BehindHash,
        Context::BehindHexadecimal,
        Context::BehindBinary,
        Context::BehindColon,
        Context::InNumber,
        Context::BehindZero,
    ] {
        for b in 0..=255u8 {
            let (before, behind) = around(context);
            let mut text = before.to_vec(rt.alloc())?;
            text.push(b)?;
            text.extend_from_slice(behind)?;
            assert_eq!(rt;
                outcome_of(rt.alloc(), text.as_slice()),
                expected(context, b),
                "{text:?}"
            );
        }
    }
    Ok(())
}

#[test]
fn bytes_of_simple_symbols(rt: HostRuntime) {
    for b in 0..=255u8 {
        let class = class_of(b);
        let is_digit = matches!(class, Class::Digit);
        assert_eq!(rt; is_decimal_digit(b), is_digit, "{b}");
        assert_eq!(rt;
            is_in_symbol(b),
            is_digit || matches!(class, Class::Symbol),
            "{b}"
        );
    }
}

/// What a text gives that repeats some bytes between two others.
fn outcome_of_run(
    alloc: Global,
    before: &[u8],
    unit: &[u8],
    count: usize,
    behind: &[u8],
) -> Result<Outcome, AllocError> {
    let mut text = before.to_vec(alloc)?;
    for _ in 0..count {
        text.extend_from_slice(unit)?;
    }
    text.extend_from_slice(behind)?;
    Ok(outcome_of(alloc, text.as_slice()))
}

#[test]
fn nesting_and_long_texts(rt: HostRuntime) -> Result<(), Fail> {
    let closings = vec![in rt.alloc(); b')'; 256]?;
    let again = b")()".as_slice();
    let alloc = rt.alloc();
    for (before, unit, count, behind, expected) in [
        (
            b"".as_slice(),
            b"(".as_slice(),
            256,
            closings.as_slice(),
            Outcome::Lists(1, 1),
        ),
        (b"", b"(", 256, b"", fault(257)),
        (
            b"",
            b"(",
            257,
            closings.as_slice(),
            refused(ReadKind::Depth, 1, 257),
        ),
        (b"(a)\n", b"(", 257, b"", refused(ReadKind::Depth, 2, 257)),
        (b"", b"(", 256, again, fault(260)),
        (b"", b"(", LIMIT, b"", refused(ReadKind::Depth, 1, 257)),
        (b"", b" ", LIMIT, b"", Outcome::Lists(0, 0)),
        (b"", b" ", LIMIT - 1, b")", fault(4_194_304)),
        (
            b"(",
            b"\n",
            LIMIT - 1,
            b"",
            refused(ReadKind::Syntax, 4_194_304, 1),
        ),
        (b"(", b"a", LIMIT - 2, b")", Outcome::Lists(1, 1)),
        (b"", b"a", LIMIT, b"", fault(1)),
        (b"(", b"0", LIMIT - 1, b"", fault(2)),
        (b"(\"", b"a", LIMIT - 4, b"\")", Outcome::Lists(1, 1)),
        (b"(\"", b"\"", LIMIT - 4, b"\")", Outcome::Lists(1, 1)),
        (b"(\"", b"a", LIMIT - 2, b"", fault(4_194_305)),
        (b"(|", b"a", LIMIT - 2, b"", fault(4_194_305)),
        (b"", b"()", LIMIT / 2, b"", Outcome::Lists(LIMIT / 2, 0)),
        (
            b"(",
            b"a\n",
            LIMIT / 2 - 1,
            b")",
            Outcome::Lists(1, LIMIT / 2 - 1),
        ),
        (
            b"(",
            b"()",
            LIMIT / 2 - 1,
            b")",
            Outcome::Lists(1, LIMIT / 2 - 1),
        ),
        (b"(", b";", LIMIT - 1, b"", fault(4_194_305)),
    ] {
        let found = outcome_of_run(alloc, before, unit, count, behind)?;
        assert_eq!(rt; found, expected, "{before:?} {unit:?} {count} {behind:?}");
    }
    Ok(())
}
