//! A refusal is answered for ever, and once it was answered nothing changes.
use super::outline::{LIMIT, write_refusal};
use crate::{Reader, Scope};
use std::alloc::{AllocError, Global};
use std::test::Fail;

/// Texts whose first command is refused: for a fault of the text, of a term, and of a command. Behind most of them stands a command that
/// would be read.
const REFUSED: [(&str, &str); 7] = [
    ("(assert true", " Syntax 1:13"),
    (")(assert true)", " Syntax 1:1"),
    (
        "(assert (and true (exists ((x Int)) (< x y))))(assert true)",
        " Unknown 1:42",
    ),
    ("(assert (or false 1))(assert true)", " Sort 1:19"),
    ("(foo)(assert true)", " Unsupported 1:2"),
    ("(define-fun f ((a Int)) Int true)(push)", " Sort 1:29"),
    ("(declare-const x)(declare-const x Int)", " Syntax 1:1"),
];

/// The answers of three calls, and how many nodes and variable numbers there are after the first and after the last.
fn three_answers(alloc: Global, text: &[u8]) -> Result<(Vec<u8>, bool), AllocError> {
    let mut out = Vec::new(alloc);
    if text.len() > LIMIT {
        return Ok((out, false));
    }
    let Ok(mut scope) = Scope::new(alloc) else {
        return Err(AllocError);
    };
    let mut reader = Reader::new(text);
    if let Err(refusal) = reader.next_command(alloc, &mut scope) {
        write_refusal(alloc, &mut out, refusal)?;
    }
    let nodes = scope.formula().len();
    let given = scope.given();
    for _ in 0..2 {
        if scope.given() > 1 << 31 {
            return Ok((out, false));
        }
        if let Err(refusal) = reader.next_command(alloc, &mut scope) {
            write_refusal(alloc, &mut out, refusal)?;
        }
    }
    let stays = scope.formula().len() == nodes && scope.given() == given;
    Ok((out, stays))
}

#[test]
fn refusals_are_kept(rt: HostRuntime) -> Result<(), Fail> {
    for row in &REFUSED {
        let expected = format!(in rt.alloc(); "{}{}{}", row.1, row.1, row.1)?;
        let (found, stays) = three_answers(rt.alloc(), row.0.as_bytes())?;
        assert_eq!(&rt; found.as_slice(), expected.as_bytes(), "{}", row.0);
        assert!(&rt; stays, "{}", row.0);
    }
    Ok(())
}
