//! Long and deep texts, and many nodes.
use super::outline::{LIMIT, Shown, outline};
use std::alloc::{AllocError, Global};
use std::process::Abort;
use std::test::Fail;

/// What stands before, a part, how often it stands there, what stands behind, and the refusal that ends the whole.
type Repeated = (
    &'static str,
    &'static str,
    usize,
    &'static str,
    &'static str,
);

const LONG: [Repeated; 10] = [
    ("(assert ", "(not ", 256, "", " Depth 1:1284"),
    ("(foo ", "(", 256, "", " Depth 1:261"),
    ("(foo ", "(", 255, "", " Syntax 1:261"),
    ("", "(", LIMIT, "", " Depth 1:257"),
    ("(", "a", LIMIT - 2, ")", " Unsupported 1:2"),
    ("(echo \"", "a", LIMIT - 9, "\")", ""),
    ("(declare-const ", "a", 100_000, " Int)", ""),
    ("(assert |", "a", 100_000, "|)", " Unknown 1:9"),
    ("(push ", "9", 100_000, ")", " Coefficient 1:7"),
    ("(assert (< 0", " 1", 1_000, " x))", " Unknown 1:2014"),
];

/// Nodes up to their limit, 65,536 with node 0.
const MANY: [Repeated; 6] = [
    ("", "(assert true)\n", 32_768, "", ""),
    ("", "(assert true)\n", 32_769, "", " Nodes 32769:9"),
    (
        "(assert (not true))\n",
        "(assert true)\n",
        32_767,
        "",
        " Nodes 32768:1",
    ),
    ("(assert (and", " true", 65_535, "))", " Nodes 1:9"),
    ("(assert (and", " true", 65_536, "))", " Nodes 1:327689"),
    (
        "(define-fun p ((a Int)) Bool (= a 1))(assert (and",
        " true",
        65_534,
        " (p 1)))",
        " Nodes 1:327721",
    ),
];

/// The refusal that ends a text that repeats a part between two others.
fn ending(
    alloc: Global,
    before: &[u8],
    part: &[u8],
    count: usize,
    behind: &[u8],
) -> Result<Vec<u8>, AllocError> {
    let mut text = before.to_vec(alloc)?;
    for _ in 0..count {
        text.extend_from_slice(part)?;
    }
    text.extend_from_slice(behind)?;
    let shown = Shown {
        commands: false,
        nodes: false,
    };
    outline(alloc, text.as_slice(), shown)
}

fn refuse_repeated(
    rt: &(impl Abort + Eprint),
    alloc: Global,
    rows: &[Repeated],
) -> Result<(), Fail> {
    for row in rows {
        let found = ending(
            alloc,
            row.0.as_bytes(),
            row.1.as_bytes(),
            row.2,
            row.3.as_bytes(),
        )?;
        assert_eq!(rt; found.as_slice(), row.4.as_bytes(), "{} {}", row.0, row.2);
    }
    Ok(())
}

#[test]
fn long_and_deep_texts(rt: HostRuntime) -> Result<(), Fail> {
    refuse_repeated(&rt, rt.alloc(), &LONG)
}

#[test]
fn many_nodes(rt: HostRuntime) -> Result<(), Fail> {
    refuse_repeated(&rt, rt.alloc(), &MANY)
}

/// A term in 256 lists.
#[test]
fn deepest_term(rt: HostRuntime) -> Result<(), Fail> {
    let mut innermost = b"true".to_vec(rt.alloc())?;
    for _ in 0..256 {
        innermost.push(b')')?;
    }
    let found = ending(rt.alloc(), b"(assert ", b"(not ", 255, innermost.as_slice())?;
    assert!(rt; found.is_empty());
    Ok(())
}
