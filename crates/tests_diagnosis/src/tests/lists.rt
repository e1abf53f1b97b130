//! Lists of vectors that are read, and lists that are refused.

use diagnose::{LogFault, LogKind, read_vectors};
use net_model::{Vector, Vectors};
use std::alloc::{AllocError, Global};
use std::test::Fail;

// Appends the bits, followed by a blank.
fn push_bits(text: &mut String, bits: &Vector) -> Result<(), AllocError> {
    for at in 0..bits.len() {
        text.push_str(if bits.get(at) { "1" } else { "0" })?;
    }
    text.push_str(" ")
}

// Appends the bits of each vector, followed by a blank.
fn push_all(text: &mut String, vectors: &Vectors) -> Result<(), AllocError> {
    for v in vectors.as_slice() {
        push_bits(text, v)?;
    }
    Ok(())
}

// Returns whether the vectors have these bits.
fn are_spelled(alloc: Global, vectors: &Vectors, expected: &str) -> Result<bool, Fail> {
    let mut text = String::new(alloc);
    push_all(&mut text, vectors)?;
    Ok(text.as_str() == expected)
}

fn is_read(alloc: Global, sources: u32, list: &str, expected: &str) -> Result<bool, Fail> {
    let vectors = read_vectors(alloc, sources, list.as_bytes())?;
    are_spelled(alloc, &vectors, expected)
}

// Returns whether a list is refused by this rule at this line.
fn is_refused(alloc: Global, sources: u32, list: &str, expected: (LogKind, u64)) -> bool {
    match read_vectors(alloc, sources, list.as_bytes()) {
        Err(LogFault::At(kind, line)) => (kind, line) == expected,
        _ => false,
    }
}

const READ: &[(u32, &str, &str)] = &[
    (2, "", ""),
    (2, "11\n", "11 "),
    (3, "011\n100\n011\n", "011 100 011 "),
    (1, "0\n1\n", "0 1 "),
    (0, "", ""),
    (0, "-\n-\n", "  "),
];

#[test]
fn lists_that_are_read(rt: HostRuntime) -> Result<(), Fail> {
    for (sources, list, expected) in READ {
        assert!(rt;
            is_read(rt.alloc(), *sources, list, expected)?,
            "list {list}"
        );
    }
    Ok(())
}

const REFUSED: &[(u32, &str, (LogKind, u64))] = &[
    (2, "1\n", (LogKind::Width, 1)),
    (2, "00\n1\n", (LogKind::Width, 2)),
    (2, "00\n111\n", (LogKind::Width, 2)),
    (2, "-\n", (LogKind::Width, 1)),
    (0, "0\n", (LogKind::Width, 1)),
    (0, "\n", (LogKind::Syntax, 1)),
    (2, "\n", (LogKind::Syntax, 1)),
    (2, "00", (LogKind::Syntax, 1)),
    (2, "00\n11", (LogKind::Syntax, 2)),
    (2, "0 0\n", (LogKind::Syntax, 1)),
    (2, "0-\n", (LogKind::Syntax, 1)),
    (2, "02\n", (LogKind::Syntax, 1)),
    (2, "00\r\n", (LogKind::Syntax, 1)),
    (2, "0 00\n", (LogKind::Syntax, 1)),
];

#[test]
fn lists_that_are_refused(rt: HostRuntime) -> Result<(), Fail> {
    for (sources, list, expected) in REFUSED {
        assert!(rt;
            is_refused(rt.alloc(), *sources, list, *expected),
            "list {list}"
        );
    }
    Ok(())
}
