use crate::run::{Failing, ran_failing, ran_over};
use std::alloc::{AllocError, Global};
use std::test::Fail;

const USES_M: &[u8] = b"program p\nuse m, only: k => n\nprint *, k\nend\n";

const M: &[u8] = b"module m\ninteger :: n = 4\nend module m\n";

const X_USES_Y: &[u8] = b"module x\nuse y\nend module x\n";

const Y_USES_X: &[u8] = b"module y\nuse x\nend module y\n";

const FAULTY: &[u8] = b"program p\nx = 1\ninteger :: y\nend\n";

const ITSELF: &[u8] = b"module s\nuse s\nend module s\n";

const FILES: [(&str, &[u8]); 6] = [
    ("b.f90", USES_M),
    ("a.f90", M),
    ("x.f90", X_USES_Y),
    ("y.f90", Y_USES_X),
    ("faulty.f90", FAULTY),
    ("s.f90", ITSELF),
];

const ORDERS: [(&[&str], &str); 5] = [
    (&["order", "b.f90", "a.f90"], "a.f90\nb.f90\n"),
    (&["order", "a.f90", "b.f90"], "a.f90\nb.f90\n"),
    (&["order", "b.f90"], "b.f90\n"),
    (
        &["order", "s.f90", "b.f90", "a.f90"],
        "s.f90\na.f90\nb.f90\n",
    ),
    // a module that no listed file holds is no fault
    (&["order", "y.f90", "b.f90"], "y.f90\nb.f90\n"),
];

/// The place of the first order that is not shown alone, if there is one.
fn first_not_shown(alloc: Global) -> Result<Option<usize>, AllocError> {
    for (place, (words, order)) in ORDERS.iter().enumerate() {
        let left = ran_over(alloc, words, &FILES)?;
        if !left.is(0, order.as_bytes(), b"") {
            return Ok(Some(place));
        }
    }
    Ok(None)
}

const REFUSED: [(&[&str], u8, &str); 8] = [
    (&["order", "x.f90", "y.f90"], 8, "lf: cycle x.f90 y.f90\n"),
    (
        &["order", "y.f90", "a.f90", "x.f90"],
        8,
        "lf: cycle y.f90 x.f90\n",
    ),
    // a fault of any file comes before a cycle
    (
        &["order", "x.f90", "y.f90", "faulty.f90"],
        1,
        "faulty.f90:3: E203\n",
    ),
    (
        &["order", "x.f90", "q.f90", "faulty.f90"],
        2,
        "lf: no such file: q.f90\n",
    ),
    (&["order", "faulty.f90", "q.f90"], 1, "faulty.f90:3: E203\n"),
    (&["order"], 2, "lf: usage: COMMAND [--turns=N] FILE ...\n"),
    (
        &["order", "a.f90", "a.c"],
        2,
        "lf: usage: COMMAND [--turns=N] FILE ...\n",
    ),
    (
        &["order", "--turns=1", "a.f90"],
        2,
        "lf: usage: COMMAND [--turns=N] FILE ...\n",
    ),
];

/// The place of the first words that are not refused so, if there are such.
fn first_not_refused(alloc: Global) -> Result<Option<usize>, AllocError> {
    for (place, (words, status, told)) in REFUSED.iter().enumerate() {
        let left = ran_over(alloc, words, &FILES)?;
        if !left.is(*status, b"", told.as_bytes()) {
            return Ok(Some(place));
        }
    }
    Ok(None)
}

/// Reads of the two files and a write of their order that fail, with the status and the text on `err`.
const FAILURES: [(Failing, u8, &str); 3] = [
    (
        Failing {
            store: Some(0),
            out: None,
        },
        3,
        "lf: read fault\n",
    ),
    (
        Failing {
            store: Some(1),
            out: None,
        },
        3,
        "lf: read fault\n",
    ),
    (
        Failing {
            store: None,
            out: Some(0),
        },
        4,
        "lf: write fault\n",
    ),
];

/// Whether an order of two files whose call fails ends so, with a front of its text on the output.
fn is_told(alloc: Global, failing: Failing, status: u8, told: &str) -> Result<bool, AllocError> {
    let left = ran_failing(alloc, &["order", "b.f90", "a.f90"], &FILES, failing)?;
    let is_front = b"a.f90\nb.f90\n".starts_with(left.out.bytes());
    Ok(left.status == status && left.err.bytes() == told.as_bytes() && is_front)
}

/// The place of the first failure that is not told so, if there is one.
fn first_not_told(alloc: Global) -> Result<Option<usize>, AllocError> {
    for (place, (failing, status, told)) in FAILURES.iter().enumerate() {
        if !is_told(alloc, *failing, *status, told)? {
            return Ok(Some(place));
        }
    }
    Ok(None)
}

#[test]
fn orders_cycles_and_faults_are_told(rt: HostRuntime) -> Result<(), Fail> {
    assert_eq!(rt; first_not_shown(rt.alloc())?, None);
    assert_eq!(rt; first_not_refused(rt.alloc())?, None);
    assert_eq!(rt; first_not_told(rt.alloc())?, None);
    Ok(())
}
