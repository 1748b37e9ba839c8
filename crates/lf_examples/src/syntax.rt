use crate::run::{first_lines_not_refused, first_not_refused, ran};
use std::alloc::{AllocError, Global};
use std::test::Fail;

const UNFORMED: [(&str, &str); 22] = [
    ("x = ab&\ncd", "2: E201"),
    ("elseif", "2: E201"),
    ("use :: m, only: a", "2: E201"),
    ("10 format (x)", "2: E201"),
    ("if (x) goto 10", "2: E201"),
    ("integer, pointer :: p", "2: E201"),
    ("do concurrent (i = 1:2)", "2: E202"),
    ("c: do concurrent (i = 1:2)", "2: E202"),
    ("real :: x", "2: E202"),
    ("c: where (x)", "2: E202"),
    ("real(kind=4) = 2", "2: E202"),
    ("x(kind=4) = 2", "2: E201"),
    ("integer a()", "2: E201"),
    ("x = []", "2: E201"),
    ("x = (//)", "2: E201"),
    ("case ()", "2: E201"),
    ("print *,", "2: E201"),
    ("integer : : x", "2: E201"),
    ("integer x = 1", "2: E201"),
    ("integer(4_4) x", "2: E201"),
    ("contains\nelseif", "3: E201"),
    ("c: x = 1", "2: E201"),
];

const UNFORMED_PARTS: [(&str, &str); 19] = [
    ("x = 1 +", "2: E201"),
    ("x = 2 ** -1", "2: E201"),
    ("x = 1 * -2", "2: E201"),
    ("x = 1 - -2", "2: E201"),
    ("x = a == b == c", "2: E201"),
    ("x = .not. .not. a", "2: E201"),
    ("x = a .and. (b", "2: E201"),
    ("x = a(1)(2", "2: E201"),
    ("x = a(1,)", "2: E201"),
    ("x = (i = 1, 2)", "2: E201"),
    ("c: if (a) x = 1", "2: E201"),
    ("if (a) if (b) x = 1", "2: E201"),
    ("if (a) do", "2: E201"),
    ("read (*, '(A)') (x)", "2: E201"),
    ("write (*, *, advance='no') 1", "2: E201"),
    ("print '(A)', a, b", "2: E201"),
    ("print '(A)', (a, i = 1, 2)", "2: E201"),
    ("print '(F5.1)', a", "2: E201"),
    ("integer subroutine s", "2: E201"),
];

const OUT_OF_PLACE: [(&str, &str); 19] = [
    ("x = 1; integer y; x y", "2: E203"),
    ("x = 1\ninteger :: y", "3: E203"),
    ("integer y\nuse m", "3: E203"),
    ("private", "2: E203"),
    ("return", "2: E203"),
    ("if (a) return", "2: E203"),
    ("else", "2: E203"),
    ("if (a) then\nelse\nelse\nend if", "4: E203"),
    ("if (a) then\nelse\nelse if (b) then\nend if", "4: E203"),
    ("if (a) then\nend do\nend if", "3: E203"),
    ("select case (a)\nx = 1\nend select", "3: E203"),
    (
        "select case (a)\ncase default\ncase default\nend select",
        "4: E203",
    ),
    ("contains\ncontains", "3: E203"),
    ("contains\nx = 1", "3: E203"),
    ("contains\nsubroutine s\ncontains\nend\n", "4: E203"),
    ("type t\nend type", "3: E203"),
    ("interface g\nend interface", "3: E203"),
    ("case (1)", "2: E203"),
    ("subroutine s\nend", "2: E203"),
];

const NAMES_BEHIND_ENDS: [(&str, &str); 9] = [
    ("if (a) then\nend if c", "3: E205"),
    ("c: if (a) then\nend if d", "3: E205"),
    ("if (a) then\nelse if\nend if", "3: E205"),
    ("c: do\nend do d", "3: E205"),
    ("c: select case (a)\ncase (1) d\nend select", "3: E205"),
    ("type t\ninteger x\nend type u", "4: E205"),
    ("interface g\nprocedure a\nend interface h", "4: E205"),
    ("contains\nsubroutine s\nend subroutine t", "4: E205"),
    ("end program q", "2: E205"),
];

const OPEN: [(&[u8], &str); 6] = [
    (b"\nprogram p\n\n", "s.f90:2: E204\n"),
    (b"program p\nif (a) then\nx = 1\n", "s.f90:2: E204\n"),
    (b"program p\nif (a) then\nend if\n", "s.f90:1: E204\n"),
    (
        b"module m\ncontains\nsubroutine s\nx = 1\n",
        "s.f90:3: E204\n",
    ),
    (b"module m\ntype t\ninteger x\n", "s.f90:2: E204\n"),
    (b"program p\nx = 1\ninteger :: y\nend\n", "s.f90:3: E203\n"),
];

// `if (a) then` so many times round an action behind a condition, with its ends
fn nested(alloc: Global, depth: usize) -> Result<Vec<u8>, AllocError> {
    let mut source = Vec::from_slice(alloc, b"program p\n")?;
    for _ in 0..depth {
        source.extend_from_slice(b"if (a) then\n")?;
    }
    source.extend_from_slice(b"if (a) x = 1\n")?;
    for _ in 0..depth {
        source.extend_from_slice(b"end if\n")?;
    }
    source.extend_from_slice(b"end\n")?;
    Ok(source)
}

// an expression in so many parentheses, each fifty on a line, with what stands around it
fn in_parentheses(
    alloc: Global,
    front: &[u8],
    depth: usize,
    inner: &[u8],
    behind: &[u8],
) -> Result<Vec<u8>, AllocError> {
    let mut source = Vec::from_slice(alloc, b"program p\n")?;
    source.extend_from_slice(front)?;
    for at in 0..depth {
        source.push(b'(')?;
        if at % 50 == 49 {
            source.extend_from_slice(b"&\n")?;
        }
    }
    source.extend_from_slice(inner)?;
    for at in 0..depth {
        source.push(b')')?;
        if at % 50 == 49 {
            source.extend_from_slice(b"&\n")?;
        }
    }
    source.extend_from_slice(behind)?;
    source.extend_from_slice(b"\nend\n")?;
    Ok(source)
}

// a statement of so many continuations, with a comment and a blank line in front of each
fn continue_it(source: &mut Vec<u8>, continuations: usize) -> Result<(), AllocError> {
    source.extend_from_slice(b"x = 1 &\n")?;
    for _ in 1..continuations {
        source.extend_from_slice(b"! between\n\n+ 1 &\n")?;
    }
    source.extend_from_slice(b"+ 1\n")
}

// two such statements
fn continued(alloc: Global, first: usize, second: usize) -> Result<Vec<u8>, AllocError> {
    let mut source = Vec::from_slice(alloc, b"program p\n")?;
    continue_it(&mut source, first)?;
    continue_it(&mut source, second)?;
    source.extend_from_slice(b"end\n")?;
    Ok(source)
}

// a comment of so many bytes behind a first line
fn commented(alloc: Global, bytes: usize, end: &[u8]) -> Result<Vec<u8>, AllocError> {
    let mut source = Vec::from_slice(alloc, b"program p\n!")?;
    for _ in 1..bytes {
        source.push(b'-')?;
    }
    source.extend_from_slice(end)?;
    source.extend_from_slice(b"\nend\n")?;
    Ok(source)
}

/// A source that is made for a limit.
enum Made {
    /// Constructs so deep in each other.
    Nested(usize),
    /// So many parentheses around an operand, with what stands behind them.
    Parentheses(usize, &'static [u8], &'static [u8]),
    /// A comment of so many bytes, with what ends its line.
    Commented(usize, &'static [u8]),
    /// Two statements of so many continuations.
    Continued(usize, usize),
}

fn text_of(alloc: Global, made: &Made) -> Result<Vec<u8>, AllocError> {
    match made {
        Made::Nested(depth) => nested(alloc, *depth),
        Made::Parentheses(depth, inner, behind) => in_parentheses(
            alloc, b"x = &\n", *depth, inner, behind,
        ),
        Made::Commented(bytes, end) => commented(alloc, *bytes, end),
        Made::Continued(first, second) => continued(alloc, *first, *second),
    }
}

const LIMITS: [(Made, &str); 10] = [
    (Made::Nested(64), ""),
    (Made::Nested(65), "s.f90:66: E206\n"),
    // a name alone has depth 2
    (Made::Parentheses(254, b"y", b""), ""),
    (Made::Parentheses(255, b"y", b""), "s.f90:2: E206\n"),
    // in no form, whatever its depth
    (Made::Parentheses(6000, b"1", b" +"), "s.f90:2: E201\n"),
    (Made::Commented(132, b"\r"), ""),
    (Made::Commented(133, b""), "s.f90:2: E103\n"),
    // each statement counts its own continuations
    (Made::Continued(255, 255), ""),
    (Made::Continued(256, 255), "s.f90:2: E104\n"),
    // the first has 3 lines a continuation, but one for its last, and one line more
    (Made::Continued(255, 256), "s.f90:766: E104\n"),
];

/// Whether `ast s.f90` tells this of a source on `err`, and shows its tree where that is nothing.
fn is_told(alloc: Global, source: &[u8], told: &str) -> Result<bool, AllocError> {
    let left = ran(alloc, &["ast", "s.f90"], "s.f90", source)?;
    Ok(left.err.bytes() == told.as_bytes() && left.out.bytes().is_empty() == (left.status == 1))
}

/// The place of the first limit that is not told so, if there is one.
fn first_limit_not_told(alloc: Global) -> Result<Option<usize>, AllocError> {
    for (place, (made, told)) in LIMITS.iter().enumerate() {
        let source = text_of(alloc, made)?;
        if !is_told(alloc, source.as_slice(), told)? {
            return Ok(Some(place));
        }
    }
    Ok(None)
}

const PLACES: [(&[u8], &[u8], &str); 12] = [
    (b"x = &\n", b"", "s.f90:2: E206\n"),
    (b"integer :: a(&\n", b")", "s.f90:2: E206\n"),
    (b"integer :: a(0:&\n", b")", "s.f90:2: E206\n"),
    (b"character(len=&\n", b") :: c", "s.f90:2: E206\n"),
    (b"integer :: a = &\n", b"", "s.f90:2: E206\n"),
    (b"if (&\n", b") x = 1", "s.f90:2: E206\n"),
    (b"do i = 1, &\n", b"\nend do", "s.f90:2: E206\n"),
    (b"select case (&\n", b")\nend select", "s.f90:2: E206\n"),
    (
        b"select case (a)\ncase (&\n",
        b":)\nend select",
        "s.f90:3: E206\n",
    ),
    (b"call s(&\n", b")", "s.f90:2: E206\n"),
    (b"print *, 1, &\n", b"", "s.f90:2: E206\n"),
    (b"stop &\n", b"", "s.f90:2: E206\n"),
];

/// Whether an expression in this place may be 256 deep, and no deeper.
fn has_greatest_depth(alloc: Global, place: &(&[u8], &[u8], &str)) -> Result<bool, AllocError> {
    let accepted = in_parentheses(alloc, place.0, 255, b"1", place.1)?;
    let refused = in_parentheses(alloc, place.0, 256, b"1", place.1)?;
    Ok(is_told(alloc, accepted.as_slice(), "")? && is_told(alloc, refused.as_slice(), place.2)?)
}

fn first_place_not_told(alloc: Global) -> Result<Option<usize>, AllocError> {
    for (at, place) in PLACES.iter().enumerate() {
        if !has_greatest_depth(alloc, place)? {
            return Ok(Some(at));
        }
    }
    Ok(None)
}

#[test]
fn statements_in_no_form_or_place_are_told(rt: HostRuntime) -> Result<(), Fail> {
    assert_eq!(rt; first_lines_not_refused(rt.alloc(), &UNFORMED)?, None);
    assert_eq!(rt; first_lines_not_refused(rt.alloc(), &UNFORMED_PARTS)?, None);
    assert_eq!(rt; first_lines_not_refused(rt.alloc(), &OUT_OF_PLACE)?, None);
    assert_eq!(rt;
        first_lines_not_refused(rt.alloc(), &NAMES_BEHIND_ENDS)?,
        None
    );
    assert_eq!(rt; first_not_refused(rt.alloc(), &OPEN)?, None);
    Ok(())
}

#[test]
fn limits_are_told(rt: HostRuntime) -> Result<(), Fail> {
    assert_eq!(rt; first_limit_not_told(rt.alloc())?, None);
    assert_eq!(rt; first_place_not_told(rt.alloc())?, None);
    Ok(())
}
