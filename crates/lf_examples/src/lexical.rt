use crate::run::{STATEMENTS, first_lines_not_shown, first_not_refused, first_not_shown};
use std::test::Fail;

const FIRST_FAULTS: [(&[u8], &str); 9] = [
    (b"x = 1e5; y = $\n", "s.f90:1: E107\n"),
    (b"x = 1; y = $\nz = 1e5\n", "s.f90:1: E101\n"),
    (b"x = a & 'b\n", "s.f90:1: E102\n"),
    (b"x = 'a &\n$\n", "s.f90:1: E101\n"),
    (b"x = 1..\n", "s.f90:1: E101\n"),
    (b"x = 1 &\n + $\n", "s.f90:1: E101\n"),
    (b"\n\nx = 1 &\n\n! here\n + 1e5\n", "s.f90:3: E107\n"),
    (b"x = 1\n&\n", "s.f90:2: E106\n"),
    (b"x = 1\n & y = 2\n", "s.f90:2: E106\n"),
];

const DIGITS: [(&[u8], &str); 10] = [
    (b"x = 1e5\n", "s.f90:1: E107\n"),
    (b"x = 1.\n", "s.f90:1: E107\n"),
    (b"x = 1.5\n", "s.f90:1: E107\n"),
    (b"x = 1.e5\n", "s.f90:1: E107\n"),
    (b"x = 1.foo\n", "s.f90:1: E107\n"),
    (b"x = 1..eq.2\n", "s.f90:1: E107\n"),
    (b"x = 1_44\n", "s.f90:1: E107\n"),
    (b"x = 1_\n", "s.f90:1: E107\n"),
    (b"x = 1_4a\n", "s.f90:1: E107\n"),
    (b"x = 1_4.5\n", "s.f90:1: E101\n"),
];

const BYTES: [(&[u8], &str); 12] = [
    (b"x = $\n", "s.f90:1: E101\n"),
    (b"x = \xc3\xa4\n", "s.f90:1: E101\n"),
    (b"x = . true .\n", "s.f90:1: E101\n"),
    (b"x = _a\n", "s.f90:1: E101\n"),
    (b"x = 1\r\r\n", "s.f90:1: E101\n"),
    (b"x = 1\r", "s.f90:1: E101\n"),
    (b"x = 'ab\n", "s.f90:1: E102\n"),
    (b"x = 'ab\"\n", "s.f90:1: E102\n"),
    (b"x = 'ab'''\ny = '''\n", "s.f90:2: E102\n"),
    (
        b"program p\nprint '(A)', 'ab&\ncd'\nend\n",
        "s.f90:2: E102\n",
    ),
    (b"x = 'ab & ! no comment\n&cd'\n", "s.f90:1: E102\n"),
    (b"x = 'ab&\n&\n&cd'\n", "s.f90:1: E106\n"),
];

const AMPERSANDS: [(&[u8], &str); 6] = [
    (b"x = 1 &\n", "s.f90:1: E106\n"),
    (b"x = 1 &\n\n! end\n", "s.f90:1: E106\n"),
    (b"x = a & b\n", "s.f90:1: E106\n"),
    (b"y = 2\nx = 1; &\n", "s.f90:2: E106\n"),
    (b"x = 1 &\n& ! alone\n+ 2\n", "s.f90:1: E106\n"),
    (b" &\n", "s.f90:1: E106\n"),
];

const CONTINUED: [(&str, &str); 11] = [
    (
        "x = ab&\n  &cd",
        "(Assign 2 (Ref [(Part x)]) (Ref [(Part abcd)]))",
    ),
    (
        "x = 'ab&\n  &cd'",
        "(Assign 2 (Ref [(Part x)]) (Char \"abcd\"))",
    ),
    (
        "x = 'ab &\n\n! between\n & cd'",
        "(Assign 2 (Ref [(Part x)]) (Char \"ab  cd\"))",
    ),
    (
        "x = 'ab&\n& ! c'",
        "(Assign 2 (Ref [(Part x)]) (Char \"ab ! c\"))",
    ),
    (
        "x = 'ab'&\n&'cd'",
        "(Assign 2 (Ref [(Part x)]) (Char \"ab'cd\"))",
    ),
    (
        "x = 1 &\n& &\n+ 2",
        "(Assign 2 (Ref [(Part x)]) (Binary 0 (Int \"1\" 0) (Int \"2\" 0)))",
    ),
    (
        "x = 1 & ! one\n  + 2 ! two",
        "(Assign 2 (Ref [(Part x)]) (Binary 0 (Int \"1\" 0) (Int \"2\" 0)))",
    ),
    (
        "x = 12&\n&34_&\n&8",
        "(Assign 2 (Ref [(Part x)]) (Int \"1234\" 8))",
    ),
    (
        "x = a .e&\n&q. b",
        "(Assign 2 (Ref [(Part x)]) (Binary 6 (Ref [(Part a)]) (Ref [(Part b)])))",
    ),
    (
        "x = 1;; y = 2;",
        "(Assign 2 (Ref [(Part x)]) (Int \"1\" 0)) (Assign 2 (Ref [(Part y)]) (Int \"2\" 0))",
    ),
    (
        "x = 1; y = &\n2; z = 3",
        "(Assign 2 (Ref [(Part x)]) (Int \"1\" 0)) (Assign 2 (Ref [(Part y)]) (Int \"2\" 0)) (Assign 3 (Ref [(Part z)]) (Int \"3\" 0))",
    ),
];

const ANY_BYTES: [(&[u8], &str); 5] = [
    (
        b"program p\nx = 'a\tb!;c&d\xff' ! \xfe 'open\nend\n",
        "(Program 1 p [] [(Assign 2 (Ref [(Part x)]) (Char \"a\\011b!;c&d\\377\"))] [])\n",
    ),
    (
        b"program p\nx = \"a\"\"b?\\\"\nend\n",
        "(Program 1 p [] [(Assign 2 (Ref [(Part x)]) (Char \"a\\042b\\077\\134\"))] [])\n",
    ),
    (
        b"PROGRAM\tABC\r\nEND PROGRAM abc\r\n",
        "(Program 1 abc [] [] [])\n",
    ),
    (b"", ""),
    (b" ! nothing\n;;\n", ""),
];

#[test]
fn faults_are_told_at_their_lines(rt: HostRuntime) -> Result<(), Fail> {
    assert_eq!(rt; first_not_refused(rt.alloc(), &FIRST_FAULTS)?, None);
    assert_eq!(rt; first_not_refused(rt.alloc(), &DIGITS)?, None);
    assert_eq!(rt; first_not_refused(rt.alloc(), &BYTES)?, None);
    assert_eq!(rt; first_not_refused(rt.alloc(), &AMPERSANDS)?, None);
    Ok(())
}

#[test]
fn lines_are_joined_and_constants_take_any_byte(rt: HostRuntime) -> Result<(), Fail> {
    assert_eq!(rt;
        first_lines_not_shown(rt.alloc(), STATEMENTS, &CONTINUED)?,
        None
    );
    assert_eq!(rt; first_not_shown(rt.alloc(), &ANY_BYTES)?, None);
    Ok(())
}
