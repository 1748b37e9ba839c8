use crate::run::{DECLARATIONS, STATEMENTS, first_lines_not_shown, first_not_shown};
use std::test::Fail;

const PRECEDENCE: [(&str, &str); 12] = [
    (
        "print *, 2+3*4",
        "(Print 2 0 0 [(Binary 0 (Int \"2\" 0) (Binary 2 (Int \"3\" 0) (Int \"4\" 0)))])",
    ),
    (
        "print *, -2**2",
        "(Print 2 0 0 [(Unary 1 (Binary 4 (Int \"2\" 0) (Int \"2\" 0)))])",
    ),
    (
        "print *, 2**3**4",
        "(Print 2 0 0 [(Binary 4 (Int \"2\" 0) (Binary 4 (Int \"3\" 0) (Int \"4\" 0)))])",
    ),
    (
        "print *, -1*2+3",
        "(Print 2 0 0 [(Binary 0 (Unary 1 (Binary 2 (Int \"1\" 0) (Int \"2\" 0))) (Int \"3\" 0))])",
    ),
    (
        "print *, 1-2-3",
        "(Print 2 0 0 [(Binary 1 (Binary 1 (Int \"1\" 0) (Int \"2\" 0)) (Int \"3\" 0))])",
    ),
    (
        "print *, 1/2/3*4",
        "(Print 2 0 0 [(Binary 2 (Binary 3 (Binary 3 (Int \"1\" 0) (Int \"2\" 0)) (Int \"3\" 0)) (Int \"4\" 0))])",
    ),
    (
        "print *, 'a' // 'b' // 'c'",
        "(Print 2 0 0 [(Binary 5 (Binary 5 (Char \"a\") (Char \"b\")) (Char \"c\"))])",
    ),
    (
        "print *, 1 // -2",
        "(Print 2 0 0 [(Binary 5 (Int \"1\" 0) (Unary 1 (Int \"2\" 0)))])",
    ),
    (
        "print *, a .LT. +1 .and. .not. b",
        "(Print 2 0 0 [(Binary 12 (Binary 8 (Ref [(Part a)]) (Unary 0 (Int \"1\" 0))) (Unary 16 (Ref [(Part b)])))])",
    ),
    (
        "print *, .not. .true. .and. b .or. c .eqv. d .neqv. .FALSE.",
        "(Print 2 0 0 [(Binary 15 (Binary 14 (Binary 13 (Binary 12 (Unary 16 (Log 1)) (Ref [(Part b)])) (Ref [(Part c)])) (Ref [(Part d)])) (Log 0))])",
    ),
    (
        "print *, .not. 1 /= 2",
        "(Print 2 0 0 [(Unary 16 (Binary 7 (Int \"1\" 0) (Int \"2\" 0)))])",
    ),
    (
        "print *, 1 <= 2 .or. 3 >= 4",
        "(Print 2 0 0 [(Binary 13 (Binary 9 (Int \"1\" 0) (Int \"2\" 0)) (Binary 11 (Int \"3\" 0) (Int \"4\" 0)))])",
    ),
];

const PRIMARIES: [(&str, &str); 6] = [
    (
        "print *, 007_8, ((1))",
        "(Print 2 0 0 [(Int \"007\" 8) (Paren (Paren (Int \"1\" 0)))])",
    ),
    (
        "print *, f(), a(1)",
        "(Print 2 0 0 [(Ref [(Part f) (Group [])]) (Ref [(Part a) (Group [(Int \"1\" 0)])])])",
    ),
    (
        "print *, a(1)%b(2:3, :)%c",
        "(Print 2 0 0 [(Ref [(Part a) (Group [(Int \"1\" 0)]) (Part b) (Group [(Triple (Int \"2\" 0) (Int \"3\" 0) -) (Triple - - -)]) (Part c)])])",
    ),
    (
        "print *, a(::2), a(1:), a(:2:3), a(1::)",
        "(Print 2 0 0 [(Ref [(Part a) (Group [(Triple - - (Int \"2\" 0))])]) (Ref [(Part a) (Group [(Triple (Int \"1\" 0) - -)])]) (Ref [(Part a) (Group [(Triple - (Int \"2\" 0) (Int \"3\" 0))])]) (Ref [(Part a) (Group [(Triple (Int \"1\" 0) - -)])])])",
    ),
    (
        "print *, [1, (i, i = 1, 3)], (/2]",
        "(Print 2 0 0 [(Array [(Int \"1\" 0) (Loop i (Int \"1\" 0) (Int \"3\" 0) - [(Ref [(Part i)])])]) (Array [(Int \"2\" 0)])])",
    ),
    (
        "print *, (1, (j, j = 1, 2), i = 1, 9, 2)",
        "(Print 2 0 0 [(Loop i (Int \"1\" 0) (Int \"9\" 0) (Int \"2\" 0) [(Int \"1\" 0) (Loop j (Int \"1\" 0) (Int \"2\" 0) - [(Ref [(Part j)])])])])",
    ),
];

const ACTIONS: [(&str, &str); 13] = [
    (
        "integer = 3",
        "(Assign 2 (Ref [(Part integer)]) (Int \"3\" 0))",
    ),
    (
        "if(2) = 5",
        "(Assign 2 (Ref [(Part if) (Group [(Int \"2\" 0)])]) (Int \"5\" 0))",
    ),
    (
        "if (a) x = 1",
        "(If 2 - [(Arm 2 (Ref [(Part a)]) [(Assign 2 (Ref [(Part x)]) (Int \"1\" 0))])])",
    ),
    (
        "call s; call s(); call s(1, :)",
        "(Call 2 s []) (Call 2 s []) (Call 2 s [(Int \"1\" 0) (Triple - - -)])",
    ),
    ("print *; write (*, *)", "(Print 2 0 0 []) (Print 2 0 0 [])"),
    (
        "print '( a\t)', 'x'; print \"(I0)\", 5",
        "(Print 2 1 0 [(Char \"x\")]) (Print 2 2 0 [(Int \"5\" 0)])",
    ),
    (
        "write (*, '(i0)', advance='NO  ') 5",
        "(Print 2 2 1 [(Int \"5\" 0)])",
    ),
    (
        "write (*, '(A)', advance='no\t') 'x'",
        "(Print 2 1 1 [(Char \"x\")])",
    ),
    (
        "if (a) call s\nif (a) continue\nif (a) stop\nif (a) error stop",
        "(If 2 - [(Arm 2 (Ref [(Part a)]) [(Call 2 s [])])]) (If 3 - [(Arm 3 (Ref [(Part a)]) [(Continue 3)])]) (If 4 - [(Arm 4 (Ref [(Part a)]) [(Stop 4 0 -)])]) (If 5 - [(Arm 5 (Ref [(Part a)]) [(Stop 5 1 -)])])",
    ),
    (
        "if (a) exit\nif (a) cycle\nif (a) print *\nif (a) write (*, *)\nif (a) read (*, '(A)') c",
        "(If 2 - [(Arm 2 (Ref [(Part a)]) [(Exit 2 -)])]) (If 3 - [(Arm 3 (Ref [(Part a)]) [(Cycle 3 -)])]) (If 4 - [(Arm 4 (Ref [(Part a)]) [(Print 4 0 0 [])])]) (If 5 - [(Arm 5 (Ref [(Part a)]) [(Print 5 0 0 [])])]) (If 6 - [(Arm 6 (Ref [(Part a)]) [(Read 6 (Ref [(Part c)]) -)])])",
    ),
    (
        "read (*, '(A)') c; read (*, '(a)', iostat=v%i) c(1:2)",
        "(Read 2 (Ref [(Part c)]) -) (Read 2 (Ref [(Part c) (Group [(Triple (Int \"1\" 0) (Int \"2\" 0) -)])]) (Ref [(Part v) (Part i)]))",
    ),
    (
        "stop; stop 3; error stop; error stop 1+1",
        "(Stop 2 0 -) (Stop 2 0 (Int \"3\" 0)) (Stop 2 1 -) (Stop 2 1 (Binary 0 (Int \"1\" 0) (Int \"1\" 0)))",
    ),
    (
        "continue; exit; cycle c",
        "(Continue 2) (Exit 2 -) (Cycle 2 c)",
    ),
];

const CONSTRUCTS: [(&str, &str); 8] = [
    (
        "c: if (a) then\nx = 1\nelse if (b) then c\nelseif (d) then\nelse\nend if c",
        "(If 2 c [(Arm 2 (Ref [(Part a)]) [(Assign 3 (Ref [(Part x)]) (Int \"1\" 0))]) (Arm 4 (Ref [(Part b)]) []) (Arm 5 (Ref [(Part d)]) []) (Arm 6 - [])])",
    ),
    (
        "if: if (a) then\nelse if\nend if",
        "(If 2 if [(Arm 2 (Ref [(Part a)]) []) (Arm 3 - [])])",
    ),
    ("do\nexit\nend do", "(While 2 - - [(Exit 3 -)])"),
    (
        "o: do while (a)\ncycle o\nenddo o",
        "(While 2 o (Ref [(Part a)]) [(Cycle 3 o)])",
    ),
    (
        "do i = 1, 2\nend do",
        "(Do 2 - i (Int \"1\" 0) (Int \"2\" 0) - [])",
    ),
    (
        "do while = 1, 2, 3\nend do",
        "(Do 2 - while (Int \"1\" 0) (Int \"2\" 0) (Int \"3\" 0) [])",
    ),
    (
        "selectcase (i)\ncase (1, 2:3, :0, 9:)\ncontinue\ncase default\nend select",
        "(Select 2 - (Ref [(Part i)]) [(Case 3 0 [(One (Int \"1\" 0)) (Range (Int \"2\" 0) (Int \"3\" 0)) (Range - (Int \"0\" 0)) (Range (Int \"9\" 0) -)] [(Continue 4)]) (Case 5 1 [] [])])",
    ),
    (
        "s: select case (i)\ncase default s\ncase ('a') s\nend select s",
        "(Select 2 s (Ref [(Part i)]) [(Case 3 1 [] []) (Case 4 0 [(One (Char \"a\"))] [])])",
    ),
];

const SPECIFICATIONS: [(&str, &str); 12] = [
    (
        "use m; use :: m; use m, only:",
        "(Use 2 m 0 []) (Use 2 m 0 []) (Use 2 m 1 [])",
    ),
    (
        "use m, only: a, b => c\nuse m, d => e\nuse m, only => x",
        "(Use 2 m 1 [(Rename a a) (Rename b c)]) (Use 3 m 0 [(Rename d e)]) (Use 4 m 0 [(Rename only x)])",
    ),
    (
        "implicit none\ninteger x\nimplicit none",
        "(ImplicitNone 2) (Vars 3 (Integer 4) [] [(Entity x [] -)]) (ImplicitNone 4)",
    ),
    (
        "integer, parameter :: n = 1, m(2) = [1, 2]",
        "(Vars 2 (Integer 4) [(Parameter)] [(Entity n [] (Int \"1\" 0)) (Entity m [(Bound - (Int \"2\" 0))] (Array [(Int \"1\" 0) (Int \"2\" 0)]))])",
    ),
    (
        "integer x, y(3)",
        "(Vars 2 (Integer 4) [] [(Entity x [] -) (Entity y [(Bound - (Int \"3\" 0))] -)])",
    ),
    (
        "integer(kind=8), dimension(2:5, 3), save :: a",
        "(Vars 2 (Integer 8) [(Dimension [(Bound (Int \"2\" 0) (Int \"5\" 0)) (Bound - (Int \"3\" 0))]) (Save)] [(Entity a [] -)])",
    ),
    (
        "integer(4), intent(inout), private, public :: d(:)",
        "(Vars 2 (Integer 4) [(Intent 3) (Private) (Public)] [(Entity d [(Bound - -)] -)])",
    ),
    (
        "logical l\ntype(t) v",
        "(Vars 2 (Logical) [] [(Entity l [] -)]) (Vars 3 (Derived t) [] [(Entity v [] -)])",
    ),
    (
        "character c\ncharacter(*) d\ncharacter(len=n+1) e",
        "(Vars 2 (Character -) [] [(Entity c [] -)]) (Vars 3 (Character (Star)) [] [(Entity d [] -)]) (Vars 4 (Character (Binary 0 (Ref [(Part n)]) (Int \"1\" 0))) [] [(Entity e [] -)])",
    ),
    (
        "type, private :: t\ninteger x\nend type t",
        "(TypeDef 2 t 1 [(Vars 3 (Integer 4) [] [(Entity x [] -)])])",
    ),
    (
        "type t\ninteger x\nendtype",
        "(TypeDef 2 t 2 [(Vars 3 (Integer 4) [] [(Entity x [] -)])])",
    ),
    (
        "interface g\nmodule procedure a, b\nprocedure :: c\nend interface g",
        "(Interface 2 g [a b c])",
    ),
];

const UNITS: [(&[u8], &str); 5] = [
    (
        b"program p\nprint *, 2+3*4\nend program p\n",
        "(Program 1 p [] [(Print 2 0 0 [(Binary 0 (Int \"2\" 0) (Binary 2 (Int \"3\" 0) (Int \"4\" 0)))])] [])\n",
    ),
    (
        b"program p\ninteger :: if(3)\nif(2) = 5\nprint *, if(2)\nend\n",
        "(Program 1 p [(Vars 2 (Integer 4) [] [(Entity if [(Bound - (Int \"3\" 0))] -)])] [(Assign 3 (Ref [(Part if) (Group [(Int \"2\" 0)])]) (Int \"5\" 0)) (Print 4 0 0 [(Ref [(Part if) (Group [(Int \"2\" 0)])])])] [])\n",
    ),
    (
        b"module m\nprivate\npublic :: a, b\ncontains\nrecursive integer(8) function f(x, y) result(r)\nend function f\nsubroutine s\nif (a) return\nend\nend module\nprogram p\nend\n",
        "(Module 1 m [(Access 2 1 []) (Access 3 0 [a b])] [(Proc 5 f 1 (Integer 8) [x y] r [] []) (Proc 7 s 0 - [] - [] [(If 8 - [(Arm 8 (Ref [(Part a)]) [(Return 8)])])])])\n(Program 11 p [] [] [])\n",
    ),
    (
        b"module procedure\ncontains\nfunction f()\nend\nlogical recursive function g()\nend\nend module procedure\n",
        "(Module 1 procedure [] [(Proc 3 f 1 - [] - [] []) (Proc 5 g 1 (Logical) [] - [] [])])\n",
    ),
    (
        b"module m\ncontains\nend module m\nprogram p\ncontains\ninteger(kind=8) recursive function f()\nend\nsubroutine s()\nend subroutine\nend\n",
        "(Module 1 m [] [])\n(Program 4 p [] [] [(Proc 6 f 1 (Integer 8) [] - [] []) (Proc 8 s 0 - [] - [] [])])\n",
    ),
];

#[test]
fn statements_are_shown(rt: HostRuntime) -> Result<(), Fail> {
    assert_eq!(rt;
        first_lines_not_shown(rt.alloc(), STATEMENTS, &PRECEDENCE)?,
        None
    );
    assert_eq!(rt;
        first_lines_not_shown(rt.alloc(), STATEMENTS, &PRIMARIES)?,
        None
    );
    assert_eq!(rt;
        first_lines_not_shown(rt.alloc(), STATEMENTS, &ACTIONS)?,
        None
    );
    assert_eq!(rt;
        first_lines_not_shown(rt.alloc(), STATEMENTS, &CONSTRUCTS)?,
        None
    );
    Ok(())
}

#[test]
fn declarations_and_units_are_shown(rt: HostRuntime) -> Result<(), Fail> {
    assert_eq!(rt;
        first_lines_not_shown(rt.alloc(), DECLARATIONS, &SPECIFICATIONS)?,
        None
    );
    assert_eq!(rt; first_not_shown(rt.alloc(), &UNITS)?, None);
    Ok(())
}
