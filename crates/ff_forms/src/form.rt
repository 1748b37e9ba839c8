use ast_nodes::{CaseRange, Expr, Statement, TypeSpec, UseStmt, Vars};
use lf_base::Name;
use sqlite_items::{Boxed, Items};

/// What an end statement closes by its own words.
#[derive(Clone, Copy, Debug, PartialEq, Eq)]
pub enum End {
    /// `end` alone
    Bare,
    /// `end program`
    Program,
    /// `end module`
    Module,
    /// `end subroutine`
    Subroutine,
    /// `end function`
    Function,
    /// `end type`
    Type,
    /// `end interface`
    Interface,
    /// `end if`
    If,
    /// `end do`
    Do,
    /// `end select`
    Select,
}

/// A statement by its form (ISO/IEC 1539-1:2018, clauses 8, 10 to 15): a whole one, or the beginning, a part or the end of a unit,
/// a procedure, a definition or a construct.
#[derive(Drop)]
pub enum Form {
    /// `program N`
    Program {
        name: Name,
    },
    /// `module N`
    Module {
        name: Name,
    },
    /// `contains`
    Contains,
    /// `end`, with the words and the name behind it
    End {
        end: End,
        name: Option<Name>,
    },
    /// `subroutine N (dummies)`, or `function N (dummies) result (N)` where `is_function` is 1
    Procedure {
        name: Name,
        is_function: u8,
        type_spec: Option<TypeSpec>,
        dummies: Items<Name>,
        result: Option<Name>,
    },
    /// `use`
    Use {
        used: UseStmt,
    },
    /// `implicit none`
    ImplicitNone,
    /// `private` or `public`
    Access {
        is_private: u8,
        names: Items<Name>,
    },
    /// A declaration of variables, parameters, dummies or components
    Variables {
        vars: Vars,
    },
    /// `type :: T`, with its access by its code
    TypeDef {
        name: Name,
        access: u8,
    },
    /// `interface G`
    Interface {
        name: Name,
    },
    /// `procedure names` or `module procedure names`, in an interface
    Specifics {
        names: Items<Name>,
    },
    /// A whole executable statement, which ends where it stands
    Action {
        statement: Statement,
    },
    /// `if (e) then`
    IfThen {
        construct: Option<Name>,
        condition: Expr,
    },
    /// `else if (e) then`
    ElseIf {
        construct: Option<Name>,
        condition: Expr,
    },
    /// `else`
    Else {
        construct: Option<Name>,
    },
    /// `do i = lower, upper, step`
    Do {
        construct: Option<Name>,
        variable: Name,
        lower: Boxed<Expr>,
        upper: Boxed<Expr>,
        step: Option<Boxed<Expr>>,
    },
    /// `do while (e)`, or `do` alone
    While {
        construct: Option<Name>,
        condition: Option<Boxed<Expr>>,
    },
    /// `select case (e)`
    Select {
        construct: Option<Name>,
        value: Boxed<Expr>,
    },
    /// `case (ranges)`, or `case default` where `is_default` is 1
    Case {
        construct: Option<Name>,
        is_default: u8,
        ranges: Items<CaseRange>,
    },
}

/// A statement in its form, with the line on which it begins. `is_deep` is 1 where an expression of it is deeper than the limit;
/// that expression is then a stub.
#[derive(Drop)]
pub struct Formed {
    pub line: u32,
    pub form: Form,
    pub is_deep: u8,
}
