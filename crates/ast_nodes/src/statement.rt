use crate::expression::{Designator, Expr};
use lf_base::Name;
use sqlite_items::{Boxed, Items};

/// An executable statement or construct (ISO/IEC 1539-1:2018, R514), with the line on which it begins.
#[derive(Drop)]
#[cycle(statement)]
pub enum Statement {
    /// `target = value` (10.2.1)
    Assign {
        line: u32,
        target: Designator,
        value: Expr,
    },
    /// `if` (11.1.8), or an action behind `if (e)`.
    If {
        line: u32,
        construct: Option<Name>,
        arms: Items<Arm>,
    },
    /// A counted `do` (11.1.7.4).
    Do {
        line: u32,
        construct: Option<Name>,
        variable: Name,
        lower: Boxed<Expr>,
        upper: Boxed<Expr>,
        step: Option<Boxed<Expr>>,
        body: Items<Statement>,
    },
    /// `do while`, or `do` with no condition.
    While {
        line: u32,
        construct: Option<Name>,
        condition: Option<Boxed<Expr>>,
        body: Items<Statement>,
    },
    /// `select case` (11.1.9)
    Select {
        line: u32,
        construct: Option<Name>,
        value: Boxed<Expr>,
        cases: Items<Case>,
    },
    /// `call` (15.5.1)
    Call {
        line: u32,
        name: Name,
        arguments: Items<Expr>,
    },
    /// `print` or `write` (12.6): the format by its code, and `advance` 1 where no newline ends the record.
    Print {
        line: u32,
        form: u8,
        advance: u8,
        items: Items<Expr>,
    },
    /// `read` of one variable (12.6)
    Read {
        line: u32,
        target: Designator,
        iostat: Option<Designator>,
    },
    /// `stop`, or `error stop` where `is_error` is 1 (11.4)
    Stop {
        line: u32,
        is_error: u8,
        code: Option<Expr>,
    },
    /// `exit`
    Exit {
        line: u32,
        construct: Option<Name>,
    },
    /// `cycle`
    Cycle {
        line: u32,
        construct: Option<Name>,
    },
    /// `return`
    Return {
        line: u32,
    },
    /// `continue`
    Continue {
        line: u32,
    },
}

/// A part of an `if`: its condition, which `else` lacks, and its block.
#[derive(Drop)]
#[cycle(statement)]
pub struct Arm {
    pub line: u32,
    pub condition: Option<Expr>,
    pub body: Items<Statement>,
}

/// A part of a `select case`: its ranges, or `case default`.
#[derive(Drop)]
#[cycle(statement)]
pub struct Case {
    pub line: u32,
    pub is_default: u8,
    pub ranges: Items<CaseRange>,
    pub body: Items<Statement>,
}

/// What a case takes (R1145).
#[derive(Drop)]
pub enum CaseRange {
    /// One value.
    One {
        value: Expr,
    },
    /// All from the lower to the upper one; one of the two may be missing.
    Range {
        lower: Option<Expr>,
        upper: Option<Expr>,
    },
}
