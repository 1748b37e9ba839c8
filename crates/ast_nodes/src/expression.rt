use lf_base::Name;
use sqlite_items::{Boxed, Items};

/// An expression (ISO/IEC 1539-1:2018, 10.1), a triplet of a section or an implied do.
#[derive(Drop)]
#[cycle(expr)]
pub enum Expr {
    /// An integer literal (7.4.3.1): its digits as they are written, and the suffix 4 or 8, or 0 for none.
    Int {
        digits: Items<u8>,
        suffix: u8,
    },
    /// A logical literal (7.4.5): 0 or 1.
    Log {
        value: u8,
    },
    /// A character literal (7.4.4): its value, without delimiters.
    Char {
        bytes: Items<u8>,
    },
    /// A designator or the reference of a function (9.1, 15.5.1).
    Ref {
        designator: Designator,
    },
    /// `l:u:s` (9.5.3.3.1), each of whose parts may be missing.
    Triple {
        lower: Option<Boxed<Expr>>,
        upper: Option<Boxed<Expr>>,
        step: Option<Boxed<Expr>>,
    },
    /// A sign or `.not.` before its operand, by the operator's code.
    Unary {
        operator: u8,
        operand: Boxed<Expr>,
    },
    /// An operator between its operands, by its code.
    Binary {
        operator: u8,
        left: Boxed<Expr>,
        right: Boxed<Expr>,
    },
    /// `(e)`
    Paren {
        inner: Boxed<Expr>,
    },
    /// An array constructor (7.8).
    Array {
        items: Items<Expr>,
    },
    /// An implied do (7.8, 12.6.3): `(items, i = lower, upper, step)`.
    Loop {
        variable: Name,
        lower: Boxed<Expr>,
        upper: Boxed<Expr>,
        step: Option<Boxed<Expr>>,
        items: Items<Expr>,
    },
}

/// A name, and then groups in parentheses and further names behind `%` (9.1).
#[derive(Drop)]
#[cycle(expr)]
pub struct Designator {
    pub parts: Items<RefPart>,
}

/// A part of a designator.
#[derive(Drop)]
#[cycle(expr)]
pub enum RefPart {
    /// A name.
    Part { name: Name },
    /// Expressions or triplets in parentheses.
    Group { arguments: Items<Expr> },
}
