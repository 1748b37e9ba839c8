//! The shapes of a C file. They restate the part of ISO/IEC 9899:1999 that the compiler writes: expressions
//! (6.5), declarations (6.7), statements (6.8) and function definitions (6.9.1), each as one line or as lines
//! around a block. A tree is one derivation: parentheses stand in it as nodes of their own.

use lf_base::Name;
use sqlite_items::{Boxed, Items};

/// The type of an object (6.7.2).
#[derive(Debug, Drop)]
pub enum CType {
    /// `int64_t`
    Int64,
    /// `int32_t`
    Int32,
    /// `unsigned char`
    Byte,
    /// `struct N`
    Struct { name: Name },
}

/// The type that a function returns (6.7.5.3).
#[derive(Debug, Drop)]
pub enum CResult {
    /// `void`
    Void,
    /// `int64_t`
    Int64,
    /// `int`, which `main` alone returns
    Int,
}

/// A parameter of a function (6.7.5.3).
#[derive(Drop)]
pub enum CParameter {
    /// `T N`
    Value { kind: CType, name: Name },
    /// `T *N`
    Pointer { kind: CType, name: Name },
}

/// A member of a structure (6.7.2.1) or an object outside functions (6.9.2): one object, or an array of so many.
#[derive(Drop)]
pub enum CObject {
    /// `T N`
    Single { kind: CType, name: Name },
    /// `T N[c]`
    Array { kind: CType, name: Name, size: u64 },
}

/// An operator between two operands (6.5.5, 6.5.6, 6.5.8, 6.5.9, 6.5.13, 6.5.14).
#[derive(Clone, Copy, Debug, PartialEq, Eq)]
pub enum CBinary {
    Add,
    Subtract,
    Multiply,
    Divide,
    Remainder,
    Less,
    AtMost,
    Equal,
    Differ,
    And,
    Or,
}

/// An expression (6.5). An lvalue is a variable, an element of an lvalue or a member of one. Operands are lvalues,
/// constants or in parentheses.
#[derive(Drop)]
pub enum CExpr {
    /// `N`
    Variable {
        name: Name,
    },
    /// `L[X]`
    Index {
        base: Boxed<CExpr>,
        subscript: Boxed<CExpr>,
    },
    /// `L.N`
    Member {
        base: Boxed<CExpr>,
        name: Name,
    },
    /// A constant that is not negative.
    Constant {
        value: u64,
    },
    /// `INT64_MAX`
    Greatest,
    /// `INT64_MIN`
    Least,
    /// `(X)`
    Paren {
        inner: Boxed<CExpr>,
    },
    /// `-A`
    Negate {
        operand: Boxed<CExpr>,
    },
    /// `!A`
    Not {
        operand: Boxed<CExpr>,
    },
    /// `A op A`
    Binary {
        operator: CBinary,
        left: Boxed<CExpr>,
        right: Boxed<CExpr>,
    },
    /// `(T)A`
    Cast {
        kind: CType,
        operand: Boxed<CExpr>,
    },
    /// `(int)A`
    ToInt {
        operand: Boxed<CExpr>,
    },
    /// `&L`
    Address {
        place: Boxed<CExpr>,
    },
    /// `(unsigned char *)"bytes"`
    Literal {
        bytes: Items<u8>,
    },
}

/// A declaration in a block (6.7) or a statement (6.8).
#[derive(Drop)]
pub enum CStmt {
    /// `T N;`
    Declare {
        kind: CType,
        name: Name,
    },
    /// `T N[X];`
    DeclareArray {
        kind: CType,
        name: Name,
        size: CExpr,
    },
    /// `T N = X;`
    DeclareValue {
        kind: CType,
        name: Name,
        value: CExpr,
    },
    /// `T *N = X;`
    DeclarePointer {
        kind: CType,
        name: Name,
        value: CExpr,
    },
    /// `T N = N(X, X);`
    DeclareCall {
        kind: CType,
        name: Name,
        callee: Name,
        arguments: Items<CExpr>,
    },
    /// `L = X;`
    Assign {
        target: CExpr,
        value: CExpr,
    },
    /// `L = N(X, X);`
    AssignCall {
        target: CExpr,
        callee: Name,
        arguments: Items<CExpr>,
    },
    /// `N(X, X);`
    Call {
        callee: Name,
        arguments: Items<CExpr>,
    },
    /// `return;`
    Return,
    /// `return X;`
    ReturnValue {
        value: CExpr,
    },
    /// `return N(X, X);`
    ReturnCall {
        callee: Name,
        arguments: Items<CExpr>,
    },
    /// `goto N;`
    Goto {
        label: Name,
    },
    /// `N: ;`, which stands last in its block
    Label {
        name: Name,
    },
    /// `{`, statements, `}`
    Block {
        body: Items<CStmt>,
    },
    /// `while (X) {`, statements, `}`
    While {
        test: CExpr,
        body: Items<CStmt>,
    },
    /// `if (X) {`, statements, `}`
    If {
        test: CExpr,
        then_body: Items<CStmt>,
    },
    /// `if (X) {`, statements, `} else {`, statements, `}`
    IfElse {
        test: CExpr,
        then_body: Items<CStmt>,
        else_body: Items<CStmt>,
    },
}

/// A declaration of a structure, and a declaration or definition of an object or a function outside functions
/// (6.7, 6.9). Its statements are dropped in a room that does not grow with a chain of `else if`.
pub enum CItem {
    /// `struct N {`, a line `T N;` or `T N[c];` for each member, `};`
    Struct {
        name: Name,
        members: Items<CObject>,
    },
    /// `T N;` or `T N[c];`, or the same with `extern` in front
    Object {
        is_extern: bool,
        object: CObject,
    },
    /// `static T N;`, in the prelude alone. The object belongs to its file (6.2.2).
    StaticObject {
        kind: CType,
        name: Name,
    },
    /// `static T *N;`, in the prelude alone
    StaticPointer {
        kind: CType,
        name: Name,
    },
    /// `R N(P);`
    Prototype {
        result: CResult,
        name: Name,
        parameters: Items<CParameter>,
    },
    /// `R N(P) {`, statements, `}`, with `static` in front in the prelude alone.
    Function {
        is_static: bool,
        result: CResult,
        name: Name,
        parameters: Items<CParameter>,
        body: Items<CStmt>,
    },
}

// The last statement in which a chain of `else if` goes on, if there is one.
fn pop_last(stmt: &mut CStmt) -> Option<CStmt> {
    match stmt {
        CStmt::Block { body } => body.pop(),
        CStmt::IfElse { else_body, .. } => else_body.pop(),
        _ => None,
    }
}

// A chain of `else if` is a tree as deep as the chain is long. Its last statement is taken out before it is dropped,
// so that dropping the chain takes no frame for each of its arms.
fn release(stmt: CStmt) {
    let mut last = stmt;
    for _ in 0..u64::MAX {
        match pop_last(&mut last) {
            Some(next) => last = next,
            None => return,
        }
    }
}

fn release_all(body: Items<CStmt>) {
    let mut rest = body;
    for _ in 0..u64::MAX {
        match rest.pop() {
            Some(stmt) => release(stmt),
            None => return,
        }
    }
}

impl Drop for CItem {
    fn drop(self) {
        match self {
            CItem::Struct {
                name: _,
                members: _,
            } => {}
            CItem::Object {
                is_extern: _,
                object: _,
            } => {}
            CItem::StaticObject { kind: _, name: _ } => {}
            CItem::StaticPointer { kind: _, name: _ } => {}
            CItem::Prototype {
                result: _,
                name: _,
                parameters: _,
            } => {}
            CItem::Function {
                is_static: _,
                result: _,
                name: _,
                parameters: _,
                body,
            } => release_all(body),
        }
    }
}

/// A translation unit (6.9): three headers, and the items behind them, which begin with those of the prelude.
#[derive(Drop)]
pub struct CFile {
    pub items: Items<CItem>,
}
