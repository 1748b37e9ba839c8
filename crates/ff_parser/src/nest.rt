use crate::stack::Stack;
use ast_nodes::{Arm, Case, CaseRange, Decl, Expr, Procedure, Statement, TypeSpec, Unit, Vars};
use lf_base::Name;
use sqlite_items::{Boxed, Items};

/// How far a unit or a procedure has come (ISO/IEC 1539-1:2018, 5.1): the first group of statements that may still follow in it.
#[derive(Clone, Copy, Debug, PartialEq, Eq)]
pub enum Stage {
    Uses,
    Declarations,
    Statements,
    /// Behind `contains`.
    Procedures,
}

/// What begins a procedure.
#[derive(Drop)]
pub struct Header {
    pub name: Name,
    pub is_function: u8,
    pub type_spec: Option<TypeSpec>,
    pub dummies: Items<Name>,
    pub result: Option<Name>,
}

/// The unit around an open procedure, up to it.
#[derive(Drop)]
pub struct Host {
    pub line: u32,
    pub name: Name,
    pub is_module: bool,
    pub decls: Items<Decl>,
    pub stmts: Items<Statement>,
    pub procs: Items<Procedure>,
}

/// What a scoping unit is.
#[derive(Drop)]
pub enum ScopeKind {
    /// A main program, or a module.
    Unit {
        name: Name,
        is_module: bool,
        procs: Items<Procedure>,
    },
    Procedure {
        header: Boxed<Header>,
        host: Boxed<Host>,
    },
}

/// The innermost unit or procedure that is open, as far as it is read.
#[derive(Drop)]
pub struct Scope {
    pub line: u32,
    pub kind: ScopeKind,
    pub stage: Stage,
    pub decls: Items<Decl>,
    pub stmts: Items<Statement>,
}

/// An open derived type or interface, as far as it is read.
#[derive(Drop)]
pub enum Definition {
    Type {
        line: u32,
        name: Name,
        access: u8,
        components: Items<Vars>,
    },
    Interface {
        line: u32,
        name: Name,
        names: Items<Name>,
    },
}

/// A `case` statement.
#[derive(Drop)]
pub struct Label {
    pub line: u32,
    pub is_default: u8,
    pub ranges: Items<CaseRange>,
}

/// An open construct without the block that is open in it.
#[derive(Drop)]
pub enum Parts {
    /// The arms that are closed, and the line and the condition of the open one. Behind `else` there is no condition.
    If {
        arms: Items<Arm>,
        line: u32,
        condition: Option<Expr>,
    },
    Do {
        variable: Name,
        lower: Boxed<Expr>,
        upper: Boxed<Expr>,
        step: Option<Boxed<Expr>>,
    },
    While {
        condition: Option<Boxed<Expr>>,
    },
    /// The cases that are closed, the label of the open one, and whether `case default` stood.
    Select {
        value: Boxed<Expr>,
        cases: Items<Case>,
        label: Option<Label>,
        has_default: bool,
    },
}

/// An open construct (ISO/IEC 1539-1:2018, clause 11), as far as it is read: the statements are those of its open block.
#[derive(Drop)]
pub struct Level {
    pub line: u32,
    pub construct: Option<Name>,
    pub parts: Parts,
    pub stmts: Items<Statement>,
}

/// The units that are closed, and what is open behind them: nothing, a unit or a procedure, a definition in it, or constructs in it,
/// the innermost apart from those around it.
#[derive(Drop)]
pub enum Nest {
    Outside {
        units: Items<Unit>,
    },
    Scope {
        units: Items<Unit>,
        scope: Scope,
    },
    Definition {
        units: Items<Unit>,
        scope: Scope,
        definition: Definition,
    },
    Construct {
        units: Items<Unit>,
        scope: Scope,
        level: Level,
        around: Stack<Level>,
    },
}
