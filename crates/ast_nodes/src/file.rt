use crate::declaration::{Decl, TypeSpec};
use crate::statement::Statement;
use lf_base::Name;
use sqlite_items::Items;

/// A source file: its program units in order (ISO/IEC 1539-1:2018, R501).
#[derive(Drop)]
pub struct File {
    pub units: Items<Unit>,
}

/// A program unit (R502).
#[derive(Drop)]
pub enum Unit {
    /// A main program (14.1).
    Program {
        line: u32,
        name: Name,
        decls: Items<Decl>,
        stmts: Items<Statement>,
        procs: Items<Procedure>,
    },
    /// A module (14.2).
    Module {
        line: u32,
        name: Name,
        decls: Items<Decl>,
        procs: Items<Procedure>,
    },
}

/// A procedure behind `contains` (15.6.2). `is_function` is 1 for a function. A function may have the type of its result in
/// front, and its result may have a name of its own.
#[derive(Drop)]
pub struct Procedure {
    pub line: u32,
    pub name: Name,
    pub is_function: u8,
    pub type_spec: Option<TypeSpec>,
    pub dummies: Items<Name>,
    pub result: Option<Name>,
    pub decls: Items<Decl>,
    pub stmts: Items<Statement>,
}
