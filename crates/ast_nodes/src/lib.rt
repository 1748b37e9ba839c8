//! The tree of a source as it is written (ISO/IEC 1539-1:2018), before names and types are resolved.
#![tactic(auto)]

pub mod code;
mod declaration;
mod expression;
mod file;
pub mod law;
mod print;
mod statement;

pub use declaration::{Attribute, Bound, Decl, Entity, Length, Rename, TypeSpec, UseStmt, Vars};
pub use expression::{Designator, Expr, RefPart};
pub use file::{File, Procedure, Unit};
pub use print::print_ast;
pub use statement::{Arm, Case, CaseRange, Statement};
