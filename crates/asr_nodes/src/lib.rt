//! The typed tree of a program by numbers: symbols in tables, expressions and statements in lists.
#![tactic(auto)]

mod asr;
pub mod code;
mod ids;
pub mod law;
mod node;
mod noted;
mod print;
mod sample;
mod stack;
mod symbol_visit;
mod tree;
mod visit;

pub use asr::Asr;
pub use ids::ExprIds;
pub use node::{ArrayItem, Case, CaseRange, Expr, PrintItem, SectionPart, Stmt, Symbol};
pub use print::print_asr;
pub use symbol_visit::SymbolVisit;
pub use tree::{
    ArrayItemTree, CaseTree, ElemTree, ExprTree, PrintItemTree, SectionPartTree, StmtTree,
    SymbolTree, TypeTree, UnitTree,
};
pub use visit::{NodeId, Visit};
