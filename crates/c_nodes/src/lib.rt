//! C files of the profile that the compiler writes (ISO/IEC 9899:1999): their shapes and their one text.
#![tactic(auto)]

mod expressions;
pub mod law;
mod print;
mod tree;

pub use print::print_c;
pub use tree::{CBinary, CExpr, CFile, CItem, CObject, CParameter, CResult, CStmt, CType};
