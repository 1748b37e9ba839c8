//! The lexical form of a source: its statements, each with the tokens that it is made of.
#![tactic(auto)]

mod bytes;
pub mod law;
mod lexeme;
mod reader;
mod span;
mod token;
mod unbroken;

pub use reader::statements;
pub use span::{spell, spelled};
pub use token::{Kind, Stmt, Token};
pub use unbroken::Spelled;
