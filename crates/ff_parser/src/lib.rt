//! Statements to the tree of a file.
#![tactic(auto)]

mod allowed;
mod file;
mod inner;
pub mod law;
mod names;
mod nest;
mod stack;
mod take;

pub use file::parse;
