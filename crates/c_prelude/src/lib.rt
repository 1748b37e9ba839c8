//! The prelude: the functions in C with which each printed file begins, and what they do.
#![tactic(auto)]

pub mod law;
mod prelude_file;
mod prelude_instruction;
mod prelude_machine;
mod prelude_numbers;
mod prelude_sequences;

pub use prelude_file::prelude;
