//! The top call: from the words of a command line to files, texts and a status.
#![tactic(auto)]

mod command;
mod compile;
mod driver;
mod front;
pub mod law;
mod one_print;
mod outcome;
mod show;
mod sort;

pub use command::{Command, Usage, Verb, words};
pub use driver::lf_main;
