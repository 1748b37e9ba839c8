//! The form of a statement, read by itself.
#![tactic(auto)]

mod actions;
mod chain;
mod constructs;
mod declarations;
mod form;
pub mod law;
mod names;
mod output;
mod procedures;
mod read;
mod refusal;
mod rows;
mod shape;
mod types;
mod words;

pub use form::{End, Form, Formed};
pub use read::read_form;
