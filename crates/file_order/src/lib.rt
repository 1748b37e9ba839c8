//! The order in which files compile: each behind the files that hold the modules which it uses.
#![tactic(auto)]

mod answer;
mod candidates;
mod cycle;
mod fault;
pub mod law;
mod modules;
mod numbers;
mod open_places;
mod rows;
mod search;
mod uses;

pub use answer::order;
pub use fault::OrderFault;
