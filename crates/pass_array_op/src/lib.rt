//! The pass that lowers list-directed output to records that are put value by value.
#![tactic(auto)]

mod body;
mod greatest;
pub mod law;
mod print;
mod unit;

pub use body::lower_statements;
pub use unit::lower_implied_do;
