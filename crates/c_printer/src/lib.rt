//! The C file of a typed tree (ISO/IEC 9899:1999).
#![tactic(auto)]

mod cexpr;
mod first;
pub mod law;
mod located;
mod manners;
mod names;
mod operations;
mod places;
mod saved;
mod scalar;
mod scope;
mod statements;
mod units;
mod values;
mod writer;

pub use scalar::{Helper, Manner, ScalarType, Value};
pub use units::lower_to_c;
