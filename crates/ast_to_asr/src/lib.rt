//! The typed tree of a Fortran source (ISO/IEC 1539-1:2018): its definition, and which forms have one so far.
#![tactic(auto)]

pub mod build;
mod built;
mod facts;
mod judge;
pub mod law;
mod names;
mod number;

pub use built::unbuilt;
pub use facts::Facts;
pub use judge::{judged, judged_designator};
pub use names::{Constant, Known, Names, ScalarType};
