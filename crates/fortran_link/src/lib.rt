//! That a Fortran source means what its typed tree means, so far for expressions.
#![tactic(auto)]

pub mod law;
