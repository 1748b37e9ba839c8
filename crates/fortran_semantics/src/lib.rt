//! What a Fortran program does (ISO/IEC 1539-1:2018), by the tree of its source.
#![tactic(auto)]

pub mod law;
