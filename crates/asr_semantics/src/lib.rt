//! What a program of typed trees does (ISO/IEC 1539-1:2018), for the trees that the compiler makes.
#![tactic(auto)]

pub mod law;
