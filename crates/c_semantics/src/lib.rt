//! Which C files are one program, and what they do (ISO/IEC 9899:1999), for the files that the compiler writes.
#![tactic(auto)]

pub mod law;
