//! Tests of symbol tables, of types and values, and of the typed tree, with their values from the standard. There is no
//! other code here.
#![tactic(auto)]

#[cfg(test)]
mod arena;
#[cfg(test)]
mod asr;
#[cfg(test)]
mod operations;
#[cfg(test)]
mod there;
#[cfg(test)]
mod types;
#[cfg(test)]
mod visits;
