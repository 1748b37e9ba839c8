//! Tests that cross crates: worked examples, with their values from the standard. There is no other code here.
#![tactic(auto)]

#[cfg(test)]
mod chains;
#[cfg(test)]
mod compile;
#[cfg(test)]
mod lexical;
#[cfg(test)]
mod order;
#[cfg(test)]
mod run;
#[cfg(test)]
mod syntax;
#[cfg(test)]
mod trees;
