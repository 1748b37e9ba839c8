//! Two small languages and the links between their meanings.
#![tactic(auto)]

pub mod law;
