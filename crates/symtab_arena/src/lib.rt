//! Symbol tables by number: tables that name their parent and owner, symbols that name their table.
#![tactic(auto)]

mod arena;
mod entries;
mod fault;
mod key;
mod names;
mod sample;
mod table;

pub use arena::Arena;
pub use fault::ArenaFault;
pub use key::NameKey;
