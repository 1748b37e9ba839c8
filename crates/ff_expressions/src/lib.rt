//! What a statement is made of: its words, literals, marks and brackets, and the expressions that they spell
//! (ISO/IEC 1539-1:2018, 10.1).
#![tactic(auto)]

mod argument;
mod designator;
mod group;
mod item;
pub mod law;
mod level;
mod operators;
mod part;
mod piece;
mod primary;
mod queue;
mod reader;
mod sign;
mod spelling;
mod tree;

pub use argument::arguments;
pub use designator::reference;
pub use group::Arguments;
pub use item::{Bracket, GREATEST_DEPTH, Item, Mark, Parsed, Part, Reference, Stride};
pub use operators::expression;
pub use part::output;
pub use piece::pieces;
pub use queue::Queue;
pub use reader::items;
