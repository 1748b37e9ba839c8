//! The ground of the compiler: names, rules, ids, and the traits of the outside.
#![tactic(auto)]

mod calls;
mod fault;
mod id;
pub mod law;
mod mem_sink;
mod mem_source;
mod mem_store;
mod name;
pub mod operator;
mod rule;
mod sink;
mod source;
mod store;
mod sure_sink;
mod sure_source;
mod sure_store;
mod trap;

pub use fault::{Failed, GetFault, LexFault, Memory, PutFault, RuleFault, SyntaxFault};
pub use id::{ExprId, StmtId, SymId, TableId};
pub use mem_sink::MemSink;
pub use mem_source::MemSource;
pub use mem_store::MemStore;
pub use name::Name;
pub use rule::Rule;
pub use sink::Sink;
pub use source::Source;
pub use store::Store;
pub use sure_sink::SureSink;
pub use sure_source::SureSource;
pub use sure_store::SureStore;
pub use trap::Trap;
