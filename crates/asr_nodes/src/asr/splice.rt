//! A block in the place of a statement.
ghost use Rattle.std.specs.Prelude.{◌≡◌, ◌<◌, ◌+◌, ◌^◌, ◌++◌, IfOk, OnOk, OnErr};
ghost use Rattle.asr_nodes.specs.Nodes.{HasStmt};
ghost use Rattle.asr_nodes.specs.Splices.{SplicesOr, are_apart, block_of, spliced, stmts_from};

use super::Asr;
use super::edit::put_at;
use crate::node::Stmt;
use lf_base::{Memory, StmtId};
use sqlite_items::Items;
use std::alloc::Global;

/// So many numbers of statements, from the first on.
fn numbered(alloc: Global, first: u64, count: usize) -> Result<Items<StmtId>, Memory>
    requires { first + count < 2 ^ 64 }
    ensures { IfOk result (λ ids. ids ≡ stmts_from first count) }
{
    let mut ids = Vec::new(alloc);
    for place in 0..count {
        match ids.push(StmtId(first + place as u64)) {
            Ok(()) => {}
            Err(_) => return Err(Memory),
        }
    }
    Ok(Items::from_vec(ids))
}

/// Puts nodes last.
fn append<X>(nodes: &mut Vec<X>, more: &mut Vec<X>) -> Result<(), Memory>
    ensures ok { OnOk result (nodes.new.items ≡ nodes.old.items ++ more.old.items) }
    ensures err { OnErr result (nodes.new.items ≡ nodes.old.items) }
{
    match nodes.append(more) {
        Ok(()) => Ok(()),
        Err(_) => Err(Memory),
    }
}

impl Asr {
    fn put_block(&mut self, at: StmtId, block: Stmt, with: Vec<Stmt>) -> Result<(), Memory>
        requires there { HasStmt self.old at }
        requires apart { are_apart self.old at with.items }
        requires block { block ≡ block_of self.old at with.items }
        ensures new { OnOk result (self.new ≡ spliced self.old at with.items) }
        ensures trees { SplicesOr self.old at with.items self.new result }
    {
        self.sound();
        let mut with = with;
        append(&mut self.stmts, &mut with)?;
        put_at(&mut self.stmts, at.0 as usize, block);
        Ok(())
    }

    /// Puts a block of new statements in the place of a statement, whose line it takes. The parts of the new ones
    /// are there, and no walk from them comes by the place. They get the next numbers. It fails only for want of
    /// memory, and then nothing is changed.
    ///
    /// The place has the block of the new statements' trees, and all other trees become what `replace` says.
    pub fn splice(&mut self, at: StmtId, with: Vec<Stmt>) -> Result<(), Memory>
        requires there { HasStmt self.old at }
        requires apart { are_apart self.old at with.items }
        ensures new { OnOk result (self.new ≡ spliced self.old at with.items) }
        ensures trees { SplicesOr self.old at with.items self.new result }
    {
        let line = self.stmt(at).line();
        let stmts = numbered(self.alloc, self.stmts.len() as u64, with.len())?;
        self.put_block(at, Stmt::Block { line, stmts }, with)
    }
}
