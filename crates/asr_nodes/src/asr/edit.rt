//! Edits in place: what is not touched keeps its number and its fields.
ghost use Rattle.std.specs.Prelude.{◌≡◌, ◌<◌, true, length, slice_get, slice_set, Some};
ghost use Rattle.asr_nodes.specs.Keys.{expr, stmt};
ghost use Rattle.asr_nodes.specs.Nodes.{HasExpr, HasStmt, Replaces, avoid, node_at, with_expr_at, with_stmt_at};
ghost use Rattle.asr_nodes.specs.Parts.{expr_parts, stmt_parts};

use super::Asr;
use crate::node::{Expr, Stmt};
use lf_base::{ExprId, StmtId};
use std::mem;

/// Puts a node in the place of another, and hands the old one back.
pub(super) fn put_at<X>(nodes: &mut Vec<X>, place: usize, node: X) -> X
    requires { place < length nodes.old.items }
    ensures old { slice_get nodes.old.items place ≡ Some result }
    ensures new { nodes.new.items ≡ slice_set nodes.old.items place node }
{
    mem::replace(&mut nodes[place], node)
}

impl Asr {
    /// Puts a statement in the place of another, and hands the old one back. The parts of the new one are there, and
    /// no walk from them comes by the place. It takes no memory.
    ///
    /// The place has the new statement's tree, a number whose walk does not come by the place keeps its tree, and
    /// the tree of every other one is made of the new trees of its parts.
    pub fn replace(&mut self, at: StmtId, with: Stmt) -> Stmt
        requires there { HasStmt self.old at }
        requires apart { avoid self.old (stmt at) (stmt_parts with) ≡ true }
        ensures old { node_at self.old (stmt at) ≡ Some result }
        ensures new { self.new ≡ with_stmt_at self.old at with }
        ensures trees { Replaces self.old self.new (stmt at) with }
    {
        self.sound();
        put_at(&mut self.stmts, at.0 as usize, with)
    }

    /// Puts an expression in the place of another, and hands the old one back, as `replace` does with statements.
    pub fn replace_expr(&mut self, at: ExprId, with: Expr) -> Expr
        requires there { HasExpr self.old at }
        requires apart { avoid self.old (expr at) (expr_parts with) ≡ true }
        ensures old { node_at self.old (expr at) ≡ Some result }
        ensures new { self.new ≡ with_expr_at self.old at with }
        ensures trees { Replaces self.old self.new (expr at) with }
    {
        self.sound();
        put_at(&mut self.exprs, at.0 as usize, with)
    }
}
