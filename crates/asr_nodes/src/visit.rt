//! Visits of all expressions and statements that stand below some of them.
ghost use Rattle.std.specs.Prelude.{◌≡◌, true, [], ◌∷◌, ◌++◌, IfOk, OnOk};
ghost use Rattle.asr_nodes.specs.Keys.{expr, stmt, stmts};
ghost use Rattle.asr_nodes.specs.Nodes.{HasExpr, HasStmt, there};
ghost use Rattle.asr_nodes.specs.Visiting.{first_key, keys_of, parts_at};
ghost use Rattle.asr_nodes.specs.Visits.{Takes, key_of, visits};

mod pending;
mod piece;

use crate::asr::Asr;
use crate::stack::{replace_top, top_of};
use crate::visit::pending::{Pending, push_behind, push_block, push_expr, push_pieces};
use crate::visit::piece::{expr_pieces, stmt_pieces};
use lf_base::{ExprId, Memory, StmtId};
use std::alloc::Global;
use std::marker::Model;

/// The number of an expression or of a statement.
#[derive(Clone, Copy, Debug, PartialEq, Eq)]
pub enum NodeId {
    Expr(ExprId),
    Stmt(StmtId),
}

/// A visit of all expressions (ISO/IEC 1539-1:2018, 10.1) and statements (R514) below some of them, in the order of the
/// source: a node before its parts, and these in the order of its fields. It is seen as the list of those that are
/// still to come.
///
/// It recurses on the nesting of implied do loops alone. Its memory goes by the depth of the tree, times what stands in
/// one node besides blocks; blocks are gone over where they stand. Its time goes by the number of the nodes that are
/// visited and of the places in their lists.
#[derive(Drop)]
pub struct Visit<'a> {
    asr: &'a Asr,
    // What is to come, the next on top.
    stack: Vec<Pending<'a>>,
    // The parts of the node that is visited, while they are listed.
    parts: Vec<Pending<'a>>,
}

impl<'a> Model for Visit<'a> {
    ghost use Rattle.std.specs.Prelude.{◌≡◌, true, List};
    ghost use Rattle.asr_nodes.specs.Keys.{Key};
    ghost use Rattle.asr_nodes.specs.Nodes.{there};
    ghost use Rattle.asr_nodes.specs.Visiting.{to_come};
    ghost use Rattle.asr_nodes.specs.Visits.{visits};

    ghost Value = { List Key };

    ghost view = { λ v. visits v.asr.now (to_come v.stack.items) };

    ghost invariant = { λ v. there v.asr.now (to_come v.stack.items) ≡ true };
}

fn node_of(pending: Pending<'_>) -> NodeId
    ensures { key_of result ≡ first_key pending.entry }
{
    match pending {
        Pending::Expr(id) => NodeId::Expr(id),
        Pending::Stmts(id, _) => NodeId::Stmt(id),
    }
}

fn push_expr_parts<'a>(asr: &'a Asr, id: ExprId, list: &mut Vec<Pending<'a>>) -> Result<(), Memory>
    requires { HasExpr asr.now id }
    ensures { OnOk result (keys_of list.new.items ≡ keys_of list.old.items ++ parts_at asr.now (expr id)) }
{
    let pieces = expr_pieces(asr.expr(id));
    push_pieces(list, &pieces)
}

fn push_stmt_parts<'a>(asr: &'a Asr, id: StmtId, list: &mut Vec<Pending<'a>>) -> Result<(), Memory>
    requires { HasStmt asr.now id }
    ensures { OnOk result (keys_of list.new.items ≡ keys_of list.old.items ++ parts_at asr.now (stmt id)) }
{
    let pieces = stmt_pieces(asr.stmt(id));
    push_pieces(list, &pieces)
}

// Puts the parts of a node last.
fn push_parts<'a>(asr: &'a Asr, node: NodeId, list: &mut Vec<Pending<'a>>) -> Result<(), Memory>
    requires { there asr.now (key_of node ∷ []) ≡ true }
    ensures { OnOk result (keys_of list.new.items ≡ keys_of list.old.items ++ parts_at asr.now (key_of node)) }
{
    match node {
        NodeId::Expr(id) => push_expr_parts(asr, id, list),
        NodeId::Stmt(id) => push_stmt_parts(asr, id, list),
    }
}

impl<'a> Visit<'a> {
    // The first of these comes next.
    fn over(alloc: Global, asr: &'a Asr, listed: Vec<Pending<'a>>) -> Visit<'a>
        requires { there asr.now (keys_of listed.items) ≡ true }
        ensures { result ≡ visits asr.now (keys_of listed.entry.items) }
    {
        let mut stack = listed;
        stack.reverse();
        Visit {
            asr,
            stack,
            parts: Vec::new(alloc),
        }
    }

    /// All that stands below statements that are there, and these themselves. It fails only for want of memory.
    pub fn below(alloc: Global, asr: &'a Asr, statements: &'a [StmtId]) -> Result<Visit<'a>, Memory>
        requires { there asr.now (stmts statements.now) ≡ true }
        ensures { IfOk result (λ v. v ≡ visits asr.now (stmts statements.now)) }
    {
        let mut listed = Vec::new(alloc);
        push_block(&mut listed, statements)?;
        Ok(Visit::over(alloc, asr, listed))
    }

    /// All that stands below an expression that is there, and the expression itself. It fails only for want of memory.
    pub fn expr(alloc: Global, asr: &'a Asr, id: ExprId) -> Result<Visit<'a>, Memory>
        requires { HasExpr asr.now id }
        ensures { IfOk result (λ v. v ≡ visits asr.now (expr id ∷ [])) }
    {
        let mut listed = Vec::new(alloc);
        push_expr(&mut listed, id)?;
        Ok(Visit::over(alloc, asr, listed))
    }

    /// The next one, and none where none is left. It fails only for want of memory, and then nothing is changed.
    pub fn next(&mut self) -> Result<Option<NodeId>, Memory>
        ensures { Takes self.old self.new result }
    {
        self.asr.sound();
        let Some(top) = top_of(self.stack.as_slice()) else {
            return Ok(None);
        };
        let node = node_of(top);
        self.parts.clear();
        push_parts(self.asr, node, &mut self.parts)?;
        push_behind(&mut self.parts, top)?;
        self.parts.reverse();
        replace_top(&mut self.stack, &mut self.parts)?;
        Ok(Some(node))
    }
}
