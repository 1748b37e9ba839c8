//! The greatest number of a temporary in a body.
ghost use Rattle.std.specs.Prelude.{◌≡◌, true, max, [], ◌∷◌, IfOk};
ghost use Rattle.asr_nodes.specs.Keys.{stmts};
ghost use Rattle.asr_nodes.specs.Nodes.{there};
ghost use Rattle.asr_nodes.specs.Visits.{key_of, visits};
ghost use Rattle.pass_array_op.specs.Greatest.{first_free, greatest_at, number_at, number_in_expr, number_in_item, number_in_items, number_in_stmt};

use asr_nodes::{ArrayItem, Asr, Expr, NodeId, Stmt, Visit};
use lf_base::{Memory, StmtId};

#[cycle(items)]
fn item_number(item: &ArrayItem) -> u64
    ensures { result ≡ number_in_item item.now }
{
    match item {
        ArrayItem::Value { .. } => 0,
        ArrayItem::Loop { number, items, .. } => greater(*number, items_number(items.as_slice())),
    }
}

#[cycle(items)]
fn items_number(items: &[ArrayItem]) -> u64
    ensures { result ≡ number_in_items items.now }
{
    let mut number = 0;
    for item in items {
        number = greater(number, item_number(item));
    }
    number
}

fn expr_number(node: &Expr) -> u64
    ensures { result ≡ number_in_expr node.now }
{
    match node {
        Expr::Temp { number } | Expr::TempAt { number, .. } | Expr::Arr { number, .. } => *number,
        Expr::Array { items } => items_number(items.as_slice()),
        _ => 0,
    }
}

fn stmt_number(node: &Stmt) -> u64
    ensures { result ≡ number_in_stmt node.now }
{
    match node {
        Stmt::Let { number, .. }
        | Stmt::Room { number, .. }
        | Stmt::Count { number, .. }
        | Stmt::Begin { number, .. }
        | Stmt::Put { number, .. } => *number,
        _ => 0,
    }
}

fn greater(left: u64, right: u64) -> u64
    ensures { result ≡ max left right }
{
    left.max(right)
}

fn node_number(asr: &Asr, node: NodeId) -> u64
    requires { there asr.now (key_of node ∷ []) ≡ true }
    ensures { result ≡ number_at asr.now (key_of node) }
{
    match node {
        NodeId::Expr(id) => expr_number(asr.expr(id)),
        NodeId::Stmt(id) => stmt_number(asr.stmt(id)),
    }
}

fn greatest_number(asr: &Asr, body: &[StmtId]) -> Result<u64, Memory>
    requires { there asr.now (stmts body.now) ≡ true }
    ensures { IfOk result (λ number. number ≡ greatest_at asr.now (visits asr.now (stmts body.now))) }
{
    let mut visit = Visit::below(asr.allocator(), asr, body)?;
    let mut number = 0;
    while let Some(node) = visit.next()? {
        number = greater(number, node_number(asr, node));
    }
    Ok(number)
}

/// The first number that is greater than that of every temporary below the statements of a body, which is 1 where there
/// is none. It fails for want of memory, and where there is no such number.
pub(crate) fn first_free(asr: &Asr, body: &[StmtId]) -> Result<u64, Memory>
    requires { there asr.now (stmts body.now) ≡ true }
    ensures { IfOk result (λ number. number ≡ first_free asr.now body.now) }
{
    match greatest_number(asr, body)?.checked_add(1) {
        Some(number) => Ok(number),
        None => Err(Memory),
    }
}
