//! The output statements of a body.
ghost use Rattle.std.specs.Prelude.{◌≡◌, true, [], ◌∷◌, ◌++◌, IfOk, OnOk};
ghost use Rattle.std.specs.List.{AllByRecursion};
ghost use Rattle.asr_nodes.specs.Keys.{stmt, stmts};
ghost use Rattle.asr_nodes.specs.Nodes.{HasStmt, node_at, there};
ghost use Rattle.asr_nodes.specs.Visits.{key_of, visits};
ghost use Rattle.pass_array_op.specs.Bodies.{Differ, HasNoneTwice, LowersOr, Records};
ghost use Rattle.pass_array_op.specs.Prints.{IsLowered, number_of, prints};

use crate::print::{is_lowered, lower_print};
use asr_nodes::{Asr, NodeId, Visit};
use lf_base::{Memory, StmtId};

/// Puts a statement last, if it is lowered.
fn note_stmt(asr: &Asr, id: StmtId, found: &mut Vec<StmtId>) -> Result<(), Memory>
    requires { HasStmt asr.now id }
    ensures { OnOk result (found.new.items ≡ found.old.items ++ number_of (stmt id) (node_at asr.now (stmt id))) }
{
    if !is_lowered(asr.stmt(id)) {
        return Ok(());
    }
    match found.push(id) {
        Ok(()) => Ok(()),
        Err(_) => Err(Memory),
    }
}

/// Puts a node last, if it is a statement that is lowered.
fn note(asr: &Asr, node: NodeId, found: &mut Vec<StmtId>) -> Result<(), Memory>
    requires { there asr.now (key_of node ∷ []) ≡ true }
    ensures { OnOk result (found.new.items ≡ found.old.items ++ number_of (key_of node) (node_at asr.now (key_of node))) }
{
    match node {
        NodeId::Expr(_) => Ok(()),
        NodeId::Stmt(id) => note_stmt(asr, id, found),
    }
}

/// The statements of a body that are lowered, in the order of the source.
fn prints_below(asr: &Asr, body: &[StmtId]) -> Result<Vec<StmtId>, Memory>
    requires { there asr.now (stmts body.now) ≡ true }
    ensures { IfOk result (λ found. found.items ≡ prints asr.now (visits asr.now (stmts body.now))) }
{
    let mut visit = Visit::below(asr.allocator(), asr, body)?;
    let mut found = Vec::new(asr.allocator());
    while let Some(node) = visit.next()? {
        note(asr, node, &mut found)?;
    }
    Ok(found)
}

/// Puts records in the place of statements that are lowered, with one number behind another. It fails for want of
/// memory, and where the numbers run out.
fn lower_all(asr: &mut Asr, ids: &[StmtId], number: u64) -> Result<(), Memory>
    requires lowered { AllByRecursion (IsLowered asr.old) ids.now }
    requires differ { Differ ids.now }
    ensures { OnOk result (Records asr.old asr.new ids.now number) }
{
    let mut next = number;
    for id in ids {
        asr.sound();
        lower_print(asr, *id, next)?;
        let Some(more) = next.checked_add(1) else {
            return Err(Memory);
        };
        next = more;
    }
    Ok(())
}

/// Lowers the statements of a body: each list-directed output of values in it becomes a block that begins a record, puts
/// each value into it and ends it (ISO/IEC 1539-1:2018, 12.6.3, 13.10.4), with the line of the output statement. Output
/// whose list holds an implied do stays, and so does output of another format, and all else. The temporaries of the
/// records are numbered from this number on, in the order of the source.
///
/// It fails for want of memory, and where the numbers run out; then the tree is not to be used.
pub fn lower_statements(asr: &mut Asr, body: &[StmtId], number: u64) -> Result<(), Memory>
    requires there { there asr.old (stmts body.now) ≡ true }
    requires once { HasNoneTwice asr.old body.now }
    ensures { LowersOr asr.old asr.new body.now number result }
{
    asr.sound();
    let found = prints_below(asr, body)?;
    lower_all(asr, &found, number)?;
    asr.sound();
    Ok(())
}
