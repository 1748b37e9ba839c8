//! Chains of `else if` (ISO/IEC 1539-1:2018, 11.1.8): an `if` whose else part is one statement, which is an `if` again. They
//! may be long, so that they are not gone down by recursion.
ghost use Rattle.std.specs.Prelude.{◌≡◌, [], ◌∷◌, map, IfOk, IfSome, OnOk};
ghost use Rattle.asr_nodes.specs.Nodes.{reads, stmt_tree};
ghost use Rattle.asr_nodes.specs.Reading.{stmt_node};
ghost use Rattle.asr_nodes.specs.Units.{path};
ghost use Rattle.c_printer.specs.Chains.{all_closed, choice_tree, closed};
ghost use Rattle.c_printer.specs.Lowering.{value_of};
ghost use Rattle.c_printer.specs.Lowered.{reading_of};
ghost use Rattle.c_printer.specs.Statements.{chosen};
ghost use Rattle.c_printer.specs.Units.{UnitScope};
ghost use Rattle.c_printer.specs.Writing.{wrote};

use crate::cexpr;
use crate::scope::Scope;
use crate::writer::Writer;
use asr_nodes::Stmt;
use c_nodes::CStmt;
use lf_base::{ExprId, Memory, StmtId};
use sqlite_items::Items;
use std::alloc::Global;

/// An `if` by its parts.
#[derive(Clone, Copy)]
pub(crate) struct Choice<'a> {
    pub line: u32,
    pub condition: ExprId,
    pub then_block: &'a [StmtId],
    pub else_block: &'a [StmtId],
}

/// An `if` whose else part is being written: the lines in front of its block, those in front of its branch, the number of
/// its condition and the lines of its then part.
#[derive(Drop)]
pub(crate) struct Arm {
    pub around: Items<CStmt>,
    pub lines: Items<CStmt>,
    pub number: u64,
    pub then_body: Items<CStmt>,
}

fn choice_of(node: &Stmt) -> Option<Choice<'_>>
    ensures { (u : UnitScope) → IfSome result (λ c. stmt_node (reading_of u) node.now ≡ choice_tree u c) }
{
    match node {
        Stmt::If {
            line,
            condition,
            then_block,
            else_block,
        } => Some(Choice {
            line: *line,
            condition: *condition,
            then_block: then_block.as_slice(),
            else_block: else_block.as_slice(),
        }),
        _ => None,
    }
}

fn choice_at<'a>(scope: &Scope<'a>, id: StmtId) -> Option<Choice<'a>>
    ensures { IfSome result (λ c. stmt_tree scope.now.asr (path scope.now.asr) id ≡ choice_tree scope.now c) }
{
    let asr = scope.asr();
    if asr.has_stmt(id) {
        choice_of(asr.stmt(id))
    } else {
        None
    }
}

/// The `if` that is all of a block, if the block is one.
pub(crate) fn lone_choice<'a>(scope: &Scope<'a>, ids: &[StmtId]) -> Option<Choice<'a>>
    ensures { IfSome result (λ c. map (stmt_tree scope.now.asr (path scope.now.asr)) ids.now ≡ choice_tree scope.now c ∷ []) }
{
    match ids {
        [id] => choice_at(scope, *id),
        _ => None,
    }
}

// The branch of an `if`. An else part without lines is left out.
fn chosen(
    alloc: Global,
    number: u64,
    then_body: Items<CStmt>,
    else_body: Items<CStmt>,
) -> Result<CStmt, Memory>
    ensures { IfOk result (λ s. s ≡ chosen (value_of number) then_body else_body) }
{
    let test = cexpr::value_of(alloc, number)?;
    if else_body.is_empty() {
        Ok(CStmt::If { test, then_body })
    } else {
        Ok(CStmt::IfElse {
            test,
            then_body,
            else_body,
        })
    }
}

// Closes an arm behind the lines of its else part.
fn close(writer: &mut Writer, arm: Arm) -> Result<(), Memory>
    ensures { OnOk result (closed arm (wrote writer.old tt) ≡ wrote writer.new tt) }
{
    let Arm {
        around,
        lines,
        number,
        then_body,
    } = arm;
    let else_body = writer.exchange(lines);
    let branch = chosen(writer.allocator(), number, then_body, else_body)?;
    writer.line(branch)?;
    let body = writer.exchange(around);
    writer.line(CStmt::Block { body })
}

/// Closes all arms behind the lines of the last else part. It fails only for want of memory.
pub(crate) fn close_all(writer: &mut Writer, arms: Items<Arm>) -> Result<(), Memory>
    ensures { OnOk result (all_closed arms (wrote writer.old tt) ≡ wrote writer.new tt) }
{
    let mut open = arms;
    while let Some(arm) = open.pop() {
        close(writer, arm)?;
    }
    Ok(())
}
