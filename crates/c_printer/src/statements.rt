//! The lines of statements (ISO/IEC 1539-1:2018, clauses 10 to 12), in the order of execution.
ghost use Rattle.std.specs.Prelude.{◌≡◌, map, IfOk};
ghost use Rattle.c_nodes.specs.declared.tree.CExpr.TheVariants.{Constant};
ghost use Rattle.c_printer.specs.Chains.{chosen_by, closed};
ghost use Rattle.c_printer.specs.Laid.{body_of, laid_stmt};
ghost use Rattle.c_printer.specs.Lowering.{block};
ghost use Rattle.c_printer.specs.Lowered.{expression_of, statement_of};
ghost use Rattle.c_printer.specs.Places.{place_of};
ghost use Rattle.c_printer.specs.Statements.{counted_loop, counted_turns, statements, turn, while_loop};
ghost use Rattle.c_printer.specs.Writing.{Writes, from, location};

mod chains;
mod loops;
mod plain;

use crate::located::Located;
use crate::scope::Scope;
use crate::values;
use crate::writer::Writer;
use asr_nodes::Stmt;
use c_nodes::CExpr;
use chains::{Arm, Choice, close_all, lone_choice};
use lf_base::{ExprId, Memory, StmtId};
use loops::{
    Begun, Counter, begin_count, close_block, end_turn, end_turns, leave_where_false, stepped,
    turns_left,
};
use plain::end_record;
use sqlite_items::Items;

/// Writes the lines of statements, one behind another. What has no C yet has no lines. It recurses on the nesting of blocks
/// alone, and not on a chain of `else if`, and fails only for want of memory.
#[cycle(statements)]
pub(crate) fn statements(
    scope: &Scope<'_>,
    writer: &mut Writer,
    source: &[u8],
    ids: &[StmtId],
) -> Result<(), Memory>
    ensures { Writes writer.old writer.new result (statements source.now (map (statement_of scope.now) ids.now)) }
{
    for id in ids {
        statement(scope, writer, source, *id)?;
    }
    Ok(())
}

#[cycle(statements)]
fn statement(
    scope: &Scope<'_>,
    writer: &mut Writer,
    source: &[u8],
    id: StmtId,
) -> Result<(), Memory>
    ensures { Writes writer.old writer.new result (statement_of scope.now id source.now) }
{
    let tree = scope.asr();
    if tree.has_stmt(id) {
        node(scope, writer, source, tree.stmt(id))
    } else {
        end_record(writer)
    }
}

#[cycle(statements)]
fn node(scope: &Scope<'_>, writer: &mut Writer, source: &[u8], node: &Stmt) -> Result<(), Memory>
    ensures { Writes writer.old writer.new result (laid_stmt scope.now node.now source.now) }
{
    match node {
        Stmt::If {
            line,
            condition,
            then_block,
            else_block,
        } => {
            let choice = Choice {
                line: *line,
                condition: *condition,
                then_block: then_block.as_slice(),
                else_block: else_block.as_slice(),
            };
            chain(scope, writer, source, choice)
        }
        Stmt::Do {
            line,
            id,
            variable,
            lower,
            upper,
            step,
            body,
        } => {
            let here = Located {
                source,
                line: *line,
            };
            let counter = Counter {
                id: *id,
                variable: *variable,
                lower: *lower,
                upper: *upper,
                step: *step,
            };
            counted_loop(scope, writer, here, counter, body.as_slice())
        }
        Stmt::While {
            line,
            id,
            condition,
            body,
        } => {
            let here = Located {
                source,
                line: *line,
            };
            while_loop(scope, writer, here, *id, *condition, body.as_slice())
        }
        Stmt::Block { stmts, .. } => in_block(scope, writer, source, stmts.as_slice()),
        _ => plain::plain(scope, writer, source, node),
    }
}

#[cycle(statements)]
fn in_block(
    scope: &Scope<'_>,
    writer: &mut Writer,
    source: &[u8],
    ids: &[StmtId],
) -> Result<(), Memory>
    ensures { Writes writer.old writer.new result (block (body_of scope.now ids.now source.now)) }
{
    let around = writer.open();
    statements(scope, writer, source, ids)?;
    close_block(writer, around)
}

// An `if`, up to its else part.
#[cycle(statements)]
fn open_arm(
    scope: &Scope<'_>,
    writer: &mut Writer,
    source: &[u8],
    choice: Choice<'_>,
) -> Result<Arm, Memory>
    ensures { IfOk result (λ arm. from writer.old (chosen_by scope.now choice.entry source.now) ≡ closed arm (from writer.new (body_of scope.now choice.entry.else_block.now source.now))) }
{
    let here = Located {
        source,
        line: choice.line,
    };
    let around = writer.open();
    let test = values::value(scope, writer, here, choice.condition)?;
    let lines = writer.open();
    statements(scope, writer, source, choice.then_block)?;
    let then_body = writer.open();
    Ok(Arm {
        around,
        lines,
        number: test.number,
        then_body,
    })
}

// An `if`. As long as its else part is one `if`, that is gone down by a loop.
#[cycle(statements)]
fn chain(
    scope: &Scope<'_>,
    writer: &mut Writer,
    source: &[u8],
    choice: Choice<'_>,
) -> Result<(), Memory>
    ensures { Writes writer.old writer.new result (chosen_by scope.now choice.entry source.now) }
{
    let mut arms = Items::new(writer.allocator());
    arms.push(open_arm(scope, writer, source, choice)?)?;
    let mut rest = choice.else_block;
    while let Some(inner) = lone_choice(scope, rest) {
        arms.push(open_arm(scope, writer, source, inner)?)?;
        rest = inner.else_block;
    }
    statements(scope, writer, source, rest)?;
    close_all(writer, arms)
}

// One turn of a loop.
#[cycle(statements)]
fn turn(
    scope: &Scope<'_>,
    writer: &mut Writer,
    source: &[u8],
    id: u64,
    body: &[StmtId],
) -> Result<(), Memory>
    ensures { Writes writer.old writer.new result (turn id (body_of scope.now body.now source.now)) }
{
    let around = writer.open();
    in_block(scope, writer, source, body)?;
    end_turn(writer, id)?;
    close_block(writer, around)
}

#[cycle(statements)]
fn while_loop(
    scope: &Scope<'_>,
    writer: &mut Writer,
    here: Located<'_>,
    id: u64,
    condition: ExprId,
    body: &[StmtId],
) -> Result<(), Memory>
    ensures { Writes writer.old writer.new result (while_loop (location here.entry) id (expression_of scope.now condition) (body_of scope.now body.now here.entry.source.now)) }
{
    let around = writer.open();
    let before = writer.open();
    leave_where_false(scope, writer, here, id, condition)?;
    turn(scope, writer, here.source, id, body)?;
    end_turns(writer, id, CExpr::Constant { value: 1 }, before)?;
    close_block(writer, around)
}

#[cycle(statements)]
fn counted_loop(
    scope: &Scope<'_>,
    writer: &mut Writer,
    here: Located<'_>,
    counter: Counter,
    body: &[StmtId],
) -> Result<(), Memory>
    ensures { Writes writer.old writer.new result (counted_loop (location here.entry) counter.id (expression_of scope.now counter.variable) (expression_of scope.now counter.lower) (expression_of scope.now counter.upper) (expression_of scope.now counter.step) (body_of scope.now body.now here.entry.source.now)) }
{
    let around = writer.open();
    let begun = begin_count(scope, writer, here, counter)?;
    counted_turns(scope, writer, here, counter, begun, body)?;
    close_block(writer, around)
}

#[cycle(statements)]
fn counted_turns(
    scope: &Scope<'_>,
    writer: &mut Writer,
    here: Located<'_>,
    counter: Counter,
    begun: Begun,
    body: &[StmtId],
) -> Result<(), Memory>
    ensures { Writes writer.old writer.new result (counted_turns (location here.entry) counter.id (place_of scope.now begun.spot) begun.step begun.count (body_of scope.now body.now here.entry.source.now)) }
{
    let before = writer.open();
    turn(scope, writer, here.source, counter.id, body)?;
    stepped(scope, writer, here, begun)?;
    let test = turns_left(writer.allocator(), begun.count)?;
    end_turns(writer, counter.id, test, before)
}
