//! The lines around the turns of loops (ISO/IEC 1539-1:2018, 11.1.7.4). They fail only for want of memory.
ghost use Rattle.std.specs.Prelude.{◌≡◌, [], ◌∷◌, IfOk};
ghost use Rattle.c_nodes.specs.declared.tree.CBinary.TheVariants.{Less, Subtract};
ghost use Rattle.c_nodes.specs.declared.tree.CExpr.TheVariants.{Binary, Constant};
ghost use Rattle.c_nodes.specs.declared.tree.CStmt.TheVariants.{Assign, Block, Goto, Label};
ghost use Rattle.c_printer.specs.Laid.{counting, turns_end};
ghost use Rattle.c_printer.specs.Lowering.{Lowering, bind, line, value_of};
ghost use Rattle.c_printer.specs.Lowered.{expression_of};
ghost use Rattle.c_printer.specs.Names.{cycle_label, exit_label};
ghost use Rattle.c_printer.specs.Places.{place_of};
ghost use Rattle.c_printer.specs.Statements.{counted_turns, leave_where_false, stepped};
ghost use Rattle.c_printer.specs.Writing.{Writes, from, location, with_lines};

use crate::located::Located;
use crate::operations::fitted;
use crate::places::{Spot, fetch, place, store};
use crate::scalar::Helper;
use crate::scope::Scope;
use crate::values::value;
use crate::writer::Writer;
use crate::{cexpr, names};
use c_nodes::{CBinary, CExpr, CStmt};
use lf_base::{ExprId, Memory, Name};
use sqlite_items::Items;
use std::alloc::Global;

/// A counted loop without its body.
#[derive(Clone, Copy)]
pub(crate) struct Counter {
    pub id: u64,
    pub variable: ExprId,
    pub lower: ExprId,
    pub upper: ExprId,
    pub step: ExprId,
}

/// A counted loop that has begun: its variable, and the numbers of its step and of how many turns are left.
#[derive(Clone, Copy)]
pub(crate) struct Begun {
    pub spot: Spot,
    pub step: u64,
    pub count: u64,
}

/// Closes the block that is open, in which these lines stood before.
pub(crate) fn close_block(writer: &mut Writer, around: Items<CStmt>) -> Result<(), Memory>
    ensures { Writes (with_lines writer.old around) writer.new result (line (Block writer.old.lines)) }
{
    let body = writer.exchange(around);
    writer.line(CStmt::Block { body })
}

fn label(writer: &mut Writer, name: Name) -> Result<(), Memory>
    ensures { Writes writer.old writer.new result (line (Label name)) }
{
    writer.line(CStmt::Label { name })
}

/// Ends a turn of the loop of this number.
pub(crate) fn end_turn(writer: &mut Writer, id: u64) -> Result<(), Memory>
    ensures { Writes writer.old writer.new result (line (Label (cycle_label id))) }
{
    let name = names::cycle_label(writer.allocator(), id)?;
    label(writer, name)
}

/// Ends the turns of the loop of this number, which go on while the test is true, and in front of which these lines stood.
pub(crate) fn end_turns(
    writer: &mut Writer,
    id: u64,
    test: CExpr,
    around: Items<CStmt>,
) -> Result<(), Memory>
    ensures { Writes (with_lines writer.old around) writer.new result (turns_end id test writer.old.lines) }
{
    let body = writer.exchange(around);
    writer.line(CStmt::While { test, body })?;
    let name = names::exit_label(writer.allocator(), id)?;
    label(writer, name)
}

fn exit_line(alloc: Global, id: u64) -> Result<Items<CStmt>, Memory>
    ensures { IfOk result (λ ss. ss ≡ Goto (exit_label id) ∷ []) }
{
    let mut lines = Items::new(alloc);
    lines.push(CStmt::Goto {
        label: names::exit_label(alloc, id)?,
    })?;
    Ok(lines)
}

/// Leaves the loop of this number where a condition is false.
pub(crate) fn leave_where_false(
    scope: &Scope<'_>,
    writer: &mut Writer,
    here: Located<'_>,
    id: u64,
    condition: ExprId,
) -> Result<(), Memory>
    ensures { Writes writer.old writer.new result (bind ((expression_of scope.now condition).value (location here.entry)) (leave_where_false id)) }
{
    let v = value(scope, writer, here, condition)?;
    let test = cexpr::not_value(writer.allocator(), v.number)?;
    let then_body = exit_line(writer.allocator(), id)?;
    writer.line(CStmt::If { test, then_body })
}

/// Begins a counted loop: the bounds, the step and the number of turns are computed, and the variable has the first bound
/// (11.1.7.4.1).
pub(crate) fn begin_count(
    scope: &Scope<'_>,
    writer: &mut Writer,
    here: Located<'_>,
    counter: Counter,
) -> Result<Begun, Memory>
    ensures { IfOk result (λ b. (body : Lowering (Unit {0})) → from writer.old (counting (location here.entry) counter.id (expression_of scope.now counter.variable) (expression_of scope.now counter.lower) (expression_of scope.now counter.upper) (expression_of scope.now counter.step) body) ≡ from writer.new (counted_turns (location here.entry) counter.id (place_of scope.now b.spot) b.step b.count body)) }
{
    let lower = value(scope, writer, here, counter.lower)?;
    let upper = value(scope, writer, here, counter.upper)?;
    let step = value(scope, writer, here, counter.step)?;
    let alloc = writer.allocator();
    let arguments = cexpr::three_values(alloc, lower.number, upper.number, step.number)?;
    let count = writer.helped(here, Helper::Count, arguments)?;
    let spot = place(scope, counter.variable);
    store(scope, writer, spot, lower.number)?;
    Ok(Begun {
        spot,
        step: step.number,
        count,
    })
}

// One turn less is left.
fn count_down(writer: &mut Writer, count: u64) -> Result<(), Memory>
    ensures { Writes writer.old writer.new result (line (Assign (value_of count) (Binary Subtract (value_of count) (Constant 1)))) }
{
    let alloc = writer.allocator();
    let left = cexpr::value_of(alloc, count)?;
    let value = cexpr::binary(alloc, CBinary::Subtract, left, CExpr::Constant { value: 1 })?;
    let target = cexpr::value_of(alloc, count)?;
    writer.line(CStmt::Assign { target, value })
}

/// The step of a counted loop behind each turn (11.1.7.4.3).
pub(crate) fn stepped(
    scope: &Scope<'_>,
    writer: &mut Writer,
    here: Located<'_>,
    begun: Begun,
) -> Result<(), Memory>
    ensures { Writes writer.old writer.new result (stepped (location here.entry) (place_of scope.now begun.spot) begun.step begun.count) }
{
    let old = fetch(scope, writer, begun.spot)?;
    let arguments = cexpr::two_values(writer.allocator(), old, begun.step)?;
    let sum = writer.helped(here, Helper::Add, arguments)?;
    let new = fitted(writer, here, sum)?;
    store(scope, writer, begun.spot, new)?;
    count_down(writer, begun.count)
}

/// Whether turns are left.
pub(crate) fn turns_left(alloc: Global, count: u64) -> Result<CExpr, Memory>
    ensures { IfOk result (λ x. x ≡ Binary Less (Constant 0) (value_of count)) }
{
    let left = cexpr::value_of(alloc, count)?;
    cexpr::binary(alloc, CBinary::Less, CExpr::Constant { value: 0 }, left)
}
