//! The lines that compute the values of expressions (ISO/IEC 1539-1:2018, 10.1), in the order of evaluation.
ghost use Rattle.std.specs.Prelude.{◌≡◌, map};
ghost use Rattle.lf_base.specs.Operators.{operator_of};
ghost use Rattle.lf_base.specs.Outcome.{Location};
ghost use Rattle.c_nodes.specs.declared.tree.CStmt.TheVariants.{Assign};
ghost use Rattle.c_printer.specs.declared.scalar.Manner.TheVariants.{Helped, Plain, Swapped, WhereTrue, WhereFalse};
ghost use Rattle.c_printer.specs.Lowering.{line, computed, value_of, temp_of};
ghost use Rattle.c_printer.specs.Lowered.{expression_of, evaluated};
ghost use Rattle.c_printer.specs.Places.{laid, constant_in, entity_of};
ghost use Rattle.c_printer.specs.Steps.{into};
ghost use Rattle.c_printer.specs.Values.{typed, unary, binary, converted, each_value, intrinsic_value, where_open};
ghost use Rattle.c_printer.specs.Writing.{Writes, location};

use crate::cexpr;
use crate::located::Located;
use crate::manners::manner_of;
use crate::operations::{
    NO_VALUE, combined, compared, denied, fitted, integer, logical, negated, on_values,
};
use crate::places::{Spot, fetch};
use crate::scalar::{Helper, Manner, ScalarType, Value};
use crate::scope::{Scope, kind_type};
use crate::writer::Writer;
use asr_nodes::{Expr, ExprIds};
use c_nodes::{CBinary, CExpr, CStmt};
use lf_base::operator::Operator;
use lf_base::{ExprId, Memory, SymId};
use sqlite_items::Items;
use type_rules::Intrinsic;

/// Computes the value of an expression. What has no C yet has no lines. It recurses on the depth of the expression, and
/// fails only for want of memory.
#[cycle(value)]
pub(crate) fn value(
    scope: &Scope<'_>,
    writer: &mut Writer,
    here: Located<'_>,
    id: ExprId,
) -> Result<Value, Memory>
    ensures { Writes writer.old writer.new result ((expression_of scope.now id).value (location here.entry)) }
{
    let tree = scope.asr();
    if tree.has_expr(id) {
        node_value(scope, writer, here, tree.expr(id))
    } else {
        logical(writer, 0)
    }
}

#[cycle(value)]
fn node_value(
    scope: &Scope<'_>,
    writer: &mut Writer,
    here: Located<'_>,
    node: &Expr,
) -> Result<Value, Memory>
    ensures { Writes writer.old writer.new result ((laid scope.now node.now).value (location here.entry)) }
{
    match node {
        Expr::IntConst { kind, value } => integer(writer, *kind, *value),
        Expr::LogConst { value } => logical(writer, *value),
        Expr::Var { symbol } => entity(scope, writer, *symbol),
        Expr::Unary { operator, operand } => unary(scope, writer, here, *operator, *operand),
        Expr::Binary {
            operator,
            left,
            right,
        } => binary(scope, writer, here, manner_of(*operator), *left, *right),
        Expr::Convert { kind, operand } => converted(
            scope,
            writer,
            here,
            kind_type(*kind),
            *operand,
        ),
        Expr::Paren { inner } => value(scope, writer, here, *inner),
        Expr::Intrinsic { code, arguments } => intrinsic(
            scope,
            writer,
            here,
            Intrinsic::at(*code),
            arguments,
        ),
        Expr::Temp { number } => temp(writer, *number),
        _ => Ok(NO_VALUE),
    }
}

fn entity(scope: &Scope<'_>, writer: &mut Writer, symbol: SymId) -> Result<Value, Memory>
    ensures { (here : Location) → Writes writer.old writer.new result ((entity_of scope.now symbol).value here) }
{
    let number = fetch(scope, writer, Spot::Entity(symbol))?;
    Ok(Value {
        number,
        ty: scope.type_of(symbol),
    })
}

fn temp(writer: &mut Writer, number: u64) -> Result<Value, Memory>
    ensures { Writes writer.old writer.new result (λ d. typed (d.temps number) (computed (temp_of number)) d) }
{
    let ty = writer.temp_type(number);
    let kept = cexpr::temp_of(writer.allocator(), number)?;
    let number = writer.computed(kept)?;
    Ok(Value { number, ty })
}

#[cycle(value)]
fn unary(
    scope: &Scope<'_>,
    writer: &mut Writer,
    here: Located<'_>,
    code: u8,
    operand: ExprId,
) -> Result<Value, Memory>
    ensures { Writes writer.old writer.new result (unary (operator_of code) (evaluated scope.now operand) (location here.entry)) }
{
    match Operator::at(code) {
        Some(Operator::Add) => value(scope, writer, here, operand),
        Some(Operator::Subtract) => {
            let operand = value(scope, writer, here, operand)?;
            negated(writer, here, operand)
        }
        Some(Operator::Not) => {
            let operand = value(scope, writer, here, operand)?;
            denied(writer, operand)
        }
        _ => Ok(NO_VALUE),
    }
}

#[cycle(value)]
fn binary(
    scope: &Scope<'_>,
    writer: &mut Writer,
    here: Located<'_>,
    manner: Manner,
    left: ExprId,
    right: ExprId,
) -> Result<Value, Memory>
    ensures { Writes writer.old writer.new result (binary manner (evaluated scope.now left) (evaluated scope.now right) (location here.entry)) }
{
    match manner {
        Manner::Helped(helper) => helped(scope, writer, here, helper, left, right),
        Manner::Plain(operator) => plain(scope, writer, here, operator, left, right),
        Manner::Swapped(operator) => swapped(scope, writer, here, operator, left, right),
        Manner::WhereTrue => where_true(scope, writer, here, left, right),
        Manner::WhereFalse => where_false(scope, writer, here, left, right),
        Manner::Unbuilt => Ok(NO_VALUE),
    }
}

// By a function of the prelude.
#[cycle(value)]
fn helped(
    scope: &Scope<'_>,
    writer: &mut Writer,
    here: Located<'_>,
    helper: Helper,
    left: ExprId,
    right: ExprId,
) -> Result<Value, Memory>
    ensures { Writes writer.old writer.new result (binary (Helped helper) (evaluated scope.now left) (evaluated scope.now right) (location here.entry)) }
{
    let l = value(scope, writer, here, left)?;
    let r = value(scope, writer, here, right)?;
    let number = combined(writer, here, helper, l.ty, l.number, r.number)?;
    Ok(Value { number, ty: l.ty })
}

// By an operator of C.
#[cycle(value)]
fn plain(
    scope: &Scope<'_>,
    writer: &mut Writer,
    here: Located<'_>,
    operator: CBinary,
    left: ExprId,
    right: ExprId,
) -> Result<Value, Memory>
    ensures { Writes writer.old writer.new result (binary (Plain operator) (evaluated scope.now left) (evaluated scope.now right) (location here.entry)) }
{
    let l = value(scope, writer, here, left)?;
    let r = value(scope, writer, here, right)?;
    compared(writer, operator, l.number, r.number)
}

// By an operator of C with the right operand in front. The left one is computed first.
#[cycle(value)]
fn swapped(
    scope: &Scope<'_>,
    writer: &mut Writer,
    here: Located<'_>,
    operator: CBinary,
    left: ExprId,
    right: ExprId,
) -> Result<Value, Memory>
    ensures { Writes writer.old writer.new result (binary (Swapped operator) (evaluated scope.now left) (evaluated scope.now right) (location here.entry)) }
{
    let l = value(scope, writer, here, left)?;
    let r = value(scope, writer, here, right)?;
    compared(writer, operator, r.number, l.number)
}

// Another value that is the same.
fn copied(writer: &mut Writer, number: u64) -> Result<u64, Memory>
    ensures { Writes writer.old writer.new result (computed (value_of number)) }
{
    let given = cexpr::value_of(writer.allocator(), number)?;
    writer.computed(given)
}

// Conjunction: the right operand is computed where the left one is true (own order of 10.1.7).
#[cycle(value)]
fn where_true(
    scope: &Scope<'_>,
    writer: &mut Writer,
    here: Located<'_>,
    left: ExprId,
    right: ExprId,
) -> Result<Value, Memory>
    ensures { Writes writer.old writer.new result (binary WhereTrue (evaluated scope.now left) (evaluated scope.now right) (location here.entry)) }
{
    let l = value(scope, writer, here, left)?;
    let number = copied(writer, l.number)?;
    let test = cexpr::value_of(writer.allocator(), number)?;
    where_open(scope, writer, here, test, number, right)
}

// Disjunction: the right operand is computed where the left one is false.
#[cycle(value)]
fn where_false(
    scope: &Scope<'_>,
    writer: &mut Writer,
    here: Located<'_>,
    left: ExprId,
    right: ExprId,
) -> Result<Value, Memory>
    ensures { Writes writer.old writer.new result (binary WhereFalse (evaluated scope.now left) (evaluated scope.now right) (location here.entry)) }
{
    let l = value(scope, writer, here, left)?;
    let number = copied(writer, l.number)?;
    let test = cexpr::not_value(writer.allocator(), number)?;
    where_open(scope, writer, here, test, number, right)
}

// The right operand becomes the value where the test is true.
#[cycle(value)]
fn where_open(
    scope: &Scope<'_>,
    writer: &mut Writer,
    here: Located<'_>,
    test: CExpr,
    number: u64,
    right: ExprId,
) -> Result<Value, Memory>
    ensures { Writes writer.old writer.new result (where_open test number (evaluated scope.now right (location here.entry))) }
{
    let outer = writer.open();
    assigned(scope, writer, here, number, right)?;
    let then_body = writer.exchange(outer);
    writer.line(CStmt::If { test, then_body })?;
    Ok(Value {
        number,
        ty: ScalarType::Logical,
    })
}

fn assign_value(writer: &mut Writer, number: u64, given: u64) -> Result<(), Memory>
    ensures { Writes writer.old writer.new result (line (Assign (value_of number) (value_of given))) }
{
    let target = cexpr::value_of(writer.allocator(), number)?;
    let value = cexpr::value_of(writer.allocator(), given)?;
    writer.line(CStmt::Assign { target, value })
}

// The right operand becomes the value.
#[cycle(value)]
fn assigned(
    scope: &Scope<'_>,
    writer: &mut Writer,
    here: Located<'_>,
    number: u64,
    right: ExprId,
) -> Result<(), Memory>
    ensures { Writes writer.old writer.new result (into number (evaluated scope.now right (location here.entry))) }
{
    let r = value(scope, writer, here, right)?;
    assign_value(writer, number, r.number)
}

#[cycle(value)]
fn converted(
    scope: &Scope<'_>,
    writer: &mut Writer,
    here: Located<'_>,
    ty: ScalarType,
    operand: ExprId,
) -> Result<Value, Memory>
    ensures { Writes writer.old writer.new result (converted ty (evaluated scope.now operand) (location here.entry)) }
{
    let given = value(scope, writer, here, operand)?;
    let number = match ty {
        ScalarType::Integer4 => fitted(writer, here, given.number)?,
        ScalarType::Integer8 => given.number,
        ScalarType::Logical => given.number,
    };
    Ok(Value { number, ty })
}

#[cycle(value)]
fn intrinsic(
    scope: &Scope<'_>,
    writer: &mut Writer,
    here: Located<'_>,
    function: Option<Intrinsic>,
    arguments: &ExprIds,
) -> Result<Value, Memory>
    ensures { Writes writer.old writer.new result (intrinsic_value function (map (expression_of scope.now) arguments.now) (location here.entry)) }
{
    let values = each_value(scope, writer, here, arguments)?;
    on_values(writer, here, function, values.as_slice())
}

#[cycle(value)]
fn each_value(
    scope: &Scope<'_>,
    writer: &mut Writer,
    here: Located<'_>,
    arguments: &ExprIds,
) -> Result<Items<Value>, Memory>
    ensures { Writes writer.old writer.new result (each_value (location here.entry) (map (expression_of scope.now) arguments.now)) }
{
    let mut values = Items::new(writer.allocator());
    for place in 0..arguments.len() {
        let argument = value(scope, writer, here, arguments.at(place))?;
        values.push(argument)?;
    }
    Ok(values)
}

fn constant_in(node: &Expr) -> Option<i64>
    ensures { result ≡ constant_in node.now }
{
    match node {
        Expr::IntConst { value, .. } => Some(*value),
        _ => None,
    }
}

/// The value of an expression where it is an integer constant.
pub(crate) fn constant(scope: &Scope<'_>, id: ExprId) -> Option<i64>
    ensures { result ≡ (expression_of scope.now id).constant }
{
    let tree = scope.asr();
    if tree.has_expr(id) {
        constant_in(tree.expr(id))
    } else {
        None
    }
}
