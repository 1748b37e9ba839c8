//! What designators designate, and how it is fetched and stored (ISO/IEC 9899:1999, 6.3.2.1 and 6.5.16).
ghost use Rattle.std.specs.Prelude.{◌≡◌, if◌then◌else◌, IfOk};
ghost use Rattle.lf_base.specs.Outcome.{Location};
ghost use Rattle.c_nodes.specs.declared.tree.CType.TheVariants.{Int32};
ghost use Rattle.c_nodes.specs.declared.tree.CExpr.TheVariants.{Cast};
ghost use Rattle.c_printer.specs.Lowering.{give, line, value_of};
ghost use Rattle.c_printer.specs.Lowered.{expression_of};
ghost use Rattle.c_printer.specs.Places.{place_of, spot_of};
ghost use Rattle.c_printer.specs.Values.{is_narrow, fetched, stored};
ghost use Rattle.c_printer.specs.Writing.{Writes};

use crate::cexpr;
use crate::scalar::ScalarType;
use crate::scope::Scope;
use crate::writer::Writer;
use asr_nodes::Expr;
use c_nodes::{CExpr, CStmt};
use lf_base::{ExprId, Memory, SymId};
use std::alloc::Global;

/// What a designator designates.
#[derive(Clone, Copy)]
pub(crate) enum Spot {
    /// An entity.
    Entity(SymId),
    /// A temporary of the tree.
    Temp(u64),
    /// What has no C.
    Nowhere,
}

fn spot_at(node: &Expr) -> Spot
    ensures { result ≡ spot_of node.now }
{
    match node {
        Expr::Var { symbol } => Spot::Entity(*symbol),
        Expr::Temp { number } => Spot::Temp(*number),
        _ => Spot::Nowhere,
    }
}

/// What an expression designates. No lines are needed for it.
pub(crate) fn place(scope: &Scope<'_>, id: ExprId) -> Spot
    ensures { (here : Location) → (expression_of scope.now id).place here ≡ give (place_of scope.now result) }
{
    let asr = scope.asr();
    if asr.has_expr(id) {
        spot_at(asr.expr(id))
    } else {
        Spot::Nowhere
    }
}

fn object(scope: &Scope<'_>, alloc: Global, spot: Spot) -> Result<CExpr, Memory>
    ensures { IfOk result (λ x. x ≡ (place_of scope.now spot).object) }
{
    match spot {
        Spot::Entity(symbol) => Ok(CExpr::Variable {
            name: scope.entity_name(alloc, symbol)?,
        }),
        Spot::Temp(number) => cexpr::temp_of(alloc, number),
        Spot::Nowhere => cexpr::value_of(alloc, 0),
    }
}

/// Whether values of a type are kept in 32 bits, as those of kind 4 and logicals are.
pub(crate) fn is_narrow(ty: ScalarType) -> bool
    ensures { result ≡ is_narrow ty }
{
    match ty {
        ScalarType::Integer4 => true,
        ScalarType::Integer8 => false,
        ScalarType::Logical => true,
    }
}

fn is_narrow_spot(scope: &Scope<'_>, spot: Spot) -> bool
    ensures { result ≡ (place_of scope.now spot).is_narrow }
{
    match spot {
        Spot::Entity(symbol) => is_narrow(scope.type_of(symbol)),
        Spot::Temp(_) => false,
        Spot::Nowhere => false,
    }
}

/// A value as it is kept, in 32 or in 64 bits.
pub(crate) fn stored_value(alloc: Global, is_narrow: bool, number: u64) -> Result<CExpr, Memory>
    ensures { IfOk result (λ x. x ≡ (if is_narrow then Cast Int32 (value_of number) else value_of number)) }
{
    if is_narrow {
        cexpr::narrow_value(alloc, number)
    } else {
        cexpr::value_of(alloc, number)
    }
}

/// Computes the value that is kept where a designator designates, and returns its number. It fails only for want of
/// memory.
pub(crate) fn fetch(scope: &Scope<'_>, writer: &mut Writer, spot: Spot) -> Result<u64, Memory>
    ensures { Writes writer.old writer.new result (fetched (place_of scope.now spot)) }
{
    let kept = object(scope, writer.allocator(), spot)?;
    writer.computed(kept)
}

/// Writes the line that keeps a value where a designator designates. It fails only for want of memory.
pub(crate) fn store(
    scope: &Scope<'_>,
    writer: &mut Writer,
    spot: Spot,
    number: u64,
) -> Result<(), Memory>
    ensures { Writes writer.old writer.new result (line (stored (place_of scope.now spot) number)) }
{
    let alloc = writer.allocator();
    let target = object(scope, alloc, spot)?;
    let value = stored_value(alloc, is_narrow_spot(scope, spot), number)?;
    writer.line(CStmt::Assign { target, value })
}
