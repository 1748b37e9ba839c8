//! Operations on values: the lines that compute them.
ghost use Rattle.std.specs.Prelude.{◌≡◌, [], ◌∷◌};
ghost use Rattle.c_nodes.specs.declared.tree.CExpr.TheVariants.{Constant, Not, Binary};
ghost use Rattle.c_printer.specs.declared.scalar.Helper.TheVariants as helper;
ghost use Rattle.c_printer.specs.declared.scalar.ScalarType.TheVariants.{Logical};
ghost use Rattle.c_printer.specs.Lowering.{value_of, computed};
ghost use Rattle.c_printer.specs.Manners.{kind_type};
ghost use Rattle.c_printer.specs.Steps.{absolute_value, negated_value};
ghost use Rattle.c_printer.specs.Values.{fitted, fitted_where, operation, typed, constant_of, on_values, helped_values, absolute, pairwise};
ghost use Rattle.c_printer.specs.Writing.{Writes, location};

use crate::located::Located;
use crate::scalar::{Helper, ScalarType, Value};
use crate::scope::kind_type;
use crate::writer::Writer;
use crate::{cexpr, manners};
use c_nodes::{CBinary, CExpr};
use lf_base::Memory;
use sqlite_items::Items;
use type_rules::Intrinsic;

/// What stands for a value that has no C.
pub(crate) const NO_VALUE: Value = Value {
    number: 0,
    ty: ScalarType::Integer4,
};

// The value is checked for kind 4.
pub(crate) fn fitted(writer: &mut Writer, here: Located<'_>, number: u64) -> Result<u64, Memory>
    ensures { Writes writer.old writer.new result (fitted (location here.entry) number) }
{
    let arguments = cexpr::one_value(writer.allocator(), number)?;
    writer.helped(here, Helper::Fit, arguments)
}

// The value is checked for kind 4, where it has that kind and was not checked.
fn fitted_where(
    writer: &mut Writer,
    fits: bool,
    here: Located<'_>,
    ty: ScalarType,
    number: u64,
) -> Result<u64, Memory>
    ensures { Writes writer.old writer.new result (fitted_where fits (location here.entry) ty number) }
{
    if fits {
        match ty {
            ScalarType::Integer4 => fitted(writer, here, number),
            ScalarType::Integer8 => Ok(number),
            ScalarType::Logical => Ok(number),
        }
    } else {
        Ok(number)
    }
}

/// Computes by a function of the prelude, and checks a result of kind 4. It fails only for want of memory.
pub(crate) fn operation(
    writer: &mut Writer,
    here: Located<'_>,
    helper: Helper,
    ty: ScalarType,
    arguments: Items<CExpr>,
) -> Result<u64, Memory>
    ensures { Writes writer.old writer.new result (operation (location here.entry) helper ty arguments) }
{
    let number = writer.helped(here, helper, arguments)?;
    fitted_where(writer, manners::is_fitted(helper), here, ty, number)
}

/// Computes an operation of two values by a function of the prelude. It fails only for want of memory.
pub(crate) fn combined(
    writer: &mut Writer,
    here: Located<'_>,
    helper: Helper,
    ty: ScalarType,
    left: u64,
    right: u64,
) -> Result<u64, Memory>
    ensures { Writes writer.old writer.new result (operation (location here.entry) helper ty (value_of left ∷ value_of right ∷ [])) }
{
    let arguments = cexpr::two_values(writer.allocator(), left, right)?;
    operation(writer, here, helper, ty, arguments)
}

/// Computes the value with the other sign. It fails only for want of memory.
pub(crate) fn negated(writer: &mut Writer, here: Located<'_>, value: Value) -> Result<Value, Memory>
    ensures { Writes writer.old writer.new result (negated_value (location here.entry) value) }
{
    let alloc = writer.allocator();
    let operand = cexpr::value_of(alloc, value.number)?;
    let arguments = cexpr::two(alloc, CExpr::Constant { value: 0 }, operand)?;
    let number = operation(writer, here, Helper::Subtract, value.ty, arguments)?;
    Ok(Value {
        number,
        ty: value.ty,
    })
}

/// Computes the value that is true where this one is false. It fails only for want of memory.
pub(crate) fn denied(writer: &mut Writer, value: Value) -> Result<Value, Memory>
    ensures { Writes writer.old writer.new result (typed Logical (computed (Not (value_of value.number)))) }
{
    let test = cexpr::not_value(writer.allocator(), value.number)?;
    let number = writer.computed(test)?;
    Ok(Value {
        number,
        ty: ScalarType::Logical,
    })
}

/// Computes a comparison of two values. It fails only for want of memory.
pub(crate) fn compared(
    writer: &mut Writer,
    operator: CBinary,
    left: u64,
    right: u64,
) -> Result<Value, Memory>
    ensures { Writes writer.old writer.new result (typed Logical (computed (Binary operator (value_of left) (value_of right)))) }
{
    let test = cexpr::compared(writer.allocator(), operator, left, right)?;
    let number = writer.computed(test)?;
    Ok(Value {
        number,
        ty: ScalarType::Logical,
    })
}

/// Computes an integer constant of a kind. It fails only for want of memory.
pub(crate) fn integer(writer: &mut Writer, kind: u8, value: i64) -> Result<Value, Memory>
    ensures { Writes writer.old writer.new result (typed (kind_type kind) (computed (constant_of value))) }
{
    let constant = cexpr::constant(writer.allocator(), value)?;
    let number = writer.computed(constant)?;
    Ok(Value {
        number,
        ty: kind_type(kind),
    })
}

/// Computes a logical constant. It fails only for want of memory.
pub(crate) fn logical(writer: &mut Writer, value: u8) -> Result<Value, Memory>
    ensures { Writes writer.old writer.new result (typed Logical (computed (Constant value))) }
{
    let number = writer.computed(CExpr::Constant {
        value: u64::from(value),
    })?;
    Ok(Value {
        number,
        ty: ScalarType::Logical,
    })
}

// The operation of a value and the next one, for all of them.
fn pairwise(
    writer: &mut Writer,
    here: Located<'_>,
    helper: Helper,
    ty: ScalarType,
    number: u64,
    values: &[Value],
) -> Result<u64, Memory>
    ensures { Writes writer.old writer.new result (pairwise (location here.entry) helper ty number values.now) }
{
    let mut sofar = number;
    for value in values {
        sofar = combined(writer, here, helper, ty, sofar, value.number)?;
    }
    Ok(sofar)
}

fn helped_values(
    writer: &mut Writer,
    here: Located<'_>,
    helper: Option<Helper>,
    values: &[Value],
) -> Result<Value, Memory>
    ensures { Writes writer.old writer.new result (helped_values (location here.entry) helper values.now) }
{
    let Some(helper) = helper else {
        return Ok(NO_VALUE);
    };
    match values {
        [] => Ok(NO_VALUE),
        [first, rest @ ..] => {
            let number = pairwise(writer, here, helper, first.ty, first.number, rest)?;
            Ok(Value {
                number,
                ty: first.ty,
            })
        }
    }
}

fn absolute(writer: &mut Writer, here: Located<'_>, values: &[Value]) -> Result<Value, Memory>
    ensures { Writes writer.old writer.new result (absolute (location here.entry) values.now) }
{
    match values {
        [] => Ok(NO_VALUE),
        [value, ..] => signed_as_zero(writer, here, *value),
    }
}

// The value with the sign of 0.
fn signed_as_zero(writer: &mut Writer, here: Located<'_>, value: Value) -> Result<Value, Memory>
    ensures { Writes writer.old writer.new result (absolute_value (location here.entry) value) }
{
    let alloc = writer.allocator();
    let operand = cexpr::value_of(alloc, value.number)?;
    let arguments = cexpr::two(alloc, operand, CExpr::Constant { value: 0 })?;
    let number = operation(writer, here, Helper::Sign, value.ty, arguments)?;
    Ok(Value {
        number,
        ty: value.ty,
    })
}

/// Computes an intrinsic function of values. It fails only for want of memory.
pub(crate) fn on_values(
    writer: &mut Writer,
    here: Located<'_>,
    function: Option<Intrinsic>,
    values: &[Value],
) -> Result<Value, Memory>
    ensures { Writes writer.old writer.new result (on_values (location here.entry) function values.now) }
{
    match function {
        None => Ok(NO_VALUE),
        Some(Intrinsic::Abs) => absolute(writer, here, values),
        Some(function) => helped_values(writer, here, manners::intrinsic_helper(function), values),
    }
}
