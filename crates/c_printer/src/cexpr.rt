//! The expressions of C that lines are made of (ISO/IEC 9899:1999, 6.5). They fail only for want of memory.
ghost use Rattle.std.specs.Prelude.{◌≡◌, [], ◌∷◌, IfOk};
ghost use Rattle.c_nodes.specs.declared.tree.CExpr.TheVariants.{Variable, Constant, Literal, Paren, Negate, Not, Binary, Cast, Address};
ghost use Rattle.c_nodes.specs.declared.tree.CBinary.TheVariants.{Subtract};
ghost use Rattle.c_nodes.specs.declared.tree.CType.TheVariants.{Int32};
ghost use Rattle.c_printer.specs.Lowering.{value_of, temp_of};
ghost use Rattle.c_printer.specs.Values.{greatest, negative, constant_of};

use crate::names;
use c_nodes::{CBinary, CExpr, CType};
use lf_base::{Memory, Name};
use sqlite_items::{Boxed, Items};
use std::alloc::Global;

/// The greatest integer of kind 8.
const GREATEST: u64 = 9_223_372_036_854_775_807;

/// An object by its name.
pub(crate) fn object(alloc: Global, name: &[u8]) -> Result<CExpr, Memory>
    ensures { IfOk result (λ x. x ≡ Variable name.now) }
{
    Ok(CExpr::Variable {
        name: Name::new(alloc, name)?,
    })
}

/// The value of this number.
pub(crate) fn value_of(alloc: Global, number: u64) -> Result<CExpr, Memory>
    ensures { IfOk result (λ x. x ≡ value_of number) }
{
    Ok(CExpr::Variable {
        name: names::value_name(alloc, number)?,
    })
}

/// The temporary of the tree of this number.
pub(crate) fn temp_of(alloc: Global, number: u64) -> Result<CExpr, Memory>
    ensures { IfOk result (λ x. x ≡ temp_of number) }
{
    Ok(CExpr::Variable {
        name: names::temp_name(alloc, number)?,
    })
}

/// A text (6.4.5).
pub(crate) fn text(alloc: Global, bytes: &[u8]) -> Result<CExpr, Memory>
    ensures { IfOk result (λ x. x ≡ Literal bytes.now) }
{
    Ok(CExpr::Literal {
        bytes: Items::from_slice(alloc, bytes)?,
    })
}

/// A negation of a value (6.5.3.3).
pub(crate) fn not_value(alloc: Global, number: u64) -> Result<CExpr, Memory>
    ensures { IfOk result (λ x. x ≡ Not (value_of number)) }
{
    let operand = Boxed::new(alloc, value_of(alloc, number)?)?;
    Ok(CExpr::Not { operand })
}

/// The address of a temporary of the tree (6.5.3.2).
pub(crate) fn address_of_temp(alloc: Global, number: u64) -> Result<CExpr, Memory>
    ensures { IfOk result (λ x. x ≡ Address (temp_of number)) }
{
    let place = Boxed::new(alloc, temp_of(alloc, number)?)?;
    Ok(CExpr::Address { place })
}

/// A value in 32 bits (6.5.4).
pub(crate) fn narrow_value(alloc: Global, number: u64) -> Result<CExpr, Memory>
    ensures { IfOk result (λ x. x ≡ Cast Int32 (value_of number)) }
{
    let operand = Boxed::new(alloc, value_of(alloc, number)?)?;
    Ok(CExpr::Cast {
        kind: CType::Int32,
        operand,
    })
}

/// An operation of two operands (6.5.5 to 6.5.14).
pub(crate) fn binary(
    alloc: Global,
    operator: CBinary,
    left: CExpr,
    right: CExpr,
) -> Result<CExpr, Memory>
    ensures { IfOk result (λ x. x ≡ Binary operator left right) }
{
    let left = Boxed::new(alloc, left)?;
    let right = Boxed::new(alloc, right)?;
    Ok(CExpr::Binary {
        operator,
        left,
        right,
    })
}

/// An operation of two values.
pub(crate) fn compared(
    alloc: Global,
    operator: CBinary,
    left: u64,
    right: u64,
) -> Result<CExpr, Memory>
    ensures { IfOk result (λ x. x ≡ Binary operator (value_of left) (value_of right)) }
{
    let left = value_of(alloc, left)?;
    let right = value_of(alloc, right)?;
    binary(alloc, operator, left, right)
}

fn negated(alloc: Global, magnitude: u64) -> Result<CExpr, Memory>
    ensures { IfOk result (λ x. x ≡ Negate (Constant magnitude)) }
{
    let operand = Boxed::new(alloc, CExpr::Constant { value: magnitude })?;
    Ok(CExpr::Negate { operand })
}

// The least integer of kind 8, which has no constant of its own.
fn least(alloc: Global) -> Result<CExpr, Memory>
    ensures { IfOk result (λ x. x ≡ Binary Subtract (Paren (Negate (Constant greatest))) (Constant 1)) }
{
    let inner = Boxed::new(alloc, negated(alloc, GREATEST)?)?;
    binary(
        alloc,
        CBinary::Subtract,
        CExpr::Paren { inner },
        CExpr::Constant { value: 1 },
    )
}

fn negative(alloc: Global, magnitude: u64) -> Result<CExpr, Memory>
    ensures { IfOk result (λ x. x ≡ negative magnitude) }
{
    if magnitude == GREATEST + 1 {
        least(alloc)
    } else {
        negated(alloc, magnitude)
    }
}

/// An integer constant (6.4.4.1).
pub(crate) fn constant(alloc: Global, value: i64) -> Result<CExpr, Memory>
    ensures { IfOk result (λ x. x ≡ constant_of value) }
{
    let magnitude = value.unsigned_abs();
    if value < 0 {
        negative(alloc, magnitude)
    } else {
        Ok(CExpr::Constant { value: magnitude })
    }
}

/// The values of two numbers, as arguments.
pub(crate) fn two_values(alloc: Global, first: u64, second: u64) -> Result<Items<CExpr>, Memory>
    ensures { IfOk result (λ xs. xs ≡ value_of first ∷ value_of second ∷ []) }
{
    let mut arguments = one_value(alloc, first)?;
    arguments.push(value_of(alloc, second)?)?;
    Ok(arguments)
}

/// The value of a number, as the one argument.
pub(crate) fn one_value(alloc: Global, number: u64) -> Result<Items<CExpr>, Memory>
    ensures { IfOk result (λ xs. xs ≡ value_of number ∷ []) }
{
    one(alloc, value_of(alloc, number)?)
}

/// One argument.
pub(crate) fn one(alloc: Global, argument: CExpr) -> Result<Items<CExpr>, Memory>
    ensures { IfOk result (λ xs. xs ≡ argument ∷ []) }
{
    let mut arguments = Items::new(alloc);
    arguments.push(argument)?;
    Ok(arguments)
}

/// Two arguments.
pub(crate) fn two(alloc: Global, first: CExpr, second: CExpr) -> Result<Items<CExpr>, Memory>
    ensures { IfOk result (λ xs. xs ≡ first ∷ second ∷ []) }
{
    let mut arguments = one(alloc, first)?;
    arguments.push(second)?;
    Ok(arguments)
}

/// The values of three numbers, as arguments.
pub(crate) fn three_values(
    alloc: Global,
    first: u64,
    second: u64,
    third: u64,
) -> Result<Items<CExpr>, Memory>
    ensures { IfOk result (λ xs. xs ≡ value_of first ∷ value_of second ∷ value_of third ∷ []) }
{
    let mut arguments = two_values(alloc, first, second)?;
    arguments.push(value_of(alloc, third)?)?;
    Ok(arguments)
}
