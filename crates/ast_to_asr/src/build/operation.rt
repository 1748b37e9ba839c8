//! Operations, with a Convert where two kinds meet.
ghost use Rattle.std.specs.Prelude.{◌≡◌, ◌==◌, [], ◌∷◌, true, Some, None, Ok, option_map};
ghost use Rattle.asr_nodes.specs.Keys.{expr};
ghost use Rattle.asr_nodes.specs.Nodes.{Nodes, there};
ghost use Rattle.lf_base.specs.Operators.{operator_of};
ghost use Rattle.ast_to_asr.specs.Building.{Is, IsBuilt, ConvertsOr, key_of, BuildsOf, BuildsOfTwo, JoinsOr};
ghost use Rattle.ast_to_asr.specs.Expressions.{Elaborated, binary_of, unary_of, in_parentheses};
ghost use Rattle.ast_to_asr.specs.Known.{type_of};
ghost use Rattle.ast_to_asr.specs.Making.{Makes};

use super::{Built, add};
use crate::judge::operation::{greater, integer_result, logical_result, takes_operand};
use crate::names::ScalarType;
use asr_nodes::{Asr, Expr};
use lf_base::Memory;
use lf_base::operator::Operator;

/// The integer of a kind that an integer of another kind is.
#[tactic(auto, using(crate::proofs::Builds::converting))]
pub fn in_kind(asr: &mut Asr, kind: u8, from: u8, operand: Built) -> Result<Built, Memory>
    requires { there asr.old (key_of operand ∷ []) ≡ true }
    ensures { ConvertsOr asr.old asr.new kind from operand result }
{
    if from == kind {
        return Ok(Built {
            id: operand.id,
            ty: ScalarType::Integer { kind },
            writes: None,
        });
    }
    let node = Expr::Convert {
        kind,
        operand: operand.id,
    };
    add(asr, node, ScalarType::Integer { kind })
}

/// A sign or `.not.` before an operand.
#[tactic(auto, using(crate::proofs::Builds::operands))]
pub fn unary(asr: &mut Asr, code: u8, operand: Built) -> Result<Option<Built>, Memory>
    requires { there asr.old (key_of operand ∷ []) ≡ true }
    ensures { BuildsOf asr.old asr.new operand (unary_of code (operator_of code)) result }
{
    let Some(operator) = Operator::at(code) else {
        return Ok(None);
    };
    if !takes_operand(operator, operand.ty) {
        return Ok(None);
    }
    let node = Expr::Unary {
        operator: code,
        operand: operand.id,
    };
    Ok(Some(add(asr, node, operand.ty)?))
}

/// An expression in parentheses.
#[tactic(auto, using(crate::proofs::Builds::operands))]
pub fn paren(asr: &mut Asr, inner: Built) -> Result<Option<Built>, Memory>
    requires { there asr.old (key_of inner ∷ []) ≡ true }
    ensures { BuildsOf asr.old asr.new inner (λ x. Ok (in_parentheses x)) result }
{
    let node = Expr::Paren { inner: inner.id };
    Ok(Some(add(asr, node, inner.ty)?))
}

/// An operation of two integers, each converted to a kind.
#[tactic(auto, using(crate::proofs::Operations::joins))]
pub fn join(
    asr: &mut Asr,
    code: u8,
    kind: u8,
    ty: ScalarType,
    operands: ((Built, u8), (Built, u8)),
) -> Result<Built, Memory>
    requires { there asr.old (key_of operands.0.0 ∷ key_of operands.1.0 ∷ []) ≡ true }
    ensures { JoinsOr asr.old asr.new code kind operands.0.1 operands.1.1 ty operands.0.0 operands.1.0 result }
{
    let ((left, j), (right, k)) = operands;
    let left = in_kind(asr, kind, j, left)?;
    let right = in_kind(asr, kind, k, right)?;
    let node = Expr::Binary {
        operator: code,
        left: left.id,
        right: right.id,
    };
    add(asr, node, ty)
}

/// An operator between two operands.
#[tactic(auto, using(crate::proofs::Operations::binaries))]
pub fn binary(asr: &mut Asr, code: u8, left: Built, right: Built) -> Result<Option<Built>, Memory>
    requires { there asr.old (key_of left ∷ key_of right ∷ []) ≡ true }
    ensures { BuildsOfTwo asr.old asr.new left right (binary_of code (operator_of code)) result }
{
    let Some(operator) = Operator::at(code) else {
        return Ok(None);
    };
    match (left.ty, right.ty) {
        (ScalarType::Integer { kind: j }, ScalarType::Integer { kind: k }) => {
            let kind = greater(j, k);
            let Some(ty) = integer_result(operator, kind) else {
                return Ok(None);
            };
            let operands = ((left, j), (right, k));
            Ok(Some(join(asr, code, kind, ty, operands)?))
        }
        (ScalarType::Logical, ScalarType::Logical) => {
            let Some(ty) = logical_result(operator) else {
                return Ok(None);
            };
            let node = Expr::Binary {
                operator: code,
                left: left.id,
                right: right.id,
            };
            Ok(Some(add(asr, node, ty)?))
        }
        (ScalarType::Integer { .. }, ScalarType::Logical) => Ok(None),
        (ScalarType::Logical, ScalarType::Integer { .. }) => Ok(None),
    }
}
