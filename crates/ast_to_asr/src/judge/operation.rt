//! Operations by the types of their operands.
ghost use Rattle.std.specs.Prelude.{◌≡◌, option_map};
ghost use Rattle.ast_to_asr.specs.Expressions as exact;
ghost use Rattle.ast_to_asr.specs.Known.{type_of};
ghost use Rattle.lf_base.specs.Operators.{operator_of};
ghost use Rattle.ast_to_asr.specs.Expressions.{greater};
ghost use Rattle.ast_to_asr.specs.Facts.{plain, integer_result, logical_result, result_type, binary_of, binary_told, takes_integer, takes_logical, takes_operand, unary_of, unary_told, in_parentheses, paren_told};

use crate::facts::Facts;
use crate::judge::rules::both;
use crate::names::ScalarType;
use lf_base::Rule;
use lf_base::operator::Operator;

/// The kind of an integer that says no kind (ISO/IEC 1539-1:2018, 7.4.3.1), which is its size in bytes.
pub(crate) const DEFAULT_KIND: u8 = 4;
/// The kind of an integer of eight bytes.
pub(crate) const LONG_KIND: u8 = 8;

/// The kind of what is computed of integers of two kinds: the one of the greater range (ISO/IEC 1539-1:2018, 10.1.9.3).
pub(crate) fn greater(first: u8, second: u8) -> u8
    ensures { result ≡ greater first second }
{
    if first == LONG_KIND || second == LONG_KIND {
        LONG_KIND
    } else {
        DEFAULT_KIND
    }
}

/// The facts of what is neither a literal nor a variable.
pub(super) fn plain(ty: ScalarType, is_constant: bool) -> Facts
    ensures { result ≡ plain ty is_constant }
{
    Facts {
        ty,
        writes: None,
        variable: None,
        is_constant,
    }
}

/// What an operator gives of two integers, by the greater of their kinds (ISO/IEC 1539-1:2018, 10.1.5.2 and 10.1.5.5).
pub(crate) fn integer_result(operator: Operator, kind: u8) -> Option<ScalarType>
    ensures told { result ≡ integer_result operator kind }
    ensures exact { option_map type_of result ≡ exact.integer_result operator kind }
{
    match operator {
        Operator::Add
        | Operator::Subtract
        | Operator::Multiply
        | Operator::Divide
        | Operator::Power => Some(ScalarType::Integer { kind }),
        Operator::Eq | Operator::Ne | Operator::Lt | Operator::Le | Operator::Gt | Operator::Ge =>
            Some(ScalarType::Logical),
        Operator::Concatenate
        | Operator::And
        | Operator::Or
        | Operator::Eqv
        | Operator::Neqv
        | Operator::Not => None,
    }
}

/// What an operator gives of two logicals (ISO/IEC 1539-1:2018, 10.1.5.4).
pub(crate) fn logical_result(operator: Operator) -> Option<ScalarType>
    ensures told { result ≡ logical_result operator }
    ensures exact { option_map type_of result ≡ exact.logical_result operator }
{
    match operator {
        Operator::And | Operator::Or | Operator::Eqv | Operator::Neqv => Some(ScalarType::Logical),
        Operator::Add
        | Operator::Subtract
        | Operator::Multiply
        | Operator::Divide
        | Operator::Power
        | Operator::Concatenate
        | Operator::Eq
        | Operator::Ne
        | Operator::Lt
        | Operator::Le
        | Operator::Gt
        | Operator::Ge
        | Operator::Not => None,
    }
}

fn result_type(operator: Operator, left: ScalarType, right: ScalarType) -> Option<ScalarType>
    ensures { result ≡ result_type operator left right }
{
    match (left, right) {
        (ScalarType::Integer { kind }, ScalarType::Integer { kind: other }) => integer_result(
            operator,
            greater(kind, other),
        ),
        (ScalarType::Logical, ScalarType::Logical) => logical_result(operator),
        (ScalarType::Integer { .. }, ScalarType::Logical) => None,
        (ScalarType::Logical, ScalarType::Integer { .. }) => None,
    }
}

fn binary_of(operator: Option<Operator>, left: Facts, right: Facts) -> Result<Facts, Rule>
    ensures { result ≡ binary_of operator left right }
{
    match operator {
        None => Err(Rule::E202),
        Some(operator) => match result_type(operator, left.ty, right.ty) {
            None => Err(Rule::E401),
            Some(ty) => Ok(plain(ty, left.is_constant && right.is_constant)),
        },
    }
}

/// An operation on two operands, by the operator's code. An operand that breaks a rule has no type, so that the operation
/// breaks no further one.
pub(super) fn binary(
    code: u8,
    left: Result<Facts, Rule>,
    right: Result<Facts, Rule>,
) -> Result<Facts, Rule>
    ensures { result ≡ binary_told (operator_of code) left right }
{
    match both(left, right) {
        Ok((left, right)) => binary_of(Operator::at(code), left, right),
        Err(rule) => Err(rule),
    }
}

/// Whether an operator alone before its operand takes one of this type: a sign an integer, and `.not.` a logical.
pub(crate) fn takes_operand(operator: Operator, ty: ScalarType) -> bool
    ensures told { result ≡ takes_operand operator ty }
    ensures exact { result ≡ exact.takes_operand operator (type_of ty) }
{
    match ty {
        ScalarType::Integer { .. } => matches!(operator, Operator::Add | Operator::Subtract),
        ScalarType::Logical => matches!(operator, Operator::Not),
    }
}

fn unary_of(operator: Option<Operator>, operand: Facts) -> Result<Facts, Rule>
    ensures { result ≡ unary_of operator operand }
{
    match operator {
        None => Err(Rule::E202),
        Some(operator) => {
            if takes_operand(operator, operand.ty) {
                Ok(plain(operand.ty, operand.is_constant))
            } else {
                Err(Rule::E401)
            }
        }
    }
}

/// An operation on one operand, by the operator's code.
pub(super) fn unary(code: u8, operand: Result<Facts, Rule>) -> Result<Facts, Rule>
    ensures { result ≡ unary_told (operator_of code) operand }
{
    match operand {
        Ok(operand) => unary_of(Operator::at(code), operand),
        Err(rule) => Err(rule),
    }
}

/// An expression in parentheses, which is neither a literal nor a variable (ISO/IEC 1539-1:2018, 10.1.2.2).
pub(super) fn in_parentheses(inner: Result<Facts, Rule>) -> Result<Facts, Rule>
    ensures { result ≡ paren_told inner }
{
    match inner {
        Ok(inner) => Ok(plain(inner.ty, inner.is_constant)),
        Err(rule) => Err(rule),
    }
}
