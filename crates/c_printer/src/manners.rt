//! How operators and intrinsic functions of scalars are done in C (ISO/IEC 1539-1:2018, 10.1.5 and 16.9).
ghost use Rattle.std.specs.Prelude.{◌≡◌};
ghost use Rattle.lf_base.specs.Operators.{operator_of};
ghost use Rattle.c_printer.specs.Helpers.{is_fitted};
ghost use Rattle.c_printer.specs.Manners.{operator_manner, manner_of, intrinsic_helper};

use crate::scalar::{Helper, Manner};
use c_nodes::CBinary;
use lf_base::operator::Operator;
use type_rules::Intrinsic;

fn operator_manner(operator: Operator) -> Manner
    ensures { result ≡ operator_manner operator }
{
    match operator {
        Operator::Add => Manner::Helped(Helper::Add),
        Operator::Subtract => Manner::Helped(Helper::Subtract),
        Operator::Multiply => Manner::Helped(Helper::Multiply),
        Operator::Divide => Manner::Helped(Helper::Divide),
        Operator::Power => Manner::Helped(Helper::Power),
        Operator::Concatenate => Manner::Unbuilt,
        Operator::Eq => Manner::Plain(CBinary::Equal),
        Operator::Ne => Manner::Plain(CBinary::Differ),
        Operator::Lt => Manner::Plain(CBinary::Less),
        Operator::Le => Manner::Plain(CBinary::AtMost),
        Operator::Gt => Manner::Swapped(CBinary::Less),
        Operator::Ge => Manner::Swapped(CBinary::AtMost),
        Operator::And => Manner::WhereTrue,
        Operator::Or => Manner::WhereFalse,
        Operator::Eqv => Manner::Plain(CBinary::Equal),
        Operator::Neqv => Manner::Plain(CBinary::Differ),
        Operator::Not => Manner::Unbuilt,
    }
}

/// How an operation of two operands is done, by the code of its operator.
pub(crate) fn manner_of(code: u8) -> Manner
    ensures { result ≡ manner_of (operator_of code) }
{
    match Operator::at(code) {
        Some(operator) => operator_manner(operator),
        None => Manner::Unbuilt,
    }
}

/// The function of the prelude that computes an intrinsic function of two arguments, or of more from the left.
pub(crate) fn intrinsic_helper(intrinsic: Intrinsic) -> Option<Helper>
    ensures { result ≡ intrinsic_helper intrinsic }
{
    match intrinsic {
        Intrinsic::Mod => Some(Helper::Remainder),
        Intrinsic::Modulo => Some(Helper::Modulo),
        Intrinsic::Min => Some(Helper::Least),
        Intrinsic::Max => Some(Helper::Greatest),
        Intrinsic::Sign => Some(Helper::Sign),
        _ => None,
    }
}

/// Whether a result of kind 4 may lie outside kind 4.
pub(crate) fn is_fitted(helper: Helper) -> bool
    ensures { result ≡ is_fitted helper }
{
    match helper {
        Helper::Add | Helper::Subtract | Helper::Multiply | Helper::Divide => true,
        Helper::Power | Helper::Sign => true,
        Helper::Remainder | Helper::Modulo | Helper::Least | Helper::Greatest => false,
        Helper::Fit | Helper::Count => false,
    }
}
