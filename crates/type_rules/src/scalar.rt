//! Operations on numbers and logicals.
ghost use Rattle.std.specs.Prelude.{◌≡◌, not, ◌==◌};
ghost use Rattle.type_rules.specs.Operations.{relation, on_integers, on_logicals, on_integer, on_logical, of_integers};
ghost use Rattle.type_rules.specs.Folds.{Folds};

use crate::answer::{Folded, fitted, no_rule, truth};
use crate::code::Intrinsic;
use crate::integer;
use lf_base::operator::Operator;
use std::cmp::Ordering;

/// A relational operator, by the order of its operands.
pub fn relation(op: Operator, order: Ordering) -> Folded
    ensures { Folds result (relation op order) }
{
    match op {
        Operator::Eq => truth(order.is_eq()),
        Operator::Ne => truth(order.is_ne()),
        Operator::Lt => truth(order.is_lt()),
        Operator::Le => truth(order.is_le()),
        Operator::Gt => truth(order.is_gt()),
        Operator::Ge => truth(order.is_ge()),
        _ => no_rule(),
    }
}

/// An operator on two integers, with the kind of the result of arithmetic.
pub fn on_integers(op: Operator, kind: u8, a: i64, b: i64) -> Folded
    ensures { Folds result (on_integers op kind a b) }
{
    match op {
        Operator::Add => fitted(kind, Ok(integer::sum(a, b))),
        Operator::Subtract => fitted(kind, Ok(integer::difference(a, b))),
        Operator::Multiply => fitted(kind, Ok(integer::product(a, b))),
        Operator::Divide => fitted(kind, integer::quotient(a, b)),
        Operator::Power => fitted(kind, integer::power(a, b)),
        _ => relation(op, integer::compared(a, b)),
    }
}

/// An operator on two logicals.
pub fn on_logicals(op: Operator, p: bool, q: bool) -> Folded
    ensures { Folds result (on_logicals op p q) }
{
    match op {
        Operator::And => truth(p && q),
        Operator::Or => truth(p || q),
        Operator::Eqv => truth(p == q),
        Operator::Neqv => truth(p != q),
        _ => no_rule(),
    }
}

/// An operator on one integer.
pub fn on_integer(op: Operator, kind: u8, a: i64) -> Folded
    ensures { Folds result (on_integer op kind a) }
{
    match op {
        Operator::Add => fitted(kind, Ok(i128::from(a))),
        Operator::Subtract => fitted(kind, Ok(-i128::from(a))),
        _ => no_rule(),
    }
}

/// An operator on one logical.
pub fn on_logical(op: Operator, p: bool) -> Folded
    ensures { Folds result (on_logical op p) }
{
    match op {
        Operator::Not => truth(!p),
        _ => no_rule(),
    }
}

/// An intrinsic function of two integers.
pub fn of_integers(which: Intrinsic, kind: u8, a: i64, b: i64) -> Folded
    ensures { Folds result (of_integers which kind a b) }
{
    match which {
        Intrinsic::Mod => fitted(kind, integer::remainder(a, b)),
        Intrinsic::Modulo => fitted(kind, integer::modulo(a, b)),
        Intrinsic::Sign => fitted(kind, Ok(integer::sign(a, b))),
        Intrinsic::Min => fitted(kind, Ok(i128::from(integer::lesser(a, b)))),
        Intrinsic::Max => fitted(kind, Ok(i128::from(integer::greater(a, b)))),
        _ => no_rule(),
    }
}
