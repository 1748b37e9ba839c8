//! How an operation answers: a constant, or the rule that a constant expression breaks.
ghost use Rattle.std.specs.Prelude.{◌≡◌, pos, IsTrue, if◌then◌else◌};
ghost use Rattle.type_rules.specs.Values.{fitted, is_in_kind, greatest, least, Gives, Logical};
ghost use Rattle.type_rules.specs.Folds.{Folds, rule_of};

use crate::constant::{Const, TypeFault};
use lf_base::{Rule, Trap};

pub type Folded = Result<Const, TypeFault>;

/// The rule that a constant expression breaks by this trap.
pub fn rule_of(trap: Trap) -> Rule
    ensures { result ≡ rule_of trap }
{
    match trap {
        Trap::LengthLimit => Rule::E416,
        _ => Rule::E415,
    }
}

/// The table has no rule for the operands.
pub fn no_rule() -> Folded
    ensures { result ≡ Err (TypeFault.Rule Rule.E401) }
{
    Err(TypeFault::Rule(Rule::E401))
}

/// The exact integer in this kind.
pub fn fitted(kind: u8, exact: Result<i128, Trap>) -> Folded
    ensures { Folds result (fitted kind exact) }
{
    match exact {
        Ok(value) => in_kind(kind, value),
        Err(trap) => Err(TypeFault::Rule(rule_of(trap))),
    }
}

fn in_kind(kind: u8, value: i128) -> Folded
    ensures { Folds result (fitted kind (Ok value)) }
{
    if i128::from(least(kind)) <= value && value <= i128::from(greatest(kind)) {
        return Ok(Const::IntConst {
            kind,
            value: value as i64,
        });
    }
    Err(TypeFault::Rule(Rule::E415))
}

/// The greatest integer of a kind.
pub fn greatest(kind: u8) -> i64
    ensures { result ≡ greatest kind }
{
    if kind == 4 {
        i64::from(i32::MAX)
    } else {
        i64::MAX
    }
}

/// The least integer of a kind.
pub fn least(kind: u8) -> i64
    ensures { result ≡ least kind }
{
    if kind == 4 {
        i64::from(i32::MIN)
    } else {
        i64::MIN
    }
}

/// A logical.
pub fn truth(holds: bool) -> Folded
    ensures { Folds result (Gives (Logical holds)) }
{
    Ok(Const::LogConst {
        value: if holds { 1 } else { 0 },
    })
}
