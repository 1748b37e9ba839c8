//! Expressions without parts: constants, variables and named constants.
ghost use Rattle.std.specs.Prelude.{◌≡◌, [], ◌∷◌, true, Some, None, Ok, pos};
ghost use Rattle.asr_nodes.specs.Nodes.{Nodes};
ghost use Rattle.ast_to_asr.specs.Building.{IsBuilt, IsDeclared};
ghost use Rattle.ast_to_asr.specs.Expressions.{name_tree, truth, literal_tree};
ghost use Rattle.ast_to_asr.specs.Known.{scope_of};
ghost use Rattle.ast_to_asr.specs.Leaves.{integer_literal, logical_literal, named_constant, IsConstantNode, in_the_kind};
ghost use Rattle.fortran_semantics.specs.Constants.{number_of, literal_kind, kind_written};
ghost use Rattle.type_rules.specs.Values.{greatest};
ghost use Rattle.ast_to_asr.specs.Scope.{entity_of};

use super::{Built, Here, add};
use crate::judge::literal::{is_kind, kind_written, literal_kind};
use crate::judge::operation::DEFAULT_KIND;
use crate::names::{Constant, Known, ScalarType};
use crate::number::number;
use asr_nodes::code::{FALSE, TRUE};
use asr_nodes::{Asr, Expr};
use lf_base::Memory;

/// An integer constant, with the kind that its literal writes.
#[tactic(auto, using(crate::proofs::Leaves::leaves))]
pub fn integer(
    asr: &mut Asr,
    kind: u8,
    value: i64,
    writes: Option<u8>,
) -> Result<Option<Built>, Memory>
    ensures { IsBuilt asr.old asr.new (Ok (integer_literal kind value writes)) result }
{
    let built = add(
        asr,
        Expr::IntConst { kind, value },
        ScalarType::Integer { kind },
    )?;
    Ok(Some(Built {
        id: built.id,
        ty: built.ty,
        writes,
    }))
}

/// The greatest integer of a kind.
pub(super) fn greatest(kind: u8) -> i64
    ensures { result ≡ greatest kind }
{
    if kind == DEFAULT_KIND {
        i64::from(i32::MAX)
    } else {
        i64::MAX
    }
}

/// The number that digits are, where it is one of a kind.
#[tactic(auto, using(crate::proofs::Leaves::values))]
fn value(kind: u8, digits: &[u8]) -> Option<i64>
    ensures { result ≡ in_the_kind kind (number_of digits.now) }
{
    match number(digits) {
        None => None,
        Some(number) => {
            if number > i64::MAX as u64 {
                return None;
            }
            let value = number as i64;
            if value <= greatest(kind) {
                Some(value)
            } else {
                None
            }
        }
    }
}

/// An integer literal (ISO/IEC 1539-1:2018, 7.4.3.1), by its digits and its suffix.
#[tactic(auto, using(crate::proofs::Leaves::literals))]
pub fn literal(asr: &mut Asr, digits: &[u8], suffix: u8) -> Result<Option<Built>, Memory>
    ensures { IsBuilt asr.old asr.new (literal_tree (literal_kind suffix) (pos (number_of digits.now)) (kind_written digits.now suffix)) result }
{
    let kind = literal_kind(suffix);
    if !is_kind(kind) {
        return Ok(None);
    }
    match value(kind, digits) {
        None => Ok(None),
        Some(value) => integer(asr, kind, value, kind_written(digits, suffix)),
    }
}

/// A logical constant, by its code.
#[tactic(auto, using(crate::proofs::Leaves::leaves))]
pub fn logical(asr: &mut Asr, value: u8) -> Result<Option<Built>, Memory>
    ensures { IsBuilt asr.old asr.new (Ok (logical_literal value)) result }
{
    Ok(Some(add(asr, Expr::LogConst { value }, ScalarType::Logical)?))
}

fn code_of(value: bool) -> u8
    ensures { result ≡ truth value }
{
    if value { TRUE } else { FALSE }
}

/// The node of a constant. Of one whose value is not known nothing is shown.
fn constant_node(ty: ScalarType, value: Option<Constant>) -> Expr
    ensures { IsConstantNode ty value result }
{
    match value {
        Some(Constant::Integer { kind, value }) => Expr::IntConst { kind, value },
        Some(Constant::Logical { value }) => Expr::LogConst {
            value: code_of(value),
        },
        None => match ty {
            ScalarType::Integer { kind } => Expr::IntConst { kind, value: 0 },
            ScalarType::Logical => Expr::LogConst { value: FALSE },
        },
    }
}

/// A named constant, which stands for its value.
#[tactic(auto, using(crate::proofs::Leaves::leaves))]
pub fn constant(
    asr: &mut Asr,
    ty: ScalarType,
    value: Option<Constant>,
) -> Result<Option<Built>, Memory>
    ensures { IsBuilt asr.old asr.new (Ok (named_constant ty value)) result }
{
    Ok(Some(add(asr, constant_node(ty, value), ty)?))
}

/// A name alone is a variable or a named constant.
#[tactic(auto, using(crate::proofs::Leaves::leaves))]
pub fn name(asr: &mut Asr, here: Here, name: &[u8]) -> Result<Option<Built>, Memory>
    requires { IsDeclared asr.old.scopes here.unit.now here.names.now }
    ensures { IsBuilt asr.old asr.new (name_tree here.entry.unit.now (scope_of here.entry.names.now) name.now (entity_of (scope_of here.entry.names.now) name.now)) result }
{
    match here.names.known(name) {
        Some(Known::Variable { symbol, ty }) => Ok(Some(add(asr, Expr::Var { symbol }, ty)?)),
        Some(Known::NamedConstant { ty, value }) => constant(asr, ty, value),
        None => Ok(None),
    }
}
