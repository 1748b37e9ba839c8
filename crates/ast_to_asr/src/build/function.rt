//! References of intrinsic functions, whose arguments are built.
ghost use Rattle.std.specs.Prelude.{◌≡◌, [], ◌∷◌, true, Some, None, Ok};
ghost use Rattle.asr_nodes.specs.Nodes.{Nodes, there};
ghost use Rattle.ast_to_asr.specs.Building as building;
ghost use Rattle.ast_to_asr.specs.Building.{BuildsOfAll, ConvertsAll, key_of, keys_of, greatest_of, ToKind, by_name};
ghost use Rattle.ast_to_asr.specs.Expressions.{function_of, function_tree, int_tree, huge_tree};

use super::leaf::{greatest, integer};
use super::operation::in_kind;
use super::{Built, add};
use crate::judge::functions::{intrinsic_named, is_huge, is_int, takes};
use crate::judge::operation::{DEFAULT_KIND, greater};
use crate::names::ScalarType;
use asr_nodes::{Asr, Expr, ExprIds};
use lf_base::Memory;

fn kind_of(ty: ScalarType) -> u8
    ensures { result ≡ building.kind_of ty }
{
    match ty {
        ScalarType::Integer { kind } => kind,
        ScalarType::Logical => DEFAULT_KIND,
    }
}

/// The greatest kind of arguments.
#[tactic(auto, using(crate::proofs::Functions::kinds))]
fn greatest_kind(arguments: &[Built]) -> u8
    ensures { result ≡ greatest_of arguments.now }
{
    let mut kind = DEFAULT_KIND;
    for argument in arguments {
        kind = greater(kind, kind_of(argument.ty));
    }
    kind
}

#[tactic(auto, using(crate::proofs::Converting::conv_none, crate::proofs::Converting::operand_there, crate::proofs::Converting::conv_wrong, crate::proofs::Converting::conv_next))]
/// Arguments, each converted to a kind, where all are integers.
pub fn converted(asr: &mut Asr, kind: u8, arguments: &[Built]) -> Result<Option<ExprIds>, Memory>
    requires { there asr.old (keys_of arguments.now) ≡ true }
    ensures { ConvertsAll asr.old asr.new kind arguments.now result }
{
    let mut ids = ExprIds::new(asr.allocator());
    for argument in arguments {
        match argument.ty {
            ScalarType::Integer { kind: from } => ids.push(
                in_kind(asr, kind, from, *argument)?.id,
            )?,
            ScalarType::Logical => return Ok(None),
        }
    }
    Ok(Some(ids))
}

/// A function that is computed by its arguments' values (ISO/IEC 1539-1:2018, 16.9).
#[tactic(auto, using(crate::proofs::Calling::calls))]
pub fn function_of(asr: &mut Asr, code: u8, arguments: &[Built]) -> Result<Option<Built>, Memory>
    requires { there asr.old (keys_of arguments.now) ≡ true }
    ensures { BuildsOfAll asr.old asr.new arguments.now (function_of code) result }
{
    if !takes(code, arguments.len()) {
        return Ok(None);
    }
    let kind = greatest_kind(arguments);
    match converted(asr, kind, arguments)? {
        None => Ok(None),
        Some(arguments) => {
            let node = Expr::Intrinsic { code, arguments };
            Ok(Some(add(asr, node, ScalarType::Integer { kind })?))
        }
    }
}

/// An integer in a kind, whatever its own is.
fn to_kind(asr: &mut Asr, kind: u8, operand: Built) -> Result<Option<Built>, Memory>
    requires { there asr.old (key_of operand ∷ []) ≡ true }
    ensures { ToKind asr.old asr.new kind operand result }
{
    match operand.ty {
        ScalarType::Logical => Ok(None),
        ScalarType::Integer { .. } => {
            let node = Expr::Convert {
                kind,
                operand: operand.id,
            };
            Ok(Some(add(asr, node, ScalarType::Integer { kind })?))
        }
    }
}

/// `int` (ISO/IEC 1539-1:2018, 16.9.100): the value in the kind that a second argument writes, and else in the default
/// kind.
#[tactic(auto, using(crate::proofs::Calling::ints))]
pub fn int(asr: &mut Asr, arguments: &[Built]) -> Result<Option<Built>, Memory>
    requires { there asr.old (keys_of arguments.now) ≡ true }
    ensures { BuildsOfAll asr.old asr.new arguments.now int_tree result }
{
    match arguments {
        [] => Ok(None),
        [value] => to_kind(asr, DEFAULT_KIND, *value),
        [value, kind] => match kind.writes {
            None => Ok(None),
            Some(kind) => to_kind(asr, kind, *value),
        },
        [_, _, _, ..] => Ok(None),
    }
}

/// `huge` (ISO/IEC 1539-1:2018, 16.9.86): the greatest integer of the argument's kind.
#[tactic(auto, using(crate::proofs::Calling::huges))]
pub fn huge(asr: &mut Asr, arguments: &[Built]) -> Result<Option<Built>, Memory>
    requires { there asr.old (keys_of arguments.now) ≡ true }
    ensures { BuildsOfAll asr.old asr.new arguments.now huge_tree result }
{
    match arguments {
        [] => Ok(None),
        [argument] => match argument.ty {
            ScalarType::Logical => Ok(None),
            ScalarType::Integer { kind } => integer(asr, kind, greatest(kind), None),
        },
        [_, _, ..] => Ok(None),
    }
}

/// A reference of an intrinsic function by its name.
#[tactic(auto, using(crate::proofs::Calling::functions))]
pub fn function(asr: &mut Asr, name: &[u8], arguments: &[Built]) -> Result<Option<Built>, Memory>
    requires { there asr.old (keys_of arguments.now) ≡ true }
    ensures { BuildsOfAll asr.old asr.new arguments.now (by_name name.now) result }
{
    match intrinsic_named(name) {
        Some(code) => function_of(asr, code, arguments),
        None => {
            if is_int(name) {
                int(asr, arguments)
            } else if is_huge(name) {
                huge(asr, arguments)
            } else {
                Ok(None)
            }
        }
    }
}
