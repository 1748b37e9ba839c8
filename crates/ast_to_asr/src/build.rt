//! Expressions of the typed tree, made from those of the source (ISO/IEC 1539-1:2018, 10.1).
ghost use Rattle.std.specs.Prelude.{◌≡◌, [], ◌∷◌, map, true, Some, None, Ok};
ghost use Rattle.asr_nodes.specs.Keys.{expr};
ghost use Rattle.asr_nodes.specs.Nodes.{Nodes, there};
ghost use Rattle.asr_nodes.specs.Parts.{expr_parts};
ghost use Rattle.ast_to_asr.specs.Building.{AddsOr, AreBuilt, IsBuilt, IsDeclared};
ghost use Rattle.ast_to_asr.specs.Sources.{expr_in, designator_in, part_in, parts_in, call_in};
ghost use Rattle.ast_to_asr.specs.Expressions.{unary_tree, paren_tree};
ghost use Rattle.fortran_semantics.specs.Constants.{Named};
ghost use Rattle.lf_base.specs.Operators.{operator_of};

pub mod function;
pub mod leaf;
pub mod operation;

use crate::names::{Names, ScalarType};
use asr_nodes::{Asr, Expr as Node};
use ast_nodes::{Designator, Expr, RefPart};
use function::function;
use leaf::{literal, logical, name};
use lf_base::{ExprId, Memory, Name};
use operation::{binary, paren, unary};
use sqlite_items::Items;

/// An expression of the typed tree, with its type and the kind that it writes as a literal.
#[derive(Clone, Copy, Debug, PartialEq, Eq)]
pub struct Built {
    pub id: ExprId,
    pub ty: ScalarType,
    pub writes: Option<u8>,
}

/// Where an expression stands: in the unit of this name, in which these names are declared so far.
#[derive(Clone, Copy)]
pub struct Here<'a> {
    pub unit: &'a Name,
    pub names: &'a Names,
}

/// Adds a node whose parts are there.
#[tactic(auto, using(crate::proofs::Builds::added))]
fn add(asr: &mut Asr, node: Node, ty: ScalarType) -> Result<Built, Memory>
    requires { there asr.old (expr_parts node) ≡ true }
    ensures { AddsOr asr.old asr.new node ty result }
{
    match asr.build_expr(node) {
        Ok(id) => Ok(Built {
            id,
            ty,
            writes: None,
        }),
        Err(Memory) => Err(Memory),
    }
}

/// Several expressions, where none breaks a rule.
#[cycle(build)]
#[tactic(auto, using(crate::proofs::Sources::several))]
fn expressions(asr: &mut Asr, here: Here, exprs: &[Expr]) -> Result<Option<Items<Built>>, Memory>
    requires { IsDeclared asr.old.scopes here.unit.now here.names.now }
    ensures { AreBuilt asr.old asr.new (map (expr_in here.entry.unit.now here.entry.names.now) exprs.now) result }
{
    let mut built = Items::new(asr.allocator());
    for expr in exprs {
        match expression(asr, here, expr)? {
            None => return Ok(None),
            Some(one) => built.push(one)?,
        }
    }
    Ok(Some(built))
}

/// A name with arguments behind it: a reference of a function. A scalar has no subscripts.
#[cycle(build)]
#[tactic(auto, using(crate::proofs::Sources::calls_built))]
fn call(asr: &mut Asr, here: Here, arguments: &[Expr], name: &[u8]) -> Result<Option<Built>, Memory>
    requires { IsDeclared asr.old.scopes here.unit.now here.names.now }
    ensures { IsBuilt asr.old asr.new (call_in here.entry.unit.now here.entry.names.now name.now (map (expr_in here.entry.unit.now here.entry.names.now) arguments.now)) result }
{
    if here.names.known(name).is_some() {
        return Ok(None);
    }
    match expressions(asr, here, arguments)? {
        None => Ok(None),
        Some(arguments) => function(asr, name, arguments.as_slice()),
    }
}

/// A name and the part behind it.
#[cycle(build)]
#[tactic(auto, using(crate::proofs::Sources::parts_built))]
fn with_part(
    asr: &mut Asr,
    here: Here,
    part: &RefPart,
    name: &[u8],
) -> Result<Option<Built>, Memory>
    requires { IsDeclared asr.old.scopes here.unit.now here.names.now }
    ensures { IsBuilt asr.old asr.new (parts_in here.entry.unit.now here.entry.names.now (Named name.now ∷ part_in here.entry.unit.now here.entry.names.now part.now ∷ [])) result }
{
    match part {
        RefPart::Part { .. } => Ok(None),
        RefPart::Group { arguments } => call(asr, here, arguments.as_slice(), name),
    }
}

#[cycle(build)]
#[tactic(auto, using(crate::proofs::Sources::parts_built))]
fn two_parts(
    asr: &mut Asr,
    here: Here,
    second: &RefPart,
    first: &RefPart,
) -> Result<Option<Built>, Memory>
    requires { IsDeclared asr.old.scopes here.unit.now here.names.now }
    ensures { IsBuilt asr.old asr.new (parts_in here.entry.unit.now here.entry.names.now (part_in here.entry.unit.now here.entry.names.now first.now ∷ part_in here.entry.unit.now here.entry.names.now second.now ∷ [])) result }
{
    match first {
        RefPart::Part { name } => with_part(asr, here, second, name.bytes()),
        RefPart::Group { .. } => Ok(None),
    }
}

#[tactic(auto, using(crate::proofs::Sources::parts_built))]
fn one_part(asr: &mut Asr, here: Here, part: &RefPart) -> Result<Option<Built>, Memory>
    requires { IsDeclared asr.old.scopes here.unit.now here.names.now }
    ensures { IsBuilt asr.old asr.new (parts_in here.entry.unit.now here.entry.names.now (part_in here.entry.unit.now here.entry.names.now part.now ∷ [])) result }
{
    match part {
        RefPart::Part { name: it } => name(asr, here, it.bytes()),
        RefPart::Group { .. } => Ok(None),
    }
}

/// A designator or a reference of a function (ISO/IEC 1539-1:2018, 9.1 and 15.5.1), as `expression`.
#[cycle(build)]
#[tactic(auto, using(crate::proofs::Sources::designators))]
pub fn designator(
    asr: &mut Asr,
    here: Here,
    designator: &Designator,
) -> Result<Option<Built>, Memory>
    requires { IsDeclared asr.old.scopes here.unit.now here.names.now }
    ensures { IsBuilt asr.old asr.new (designator_in here.entry.unit.now here.entry.names.now designator.now) result }
{
    match designator.parts.as_slice() {
        [] => Ok(None),
        [part] => one_part(asr, here, part),
        [first, second] => two_parts(asr, here, second, first),
        [_, _, _, ..] => Ok(None),
    }
}

#[cycle(build)]
#[tactic(auto, using(crate::proofs::Sources::operations))]
fn one_operand(asr: &mut Asr, here: Here, code: u8, operand: &Expr) -> Result<Option<Built>, Memory>
    requires { IsDeclared asr.old.scopes here.unit.now here.names.now }
    ensures { IsBuilt asr.old asr.new (unary_tree code (operator_of code) (expr_in here.entry.unit.now here.entry.names.now operand.now)) result }
{
    match expression(asr, here, operand)? {
        None => Ok(None),
        Some(operand) => unary(asr, code, operand),
    }
}

#[cycle(build)]
#[tactic(auto, using(crate::proofs::Sources::operations))]
fn parenthesized(asr: &mut Asr, here: Here, inner: &Expr) -> Result<Option<Built>, Memory>
    requires { IsDeclared asr.old.scopes here.unit.now here.names.now }
    ensures { IsBuilt asr.old asr.new (paren_tree (expr_in here.entry.unit.now here.entry.names.now inner.now)) result }
{
    match expression(asr, here, inner)? {
        None => Ok(None),
        Some(inner) => paren(asr, inner),
    }
}

/// Builds an expression of the source (ISO/IEC 1539-1:2018, 10.1), where it breaks no rule of names and types; what breaks
/// one is not built, and `judged` tells which. Each part is built once and stands at one place, and all that stood stays.
/// It fails only for want of memory.
#[cycle(build)]
#[tactic(auto, using(crate::proofs::Sources::layers, crate::proofs::Sources::operations))]
pub fn expression(asr: &mut Asr, here: Here, expr: &Expr) -> Result<Option<Built>, Memory>
    requires { IsDeclared asr.old.scopes here.unit.now here.names.now }
    ensures { IsBuilt asr.old asr.new (expr_in here.entry.unit.now here.entry.names.now expr.now) result }
{
    match expr {
        Expr::Int { digits, suffix } => literal(asr, digits.as_slice(), *suffix),
        Expr::Log { value } => logical(asr, *value),
        Expr::Ref { designator: it } => designator(asr, here, it),
        Expr::Unary { operator, operand } => one_operand(asr, here, *operator, operand.get()),
        Expr::Binary {
            operator,
            left,
            right,
        } => {
            let Some(left) = expression(asr, here, left.get())? else {
                return Ok(None);
            };
            match expression(asr, here, right.get())? {
                None => Ok(None),
                Some(right) => binary(asr, *operator, left, right),
            }
        }
        Expr::Paren { inner } => parenthesized(asr, here, inner.get()),
        Expr::Char { .. } => Ok(None),
        Expr::Triple { .. } => Ok(None),
        Expr::Array { .. } => Ok(None),
        Expr::Loop { .. } => Ok(None),
    }
}
