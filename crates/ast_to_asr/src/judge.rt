//! Expressions by the rules of names and types: what is told of each, or the least rule that it breaks.
ghost use Rattle.std.specs.Prelude.{◌≡◌, map, List, ℕ, Ok, Err, None};
ghost use Rattle.ast_to_asr.specs.Expressions.{elab_expr, elab_designator};
ghost use Rattle.ast_to_asr.specs.Facts.{seen, Designates, name_told, call_told, function_told, function_of, int_told, huge_told, no_arguments, joined_from, least_from, alone, grouped, referenced, part_told, expr_told, designator_told};
ghost use Rattle.ast_to_asr.specs.Judged.{map_right};
ghost use Rattle.ast_to_asr.specs.Known.{known_in, scope_of};
ghost use Rattle.fortran_semantics.specs.Constants.{intrinsic_named};

pub(crate) mod functions;
pub(crate) mod literal;
pub(crate) mod operation;
mod rules;

use crate::facts::Facts;
use crate::judge::functions::{
    Joined, called, huge, int_of_one, int_of_two, integer_argument, intrinsic_named, is_huge,
    is_int, is_intrinsic, joined_next, no_arguments, takes,
};
use crate::judge::literal::literal;
use crate::judge::operation::{binary, in_parentheses, plain, unary};
use crate::judge::rules::also;
use crate::names::{Known, Names, ScalarType};
use ast_nodes::{Designator, Expr, RefPart};
use lf_base::Rule;

/// The least of a rule and of those that arguments break.
#[cycle(judge)]
fn least(names: &Names, rule: Rule, arguments: &[Expr]) -> Rule
    ensures { result ≡ least_from rule (map (expr_told names.now) arguments.now) }
{
    let mut least = rule;
    for argument in arguments {
        least = also(least, told(names, argument));
    }
    least
}

/// Arguments that are to be integers.
#[cycle(judge)]
fn integers(names: &Names, arguments: &[Expr]) -> Result<Joined, Rule>
    ensures { result ≡ joined_from (Ok no_arguments) (map (expr_told names.now) arguments.now) }
{
    let mut so_far = Ok(no_arguments());
    for argument in arguments {
        so_far = joined_next(so_far, integer_argument(told(names, argument)));
    }
    so_far
}

/// A function that is computed by its arguments' values, by its code.
#[cycle(judge)]
fn function_of(names: &Names, code: u8, arguments: &[Expr]) -> Result<Facts, Rule>
    ensures { result ≡ function_of code (map (expr_told names.now) arguments.now) }
{
    if takes(code, arguments.len()) {
        called(integers(names, arguments))
    } else {
        Err(least(names, Rule::E405, arguments))
    }
}

#[cycle(judge)]
fn int(names: &Names, arguments: &[Expr]) -> Result<Facts, Rule>
    ensures { result ≡ int_told (map (expr_told names.now) arguments.now) }
{
    match arguments {
        [] => Err(Rule::E405),
        [argument] => int_of_one(told(names, argument)),
        [argument, kind] => int_of_two(told(names, argument), told(names, kind)),
        [_, _, _, ..] => Err(least(names, Rule::E405, arguments)),
    }
}

#[cycle(judge)]
fn huge_of(names: &Names, arguments: &[Expr]) -> Result<Facts, Rule>
    ensures { result ≡ huge_told (map (expr_told names.now) arguments.now) }
{
    match arguments {
        [] => Err(Rule::E405),
        [argument] => huge(told(names, argument)),
        [_, _, ..] => Err(least(names, Rule::E405, arguments)),
    }
}

/// A function by its name. What is none that is known here is not declared.
#[cycle(judge)]
fn function(names: &Names, name: &[u8], arguments: &[Expr]) -> Result<Facts, Rule>
    ensures { result ≡ function_told name.now (map (expr_told names.now) arguments.now) (intrinsic_named name.now) }
{
    match intrinsic_named(name) {
        Some(code) => function_of(names, code, arguments),
        None => {
            if is_int(name) {
                int(names, arguments)
            } else if is_huge(name) {
                huge_of(names, arguments)
            } else {
                Err(least(names, Rule::E304, arguments))
            }
        }
    }
}

/// A name with arguments behind it. A scalar has no subscripts.
#[cycle(judge)]
fn call(names: &Names, name: &[u8], arguments: &[Expr]) -> Result<Facts, Rule>
    ensures { result ≡ call_told name.now (map (expr_told names.now) arguments.now) (known_in names.now name.now) }
{
    match names.known(name) {
        None => function(names, name, arguments),
        Some(_) => Err(least(names, Rule::E404, arguments)),
    }
}

fn undeclared(name: &[u8]) -> Rule
    ensures { Err result ≡ name_told name.now None }
{
    if is_intrinsic(name) {
        Rule::E414
    } else {
        Rule::E304
    }
}

/// A name alone: a variable or a named constant.
fn name_alone(names: &Names, name: &[u8]) -> Result<Facts, Rule>
    ensures { result ≡ name_told name.now (known_in names.now name.now) }
{
    match names.known(name) {
        Some(Known::Variable { symbol, ty }) => Ok(Facts {
            ty,
            writes: None,
            variable: Some(symbol),
            is_constant: false,
        }),
        Some(Known::NamedConstant { ty, .. }) => Ok(plain(ty, true)),
        None => Err(undeclared(name)),
    }
}

#[tactic(auto, using(crate::proofs::Told::parts))]
fn alone(names: &Names, part: &RefPart) -> Result<Facts, Rule>
    ensures { result ≡ alone names.now (part_told names.now part.now) }
{
    match part {
        RefPart::Part { name } => name_alone(names, name.bytes()),
        RefPart::Group { .. } => Err(Rule::E202),
    }
}

#[cycle(judge)]
#[tactic(auto, using(crate::proofs::Told::parts))]
fn grouped(names: &Names, name: &[u8], part: &RefPart) -> Result<Facts, Rule>
    ensures { result ≡ grouped names.now name.now (part_told names.now part.now) }
{
    match part {
        RefPart::Part { .. } => Err(Rule::E202),
        RefPart::Group { arguments } => call(names, name, arguments.as_slice()),
    }
}

#[cycle(judge)]
#[tactic(auto, using(crate::proofs::Told::parts))]
fn referenced(names: &Names, group: &RefPart, part: &RefPart) -> Result<Facts, Rule>
    ensures { result ≡ referenced names.now (part_told names.now part.now) (part_told names.now group.now) }
{
    match part {
        RefPart::Part { name } => grouped(names, name.bytes(), group),
        RefPart::Group { .. } => Err(Rule::E202),
    }
}

#[cycle(judge)]
fn designator_told(names: &Names, designator: &Designator) -> Result<Facts, Rule>
    ensures { result ≡ designator_told names.now designator.now }
{
    match designator.parts.as_slice() {
        [] => Err(Rule::E202),
        [part] => alone(names, part),
        [part, group] => referenced(names, group, part),
        [_, _, _, ..] => Err(Rule::E202),
    }
}

#[cycle(judge)]
fn told(names: &Names, expr: &Expr) -> Result<Facts, Rule>
    ensures { result ≡ expr_told names.now expr.now }
{
    match expr {
        Expr::Int { digits, suffix } => literal(digits.as_slice(), *suffix),
        Expr::Log { .. } => Ok(plain(ScalarType::Logical, true)),
        Expr::Ref { designator } => designator_told(names, designator),
        Expr::Unary { operator, operand } => unary(*operator, told(names, operand.get())),
        Expr::Binary {
            operator,
            left,
            right,
        } => binary(*operator, told(names, left.get()), told(names, right.get())),
        Expr::Paren { inner } => in_parentheses(told(names, inner.get())),
        Expr::Char { .. } | Expr::Triple { .. } | Expr::Array { .. } | Expr::Loop { .. } => Err(
            Rule::E202,
        ),
    }
}

/// The facts of an expression (ISO/IEC 1539-1:2018, 10.1), or the least rule that it breaks, by the names that are declared
/// so far. It takes no memory, and each part is judged once.
pub fn judged(names: &Names, expr: &Expr) -> Result<Facts, Rule>
    ensures { (unit : List ℕ) → result ≡ map_right (seen names.now) (elab_expr unit (scope_of names.now) expr.now) }
{
    told(names, expr)
}

/// The same of a designator (ISO/IEC 1539-1:2018, 9.1). It designates a variable only where it is a name alone that is known
/// for one, of this symbol and this type.
pub fn judged_designator(names: &Names, designator: &Designator) -> Result<Facts, Rule>
    ensures variable { Designates names.now designator.now.parts result }
    ensures exact { (unit : List ℕ) → result ≡ map_right (seen names.now) (elab_designator unit (scope_of names.now) designator.now) }
{
    designator_told(names, designator)
}
