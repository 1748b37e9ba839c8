ghost use Rattle.std.specs.Prelude.{◌≡◌, IfOk};
ghost use Rattle.std.specs.Option.{option_map};
ghost use Rattle.ff_expressions.specs.Trees.{unary};
ghost use Rattle.ff_expressions.specs.Expressions.{joined, raised, to_left, at_most_two, left_level, sign_in_front, behind_first, behind_sign, with_sign, others_after, operand_of, power_of, sum_of, text_of, relation_of, negation_of, expression_of};

use crate::item::{Item, Mark, Parsed};
use crate::level::{Level, nearest, operator_in_front, take_operand};
use crate::piece::stands;
use crate::primary::primary;
use crate::queue::Queue;
use crate::tree::{binary, unary};
use lf_base::{Memory, operator};
use std::alloc::Global;

fn joined(
    alloc: Global,
    operator: u8,
    left: Option<Parsed>,
    right: Option<Parsed>,
) -> Result<Option<Parsed>, Memory>
    ensures { IfOk result (λ r. r ≡ joined operator left right) }
{
    let Some(left) = left else {
        return Ok(None);
    };
    let Some(right) = right else {
        return Ok(None);
    };
    let value = binary(alloc, operator, left, right)?;
    Ok(Some(value))
}

fn signed(alloc: Global, operator: u8, value: Option<Parsed>) -> Result<Option<Parsed>, Memory>
    ensures { IfOk result (λ r. r ≡ option_map (unary operator) value) }
{
    match value {
        Some(value) => Ok(Some(unary(alloc, operator, value)?)),
        None => Ok(None),
    }
}

fn with_sign(
    alloc: Global,
    sign: Option<u8>,
    value: Option<Parsed>,
) -> Result<Option<Parsed>, Memory>
    ensures { IfOk result (λ r. r ≡ with_sign sign value) }
{
    match sign {
        Some(operator) => signed(alloc, operator, value),
        None => Ok(value),
    }
}

/// Lets the first item go.
pub fn pass(items: &mut Queue<Item>)
    ensures { items.new ≡ behind_first items.old }
{
    match items.take() {
        Some(_) | None => {}
    }
}

fn take_sign(items: &mut Queue<Item>) -> Option<u8>
    ensures sign { result ≡ sign_in_front items.old }
    ensures rest { items.new ≡ behind_sign result items.old }
{
    let sign = operator_in_front(Level::Addition, items);
    if sign.is_some() {
        pass(items);
    }
    sign
}

fn raised(
    alloc: Global,
    mut bases: Queue<(Option<Parsed>, u8)>,
    exponent: Option<Parsed>,
) -> Result<Option<Parsed>, Memory>
    ensures { IfOk result (λ r. r ≡ raised bases exponent) }
{
    let mut value = exponent;
    while let Some((base, operator)) = bases.take() {
        value = joined(alloc, operator, base, value)?;
    }
    Ok(value)
}

#[tactic(auto, unfolding(crate::specs::Expressions::power_of))]
fn power(alloc: Global, mut items: Queue<Item>) -> Result<Option<Parsed>, Memory>
    ensures { IfOk result (λ r. r ≡ power_of items) }
{
    let mut bases = Queue::new(alloc);
    let (mut operand, mut operator) = take_operand(alloc, Level::Power, &mut items)?;
    while let Some(code) = operator {
        let base = primary(alloc, operand)?;
        bases.put_first((base, code))?;
        let (next, next_operator) = take_operand(alloc, Level::Power, &mut items)?;
        operand = next;
        operator = next_operator;
    }
    let exponent = primary(alloc, operand)?;
    raised(alloc, bases, exponent)
}

// The operands of a level that associates to the left, behind the first.
#[cycle(level)]
fn to_left(
    alloc: Global,
    level: Level,
    first: Option<Parsed>,
    first_operator: Option<u8>,
    mut items: Queue<Item>,
) -> Result<Option<Parsed>, Memory>
    ensures { IfOk result (λ r. r ≡ to_left (operand_of level) first (others_after level first_operator items)) }
{
    let mut left = first;
    let mut operator = first_operator;
    while let Some(code) = operator {
        let (next, next_operator) = take_operand(alloc, level, &mut items)?;
        let right = operand(alloc, level, next)?;
        left = joined(alloc, code, left, right)?;
        operator = next_operator;
    }
    Ok(left)
}

#[cycle(level)]
fn left_level(alloc: Global, level: Level, mut items: Queue<Item>) -> Result<Option<Parsed>, Memory>
    ensures { IfOk result (λ r. r ≡ left_level level (operand_of level) items) }
{
    let (first, operator) = take_operand(alloc, level, &mut items)?;
    let left = operand(alloc, level, first)?;
    to_left(alloc, level, left, operator, items)
}

#[cycle(level)]
#[tactic(auto, unfolding(crate::specs::Expressions::sum_of))]
fn sum(alloc: Global, mut items: Queue<Item>) -> Result<Option<Parsed>, Memory>
    ensures { IfOk result (λ r. r ≡ sum_of items) }
{
    let sign = take_sign(&mut items);
    let (first, operator) = take_operand(alloc, Level::Addition, &mut items)?;
    let first = operand(alloc, Level::Addition, first)?;
    let left = with_sign(alloc, sign, first)?;
    to_left(alloc, Level::Addition, left, operator, items)
}

#[cycle(level)]
fn related(
    alloc: Global,
    left: Option<Parsed>,
    operator: Option<u8>,
    mut items: Queue<Item>,
) -> Result<Option<Parsed>, Memory>
    ensures { IfOk result (λ r. r ≡ at_most_two text_of left (others_after Level.Relation operator items)) }
{
    let Some(code) = operator else {
        return Ok(left);
    };
    let (second, more) = take_operand(alloc, Level::Relation, &mut items)?;
    if more.is_some() {
        return Ok(None);
    }
    let right = operand(alloc, Level::Relation, second)?;
    joined(alloc, code, left, right)
}

#[cycle(level)]
#[tactic(auto, unfolding(crate::specs::Expressions::relation_of))]
fn relation(alloc: Global, mut items: Queue<Item>) -> Result<Option<Parsed>, Memory>
    ensures { IfOk result (λ r. r ≡ relation_of items) }
{
    let (first, operator) = take_operand(alloc, Level::Relation, &mut items)?;
    let left = operand(alloc, Level::Relation, first)?;
    related(alloc, left, operator, items)
}

#[cycle(level)]
#[tactic(auto, unfolding(crate::specs::Expressions::negation_of))]
fn negation(alloc: Global, mut items: Queue<Item>) -> Result<Option<Parsed>, Memory>
    ensures { IfOk result (λ r. r ≡ negation_of items) }
{
    let not = Mark::Operator {
        code: operator::NOT,
    };
    if !stands(not, &items, 0) {
        return relation(alloc, items);
    }
    pass(&mut items);
    let operand = relation(alloc, items)?;
    signed(alloc, operator::NOT, operand)
}

// What stands between the operators of a level.
#[cycle(level)]
#[tactic(auto, unfolding(crate::specs::Expressions::disjunction_of, crate::specs::Expressions::conjunction_of, crate::specs::Expressions::text_of, crate::specs::Expressions::term_of))]
fn operand(alloc: Global, level: Level, items: Queue<Item>) -> Result<Option<Parsed>, Memory>
    ensures { IfOk result (λ r. r ≡ operand_of level items) }
{
    match nearest(level, &items) {
        Level::Equivalence => left_level(alloc, Level::Disjunction, items),
        Level::Disjunction => left_level(alloc, Level::Conjunction, items),
        Level::Conjunction => negation(alloc, items),
        Level::Relation => left_level(alloc, Level::Concatenation, items),
        Level::Concatenation => sum(alloc, items),
        Level::Addition => left_level(alloc, Level::Multiplication, items),
        Level::Multiplication => power(alloc, items),
        Level::Power => primary(alloc, items),
    }
}

/// The expression that the items are, and none where they are none (ISO/IEC 1539-1:2018, 10.1.2).
#[tactic(auto, unfolding(crate::specs::Expressions::expression_of))]
pub fn expression(alloc: Global, items: Queue<Item>) -> Result<Option<Parsed>, Memory>
    ensures { IfOk result (λ r. r ≡ expression_of items) }
{
    left_level(alloc, Level::Equivalence, items)
}
