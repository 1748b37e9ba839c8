ghost use Rattle.std.specs.Prelude.{◌≡◌, ◌≤◌, List, length, slice_get, max, IfOk};
ghost use Rattle.std.specs.List.{list_any};
ghost use Rattle.ff_expressions.specs.Pieces.{there};
ghost use Rattle.ff_expressions.specs.Expressions.{belongs, operator_of, operator_at, operator_in, is_at, first_operand, other_operands, others_after, still_left, operand_of};
ghost use Rattle.ff_expressions.specs.Binding.{rank, tighter, looseness_of, looseness_in, looseness, looseness_at, loosest};

use crate::item::{Item, Mark};
use crate::queue::Queue;
use lf_base::{Memory, operator};
use std::alloc::Global;

/// The levels of operators, from the one that binds least (ISO/IEC 1539-1:2018, 10.1.2).
#[derive(Clone, Copy)]
pub enum Level {
    Equivalence,
    Disjunction,
    Conjunction,
    Relation,
    Concatenation,
    Addition,
    Multiplication,
    Power,
}

fn belongs(level: Level, code: u8) -> bool
    ensures { result ≡ belongs level code }
{
    match level {
        Level::Equivalence => code == operator::EQV || code == operator::NEQV,
        Level::Disjunction => code == operator::OR,
        Level::Conjunction => code == operator::AND,
        Level::Relation => {
            code == operator::EQ
                || code == operator::NE
                || code == operator::LT
                || code == operator::LE
                || code == operator::GT
                || code == operator::GE
        }
        Level::Concatenation => code == operator::CONCATENATE,
        Level::Addition => code == operator::ADD || code == operator::SUBTRACT,
        Level::Multiplication => code == operator::MULTIPLY || code == operator::DIVIDE,
        Level::Power => code == operator::POWER,
    }
}

fn operator_of(level: Level, mark: Mark) -> Option<u8>
    ensures { result ≡ operator_of level mark }
{
    match mark {
        Mark::Operator { code } => {
            if belongs(level, code) {
                return Some(code);
            }
            None
        }
        Mark::Comma
        | Mark::Colon
        | Mark::DoubleColon
        | Mark::Equals
        | Mark::Arrow
        | Mark::Percent => None,
    }
}

// The operator that an item is, if it is one of this level.
fn operator_at(level: Level, item: &Item) -> Option<u8>
    ensures { result ≡ operator_at level item.now }
{
    match item {
        Item::Mark { mark } => operator_of(level, *mark),
        Item::Word { .. }
        | Item::Number { .. }
        | Item::Truth { .. }
        | Item::Text { .. }
        | Item::Group { .. } => None,
    }
}

/// The operator in front, if it is one of this level.
pub fn operator_in_front(level: Level, items: &Queue<Item>) -> Option<u8>
    ensures { result ≡ operator_in level (slice_get items.now 0) }
{
    match items.get(0) {
        Some(first) => operator_at(level, first),
        None => None,
    }
}

fn is_at(level: Level, items: &Queue<Item>, at: usize) -> bool
    ensures { result ≡ there (is_at level) (slice_get items.now at) }
{
    match items.get(at) {
        Some(there) => operator_at(level, there).is_some(),
        None => false,
    }
}

fn has_operator(level: Level, items: &Queue<Item>) -> bool
    ensures { result ≡ list_any (is_at level) items.now }
{
    for at in 0..items.len() {
        if is_at(level, items, at) {
            return true;
        }
    }
    false
}

fn split_operand(
    alloc: Global,
    level: Level,
    items: &mut Queue<Item>,
) -> Result<(Queue<Item>, Option<u8>), Memory>
    ensures operand { IfOk result (λ r. r.0 ≡ first_operand level items.old) }
    ensures others { IfOk result (λ r. others_after level r.1 items.new ≡ other_operands level items.old) }
    ensures shorter { IfOk result (λ r. still_left r.1 items.new ≤ length items.old) }
{
    let mut operand = Queue::new(alloc);
    while let Some(item) = items.take() {
        if let Some(code) = operator_at(level, &item) {
            return Ok((operand, Some(code)));
        }
        operand.push(item)?;
    }
    Ok((operand, None))
}

/// Takes the items in front of the next operator of the level, and that operator.
pub fn take_operand(
    alloc: Global,
    level: Level,
    items: &mut Queue<Item>,
) -> Result<(Queue<Item>, Option<u8>), Memory>
    ensures operand { IfOk result (λ r. r.0 ≡ first_operand level items.old) }
    ensures others { IfOk result (λ r. others_after level r.1 items.new ≡ other_operands level items.old) }
    ensures shorter { IfOk result (λ r. still_left r.1 items.new ≤ length items.old) }
{
    if has_operator(level, items) {
        return split_operand(alloc, level, items);
    }
    let all = std::mem::replace(items, Queue::new(alloc));
    Ok((all, None))
}

// The place of a level in this order, from the tightest.
fn rank(level: Level) -> u8
    ensures { result ≡ rank level }
{
    match level {
        Level::Power => 0,
        Level::Multiplication => 1,
        Level::Addition => 2,
        Level::Concatenation => 3,
        Level::Relation => 4,
        Level::Conjunction => 5,
        Level::Disjunction => 6,
        Level::Equivalence => 7,
    }
}

fn tighter(level: Level) -> Level
    ensures { result ≡ tighter level }
{
    match level {
        Level::Power | Level::Multiplication => Level::Power,
        Level::Addition => Level::Multiplication,
        Level::Concatenation => Level::Addition,
        Level::Relation => Level::Concatenation,
        Level::Conjunction => Level::Relation,
        Level::Disjunction => Level::Conjunction,
        Level::Equivalence => Level::Disjunction,
    }
}

// One more than the rank of the level that takes an operator away: 8 for the loosest, 1 for the tightest.
fn looseness_of(code: u8) -> u8
    ensures { result ≡ looseness_of code }
{
    if belongs(Level::Equivalence, code) {
        return 8;
    }
    if belongs(Level::Disjunction, code) {
        return 7;
    }
    if belongs(Level::Conjunction, code) {
        return 6;
    }
    if code == operator::NOT || belongs(Level::Relation, code) {
        return 5;
    }
    if belongs(Level::Concatenation, code) {
        return 4;
    }
    if belongs(Level::Addition, code) {
        return 3;
    }
    if belongs(Level::Multiplication, code) {
        return 2;
    }
    1
}

fn looseness_in(mark: Mark) -> u8
    ensures { result ≡ looseness_in mark }
{
    match mark {
        Mark::Operator { code } => looseness_of(code),
        Mark::Comma
        | Mark::Colon
        | Mark::DoubleColon
        | Mark::Equals
        | Mark::Arrow
        | Mark::Percent => 0,
    }
}

fn looseness(item: &Item) -> u8
    ensures { result ≡ looseness item.now }
{
    match item {
        Item::Mark { mark } => looseness_in(*mark),
        Item::Word { .. }
        | Item::Number { .. }
        | Item::Truth { .. }
        | Item::Text { .. }
        | Item::Group { .. } => 0,
    }
}

fn looseness_at(items: &Queue<Item>, at: usize) -> u8
    ensures { result ≡ looseness_at (slice_get items.now at) }
{
    match items.get(at) {
        Some(item) => looseness(item),
        None => 0,
    }
}

fn looser(one: u8, other: u8) -> u8
    ensures { result ≡ max one other }
{
    one.max(other)
}

fn loosest(items: &Queue<Item>) -> u8
    ensures { result ≡ loosest items.now }
{
    let mut found = 0;
    for at in 0..items.len() {
        found = looser(found, looseness_at(items, at));
    }
    found
}

/// The tightest level whose operand these items are where they are one of this level: the levels between have no operator in them.
pub fn nearest(level: Level, items: &Queue<Item>) -> Level
    ensures same { operand_of result items.now ≡ operand_of level items.now }
    ensures tighter { rank result ≤ rank level }
{
    let looseness = loosest(items);
    let mut level = level;
    while looseness < rank(level) {
        level = tighter(level);
    }
    level
}
