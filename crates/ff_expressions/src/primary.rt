ghost use Rattle.std.specs.Prelude.{◌≡◌, IfOk, slice_get};
ghost use Rattle.std.specs.Option.{option_map};
ghost use Rattle.ff_expressions.specs.Expressions.{plain, loop_with, loop_over, loop_of, paren_of, array_with, array_of, group_alone, literal, literal_alone, is_name, reference_of, primary_of};
ghost use Rattle.ff_expressions.specs.Pieces.{there};
ghost use Rattle.ff_expressions.specs.Trees.{paren, as_expression};

use crate::designator::{as_expression, reference};
use crate::group::{Arguments, GroupRole, plains, values};
use crate::item::{Bracket, Item, Parsed, Part};
use crate::queue::Queue;
use crate::tree::{array, implied_do, leaf, paren};
use ast_nodes::Expr;
use lf_base::{Memory, Name};
use std::alloc::Global;

fn loop_with(
    alloc: Global,
    items: Arguments,
    variable: Name,
    lower: Parsed,
    mut bounds: Queue<Parsed>,
) -> Result<Option<Parsed>, Memory>
    ensures { IfOk result (λ r. r ≡ loop_with items variable lower bounds) }
{
    let Some(upper) = bounds.take() else {
        return Ok(None);
    };
    let step = bounds.take();
    if bounds.len() > 0 {
        return Ok(None);
    }
    let value = implied_do(alloc, variable, lower, upper, step, items)?;
    Ok(Some(value))
}

fn loop_over(
    alloc: Global,
    elements: Arguments,
    variable: Name,
    lower: Option<Parsed>,
    bounds: Queue<Part>,
) -> Result<Option<Parsed>, Memory>
    ensures { IfOk result (λ r. r ≡ loop_over elements variable lower bounds) }
{
    let Some(lower) = lower else {
        return Ok(None);
    };
    if elements.list.len() == 0 {
        return Ok(None);
    }
    match plains(alloc, bounds)? {
        Some(bounds) => loop_with(alloc, elements, variable, lower, bounds),
        None => Ok(None),
    }
}

/// The implied do that the parts of a group are (ISO/IEC 1539-1:2018, R774, R1218).
pub fn loop_of(alloc: Global, mut parts: Queue<Part>) -> Result<Option<Parsed>, Memory>
    ensures { IfOk result (λ r. r ≡ loop_of parts) }
{
    let mut items = Arguments::none(alloc);
    while let Some(part) = parts.take() {
        match part {
            Part::Plain { value } | Part::Implied { value } => items = items.with(value)?,
            Part::Keyed { name, value } => return loop_over(alloc, items, name, value, parts),
            Part::Star | Part::Section { .. } => return Ok(None),
        }
    }
    Ok(None)
}

fn paren_of(alloc: Global, mut parts: Queue<Part>) -> Result<Option<Parsed>, Memory>
    ensures { IfOk result (λ r. r ≡ paren_of parts) }
{
    let Some(first) = parts.take() else {
        return Ok(None);
    };
    if parts.len() > 0 {
        return Ok(None);
    }
    paren_in(alloc, first)
}

fn paren_in(alloc: Global, part: Part) -> Result<Option<Parsed>, Memory>
    ensures { IfOk result (λ r. r ≡ option_map paren (plain part)) }
{
    match part {
        Part::Plain { value } => Ok(Some(paren(alloc, value)?)),
        Part::Star | Part::Implied { .. } | Part::Section { .. } | Part::Keyed { .. } => Ok(None),
    }
}

fn array_of(alloc: Global, parts: Queue<Part>) -> Result<Option<Parsed>, Memory>
    ensures { IfOk result (λ r. r ≡ array_of parts) }
{
    match values(alloc, GroupRole::Element, parts)? {
        Some(items) => Ok(array_with(alloc, items)),
        None => Ok(None),
    }
}

fn array_with(alloc: Global, items: Arguments) -> Option<Parsed>
    ensures { result ≡ array_with items }
{
    if items.list.len() == 0 {
        return None;
    }
    Some(array(alloc, items))
}

fn group_alone(
    alloc: Global,
    bracket: Bracket,
    parts: Queue<Part>,
) -> Result<Option<Parsed>, Memory>
    ensures { IfOk result (λ r. r ≡ group_alone bracket parts) }
{
    match bracket {
        Bracket::Round => paren_of(alloc, parts),
        Bracket::Square => array_of(alloc, parts),
    }
}

fn literal(alloc: Global, item: Item) -> Result<Option<Parsed>, Memory>
    ensures { IfOk result (λ r. r ≡ literal item) }
{
    match item {
        Item::Number { digits, suffix } => Ok(Some(leaf(Expr::Int { digits, suffix }))),
        Item::Truth { value } => Ok(Some(leaf(Expr::Log { value }))),
        Item::Text { bytes } => Ok(Some(leaf(Expr::Char { bytes }))),
        Item::Group { bracket, parts } => group_alone(alloc, bracket, parts),
        Item::Word { .. } | Item::Mark { .. } => Ok(None),
    }
}

fn literal_alone(alloc: Global, mut items: Queue<Item>) -> Result<Option<Parsed>, Memory>
    ensures { IfOk result (λ r. r ≡ literal_alone items) }
{
    let Some(first) = items.take() else {
        return Ok(None);
    };
    if items.len() > 0 {
        return Ok(None);
    }
    literal(alloc, first)
}

fn is_name(item: &Item) -> bool
    ensures { result ≡ is_name item.now }
{
    match item {
        Item::Word { .. } => true,
        Item::Number { .. }
        | Item::Truth { .. }
        | Item::Text { .. }
        | Item::Mark { .. }
        | Item::Group { .. } => false,
    }
}

fn begins_with_name(items: &Queue<Item>) -> bool
    ensures { result ≡ there is_name (slice_get items.now 0) }
{
    match items.get(0) {
        Some(first) => is_name(first),
        None => false,
    }
}

fn named(alloc: Global, items: Queue<Item>) -> Result<Option<Parsed>, Memory>
    ensures { IfOk result (λ r. r ≡ option_map as_expression (reference_of items)) }
{
    match reference(alloc, items)? {
        Some(reference) => Ok(Some(as_expression(reference))),
        None => Ok(None),
    }
}

/// The primary that the items are (ISO/IEC 1539-1:2018, R1001).
#[tactic(auto, unfolding(crate::specs::Expressions::primary_of))]
pub fn primary(alloc: Global, items: Queue<Item>) -> Result<Option<Parsed>, Memory>
    ensures { IfOk result (λ r. r ≡ primary_of items) }
{
    if begins_with_name(&items) {
        return named(alloc, items);
    }
    literal_alone(alloc, items)
}
