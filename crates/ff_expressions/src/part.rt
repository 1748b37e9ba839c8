ghost use Rattle.std.specs.Prelude.{◌≡◌, slice_get, IfOk};
ghost use Rattle.std.specs.Option.{option_map};
ghost use Rattle.ff_expressions.specs.Pieces.{there, each};
ghost use Rattle.ff_expressions.specs.Expressions.{has_several, is_several, is_loop, loop_in, loop_alone, expression_of, output_of};
ghost use Rattle.ff_expressions.specs.Items.{is_star, is_keyed, keyed_with, keyed_by, keyed_of, bound_of, step_of, section_with, section_of, value_part, part_of, parts_of};

use crate::item::{Bracket, Item, Mark, Parsed, Part, Stride};
use crate::operators::{expression, pass};
use crate::piece::{has_colon, pieces, single_colons, stands};
use crate::primary::loop_of;
use crate::queue::Queue;
use lf_base::{Memory, Name, operator};
use std::alloc::Global;

fn is_star(items: &Queue<Item>) -> bool
    ensures { result ≡ is_star items.now }
{
    let times = Mark::Operator {
        code: operator::MULTIPLY,
    };
    items.len() == 1 && stands(times, items, 0)
}

fn is_keyed(items: &Queue<Item>) -> bool
    ensures { result ≡ is_keyed items.now }
{
    stands(Mark::Equals, items, 1)
}

fn has_several(bracket: Bracket, parts: &Queue<Part>) -> bool
    ensures { result ≡ has_several bracket parts.now }
{
    match bracket {
        Bracket::Round => parts.len() > 1,
        Bracket::Square => false,
    }
}

fn is_several(item: &Item) -> bool
    ensures { result ≡ is_several item.now }
{
    match item {
        Item::Group { bracket, parts } => has_several(*bracket, parts),
        Item::Word { .. }
        | Item::Number { .. }
        | Item::Truth { .. }
        | Item::Text { .. }
        | Item::Mark { .. } => false,
    }
}

fn begins_with_several(items: &Queue<Item>) -> bool
    ensures { result ≡ there is_several (slice_get items.now 0) }
{
    match items.get(0) {
        Some(first) => is_several(first),
        None => false,
    }
}

fn is_loop(items: &Queue<Item>) -> bool
    ensures { result ≡ is_loop items.now }
{
    items.len() == 1 && begins_with_several(items)
}

fn loop_in(alloc: Global, item: Item) -> Result<Option<Parsed>, Memory>
    ensures { IfOk result (λ r. r ≡ loop_in item) }
{
    match item {
        Item::Group { parts, .. } => loop_of(alloc, parts),
        Item::Word { .. }
        | Item::Number { .. }
        | Item::Truth { .. }
        | Item::Text { .. }
        | Item::Mark { .. } => Ok(None),
    }
}

fn loop_alone(alloc: Global, mut items: Queue<Item>) -> Result<Option<Parsed>, Memory>
    ensures { IfOk result (λ r. r ≡ loop_alone items) }
{
    match items.take() {
        Some(first) => loop_in(alloc, first),
        None => Ok(None),
    }
}

/// The item of a list to be written: an expression or an implied do (ISO/IEC 1539-1:2018, R1217).
pub fn output(alloc: Global, items: Queue<Item>) -> Result<Option<Parsed>, Memory>
    ensures { IfOk result (λ r. r ≡ output_of items) }
{
    if is_loop(&items) {
        return loop_alone(alloc, items);
    }
    expression(alloc, items)
}

fn keyed_with(alloc: Global, name: Name, value: Queue<Item>) -> Result<Option<Part>, Memory>
    ensures { IfOk result (λ r. r ≡ keyed_with name value) }
{
    if is_star(&value) {
        return Ok(Some(Part::Keyed { name, value: None }));
    }
    match expression(alloc, value)? {
        Some(value) => Ok(Some(Part::Keyed {
            name,
            value: Some(value),
        })),
        None => Ok(None),
    }
}

fn keyed_by(alloc: Global, first: Item, mut items: Queue<Item>) -> Result<Option<Part>, Memory>
    ensures { IfOk result (λ r. r ≡ keyed_by first items) }
{
    match first {
        Item::Word { name } => {
            pass(&mut items);
            keyed_with(alloc, name, items)
        }
        Item::Number { .. }
        | Item::Truth { .. }
        | Item::Text { .. }
        | Item::Mark { .. }
        | Item::Group { .. } => Ok(None),
    }
}

fn keyed(alloc: Global, mut items: Queue<Item>) -> Result<Option<Part>, Memory>
    ensures { IfOk result (λ r. r ≡ keyed_of items) }
{
    match items.take() {
        Some(first) => keyed_by(alloc, first, items),
        None => Ok(None),
    }
}

fn bound(alloc: Global, items: Queue<Item>) -> Result<Option<Option<Parsed>>, Memory>
    ensures { IfOk result (λ r. r ≡ bound_of items) }
{
    if items.len() == 0 {
        return Ok(Some(None));
    }
    match expression(alloc, items)? {
        Some(value) => Ok(Some(Some(value))),
        None => Ok(None),
    }
}

#[tactic(auto, using(crate::proofs::Gathering::gathering))]
fn bounds(
    alloc: Global,
    mut pieces: Queue<Queue<Item>>,
) -> Result<Option<Queue<Option<Parsed>>>, Memory>
    ensures { IfOk result (λ r. r ≡ each bound_of pieces) }
{
    let mut done = Queue::with_capacity(alloc, pieces.len())?;
    while let Some(piece) = pieces.take() {
        match bound(alloc, piece)? {
            Some(value) => done.push(value)?,
            None => return Ok(None),
        }
    }
    Ok(Some(done))
}

fn step_of(step: Option<Parsed>) -> Stride
    ensures { result ≡ step_of step }
{
    match step {
        Some(value) => Stride::Given { value },
        None => Stride::Missing,
    }
}

fn section_with(mut bounds: Queue<Option<Parsed>>) -> Option<Part>
    ensures { result ≡ section_with bounds }
{
    let lower = bounds.take()?;
    let upper = bounds.take()?;
    let Some(step) = bounds.take() else {
        return Some(Part::Section {
            lower,
            upper,
            step: Stride::Absent,
        });
    };
    if bounds.len() > 0 {
        return None;
    }
    let step = step_of(step);
    Some(Part::Section { lower, upper, step })
}

fn section(alloc: Global, items: Queue<Item>) -> Result<Option<Part>, Memory>
    ensures { IfOk result (λ r. r ≡ section_of items) }
{
    let items = single_colons(alloc, items)?;
    let pieces = pieces(alloc, items, Mark::Colon)?;
    match bounds(alloc, pieces)? {
        Some(bounds) => Ok(section_with(bounds)),
        None => Ok(None),
    }
}

fn implied(alloc: Global, items: Queue<Item>) -> Result<Option<Part>, Memory>
    ensures { IfOk result (λ r. r ≡ option_map Part.Implied (loop_alone items)) }
{
    match loop_alone(alloc, items)? {
        Some(value) => Ok(Some(Part::Implied { value })),
        None => Ok(None),
    }
}

fn plain(alloc: Global, items: Queue<Item>) -> Result<Option<Part>, Memory>
    ensures { IfOk result (λ r. r ≡ option_map Part.Plain (expression_of items)) }
{
    match expression(alloc, items)? {
        Some(value) => Ok(Some(Part::Plain { value })),
        None => Ok(None),
    }
}

fn value_part(alloc: Global, items: Queue<Item>) -> Result<Option<Part>, Memory>
    ensures { IfOk result (λ r. r ≡ value_part items) }
{
    if is_loop(&items) {
        return implied(alloc, items);
    }
    plain(alloc, items)
}

#[tactic(auto, unfolding(crate::specs::Items::part_of))]
fn part(alloc: Global, items: Queue<Item>) -> Result<Option<Part>, Memory>
    ensures { IfOk result (λ r. r ≡ part_of items) }
{
    if is_star(&items) {
        return Ok(Some(Part::Star));
    }
    if is_keyed(&items) {
        return keyed(alloc, items);
    }
    if has_colon(&items) {
        return section(alloc, items);
    }
    value_part(alloc, items)
}

#[tactic(auto, using(crate::proofs::Gathering::gathering))]
fn parts_in(alloc: Global, mut pieces: Queue<Queue<Item>>) -> Result<Option<Queue<Part>>, Memory>
    ensures { IfOk result (λ r. r ≡ each part_of pieces) }
{
    let mut done = Queue::with_capacity(alloc, pieces.len())?;
    while let Some(piece) = pieces.take() {
        match part(alloc, piece)? {
            Some(part) => done.push(part)?,
            None => return Ok(None),
        }
    }
    Ok(Some(done))
}

/// The parts of a group, from the items between its brackets. None where what stands between two commas is no part.
pub fn parts(alloc: Global, items: Queue<Item>) -> Result<Option<Queue<Part>>, Memory>
    ensures { IfOk result (λ r. r ≡ parts_of items) }
{
    if items.len() == 0 {
        return Ok(Some(Queue::new(alloc)));
    }
    let pieces = pieces(alloc, items, Mark::Comma)?;
    parts_in(alloc, pieces)
}
