ghost use Rattle.std.specs.Prelude.{◌≡◌, Some, slice_get};
ghost use Rattle.std.specs.Option.{option_copied};
ghost use Rattle.ast_nodes.specs.declared.expression.RefPart.{out-RefPart};
ghost use Rattle.ff_forms.specs.declared.refusal.Refusal.TheVariants.{Unformed};
ghost use Rattle.ff_expressions.specs.Pieces.{pieces_of};
ghost use Rattle.ff_forms.specs.Answers.{Gives};
ghost use Rattle.ff_forms.specs.Shapes.{is, nothing, something, first_of, only_one, word_first, only_word, maybe_word, behind_word, behind_comma, behind_colon, behind_double_colon, behind_equals, behind_arrow, group_first, only_group, is_group, is_comma, is_colon, is_double_colon, is_word, spells, past_double_colon, expression_in, output_in, designator_in, arguments_in, plain_part, one_expression, behind_star, star_part, part_name, name_alone, name_in, name_part, one_name};

use crate::refusal::Refusal;
use ast_nodes::{Designator, Expr, RefPart};
use ff_expressions::{Arguments, Bracket, Item, Mark, Parsed, Part, Queue, Reference};
use lf_base::Name;
use sqlite_items::Items;
use std::alloc::Global;

// Whether a name is this word.
#[tactic(auto, unfolding(crate::specs::Shapes::is))]
pub fn is(name: &[u8], text: &[u8]) -> bool
    ensures { result ≡ is name.now text.now }
{
    name == text
}

// Lets go of what is in no form.
pub fn refused<T: Drop>(_: T) -> Refusal
    ensures { result ≡ Unformed }
{
    Refusal::Unformed
}

// Nothing else stands there.
#[tactic(auto, unfolding(crate::specs::Shapes::nothing))]
pub fn nothing<T: Drop>(mut queue: Queue<T>) -> Result<(), Refusal>
    ensures { Gives (λ _. tt) result (nothing queue) }
{
    match queue.take() {
        Some(_) => Err(Refusal::Unformed),
        None => Ok(()),
    }
}

#[tactic(auto, unfolding(crate::specs::Shapes::something))]
pub fn something<T>(queue: &Queue<T>) -> Result<(), Refusal>
    ensures { Gives (λ _. tt) result (something queue.now) }
{
    if queue.len() == 0 {
        return Err(Refusal::Unformed);
    }
    Ok(())
}

#[tactic(auto, unfolding(crate::specs::Shapes::first_of))]
pub fn first<T>(queue: &mut Queue<T>) -> Result<T, Refusal>
    ensures { Gives (λ x. (x, queue.new)) result (first_of queue.old) }
{
    match queue.take() {
        Some(x) => Ok(x),
        None => Err(Refusal::Unformed),
    }
}

#[tactic(auto, unfolding(crate::specs::Shapes::only_one))]
pub fn only_one<T: Drop>(mut queue: Queue<T>) -> Result<T, Refusal>
    ensures { Gives (λ x. x) result (only_one queue) }
{
    let x = first(&mut queue)?;
    nothing(queue)?;
    Ok(x)
}

// The word in front.
#[tactic(auto, unfolding(crate::specs::Shapes::word_first))]
pub fn word_first(items: &mut Queue<Item>) -> Result<Name, Refusal>
    ensures { Gives (λ name. (name, items.new)) result (word_first items.old) }
{
    match items.take() {
        Some(Item::Word { name }) => Ok(name),
        _ => Err(Refusal::Unformed),
    }
}

#[tactic(auto, unfolding(crate::specs::Shapes::only_word))]
pub fn only_word(mut items: Queue<Item>) -> Result<Name, Refusal>
    ensures { Gives (λ name. name) result (only_word items) }
{
    let name = word_first(&mut items)?;
    nothing(items)?;
    Ok(name)
}

#[tactic(auto, unfolding(crate::specs::Shapes::maybe_word))]
pub fn maybe_word(mut items: Queue<Item>) -> Result<Option<Name>, Refusal>
    ensures { Gives (λ name. name) result (maybe_word items) }
{
    match items.take() {
        None => Ok(None),
        Some(Item::Word { name }) => {
            nothing(items)?;
            Ok(Some(name))
        }
        Some(_) => Err(Refusal::Unformed),
    }
}

// Takes this word.
#[tactic(auto, unfolding(crate::specs::Shapes::behind_word))]
pub fn word(items: &mut Queue<Item>, text: &[u8]) -> Result<(), Refusal>
    ensures { Gives (λ _. items.new) result (behind_word text.now items.old) }
{
    let name = word_first(items)?;
    if is(name.bytes(), text) {
        return Ok(());
    }
    Err(Refusal::Unformed)
}

#[tactic(auto, unfolding(crate::specs::Shapes::behind_comma))]
pub fn comma(items: &mut Queue<Item>) -> Result<(), Refusal>
    ensures { Gives (λ _. items.new) result (behind_comma items.old) }
{
    match items.take() {
        Some(Item::Mark { mark: Mark::Comma }) => Ok(()),
        _ => Err(Refusal::Unformed),
    }
}

#[tactic(auto, unfolding(crate::specs::Shapes::behind_colon))]
pub fn colon(items: &mut Queue<Item>) -> Result<(), Refusal>
    ensures { Gives (λ _. items.new) result (behind_colon items.old) }
{
    match items.take() {
        Some(Item::Mark { mark: Mark::Colon }) => Ok(()),
        _ => Err(Refusal::Unformed),
    }
}

#[tactic(auto, unfolding(crate::specs::Shapes::behind_double_colon))]
pub fn double_colon(items: &mut Queue<Item>) -> Result<(), Refusal>
    ensures { Gives (λ _. items.new) result (behind_double_colon items.old) }
{
    match items.take() {
        Some(
            Item::Mark {
                mark: Mark::DoubleColon,
            },
        ) => Ok(()),
        _ => Err(Refusal::Unformed),
    }
}

#[tactic(auto, unfolding(crate::specs::Shapes::behind_equals))]
pub fn equals(items: &mut Queue<Item>) -> Result<(), Refusal>
    ensures { Gives (λ _. items.new) result (behind_equals items.old) }
{
    match items.take() {
        Some(Item::Mark { mark: Mark::Equals }) => Ok(()),
        _ => Err(Refusal::Unformed),
    }
}

#[tactic(auto, unfolding(crate::specs::Shapes::behind_arrow))]
pub fn arrow(items: &mut Queue<Item>) -> Result<(), Refusal>
    ensures { Gives (λ _. items.new) result (behind_arrow items.old) }
{
    match items.take() {
        Some(Item::Mark { mark: Mark::Arrow }) => Ok(()),
        _ => Err(Refusal::Unformed),
    }
}

// The group in parentheses in front.
#[tactic(auto, unfolding(crate::specs::Shapes::group_first))]
pub fn group_first(items: &mut Queue<Item>) -> Result<Queue<Part>, Refusal>
    ensures { Gives (λ parts. (parts, items.new)) result (group_first items.old) }
{
    match items.take() {
        Some(
            Item::Group {
                bracket: Bracket::Round,
                parts,
            },
        ) => Ok(parts),
        _ => Err(Refusal::Unformed),
    }
}

#[tactic(auto, unfolding(crate::specs::Shapes::only_group))]
pub fn only_group(mut items: Queue<Item>) -> Result<Queue<Part>, Refusal>
    ensures { Gives (λ parts. parts) result (only_group items) }
{
    let parts = group_first(&mut items)?;
    nothing(items)?;
    Ok(parts)
}

#[tactic(auto, unfolding(crate::specs::Shapes::is_group))]
pub fn is_group_first(items: &Queue<Item>) -> bool
    ensures { result ≡ is_group (slice_get items.now 0) }
{
    match items.get(0) {
        Some(
            Item::Group {
                bracket: Bracket::Round,
                ..
            },
        ) => true,
        _ => false,
    }
}

#[tactic(auto, unfolding(crate::specs::Shapes::is_comma))]
pub fn is_comma_first(items: &Queue<Item>) -> bool
    ensures { result ≡ is_comma (slice_get items.now 0) }
{
    match items.get(0) {
        Some(Item::Mark { mark: Mark::Comma }) => true,
        _ => false,
    }
}

#[tactic(auto, unfolding(crate::specs::Shapes::is_colon))]
pub fn is_colon_at(items: &Queue<Item>, at: usize) -> bool
    ensures { result ≡ is_colon (slice_get items.now at) }
{
    match items.get(at) {
        Some(Item::Mark { mark: Mark::Colon }) => true,
        _ => false,
    }
}

#[tactic(auto, unfolding(crate::specs::Shapes::is_double_colon))]
pub fn is_double_colon_first(items: &Queue<Item>) -> bool
    ensures { result ≡ is_double_colon (slice_get items.now 0) }
{
    match items.get(0) {
        Some(
            Item::Mark {
                mark: Mark::DoubleColon,
            },
        ) => true,
        _ => false,
    }
}

#[tactic(auto, unfolding(crate::specs::Shapes::is_word))]
pub fn is_word_at(items: &Queue<Item>, at: usize) -> bool
    ensures { result ≡ is_word (slice_get items.now at) }
{
    match items.get(at) {
        Some(Item::Word { .. }) => true,
        _ => false,
    }
}

#[tactic(auto, unfolding(crate::specs::Shapes::spells))]
pub fn spells_at(items: &Queue<Item>, at: usize, text: &[u8]) -> bool
    ensures { result ≡ spells text.now (slice_get items.now at) }
{
    match items.get(at) {
        Some(Item::Word { name }) => is(name.bytes(), text),
        _ => false,
    }
}

#[tactic(auto, unfolding(crate::specs::Shapes::past_double_colon))]
pub fn past_double_colon(items: &mut Queue<Item>) -> Result<(), Refusal>
    ensures { Gives (λ _. items.new) result (past_double_colon items.old) }
{
    if is_double_colon_first(items) {
        return double_colon(items);
    }
    Ok(())
}

#[tactic(auto, unfolding(crate::specs::Shapes::expression_in))]
pub fn expression(alloc: Global, items: Queue<Item>) -> Result<(Expr, u32), Refusal>
    ensures { Gives (λ x. (x.0, x.1)) result (expression_in items) }
{
    match ff_expressions::expression(alloc, items)? {
        Some(Parsed { tree, depth }) => Ok((tree, depth)),
        None => Err(Refusal::Unformed),
    }
}

pub fn pieces_at(
    alloc: Global,
    items: Queue<Item>,
    mark: Mark,
) -> Result<Queue<Queue<Item>>, Refusal>
    ensures { Gives (λ pieces. pieces) result (Some (pieces_of mark items)) }
{
    Ok(ff_expressions::pieces(alloc, items, mark)?)
}

#[tactic(auto, unfolding(crate::specs::Shapes::output_in))]
pub fn output(alloc: Global, items: Queue<Item>) -> Result<(Expr, u32), Refusal>
    ensures { Gives (λ x. (x.0, x.1)) result (output_in items) }
{
    match ff_expressions::output(alloc, items)? {
        Some(Parsed { tree, depth }) => Ok((tree, depth)),
        None => Err(Refusal::Unformed),
    }
}

#[tactic(auto, unfolding(crate::specs::Shapes::designator_in))]
pub fn designator(alloc: Global, items: Queue<Item>) -> Result<(Designator, u32), Refusal>
    ensures { Gives (λ x. (x.0, x.1)) result (designator_in items) }
{
    match ff_expressions::reference(alloc, items)? {
        Some(Reference { designator, depth }) => Ok((designator, depth)),
        None => Err(Refusal::Unformed),
    }
}

#[tactic(auto, unfolding(crate::specs::Shapes::arguments_in))]
pub fn arguments(alloc: Global, parts: Queue<Part>) -> Result<(Items<Expr>, u32), Refusal>
    ensures { Gives (λ x. (x.0, x.1)) result (arguments_in parts) }
{
    match ff_expressions::arguments(alloc, parts)? {
        Some(Arguments { list, depth }) => Ok((list, depth)),
        None => Err(Refusal::Unformed),
    }
}

#[tactic(auto, unfolding(crate::specs::Shapes::plain_part))]
pub fn plain_part(part: Part) -> Result<(Expr, u32), Refusal>
    ensures { Gives (λ x. (x.0, x.1)) result (plain_part part) }
{
    match part {
        Part::Plain {
            value: Parsed { tree, depth },
        } => Ok((tree, depth)),
        other => Err(refused(other)),
    }
}

#[tactic(auto, unfolding(crate::specs::Shapes::one_expression))]
pub fn one_expression(parts: Queue<Part>) -> Result<(Expr, u32), Refusal>
    ensures { Gives (λ x. (x.0, x.1)) result (one_expression parts) }
{
    let part = only_one(parts)?;
    plain_part(part)
}

#[tactic(auto, unfolding(crate::specs::Shapes::star_part))]
fn star_part(part: Part) -> Result<(), Refusal>
    ensures { Gives (λ _. tt) result (star_part part) }
{
    match part {
        Part::Star => Ok(()),
        other => Err(refused(other)),
    }
}

// `*` in front.
#[tactic(auto, unfolding(crate::specs::Shapes::behind_star))]
pub fn star(parts: &mut Queue<Part>) -> Result<(), Refusal>
    ensures { Gives (λ _. parts.new) result (behind_star parts.old) }
{
    let part = first(parts)?;
    star_part(part)?;
    Ok(())
}

#[tactic(auto, unfolding(crate::specs::Shapes::part_name))]
fn part_name(part: &RefPart) -> Option<&Name>
    ensures { option_copied result ≡ part_name (out-RefPart part.now) }
{
    match part {
        RefPart::Part { name } => Some(name),
        RefPart::Group { .. } => None,
    }
}

#[tactic(auto, unfolding(crate::specs::Shapes::name_alone))]
fn name_alone(parts: &[RefPart]) -> Option<&Name>
    ensures { option_copied result ≡ name_alone parts.now }
{
    match parts {
        [part] => part_name(part),
        _ => None,
    }
}

#[tactic(auto, unfolding(crate::specs::Shapes::name_in, crate::specs::Shapes::name_layer))]
fn name_in(e: &Expr) -> Option<&Name>
    ensures { option_copied result ≡ name_in e.now }
{
    match e {
        Expr::Ref { designator } => name_alone(designator.parts.as_slice()),
        _ => None,
    }
}

fn copied_name(alloc: Global, name: Option<&Name>) -> Result<Name, Refusal>
    ensures { Gives (λ name. name) result (option_copied name.entry) }
{
    match name {
        Some(name) => Ok(Name::new(alloc, name.bytes())?),
        None => Err(Refusal::Unformed),
    }
}

#[tactic(auto, unfolding(crate::specs::Shapes::name_part))]
pub fn name_part(alloc: Global, part: Part) -> Result<Name, Refusal>
    ensures { Gives (λ name. name) result (name_part part) }
{
    let (e, _) = plain_part(part)?;
    copied_name(alloc, name_in(&e))
}

#[tactic(auto, unfolding(crate::specs::Shapes::one_name))]
pub fn one_name(alloc: Global, parts: Queue<Part>) -> Result<Name, Refusal>
    ensures { Gives (λ name. name) result (one_name parts) }
{
    let part = only_one(parts)?;
    name_part(alloc, part)
}
