ghost use Rattle.std.specs.Prelude.{◌≡◌, Some, List};
ghost use Rattle.ff_forms.specs.Answers.{Gives, each};
ghost use Rattle.ff_forms.specs.Types.{attribute_of};
ghost use Rattle.ff_forms.specs.Declarations.{own_bounds, value_behind, own_value, entity_behind, entity_of, entities_of, attributes_of, plain_declared, full_declared, declared_behind, declared_of, declaration_of};

use crate::form::Form;
use crate::refusal::Refusal;
use crate::shape::{
    comma, equals, expression, first, group_first, is_group_first, nothing, pieces_at, word_first,
};
use crate::types::{attribute, bounds};
use ast_nodes::{Attribute, Bound, Entity, Expr, TypeSpec, Vars};
use ff_expressions::{Item, Mark, Queue};
use lf_base::Name;
use sqlite_items::Items;
use std::alloc::Global;

// The attributes and entities of a declaration, and the depth of their deepest expression.
struct Declared {
    attributes: Items<Attribute>,
    entities: Items<Entity>,
    depth: u32,
}

#[tactic(auto, unfolding(crate::specs::Declarations::own_bounds))]
fn own_bounds(alloc: Global, items: &mut Queue<Item>) -> Result<(Items<Bound>, u32), Refusal>
    ensures { Gives (λ x. (x.0, x.1, items.new)) result (own_bounds items.old) }
{
    if !is_group_first(items) {
        return Ok((Items::new(alloc), 0));
    }
    let parts = group_first(items)?;
    bounds(alloc, parts)
}

#[tactic(auto, unfolding(crate::specs::Declarations::value_behind))]
fn value_behind(alloc: Global, mut items: Queue<Item>) -> Result<(Option<Expr>, u32), Refusal>
    ensures { Gives (λ x. (x.0, x.1)) result (value_behind items) }
{
    equals(&mut items)?;
    let (value, depth) = expression(alloc, items)?;
    Ok((Some(value), depth))
}

#[tactic(auto, unfolding(crate::specs::Declarations::own_value))]
fn own_value(alloc: Global, may: bool, items: Queue<Item>) -> Result<(Option<Expr>, u32), Refusal>
    ensures { Gives (λ x. (x.0, x.1)) result (own_value may items) }
{
    if items.len() == 0 {
        return Ok((None, 0));
    }
    if may {
        return value_behind(alloc, items);
    }
    Err(Refusal::Unformed)
}

#[tactic(auto, unfolding(crate::specs::Declarations::entity_behind))]
fn entity_behind(
    alloc: Global,
    may: bool,
    name: Name,
    mut items: Queue<Item>,
) -> Result<(Entity, u32), Refusal>
    ensures { Gives (λ x. (x.0, x.1)) result (entity_behind may name items) }
{
    let (bounds, depth) = own_bounds(alloc, &mut items)?;
    let (init, its_depth) = own_value(alloc, may, items)?;
    Ok((Entity { name, bounds, init }, depth.max(its_depth)))
}

#[tactic(auto, unfolding(crate::specs::Declarations::entity_of))]
fn entity(alloc: Global, may: bool, mut items: Queue<Item>) -> Result<(Entity, u32), Refusal>
    ensures { Gives (λ x. (x.0, x.1)) result (entity_of may items) }
{
    let name = word_first(&mut items)?;
    entity_behind(alloc, may, name, items)
}

#[tactic(auto, using(crate::proofs::Lists::lists))]
fn each_entity(
    alloc: Global,
    may: bool,
    mut pieces: Queue<Queue<Item>>,
) -> Result<(Items<Entity>, u32), Refusal>
    ensures { Gives (λ x. (x.0, x.1)) result (each (entity_of may) pieces) }
{
    let mut entities = Items::new(alloc);
    let mut depth = 0;
    while let Some(piece) = pieces.take() {
        let (one, its_depth) = entity(alloc, may, piece)?;
        entities.push(one)?;
        depth = depth.max(its_depth);
    }
    Ok((entities, depth))
}

#[tactic(auto, unfolding(crate::specs::Declarations::entities_of))]
fn entities(alloc: Global, may: bool, items: Queue<Item>) -> Result<(Items<Entity>, u32), Refusal>
    ensures { Gives (λ x. (x.0, x.1)) result (entities_of may items) }
{
    let pieces = pieces_at(alloc, items, Mark::Comma)?;
    each_entity(alloc, may, pieces)
}

#[tactic(auto, using(crate::proofs::Lists::lists))]
fn each_attribute(
    alloc: Global,
    mut pieces: Queue<Queue<Item>>,
) -> Result<(Items<Attribute>, u32), Refusal>
    ensures { Gives (λ x. (x.0, x.1)) result (each attribute_of pieces) }
{
    let mut attributes = Items::new(alloc);
    let mut depth = 0;
    while let Some(piece) = pieces.take() {
        let (one, its_depth) = attribute(alloc, piece)?;
        attributes.push(one)?;
        depth = depth.max(its_depth);
    }
    Ok((attributes, depth))
}

#[tactic(auto, unfolding(crate::specs::Declarations::attributes_of))]
fn attributes(alloc: Global, mut items: Queue<Item>) -> Result<(Items<Attribute>, u32), Refusal>
    ensures { Gives (λ x. (x.0, x.1)) result (attributes_of items) }
{
    if items.len() == 0 {
        return Ok((Items::new(alloc), 0));
    }
    comma(&mut items)?;
    let pieces = pieces_at(alloc, items, Mark::Comma)?;
    each_attribute(alloc, pieces)
}

#[tactic(auto, unfolding(crate::specs::Declarations::plain_declared))]
fn plain_declared(alloc: Global, items: Queue<Item>) -> Result<Declared, Refusal>
    ensures { Gives (λ x. (x.attributes, x.entities, x.depth)) result (plain_declared items) }
{
    let (entities, depth) = entities(alloc, false, items)?;
    Ok(Declared {
        attributes: Items::new(alloc),
        entities,
        depth,
    })
}

#[tactic(auto, unfolding(crate::specs::Declarations::full_declared))]
fn full_declared(alloc: Global, front: Queue<Item>, items: Queue<Item>) -> Result<Declared, Refusal>
    ensures { Gives (λ x. (x.attributes, x.entities, x.depth)) result (full_declared front items) }
{
    let (attributes, depth) = attributes(alloc, front)?;
    let (entities, its_depth) = entities(alloc, true, items)?;
    Ok(Declared {
        attributes,
        entities,
        depth: depth.max(its_depth),
    })
}

#[tactic(auto, unfolding(crate::specs::Declarations::declared_behind))]
fn declared_behind(
    alloc: Global,
    front: Queue<Item>,
    mut pieces: Queue<Queue<Item>>,
) -> Result<Declared, Refusal>
    ensures { Gives (λ x. (x.attributes, x.entities, x.depth)) result (declared_behind front pieces) }
{
    match pieces.take() {
        None => plain_declared(alloc, front),
        Some(items) => {
            nothing(pieces)?;
            full_declared(alloc, front, items)
        }
    }
}

#[tactic(auto, unfolding(crate::specs::Declarations::declared_of))]
fn after_type(alloc: Global, items: Queue<Item>) -> Result<Declared, Refusal>
    ensures { Gives (λ x. (x.attributes, x.entities, x.depth)) result (declared_of items) }
{
    let mut pieces = pieces_at(alloc, items, Mark::DoubleColon)?;
    let front = first(&mut pieces)?;
    declared_behind(alloc, front, pieces)
}

#[tactic(auto, unfolding(crate::specs::Declarations::declaration_of))]
pub fn declaration(
    alloc: Global,
    line: u32,
    type_spec: TypeSpec,
    depth: u32,
    items: Queue<Item>,
) -> Result<(Form, u32), Refusal>
    ensures { Gives (λ x. (x.0, x.1)) result (declaration_of line type_spec depth items) }
{
    let Declared {
        attributes,
        entities,
        depth: its_depth,
    } = after_type(alloc, items)?;
    let vars = Vars {
        line,
        type_spec,
        attributes,
        entities,
    };
    Ok((Form::Variables { vars }, depth.max(its_depth)))
}
