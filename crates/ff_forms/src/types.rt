ghost use Rattle.std.specs.Prelude.{◌≡◌, Some};
ghost use Rattle.ff_forms.specs.Answers.{Gives, each};
ghost use Rattle.ff_forms.specs.Types.{kind_of_digits, kind_in, kind_keyed, one_kind, kind_part, integer_type, length_value, length_keyed, length_part, one_length, character_type, derived_type, upper_bound, both_bounds, section_bound, bound_of, bounds_of, intent_code, intent_of, dimension_of, word_attribute, bare_attribute, attribute_named, attribute_of};

use crate::refusal::Refusal;
use crate::shape::{
    group_first, is, is_group_first, nothing, one_name, only_group, only_one, refused, something,
    word_first,
};
use ast_nodes::{Attribute, Bound, Expr, Length, TypeSpec, code};
use ff_expressions::{Item, Parsed, Part, Queue, Stride};
use lf_base::Name;
use sqlite_items::{Boxed, Items};
use std::alloc::Global;

#[tactic(auto, unfolding(crate::specs::Types::kind_of_digits))]
fn kind_of_digits(digits: &[u8], suffix: u8) -> Result<u8, Refusal>
    ensures { Gives (λ kind. kind) result (kind_of_digits digits.now suffix) }
{
    if 0 < suffix {
        return Err(Refusal::Unformed);
    }
    if is(digits, b"4") {
        return Ok(4);
    }
    if is(digits, b"8") {
        return Ok(8);
    }
    Err(Refusal::Unformed)
}

#[tactic(auto, unfolding(crate::specs::Types::kind_in, crate::specs::Types::kind_layer))]
fn kind_in(e: &Expr) -> Result<u8, Refusal>
    ensures { Gives (λ kind. kind) result (kind_in e.now) }
{
    match e {
        Expr::Int { digits, suffix } => kind_of_digits(digits.as_slice(), *suffix),
        _ => Err(Refusal::Unformed),
    }
}

#[tactic(auto, unfolding(crate::specs::Types::kind_part))]
fn kind_part(part: &Part) -> Result<u8, Refusal>
    ensures { Gives (λ kind. kind) result (kind_part part.now) }
{
    match part {
        Part::Plain { value } => kind_in(&value.tree),
        Part::Keyed {
            name,
            value: Some(value),
        } => kind_keyed(name, value),
        _ => Err(Refusal::Unformed),
    }
}

#[tactic(auto, unfolding(crate::specs::Types::kind_keyed))]
fn kind_keyed(name: &Name, value: &Parsed) -> Result<u8, Refusal>
    ensures { Gives (λ kind. kind) result (kind_keyed name.now value.now) }
{
    if is(name.bytes(), b"kind") {
        return kind_in(&value.tree);
    }
    Err(Refusal::Unformed)
}

#[tactic(auto, unfolding(crate::specs::Types::one_kind))]
fn one_kind(parts: Queue<Part>) -> Result<u8, Refusal>
    ensures { Gives (λ kind. kind) result (one_kind parts) }
{
    let part = only_one(parts)?;
    kind_part(&part)
}

#[tactic(auto, unfolding(crate::specs::Types::integer_type))]
pub fn integer_type(items: &mut Queue<Item>) -> Result<TypeSpec, Refusal>
    ensures { Gives (λ type_spec. (type_spec, items.new)) result (integer_type items.old) }
{
    if !is_group_first(items) {
        return Ok(TypeSpec::Integer { kind: 4 });
    }
    let parts = group_first(items)?;
    let kind = one_kind(parts)?;
    Ok(TypeSpec::Integer { kind })
}

#[tactic(auto, unfolding(crate::specs::Types::length_value))]
fn length_value(alloc: Global, value: Option<Parsed>) -> Result<(Length, u32), Refusal>
    ensures { Gives (λ x. (x.0, x.1)) result (Some (length_value value)) }
{
    match value {
        None => Ok((Length::Star, 0)),
        Some(Parsed { tree, depth }) => {
            let value = Boxed::new(alloc, tree)?;
            Ok((Length::Given { value }, depth))
        }
    }
}

#[tactic(auto, unfolding(crate::specs::Types::length_keyed))]
fn length_keyed(alloc: Global, name: &Name, value: Option<Parsed>) -> Result<(Length, u32), Refusal>
    ensures { Gives (λ x. (x.0, x.1)) result (length_keyed name.now value) }
{
    if is(name.bytes(), b"len") {
        return length_value(alloc, value);
    }
    Err(Refusal::Unformed)
}

#[tactic(auto, unfolding(crate::specs::Types::length_part))]
fn length_part(alloc: Global, part: Part) -> Result<(Length, u32), Refusal>
    ensures { Gives (λ x. (x.0, x.1)) result (length_part part) }
{
    match part {
        Part::Star => Ok((Length::Star, 0)),
        Part::Plain { value } => length_value(alloc, Some(value)),
        Part::Keyed { name, value } => length_keyed(alloc, &name, value),
        other => Err(refused(other)),
    }
}

#[tactic(auto, unfolding(crate::specs::Types::one_length))]
fn one_length(alloc: Global, parts: Queue<Part>) -> Result<(Length, u32), Refusal>
    ensures { Gives (λ x. (x.0, x.1)) result (one_length parts) }
{
    let part = only_one(parts)?;
    length_part(alloc, part)
}

#[tactic(auto, unfolding(crate::specs::Types::character_type))]
pub fn character_type(alloc: Global, items: &mut Queue<Item>) -> Result<(TypeSpec, u32), Refusal>
    ensures { Gives (λ x. (x.0, x.1, items.new)) result (character_type items.old) }
{
    if !is_group_first(items) {
        return Ok((TypeSpec::Character { length: None }, 0));
    }
    let parts = group_first(items)?;
    let (length, depth) = one_length(alloc, parts)?;
    Ok((
        TypeSpec::Character {
            length: Some(length),
        },
        depth,
    ))
}

#[tactic(auto, unfolding(crate::specs::Types::derived_type))]
pub fn derived_type(alloc: Global, items: &mut Queue<Item>) -> Result<TypeSpec, Refusal>
    ensures { Gives (λ type_spec. (type_spec, items.new)) result (derived_type items.old) }
{
    let parts = group_first(items)?;
    let name = one_name(alloc, parts)?;
    Ok(TypeSpec::Derived { name })
}

#[tactic(auto, unfolding(crate::specs::Types::upper_bound))]
fn upper_bound(value: Parsed) -> (Bound, u32)
    ensures { (result.0, result.1) ≡ upper_bound value }
{
    let Parsed { tree, depth } = value;
    let bound = Bound {
        lower: None,
        upper: Some(tree),
    };
    (bound, depth)
}

#[tactic(auto, unfolding(crate::specs::Types::both_bounds))]
fn both_bounds(lower: Parsed, upper: Parsed) -> (Bound, u32)
    ensures { (result.0, result.1) ≡ both_bounds lower upper }
{
    let depth = lower.depth.max(upper.depth);
    let bound = Bound {
        lower: Some(lower.tree),
        upper: Some(upper.tree),
    };
    (bound, depth)
}

#[tactic(auto, unfolding(crate::specs::Types::section_bound))]
fn section_bound(lower: Option<Parsed>, upper: Option<Parsed>) -> Result<(Bound, u32), Refusal>
    ensures { Gives (λ x. (x.0, x.1)) result (section_bound lower upper) }
{
    match lower {
        Some(lower) => match upper {
            Some(upper) => Ok(both_bounds(lower, upper)),
            None => Err(refused(lower)),
        },
        None => match upper {
            Some(upper) => Err(refused(upper)),
            None => Ok((
                Bound {
                    lower: None,
                    upper: None,
                },
                0,
            )),
        },
    }
}

#[tactic(auto, unfolding(crate::specs::Types::bound_of))]
fn bound(part: Part) -> Result<(Bound, u32), Refusal>
    ensures { Gives (λ x. (x.0, x.1)) result (bound_of part) }
{
    match part {
        Part::Plain { value } => Ok(upper_bound(value)),
        Part::Section {
            lower,
            upper,
            step: Stride::Absent,
        } => section_bound(lower, upper),
        other => Err(refused(other)),
    }
}

#[tactic(auto, using(crate::proofs::Lists::lists))]
fn each_bound(alloc: Global, mut parts: Queue<Part>) -> Result<(Items<Bound>, u32), Refusal>
    ensures { Gives (λ x. (x.0, x.1)) result (each bound_of parts) }
{
    let mut bounds = Items::new(alloc);
    let mut depth = 0;
    while let Some(part) = parts.take() {
        let (one, its_depth) = bound(part)?;
        bounds.push(one)?;
        depth = depth.max(its_depth);
    }
    Ok((bounds, depth))
}

#[tactic(auto, unfolding(crate::specs::Types::bounds_of))]
pub fn bounds(alloc: Global, parts: Queue<Part>) -> Result<(Items<Bound>, u32), Refusal>
    ensures { Gives (λ x. (x.0, x.1)) result (bounds_of parts) }
{
    something(&parts)?;
    each_bound(alloc, parts)
}

#[tactic(auto, unfolding(crate::specs::Types::intent_code))]
fn intent_code(name: &[u8]) -> Result<u8, Refusal>
    ensures { Gives (λ code. code) result (intent_code name.now) }
{
    if is(name, b"in") {
        return Ok(code::INTENT_IN);
    }
    if is(name, b"out") {
        return Ok(code::INTENT_OUT);
    }
    if is(name, b"inout") {
        return Ok(code::INTENT_INOUT);
    }
    Err(Refusal::Unformed)
}

#[tactic(auto, unfolding(crate::specs::Types::intent_of))]
fn intent(alloc: Global, items: Queue<Item>) -> Result<(Attribute, u32), Refusal>
    ensures { Gives (λ x. (x.0, x.1)) result (intent_of items) }
{
    let parts = only_group(items)?;
    let name = one_name(alloc, parts)?;
    let code = intent_code(name.bytes())?;
    Ok((Attribute::Intent { code }, 0))
}

#[tactic(auto, unfolding(crate::specs::Types::dimension_of))]
fn dimension(alloc: Global, items: Queue<Item>) -> Result<(Attribute, u32), Refusal>
    ensures { Gives (λ x. (x.0, x.1)) result (dimension_of items) }
{
    let parts = only_group(items)?;
    let (bounds, depth) = bounds(alloc, parts)?;
    Ok((Attribute::Dimension { bounds }, depth))
}

#[tactic(auto, unfolding(crate::specs::Types::word_attribute))]
fn word_attribute(name: &[u8]) -> Result<Attribute, Refusal>
    ensures { Gives (λ attribute. attribute) result (word_attribute name.now) }
{
    if is(name, b"parameter") {
        return Ok(Attribute::Parameter);
    }
    if is(name, b"save") {
        return Ok(Attribute::Save);
    }
    if is(name, b"private") {
        return Ok(Attribute::Private);
    }
    if is(name, b"public") {
        return Ok(Attribute::Public);
    }
    Err(Refusal::Unformed)
}

#[tactic(auto, unfolding(crate::specs::Types::bare_attribute))]
fn bare_attribute(name: &[u8], rest: Queue<Item>) -> Result<(Attribute, u32), Refusal>
    ensures { Gives (λ x. (x.0, x.1)) result (bare_attribute name.now rest) }
{
    let attribute = word_attribute(name)?;
    nothing(rest)?;
    Ok((attribute, 0))
}

#[tactic(auto, unfolding(crate::specs::Types::attribute_named))]
fn attribute_named(
    alloc: Global,
    name: &[u8],
    rest: Queue<Item>,
) -> Result<(Attribute, u32), Refusal>
    ensures { Gives (λ x. (x.0, x.1)) result (attribute_named name.now rest) }
{
    if is(name, b"dimension") {
        return dimension(alloc, rest);
    }
    if is(name, b"intent") {
        return intent(alloc, rest);
    }
    bare_attribute(name, rest)
}

#[tactic(auto, unfolding(crate::specs::Types::attribute_of))]
pub fn attribute(alloc: Global, mut items: Queue<Item>) -> Result<(Attribute, u32), Refusal>
    ensures { Gives (λ x. (x.0, x.1)) result (attribute_of items) }
{
    let name = word_first(&mut items)?;
    attribute_named(alloc, name.bytes(), items)
}
