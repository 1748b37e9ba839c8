ghost use Rattle.std.specs.Prelude.{◌≡◌, Some};
ghost use Rattle.ff_forms.specs.Answers.{Gives};
ghost use Rattle.ff_forms.specs.Procedures.{subroutine_dummies, subroutine_of, result_name, result_of, function_behind, function_of, begins_function, begins_recursive, behind_function, behind_recursive, typed_of, integer_row, character_row, derived_row, recursive_integer, recursive_word, recursive_row};

use crate::declarations::declaration;
use crate::form::Form;
use crate::names::dummies;
use crate::refusal::Refusal;
use crate::shape::{
    group_first, is, is_word_at, one_name, only_group, spells_at, word, word_first,
};
use crate::types::{character_type, derived_type, integer_type};
use ast_nodes::TypeSpec;
use ff_expressions::{Item, Queue};
use lf_base::Name;
use sqlite_items::Items;
use std::alloc::Global;

#[tactic(auto, unfolding(crate::specs::Procedures::subroutine_dummies))]
fn subroutine_dummies(alloc: Global, items: Queue<Item>) -> Result<Items<Name>, Refusal>
    ensures { Gives (λ names. names) result (subroutine_dummies items) }
{
    if items.len() == 0 {
        return Ok(Items::new(alloc));
    }
    let parts = only_group(items)?;
    dummies(alloc, parts)
}

#[tactic(auto, unfolding(crate::specs::Procedures::subroutine_of))]
pub fn subroutine(alloc: Global, mut items: Queue<Item>) -> Result<(Form, u32), Refusal>
    ensures { Gives (λ x. (x.0, x.1)) result (subroutine_of items) }
{
    let name = word_first(&mut items)?;
    let dummies = subroutine_dummies(alloc, items)?;
    let form = Form::Procedure {
        name,
        is_function: 0,
        type_spec: None,
        dummies,
        result: None,
    };
    Ok((form, 0))
}

#[tactic(auto, unfolding(crate::specs::Procedures::result_name))]
fn result_name(alloc: Global, mut items: Queue<Item>) -> Result<Option<Name>, Refusal>
    ensures { Gives (λ name. name) result (result_name items) }
{
    word(&mut items, b"result")?;
    let parts = only_group(items)?;
    let name = one_name(alloc, parts)?;
    Ok(Some(name))
}

#[tactic(auto, unfolding(crate::specs::Procedures::result_of))]
fn result_of(alloc: Global, items: Queue<Item>) -> Result<Option<Name>, Refusal>
    ensures { Gives (λ name. name) result (result_of items) }
{
    if items.len() == 0 {
        return Ok(None);
    }
    result_name(alloc, items)
}

#[tactic(auto, unfolding(crate::specs::Procedures::function_behind))]
fn function_behind(
    alloc: Global,
    type_spec: Option<TypeSpec>,
    name: Name,
    mut items: Queue<Item>,
) -> Result<(Form, u32), Refusal>
    ensures { Gives (λ x. (x.0, x.1)) result (function_behind type_spec name items) }
{
    let parts = group_first(&mut items)?;
    let dummies = dummies(alloc, parts)?;
    let named = result_of(alloc, items)?;
    let form = Form::Procedure {
        name,
        is_function: 1,
        type_spec,
        dummies,
        result: named,
    };
    Ok((form, 0))
}

#[tactic(auto, unfolding(crate::specs::Procedures::function_of))]
pub fn function(
    alloc: Global,
    type_spec: Option<TypeSpec>,
    mut items: Queue<Item>,
) -> Result<(Form, u32), Refusal>
    ensures { Gives (λ x. (x.0, x.1)) result (function_of type_spec items) }
{
    let name = word_first(&mut items)?;
    function_behind(alloc, type_spec, name, items)
}

#[tactic(auto, unfolding(crate::specs::Procedures::begins_function))]
fn begins_function(items: &Queue<Item>) -> bool
    ensures { result ≡ begins_function items.now }
{
    spells_at(items, 0, b"function") && is_word_at(items, 1)
}

#[tactic(auto, unfolding(crate::specs::Procedures::begins_recursive))]
fn begins_recursive(items: &Queue<Item>) -> bool
    ensures { result ≡ begins_recursive items.now }
{
    spells_at(items, 0, b"recursive") && spells_at(items, 1, b"function") && is_word_at(items, 2)
}

#[tactic(auto, unfolding(crate::specs::Procedures::behind_function))]
fn behind_function(
    alloc: Global,
    type_spec: Option<TypeSpec>,
    mut items: Queue<Item>,
) -> Result<(Form, u32), Refusal>
    ensures { Gives (λ x. (x.0, x.1)) result (behind_function type_spec items) }
{
    word(&mut items, b"function")?;
    function(alloc, type_spec, items)
}

#[tactic(auto, unfolding(crate::specs::Procedures::behind_recursive))]
fn behind_recursive(
    alloc: Global,
    type_spec: Option<TypeSpec>,
    mut items: Queue<Item>,
) -> Result<(Form, u32), Refusal>
    ensures { Gives (λ x. (x.0, x.1)) result (behind_recursive type_spec items) }
{
    word(&mut items, b"recursive")?;
    behind_function(alloc, type_spec, items)
}

#[tactic(auto, unfolding(crate::specs::Procedures::typed_of))]
pub fn typed(
    alloc: Global,
    line: u32,
    type_spec: TypeSpec,
    items: Queue<Item>,
) -> Result<(Form, u32), Refusal>
    ensures { Gives (λ x. (x.0, x.1)) result (typed_of line type_spec items) }
{
    if begins_function(&items) {
        return behind_function(alloc, Some(type_spec), items);
    }
    if begins_recursive(&items) {
        return behind_recursive(alloc, Some(type_spec), items);
    }
    declaration(alloc, line, type_spec, 0, items)
}

#[tactic(auto, unfolding(crate::specs::Procedures::integer_row))]
pub fn integer_row(alloc: Global, line: u32, mut items: Queue<Item>) -> Result<(Form, u32), Refusal>
    ensures { Gives (λ x. (x.0, x.1)) result (integer_row line items) }
{
    let type_spec = integer_type(&mut items)?;
    typed(alloc, line, type_spec, items)
}

#[tactic(auto, unfolding(crate::specs::Procedures::character_row))]
pub fn character_row(
    alloc: Global,
    line: u32,
    mut items: Queue<Item>,
) -> Result<(Form, u32), Refusal>
    ensures { Gives (λ x. (x.0, x.1)) result (character_row line items) }
{
    let (type_spec, depth) = character_type(alloc, &mut items)?;
    declaration(alloc, line, type_spec, depth, items)
}

#[tactic(auto, unfolding(crate::specs::Procedures::derived_row))]
pub fn derived_row(alloc: Global, line: u32, mut items: Queue<Item>) -> Result<(Form, u32), Refusal>
    ensures { Gives (λ x. (x.0, x.1)) result (derived_row line items) }
{
    let type_spec = derived_type(alloc, &mut items)?;
    declaration(alloc, line, type_spec, 0, items)
}

#[tactic(auto, unfolding(crate::specs::Procedures::recursive_integer))]
fn recursive_integer(alloc: Global, mut items: Queue<Item>) -> Result<(Form, u32), Refusal>
    ensures { Gives (λ x. (x.0, x.1)) result (recursive_integer items) }
{
    let type_spec = integer_type(&mut items)?;
    behind_function(alloc, Some(type_spec), items)
}

#[tactic(auto, unfolding(crate::specs::Procedures::recursive_word))]
fn recursive_word(alloc: Global, name: &[u8], items: Queue<Item>) -> Result<(Form, u32), Refusal>
    ensures { Gives (λ x. (x.0, x.1)) result (recursive_word name.now items) }
{
    if is(name, b"subroutine") {
        return subroutine(alloc, items);
    }
    if is(name, b"function") {
        return function(alloc, None, items);
    }
    if is(name, b"integer") {
        return recursive_integer(alloc, items);
    }
    if is(name, b"logical") {
        return behind_function(alloc, Some(TypeSpec::Logical), items);
    }
    Err(Refusal::Unformed)
}

#[tactic(auto, unfolding(crate::specs::Procedures::recursive_row))]
pub fn recursive_row(alloc: Global, mut items: Queue<Item>) -> Result<(Form, u32), Refusal>
    ensures { Gives (λ x. (x.0, x.1)) result (recursive_row items) }
{
    let name = word_first(&mut items)?;
    recursive_word(alloc, name.bytes(), items)
}
