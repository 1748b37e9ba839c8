ghost use Rattle.std.specs.Prelude.{◌≡◌, Some};
ghost use Rattle.ff_forms.specs.Answers.{Gives};
ghost use Rattle.ff_forms.specs.Rows.{program_row, specifics_row, module_word, module_row, contains_row, use_row, implicit_row, access_names, access_row, access_code, written_access, unsaid_access, type_access, type_definition, type_row, interface_row, is_then, lone_if_of, if_behind, if_row, named_if_row, construct_named, construct_row, action_row, end_at_once, choice_word, construct_word, generic_word, specification_word, type_word, procedure_word, unit_word, by_word, worded, assignment_form, statement_of};

use crate::actions::{action, action_named, assignment_row, lone_if};
use crate::chain::is_assignment;
use crate::constructs::{
    case_row, do_row, else_if_row, else_row, end_behind, end_row, ended_at_once, select_case_row,
    select_row,
};
use crate::form::Form;
use crate::names::{listed_names, used};
use crate::procedures::{
    character_row, derived_row, function, integer_row, recursive_row, subroutine, typed,
};
use crate::refusal::Refusal;
use crate::shape::{
    colon, comma, double_colon, group_first, is, is_colon_at, is_comma_first, is_group_first,
    nothing, one_expression, only_word, past_double_colon, spells_at, word, word_first,
};
use ast_nodes::{Expr, TypeSpec, code};
use ff_expressions::{Item, Queue};
use lf_base::Name;
use sqlite_items::Items;
use std::alloc::Global;

#[tactic(auto, unfolding(crate::specs::Rows::program_row))]
fn program_row(items: Queue<Item>) -> Result<(Form, u32), Refusal>
    ensures { Gives (λ x. (x.0, x.1)) result (program_row items) }
{
    let name = only_word(items)?;
    Ok((Form::Program { name }, 0))
}

#[tactic(auto, unfolding(crate::specs::Rows::specifics_row))]
fn specifics_row(alloc: Global, items: Queue<Item>) -> Result<(Form, u32), Refusal>
    ensures { Gives (λ x. (x.0, x.1)) result (specifics_row items) }
{
    let names = listed_names(alloc, items)?;
    Ok((Form::Specifics { names }, 0))
}

#[tactic(auto, unfolding(crate::specs::Rows::module_word))]
fn module_word(alloc: Global, name: Name, items: Queue<Item>) -> Result<(Form, u32), Refusal>
    ensures { Gives (λ x. (x.0, x.1)) result (module_word name items) }
{
    if items.len() == 0 {
        return Ok((Form::Module { name }, 0));
    }
    if is(name.bytes(), b"procedure") {
        return specifics_row(alloc, items);
    }
    Err(Refusal::Unformed)
}

#[tactic(auto, unfolding(crate::specs::Rows::module_row))]
fn module_row(alloc: Global, mut items: Queue<Item>) -> Result<(Form, u32), Refusal>
    ensures { Gives (λ x. (x.0, x.1)) result (module_row items) }
{
    let name = word_first(&mut items)?;
    module_word(alloc, name, items)
}

#[tactic(auto, unfolding(crate::specs::Rows::contains_row))]
fn contains_row(items: Queue<Item>) -> Result<(Form, u32), Refusal>
    ensures { Gives (λ x. (x.0, x.1)) result (contains_row items) }
{
    nothing(items)?;
    Ok((Form::Contains, 0))
}

#[tactic(auto, unfolding(crate::specs::Rows::use_row))]
fn use_row(alloc: Global, line: u32, items: Queue<Item>) -> Result<(Form, u32), Refusal>
    ensures { Gives (λ x. (x.0, x.1)) result (use_row line items) }
{
    let used = used(alloc, line, items)?;
    Ok((Form::Use { used }, 0))
}

#[tactic(auto, unfolding(crate::specs::Rows::implicit_row))]
fn implicit_row(mut items: Queue<Item>) -> Result<(Form, u32), Refusal>
    ensures { Gives (λ x. (x.0, x.1)) result (implicit_row items) }
{
    word(&mut items, b"none")?;
    nothing(items)?;
    Ok((Form::ImplicitNone, 0))
}

#[tactic(auto, unfolding(crate::specs::Rows::access_names))]
fn access_names(alloc: Global, is_private: u8, items: Queue<Item>) -> Result<(Form, u32), Refusal>
    ensures { Gives (λ x. (x.0, x.1)) result (access_names is_private items) }
{
    let names = listed_names(alloc, items)?;
    Ok((Form::Access { is_private, names }, 0))
}

#[tactic(auto, unfolding(crate::specs::Rows::access_row))]
fn access_row(alloc: Global, is_private: u8, items: Queue<Item>) -> Result<(Form, u32), Refusal>
    ensures { Gives (λ x. (x.0, x.1)) result (access_row is_private items) }
{
    if items.len() == 0 {
        let names = Items::new(alloc);
        return Ok((Form::Access { is_private, names }, 0));
    }
    access_names(alloc, is_private, items)
}

#[tactic(auto, unfolding(crate::specs::Rows::access_code))]
fn access_code(name: &[u8]) -> Result<u8, Refusal>
    ensures { Gives (λ code. code) result (access_code name.now) }
{
    if is(name, b"public") {
        return Ok(code::PUBLIC);
    }
    if is(name, b"private") {
        return Ok(code::PRIVATE);
    }
    Err(Refusal::Unformed)
}

#[tactic(auto, unfolding(crate::specs::Rows::written_access))]
fn written_access(items: &mut Queue<Item>) -> Result<u8, Refusal>
    ensures { Gives (λ code. (code, items.new)) result (written_access items.old) }
{
    comma(items)?;
    let name = word_first(items)?;
    let code = access_code(name.bytes())?;
    double_colon(items)?;
    Ok(code)
}

#[tactic(auto, unfolding(crate::specs::Rows::unsaid_access))]
fn unsaid_access(items: &mut Queue<Item>) -> Result<u8, Refusal>
    ensures { Gives (λ code. (code, items.new)) result (unsaid_access items.old) }
{
    past_double_colon(items)?;
    Ok(code::ACCESS_NOT_SAID)
}

#[tactic(auto, unfolding(crate::specs::Rows::type_access))]
fn type_access(items: &mut Queue<Item>) -> Result<u8, Refusal>
    ensures { Gives (λ code. (code, items.new)) result (type_access items.old) }
{
    if is_comma_first(items) {
        return written_access(items);
    }
    unsaid_access(items)
}

#[tactic(auto, unfolding(crate::specs::Rows::type_definition))]
fn type_definition(mut items: Queue<Item>) -> Result<(Form, u32), Refusal>
    ensures { Gives (λ x. (x.0, x.1)) result (type_definition items) }
{
    let access = type_access(&mut items)?;
    let name = only_word(items)?;
    Ok((Form::TypeDef { name, access }, 0))
}

#[tactic(auto, unfolding(crate::specs::Rows::type_row))]
fn type_row(alloc: Global, line: u32, items: Queue<Item>) -> Result<(Form, u32), Refusal>
    ensures { Gives (λ x. (x.0, x.1)) result (type_row line items) }
{
    if is_group_first(&items) {
        return derived_row(alloc, line, items);
    }
    type_definition(items)
}

#[tactic(auto, unfolding(crate::specs::Rows::interface_row))]
fn interface_row(items: Queue<Item>) -> Result<(Form, u32), Refusal>
    ensures { Gives (λ x. (x.0, x.1)) result (interface_row items) }
{
    let name = only_word(items)?;
    Ok((Form::Interface { name }, 0))
}

#[tactic(auto, unfolding(crate::specs::Rows::is_then))]
fn is_then(items: &Queue<Item>) -> bool
    ensures { result ≡ is_then items.now }
{
    spells_at(items, 0, b"then") && items.len() == 1
}

#[tactic(auto, unfolding(crate::specs::Rows::lone_if_of))]
fn lone_if_of(
    alloc: Global,
    line: u32,
    condition: Expr,
    depth: u32,
    items: Queue<Item>,
) -> Result<(Form, u32), Refusal>
    ensures { Gives (λ x. (x.0, x.1)) result (lone_if_of line condition depth items) }
{
    let (action, its_depth) = action(alloc, line, items)?;
    let statement = lone_if(alloc, line, condition, action)?;
    Ok((Form::Action { statement }, depth.max(its_depth)))
}

#[tactic(auto, unfolding(crate::specs::Rows::if_behind))]
fn if_behind(
    alloc: Global,
    line: u32,
    condition: Expr,
    depth: u32,
    items: Queue<Item>,
) -> Result<(Form, u32), Refusal>
    ensures { Gives (λ x. (x.0, x.1)) result (if_behind line condition depth items) }
{
    if is_then(&items) {
        let form = Form::IfThen {
            construct: None,
            condition,
        };
        return Ok((form, depth));
    }
    lone_if_of(alloc, line, condition, depth, items)
}

#[tactic(auto, unfolding(crate::specs::Rows::if_row))]
fn if_row(alloc: Global, line: u32, mut items: Queue<Item>) -> Result<(Form, u32), Refusal>
    ensures { Gives (λ x. (x.0, x.1)) result (if_row line items) }
{
    let parts = group_first(&mut items)?;
    let (condition, depth) = one_expression(parts)?;
    if_behind(alloc, line, condition, depth, items)
}

#[tactic(auto, unfolding(crate::specs::Rows::named_if_row))]
fn named_if_row(construct: Name, mut items: Queue<Item>) -> Result<(Form, u32), Refusal>
    ensures { Gives (λ x. (x.0, x.1)) result (named_if_row construct items) }
{
    let parts = group_first(&mut items)?;
    let (condition, depth) = one_expression(parts)?;
    word(&mut items, b"then")?;
    nothing(items)?;
    let form = Form::IfThen {
        construct: Some(construct),
        condition,
    };
    Ok((form, depth))
}

#[tactic(auto, unfolding(crate::specs::Rows::construct_named))]
fn construct_named(
    alloc: Global,
    construct: Name,
    name: &[u8],
    items: Queue<Item>,
) -> Result<(Form, u32), Refusal>
    ensures { Gives (λ x. (x.0, x.1)) result (construct_named construct name.now items) }
{
    if is(name, b"if") {
        return named_if_row(construct, items);
    }
    if is(name, b"do") {
        return do_row(alloc, Some(construct), items);
    }
    if is(name, b"select") {
        return select_row(alloc, Some(construct), items);
    }
    if is(name, b"selectcase") {
        return select_case_row(alloc, Some(construct), items);
    }
    Err(Refusal::Unformed)
}

#[tactic(auto, unfolding(crate::specs::Rows::construct_row))]
fn construct_row(
    alloc: Global,
    construct: Name,
    mut items: Queue<Item>,
) -> Result<(Form, u32), Refusal>
    ensures { Gives (λ x. (x.0, x.1)) result (construct_row construct items) }
{
    colon(&mut items)?;
    let name = word_first(&mut items)?;
    construct_named(alloc, construct, name.bytes(), items)
}

#[tactic(auto, unfolding(crate::specs::Rows::action_row))]
fn action_row(
    alloc: Global,
    line: u32,
    name: &[u8],
    items: Queue<Item>,
) -> Result<(Form, u32), Refusal>
    ensures { Gives (λ x. (x.0, x.1)) result (action_row line name.now items) }
{
    let (statement, depth) = action_named(alloc, line, name, items)?;
    Ok((Form::Action { statement }, depth))
}

#[tactic(auto, unfolding(crate::specs::Rows::end_at_once, crate::specs::Rows::end_or_action))]
fn end_at_once(
    alloc: Global,
    line: u32,
    name: &[u8],
    items: Queue<Item>,
) -> Result<(Form, u32), Refusal>
    ensures { Gives (λ x. (x.0, x.1)) result (end_at_once line name.now items) }
{
    match ended_at_once(name) {
        Some(end) => end_behind(Some(end), items),
        None => action_row(alloc, line, name, items),
    }
}

#[tactic(auto, unfolding(crate::specs::Rows::construct_word))]
fn construct_word(
    alloc: Global,
    line: u32,
    name: &[u8],
    items: Queue<Item>,
) -> Result<(Form, u32), Refusal>
    ensures { Gives (λ x. (x.0, x.1)) result (construct_word line name.now items) }
{
    if is(name, b"if") {
        return if_row(alloc, line, items);
    }
    if is(name, b"else") {
        return else_row(items);
    }
    if is(name, b"elseif") {
        return else_if_row(items);
    }
    if is(name, b"do") {
        return do_row(alloc, None, items);
    }
    choice_word(alloc, line, name, items)
}

#[tactic(auto, unfolding(crate::specs::Rows::choice_word))]
fn choice_word(
    alloc: Global,
    line: u32,
    name: &[u8],
    items: Queue<Item>,
) -> Result<(Form, u32), Refusal>
    ensures { Gives (λ x. (x.0, x.1)) result (choice_word line name.now items) }
{
    if is(name, b"select") {
        return select_row(alloc, None, items);
    }
    if is(name, b"selectcase") {
        return select_case_row(alloc, None, items);
    }
    if is(name, b"case") {
        return case_row(alloc, items);
    }
    end_at_once(alloc, line, name, items)
}

#[tactic(auto, unfolding(crate::specs::Rows::specification_word))]
fn specification_word(
    alloc: Global,
    line: u32,
    name: &[u8],
    items: Queue<Item>,
) -> Result<(Form, u32), Refusal>
    ensures { Gives (λ x. (x.0, x.1)) result (specification_word line name.now items) }
{
    if is(name, b"use") {
        return use_row(alloc, line, items);
    }
    if is(name, b"implicit") {
        return implicit_row(items);
    }
    if is(name, b"private") {
        return access_row(alloc, 1, items);
    }
    if is(name, b"public") {
        return access_row(alloc, 0, items);
    }
    generic_word(alloc, line, name, items)
}

#[tactic(auto, unfolding(crate::specs::Rows::generic_word))]
fn generic_word(
    alloc: Global,
    line: u32,
    name: &[u8],
    items: Queue<Item>,
) -> Result<(Form, u32), Refusal>
    ensures { Gives (λ x. (x.0, x.1)) result (generic_word line name.now items) }
{
    if is(name, b"interface") {
        return interface_row(items);
    }
    if is(name, b"procedure") {
        return specifics_row(alloc, items);
    }
    construct_word(alloc, line, name, items)
}

#[tactic(auto, unfolding(crate::specs::Rows::type_word))]
fn type_word(
    alloc: Global,
    line: u32,
    name: &[u8],
    items: Queue<Item>,
) -> Result<(Form, u32), Refusal>
    ensures { Gives (λ x. (x.0, x.1)) result (type_word line name.now items) }
{
    if is(name, b"integer") {
        return integer_row(alloc, line, items);
    }
    if is(name, b"logical") {
        return typed(alloc, line, TypeSpec::Logical, items);
    }
    if is(name, b"character") {
        return character_row(alloc, line, items);
    }
    if is(name, b"type") {
        return type_row(alloc, line, items);
    }
    specification_word(alloc, line, name, items)
}

#[tactic(auto, unfolding(crate::specs::Rows::unit_word))]
fn unit_word(
    alloc: Global,
    line: u32,
    name: &[u8],
    items: Queue<Item>,
) -> Result<(Form, u32), Refusal>
    ensures { Gives (λ x. (x.0, x.1)) result (unit_word line name.now items) }
{
    if is(name, b"program") {
        return program_row(items);
    }
    if is(name, b"module") {
        return module_row(alloc, items);
    }
    if is(name, b"contains") {
        return contains_row(items);
    }
    if is(name, b"end") {
        return end_row(items);
    }
    procedure_word(alloc, line, name, items)
}

#[tactic(auto, unfolding(crate::specs::Rows::procedure_word))]
fn procedure_word(
    alloc: Global,
    line: u32,
    name: &[u8],
    items: Queue<Item>,
) -> Result<(Form, u32), Refusal>
    ensures { Gives (λ x. (x.0, x.1)) result (procedure_word line name.now items) }
{
    if is(name, b"recursive") {
        return recursive_row(alloc, items);
    }
    if is(name, b"subroutine") {
        return subroutine(alloc, items);
    }
    if is(name, b"function") {
        return function(alloc, None, items);
    }
    type_word(alloc, line, name, items)
}

#[tactic(auto, unfolding(crate::specs::Rows::by_word))]
fn by_word(alloc: Global, line: u32, name: Name, items: Queue<Item>) -> Result<(Form, u32), Refusal>
    ensures { Gives (λ x. (x.0, x.1)) result (by_word line name items) }
{
    if is_colon_at(&items, 0) {
        return construct_row(alloc, name, items);
    }
    unit_word(alloc, line, name.bytes(), items)
}

#[tactic(auto, unfolding(crate::specs::Rows::worded))]
fn worded(alloc: Global, line: u32, mut items: Queue<Item>) -> Result<(Form, u32), Refusal>
    ensures { Gives (λ x. (x.0, x.1)) result (worded line items) }
{
    let name = word_first(&mut items)?;
    by_word(alloc, line, name, items)
}

#[tactic(auto, unfolding(crate::specs::Rows::assignment_form))]
fn assignment_form(alloc: Global, line: u32, items: Queue<Item>) -> Result<(Form, u32), Refusal>
    ensures { Gives (λ x. (x.0, x.1)) result (assignment_form line items) }
{
    let (statement, depth) = assignment_row(alloc, line, items)?;
    Ok((Form::Action { statement }, depth))
}

#[tactic(auto, unfolding(crate::specs::Rows::statement_of))]
pub fn statement(alloc: Global, line: u32, items: Queue<Item>) -> Result<(Form, u32), Refusal>
    ensures { Gives (λ x. (x.0, x.1)) result (statement_of line items) }
{
    if is_assignment(&items) {
        return assignment_form(alloc, line, items);
    }
    worded(alloc, line, items)
}
