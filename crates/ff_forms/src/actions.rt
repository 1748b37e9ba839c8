ghost use Rattle.std.specs.Prelude.{◌≡◌, Some, IfOk};
ghost use Rattle.ff_forms.specs.Answers.{Gives};
ghost use Rattle.ff_forms.specs.Actions.{assigned, assigned_by, assignment_row, call_arguments, call_row, some_code, stop_code, stop_row, error_row, exit_row, cycle_row, return_row, continue_row, transfer_named, stop_named, action_named, action_word, action_of, lone_if};

use crate::chain::is_assignment;
use crate::output::{print_row, read_row, write_row};
use crate::refusal::Refusal;
use crate::shape::{
    arguments, designator, expression, first, is, maybe_word, nothing, only_group, only_one,
    pieces_at, word, word_first,
};
use ast_nodes::{Arm, Expr, Statement};
use ff_expressions::{Item, Mark, Queue};
use sqlite_items::Items;
use std::alloc::Global;

#[tactic(auto, unfolding(crate::specs::Actions::assigned))]
fn assigned(
    alloc: Global,
    line: u32,
    target: Queue<Item>,
    value: Queue<Item>,
) -> Result<(Statement, u32), Refusal>
    ensures { Gives (λ x. (x.0, x.1)) result (assigned line target value) }
{
    let (target, depth) = designator(alloc, target)?;
    let (value, its_depth) = expression(alloc, value)?;
    let statement = Statement::Assign {
        line,
        target,
        value,
    };
    Ok((statement, depth.max(its_depth)))
}

#[tactic(auto, unfolding(crate::specs::Actions::assigned_by))]
fn assigned_by(
    alloc: Global,
    line: u32,
    mut pieces: Queue<Queue<Item>>,
) -> Result<(Statement, u32), Refusal>
    ensures { Gives (λ x. (x.0, x.1)) result (assigned_by line pieces) }
{
    let target = first(&mut pieces)?;
    let value = only_one(pieces)?;
    assigned(alloc, line, target, value)
}

#[tactic(auto, unfolding(crate::specs::Actions::assignment_row))]
pub fn assignment_row(
    alloc: Global,
    line: u32,
    items: Queue<Item>,
) -> Result<(Statement, u32), Refusal>
    ensures { Gives (λ x. (x.0, x.1)) result (assignment_row line items) }
{
    let pieces = pieces_at(alloc, items, Mark::Equals)?;
    assigned_by(alloc, line, pieces)
}

#[tactic(auto, unfolding(crate::specs::Actions::call_arguments))]
fn call_arguments(alloc: Global, items: Queue<Item>) -> Result<(Items<Expr>, u32), Refusal>
    ensures { Gives (λ x. (x.0, x.1)) result (call_arguments items) }
{
    if items.len() == 0 {
        return Ok((Items::new(alloc), 0));
    }
    let parts = only_group(items)?;
    arguments(alloc, parts)
}

#[tactic(auto, unfolding(crate::specs::Actions::call_row))]
fn call_row(alloc: Global, line: u32, mut items: Queue<Item>) -> Result<(Statement, u32), Refusal>
    ensures { Gives (λ x. (x.0, x.1)) result (call_row line items) }
{
    let name = word_first(&mut items)?;
    let (arguments, depth) = call_arguments(alloc, items)?;
    let statement = Statement::Call {
        line,
        name,
        arguments,
    };
    Ok((statement, depth))
}

#[tactic(auto, unfolding(crate::specs::Actions::some_code))]
fn some_code(alloc: Global, items: Queue<Item>) -> Result<(Option<Expr>, u32), Refusal>
    ensures { Gives (λ x. (x.0, x.1)) result (some_code items) }
{
    let (e, depth) = expression(alloc, items)?;
    Ok((Some(e), depth))
}

#[tactic(auto, unfolding(crate::specs::Actions::stop_code))]
fn stop_code(alloc: Global, items: Queue<Item>) -> Result<(Option<Expr>, u32), Refusal>
    ensures { Gives (λ x. (x.0, x.1)) result (stop_code items) }
{
    if items.len() == 0 {
        return Ok((None, 0));
    }
    some_code(alloc, items)
}

#[tactic(auto, unfolding(crate::specs::Actions::stop_row))]
fn stop_row(
    alloc: Global,
    line: u32,
    is_error: u8,
    items: Queue<Item>,
) -> Result<(Statement, u32), Refusal>
    ensures { Gives (λ x. (x.0, x.1)) result (stop_row line is_error items) }
{
    let (code, depth) = stop_code(alloc, items)?;
    let statement = Statement::Stop {
        line,
        is_error,
        code,
    };
    Ok((statement, depth))
}

#[tactic(auto, unfolding(crate::specs::Actions::error_row))]
fn error_row(alloc: Global, line: u32, mut items: Queue<Item>) -> Result<(Statement, u32), Refusal>
    ensures { Gives (λ x. (x.0, x.1)) result (error_row line items) }
{
    word(&mut items, b"stop")?;
    stop_row(alloc, line, 1, items)
}

#[tactic(auto, unfolding(crate::specs::Actions::exit_row))]
fn exit_row(line: u32, items: Queue<Item>) -> Result<(Statement, u32), Refusal>
    ensures { Gives (λ x. (x.0, x.1)) result (exit_row line items) }
{
    let construct = maybe_word(items)?;
    Ok((Statement::Exit { line, construct }, 0))
}

#[tactic(auto, unfolding(crate::specs::Actions::cycle_row))]
fn cycle_row(line: u32, items: Queue<Item>) -> Result<(Statement, u32), Refusal>
    ensures { Gives (λ x. (x.0, x.1)) result (cycle_row line items) }
{
    let construct = maybe_word(items)?;
    Ok((Statement::Cycle { line, construct }, 0))
}

#[tactic(auto, unfolding(crate::specs::Actions::return_row))]
fn return_row(line: u32, items: Queue<Item>) -> Result<(Statement, u32), Refusal>
    ensures { Gives (λ x. (x.0, x.1)) result (return_row line items) }
{
    nothing(items)?;
    Ok((Statement::Return { line }, 0))
}

#[tactic(auto, unfolding(crate::specs::Actions::continue_row))]
fn continue_row(line: u32, items: Queue<Item>) -> Result<(Statement, u32), Refusal>
    ensures { Gives (λ x. (x.0, x.1)) result (continue_row line items) }
{
    nothing(items)?;
    Ok((Statement::Continue { line }, 0))
}

#[tactic(auto, unfolding(crate::specs::Actions::transfer_named))]
fn transfer_named(
    alloc: Global,
    line: u32,
    name: &[u8],
    items: Queue<Item>,
) -> Result<(Statement, u32), Refusal>
    ensures { Gives (λ x. (x.0, x.1)) result (transfer_named line name.now items) }
{
    if is(name, b"print") {
        return print_row(alloc, line, items);
    }
    if is(name, b"write") {
        return write_row(alloc, line, items);
    }
    if is(name, b"read") {
        return read_row(alloc, line, items);
    }
    Err(Refusal::Unformed)
}

#[tactic(auto, unfolding(crate::specs::Actions::action_named))]
pub fn action_named(
    alloc: Global,
    line: u32,
    name: &[u8],
    items: Queue<Item>,
) -> Result<(Statement, u32), Refusal>
    ensures { Gives (λ x. (x.0, x.1)) result (action_named line name.now items) }
{
    if is(name, b"call") {
        return call_row(alloc, line, items);
    }
    if is(name, b"return") {
        return return_row(line, items);
    }
    if is(name, b"continue") {
        return continue_row(line, items);
    }
    stop_named(alloc, line, name, items)
}

#[tactic(auto, unfolding(crate::specs::Actions::stop_named))]
fn stop_named(
    alloc: Global,
    line: u32,
    name: &[u8],
    items: Queue<Item>,
) -> Result<(Statement, u32), Refusal>
    ensures { Gives (λ x. (x.0, x.1)) result (stop_named line name.now items) }
{
    if is(name, b"stop") {
        return stop_row(alloc, line, 0, items);
    }
    if is(name, b"error") {
        return error_row(alloc, line, items);
    }
    if is(name, b"exit") {
        return exit_row(line, items);
    }
    if is(name, b"cycle") {
        return cycle_row(line, items);
    }
    transfer_named(alloc, line, name, items)
}

#[tactic(auto, unfolding(crate::specs::Actions::action_word))]
fn action_word(
    alloc: Global,
    line: u32,
    mut items: Queue<Item>,
) -> Result<(Statement, u32), Refusal>
    ensures { Gives (λ x. (x.0, x.1)) result (action_word line items) }
{
    let name = word_first(&mut items)?;
    action_named(alloc, line, name.bytes(), items)
}

#[tactic(auto, unfolding(crate::specs::Actions::action_of))]
pub fn action(alloc: Global, line: u32, items: Queue<Item>) -> Result<(Statement, u32), Refusal>
    ensures { Gives (λ x. (x.0, x.1)) result (action_of line items) }
{
    if is_assignment(&items) {
        return assignment_row(alloc, line, items);
    }
    action_word(alloc, line, items)
}

#[tactic(auto, unfolding(crate::specs::Actions::lone_if))]
pub fn lone_if(
    alloc: Global,
    line: u32,
    condition: Expr,
    action: Statement,
) -> Result<Statement, Refusal>
    ensures { Gives (λ statement. statement) result (Some (lone_if line condition action)) }
{
    let mut body = Items::new(alloc);
    body.push(action)?;
    let arm = Arm {
        line,
        condition: Some(condition),
        body,
    };
    let mut arms = Items::new(alloc);
    arms.push(arm)?;
    Ok(Statement::If {
        line,
        construct: None,
        arms,
    })
}
