//! Which output statements are lowered, and the statements of a record.
ghost use Rattle.std.specs.Prelude.{◌≡◌, true, [], ◌∷◌, ◌++◌, IfOk, OnOk, is_some};
ghost use Rattle.pass_array_op.specs.Prints.{IsLowered, or_none, record_for, record_nodes, value_of, values_of, values_put, with_record};

use asr_nodes::code::FORMAT_LIST;
use asr_nodes::{Asr, PrintItem, Stmt};
use lf_base::{ExprId, Memory, StmtId};
use std::alloc::Global;

/// The value of an item of an output list (ISO/IEC 1539-1:2018, R1217), if it is no implied do.
fn value_of(item: &PrintItem) -> Option<ExprId>
    ensures { result ≡ value_of item.now }
{
    match item {
        PrintItem::Value { value } => Some(*value),
        PrintItem::Loop { .. } => None,
    }
}

/// Whether an output list holds no implied do.
fn holds_values(items: &[PrintItem]) -> bool
    ensures { result ≡ is_some (values_of items.now) }
{
    for item in items {
        if value_of(item).is_none() {
            return false;
        }
    }
    true
}

/// Whether a statement is list-directed output of values alone (12.6.3, 13.10.4).
pub(crate) fn is_lowered(node: &Stmt) -> bool
    ensures { result ≡ is_some (values_put node.now) }
{
    match node {
        Stmt::Print { form, items, .. } => *form == FORMAT_LIST && holds_values(items.as_slice()),
        Stmt::Assign { .. }
        | Stmt::If { .. }
        | Stmt::Do { .. }
        | Stmt::While { .. }
        | Stmt::Exit { .. }
        | Stmt::Cycle { .. }
        | Stmt::Select { .. }
        | Stmt::Call { .. }
        | Stmt::Read { .. }
        | Stmt::Stop { .. }
        | Stmt::Return { .. }
        | Stmt::Block { .. }
        | Stmt::Let { .. }
        | Stmt::Room { .. }
        | Stmt::Count { .. }
        | Stmt::Same { .. }
        | Stmt::Probe { .. }
        | Stmt::Begin { .. }
        | Stmt::Put { .. }
        | Stmt::End { .. } => false,
    }
}

fn push(nodes: &mut Vec<Stmt>, node: Stmt) -> Result<(), Memory>
    ensures { OnOk result (nodes.new.items ≡ nodes.old.items ++ node ∷ []) }
{
    match nodes.push(node) {
        Ok(()) => Ok(()),
        Err(_) => Err(Memory),
    }
}

/// The values of an output list that holds no implied do.
fn values(alloc: Global, items: &[PrintItem]) -> Result<Vec<ExprId>, Memory>
    requires { is_some (values_of items.now) ≡ true }
    ensures { IfOk result (λ values. values.items ≡ or_none (values_of items.now)) }
{
    let mut values = Vec::new(alloc);
    for item in items {
        if let Some(value) = value_of(item) {
            match values.push(value) {
                Ok(()) => {}
                Err(_) => return Err(Memory),
            }
        }
    }
    Ok(values)
}

/// The statements that begin a record, put the values into it and end it.
fn record(alloc: Global, line: u32, number: u64, values: &[ExprId]) -> Result<Vec<Stmt>, Memory>
    ensures { IfOk result (λ nodes. nodes.items ≡ record_nodes line number values.now) }
{
    let mut nodes = Vec::new(alloc);
    push(&mut nodes, Stmt::Begin { line, number })?;
    for value in values {
        push(
            &mut nodes,
            Stmt::Put {
                line,
                number,
                value: *value,
            },
        )?;
    }
    push(&mut nodes, Stmt::End { line })?;
    Ok(nodes)
}

/// The record that stands for an output statement that is lowered.
fn record_for(alloc: Global, node: &Stmt, number: u64) -> Result<Vec<Stmt>, Memory>
    requires { is_some (values_put node.now) ≡ true }
    ensures { IfOk result (λ nodes. nodes.items ≡ record_for node.now number) }
{
    match node {
        Stmt::Print { line, items, .. } => {
            let values = values(alloc, items.as_slice())?;
            record(alloc, *line, number, &values)
        }
        _ => Ok(Vec::new(alloc)),
    }
}

/// Puts a block of its record in the place of an output statement that is lowered.
pub(crate) fn lower_print(asr: &mut Asr, at: StmtId, number: u64) -> Result<(), Memory>
    requires { IsLowered asr.old at }
    ensures { OnOk result (asr.new ≡ with_record asr.old at number) }
{
    asr.sound();
    let nodes = record_for(asr.allocator(), asr.stmt(at), number)?;
    asr.splice(at, nodes)
}
