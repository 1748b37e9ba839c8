//! The nodes that a visit has still to come to.

ghost use Rattle.std.specs.Prelude.{◌≡◌, ◌++◌, [], ◌∷◌, map, OnOk};
ghost use Rattle.asr_nodes.specs.Keys.{expr, exprs, stmts, perhaps, chained};
ghost use Rattle.asr_nodes.specs.Parts.{section_part_parts, array_item_parts, print_item_parts, case_parts};
ghost use Rattle.asr_nodes.specs.Visiting.{behind, keys_behind, keys_of, pending_keys, piece_keys};

use crate::ids::ExprIds;
use crate::node::{ArrayItem, Case, PrintItem, SectionPart};
use crate::visit::piece::Piece;
use lf_base::{ExprId, Memory, StmtId};

// An expression, or a statement and those behind it in its block.
#[derive(Clone, Copy)]
pub(crate) enum Pending<'a> {
    Expr(ExprId),
    Stmts(StmtId, &'a [StmtId]),
}

fn push<'a>(list: &mut Vec<Pending<'a>>, pending: Pending<'a>) -> Result<(), Memory>
    ensures { OnOk result (keys_of list.new.items ≡ keys_of list.old.items ++ pending_keys pending.entry) }
{
    match list.push(pending) {
        Ok(()) => Ok(()),
        Err(_) => Err(Memory),
    }
}

pub(crate) fn push_expr(list: &mut Vec<Pending<'_>>, id: ExprId) -> Result<(), Memory>
    ensures { OnOk result (keys_of list.new.items ≡ keys_of list.old.items ++ expr id ∷ []) }
{
    push(list, Pending::Expr(id))
}

pub(crate) fn push_block<'a>(list: &mut Vec<Pending<'a>>, ids: &'a [StmtId]) -> Result<(), Memory>
    ensures { OnOk result (keys_of list.new.items ≡ keys_of list.old.items ++ stmts ids.now) }
{
    match ids.split_first() {
        Some((first, behind)) => push(list, Pending::Stmts(*first, behind)),
        None => Ok(()),
    }
}

fn push_maybe(list: &mut Vec<Pending<'_>>, id: Option<ExprId>) -> Result<(), Memory>
    ensures { OnOk result (keys_of list.new.items ≡ keys_of list.old.items ++ perhaps id) }
{
    match id {
        Some(id) => push_expr(list, id),
        None => Ok(()),
    }
}

fn push_exprs(list: &mut Vec<Pending<'_>>, ids: &ExprIds) -> Result<(), Memory>
    ensures { OnOk result (keys_of list.new.items ≡ keys_of list.old.items ++ exprs ids.now) }
{
    for place in 0..ids.len() {
        push_expr(list, ids.at(place))?;
    }
    Ok(())
}

fn push_section(list: &mut Vec<Pending<'_>>, part: &SectionPart) -> Result<(), Memory>
    ensures { OnOk result (keys_of list.new.items ≡ keys_of list.old.items ++ section_part_parts part.now) }
{
    match part {
        SectionPart::At { index } => push_expr(list, *index),
        SectionPart::Triple { lower, upper, step } => {
            push_maybe(list, *lower)?;
            push_maybe(list, *upper)?;
            push_maybe(list, *step)
        }
    }
}

fn push_sections(list: &mut Vec<Pending<'_>>, parts: &[SectionPart]) -> Result<(), Memory>
    ensures { OnOk result (keys_of list.new.items ≡ keys_of list.old.items ++ chained (map section_part_parts parts.now)) }
{
    for part in parts {
        push_section(list, part)?;
    }
    Ok(())
}

#[cycle(values)]
fn push_value(list: &mut Vec<Pending<'_>>, item: &ArrayItem) -> Result<(), Memory>
    ensures { OnOk result (keys_of list.new.items ≡ keys_of list.old.items ++ array_item_parts item.now) }
{
    match item {
        ArrayItem::Value { value } => push_expr(list, *value),
        ArrayItem::Loop { items, .. } => push_values(list, items.as_slice()),
    }
}

#[cycle(values)]
fn push_values(list: &mut Vec<Pending<'_>>, items: &[ArrayItem]) -> Result<(), Memory>
    ensures { OnOk result (keys_of list.new.items ≡ keys_of list.old.items ++ chained (map array_item_parts items.now)) }
{
    for item in items {
        push_value(list, item)?;
    }
    Ok(())
}

fn push_bounds(
    list: &mut Vec<Pending<'_>>,
    variable: ExprId,
    lower: ExprId,
    upper: ExprId,
    step: ExprId,
) -> Result<(), Memory>
    ensures { OnOk result (keys_of list.new.items ≡ keys_of list.old.items ++ expr variable ∷ expr lower ∷ expr upper ∷ expr step ∷ []) }
{
    push_expr(list, variable)?;
    push_expr(list, lower)?;
    push_expr(list, upper)?;
    push_expr(list, step)
}

#[cycle(outputs)]
fn push_output(list: &mut Vec<Pending<'_>>, item: &PrintItem) -> Result<(), Memory>
    ensures { OnOk result (keys_of list.new.items ≡ keys_of list.old.items ++ print_item_parts item.now) }
{
    match item {
        PrintItem::Value { value } => push_expr(list, *value),
        PrintItem::Loop {
            variable,
            lower,
            upper,
            step,
            items,
        } => {
            push_bounds(list, *variable, *lower, *upper, *step)?;
            push_outputs(list, items.as_slice())
        }
    }
}

#[cycle(outputs)]
fn push_outputs(list: &mut Vec<Pending<'_>>, items: &[PrintItem]) -> Result<(), Memory>
    ensures { OnOk result (keys_of list.new.items ≡ keys_of list.old.items ++ chained (map print_item_parts items.now)) }
{
    for item in items {
        push_output(list, item)?;
    }
    Ok(())
}

fn push_cases<'a>(list: &mut Vec<Pending<'a>>, cases: &'a [Case]) -> Result<(), Memory>
    ensures { OnOk result (keys_of list.new.items ≡ keys_of list.old.items ++ chained (map case_parts cases.now)) }
{
    for case in cases {
        push_block(list, case.body.as_slice())?;
    }
    Ok(())
}

fn push_piece<'a>(list: &mut Vec<Pending<'a>>, piece: Piece<'a>) -> Result<(), Memory>
    ensures { OnOk result (keys_of list.new.items ≡ keys_of list.old.items ++ piece_keys piece.entry) }
{
    match piece {
        Piece::Nothing => Ok(()),
        Piece::Expr(id) => push_expr(list, id),
        Piece::Maybe(id) => push_maybe(list, id),
        Piece::Exprs(ids) => push_exprs(list, ids),
        Piece::Stmts(ids) => push_block(list, ids.as_slice()),
        Piece::Sections(parts) => push_sections(list, parts.as_slice()),
        Piece::Values(items) => push_values(list, items.as_slice()),
        Piece::Outputs(items) => push_outputs(list, items.as_slice()),
        Piece::Cases(cases) => push_cases(list, cases.as_slice()),
    }
}

/// Puts the parts of a node last, field by field.
pub(crate) fn push_pieces<'a>(
    list: &mut Vec<Pending<'a>>,
    pieces: &[Piece<'a>],
) -> Result<(), Memory>
    ensures { OnOk result (keys_of list.new.items ≡ behind (keys_of list.old.items) pieces.now) }
{
    for piece in pieces {
        push_piece(list, *piece)?;
    }
    Ok(())
}

/// Puts the statements last that stand behind one in its block.
pub(crate) fn push_behind<'a>(
    list: &mut Vec<Pending<'a>>,
    pending: Pending<'a>,
) -> Result<(), Memory>
    ensures { OnOk result (keys_of list.new.items ≡ keys_of list.old.items ++ keys_behind pending.entry) }
{
    match pending {
        Pending::Expr(_) => Ok(()),
        Pending::Stmts(_, behind) => push_block(list, behind),
    }
}
