//! Nodes with all that stands in them.
//!
//! The recursion goes by the depth of the tree alone: lists are gone over by loops.

ghost use Rattle.std.specs.Prelude.{◌≡◌, ◌<◌, [], ◌∷◌, Some, length, slice_get};
ghost use Rattle.lf_base.specs.Contents.{joined};
ghost use Rattle.ast_nodes.specs.Node.{behind_blank, listed};
ghost use Rattle.ast_nodes.specs.Prints.{Prints};
ghost use Rattle.asr_nodes.specs.Shapes.{shown, shape_text, thing_text, maybe_text, group_length, group_texts, field_behind, fields_text, link_text, closers};
ghost use Rattle.asr_nodes.specs.Text.{expr_text, stmt_text};

use crate::asr::Asr;
use crate::print::expr::{expr_shape, no_expr, part_shape, value_shape};
use crate::print::field::{Field, Group, Shape, Thing};
use crate::print::link::{next_link, put_closers};
use crate::print::path::{put_maybe_path, put_path, put_paths};
use crate::print::piece::{
    Ended, put, put_code, put_line, put_missing, put_number, put_quoted, put_signed, put_tag,
    put_word,
};
use crate::print::stmt::{case_shape, item_shape, no_stmt, range_shape, stmt_shape};
use crate::print::symbol::symbol_shape;
use crate::print::ty::{const_shape, dim_shape, elem_shape, len_shape, ty_shape};
use lf_base::{ExprId, Sink, StmtId};

fn shape_of_expr(asr: &Asr, id: ExprId) -> Shape<'_>
    ensures { shape_text (shown asr.now) result ≡ expr_text ((shown asr.now).reading.expr id) }
{
    if asr.has_expr(id) {
        expr_shape(asr.expr(id))
    } else {
        no_expr()
    }
}

fn shape_of_stmt(asr: &Asr, id: StmtId) -> Shape<'_>
    ensures { shape_text (shown asr.now) result ≡ stmt_text ((shown asr.now).reading.stmt id) }
{
    if asr.has_stmt(id) {
        stmt_shape(asr.stmt(id))
    } else {
        no_stmt()
    }
}

fn shape_of<'a>(asr: &'a Asr, thing: Thing<'a>) -> Shape<'a>
    ensures { shape_text (shown asr.now) result ≡ thing_text (shown asr.now) thing.entry }
{
    match thing {
        Thing::Expr(id) => shape_of_expr(asr, id),
        Thing::Stmt(id) => shape_of_stmt(asr, id),
        Thing::Part(part) => part_shape(part),
        Thing::Value(item) => value_shape(item),
        Thing::Output(item) => item_shape(item),
        Thing::Case(case) => case_shape(case),
        Thing::Range(range) => range_shape(range),
        Thing::Const(value) => const_shape(value),
        Thing::Elem(element) => elem_shape(element),
        Thing::Len(len) => len_shape(len),
        Thing::Ty(ty) => ty_shape(ty),
        Thing::Dim(dim) => dim_shape(dim),
        Thing::Symbol(id) => symbol_shape(asr, id),
    }
}

// How many nodes a list has.
fn length_of(asr: &Asr, group: Group<'_>) -> usize
    ensures { result ≡ group_length (shown asr.now) group.entry }
{
    match group {
        Group::Exprs(ids) => ids.len(),
        Group::Stmts(ids) => ids.as_slice().len(),
        Group::Parts(parts) => parts.as_slice().len(),
        Group::Values(items) => items.as_slice().len(),
        Group::Outputs(items) => items.as_slice().len(),
        Group::Cases(cases) => cases.as_slice().len(),
        Group::Ranges(ranges) => ranges.as_slice().len(),
        Group::Inits(ids) => ids.as_slice().len(),
        Group::Dims(dims) => dims.as_slice().len(),
        Group::Table(table) => asr.arena().table_len(table),
    }
}

// The node at a place of a list, from 0.
fn thing_at<'a>(asr: &Asr, group: Group<'a>, place: usize) -> Thing<'a>
    requires { place < group_length (shown asr.now) group }
    ensures { slice_get (group_texts (shown asr.now) group.entry) place ≡ Some (thing_text (shown asr.now) result) }
{
    match group {
        Group::Exprs(ids) => Thing::Expr(ids.at(place)),
        Group::Stmts(ids) => Thing::Stmt(ids.as_slice()[place]),
        Group::Parts(parts) => Thing::Part(&parts.as_slice()[place]),
        Group::Values(items) => Thing::Value(&items.as_slice()[place]),
        Group::Outputs(items) => Thing::Output(&items.as_slice()[place]),
        Group::Cases(cases) => Thing::Case(&cases.as_slice()[place]),
        Group::Ranges(ranges) => Thing::Range(&ranges.as_slice()[place]),
        Group::Inits(ids) => Thing::Expr(ids.as_slice()[place]),
        Group::Dims(dims) => Thing::Dim(&dims.as_slice()[place]),
        Group::Table(table) => Thing::Symbol(asr.arena().nth(table, place)),
    }
}

#[cycle(node)]
#[tactic(auto, using(ast_nodes::proofs::Chains::chains))]
pub(crate) fn put_thing<O: Sink>(before: Ended, out: &mut O, asr: &Asr, thing: Thing<'_>) -> Ended
    ensures { Prints O.contents O.faults O.may_fail O.takes_memory O.keeps before result out.old out.new (thing_text (shown asr.now) thing.entry) }
{
    let shape = shape_of(asr, thing);
    let ended = put_tag(before, out, shape.tag);
    let ended = put_fields(ended, out, asr, &shape.fields);
    put(ended, out, b")")
}

#[cycle(node)]
#[tactic(auto, using(ast_nodes::proofs::Chains::loops))]
fn put_fields<O: Sink>(before: Ended, out: &mut O, asr: &Asr, fields: &[Field<'_>]) -> Ended
    ensures { Prints O.contents O.faults O.may_fail O.takes_memory O.keeps before result out.old out.new (fields_text (shown asr.now) fields.now) }
{
    let mut ended = before;
    for field in fields {
        ended = put_field(ended, out, asr, *field);
    }
    ended
}

#[cycle(node)]
fn put_field<O: Sink>(before: Ended, out: &mut O, asr: &Asr, field: Field<'_>) -> Ended
    ensures { Prints O.contents O.faults O.may_fail O.takes_memory O.keeps before result out.old out.new (field_behind (shown asr.now) field.entry) }
{
    match field {
        Field::Code(code) => put_code(before, out, code),
        Field::Line(line) => put_line(before, out, line),
        Field::Number(number) => put_number(before, out, number),
        Field::Signed(number) => put_signed(before, out, *number),
        Field::Symbol(symbol) => put_path(before, out, asr, symbol),
        Field::Bytes(bytes) => put_quoted(before, out, bytes.as_slice()),
        Field::Word(name) => put_word(before, out, name.bytes()),
        Field::One(thing) => put_operand(before, out, asr, thing),
        Field::Maybe(id) => put_maybe(before, out, asr, id),
        Field::Many(group) => put_group(before, out, asr, group),
        Field::End => before,
        Field::Symbols(ids) => put_paths(before, out, asr, ids.as_slice()),
        Field::MaybeSymbol(id) => put_maybe_path(before, out, asr, id),
    }
}

// Behind a blank.
#[cycle(node)]
#[tactic(auto, using(ast_nodes::proofs::Chains::chains))]
fn put_operand<O: Sink>(before: Ended, out: &mut O, asr: &Asr, thing: Thing<'_>) -> Ended
    ensures { Prints O.contents O.faults O.may_fail O.takes_memory O.keeps before result out.old out.new (behind_blank (thing_text (shown asr.now) thing.entry)) }
{
    let ended = put(before, out, b" ");
    put_thing(ended, out, asr, thing)
}

// An expression that may be missing, behind a blank.
#[cycle(node)]
fn put_maybe<O: Sink>(before: Ended, out: &mut O, asr: &Asr, id: Option<ExprId>) -> Ended
    ensures { Prints O.contents O.faults O.may_fail O.takes_memory O.keeps before result out.old out.new (behind_blank (maybe_text (shown asr.now) id)) }
{
    match id {
        Some(id) => put_operand(before, out, asr, Thing::Expr(id)),
        None => put_missing(before, out),
    }
}

// A node of a list, behind what stands in front of it.
#[cycle(node)]
#[tactic(auto, using(ast_nodes::proofs::Chains::chains))]
fn put_listed<O: Sink>(
    before: Ended,
    out: &mut O,
    asr: &Asr,
    lead: &[u8],
    thing: Thing<'_>,
) -> Ended
    ensures { Prints O.contents O.faults O.may_fail O.takes_memory O.keeps before result out.old out.new (joined (lead.now ∷ thing_text (shown asr.now) thing.entry ∷ [])) }
{
    let ended = put(before, out, lead);
    put_chain(ended, out, asr, thing)
}

#[cycle(node)]
#[tactic(auto, using(ast_nodes::proofs::Chains::lists))]
pub(crate) fn put_group<O: Sink>(before: Ended, out: &mut O, asr: &Asr, group: Group<'_>) -> Ended
    ensures { Prints O.contents O.faults O.may_fail O.takes_memory O.keeps before result out.old out.new (behind_blank (listed (group_texts (shown asr.now) group.entry))) }
{
    let mut ended = put(before, out, b" [");
    let mut lead: &[u8] = b"";
    let count = length_of(asr, group);
    for place in 0..count {
        ended = put_listed(ended, out, asr, lead, thing_at(asr, group, place));
        lead = b" ";
    }
    put(ended, out, b"]")
}

// An `if` up to its `else` part.
#[cycle(node)]
#[tactic(auto, using(ast_nodes::proofs::Chains::chains))]
fn put_link<O: Sink>(before: Ended, out: &mut O, asr: &Asr, fields: &[Field<'_>]) -> Ended
    ensures { Prints O.contents O.faults O.may_fail O.takes_memory O.keeps before result out.old out.new (link_text (shown asr.now) fields.now) }
{
    let ended = put_tag(before, out, b"If");
    let ended = put_fields(ended, out, asr, fields);
    put(ended, out, b" [")
}

// A node. Where it is an `if` whose `else` part is one statement, that one is not nested: a chain of `else if` is gone
// over by a loop.
#[cycle(node)]
fn put_chain<O: Sink>(before: Ended, out: &mut O, asr: &Asr, thing: Thing<'_>) -> Ended
    ensures { Prints O.contents O.faults O.may_fail O.takes_memory O.keeps before result out.old out.new (thing_text (shown asr.now) thing.entry) }
{
    let mut ended = before;
    let mut here = thing;
    let mut links: u32 = 0;
    while let Some(link) = next_link(asr, here, links) {
        ended = put_link(ended, out, asr, &link.fields);
        here = Thing::Stmt(link.next);
        links += 1;
    }
    let ended = put_thing(ended, out, asr, here);
    put_closers(ended, out, links)
}
