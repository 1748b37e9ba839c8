//! The fields of a node that are read through one loop.

ghost use Rattle.std.specs.Prelude.{[], ◌∷◌, option_map};
ghost use Rattle.lf_base.specs.Contents.{joined};
ghost use Rattle.ast_nodes.specs.Prints.{Prints};
ghost use Rattle.ast_nodes.specs.Node.{behind_blank, front, node, optional};
ghost use Rattle.ast_nodes.specs.Exprs.{expr_text, designator_text};
ghost use Rattle.ast_nodes.specs.Fields.{field_text, field_texts};

use crate::expression::{Designator, Expr};
use crate::print::expression::{put_exprs, put_place, put_value};
use crate::print::piece::{
    Ended, put, put_missing, put_name, put_names, put_number, put_optional_name, put_tag,
};
use lf_base::{Name, Sink};
use sqlite_items::Items;

// A field that holds no statement and no declaration.
#[derive(Clone, Copy)]
pub(crate) enum Field<'a> {
    Number(u32),
    Word(&'a Name),
    OptionalName(&'a Option<Name>),
    Names(&'a Items<Name>),
    Value(&'a Expr),
    OptionalValue(&'a Option<Expr>),
    Values(&'a Items<Expr>),
    Place(&'a Designator),
    OptionalPlace(&'a Option<Designator>),
}

pub(crate) fn put_optional_expr<O: Sink>(before: Ended, out: &mut O, expr: &Option<Expr>) -> Ended
    ensures { Prints O.contents O.faults O.may_fail O.takes_memory O.keeps before result out.old out.new (behind_blank (optional (option_map expr_text expr.now))) }
{
    match expr {
        Some(expr) => put_value(before, out, expr),
        None => put_missing(before, out),
    }
}

fn put_optional_place<O: Sink>(before: Ended, out: &mut O, place: &Option<Designator>) -> Ended
    ensures { Prints O.contents O.faults O.may_fail O.takes_memory O.keeps before result out.old out.new (behind_blank (optional (option_map designator_text place.now))) }
{
    match place {
        Some(place) => put_place(before, out, place),
        None => put_missing(before, out),
    }
}

fn put_field<O: Sink>(before: Ended, out: &mut O, field: Field<'_>) -> Ended
    ensures { Prints O.contents O.faults O.may_fail O.takes_memory O.keeps before result out.old out.new (behind_blank (field_text field.entry)) }
{
    match field {
        Field::Number(number) => put_number(before, out, number),
        Field::Word(name) => put_name(before, out, name),
        Field::OptionalName(name) => put_optional_name(before, out, name),
        Field::Names(names) => put_names(before, out, names.as_slice()),
        Field::Value(expr) => put_value(before, out, expr),
        Field::OptionalValue(expr) => put_optional_expr(before, out, expr),
        Field::Values(exprs) => put_exprs(before, out, exprs.as_slice()),
        Field::Place(place) => put_place(before, out, place),
        Field::OptionalPlace(place) => put_optional_place(before, out, place),
    }
}

// The tag of a node and its first fields.
#[tactic(auto, using(crate::proofs::Chains::fronts))]
pub(crate) fn put_front<O: Sink>(
    before: Ended,
    out: &mut O,
    tag: &[u8],
    fields: &[Field<'_>],
) -> Ended
    ensures { Prints O.contents O.faults O.may_fail O.takes_memory O.keeps before result out.old out.new (front tag.now (field_texts fields.now)) }
{
    let mut ended = put_tag(before, out, tag);
    for field in fields {
        ended = put_field(ended, out, *field);
    }
    ended
}

#[tactic(auto, using(crate::proofs::Chains::closing))]
pub(crate) fn put_node<O: Sink>(
    before: Ended,
    out: &mut O,
    tag: &[u8],
    fields: &[Field<'_>],
) -> Ended
    ensures { Prints O.contents O.faults O.may_fail O.takes_memory O.keeps before result out.old out.new (node tag.now (field_texts fields.now)) }
{
    let ended = put_front(before, out, tag, fields);
    put(ended, out, b")")
}
