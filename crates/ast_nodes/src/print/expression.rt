//! Expressions and designators.

ghost use Rattle.std.specs.Prelude.{◌≡◌, [], ◌∷◌, codes, IfSome, option_map};
ghost use Rattle.std.specs.Fmt.{decimal};
ghost use Rattle.lf_base.specs.Contents.{joined};
ghost use Rattle.ast_nodes.specs.Prints.{Prints};
ghost use Rattle.ast_nodes.specs.Node.{behind_blank, node, lead, listed, optional};
ghost use Rattle.ast_nodes.specs.Exprs.{expr_text, expr_texts, part_text, part_texts, designator_text};

use crate::expression::{Designator, Expr, RefPart};
use crate::print::piece::{
    Ended, put, put_between, put_digits, put_literal, put_missing, put_named, put_number,
    put_opened, put_quoted, put_word,
};
use lf_base::{Name, Sink};
use sqlite_items::{Boxed, Items};

#[cycle(expr)]
#[tactic(auto, using(crate::proofs::Texts::texts))]
fn put_expr<O: Sink>(before: Ended, out: &mut O, expr: &Expr) -> Ended
    ensures { Prints O.contents O.faults O.may_fail O.takes_memory O.keeps before result out.old out.new (expr_text expr.now) }
{
    match expr {
        Expr::Int { digits, suffix } => {
            let ended = put_opened(before, out, b"(Int");
            let ended = put_quoted(ended, out, digits.as_slice());
            let ended = put_number(ended, out, u32::from(*suffix));
            put(ended, out, b")")
        }
        Expr::Log { value } => {
            let ended = put_opened(before, out, b"(Log");
            let ended = put_number(ended, out, u32::from(*value));
            put(ended, out, b")")
        }
        Expr::Char { bytes } => {
            let ended = put_opened(before, out, b"(Char");
            let ended = put_quoted(ended, out, bytes.as_slice());
            put(ended, out, b")")
        }
        Expr::Ref { designator } => put_designator(before, out, designator),
        Expr::Triple { lower, upper, step } => {
            let ended = put_opened(before, out, b"(Triple");
            let ended = put_optional_operand(ended, out, lower);
            let ended = put_optional_operand(ended, out, upper);
            let ended = put_optional_operand(ended, out, step);
            put(ended, out, b")")
        }
        Expr::Unary { operator, operand } => {
            let ended = put_opened(before, out, b"(Unary");
            let ended = put_number(ended, out, u32::from(*operator));
            let ended = put_operand(ended, out, operand);
            put(ended, out, b")")
        }
        Expr::Binary {
            operator,
            left,
            right,
        } => {
            let ended = put_opened(before, out, b"(Binary");
            let ended = put_number(ended, out, u32::from(*operator));
            let ended = put_operand(ended, out, left);
            let ended = put_operand(ended, out, right);
            put(ended, out, b")")
        }
        Expr::Paren { inner } => {
            let ended = put_opened(before, out, b"(Paren");
            let ended = put_operand(ended, out, inner);
            put(ended, out, b")")
        }
        Expr::Array { items } => {
            let ended = put_opened(before, out, b"(Array");
            let ended = put_items(ended, out, items);
            put(ended, out, b")")
        }
        Expr::Loop {
            variable,
            lower,
            upper,
            step,
            items,
        } => {
            let ended = put_named(before, out, b"Loop", variable);
            let ended = put_operand(ended, out, lower);
            let ended = put_operand(ended, out, upper);
            let ended = put_optional_operand(ended, out, step);
            let ended = put_items(ended, out, items);
            put(ended, out, b")")
        }
    }
}

#[cycle(expr)]
#[tactic(auto, using(crate::proofs::Chains::chains))]
fn put_behind_blank<O: Sink>(before: Ended, out: &mut O, expr: &Expr) -> Ended
    ensures { Prints O.contents O.faults O.may_fail O.takes_memory O.keeps before result out.old out.new (behind_blank (expr_text expr.now)) }
{
    let ended = put(before, out, b" ");
    put_expr(ended, out, expr)
}

// An expression behind a blank. The commonest shapes have the blank in their first piece.
#[cycle(expr)]
pub(crate) fn put_value<O: Sink>(before: Ended, out: &mut O, expr: &Expr) -> Ended
    ensures { Prints O.contents O.faults O.may_fail O.takes_memory O.keeps before result out.old out.new (behind_blank (expr_text expr.now)) }
{
    match expr {
        Expr::Int { digits, suffix } => put_literal(before, out, digits.as_slice(), *suffix),
        Expr::Ref { designator } => put_place(before, out, designator),
        Expr::Binary {
            operator,
            left,
            right,
        } => {
            let ended = put(before, out, b" (Binary ");
            let ended = put_digits(ended, out, u32::from(*operator));
            let ended = put_operand(ended, out, left);
            let ended = put_operand(ended, out, right);
            put(ended, out, b")")
        }
        Expr::Paren { inner } => {
            let ended = put(before, out, b" (Paren");
            let ended = put_operand(ended, out, inner);
            put(ended, out, b")")
        }
        other => put_behind_blank(before, out, other),
    }
}

#[cycle(expr)]
pub(crate) fn put_operand<O: Sink>(before: Ended, out: &mut O, operand: &Boxed<Expr>) -> Ended
    ensures { Prints O.contents O.faults O.may_fail O.takes_memory O.keeps before result out.old out.new (behind_blank (expr_text operand.now)) }
{
    put_value(before, out, operand.get())
}

#[cycle(expr)]
pub(crate) fn put_optional_operand<O: Sink>(
    before: Ended,
    out: &mut O,
    expr: &Option<Boxed<Expr>>,
) -> Ended
    ensures { Prints O.contents O.faults O.may_fail O.takes_memory O.keeps before result out.old out.new (behind_blank (optional (option_map expr_text expr.now))) }
{
    match expr {
        Some(expr) => put_value(before, out, expr.get()),
        None => put_missing(before, out),
    }
}

#[cycle(expr)]
fn put_items<O: Sink>(before: Ended, out: &mut O, items: &Items<Expr>) -> Ended
    ensures { Prints O.contents O.faults O.may_fail O.takes_memory O.keeps before result out.old out.new (behind_blank (listed (expr_texts items.now))) }
{
    put_exprs(before, out, items.as_slice())
}

// An expression of a list. A blank stands in front of each but the first.
#[cycle(expr)]
fn put_listed<O: Sink>(before: Ended, out: &mut O, is_first: bool, expr: &Expr) -> Ended
    ensures { Prints O.contents O.faults O.may_fail O.takes_memory O.keeps before result out.old out.new (joined (lead is_first ∷ expr_text expr.now ∷ [])) }
{
    if is_first {
        put_expr(before, out, expr)
    } else {
        put_value(before, out, expr)
    }
}

#[cycle(expr)]
#[tactic(auto, using(crate::proofs::Chains::lists))]
pub(crate) fn put_exprs<O: Sink>(before: Ended, out: &mut O, exprs: &[Expr]) -> Ended
    ensures { Prints O.contents O.faults O.may_fail O.takes_memory O.keeps before result out.old out.new (behind_blank (listed (expr_texts exprs.now))) }
{
    let mut ended = put(before, out, b" [");
    let mut is_first = true;
    for expr in exprs {
        ended = put_listed(ended, out, is_first, expr);
        is_first = false;
    }
    put(ended, out, b"]")
}

#[cycle(expr)]
#[tactic(auto, using(crate::proofs::Chains::chains))]
fn put_all_parts<O: Sink>(before: Ended, out: &mut O, parts: &[RefPart]) -> Ended
    ensures { Prints O.contents O.faults O.may_fail O.takes_memory O.keeps before result out.old out.new (node (codes "Ref") (listed (part_texts parts.now) ∷ [])) }
{
    let ended = put_opened(before, out, b"(Ref");
    let ended = put_parts(ended, out, parts);
    put(ended, out, b")")
}

fn name_of(part: &RefPart) -> Option<&Name>
    ensures { IfSome result (λ name. part.now ≡ RefPart.Part name.now) }
{
    match part {
        RefPart::Part { name } => Some(name),
        RefPart::Group { .. } => None,
    }
}

// The name of a designator that is one name.
fn only_name(parts: &[RefPart]) -> Option<&Name>
    ensures { IfSome result (λ name. parts.now ≡ RefPart.Part name.now ∷ []) }
{
    match parts {
        [part] => name_of(part),
        _ => None,
    }
}

// One name is the commonest designator.
#[cycle(expr)]
fn put_designator<O: Sink>(before: Ended, out: &mut O, designator: &Designator) -> Ended
    ensures { Prints O.contents O.faults O.may_fail O.takes_memory O.keeps before result out.old out.new (designator_text designator.now) }
{
    match only_name(designator.parts.as_slice()) {
        Some(name) => put_between(before, out, b"(Ref [(Part ", name.bytes(), b")])"),
        None => put_all_parts(before, out, designator.parts.as_slice()),
    }
}

#[cycle(expr)]
#[tactic(auto, using(crate::proofs::Texts::texts))]
fn put_part<O: Sink>(before: Ended, out: &mut O, part: &RefPart) -> Ended
    ensures { Prints O.contents O.faults O.may_fail O.takes_memory O.keeps before result out.old out.new (part_text part.now) }
{
    match part {
        RefPart::Part { name } => {
            let ended = put_opened(before, out, b"(Part");
            let ended = put_word(ended, out, name.bytes());
            put(ended, out, b")")
        }
        RefPart::Group { arguments } => {
            let ended = put_opened(before, out, b"(Group");
            let ended = put_items(ended, out, arguments);
            put(ended, out, b")")
        }
    }
}

#[cycle(expr)]
#[tactic(auto, using(crate::proofs::Chains::chains))]
fn put_led_part<O: Sink>(before: Ended, out: &mut O, lead: &[u8], part: &RefPart) -> Ended
    ensures { Prints O.contents O.faults O.may_fail O.takes_memory O.keeps before result out.old out.new (joined (lead.now ∷ part_text part.now ∷ [])) }
{
    let ended = put(before, out, lead);
    put_part(ended, out, part)
}

#[cycle(expr)]
#[tactic(auto, using(crate::proofs::Chains::lists))]
fn put_parts<O: Sink>(before: Ended, out: &mut O, parts: &[RefPart]) -> Ended
    ensures { Prints O.contents O.faults O.may_fail O.takes_memory O.keeps before result out.old out.new (behind_blank (listed (part_texts parts.now))) }
{
    let mut ended = put(before, out, b" [");
    let mut lead: &[u8] = b"";
    for part in parts {
        ended = put_led_part(ended, out, lead, part);
        lead = b" ";
    }
    put(ended, out, b"]")
}

#[cycle(expr)]
#[tactic(auto, using(crate::proofs::Chains::chains))]
fn put_led_parts<O: Sink>(before: Ended, out: &mut O, parts: &[RefPart]) -> Ended
    ensures { Prints O.contents O.faults O.may_fail O.takes_memory O.keeps before result out.old out.new (behind_blank (node (codes "Ref") (listed (part_texts parts.now) ∷ []))) }
{
    let ended = put(before, out, b" ");
    put_all_parts(ended, out, parts)
}

// A name and the part behind it.
#[cycle(expr)]
fn put_pair<O: Sink>(before: Ended, out: &mut O, name: &Name, part: &RefPart) -> Ended
    ensures { Prints O.contents O.faults O.may_fail O.takes_memory O.keeps before result out.old out.new (behind_blank (node (codes "Ref") (listed (node (codes "Part") (name.now ∷ []) ∷ part_text part.now ∷ []) ∷ []))) }
{
    let ended = put_between(before, out, b" (Ref [(Part ", name.bytes(), b") ");
    let ended = put_part(ended, out, part);
    put(ended, out, b"])")
}

// A designator that is not one name, behind a blank.
#[cycle(expr)]
fn put_longer<O: Sink>(before: Ended, out: &mut O, parts: &[RefPart]) -> Ended
    ensures { Prints O.contents O.faults O.may_fail O.takes_memory O.keeps before result out.old out.new (behind_blank (node (codes "Ref") (listed (part_texts parts.now) ∷ []))) }
{
    match parts {
        [first, second] => match name_of(first) {
            Some(name) => put_pair(before, out, name, second),
            None => put_led_parts(before, out, parts),
        },
        _ => put_led_parts(before, out, parts),
    }
}

// A designator behind a blank.
#[cycle(expr)]
pub(crate) fn put_place<O: Sink>(before: Ended, out: &mut O, place: &Designator) -> Ended
    ensures { Prints O.contents O.faults O.may_fail O.takes_memory O.keeps before result out.old out.new (behind_blank (designator_text place.now)) }
{
    match only_name(place.parts.as_slice()) {
        Some(name) => put_between(before, out, b" (Ref [(Part ", name.bytes(), b")])"),
        None => put_longer(before, out, place.parts.as_slice()),
    }
}
