//! Prints the pieces of a line: types, constants, expressions and calls. Each function is handed how the puts before
//! it ended, puts nothing after a failure, and hands on how its own ended.

ghost use Rattle.std.specs.Prelude.{[], ◌∷◌};
ghost use Rattle.std.specs.Fmt.{decimal};
ghost use Rattle.lf_base.specs.Contents.{joined};
ghost use Rattle.lf_base.specs.Puts.{Puts, Causes};
ghost use Rattle.c_nodes.specs.Text.{type_text, result_text, operator_text, wide_text, constant_text, byte_text, byte_texts, literal_text, behind_comma, behind_commas, listed, subscript_text, member_text, cast_text, expr_text, expr_texts, call_text};

use crate::tree::{CBinary, CExpr, CResult, CType};
use itoa::Buffer;
use lf_base::{Name, PutFault, Sink};

/// How the puts so far ended. After a failure nothing more is put.
pub type Ended = Result<(), PutFault>;

// The greatest constant that is written as its digits alone.
const GREATEST_PLAIN: u64 = 2_147_483_647;

const LITERAL_HEAD: &[u8] = b"(unsigned char *)\"";

pub fn put<O: Sink>(before: Ended, out: &mut O, piece: &[u8]) -> Ended
    ensures text { Puts before result (O.contents out.old) (O.contents out.new) piece.now }
    ensures cause { Causes O.may_fail O.takes_memory before result (O.faults out.old) (O.faults out.new) }
    ensures keeps { O.keeps out.old out.new }
{
    match before {
        Ok(()) => out.put(piece),
        Err(fault) => Err(fault),
    }
}

fn put_number<O: Sink>(before: Ended, out: &mut O, number: u64) -> Ended
    ensures text { Puts before result (O.contents out.old) (O.contents out.new) (decimal number) }
    ensures cause { Causes O.may_fail O.takes_memory before result (O.faults out.old) (O.faults out.new) }
    ensures keeps { O.keeps out.old out.new }
{
    let mut buffer = Buffer::new();
    put(before, out, buffer.format(number).as_bytes())
}

#[tactic(auto, using(lf_base::proofs::Chains::chains))]
fn put_wide<O: Sink>(before: Ended, out: &mut O, number: u64) -> Ended
    ensures text { Puts before result (O.contents out.old) (O.contents out.new) (wide_text number) }
    ensures cause { Causes O.may_fail O.takes_memory before result (O.faults out.old) (O.faults out.new) }
    ensures keeps { O.keeps out.old out.new }
{
    let ended = put(before, out, b"INT64_C(");
    let ended = put_number(ended, out, number);
    put(ended, out, b")")
}

pub fn put_constant<O: Sink>(before: Ended, out: &mut O, value: u64) -> Ended
    ensures text { Puts before result (O.contents out.old) (O.contents out.new) (constant_text value) }
    ensures cause { Causes O.may_fail O.takes_memory before result (O.faults out.old) (O.faults out.new) }
    ensures keeps { O.keeps out.old out.new }
{
    if value <= GREATEST_PLAIN {
        put_number(before, out, value)
    } else {
        put_wide(before, out, value)
    }
}

fn put_operator<O: Sink>(before: Ended, out: &mut O, operator: CBinary) -> Ended
    ensures text { Puts before result (O.contents out.old) (O.contents out.new) (operator_text operator) }
    ensures cause { Causes O.may_fail O.takes_memory before result (O.faults out.old) (O.faults out.new) }
    ensures keeps { O.keeps out.old out.new }
{
    let text: &[u8] = match operator {
        CBinary::Add => b" + ",
        CBinary::Subtract => b" - ",
        CBinary::Multiply => b" * ",
        CBinary::Divide => b" / ",
        CBinary::Remainder => b" % ",
        CBinary::Less => b" < ",
        CBinary::AtMost => b" <= ",
        CBinary::Equal => b" == ",
        CBinary::Differ => b" != ",
        CBinary::And => b" && ",
        CBinary::Or => b" || ",
    };
    put(before, out, text)
}

#[tactic(auto, using(lf_base::proofs::Chains::chains))]
pub fn put_type<O: Sink>(before: Ended, out: &mut O, kind: &CType) -> Ended
    ensures text { Puts before result (O.contents out.old) (O.contents out.new) (type_text kind.now) }
    ensures cause { Causes O.may_fail O.takes_memory before result (O.faults out.old) (O.faults out.new) }
    ensures keeps { O.keeps out.old out.new }
{
    match kind {
        CType::Int64 => put(before, out, b"int64_t"),
        CType::Int32 => put(before, out, b"int32_t"),
        CType::Byte => put(before, out, b"unsigned char"),
        CType::Struct { name } => put(put(before, out, b"struct "), out, name.bytes()),
    }
}

pub fn put_result<O: Sink>(before: Ended, out: &mut O, result_type: &CResult) -> Ended
    ensures text { Puts before result (O.contents out.old) (O.contents out.new) (result_text result_type.now) }
    ensures cause { Causes O.may_fail O.takes_memory before result (O.faults out.old) (O.faults out.new) }
    ensures keeps { O.keeps out.old out.new }
{
    match result_type {
        CResult::Void => put(before, out, b"void"),
        CResult::Int64 => put(before, out, b"int64_t"),
        CResult::Int => put(before, out, b"int"),
    }
}

fn put_byte<O: Sink>(before: Ended, out: &mut O, byte: u8) -> Ended
    ensures text { Puts before result (O.contents out.old) (O.contents out.new) (byte_text byte) }
    ensures cause { Causes O.may_fail O.takes_memory before result (O.faults out.old) (O.faults out.new) }
    ensures keeps { O.keeps out.old out.new }
{
    let escaped = [
        b'\\',
        b'0' + byte / 64,
        b'0' + byte / 8 % 8,
        b'0' + byte % 8,
    ];
    match byte {
        b'"' | b'\\' | b'?' => put(before, out, &escaped),
        b' '..=b'~' => put(before, out, &[byte]),
        _ => put(before, out, &escaped),
    }
}

#[tactic(auto, using(crate::proofs::Texts::loops))]
fn put_bytes<O: Sink>(before: Ended, out: &mut O, bytes: &[u8]) -> Ended
    ensures text { Puts before result (O.contents out.old) (O.contents out.new) (joined (byte_texts bytes.now)) }
    ensures cause { Causes O.may_fail O.takes_memory before result (O.faults out.old) (O.faults out.new) }
    ensures keeps { O.keeps out.old out.new }
{
    let mut ended = before;
    for byte in bytes {
        ended = put_byte(ended, out, *byte);
    }
    ended
}

#[tactic(auto, using(lf_base::proofs::Chains::chains))]
fn put_literal<O: Sink>(before: Ended, out: &mut O, bytes: &[u8]) -> Ended
    ensures text { Puts before result (O.contents out.old) (O.contents out.new) (literal_text bytes.now) }
    ensures cause { Causes O.may_fail O.takes_memory before result (O.faults out.old) (O.faults out.new) }
    ensures keeps { O.keeps out.old out.new }
{
    let ended = put(before, out, LITERAL_HEAD);
    let ended = put_bytes(ended, out, bytes);
    put(ended, out, b"\"")
}

#[tactic(auto, using(lf_base::proofs::Chains::chains))]
fn put_member<O: Sink>(before: Ended, out: &mut O, name: &Name) -> Ended
    ensures text { Puts before result (O.contents out.old) (O.contents out.new) (member_text name.now) }
    ensures cause { Causes O.may_fail O.takes_memory before result (O.faults out.old) (O.faults out.new) }
    ensures keeps { O.keeps out.old out.new }
{
    put(put(before, out, b"."), out, name.bytes())
}

#[cycle(expr)]
#[tactic(auto, using(crate::proofs::Texts::texts))]
pub fn put_expr<O: Sink>(before: Ended, out: &mut O, expr: &CExpr) -> Ended
    ensures text { Puts before result (O.contents out.old) (O.contents out.new) (expr_text expr.now) }
    ensures cause { Causes O.may_fail O.takes_memory before result (O.faults out.old) (O.faults out.new) }
    ensures keeps { O.keeps out.old out.new }
{
    match expr {
        CExpr::Variable { name } => put(before, out, name.bytes()),
        CExpr::Index { base, subscript } => put_subscript(
            put_expr(before, out, base.get()),
            out,
            subscript.get(),
        ),
        CExpr::Member { base, name } => put_member(put_expr(before, out, base.get()), out, name),
        CExpr::Constant { value } => put_constant(before, out, *value),
        CExpr::Greatest => put(before, out, b"INT64_MAX"),
        CExpr::Least => put(before, out, b"INT64_MIN"),
        CExpr::Paren { inner } => put(put_behind(before, out, b"(", inner.get()), out, b")"),
        CExpr::Negate { operand } => put_behind(before, out, b"-", operand.get()),
        CExpr::Not { operand } => put_behind(before, out, b"!", operand.get()),
        CExpr::Binary {
            operator,
            left,
            right,
        } => {
            let ended = put_expr(before, out, left.get());
            let ended = put_operator(ended, out, *operator);
            put_expr(ended, out, right.get())
        }
        CExpr::Cast { kind, operand } => put_cast(before, out, kind, operand.get()),
        CExpr::ToInt { operand } => put_behind(before, out, b"(int)", operand.get()),
        CExpr::Address { place } => put_behind(before, out, b"&", place.get()),
        CExpr::Literal { bytes } => put_literal(before, out, bytes.as_slice()),
    }
}

#[cycle(expr)]
#[tactic(auto, using(lf_base::proofs::Chains::chains))]
fn put_subscript<O: Sink>(before: Ended, out: &mut O, subscript: &CExpr) -> Ended
    ensures text { Puts before result (O.contents out.old) (O.contents out.new) (subscript_text (expr_text subscript.now)) }
    ensures cause { Causes O.may_fail O.takes_memory before result (O.faults out.old) (O.faults out.new) }
    ensures keeps { O.keeps out.old out.new }
{
    let ended = put(before, out, b"[");
    let ended = put_expr(ended, out, subscript);
    put(ended, out, b"]")
}

#[cycle(expr)]
#[tactic(auto, using(lf_base::proofs::Chains::chains))]
fn put_behind<O: Sink>(before: Ended, out: &mut O, word: &[u8], expr: &CExpr) -> Ended
    ensures text { Puts before result (O.contents out.old) (O.contents out.new) (joined (word.now ∷ expr_text expr.now ∷ [])) }
    ensures cause { Causes O.may_fail O.takes_memory before result (O.faults out.old) (O.faults out.new) }
    ensures keeps { O.keeps out.old out.new }
{
    let ended = put(before, out, word);
    put_expr(ended, out, expr)
}

#[cycle(expr)]
#[tactic(auto, using(lf_base::proofs::Chains::chains))]
fn put_cast<O: Sink>(before: Ended, out: &mut O, kind: &CType, operand: &CExpr) -> Ended
    ensures text { Puts before result (O.contents out.old) (O.contents out.new) (cast_text kind.now (expr_text operand.now)) }
    ensures cause { Causes O.may_fail O.takes_memory before result (O.faults out.old) (O.faults out.new) }
    ensures keeps { O.keeps out.old out.new }
{
    let ended = put(before, out, b"(");
    let ended = put_type(ended, out, kind);
    let ended = put(ended, out, b")");
    put_expr(ended, out, operand)
}

// An argument behind the first.
#[tactic(auto, using(lf_base::proofs::Chains::chains))]
fn put_argument<O: Sink>(before: Ended, out: &mut O, argument: &CExpr) -> Ended
    ensures text { Puts before result (O.contents out.old) (O.contents out.new) (behind_comma (expr_text argument.now)) }
    ensures cause { Causes O.may_fail O.takes_memory before result (O.faults out.old) (O.faults out.new) }
    ensures keeps { O.keeps out.old out.new }
{
    let ended = put(before, out, b", ");
    put_expr(ended, out, argument)
}

#[tactic(auto, using(crate::proofs::Texts::loops))]
fn put_more_arguments<O: Sink>(before: Ended, out: &mut O, arguments: &[CExpr]) -> Ended
    ensures text { Puts before result (O.contents out.old) (O.contents out.new) (joined (behind_commas (expr_texts arguments.now))) }
    ensures cause { Causes O.may_fail O.takes_memory before result (O.faults out.old) (O.faults out.new) }
    ensures keeps { O.keeps out.old out.new }
{
    let mut ended = before;
    for argument in arguments {
        ended = put_argument(ended, out, argument);
    }
    ended
}

#[tactic(auto, using(crate::proofs::Texts::listing))]
fn put_arguments<O: Sink>(before: Ended, out: &mut O, arguments: &[CExpr]) -> Ended
    ensures text { Puts before result (O.contents out.old) (O.contents out.new) (listed (expr_texts arguments.now)) }
    ensures cause { Causes O.may_fail O.takes_memory before result (O.faults out.old) (O.faults out.new) }
    ensures keeps { O.keeps out.old out.new }
{
    match arguments.split_first() {
        None => before,
        Some((first, rest)) => {
            let ended = put_expr(before, out, first);
            put_more_arguments(ended, out, rest)
        }
    }
}

#[tactic(auto, using(lf_base::proofs::Chains::chains))]
pub fn put_call<O: Sink>(before: Ended, out: &mut O, callee: &Name, arguments: &[CExpr]) -> Ended
    ensures text { Puts before result (O.contents out.old) (O.contents out.new) (call_text callee.now arguments.now) }
    ensures cause { Causes O.may_fail O.takes_memory before result (O.faults out.old) (O.faults out.new) }
    ensures keeps { O.keeps out.old out.new }
{
    let ended = put(before, out, callee.bytes());
    let ended = put(ended, out, b"(");
    let ended = put_arguments(ended, out, arguments);
    put(ended, out, b")")
}
