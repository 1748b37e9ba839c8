//! Prints a C file piece by piece. Each function is handed how the puts before it ended, puts nothing after a
//! failure, and hands on how its own ended.

ghost use Rattle.std.specs.Prelude.{◌≡◌, false, [], ◌∷◌, Ok, OnOk, OnErr};
ghost use Rattle.lf_base.specs.Causes.{HasCause};
ghost use Rattle.lf_base.specs.Contents.{Appends, AppendsPart, joined};
ghost use Rattle.lf_base.specs.Puts.{Puts, Causes};
ghost use Rattle.c_nodes.specs.Text.{behind_comma, behind_commas, listed, declared_text, pointer_text, stored_text, received_text, array_text, returned_text, returned_call_text, plain_text, initialized_text, initialized_pointer_text, initialized_by_text, assigned_text, assigned_by_text, called_text, goto_text, label_text, opened_text, closed_text, guarded_text, else_text, stmt_text, stmt_texts, parameter_text, parameter_texts, enclosed_text, parameters_text, head_text, static_text, sized_text, object_text, object_texts, extern_text, structure_text, static_pointer_text, item_text, item_texts, file_text};

use crate::expressions::{Ended, put, put_call, put_constant, put_expr, put_result, put_type};
use crate::tree::{CExpr, CFile, CItem, CObject, CParameter, CResult, CStmt, CType};
use lf_base::{Name, PutFault, Sink};

const HEADERS: &[u8] = b"#include <stdint.h>\n#include <stdio.h>\n#include <stdlib.h>\n";

#[tactic(auto, using(lf_base::proofs::Chains::chains))]
fn put_declared<O: Sink>(before: Ended, out: &mut O, kind: &CType, name: &Name) -> Ended
    ensures text { Puts before result (O.contents out.old) (O.contents out.new) (declared_text kind.now name.now) }
    ensures cause { Causes O.may_fail O.takes_memory before result (O.faults out.old) (O.faults out.new) }
    ensures keeps { O.keeps out.old out.new }
{
    let ended = put_type(before, out, kind);
    let ended = put(ended, out, b" ");
    put(ended, out, name.bytes())
}

#[tactic(auto, using(lf_base::proofs::Chains::chains))]
fn put_pointer<O: Sink>(before: Ended, out: &mut O, kind: &CType, name: &Name) -> Ended
    ensures text { Puts before result (O.contents out.old) (O.contents out.new) (pointer_text kind.now name.now) }
    ensures cause { Causes O.may_fail O.takes_memory before result (O.faults out.old) (O.faults out.new) }
    ensures keeps { O.keeps out.old out.new }
{
    let ended = put_type(before, out, kind);
    let ended = put(ended, out, b" *");
    put(ended, out, name.bytes())
}

// The value behind a declaration or a place, to the end of the line.
#[tactic(auto, using(lf_base::proofs::Chains::chains))]
fn put_stored<O: Sink>(before: Ended, out: &mut O, value: &CExpr) -> Ended
    ensures text { Puts before result (O.contents out.old) (O.contents out.new) (stored_text value.now) }
    ensures cause { Causes O.may_fail O.takes_memory before result (O.faults out.old) (O.faults out.new) }
    ensures keeps { O.keeps out.old out.new }
{
    let ended = put(before, out, b" = ");
    let ended = put_expr(ended, out, value);
    put(ended, out, b";\n")
}

#[tactic(auto, using(lf_base::proofs::Chains::chains))]
fn put_received<O: Sink>(before: Ended, out: &mut O, callee: &Name, arguments: &[CExpr]) -> Ended
    ensures text { Puts before result (O.contents out.old) (O.contents out.new) (received_text callee.now arguments.now) }
    ensures cause { Causes O.may_fail O.takes_memory before result (O.faults out.old) (O.faults out.new) }
    ensures keeps { O.keeps out.old out.new }
{
    let ended = put(before, out, b" = ");
    let ended = put_call(ended, out, callee, arguments);
    put(ended, out, b";\n")
}

#[tactic(auto, using(lf_base::proofs::Chains::chains))]
fn put_array<O: Sink>(before: Ended, out: &mut O, kind: &CType, name: &Name, size: &CExpr) -> Ended
    ensures text { Puts before result (O.contents out.old) (O.contents out.new) (array_text kind.now name.now size.now) }
    ensures cause { Causes O.may_fail O.takes_memory before result (O.faults out.old) (O.faults out.new) }
    ensures keeps { O.keeps out.old out.new }
{
    let ended = put_declared(before, out, kind, name);
    let ended = put(ended, out, b"[");
    let ended = put_expr(ended, out, size);
    put(ended, out, b"];\n")
}

#[tactic(auto, using(lf_base::proofs::Chains::chains))]
fn put_returned<O: Sink>(before: Ended, out: &mut O, value: &CExpr) -> Ended
    ensures text { Puts before result (O.contents out.old) (O.contents out.new) (returned_text value.now) }
    ensures cause { Causes O.may_fail O.takes_memory before result (O.faults out.old) (O.faults out.new) }
    ensures keeps { O.keeps out.old out.new }
{
    let ended = put(before, out, b"return ");
    let ended = put_expr(ended, out, value);
    put(ended, out, b";\n")
}

#[tactic(auto, using(lf_base::proofs::Chains::chains))]
fn put_returned_call<O: Sink>(
    before: Ended,
    out: &mut O,
    callee: &Name,
    arguments: &[CExpr],
) -> Ended
    ensures text { Puts before result (O.contents out.old) (O.contents out.new) (returned_call_text callee.now arguments.now) }
    ensures cause { Causes O.may_fail O.takes_memory before result (O.faults out.old) (O.faults out.new) }
    ensures keeps { O.keeps out.old out.new }
{
    let ended = put(before, out, b"return ");
    let ended = put_call(ended, out, callee, arguments);
    put(ended, out, b";\n")
}

#[tactic(auto, using(lf_base::proofs::Chains::chains))]
fn put_opened<O: Sink>(before: Ended, out: &mut O, word: &[u8], test: &CExpr) -> Ended
    ensures text { Puts before result (O.contents out.old) (O.contents out.new) (opened_text word.now test.now) }
    ensures cause { Causes O.may_fail O.takes_memory before result (O.faults out.old) (O.faults out.new) }
    ensures keeps { O.keeps out.old out.new }
{
    let ended = put(before, out, word);
    let ended = put_expr(ended, out, test);
    put(ended, out, b") {\n")
}

#[tactic(auto, using(lf_base::proofs::Chains::chains))]
fn put_plain<O: Sink>(before: Ended, out: &mut O, kind: &CType, name: &Name) -> Ended
    ensures text { Puts before result (O.contents out.old) (O.contents out.new) (plain_text kind.now name.now) }
    ensures cause { Causes O.may_fail O.takes_memory before result (O.faults out.old) (O.faults out.new) }
    ensures keeps { O.keeps out.old out.new }
{
    let ended = put_declared(before, out, kind, name);
    put(ended, out, b";\n")
}

#[tactic(auto, using(lf_base::proofs::Chains::chains))]
fn put_object<O: Sink>(
    before: Ended,
    out: &mut O,
    kind: &CType,
    name: &Name,
    value: &CExpr,
) -> Ended
    ensures text { Puts before result (O.contents out.old) (O.contents out.new) (initialized_text kind.now name.now value.now) }
    ensures cause { Causes O.may_fail O.takes_memory before result (O.faults out.old) (O.faults out.new) }
    ensures keeps { O.keeps out.old out.new }
{
    let ended = put_declared(before, out, kind, name);
    put_stored(ended, out, value)
}

#[tactic(auto, using(lf_base::proofs::Chains::chains))]
fn put_pointed<O: Sink>(
    before: Ended,
    out: &mut O,
    kind: &CType,
    name: &Name,
    value: &CExpr,
) -> Ended
    ensures text { Puts before result (O.contents out.old) (O.contents out.new) (initialized_pointer_text kind.now name.now value.now) }
    ensures cause { Causes O.may_fail O.takes_memory before result (O.faults out.old) (O.faults out.new) }
    ensures keeps { O.keeps out.old out.new }
{
    let ended = put_pointer(before, out, kind, name);
    put_stored(ended, out, value)
}

#[tactic(auto, using(lf_base::proofs::Chains::chains))]
fn put_received_object<O: Sink>(
    before: Ended,
    out: &mut O,
    kind: &CType,
    name: &Name,
    callee: &Name,
    arguments: &[CExpr],
) -> Ended
    ensures text { Puts before result (O.contents out.old) (O.contents out.new) (initialized_by_text kind.now name.now callee.now arguments.now) }
    ensures cause { Causes O.may_fail O.takes_memory before result (O.faults out.old) (O.faults out.new) }
    ensures keeps { O.keeps out.old out.new }
{
    let ended = put_declared(before, out, kind, name);
    put_received(ended, out, callee, arguments)
}

#[tactic(auto, using(lf_base::proofs::Chains::chains))]
fn put_assigned<O: Sink>(before: Ended, out: &mut O, target: &CExpr, value: &CExpr) -> Ended
    ensures text { Puts before result (O.contents out.old) (O.contents out.new) (assigned_text target.now value.now) }
    ensures cause { Causes O.may_fail O.takes_memory before result (O.faults out.old) (O.faults out.new) }
    ensures keeps { O.keeps out.old out.new }
{
    let ended = put_expr(before, out, target);
    put_stored(ended, out, value)
}

#[tactic(auto, using(lf_base::proofs::Chains::chains))]
fn put_assigned_by<O: Sink>(
    before: Ended,
    out: &mut O,
    target: &CExpr,
    callee: &Name,
    arguments: &[CExpr],
) -> Ended
    ensures text { Puts before result (O.contents out.old) (O.contents out.new) (assigned_by_text target.now callee.now arguments.now) }
    ensures cause { Causes O.may_fail O.takes_memory before result (O.faults out.old) (O.faults out.new) }
    ensures keeps { O.keeps out.old out.new }
{
    let ended = put_expr(before, out, target);
    put_received(ended, out, callee, arguments)
}

#[tactic(auto, using(lf_base::proofs::Chains::chains))]
fn put_called<O: Sink>(before: Ended, out: &mut O, callee: &Name, arguments: &[CExpr]) -> Ended
    ensures text { Puts before result (O.contents out.old) (O.contents out.new) (called_text callee.now arguments.now) }
    ensures cause { Causes O.may_fail O.takes_memory before result (O.faults out.old) (O.faults out.new) }
    ensures keeps { O.keeps out.old out.new }
{
    let ended = put_call(before, out, callee, arguments);
    put(ended, out, b";\n")
}

#[tactic(auto, using(lf_base::proofs::Chains::chains))]
fn put_goto<O: Sink>(before: Ended, out: &mut O, label: &Name) -> Ended
    ensures text { Puts before result (O.contents out.old) (O.contents out.new) (goto_text label.now) }
    ensures cause { Causes O.may_fail O.takes_memory before result (O.faults out.old) (O.faults out.new) }
    ensures keeps { O.keeps out.old out.new }
{
    let ended = put(before, out, b"goto ");
    let ended = put(ended, out, label.bytes());
    put(ended, out, b";\n")
}

#[tactic(auto, using(lf_base::proofs::Chains::chains))]
fn put_label<O: Sink>(before: Ended, out: &mut O, name: &Name) -> Ended
    ensures text { Puts before result (O.contents out.old) (O.contents out.new) (label_text name.now) }
    ensures cause { Causes O.may_fail O.takes_memory before result (O.faults out.old) (O.faults out.new) }
    ensures keeps { O.keeps out.old out.new }
{
    let ended = put(before, out, name.bytes());
    put(ended, out, b": ;\n")
}

#[cycle(stmt)]
#[tactic(auto, using(crate::proofs::Texts::texts))]
fn put_stmt<O: Sink>(before: Ended, out: &mut O, stmt: &CStmt) -> Ended
    ensures text { Puts before result (O.contents out.old) (O.contents out.new) (stmt_text stmt.now) }
    ensures cause { Causes O.may_fail O.takes_memory before result (O.faults out.old) (O.faults out.new) }
    ensures keeps { O.keeps out.old out.new }
{
    match stmt {
        CStmt::Declare { kind, name } => put_plain(before, out, kind, name),
        CStmt::DeclareArray { kind, name, size } => put_array(before, out, kind, name, size),
        CStmt::DeclareValue { kind, name, value } => put_object(before, out, kind, name, value),
        CStmt::DeclarePointer { kind, name, value } => put_pointed(before, out, kind, name, value),
        CStmt::DeclareCall {
            kind,
            name,
            callee,
            arguments,
        } => put_received_object(before, out, kind, name, callee, arguments.as_slice()),
        CStmt::Assign { target, value } => put_assigned(before, out, target, value),
        CStmt::AssignCall {
            target,
            callee,
            arguments,
        } => put_assigned_by(before, out, target, callee, arguments.as_slice()),
        CStmt::Call { callee, arguments } => put_called(before, out, callee, arguments.as_slice()),
        CStmt::Return => put(before, out, b"return;\n"),
        CStmt::ReturnValue { value } => put_returned(before, out, value),
        CStmt::ReturnCall { callee, arguments } => put_returned_call(
            before,
            out,
            callee,
            arguments.as_slice(),
        ),
        CStmt::Goto { label } => put_goto(before, out, label),
        CStmt::Label { name } => put_label(before, out, name),
        CStmt::Block { body } => put_closed(put(before, out, b"{\n"), out, body.as_slice()),
        CStmt::While { test, body } => put_block(before, out, body.as_slice(), b"while (", test),
        CStmt::If { test, then_body } => put_block(
            before,
            out,
            then_body.as_slice(),
            b"if (",
            test,
        ),
        CStmt::IfElse {
            test,
            then_body,
            else_body,
        } => {
            let ended = put_opened(before, out, b"if (", test);
            let ended = put_stmts(ended, out, then_body.as_slice());
            put_else(ended, out, else_body.as_slice())
        }
    }
}

#[cycle(stmt)]
#[tactic(auto, using(lf_base::proofs::Chains::chains))]
fn put_block<O: Sink>(
    before: Ended,
    out: &mut O,
    body: &[CStmt],
    word: &[u8],
    test: &CExpr,
) -> Ended
    ensures text { Puts before result (O.contents out.old) (O.contents out.new) (guarded_text word.now test.now (stmt_texts body.now)) }
    ensures cause { Causes O.may_fail O.takes_memory before result (O.faults out.old) (O.faults out.new) }
    ensures keeps { O.keeps out.old out.new }
{
    let ended = put_opened(before, out, word, test);
    put_closed(ended, out, body)
}

// The lines of a block, and the brace that closes it.
#[cycle(stmt)]
#[tactic(auto, using(lf_base::proofs::Chains::chains))]
fn put_closed<O: Sink>(before: Ended, out: &mut O, body: &[CStmt]) -> Ended
    ensures text { Puts before result (O.contents out.old) (O.contents out.new) (closed_text (stmt_texts body.now)) }
    ensures cause { Causes O.may_fail O.takes_memory before result (O.faults out.old) (O.faults out.new) }
    ensures keeps { O.keeps out.old out.new }
{
    let ended = put_stmts(before, out, body);
    put(ended, out, b"}\n")
}

#[cycle(stmt)]
#[tactic(auto, using(lf_base::proofs::Chains::chains))]
fn put_else<O: Sink>(before: Ended, out: &mut O, body: &[CStmt]) -> Ended
    ensures text { Puts before result (O.contents out.old) (O.contents out.new) (else_text (stmt_texts body.now)) }
    ensures cause { Causes O.may_fail O.takes_memory before result (O.faults out.old) (O.faults out.new) }
    ensures keeps { O.keeps out.old out.new }
{
    let ended = put(before, out, b"} else {\n");
    put_closed(ended, out, body)
}

#[cycle(stmt)]
#[tactic(auto, using(crate::proofs::Texts::loops))]
fn put_stmts<O: Sink>(before: Ended, out: &mut O, body: &[CStmt]) -> Ended
    ensures text { Puts before result (O.contents out.old) (O.contents out.new) (joined (stmt_texts body.now)) }
    ensures cause { Causes O.may_fail O.takes_memory before result (O.faults out.old) (O.faults out.new) }
    ensures keeps { O.keeps out.old out.new }
{
    let mut ended = before;
    for stmt in body {
        ended = put_stmt(ended, out, stmt);
    }
    ended
}

fn put_parameter<O: Sink>(before: Ended, out: &mut O, parameter: &CParameter) -> Ended
    ensures text { Puts before result (O.contents out.old) (O.contents out.new) (parameter_text parameter.now) }
    ensures cause { Causes O.may_fail O.takes_memory before result (O.faults out.old) (O.faults out.new) }
    ensures keeps { O.keeps out.old out.new }
{
    match parameter {
        CParameter::Value { kind, name } => put_declared(before, out, kind, name),
        CParameter::Pointer { kind, name } => put_pointer(before, out, kind, name),
    }
}

// A parameter behind the first.
#[tactic(auto, using(lf_base::proofs::Chains::chains))]
fn put_next_parameter<O: Sink>(before: Ended, out: &mut O, parameter: &CParameter) -> Ended
    ensures text { Puts before result (O.contents out.old) (O.contents out.new) (behind_comma (parameter_text parameter.now)) }
    ensures cause { Causes O.may_fail O.takes_memory before result (O.faults out.old) (O.faults out.new) }
    ensures keeps { O.keeps out.old out.new }
{
    let ended = put(before, out, b", ");
    put_parameter(ended, out, parameter)
}

#[tactic(auto, using(crate::proofs::Texts::loops))]
fn put_more_parameters<O: Sink>(before: Ended, out: &mut O, parameters: &[CParameter]) -> Ended
    ensures text { Puts before result (O.contents out.old) (O.contents out.new) (joined (behind_commas (parameter_texts parameters.now))) }
    ensures cause { Causes O.may_fail O.takes_memory before result (O.faults out.old) (O.faults out.new) }
    ensures keeps { O.keeps out.old out.new }
{
    let mut ended = before;
    for parameter in parameters {
        ended = put_next_parameter(ended, out, parameter);
    }
    ended
}

#[tactic(auto, using(crate::proofs::Texts::listing))]
fn put_listed<O: Sink>(before: Ended, out: &mut O, parameters: &[CParameter]) -> Ended
    ensures text { Puts before result (O.contents out.old) (O.contents out.new) (listed (parameter_texts parameters.now)) }
    ensures cause { Causes O.may_fail O.takes_memory before result (O.faults out.old) (O.faults out.new) }
    ensures keeps { O.keeps out.old out.new }
{
    match parameters.split_first() {
        None => before,
        Some((first, rest)) => {
            let ended = put_parameter(before, out, first);
            put_more_parameters(ended, out, rest)
        }
    }
}

#[tactic(auto, using(lf_base::proofs::Chains::chains))]
fn put_enclosed<O: Sink>(before: Ended, out: &mut O, parameters: &[CParameter]) -> Ended
    ensures text { Puts before result (O.contents out.old) (O.contents out.new) (enclosed_text parameters.now) }
    ensures cause { Causes O.may_fail O.takes_memory before result (O.faults out.old) (O.faults out.new) }
    ensures keeps { O.keeps out.old out.new }
{
    let ended = put(before, out, b"(");
    let ended = put_listed(ended, out, parameters);
    put(ended, out, b")")
}

#[tactic(auto, using(lf_base::proofs::Chains::chains))]
fn put_parameters<O: Sink>(before: Ended, out: &mut O, parameters: &[CParameter]) -> Ended
    ensures text { Puts before result (O.contents out.old) (O.contents out.new) (parameters_text parameters.now) }
    ensures cause { Causes O.may_fail O.takes_memory before result (O.faults out.old) (O.faults out.new) }
    ensures keeps { O.keeps out.old out.new }
{
    match parameters {
        [] => put(before, out, b"(void)"),
        _ => put_enclosed(before, out, parameters),
    }
}

#[tactic(auto, using(lf_base::proofs::Chains::chains))]
fn put_head<O: Sink>(
    before: Ended,
    out: &mut O,
    result_type: &CResult,
    name: &Name,
    parameters: &[CParameter],
) -> Ended
    ensures text { Puts before result (O.contents out.old) (O.contents out.new) (head_text result_type.now name.now parameters.now) }
    ensures cause { Causes O.may_fail O.takes_memory before result (O.faults out.old) (O.faults out.new) }
    ensures keeps { O.keeps out.old out.new }
{
    let ended = put_result(before, out, result_type);
    let ended = put(ended, out, b" ");
    let ended = put(ended, out, name.bytes());
    put_parameters(ended, out, parameters)
}

#[tactic(auto, using(lf_base::proofs::Chains::chains))]
fn put_static<O: Sink>(before: Ended, out: &mut O, is_static: bool) -> Ended
    ensures text { Puts before result (O.contents out.old) (O.contents out.new) (static_text is_static) }
    ensures cause { Causes O.may_fail O.takes_memory before result (O.faults out.old) (O.faults out.new) }
    ensures keeps { O.keeps out.old out.new }
{
    if is_static {
        put(before, out, b"static ")
    } else {
        before
    }
}

#[tactic(auto, using(lf_base::proofs::Chains::chains))]
fn put_sized<O: Sink>(before: Ended, out: &mut O, kind: &CType, name: &Name, size: u64) -> Ended
    ensures text { Puts before result (O.contents out.old) (O.contents out.new) (sized_text kind.now name.now size) }
    ensures cause { Causes O.may_fail O.takes_memory before result (O.faults out.old) (O.faults out.new) }
    ensures keeps { O.keeps out.old out.new }
{
    let ended = put_declared(before, out, kind, name);
    let ended = put(ended, out, b"[");
    let ended = put_constant(ended, out, size);
    put(ended, out, b"];\n")
}

fn put_line<O: Sink>(before: Ended, out: &mut O, object: &CObject) -> Ended
    ensures text { Puts before result (O.contents out.old) (O.contents out.new) (object_text object.now) }
    ensures cause { Causes O.may_fail O.takes_memory before result (O.faults out.old) (O.faults out.new) }
    ensures keeps { O.keeps out.old out.new }
{
    match object {
        CObject::Single { kind, name } => put_plain(before, out, kind, name),
        CObject::Array { kind, name, size } => put_sized(before, out, kind, name, *size),
    }
}

#[tactic(auto, using(crate::proofs::Texts::loops))]
fn put_lines<O: Sink>(before: Ended, out: &mut O, members: &[CObject]) -> Ended
    ensures text { Puts before result (O.contents out.old) (O.contents out.new) (joined (object_texts members.now)) }
    ensures cause { Causes O.may_fail O.takes_memory before result (O.faults out.old) (O.faults out.new) }
    ensures keeps { O.keeps out.old out.new }
{
    let mut ended = before;
    for member in members {
        ended = put_line(ended, out, member);
    }
    ended
}

#[tactic(auto, using(lf_base::proofs::Chains::chains))]
fn put_structure<O: Sink>(before: Ended, out: &mut O, name: &Name, members: &[CObject]) -> Ended
    ensures text { Puts before result (O.contents out.old) (O.contents out.new) (structure_text name.now members.now) }
    ensures cause { Causes O.may_fail O.takes_memory before result (O.faults out.old) (O.faults out.new) }
    ensures keeps { O.keeps out.old out.new }
{
    let ended = put(before, out, b"struct ");
    let ended = put(ended, out, name.bytes());
    let ended = put(ended, out, b" {\n");
    let ended = put_lines(ended, out, members);
    put(ended, out, b"};\n")
}

#[tactic(auto, using(lf_base::proofs::Chains::chains))]
fn put_extern<O: Sink>(before: Ended, out: &mut O, is_extern: bool) -> Ended
    ensures text { Puts before result (O.contents out.old) (O.contents out.new) (extern_text is_extern) }
    ensures cause { Causes O.may_fail O.takes_memory before result (O.faults out.old) (O.faults out.new) }
    ensures keeps { O.keeps out.old out.new }
{
    if is_extern {
        put(before, out, b"extern ")
    } else {
        before
    }
}

#[tactic(auto, using(lf_base::proofs::Chains::chains))]
fn put_static_pointer<O: Sink>(before: Ended, out: &mut O, kind: &CType, name: &Name) -> Ended
    ensures text { Puts before result (O.contents out.old) (O.contents out.new) (static_pointer_text kind.now name.now) }
    ensures cause { Causes O.may_fail O.takes_memory before result (O.faults out.old) (O.faults out.new) }
    ensures keeps { O.keeps out.old out.new }
{
    let ended = put(before, out, b"static ");
    let ended = put_pointer(ended, out, kind, name);
    put(ended, out, b";\n")
}

#[tactic(auto, using(lf_base::proofs::Chains::chains))]
fn put_item<O: Sink>(before: Ended, out: &mut O, item: &CItem) -> Ended
    ensures text { Puts before result (O.contents out.old) (O.contents out.new) (item_text item.now) }
    ensures cause { Causes O.may_fail O.takes_memory before result (O.faults out.old) (O.faults out.new) }
    ensures keeps { O.keeps out.old out.new }
{
    match item {
        CItem::Struct { name, members } => put_structure(before, out, name, members.as_slice()),
        CItem::Object { is_extern, object } => put_line(
            put_extern(before, out, *is_extern),
            out,
            object,
        ),
        CItem::StaticObject { kind, name } => put_plain(
            put(before, out, b"static "),
            out,
            kind,
            name,
        ),
        CItem::StaticPointer { kind, name } => put_static_pointer(before, out, kind, name),
        CItem::Prototype {
            result,
            name,
            parameters,
        } => {
            put(
                put_head(before, out, result, name, parameters.as_slice()),
                out,
                b";\n",
            )
        }
        CItem::Function {
            is_static,
            result,
            name,
            parameters,
            body,
        } => {
            let ended = put_static(before, out, *is_static);
            let ended = put_head(ended, out, result, name, parameters.as_slice());
            let ended = put(ended, out, b" {\n");
            put_closed(ended, out, body.as_slice())
        }
    }
}

#[tactic(auto, using(crate::proofs::Texts::loops))]
fn put_items<O: Sink>(before: Ended, out: &mut O, items: &[CItem]) -> Ended
    ensures text { Puts before result (O.contents out.old) (O.contents out.new) (joined (item_texts items.now)) }
    ensures cause { Causes O.may_fail O.takes_memory before result (O.faults out.old) (O.faults out.new) }
    ensures keeps { O.keeps out.old out.new }
{
    let mut ended = before;
    for item in items {
        ended = put_item(ended, out, item);
    }
    ended
}

#[tactic(auto, using(lf_base::proofs::Chains::chains))]
fn put_file<O: Sink>(before: Ended, out: &mut O, file: &CFile) -> Ended
    ensures text { Puts before result (O.contents out.old) (O.contents out.new) (file_text file.now) }
    ensures cause { Causes O.may_fail O.takes_memory before result (O.faults out.old) (O.faults out.new) }
    ensures keeps { O.keeps out.old out.new }
{
    let ended = put(before, out, HEADERS);
    put_items(ended, out, file.items.as_slice())
}

/// Appends the text of the file: the headers, and its items in order, each line without indentation
/// (ISO/IEC 9899:1999, 6.9). A refused call appends a front of the text, and it answers `Failed` only where
/// the sink's count of faults rose. It takes no memory itself: where the sink neither fails nor
/// takes memory, the answer is Ok.
#[tactic(auto, using(lf_base::proofs::Chains::never_refused))]
pub fn print_c<O: Sink>(file: &CFile, out: &mut O) -> Result<(), PutFault>
    ensures ok { OnOk result (Appends (O.contents out.old) (O.contents out.new) (file_text file.now)) }
    ensures err { OnErr result (AppendsPart (O.contents out.old) (O.contents out.new) (file_text file.now)) }
    ensures cause { HasCause O.may_fail O.takes_memory (O.faults out.old) (O.faults out.new) result }
    ensures whole { O.may_fail ≡ false → O.takes_memory ≡ false → result ≡ Ok tt }
    ensures keeps { O.keeps out.old out.new }
{
    put_file(Ok(()), out, file)
}
