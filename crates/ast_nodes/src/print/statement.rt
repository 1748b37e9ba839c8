//! Statements and constructs.

ghost use Rattle.std.specs.Prelude.{[], ◌∷◌, option_map};
ghost use Rattle.lf_base.specs.Contents.{joined};
ghost use Rattle.ast_nodes.specs.Prints.{Prints};
ghost use Rattle.ast_nodes.specs.Node.{behind_blank, listed, optional};
ghost use Rattle.ast_nodes.specs.Text.{range_text, range_texts, stmt_text, stmt_texts, arm_text, arm_texts, case_text, case_texts};

use crate::print::expression::put_optional_operand;
use crate::print::field::{Field, put_front, put_node, put_optional_expr};
use crate::print::piece::{Ended, put, put_number, put_tag};
use crate::statement::{Arm, Case, CaseRange, Statement};
use lf_base::Sink;

fn put_range<O: Sink>(before: Ended, out: &mut O, range: &CaseRange) -> Ended
    ensures { Prints O.contents O.faults O.may_fail O.takes_memory O.keeps before result out.old out.new (range_text range.now) }
{
    match range {
        CaseRange::One { value } => put_node(before, out, b"One", &[Field::Value(value)]),
        CaseRange::Range { lower, upper } => put_node(
            before,
            out,
            b"Range",
            &[Field::OptionalValue(lower), Field::OptionalValue(upper)],
        ),
    }
}

#[tactic(auto, using(crate::proofs::Chains::chains))]
fn put_led_range<O: Sink>(before: Ended, out: &mut O, lead: &[u8], range: &CaseRange) -> Ended
    ensures { Prints O.contents O.faults O.may_fail O.takes_memory O.keeps before result out.old out.new (joined (lead.now ∷ range_text range.now ∷ [])) }
{
    let ended = put(before, out, lead);
    put_range(ended, out, range)
}

#[tactic(auto, using(crate::proofs::Chains::lists))]
fn put_ranges<O: Sink>(before: Ended, out: &mut O, ranges: &[CaseRange]) -> Ended
    ensures { Prints O.contents O.faults O.may_fail O.takes_memory O.keeps before result out.old out.new (behind_blank (listed (range_texts ranges.now))) }
{
    let mut ended = put(before, out, b" [");
    let mut lead: &[u8] = b"";
    for range in ranges {
        ended = put_led_range(ended, out, lead, range);
        lead = b" ";
    }
    put(ended, out, b"]")
}

#[cycle(stmt)]
#[tactic(auto, using(crate::proofs::StmtTexts::texts))]
fn put_stmt<O: Sink>(before: Ended, out: &mut O, stmt: &Statement) -> Ended
    ensures { Prints O.contents O.faults O.may_fail O.takes_memory O.keeps before result out.old out.new (stmt_text stmt.now) }
{
    match stmt {
        Statement::Assign {
            line,
            target,
            value,
        } => put_node(
            before,
            out,
            b"Assign",
            &[
                Field::Number(*line),
                Field::Place(target),
                Field::Value(value),
            ],
        ),
        Statement::If {
            line,
            construct,
            arms,
        } => {
            let ended = put_front(
                before,
                out,
                b"If",
                &[Field::Number(*line), Field::OptionalName(construct)],
            );
            let ended = put_arms(ended, out, arms.as_slice());
            put(ended, out, b")")
        }
        Statement::Do {
            line,
            construct,
            variable,
            lower,
            upper,
            step,
            body,
        } => {
            let ended = put_front(
                before,
                out,
                b"Do",
                &[
                    Field::Number(*line),
                    Field::OptionalName(construct),
                    Field::Word(variable),
                    Field::Value(lower.get()),
                    Field::Value(upper.get()),
                ],
            );
            let ended = put_optional_operand(ended, out, step);
            let ended = put_stmts(ended, out, body.as_slice());
            put(ended, out, b")")
        }
        Statement::While {
            line,
            construct,
            condition,
            body,
        } => {
            let ended = put_front(
                before,
                out,
                b"While",
                &[Field::Number(*line), Field::OptionalName(construct)],
            );
            let ended = put_optional_operand(ended, out, condition);
            let ended = put_stmts(ended, out, body.as_slice());
            put(ended, out, b")")
        }
        Statement::Select {
            line,
            construct,
            value,
            cases,
        } => {
            let ended = put_front(
                before,
                out,
                b"Select",
                &[
                    Field::Number(*line),
                    Field::OptionalName(construct),
                    Field::Value(value.get()),
                ],
            );
            let ended = put_cases(ended, out, cases.as_slice());
            put(ended, out, b")")
        }
        Statement::Call {
            line,
            name,
            arguments,
        } => put_node(
            before,
            out,
            b"Call",
            &[
                Field::Number(*line),
                Field::Word(name),
                Field::Values(arguments),
            ],
        ),
        Statement::Print {
            line,
            form,
            advance,
            items,
        } => put_node(
            before,
            out,
            b"Print",
            &[
                Field::Number(*line),
                Field::Number(u32::from(*form)),
                Field::Number(u32::from(*advance)),
                Field::Values(items),
            ],
        ),
        Statement::Read {
            line,
            target,
            iostat,
        } => put_node(
            before,
            out,
            b"Read",
            &[
                Field::Number(*line),
                Field::Place(target),
                Field::OptionalPlace(iostat),
            ],
        ),
        Statement::Stop {
            line,
            is_error,
            code,
        } => put_node(
            before,
            out,
            b"Stop",
            &[
                Field::Number(*line),
                Field::Number(u32::from(*is_error)),
                Field::OptionalValue(code),
            ],
        ),
        Statement::Exit { line, construct } => put_node(
            before,
            out,
            b"Exit",
            &[Field::Number(*line), Field::OptionalName(construct)],
        ),
        Statement::Cycle { line, construct } => put_node(
            before,
            out,
            b"Cycle",
            &[Field::Number(*line), Field::OptionalName(construct)],
        ),
        Statement::Return { line } => put_node(before, out, b"Return", &[Field::Number(*line)]),
        Statement::Continue { line } => put_node(before, out, b"Continue", &[Field::Number(*line)]),
    }
}

#[cycle(stmt)]
#[tactic(auto, using(crate::proofs::Chains::chains))]
fn put_led_stmt<O: Sink>(before: Ended, out: &mut O, lead: &[u8], stmt: &Statement) -> Ended
    ensures { Prints O.contents O.faults O.may_fail O.takes_memory O.keeps before result out.old out.new (joined (lead.now ∷ stmt_text stmt.now ∷ [])) }
{
    let ended = put(before, out, lead);
    put_stmt(ended, out, stmt)
}

#[cycle(stmt)]
#[tactic(auto, using(crate::proofs::Chains::lists))]
pub(crate) fn put_stmts<O: Sink>(before: Ended, out: &mut O, stmts: &[Statement]) -> Ended
    ensures { Prints O.contents O.faults O.may_fail O.takes_memory O.keeps before result out.old out.new (behind_blank (listed (stmt_texts stmts.now))) }
{
    let mut ended = put(before, out, b" [");
    let mut lead: &[u8] = b"";
    for stmt in stmts {
        ended = put_led_stmt(ended, out, lead, stmt);
        lead = b" ";
    }
    put(ended, out, b"]")
}

#[cycle(stmt)]
#[tactic(auto, using(crate::proofs::StmtTexts::texts))]
fn put_arm<O: Sink>(before: Ended, out: &mut O, arm: &Arm) -> Ended
    ensures { Prints O.contents O.faults O.may_fail O.takes_memory O.keeps before result out.old out.new (arm_text arm.now) }
{
    let ended = put_tag(before, out, b"Arm");
    let ended = put_number(ended, out, arm.line);
    let ended = put_optional_expr(ended, out, &arm.condition);
    let ended = put_stmts(ended, out, arm.body.as_slice());
    put(ended, out, b")")
}

#[cycle(stmt)]
#[tactic(auto, using(crate::proofs::Chains::chains))]
fn put_led_arm<O: Sink>(before: Ended, out: &mut O, lead: &[u8], arm: &Arm) -> Ended
    ensures { Prints O.contents O.faults O.may_fail O.takes_memory O.keeps before result out.old out.new (joined (lead.now ∷ arm_text arm.now ∷ [])) }
{
    let ended = put(before, out, lead);
    put_arm(ended, out, arm)
}

#[cycle(stmt)]
#[tactic(auto, using(crate::proofs::Chains::lists))]
fn put_arms<O: Sink>(before: Ended, out: &mut O, arms: &[Arm]) -> Ended
    ensures { Prints O.contents O.faults O.may_fail O.takes_memory O.keeps before result out.old out.new (behind_blank (listed (arm_texts arms.now))) }
{
    let mut ended = put(before, out, b" [");
    let mut lead: &[u8] = b"";
    for arm in arms {
        ended = put_led_arm(ended, out, lead, arm);
        lead = b" ";
    }
    put(ended, out, b"]")
}

#[cycle(stmt)]
#[tactic(auto, using(crate::proofs::StmtTexts::texts))]
fn put_case<O: Sink>(before: Ended, out: &mut O, case: &Case) -> Ended
    ensures { Prints O.contents O.faults O.may_fail O.takes_memory O.keeps before result out.old out.new (case_text case.now) }
{
    let ended = put_front(
        before,
        out,
        b"Case",
        &[
            Field::Number(case.line),
            Field::Number(u32::from(case.is_default)),
        ],
    );
    let ended = put_ranges(ended, out, case.ranges.as_slice());
    let ended = put_stmts(ended, out, case.body.as_slice());
    put(ended, out, b")")
}

#[cycle(stmt)]
#[tactic(auto, using(crate::proofs::Chains::chains))]
fn put_led_case<O: Sink>(before: Ended, out: &mut O, lead: &[u8], case: &Case) -> Ended
    ensures { Prints O.contents O.faults O.may_fail O.takes_memory O.keeps before result out.old out.new (joined (lead.now ∷ case_text case.now ∷ [])) }
{
    let ended = put(before, out, lead);
    put_case(ended, out, case)
}

#[cycle(stmt)]
#[tactic(auto, using(crate::proofs::Chains::lists))]
fn put_cases<O: Sink>(before: Ended, out: &mut O, cases: &[Case]) -> Ended
    ensures { Prints O.contents O.faults O.may_fail O.takes_memory O.keeps before result out.old out.new (behind_blank (listed (case_texts cases.now))) }
{
    let mut ended = put(before, out, b" [");
    let mut lead: &[u8] = b"";
    for case in cases {
        ended = put_led_case(ended, out, lead, case);
        lead = b" ";
    }
    put(ended, out, b"]")
}
