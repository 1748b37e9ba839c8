//! The tag and the fields of each statement (ISO/IEC 1539-1:2018, R514).

ghost use Rattle.std.specs.Prelude.{◌≡◌};
ghost use Rattle.asr_nodes.specs.Families.{stmt_family, Action, Branch, Repetition, Transfer, Output, Room, Check};
ghost use Rattle.asr_nodes.specs.Reading.{print_item_node, case_node, stmt_node};
ghost use Rattle.asr_nodes.specs.Shapes.{Shown, shape_text};
ghost use Rattle.asr_nodes.specs.Text.{range_text, stmt_text, print_item_text, case_text};
ghost use Rattle.asr_nodes.specs.declared.tree.StmtTree.TheVariants as stmt_tree;

use crate::node::{Case, CaseRange, PrintItem, Stmt};
use crate::print::field::{Field, Group, Shape, Thing, five, four, one, seven, three, two};

pub(crate) fn stmt_shape(node: &Stmt) -> Shape<'_>
    ensures { (r : Shown) → shape_text r result ≡ stmt_text (stmt_node r.reading node.now) }
{
    match node {
        Stmt::Assign { .. }
        | Stmt::Exit { .. }
        | Stmt::Cycle { .. }
        | Stmt::Call { .. }
        | Stmt::Stop { .. }
        | Stmt::Return { .. } => action_shape(node),
        Stmt::If { .. } | Stmt::Select { .. } | Stmt::Block { .. } => branch_shape(node),
        Stmt::Do { .. } | Stmt::While { .. } => repetition_shape(node),
        Stmt::Print { .. } | Stmt::Read { .. } => transfer_shape(node),
        Stmt::Begin { .. } | Stmt::Put { .. } | Stmt::End { .. } => output_shape(node),
        Stmt::Let { .. } | Stmt::Room { .. } => room_shape(node),
        Stmt::Count { .. } | Stmt::Same { .. } | Stmt::Probe { .. } => check_shape(node),
    }
}

// A statement that is no construct.
fn action_shape(node: &Stmt) -> Shape<'_>
    requires { stmt_family node.now ≡ Action }
    ensures { (r : Shown) → shape_text r result ≡ stmt_text (stmt_node r.reading node.now) }
{
    match node {
        Stmt::Assign {
            line,
            target,
            value,
        } => three(
            b"Assign",
            Field::Line(*line),
            Field::One(Thing::Expr(*target)),
            Field::One(Thing::Expr(*value)),
        ),
        Stmt::Exit { line, id } => two(b"Exit", Field::Line(*line), Field::Number(*id)),
        Stmt::Cycle { line, id } => two(b"Cycle", Field::Line(*line), Field::Number(*id)),
        Stmt::Call {
            line,
            callee,
            arguments,
        } => three(
            b"Call",
            Field::Line(*line),
            Field::Symbol(*callee),
            Field::Many(Group::Exprs(arguments)),
        ),
        Stmt::Stop { line, error, code } => three(
            b"Stop",
            Field::Line(*line),
            Field::Code(*error),
            Field::One(Thing::Expr(*code)),
        ),
        Stmt::Return { line } => one(b"Return", Field::Line(*line)),
        _ => no_stmt(),
    }
}

// Statements of which some are executed, or all.
fn branch_shape(node: &Stmt) -> Shape<'_>
    requires { stmt_family node.now ≡ Branch }
    ensures { (r : Shown) → shape_text r result ≡ stmt_text (stmt_node r.reading node.now) }
{
    match node {
        Stmt::If {
            line,
            condition,
            then_block,
            else_block,
        } => four(
            b"If",
            Field::Line(*line),
            Field::One(Thing::Expr(*condition)),
            Field::Many(Group::Stmts(then_block)),
            Field::Many(Group::Stmts(else_block)),
        ),
        Stmt::Select {
            line,
            value,
            cases,
            default,
        } => four(
            b"Select",
            Field::Line(*line),
            Field::One(Thing::Expr(*value)),
            Field::Many(Group::Cases(cases)),
            Field::Many(Group::Stmts(default)),
        ),
        Stmt::Block { line, stmts } => two(
            b"Block",
            Field::Line(*line),
            Field::Many(Group::Stmts(stmts)),
        ),
        _ => no_stmt(),
    }
}

// A loop.
fn repetition_shape(node: &Stmt) -> Shape<'_>
    requires { stmt_family node.now ≡ Repetition }
    ensures { (r : Shown) → shape_text r result ≡ stmt_text (stmt_node r.reading node.now) }
{
    match node {
        Stmt::Do {
            line,
            id,
            variable,
            lower,
            upper,
            step,
            body,
        } => seven(
            b"Do",
            Field::Line(*line),
            Field::Number(*id),
            Field::One(Thing::Expr(*variable)),
            Field::One(Thing::Expr(*lower)),
            Field::One(Thing::Expr(*upper)),
            Field::One(Thing::Expr(*step)),
            Field::Many(Group::Stmts(body)),
        ),
        Stmt::While {
            line,
            id,
            condition,
            body,
        } => four(
            b"While",
            Field::Line(*line),
            Field::Number(*id),
            Field::One(Thing::Expr(*condition)),
            Field::Many(Group::Stmts(body)),
        ),
        _ => no_stmt(),
    }
}

// Input and output.
fn transfer_shape(node: &Stmt) -> Shape<'_>
    requires { stmt_family node.now ≡ Transfer }
    ensures { (r : Shown) → shape_text r result ≡ stmt_text (stmt_node r.reading node.now) }
{
    match node {
        Stmt::Print {
            line,
            form,
            advance,
            items,
        } => four(
            b"Print",
            Field::Line(*line),
            Field::Code(*form),
            Field::Code(*advance),
            Field::Many(Group::Outputs(items)),
        ),
        Stmt::Read {
            line,
            target,
            iostat,
        } => three(
            b"Read",
            Field::Line(*line),
            Field::One(Thing::Expr(*target)),
            Field::Maybe(*iostat),
        ),
        _ => no_stmt(),
    }
}

// A list-directed record as passes put it.
fn output_shape(node: &Stmt) -> Shape<'_>
    requires { stmt_family node.now ≡ Output }
    ensures { (r : Shown) → shape_text r result ≡ stmt_text (stmt_node r.reading node.now) }
{
    match node {
        Stmt::Begin { line, number } => two(b"Begin", Field::Line(*line), Field::Number(*number)),
        Stmt::Put {
            line,
            number,
            value,
        } => three(
            b"Put",
            Field::Line(*line),
            Field::Number(*number),
            Field::One(Thing::Expr(*value)),
        ),
        Stmt::End { line } => one(b"End", Field::Line(*line)),
        _ => no_stmt(),
    }
}

// Temporaries.
fn room_shape(node: &Stmt) -> Shape<'_>
    requires { stmt_family node.now ≡ Room }
    ensures { (r : Shown) → shape_text r result ≡ stmt_text (stmt_node r.reading node.now) }
{
    match node {
        Stmt::Let {
            line,
            number,
            value,
        } => three(
            b"Let",
            Field::Line(*line),
            Field::Number(*number),
            Field::One(Thing::Expr(*value)),
        ),
        Stmt::Room {
            line,
            number,
            element,
            length,
            extents,
        } => five(
            b"Room",
            Field::Line(*line),
            Field::Number(*number),
            Field::One(Thing::Elem(element)),
            Field::Maybe(*length),
            Field::Many(Group::Exprs(extents)),
        ),
        _ => no_stmt(),
    }
}

// Extents and subscripts.
fn check_shape(node: &Stmt) -> Shape<'_>
    requires { stmt_family node.now ≡ Check }
    ensures { (r : Shown) → shape_text r result ≡ stmt_text (stmt_node r.reading node.now) }
{
    match node {
        Stmt::Count {
            line,
            number,
            bound,
            body,
        } => four(
            b"Count",
            Field::Line(*line),
            Field::Number(*number),
            Field::One(Thing::Expr(*bound)),
            Field::Many(Group::Stmts(body)),
        ),
        Stmt::Same { line, left, right } => three(
            b"Same",
            Field::Line(*line),
            Field::One(Thing::Expr(*left)),
            Field::One(Thing::Expr(*right)),
        ),
        Stmt::Probe { line, designator } => two(
            b"Probe",
            Field::Line(*line),
            Field::One(Thing::Expr(*designator)),
        ),
        _ => no_stmt(),
    }
}

// What is read where no statement stands.
pub(crate) fn no_stmt() -> Shape<'static>
    ensures { (r : Shown) → shape_text r result ≡ stmt_text (stmt_tree.End 0) }
{
    one(b"End", Field::Line(0))
}

pub(crate) fn item_shape(node: &PrintItem) -> Shape<'_>
    ensures { (r : Shown) → shape_text r result ≡ print_item_text (print_item_node r.reading node.now) }
{
    match node {
        PrintItem::Value { value } => one(b"Value", Field::One(Thing::Expr(*value))),
        PrintItem::Loop {
            variable,
            lower,
            upper,
            step,
            items,
        } => five(
            b"Loop",
            Field::One(Thing::Expr(*variable)),
            Field::One(Thing::Expr(*lower)),
            Field::One(Thing::Expr(*upper)),
            Field::One(Thing::Expr(*step)),
            Field::Many(Group::Outputs(items)),
        ),
    }
}

pub(crate) fn range_shape(node: &CaseRange) -> Shape<'_>
    ensures { (r : Shown) → shape_text r result ≡ range_text node.now }
{
    match node {
        CaseRange::One { value } => one(b"One", Field::One(Thing::Const(value))),
        CaseRange::From { lower } => one(b"From", Field::One(Thing::Const(lower))),
        CaseRange::To { upper } => one(b"To", Field::One(Thing::Const(upper))),
        CaseRange::Between { lower, upper } => two(
            b"Between",
            Field::One(Thing::Const(lower)),
            Field::One(Thing::Const(upper)),
        ),
    }
}

pub(crate) fn case_shape(node: &Case) -> Shape<'_>
    ensures { (r : Shown) → shape_text r result ≡ case_text (case_node r.reading node.now) }
{
    two(
        b"Case",
        Field::Many(Group::Ranges(&node.ranges)),
        Field::Many(Group::Stmts(&node.body)),
    )
}
