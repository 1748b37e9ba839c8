//! The tag and the fields of each expression (ISO/IEC 1539-1:2018, 10.1).

ghost use Rattle.std.specs.Prelude.{◌≡◌};
ghost use Rattle.asr_nodes.specs.Families.{expr_family, Leaf, Designator, Operation, Reference, Temporary, Wrapper};
ghost use Rattle.asr_nodes.specs.Reading.{section_part_node, array_item_node, expr_node};
ghost use Rattle.asr_nodes.specs.Shapes.{Shown, shape_text};
ghost use Rattle.asr_nodes.specs.Text.{expr_text, section_part_text, array_item_text};
ghost use Rattle.asr_nodes.specs.declared.tree.ExprTree.TheVariants as expr_tree;

use crate::node::{ArrayItem, Expr, SectionPart};
use crate::print::field::{Field, Group, Shape, Thing, five, one, three, two};

pub(crate) fn expr_shape(node: &Expr) -> Shape<'_>
    ensures { (r : Shown) → shape_text r result ≡ expr_text (expr_node r.reading node.now) }
{
    match node {
        Expr::IntConst { .. }
        | Expr::LogConst { .. }
        | Expr::CharConst { .. }
        | Expr::Var { .. }
        | Expr::Extent { .. } => leaf_shape(node),
        Expr::Item { .. } | Expr::Section { .. } | Expr::Field { .. } | Expr::Substring { .. } =>
            designator_shape(node),
        Expr::Unary { .. } | Expr::Binary { .. } | Expr::Convert { .. } | Expr::Paren { .. } =>
            operation_shape(node),
        Expr::Invoke { .. }
        | Expr::Intrinsic { .. }
        | Expr::Construct { .. }
        | Expr::Array { .. } => reference_shape(node),
        Expr::Temp { .. } | Expr::TempAt { .. } | Expr::Arr { .. } => temporary_shape(node),
        Expr::Seq { .. } | Expr::SecLen { .. } | Expr::At { .. } => wrapper_shape(node),
    }
}

// A leaf of the tree.
fn leaf_shape(node: &Expr) -> Shape<'_>
    requires { expr_family node.now ≡ Leaf }
    ensures { (r : Shown) → shape_text r result ≡ expr_text (expr_node r.reading node.now) }
{
    match node {
        Expr::IntConst { kind, value } => two(
            b"IntConst",
            Field::Code(*kind),
            Field::Signed(value),
        ),
        Expr::LogConst { value } => one(b"LogConst", Field::Code(*value)),
        Expr::CharConst { bytes } => one(b"CharConst", Field::Bytes(bytes)),
        Expr::Var { symbol } => one(b"Var", Field::Symbol(*symbol)),
        Expr::Extent { symbol, dimension } => two(
            b"Extent",
            Field::Symbol(*symbol),
            Field::Line(*dimension),
        ),
        _ => no_expr(),
    }
}

// A part of what an expression designates.
fn designator_shape(node: &Expr) -> Shape<'_>
    requires { expr_family node.now ≡ Designator }
    ensures { (r : Shown) → shape_text r result ≡ expr_text (expr_node r.reading node.now) }
{
    match node {
        Expr::Item { base, subscripts } => two(
            b"Item",
            Field::One(Thing::Expr(*base)),
            Field::Many(Group::Exprs(subscripts)),
        ),
        Expr::Section { base, parts } => two(
            b"Section",
            Field::One(Thing::Expr(*base)),
            Field::Many(Group::Parts(parts)),
        ),
        Expr::Field { base, component } => two(
            b"Field",
            Field::One(Thing::Expr(*base)),
            Field::Word(component),
        ),
        Expr::Substring { base, lower, upper } => three(
            b"Substring",
            Field::One(Thing::Expr(*base)),
            Field::Maybe(*lower),
            Field::Maybe(*upper),
        ),
        _ => no_expr(),
    }
}

// An operation.
fn operation_shape(node: &Expr) -> Shape<'_>
    requires { expr_family node.now ≡ Operation }
    ensures { (r : Shown) → shape_text r result ≡ expr_text (expr_node r.reading node.now) }
{
    match node {
        Expr::Unary { operator, operand } => two(
            b"Unary",
            Field::Code(*operator),
            Field::One(Thing::Expr(*operand)),
        ),
        Expr::Binary {
            operator,
            left,
            right,
        } => three(
            b"Binary",
            Field::Code(*operator),
            Field::One(Thing::Expr(*left)),
            Field::One(Thing::Expr(*right)),
        ),
        Expr::Convert { kind, operand } => two(
            b"Convert",
            Field::Code(*kind),
            Field::One(Thing::Expr(*operand)),
        ),
        Expr::Paren { inner } => one(b"Paren", Field::One(Thing::Expr(*inner))),
        _ => no_expr(),
    }
}

// A reference with arguments, or a constructor.
fn reference_shape(node: &Expr) -> Shape<'_>
    requires { expr_family node.now ≡ Reference }
    ensures { (r : Shown) → shape_text r result ≡ expr_text (expr_node r.reading node.now) }
{
    match node {
        Expr::Invoke { callee, arguments } => two(
            b"Invoke",
            Field::Symbol(*callee),
            Field::Many(Group::Exprs(arguments)),
        ),
        Expr::Intrinsic { code, arguments } => two(
            b"Intrinsic",
            Field::Code(*code),
            Field::Many(Group::Exprs(arguments)),
        ),
        Expr::Construct {
            definition,
            arguments,
        } => two(
            b"Construct",
            Field::Symbol(*definition),
            Field::Many(Group::Exprs(arguments)),
        ),
        Expr::Array { items } => one(b"Array", Field::Many(Group::Values(items))),
        _ => no_expr(),
    }
}

// A temporary, or a part of one.
fn temporary_shape(node: &Expr) -> Shape<'_>
    requires { expr_family node.now ≡ Temporary }
    ensures { (r : Shown) → shape_text r result ≡ expr_text (expr_node r.reading node.now) }
{
    match node {
        Expr::Temp { number } => one(b"Temp", Field::Number(*number)),
        Expr::TempAt { number, place } => two(
            b"TempAt",
            Field::Number(*number),
            Field::One(Thing::Expr(*place)),
        ),
        Expr::Arr {
            number,
            element,
            extents,
        } => three(
            b"Arr",
            Field::Number(*number),
            Field::One(Thing::Elem(element)),
            Field::Many(Group::Exprs(extents)),
        ),
        _ => no_expr(),
    }
}

// What else passes make.
fn wrapper_shape(node: &Expr) -> Shape<'_>
    requires { expr_family node.now ≡ Wrapper }
    ensures { (r : Shown) → shape_text r result ≡ expr_text (expr_node r.reading node.now) }
{
    match node {
        Expr::Seq { stmts, value } => two(
            b"Seq",
            Field::Many(Group::Stmts(stmts)),
            Field::One(Thing::Expr(*value)),
        ),
        Expr::SecLen {
            lower,
            upper,
            step,
            low,
            high,
        } => five(
            b"SecLen",
            Field::One(Thing::Expr(*lower)),
            Field::One(Thing::Expr(*upper)),
            Field::One(Thing::Expr(*step)),
            Field::One(Thing::Expr(*low)),
            Field::One(Thing::Expr(*high)),
        ),
        Expr::At {
            source,
            line,
            value,
        } => three(
            b"At",
            Field::Bytes(source),
            Field::Line(*line),
            Field::One(Thing::Expr(*value)),
        ),
        _ => no_expr(),
    }
}

// What is read where no expression stands.
pub(crate) fn no_expr() -> Shape<'static>
    ensures { (r : Shown) → shape_text r result ≡ expr_text (expr_tree.LogConst 0) }
{
    one(b"LogConst", Field::Code(0))
}

pub(crate) fn part_shape(node: &SectionPart) -> Shape<'_>
    ensures { (r : Shown) → shape_text r result ≡ section_part_text (section_part_node r.reading node.now) }
{
    match node {
        SectionPart::At { index } => one(b"At", Field::One(Thing::Expr(*index))),
        SectionPart::Triple { lower, upper, step } => three(
            b"Triple",
            Field::Maybe(*lower),
            Field::Maybe(*upper),
            Field::Maybe(*step),
        ),
    }
}

pub(crate) fn value_shape(node: &ArrayItem) -> Shape<'_>
    ensures { (r : Shown) → shape_text r result ≡ array_item_text (array_item_node r.reading node.now) }
{
    match node {
        ArrayItem::Value { value } => one(b"Value", Field::One(Thing::Expr(*value))),
        ArrayItem::Loop {
            number,
            lower,
            upper,
            step,
            items,
        } => five(
            b"Loop",
            Field::Number(*number),
            Field::Signed(lower),
            Field::Signed(upper),
            Field::Signed(step),
            Field::Many(Group::Values(items)),
        ),
    }
}
