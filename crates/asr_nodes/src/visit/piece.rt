//! The parts of a node, field by field.

ghost use Rattle.std.specs.Prelude.{◌≡◌, ◌++◌, [], ◌∷◌};
ghost use Rattle.asr_nodes.specs.Families.{stmt_family, Branch, Repetition};
ghost use Rattle.asr_nodes.specs.Keys.{expr};
ghost use Rattle.asr_nodes.specs.Parts.{expr_parts, stmt_parts};
ghost use Rattle.asr_nodes.specs.Visiting.{behind, piece_keys};

use crate::ids::ExprIds;
use crate::node::{ArrayItem, Case, Expr, PrintItem, SectionPart, Stmt};
use lf_base::{ExprId, StmtId};
use sqlite_items::Items;

// The parts that stand in one field.
#[derive(Clone, Copy)]
pub(crate) enum Piece<'a> {
    Nothing,
    Expr(ExprId),
    Maybe(Option<ExprId>),
    Exprs(&'a ExprIds),
    Stmts(&'a Items<StmtId>),
    Sections(&'a Items<SectionPart>),
    Values(&'a Items<ArrayItem>),
    Outputs(&'a Items<PrintItem>),
    Cases(&'a Items<Case>),
}

// No node has more fields with parts.
const PIECES: usize = 5;

// The fields of a node, the last ones last.
pub(crate) type Pieces<'a> = [Piece<'a>; PIECES];

fn none<'a>() -> Pieces<'a>
    ensures { behind [] result ≡ [] }
{
    one(Piece::Nothing)
}

fn one<'a>(a: Piece<'a>) -> Pieces<'a>
    ensures { behind [] result ≡ piece_keys a.entry }
{
    two(Piece::Nothing, a)
}

fn two<'a>(a: Piece<'a>, b: Piece<'a>) -> Pieces<'a>
    ensures { behind [] result ≡ piece_keys a.entry ++ piece_keys b.entry }
{
    three(Piece::Nothing, a, b)
}

fn three<'a>(a: Piece<'a>, b: Piece<'a>, c: Piece<'a>) -> Pieces<'a>
    ensures { behind [] result ≡ (piece_keys a.entry ++ piece_keys b.entry) ++ piece_keys c.entry }
{
    [Piece::Nothing, Piece::Nothing, a, b, c]
}

// Five expressions.
fn five<'a>(a: ExprId, b: ExprId, c: ExprId, d: ExprId, e: ExprId) -> Pieces<'a>
    ensures { behind [] result ≡ expr a ∷ expr b ∷ expr c ∷ expr d ∷ expr e ∷ [] }
{
    [
        Piece::Expr(a),
        Piece::Expr(b),
        Piece::Expr(c),
        Piece::Expr(d),
        Piece::Expr(e),
    ]
}

pub(crate) fn expr_pieces(node: &Expr) -> Pieces<'_>
    ensures { behind [] result ≡ expr_parts node.now }
{
    match node {
        Expr::IntConst { .. }
        | Expr::LogConst { .. }
        | Expr::CharConst { .. }
        | Expr::Var { .. }
        | Expr::Extent { .. }
        | Expr::Temp { .. } => none(),
        Expr::Item { base, subscripts } => two(Piece::Expr(*base), Piece::Exprs(subscripts)),
        Expr::Section { base, parts } => two(Piece::Expr(*base), Piece::Sections(parts)),
        Expr::Field { base, .. } => one(Piece::Expr(*base)),
        Expr::Substring { base, lower, upper } => three(
            Piece::Expr(*base),
            Piece::Maybe(*lower),
            Piece::Maybe(*upper),
        ),
        Expr::Binary { left, right, .. } => two(Piece::Expr(*left), Piece::Expr(*right)),
        Expr::Unary { operand, .. } | Expr::Convert { operand, .. } => one(Piece::Expr(*operand)),
        Expr::Paren { inner } => one(Piece::Expr(*inner)),
        Expr::TempAt { place, .. } => one(Piece::Expr(*place)),
        Expr::At { value, .. } => one(Piece::Expr(*value)),
        Expr::Invoke { arguments, .. }
        | Expr::Intrinsic { arguments, .. }
        | Expr::Construct { arguments, .. } => one(Piece::Exprs(arguments)),
        Expr::Arr { extents, .. } => one(Piece::Exprs(extents)),
        Expr::Array { items } => one(Piece::Values(items)),
        Expr::Seq { stmts, value } => two(Piece::Stmts(stmts), Piece::Expr(*value)),
        Expr::SecLen {
            lower,
            upper,
            step,
            low,
            high,
        } => five(*lower, *upper, *step, *low, *high),
    }
}

pub(crate) fn stmt_pieces(node: &Stmt) -> Pieces<'_>
    ensures { behind [] result ≡ stmt_parts node.now }
{
    match node {
        Stmt::Exit { .. }
        | Stmt::Cycle { .. }
        | Stmt::Return { .. }
        | Stmt::Begin { .. }
        | Stmt::End { .. } => none(),
        Stmt::Assign { target, value, .. } => two(Piece::Expr(*target), Piece::Expr(*value)),
        Stmt::Same { left, right, .. } => two(Piece::Expr(*left), Piece::Expr(*right)),
        Stmt::Call { arguments, .. } => one(Piece::Exprs(arguments)),
        Stmt::Print { items, .. } => one(Piece::Outputs(items)),
        Stmt::Read { target, iostat, .. } => two(Piece::Expr(*target), Piece::Maybe(*iostat)),
        Stmt::Stop { code, .. } => one(Piece::Expr(*code)),
        Stmt::Let { value, .. } | Stmt::Put { value, .. } => one(Piece::Expr(*value)),
        Stmt::Probe { designator, .. } => one(Piece::Expr(*designator)),
        Stmt::Room {
            length,
            extents,
            ..
        } => two(Piece::Maybe(*length), Piece::Exprs(extents)),
        Stmt::Count { bound, body, .. } => two(Piece::Expr(*bound), Piece::Stmts(body)),
        Stmt::If { .. } | Stmt::Select { .. } | Stmt::Block { .. } => branch_pieces(node),
        Stmt::Do { .. } | Stmt::While { .. } => repetition_pieces(node),
    }
}

fn branch_pieces(node: &Stmt) -> Pieces<'_>
    requires { stmt_family node.now ≡ Branch }
    ensures { behind [] result ≡ stmt_parts node.now }
{
    match node {
        Stmt::If {
            condition,
            then_block,
            else_block,
            ..
        } => three(
            Piece::Expr(*condition),
            Piece::Stmts(then_block),
            Piece::Stmts(else_block),
        ),
        Stmt::Select {
            value,
            cases,
            default,
            ..
        } => three(
            Piece::Expr(*value),
            Piece::Cases(cases),
            Piece::Stmts(default),
        ),
        Stmt::Block { stmts, .. } => one(Piece::Stmts(stmts)),
        _ => none(),
    }
}

fn repetition_pieces(node: &Stmt) -> Pieces<'_>
    requires { stmt_family node.now ≡ Repetition }
    ensures { behind [] result ≡ stmt_parts node.now }
{
    match node {
        Stmt::Do {
            variable,
            lower,
            upper,
            step,
            body,
            ..
        } => [
            Piece::Expr(*variable),
            Piece::Expr(*lower),
            Piece::Expr(*upper),
            Piece::Expr(*step),
            Piece::Stmts(body),
        ],
        Stmt::While {
            condition,
            body,
            ..
        } => two(Piece::Expr(*condition), Piece::Stmts(body)),
        _ => none(),
    }
}
