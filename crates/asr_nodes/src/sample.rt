//! Callers, to show what they have to prove.
ghost use Rattle.std.specs.Prelude.{◌≡◌, pos, IfOk};
ghost use Rattle.lf_base.specs.declared.id.SymId.{SymId as SymbolId};
ghost use Rattle.lf_base.specs.declared.operator.TheConstants.{MULTIPLY as multiply};
ghost use Rattle.asr_nodes.specs.Nodes.{HasExpr, expr_tree};
ghost use Rattle.asr_nodes.specs.Reading.{Path};
ghost use Rattle.asr_nodes.specs.declared.tree.ExprTree.TheVariants as tree;

use crate::asr::Asr;
use crate::code::FALSE;
use crate::node::Expr;
use lf_base::operator::MULTIPLY;
use lf_base::{ExprId, Memory};

/// Builds the product of 2 and an expression.
pub(crate) fn doubled(asr: &mut Asr, e: ExprId) -> Result<ExprId, Memory>
    requires { HasExpr asr.old e }
    ensures { IfOk result (λ id. (path : SymbolId → Path) → expr_tree asr.new path id
        ≡ tree.Binary multiply (tree.IntConst 4 (pos 2)) (expr_tree asr.old path e)) }
{
    let two = asr.build_expr(Expr::IntConst { kind: 4, value: 2 })?;
    let id = asr.build_expr(Expr::Binary {
        operator: MULTIPLY,
        left: two,
        right: e,
    })?;
    Ok(id)
}

fn let_go(_node: Expr) {}

/// Puts an expression in parentheses, in its place.
pub(crate) fn in_parentheses(asr: &mut Asr, at: ExprId) -> Result<(), Memory>
    requires { HasExpr asr.old at }
    ensures { IfOk result (λ _. (path : SymbolId → Path) → expr_tree asr.new path at
        ≡ tree.Paren (expr_tree asr.old path at)) }
{
    asr.sound();
    let old = asr.replace_expr(at, Expr::LogConst { value: FALSE });
    let inner = asr.build_expr(old)?;
    let_go(asr.replace_expr(at, Expr::Paren { inner }));
    Ok(())
}
