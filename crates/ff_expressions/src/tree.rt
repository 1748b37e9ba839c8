ghost use Rattle.std.specs.Prelude.{◌≡◌, [], None, Some, IfOk};
ghost use Rattle.ff_expressions.specs.Trees.{stub, leaf, node, unary, binary, paren, depth_in, tree_in, value_of, triple, array, implied_do};

use crate::group::Arguments;
use crate::item::{GREATEST_DEPTH, Parsed, Stride};
use ast_nodes::Expr;
use lf_base::{Memory, Name};
use sqlite_items::{Boxed, Items};
use std::alloc::Global;

// What stands for a tree that is too deep.
fn stub(alloc: Global) -> Parsed
    ensures { result ≡ stub }
{
    Parsed {
        tree: Expr::Int {
            digits: Items::new(alloc),
            suffix: 0,
        },
        depth: GREATEST_DEPTH + 1,
    }
}

/// A tree without parts.
pub fn leaf(tree: Expr) -> Parsed
    ensures { result ≡ leaf tree }
{
    Parsed { tree, depth: 1 }
}

/// A list without items, with room for so many.
pub fn with_capacity<T>(alloc: Global, capacity: usize) -> Result<Items<T>, Memory>
    ensures { IfOk result (λ items. items ≡ []) }
{
    Ok(Items::from_vec(Vec::with_capacity(alloc, capacity)?))
}

// A node whose deepest part has this depth.
fn node(alloc: Global, deepest: u32, tree: Expr) -> Parsed
    ensures { result ≡ node deepest tree }
{
    if deepest < GREATEST_DEPTH {
        return Parsed {
            tree,
            depth: deepest + 1,
        };
    }
    stub(alloc)
}

fn boxed(alloc: Global, tree: Expr) -> Result<Boxed<Expr>, Memory>
    ensures { IfOk result (λ b. b ≡ tree) }
{
    Ok(Boxed::new(alloc, tree)?)
}

fn boxed_in(alloc: Global, value: Option<Parsed>) -> Result<Option<Boxed<Expr>>, Memory>
    ensures { IfOk result (λ b. b ≡ tree_in value) }
{
    match value {
        None => Ok(None),
        Some(value) => Ok(Some(boxed(alloc, value.tree)?)),
    }
}

fn depth_in(value: &Option<Parsed>) -> u32
    ensures { result ≡ depth_in value.now }
{
    match value {
        None => 0,
        Some(value) => value.depth,
    }
}

/// An operator in front of its operand.
pub fn unary(alloc: Global, operator: u8, operand: Parsed) -> Result<Parsed, Memory>
    ensures { IfOk result (λ p. p ≡ unary operator operand) }
{
    let Parsed { tree, depth } = operand;
    let operand = boxed(alloc, tree)?;
    Ok(node(alloc, depth, Expr::Unary { operator, operand }))
}

/// An operator between its operands.
pub fn binary(alloc: Global, operator: u8, left: Parsed, right: Parsed) -> Result<Parsed, Memory>
    ensures { IfOk result (λ p. p ≡ binary operator left right) }
{
    let deepest = left.depth.max(right.depth);
    let left = boxed(alloc, left.tree)?;
    let right = boxed(alloc, right.tree)?;
    let tree = Expr::Binary {
        operator,
        left,
        right,
    };
    Ok(node(alloc, deepest, tree))
}

/// An expression in parentheses.
pub fn paren(alloc: Global, inner: Parsed) -> Result<Parsed, Memory>
    ensures { IfOk result (λ p. p ≡ paren inner) }
{
    let Parsed { tree, depth } = inner;
    let inner = boxed(alloc, tree)?;
    Ok(node(alloc, depth, Expr::Paren { inner }))
}

/// What stands behind the second colon.
pub fn value_of(step: Stride) -> Option<Parsed>
    ensures { result ≡ value_of step }
{
    match step {
        Stride::Absent | Stride::Missing => None,
        Stride::Given { value } => Some(value),
    }
}

/// `lower : upper : step`
pub fn triple(
    alloc: Global,
    lower: Option<Parsed>,
    upper: Option<Parsed>,
    step: Option<Parsed>,
) -> Result<Parsed, Memory>
    ensures { IfOk result (λ p. p ≡ triple lower upper step) }
{
    let deepest = depth_in(&lower).max(depth_in(&upper).max(depth_in(&step)));
    let lower = boxed_in(alloc, lower)?;
    let upper = boxed_in(alloc, upper)?;
    let step = boxed_in(alloc, step)?;
    let tree = Expr::Triple { lower, upper, step };
    Ok(node(alloc, deepest, tree))
}

/// An array constructor of these items.
pub fn array(alloc: Global, items: Arguments) -> Parsed
    ensures { result ≡ array items }
{
    let Arguments { list, depth } = items;
    node(alloc, depth, Expr::Array { items: list })
}

/// An implied do over these items.
pub fn implied_do(
    alloc: Global,
    variable: Name,
    lower: Parsed,
    upper: Parsed,
    step: Option<Parsed>,
    items: Arguments,
) -> Result<Parsed, Memory>
    ensures { IfOk result (λ p. p ≡ implied_do variable lower upper step items) }
{
    let bounds = lower.depth.max(upper.depth);
    let deepest = bounds.max(depth_in(&step).max(items.depth));
    let lower = boxed(alloc, lower.tree)?;
    let upper = boxed(alloc, upper.tree)?;
    let step = boxed_in(alloc, step)?;
    let tree = Expr::Loop {
        variable,
        lower,
        upper,
        step,
        items: items.list,
    };
    Ok(node(alloc, deepest, tree))
}
