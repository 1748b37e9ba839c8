ghost use Rattle.std.specs.Prelude.{◌≡◌, [], IfOk};
ghost use Rattle.ff_expressions.specs.Trees.{no_designator, nothing_named, with_part, with_name, with_group, as_expression};
ghost use Rattle.ff_expressions.specs.Expressions.{with_due_name, group_behind, with_more, with_link, whole, designator_behind, reference_of};

use crate::group::{Arguments, GroupRole, values};
use crate::item::{Bracket, GREATEST_DEPTH, Item, Mark, Parsed, Part, Reference};
use crate::piece::is_same;
use crate::queue::Queue;
use crate::tree::with_capacity;
use ast_nodes::{Designator, Expr, RefPart};
use lf_base::{Memory, Name};
use sqlite_items::Items;
use std::alloc::Global;

// A designator without parts, of this depth.
fn without_parts(alloc: Global, depth: u32) -> Reference
    ensures { result ≡ record { designator = record { parts = [] }; depth = depth } }
{
    Reference {
        designator: Designator {
            parts: Items::new(alloc),
        },
        depth,
    }
}

// Nothing is named yet; a designator of so many items has no more parts.
fn nothing_named(alloc: Global, items: usize) -> Result<Reference, Memory>
    ensures { IfOk result (λ r. r ≡ nothing_named) }
{
    Ok(Reference {
        designator: Designator {
            parts: with_capacity(alloc, items)?,
        },
        depth: 0,
    })
}

fn with_part(
    alloc: Global,
    before: Reference,
    part: RefPart,
    deepest: u32,
) -> Result<Reference, Memory>
    ensures { IfOk result (λ r. r ≡ with_part before part deepest) }
{
    let Reference { designator, depth } = before;
    if depth > GREATEST_DEPTH || deepest >= GREATEST_DEPTH - 1 {
        return Ok(without_parts(alloc, GREATEST_DEPTH + 1));
    }
    let Designator { mut parts } = designator;
    parts.push(part)?;
    Ok(Reference {
        designator: Designator { parts },
        depth: depth.max(deepest + 2),
    })
}

/// A designator as an expression.
pub fn as_expression(reference: Reference) -> Parsed
    ensures { result ≡ as_expression reference }
{
    let Reference { designator, depth } = reference;
    Parsed {
        tree: Expr::Ref { designator },
        depth,
    }
}

fn with_name(alloc: Global, before: Reference, name: Name) -> Result<Reference, Memory>
    ensures { IfOk result (λ r. r ≡ with_name before name) }
{
    with_part(alloc, before, RefPart::Part { name }, 0)
}

fn with_group(alloc: Global, before: Reference, group: Arguments) -> Result<Reference, Memory>
    ensures { IfOk result (λ r. r ≡ with_group before group) }
{
    let Arguments { list, depth } = group;
    with_part(alloc, before, RefPart::Group { arguments: list }, depth)
}

// A designator that goes on, and whether a name is due.
type Link = Option<(bool, Reference)>;

fn with_due_name(alloc: Global, before: Reference, item: Item) -> Result<Link, Memory>
    ensures { IfOk result (λ r. r ≡ with_due_name before item) }
{
    match item {
        Item::Word { name } => Ok(Some((false, with_name(alloc, before, name)?))),
        Item::Number { .. }
        | Item::Truth { .. }
        | Item::Text { .. }
        | Item::Mark { .. }
        | Item::Group { .. } => Ok(None),
    }
}

fn group_behind(
    alloc: Global,
    before: Reference,
    bracket: Bracket,
    parts: Queue<Part>,
) -> Result<Link, Memory>
    ensures { IfOk result (λ r. r ≡ group_behind before bracket parts) }
{
    match bracket {
        Bracket::Square => Ok(None),
        Bracket::Round => match values(alloc, GroupRole::Argument, parts)? {
            Some(group) => Ok(Some((false, with_group(alloc, before, group)?))),
            None => Ok(None),
        },
    }
}

fn with_more(alloc: Global, before: Reference, item: Item) -> Result<Link, Memory>
    ensures { IfOk result (λ r. r ≡ with_more before item) }
{
    match item {
        Item::Group { bracket, parts } => group_behind(alloc, before, bracket, parts),
        Item::Mark { mark } => {
            if is_same(mark, Mark::Percent) {
                return Ok(Some((true, before)));
            }
            Ok(None)
        }
        Item::Word { .. } | Item::Number { .. } | Item::Truth { .. } | Item::Text { .. } => {
            Ok(None)
        }
    }
}

fn with_link(alloc: Global, due: bool, before: Reference, item: Item) -> Result<Link, Memory>
    ensures { IfOk result (λ r. r ≡ with_link due before item) }
{
    if due {
        return with_due_name(alloc, before, item);
    }
    with_more(alloc, before, item)
}

/// The designator that the items are (ISO/IEC 1539-1:2018, R901), and none where they are none.
#[tactic(auto, unfolding(crate::specs::Expressions::reference_of))]
pub fn reference(alloc: Global, mut items: Queue<Item>) -> Result<Option<Reference>, Memory>
    ensures { IfOk result (λ r. r ≡ reference_of items) }
{
    let mut due = true;
    let mut reference = nothing_named(alloc, items.len())?;
    while let Some(item) = items.take() {
        match with_link(alloc, due, reference, item)? {
            Some((next_due, next)) => {
                due = next_due;
                reference = next;
            }
            None => return Ok(None),
        }
    }
    if due {
        return Ok(None);
    }
    Ok(Some(reference))
}
