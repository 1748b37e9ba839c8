ghost use Rattle.std.specs.Prelude.{◌≡◌, None, Some, IfOk};
ghost use Rattle.ff_expressions.specs.Trees.{no_arguments, with_argument};
ghost use Rattle.ff_expressions.specs.Expressions.{argument, element, value_at, values_of, plain};
ghost use Rattle.ff_expressions.specs.Pieces.{each};

use crate::item::{Parsed, Part};
use crate::queue::Queue;
use crate::tree::{triple, value_of, with_capacity};
use ast_nodes::Expr;
use lf_base::Memory;
use sqlite_items::Items;
use std::alloc::Global;

/// Trees side by side, with the greatest depth among them: 0 where there is none, and 257 for every depth above the limit.
#[derive(Drop)]
pub struct Arguments {
    pub list: Items<Expr>,
    pub depth: u32,
}

impl Arguments {
    /// No trees.
    pub fn none(alloc: Global) -> Arguments
        ensures { result ≡ no_arguments }
    {
        Arguments {
            list: Items::new(alloc),
            depth: 0,
        }
    }

    /// No trees, with room for so many.
    pub fn with_capacity(alloc: Global, capacity: usize) -> Result<Arguments, Memory>
        ensures { IfOk result (λ r. r ≡ no_arguments) }
    {
        Ok(Arguments {
            list: with_capacity(alloc, capacity)?,
            depth: 0,
        })
    }

    /// One more tree.
    pub fn with(self, value: Parsed) -> Result<Arguments, Memory>
        ensures { IfOk result (λ r. r ≡ with_argument self value) }
    {
        let Arguments { mut list, depth } = self;
        let depth = depth.max(value.depth);
        list.push(value.tree)?;
        Ok(Arguments { list, depth })
    }
}

/// Where the parts of a group stand.
#[derive(Clone, Copy)]
pub enum GroupRole {
    /// In parentheses behind a name: expressions and triplets.
    Argument,
    /// In an array constructor or an implied do: expressions and implied dos.
    Element,
}

fn argument(alloc: Global, part: Part) -> Result<Option<Parsed>, Memory>
    ensures { IfOk result (λ r. r ≡ argument part) }
{
    match part {
        Part::Plain { value } => Ok(Some(value)),
        Part::Section { lower, upper, step } => {
            let value = triple(alloc, lower, upper, value_of(step))?;
            Ok(Some(value))
        }
        Part::Star | Part::Implied { .. } | Part::Keyed { .. } => Ok(None),
    }
}

fn element(part: Part) -> Option<Parsed>
    ensures { result ≡ element part }
{
    match part {
        Part::Plain { value } | Part::Implied { value } => Some(value),
        Part::Star | Part::Section { .. } | Part::Keyed { .. } => None,
    }
}

fn value_at(alloc: Global, role: GroupRole, part: Part) -> Result<Option<Parsed>, Memory>
    ensures { IfOk result (λ r. r ≡ value_at role part) }
{
    match role {
        GroupRole::Argument => argument(alloc, part),
        GroupRole::Element => Ok(element(part)),
    }
}

/// The values of all parts, where each has one in this place.
pub fn values(
    alloc: Global,
    role: GroupRole,
    mut parts: Queue<Part>,
) -> Result<Option<Arguments>, Memory>
    ensures { IfOk result (λ r. r ≡ values_of role parts) }
{
    let mut values = Arguments::with_capacity(alloc, parts.len())?;
    while let Some(part) = parts.take() {
        match value_at(alloc, role, part)? {
            Some(value) => values = values.with(value)?,
            None => return Ok(None),
        }
    }
    Ok(Some(values))
}

fn plain(part: Part) -> Option<Parsed>
    ensures { result ≡ plain part }
{
    match part {
        Part::Plain { value } => Some(value),
        Part::Star | Part::Implied { .. } | Part::Section { .. } | Part::Keyed { .. } => None,
    }
}

/// The expressions that all parts are.
#[tactic(auto, using(crate::proofs::Gathering::gathering))]
pub fn plains(alloc: Global, mut parts: Queue<Part>) -> Result<Option<Queue<Parsed>>, Memory>
    ensures { IfOk result (λ r. r ≡ each plain parts) }
{
    let mut values = Queue::new(alloc);
    while let Some(part) = parts.take() {
        match plain(part) {
            Some(value) => values.push(value)?,
            None => return Ok(None),
        }
    }
    Ok(Some(values))
}
