ghost use Rattle.std.specs.Prelude.{◌≡◌, ◌==◌, [], ◌∷◌, ◌++◌, slice_get, IfOk, OnOk};
ghost use Rattle.std.specs.List.{list_any};
ghost use Rattle.ff_expressions.specs.Pieces.{mark_number, is_mark, there, stands, pieces_of, single_colons, is_colon};

use crate::item::{Item, Mark};
use crate::queue::Queue;
use lf_base::Memory;
use std::alloc::Global;

fn mark_number(mark: Mark) -> u16
    ensures { result ≡ mark_number mark }
{
    match mark {
        Mark::Comma => 0,
        Mark::Colon => 1,
        Mark::DoubleColon => 2,
        Mark::Equals => 3,
        Mark::Arrow => 4,
        Mark::Percent => 5,
        Mark::Operator { code } => u16::from(code) + 6,
    }
}

/// Whether both are the same mark.
pub fn is_same(one: Mark, other: Mark) -> bool
    ensures { result ≡ (mark_number one == mark_number other) }
{
    mark_number(one) == mark_number(other)
}

/// Whether an item is this mark.
pub fn is_mark(mark: Mark, item: &Item) -> bool
    ensures { result ≡ is_mark mark item.now }
{
    match item {
        Item::Mark { mark: other } => is_same(*other, mark),
        Item::Word { .. }
        | Item::Number { .. }
        | Item::Truth { .. }
        | Item::Text { .. }
        | Item::Group { .. } => false,
    }
}

/// Whether this mark stands at a place of the items.
pub fn stands(mark: Mark, items: &Queue<Item>, at: usize) -> bool
    ensures { result ≡ stands mark (slice_get items.now at) }
{
    match items.get(at) {
        Some(there) => is_mark(mark, there),
        None => false,
    }
}

fn has_mark(mark: Mark, items: &Queue<Item>) -> bool
    ensures { result ≡ list_any (is_mark mark) items.now }
{
    for at in 0..items.len() {
        if stands(mark, items, at) {
            return true;
        }
    }
    false
}

fn divided(alloc: Global, mut items: Queue<Item>, mark: Mark) -> Result<Queue<Queue<Item>>, Memory>
    ensures { IfOk result (λ r. r ≡ pieces_of mark items) }
{
    let mut done = Queue::new(alloc);
    let mut piece = Queue::new(alloc);
    while let Some(item) = items.take() {
        if is_mark(mark, &item) {
            done.push(piece)?;
            piece = Queue::new(alloc);
        } else {
            piece.push(item)?;
        }
    }
    done.push(piece)?;
    Ok(done)
}

/// The items round a mark. There is always one piece, which may be empty.
pub fn pieces(alloc: Global, items: Queue<Item>, mark: Mark) -> Result<Queue<Queue<Item>>, Memory>
    ensures { IfOk result (λ r. r ≡ pieces_of mark items) }
{
    if has_mark(mark, &items) {
        return divided(alloc, items, mark);
    }
    let mut done = Queue::with_capacity(alloc, 1)?;
    done.push(items)?;
    Ok(done)
}

fn is_colon(items: &Queue<Item>, at: usize) -> bool
    ensures { result ≡ there is_colon (slice_get items.now at) }
{
    match items.get(at) {
        Some(there) => is_mark(Mark::Colon, there) || is_mark(Mark::DoubleColon, there),
        None => false,
    }
}

/// Whether `:` or `::` is among the items.
pub fn has_colon(items: &Queue<Item>) -> bool
    ensures { result ≡ list_any is_colon items.now }
{
    for at in 0..items.len() {
        if is_colon(items, at) {
            return true;
        }
    }
    false
}

fn push_colon(items: &mut Queue<Item>) -> Result<(), Memory>
    ensures { OnOk result (items.new ≡ items.old ++ Item.Mark Mark.Colon ∷ []) }
{
    items.push(Item::Mark { mark: Mark::Colon })
}

/// The items with two colons in place of each `::`.
pub fn single_colons(alloc: Global, mut items: Queue<Item>) -> Result<Queue<Item>, Memory>
    ensures { IfOk result (λ r. r ≡ single_colons items) }
{
    let mut done = Queue::new(alloc);
    while let Some(item) = items.take() {
        if is_mark(Mark::DoubleColon, &item) {
            push_colon(&mut done)?;
            push_colon(&mut done)?;
        } else {
            done.push(item)?;
        }
    }
    Ok(done)
}
