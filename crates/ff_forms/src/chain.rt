ghost use Rattle.std.specs.Prelude.{◌≡◌, slice_get};
ghost use Rattle.ff_forms.specs.declared.chain.Seen.TheVariants.{NameWanted, Chain};
ghost use Rattle.ff_forms.specs.Actions.{seen_by, seen_at, is_assignment};

use ff_expressions::{Bracket, Item, Mark, Queue};

/// What is seen of a designator chain and the `=` behind it.
#[derive(Clone, Copy)]
pub enum Seen {
    /// A name has to follow.
    NameWanted,
    /// A chain, so far.
    Chain,
    /// A chain, and `=` behind it.
    Assigned,
    /// No chain with `=` behind it.
    Other,
}

#[tactic(auto, unfolding(crate::specs::Actions::seen_by))]
fn in_chain(item: &Item) -> Seen
    ensures { result ≡ seen_by Chain item.now }
{
    match item {
        Item::Group {
            bracket: Bracket::Round,
            ..
        } => Seen::Chain,
        Item::Mark {
            mark: Mark::Percent,
        } => Seen::NameWanted,
        Item::Mark { mark: Mark::Equals } => Seen::Assigned,
        _ => Seen::Other,
    }
}

#[tactic(auto, unfolding(crate::specs::Actions::seen_by))]
fn name_wanted(item: &Item) -> Seen
    ensures { result ≡ seen_by NameWanted item.now }
{
    match item {
        Item::Word { .. } => Seen::Chain,
        _ => Seen::Other,
    }
}

#[tactic(auto, unfolding(crate::specs::Actions::seen_by))]
fn seen_by(seen: Seen, item: &Item) -> Seen
    ensures { result ≡ seen_by seen item.now }
{
    match seen {
        Seen::NameWanted => name_wanted(item),
        Seen::Chain => in_chain(item),
        Seen::Assigned => Seen::Assigned,
        Seen::Other => Seen::Other,
    }
}

#[tactic(auto, unfolding(crate::specs::Actions::seen_at))]
fn seen_at(seen: Seen, items: &Queue<Item>, at: usize) -> Seen
    ensures { result ≡ seen_at seen (slice_get items.now at) }
{
    match items.get(at) {
        Some(item) => seen_by(seen, item),
        None => seen,
    }
}

#[tactic(auto, using(crate::proofs::Chains::chains), unfolding(crate::specs::Actions::is_assignment, crate::specs::Actions::is_assigned))]
pub fn is_assignment(items: &Queue<Item>) -> bool
    ensures { result ≡ is_assignment items.now }
{
    let mut seen = Seen::NameWanted;
    for at in 0..items.len() {
        seen = seen_at(seen, items, at);
    }
    match seen {
        Seen::Assigned => true,
        _ => false,
    }
}
