//! Places from which the least is taken first.
ghost use Rattle.std.specs.Prelude.{◌≡◌, ◌≤◌, ◌+◌, [], ◌∷◌, length, IfOk, OnOk, IfSome, IfNone};
ghost use Rattle.std.specs.List.{All};
ghost use Rattle.std.specs.List.Sorted.{IsPermutation};

use lf_base::Memory;
use std::alloc::Global;
use std::cmp::Reverse;
use std::collections::BinaryHeap;
use std::marker::Model;

/// Places in no order, the least of which is at hand.
#[derive(Drop)]
pub(crate) struct Candidates {
    heap: BinaryHeap<Reverse<usize>>,
}

impl Model for Candidates {
    ghost use Rattle.std.specs.Prelude.{List, ℕ, map};
    ghost use Rattle.std.specs.Ordering.{nat_cmp};
    ghost use Rattle.std.specs.BinaryHeap.{heap_items, IsHeap};

    ghost Value = { List ℕ };

    ghost view = { λ c. map (λ r. r.0) (heap_items c.heap) };

    ghost invariant = { λ c. IsHeap (λ x y. nat_cmp y.0 x.0) (heap_items c.heap) };
}

impl Candidates {
    /// No places.
    pub fn new(alloc: Global) -> Candidates
        ensures { result ≡ [] }
    {
        Candidates {
            heap: BinaryHeap::new(alloc),
        }
    }

    /// Adds a place.
    pub fn push(&mut self, place: usize) -> Result<(), Memory>
        ensures { OnOk result (IsPermutation (place ∷ self.old) self.new) }
    {
        self.heap.push(Reverse(place))?;
        Ok(())
    }

    /// Takes the least place out.
    pub fn pop(&mut self) -> Option<usize>
        ensures taken { IfSome result (λ p. IsPermutation self.old (p ∷ self.new)) }
        ensures least { IfSome result (λ p. All (λ q. p ≤ q) self.new) }
        ensures none { IfNone result (self.old ≡ []) }
        ensures fewer { IfSome result (λ _. length self.old ≡ length self.new + 1) }
    {
        let Reverse(place) = self.heap.pop()?;
        Some(place)
    }
}
