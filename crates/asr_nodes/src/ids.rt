//! Short lists of the numbers of expressions.
ghost use Rattle.std.specs.Prelude.{◌≡◌, ◌<◌, [], ◌∷◌, ◌++◌, length, map, OnOk, OnErr, slice_get, Some};
ghost use Rattle.asr_nodes.specs.Ids.{expr_ids};

use lf_base::{ExprId, Memory};
use smallvec::SmallVec;
use std::alloc::Global;
use std::marker::Model;

/// How many numbers need no memory of their own.
const INLINE: usize = 4;

/// The numbers of the arguments of a reference or the subscripts of an element, seen as a list. Up to four of them
/// stand in the node itself.
#[derive(Drop)]
pub struct ExprIds {
    numbers: SmallVec<u64, INLINE>,
}

impl Model for ExprIds {
    ghost use Rattle.std.specs.Prelude.{List};
    ghost use Rattle.lf_base.specs.declared.id.ExprId.{ExprId};
    ghost use Rattle.asr_nodes.specs.Ids.{expr_ids};

    ghost Value = { List ExprId };

    ghost view = { λ it. expr_ids it.numbers.items };
}

impl ExprIds {
    /// No numbers. It takes no memory.
    pub fn new(alloc: Global) -> ExprIds
        ensures { result ≡ [] }
    {
        ExprIds {
            numbers: SmallVec::new(alloc),
        }
    }

    /// Puts a number last. It fails only for want of memory, and then nothing is changed.
    pub fn push(&mut self, id: ExprId) -> Result<(), Memory>
        ensures ok { OnOk result (self.new ≡ self.old ++ id ∷ []) }
        ensures err { OnErr result (self.new ≡ self.old) }
    {
        match self.numbers.push(id.0) {
            Ok(()) => Ok(()),
            Err(_) => Err(Memory),
        }
    }

    pub fn len(&self) -> usize
        ensures { result ≡ length self.now }
    {
        self.numbers.len()
    }

    /// The number at a place of the list, from 0.
    pub fn at(&self, place: usize) -> ExprId
        requires { place < length self.now }
        ensures { slice_get self.now place ≡ Some result }
    {
        ExprId(self.numbers[place])
    }
}
