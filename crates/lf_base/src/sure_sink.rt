ghost use Rattle.std.specs.Prelude.{◌≡◌, Some, [], IfOk, true, false};

use crate::fault::{Memory, PutFault};
use crate::sink::Sink;
use std::alloc::Global;
use std::marker::Model;

/// A sink in memory that never fails, which contracts see as the bytes that it holds.
#[derive(Drop)]
pub struct SureSink {
    bytes: Vec<u8>,
}

impl Model for SureSink {
    ghost use Rattle.std.specs.Prelude.{List, ℕ};

    ghost Value = { List ℕ };

    ghost view = { λ s. s.bytes.items };
}

impl SureSink {
    /// An empty sink. It fails only for want of memory.
    pub fn new(alloc: Global) -> Result<SureSink, Memory>
        ensures { IfOk result (λ s. s ≡ []) }
    {
        Ok(SureSink {
            bytes: Vec::new(alloc),
        })
    }

    /// The bytes that it holds.
    pub fn bytes(&self) -> &[u8]
        ensures { result.now ≡ self.now }
    {
        self.bytes.as_slice()
    }
}

impl Sink for SureSink {
    ghost contents = { λ s. Some s };

    ghost faults = { λ _. 0 };

    ghost may_fail = { false };

    ghost takes_memory = { true };

    ghost keeps = { λ _ _. Unit {0} };

    ghost keeps_same = { λ _. tt };

    ghost keeps_further = { λ _ _ _ _ _. tt };

    fn put(&mut self, piece: &[u8]) -> Result<(), PutFault> {
        self.bytes.extend_from_slice(piece)?;
        Ok(())
    }
}
