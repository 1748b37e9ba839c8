ghost use Rattle.std.specs.Prelude.{◌≡◌, ◌↔◌, ◌+◌, ◌-◌, ◌^◌, min, Contains, refl, Some, Err, [], IfOk, OnOk, OnErr, true};
ghost use Rattle.std.proofs.Common.{◌∙◌};
ghost use Rattle.lf_base.specs.Causes.{HasCause};
ghost use Rattle.lf_base.specs.Contents.{Appends, AppendsPart};

use crate::calls::Calls;
use crate::fault::{Memory, PutFault};
use crate::sink::Sink;
use crate::sure_sink::SureSink;
use std::alloc::Global;
use std::marker::Model;

/// A sink in memory, whose calls with the listed numbers fail and write nothing. Calls are numbered from 0.
#[derive(Drop)]
pub struct MemSink {
    sink: SureSink,
    calls: Calls,
    faults: u64,
}

impl Model for MemSink {
    ghost use Rattle.lf_base.specs.MemSink.{SinkState};

    ghost Value = { SinkState };

    ghost view = { λ s. record { bytes = s.sink; calls = record { next = s.calls.next; fails = s.calls.fails.items }; faults = s.faults } };
}

impl MemSink {
    /// An empty sink. It fails only for want of memory.
    pub fn new(alloc: Global, fails: Vec<u64>) -> Result<MemSink, Memory>
        ensures { IfOk result (λ s. s ≡ record { bytes = []; calls = record { next = 0; fails = fails.items }; faults = 0 }) }
    {
        Ok(MemSink {
            sink: SureSink::new(alloc)?,
            calls: Calls::new(fails),
            faults: 0,
        })
    }

    /// The bytes that it holds.
    pub fn bytes(&self) -> &[u8]
        ensures { result.now ≡ self.now.bytes }
    {
        self.sink.bytes()
    }
}

impl Sink for MemSink {
    ghost contents = { λ s. Some s.bytes };

    ghost faults = { λ s. s.faults };

    ghost may_fail = { true };

    ghost takes_memory = { true };

    ghost keeps = { λ a b. b.calls.fails ≡ a.calls.fails };

    ghost keeps_same = { λ a. refl };

    ghost keeps_further = { λ a b c p q. q ∙ p };

    fn put(&mut self, piece: &[u8]) -> Result<(), PutFault>
        ensures ok { OnOk result (Appends (Some self.old.bytes) (Some self.new.bytes) piece.now) }
        ensures err { OnErr result (AppendsPart (Some self.old.bytes) (Some self.new.bytes) piece.now) }
        ensures keeps { self.new.calls.fails ≡ self.old.calls.fails }
        ensures cause { HasCause true true self.old.faults self.new.faults result }
        ensures failed { (result ≡ Err PutFault.Failed) ↔ Contains self.old.calls.fails self.old.calls.next }
        ensures next { self.new.calls.next ≡ min (self.old.calls.next + 1) (2 ^ 64 - 1) }
        ensures nothing { (result ≡ Err PutFault.Failed) → self.new.bytes ≡ self.old.bytes }
    {
        if self.calls.take() {
            self.faults = self.faults.saturating_add(1);
            return Err(PutFault::Failed);
        }
        self.sink.put(piece)
    }
}
