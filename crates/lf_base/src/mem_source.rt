ghost use Rattle.std.specs.Prelude.{◌≡◌, ◌↔◌, ◌+◌, ◌-◌, ◌^◌, min, Contains, Some, IsErr, IfOk, OnErr};
ghost use Rattle.lf_base.specs.Causes.{HasSourceCause};
ghost use Rattle.lf_base.specs.Contents.{HandsOver};

use crate::calls::Calls;
use crate::fault::Failed;
use crate::source::Source;
use crate::sure_source::SureSource;
use std::marker::Model;

/// A source in memory, whose calls with the listed numbers fail. Calls are numbered from 0.
#[derive(Drop)]
pub struct MemSource {
    source: SureSource,
    calls: Calls,
    faults: u64,
}

impl Model for MemSource {
    ghost use Rattle.lf_base.specs.MemSource.{SourceState};

    ghost Value = { SourceState };

    ghost view = { λ s. record { left = s.source; calls = record { next = s.calls.next; fails = s.calls.fails.items }; faults = s.faults } };
}

impl MemSource {
    /// A source of these bytes.
    pub fn new(bytes: Vec<u8>, fails: Vec<u64>) -> MemSource
        ensures { result ≡ record { left = bytes.items; calls = record { next = 0; fails = fails.items }; faults = 0 } }
    {
        MemSource {
            source: SureSource::new(bytes),
            calls: Calls::new(fails),
            faults: 0,
        }
    }
}

impl Source for MemSource {
    ghost remaining = { λ s. Some s.left };

    ghost faults = { λ s. s.faults };

    fn read(&mut self, buf: &mut [u8]) -> Result<usize, Failed>
        ensures ok { IfOk result (λ n. HandsOver (Some self.old.left) (Some self.new.left) buf.new n) }
        ensures err { OnErr result (Some self.new.left ≡ Some self.old.left) }
        ensures cause { HasSourceCause self.old.faults self.new.faults result }
        ensures failed { IsErr result ↔ Contains self.old.calls.fails self.old.calls.next }
        ensures next { self.new.calls.next ≡ min (self.old.calls.next + 1) (2 ^ 64 - 1) }
        ensures fails { self.new.calls.fails ≡ self.old.calls.fails }
    {
        if self.calls.take() {
            self.faults = self.faults.saturating_add(1);
            return Err(Failed);
        }
        self.source.read(buf)
    }
}
