ghost use Rattle.std.specs.Prelude.{◌≡◌, ℕ, List, Option, Some, None, OnOk, OnErr, IsSome};
ghost use Rattle.lf_base.specs.Causes.{HasCause, HasReadCause};
ghost use Rattle.lf_base.specs.Files.{Files, ReadGives, Begins, Finishes};

use crate::fault::{GetFault, PutFault};
use crate::sink::Sink;
use std::alloc::Global;

/// Files by their names, and at most one that is pending: it is being written and is not yet among
/// the files. As a `Sink` a store holds the bytes of the pending file.
pub trait Store: Sink {
    /// The files, where it tells them.
    ghost files: { Self → Option Files };

    /// The name of the pending file, where one is pending.
    ghost pending: { Self → Option (List ℕ) };

    /// How often a read has failed. The count never falls.
    ghost read_faults: { Self → ℕ };

    /// All bytes of a file of at most 67,108,864 bytes. Nothing is changed but the count.
    fn read(&mut self, alloc: Global, name: &str) -> Result<Vec<u8>, GetFault>
        ensures gives { ReadGives (λ v. v.items) (files self.old) name.now result }
        ensures files { files self.new ≡ files self.old }
        ensures pending { pending self.new ≡ pending self.old }
        ensures contents { Self.contents self.new ≡ Self.contents self.old }
        ensures faults { Self.faults self.new ≡ Self.faults self.old }
        ensures cause { HasReadCause (read_faults self.old) (read_faults self.new) result };

    /// Drops a pending file and begins an empty one of the name. A refused call leaves none pending.
    fn start(&mut self, name: &str) -> Result<(), PutFault>
        ensures ok { OnOk result (pending self.new ≡ Some name.now) }
        ensures empty { OnOk result (Begins (files self.old) (Self.contents self.new)) }
        ensures err { OnErr result (pending self.new ≡ None) }
        ensures files { files self.new ≡ files self.old }
        ensures read_faults { read_faults self.new ≡ read_faults self.old }
        ensures cause { HasCause Self.may_fail Self.takes_memory (Self.faults self.old) (Self.faults self.new) result };

    /// Puts the pending file among the files, in place of an older one of its name. A refused call
    /// leaves the files as they were and drops the pending file.
    fn finish(&mut self) -> Result<(), PutFault>
        requires { IsSome (pending self.old) }
        ensures ok { OnOk result (Finishes (files self.old) (pending self.old) (Self.contents self.old) (files self.new)) }
        ensures err { OnErr result (files self.new ≡ files self.old) }
        ensures pending { pending self.new ≡ None }
        ensures read_faults { read_faults self.new ≡ read_faults self.old }
        ensures cause { HasCause Self.may_fail Self.takes_memory (Self.faults self.old) (Self.faults self.new) result };

    /// A `put` keeps the files, the pending file's name and the count of failed reads.
    ghost keeps_files: { (a b : Self) → Self.keeps a b → (files b ≡ files a) × (pending b ≡ pending a) × (read_faults b ≡ read_faults a) };

    /// A store that tells its files tells the bytes of the pending file too.
    ghost tells_pending: { (a : Self) → IsSome (files a) → IsSome (pending a) → IsSome (Self.contents a) };

    /// No bytes are told while no file is pending.
    ghost tells_none: { (a : Self) → pending a ≡ None → Self.contents a ≡ None };
}
