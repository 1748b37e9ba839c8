ghost use Rattle.std.specs.Prelude.{◌≡◌, ◌↔◌, ◌+◌, ◌-◌, ◌^◌, min, Contains, IsTrue, Some, None, Err, map, string_bytes, IsSome, IfOk, OnOk, OnErr, true};
ghost use Rattle.std.specs.Bool.{OnTrue, OnFalse};
ghost use Rattle.std.specs.FinMap.{get};
ghost use Rattle.std.specs.Option.{option_copied};
ghost use Rattle.lf_base.specs.Causes.{Rose, HasCause, HasReadCause};
ghost use Rattle.lf_base.specs.Contents.{Appends, AppendsPart};
ghost use Rattle.lf_base.specs.Files.{files_from, ReadGives, Begins, Finishes};
ghost use Rattle.lf_base.specs.SureStore.{tells_lem, tells_none_lem};
ghost use Rattle.lf_base.specs.MemStore.{mem_files, mem_pending, mem_contents, mem_calls, mem_faults, mem_read_faults, MemKeeps, mem_keeps_same_lem, mem_keeps_further_lem};

use crate::calls::Calls;
use crate::fault::{GetFault, Memory, PutFault};
use crate::sink::Sink;
use crate::store::Store;
use crate::sure_store::SureStore;
use std::alloc::Global;

/// A store in memory, whose calls with the listed numbers fail. The calls of all its traits are
/// numbered together, from 0.
#[derive(Drop)]
pub struct MemStore {
    store: SureStore,
    calls: Calls,
    faults: u64,
    read_faults: u64,
}

impl MemStore {
    /// A store with these files, where the last entry of a name counts. It fails only for want of
    /// memory.
    pub fn new(
        alloc: Global,
        files: Vec<(String, Vec<u8>)>,
        fails: Vec<u64>,
    ) -> Result<MemStore, Memory>
        ensures files { IfOk result (λ s. mem_files s ≡ files_from (map (λ f. (string_bytes f.0, f.1.items)) files.items)) }
        ensures pending { IfOk result (λ s. mem_pending s ≡ None) }
        ensures calls { IfOk result (λ s. mem_calls s ≡ record { next = 0; fails = fails.items }) }
    {
        Ok(MemStore {
            store: SureStore::new(alloc, files)?,
            calls: Calls::new(fails),
            faults: 0,
            read_faults: 0,
        })
    }

    /// The bytes of a file, where the store has one of that name.
    pub fn file(&self, name: &str) -> Option<&[u8]>
        ensures { option_copied result ≡ get (mem_files self.now) name.now }
    {
        self.store.file(name)
    }

    // Numbers a call that writes, and says whether it fails.
    fn refuse(&mut self) -> bool
        ensures refused { IsTrue result ↔ Contains (mem_calls self.old).fails (mem_calls self.old).next }
        ensures next { (mem_calls self.new).next ≡ min ((mem_calls self.old).next + 1) (2 ^ 64 - 1) }
        ensures fails { (mem_calls self.new).fails ≡ (mem_calls self.old).fails }
        ensures store { self.new.store ≡ self.old.store }
        ensures read_faults { mem_read_faults self.new ≡ mem_read_faults self.old }
        ensures counted { OnTrue result (Rose (mem_faults self.old) (mem_faults self.new)) }
        ensures same { OnFalse result (mem_faults self.new ≡ mem_faults self.old) }
    {
        let refused = self.calls.take();
        if refused {
            self.faults = self.faults.saturating_add(1);
        }
        refused
    }
}

impl Sink for MemStore {
    ghost contents = { mem_contents };

    ghost faults = { mem_faults };

    ghost may_fail = { true };

    ghost takes_memory = { true };

    ghost keeps = { MemKeeps };

    ghost keeps_same = { mem_keeps_same_lem };

    ghost keeps_further = { mem_keeps_further_lem };

    fn put(&mut self, piece: &[u8]) -> Result<(), PutFault>
        ensures ok { OnOk result (Appends (mem_contents self.old) (mem_contents self.new) piece.now) }
        ensures err { OnErr result (AppendsPart (mem_contents self.old) (mem_contents self.new) piece.now) }
        ensures keeps { MemKeeps self.old self.new }
        ensures cause { HasCause true true (mem_faults self.old) (mem_faults self.new) result }
        ensures failed { (result ≡ Err PutFault.Failed) ↔ Contains (mem_calls self.old).fails (mem_calls self.old).next }
        ensures next { (mem_calls self.new).next ≡ min ((mem_calls self.old).next + 1) (2 ^ 64 - 1) }
        ensures nothing { (result ≡ Err PutFault.Failed) → mem_contents self.new ≡ mem_contents self.old }
    {
        if self.refuse() {
            return Err(PutFault::Failed);
        }
        self.store.put(piece)
    }
}

impl Store for MemStore {
    ghost files = { λ s. Some (mem_files s) };

    ghost pending = { mem_pending };

    ghost read_faults = { mem_read_faults };

    ghost keeps_files = { λ a b k. (k.files, k.pending, k.read_faults) };

    ghost tells_pending = { λ a f p. tells_lem a.store.pending p };

    ghost tells_none = { λ a p. tells_none_lem a.store.pending p };

    fn read(&mut self, alloc: Global, name: &str) -> Result<Vec<u8>, GetFault>
        ensures gives { ReadGives (λ v. v.items) (Some (mem_files self.old)) name.now result }
        ensures files { Some (mem_files self.new) ≡ Some (mem_files self.old) }
        ensures pending { mem_pending self.new ≡ mem_pending self.old }
        ensures contents { mem_contents self.new ≡ mem_contents self.old }
        ensures faults { mem_faults self.new ≡ mem_faults self.old }
        ensures cause { HasReadCause (mem_read_faults self.old) (mem_read_faults self.new) result }
        ensures failed { (result ≡ Err GetFault.Failed) ↔ Contains (mem_calls self.old).fails (mem_calls self.old).next }
        ensures next { (mem_calls self.new).next ≡ min ((mem_calls self.old).next + 1) (2 ^ 64 - 1) }
        ensures fails { (mem_calls self.new).fails ≡ (mem_calls self.old).fails }
    {
        if self.calls.take() {
            self.read_faults = self.read_faults.saturating_add(1);
            return Err(GetFault::Failed);
        }
        self.store.read(alloc, name)
    }

    fn start(&mut self, name: &str) -> Result<(), PutFault>
        ensures ok { OnOk result (mem_pending self.new ≡ Some name.now) }
        ensures empty { OnOk result (Begins (Some (mem_files self.old)) (mem_contents self.new)) }
        ensures err { OnErr result (mem_pending self.new ≡ None) }
        ensures files { Some (mem_files self.new) ≡ Some (mem_files self.old) }
        ensures read_faults { mem_read_faults self.new ≡ mem_read_faults self.old }
        ensures cause { HasCause true true (mem_faults self.old) (mem_faults self.new) result }
        ensures failed { (result ≡ Err PutFault.Failed) ↔ Contains (mem_calls self.old).fails (mem_calls self.old).next }
        ensures next { (mem_calls self.new).next ≡ min ((mem_calls self.old).next + 1) (2 ^ 64 - 1) }
        ensures fails { (mem_calls self.new).fails ≡ (mem_calls self.old).fails }
    {
        if self.refuse() {
            self.store.drop_pending();
            return Err(PutFault::Failed);
        }
        self.store.start(name)
    }

    fn finish(&mut self) -> Result<(), PutFault>
        requires { IsSome (mem_pending self.old) }
        ensures ok { OnOk result (Finishes (Some (mem_files self.old)) (mem_pending self.old) (mem_contents self.old) (Some (mem_files self.new))) }
        ensures err { OnErr result (Some (mem_files self.new) ≡ Some (mem_files self.old)) }
        ensures pending { mem_pending self.new ≡ None }
        ensures read_faults { mem_read_faults self.new ≡ mem_read_faults self.old }
        ensures cause { HasCause true true (mem_faults self.old) (mem_faults self.new) result }
        ensures failed { (result ≡ Err PutFault.Failed) ↔ Contains (mem_calls self.old).fails (mem_calls self.old).next }
        ensures next { (mem_calls self.new).next ≡ min ((mem_calls self.old).next + 1) (2 ^ 64 - 1) }
        ensures fails { (mem_calls self.new).fails ≡ (mem_calls self.old).fails }
    {
        if self.refuse() {
            self.store.drop_pending();
            return Err(PutFault::Failed);
        }
        self.store.finish()
    }
}
