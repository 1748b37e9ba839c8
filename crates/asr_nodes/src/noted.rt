//! Names that were noted in tables.
ghost use Rattle.std.specs.Prelude.{◌≡◌, [], OnOk, OnErr};
ghost use Rattle.asr_nodes.specs.Noted.{Adds, is_among};

use lf_base::Memory;
use std::alloc::Global;
use std::collections::BTreeSet;
use std::marker::Model;

/// Names, each of them once, in the order of their bytes.
#[derive(Drop)]
pub struct NameSet {
    names: BTreeSet<Vec<u8>>,
}

impl Model for NameSet {
    ghost use Rattle.std.specs.Prelude.{List, ℕ, map};

    ghost Value = { List (List ℕ) };

    ghost view = { λ s. map (λ name. name.items) s.names.keys };
}

impl NameSet {
    /// No names. It takes no memory.
    pub fn new(alloc: Global) -> NameSet
        ensures { result ≡ [] }
    {
        NameSet {
            names: BTreeSet::new(alloc),
        }
    }

    /// Whether a name is one of them. It takes no memory.
    pub fn has(&self, name: &[u8]) -> bool
        ensures { result ≡ is_among name.now self.now }
    {
        self.names.contains(name)
    }

    /// Puts a name in, where it is not there. It fails only for want of memory, and then nothing is changed.
    pub fn add(&mut self, name: Vec<u8>) -> Result<(), Memory>
        ensures ok { OnOk result (Adds name.items self.old self.new) }
        ensures err { OnErr result (self.new ≡ self.old) }
    {
        match self.names.insert(name) {
            Ok(_) => {}
            Err(_) => return Err(Memory),
        }
        Ok(())
    }
}
