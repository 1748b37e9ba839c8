//! The names of a unit that are declared so far, and what each stands for.
ghost use Rattle.std.specs.Prelude.{◌≡◌, [], length, OnOk, OnErr, option_map};
ghost use Rattle.ast_to_asr.specs.Known.{known_in, with_name, scope_of, entity_known};
ghost use Rattle.ast_to_asr.specs.Scope.{entity_of, added};

use indexmap::IndexMap;
use lf_base::{Memory, SymId};
use std::alloc::Global;
use std::marker::Model;
use symtab_arena::NameKey;

/// The type of a scalar (ISO/IEC 1539-1:2018, 7.4.3.1 and 7.4.5): an integer of kind 4 or 8, or a logical.
#[derive(Clone, Copy, Debug, PartialEq, Eq)]
pub enum ScalarType {
    Integer { kind: u8 },
    Logical,
}

/// The value of a constant: an integer of a kind, or a logical.
#[derive(Clone, Copy, Debug, PartialEq, Eq)]
pub enum Constant {
    Integer { kind: u8, value: i64 },
    Logical { value: bool },
}

/// What a name stands for (ISO/IEC 1539-1:2018, 8.5 and 19.3).
#[derive(Clone, Copy, Debug, PartialEq, Eq)]
pub enum Known {
    /// A variable, by its symbol.
    Variable {
        symbol: SymId,
        ty: ScalarType,
    },
    /// A named constant with its value, which is not known where its declaration breaks a rule.
    NamedConstant {
        ty: ScalarType,
        value: Option<Constant>,
    },
}

/// The names that are declared so far, in the order of their declarations. A name that is declared twice keeps what it
/// stood for first.
#[derive(Drop)]
pub struct Names {
    entries: IndexMap<Vec<u8>, Known, NameKey>,
}

impl Model for Names {
    ghost use Rattle.std.specs.Prelude.{List, ℕ, map};
    ghost use Rattle.ast_to_asr.specs.declared.names.Known.{Known};

    ghost Value = { List (List ℕ × Known) };

    ghost view = { λ n. map (λ e. (e.0.items, e.1)) n.entries.entries };
}

impl Names {
    /// No names. They are hashed with this key, such as a digest of the whole source, so that nobody can choose names
    /// that collide. It takes no memory before the first name.
    pub fn new(alloc: Global, key: [u64; 2]) -> Names
        ensures { result ≡ [] }
    {
        let [first, second] = key;
        Names {
            entries: IndexMap::with_hasher(alloc, NameKey { first, second }),
        }
    }

    /// How many names are declared.
    pub fn len(&self) -> usize
        ensures { result ≡ length self.now }
    {
        self.entries.len()
    }

    /// What a name stands for, if it is declared.
    #[tactic(auto, using(crate::proofs::Entries::entries))]
    pub fn known(&self, name: &[u8]) -> Option<Known>
        ensures known { result ≡ known_in self.now name.now }
        ensures entity { option_map entity_known result ≡ entity_of (scope_of self.now) name.now }
    {
        self.entries.get(name).copied()
    }

    fn push(&mut self, name: Vec<u8>, known: Known) -> Result<(), Memory>
        requires { known_in self.old name.items ≡ None }
        ensures ok { OnOk result (self.new ≡ with_name self.old name.items known) }
        ensures err { OnErr result (self.new ≡ self.old) }
    {
        match self.entries.insert(name, known) {
            Ok(_) => {}
            Err(_) => return Err(Memory),
        }
        Ok(())
    }

    /// Declares a name, where it is not declared yet. It fails only for want of memory, and then nothing is changed.
    #[tactic(auto, using(crate::proofs::Entries::entries))]
    pub fn declare(&mut self, name: &[u8], known: Known) -> Result<(), Memory>
        ensures ok { OnOk result (self.new ≡ with_name self.old name.now known) }
        ensures scope { OnOk result (scope_of self.new ≡ added (scope_of self.old) name.now (entity_known known)) }
        ensures err { OnErr result (self.new ≡ self.old) }
    {
        if self.known(name).is_some() {
            return Ok(());
        }
        let owned = Vec::from_slice(*self.entries.allocator(), name)?;
        self.push(owned, known)
    }
}
