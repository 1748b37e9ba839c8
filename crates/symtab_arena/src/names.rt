ghost use Rattle.std.specs.Prelude.{◌≡◌, ◌<◌, ◌≤◌, [], ◌∷◌, ◌++◌, length, insert, filter, slice_get, swap, is_some, None, OnOk, OnErr};
ghost use Rattle.std.specs.Map.{remove_entry};
ghost use Rattle.std.specs.Option.{option_map};
ghost use Rattle.std.specs.Str.{bytes_eq};
ghost use Rattle.symtab_arena.specs.Entries.{entry_at};
ghost use Rattle.symtab_arena.specs.Names.{named, those_there, moved_before, IsTurned};

use crate::entries::entry;
use crate::key::NameKey;
use indexmap::IndexMap;
use lf_base::{Memory, SymId};
use std::alloc::Global;
use std::marker::Model;

/// The names of one table with their symbols, in declaration order. No name stands twice.
#[derive(Drop)]
pub struct Names {
    entries: IndexMap<Vec<u8>, SymId, NameKey>,
}

impl Model for Names {
    ghost use Rattle.std.specs.Prelude.{List, ℕ, map};
    ghost use Rattle.lf_base.specs.declared.id.SymId.{SymId};

    ghost Value = { List (List ℕ × SymId) };

    ghost view = { λ n. map (λ e. (e.0.items, e.1)) n.entries.entries };
}

impl Names {
    /// No names. It takes no memory before the first insertion.
    pub fn new(alloc: Global, key: NameKey) -> Names
        ensures { result ≡ [] }
    {
        Names {
            entries: IndexMap::with_hasher(alloc, key),
        }
    }

    /// How many there are.
    pub fn len(&self) -> usize
        ensures { result ≡ length self.now }
    {
        self.entries.len()
    }

    /// The symbol of a name.
    pub fn find(&self, name: &[u8]) -> Option<SymId>
        ensures { result ≡ named name.now self.now }
    {
        self.entries.get(name).copied()
    }

    /// The symbol at a place of the declaration order.
    pub fn at(&self, place: usize) -> Option<SymId>
        ensures { result ≡ option_map (λ e. e.1) (slice_get self.now place) }
    {
        match self.entries.get_index(place) {
            Some((_, symbol)) => Some(*symbol),
            None => None,
        }
    }

    /// Puts a new name last.
    fn push(&mut self, name: Vec<u8>, symbol: SymId) -> Result<(), Memory>
        requires { named name.items self.old ≡ None }
        ensures ok { OnOk result (self.new ≡ self.old ++ (name.items, symbol) ∷ []) }
        ensures err { OnErr result (self.new ≡ self.old) }
    {
        match self.entries.insert(name, symbol) {
            Ok(_) => {}
            Err(_) => return Err(Memory),
        }
        Ok(())
    }

    /// Puts a new name at a place of the declaration order. Later ones move up by one.
    pub fn insert(&mut self, place: usize, name: Vec<u8>, symbol: SymId) -> Result<(), Memory>
        requires within { place ≤ length self.old }
        requires absent { named name.items self.old ≡ None }
        ensures ok { OnOk result (self.new ≡ insert self.old place (name.items, symbol)) }
        ensures err { OnErr result (self.new ≡ self.old) }
    {
        let last = self.len();
        self.push(name, symbol)?;
        if place < last {
            self.entries.move_index(last, place);
        }
        Ok(())
    }

    /// Takes a name out. Later ones move down by one.
    pub fn remove(&mut self, name: &[u8])
        ensures { self.new ≡ remove_entry (bytes_eq name.now) self.old }
    {
        let _ = self.entries.shift_remove(name);
    }

    /// Keeps the names at whose symbol's number something stands, in their order.
    pub fn keep_there<X>(&mut self, entries: &[Option<X>])
        ensures { self.new ≡ those_there entries.now self.old }
    {
        self.entries.retain(
            |_name: &Vec<u8>, symbol: &mut SymId| -> bool
                ensures { (result ≡ is_some (entry_at entries.entry.now symbol.old.0)) × (symbol.new ≡ symbol.old) }
            { entry(entries, symbol.0).is_some() },
        );
    }

    /// Exchanges two names.
    fn exchange(&mut self, first: usize, second: usize)
        requires first { first < length self.old }
        requires second { second < length self.old }
        ensures { self.new ≡ swap self.old first second }
    {
        self.entries.swap_indices(first, second);
    }

    /// Turns the names from one place up to another around.
    fn turn(&mut self, start: usize, end: usize)
        requires order { start ≤ end }
        requires within { end ≤ length self.old }
        ensures { IsTurned self.old self.new start end }
    {
        let mut low = start;
        let mut high = end;
        while high - low > 1 {
            high -= 1;
            self.exchange(low, high);
            low += 1;
        }
    }

    /// Moves the names from one place on before those that stand between an earlier place and it.
    pub fn move_before(&mut self, from: usize, to: usize)
        requires order { to ≤ from }
        requires within { from ≤ length self.old }
        ensures { self.new ≡ moved_before from to self.old }
    {
        let end = self.len();
        self.turn(to, from);
        self.turn(from, end);
        self.turn(to, end);
    }
}
