//! Declarations.
ghost use Rattle.std.specs.Prelude.{◌≡◌, ◌<◌, ◌≤◌, IfOk, length};
ghost use Rattle.symtab_arena.specs.Answers.{Admits, Declares, DeclaresEach, DeclaresEachAt, Makes, MayDeclare};
ghost use Rattle.symtab_arena.specs.Changes.{declared_in, moved_in, owner_declared_in};
ghost use Rattle.symtab_arena.specs.Links.{Linked};
ghost use Rattle.symtab_arena.specs.Scopes.{next_symbol, next_table, HasTable, names_in};

use super::Arena;
use crate::entries::reserve;
use crate::fault::ArenaFault;
use crate::names::Names;
use crate::table::{Symbol, Table, insert_name, move_names};
use lf_base::{Memory, Name, SymId, TableId};
use std::alloc::Global;

/// How many symbol numbers there are.
const SYMBOL_NUMBERS: usize = 1_048_576;

/// The bytes of a name, as the key of a table.
fn key_of(alloc: Global, name: &Name) -> Result<Vec<u8>, Memory>
    ensures { IfOk result (λ key. key.items ≡ name.now) }
{
    match Vec::from_slice(alloc, name.bytes()) {
        Ok(key) => Ok(key),
        Err(_) => Err(Memory),
    }
}

impl<K> Arena<K> {
    /// Whether a name may be declared in a table, but for memory.
    fn admit(&self, table: TableId, name: &Name) -> Result<(), ArenaFault>
        ensures { Admits self.now table name.now result }
    {
        if let Some(symbol) = self.lookup_here(table, name) {
            return Err(ArenaFault::Twice(symbol));
        }
        if self.symbols.len() >= SYMBOL_NUMBERS {
            return Err(ArenaFault::Full);
        }
        Ok(())
    }

    /// Moves the symbols of a table from one place on before those from an earlier place on.
    fn move_before(&mut self, table: TableId, from: usize, to: usize)
        requires there { HasTable self.old table }
        requires order { to ≤ from }
        requires within { from ≤ length (names_in self.old table) }
        requires links { Linked (moved_in self.old table from to) }
        ensures { self.new ≡ moved_in self.old table from to }
    {
        move_names(&mut self.tables, table, from, to);
    }
}

impl<K: Drop> Arena<K> {
    /// Declares a name in a table, last in its declaration order. The symbol gets the next number.
    ///
    /// The answer is `Twice` where the table has the name, else `Full` where no number is left.
    pub fn declare(&mut self, table: TableId, name: &Name, what: K) -> Result<SymId, ArenaFault>
        requires { HasTable self.old table }
        ensures { let place = length (names_in self.old table) in
            Declares self.old table name.now
            (next_symbol self.old) (declared_in self.old table place name.now what)
            self.new result }
    {
        let place = self.size(table);
        self.declare_at(table, place, name, what)
    }

    /// Declares names in order, as `declare` does with each, up to the first that is refused. The
    /// answer is that refusal, and the names before it stay declared. It takes expected time in the
    /// number of the names.
    pub fn declare_all(&mut self, table: TableId, names: Vec<(Name, K)>) -> Result<(), ArenaFault>
        requires { HasTable self.old table }
        ensures { DeclaresEach self.old table names.items self.new result }
    {
        for (name, what) in names {
            match self.declare(table, &name, what) {
                Ok(_) => {}
                Err(fault) => return Err(fault),
            }
        }
        Ok(())
    }

    /// Declares names in order from a place of a table's declaration order on, as `declare_at` does
    /// with each at the place behind the last, up to the first that is refused. The answer is that
    /// refusal, and the names before it stay declared. It takes expected time in the number of the
    /// names and of the symbols from that place on.
    pub fn declare_all_at(
        &mut self,
        table: TableId,
        place: usize,
        names: Vec<(Name, K)>,
    ) -> Result<(), ArenaFault>
        requires there { HasTable self.old table }
        requires within { place ≤ length (names_in self.old table) }
        ensures { DeclaresEachAt self.old table place names.items self.new result }
    {
        self.linked();
        let from = self.size(table);
        let declared = self.declare_all(table, names);
        self.move_before(table, from, place);
        declared
    }

    /// Declares a name as `declare` does, at a place of the declaration order. Later symbols move up
    /// by one.
    pub fn declare_at(
        &mut self,
        table: TableId,
        place: usize,
        name: &Name,
        what: K,
    ) -> Result<SymId, ArenaFault>
        requires there { HasTable self.old table }
        requires within { place ≤ length (names_in self.old table) }
        ensures { Declares self.old table name.now
            (next_symbol self.old) (declared_in self.old table place name.now what)
            self.new result }
    {
        self.admit(table, name)?;
        Ok(self.add(table, place, name, what)?)
    }

    fn add(&mut self, table: TableId, place: usize, name: &Name, what: K) -> Result<SymId, Memory>
        requires there { HasTable self.old table }
        requires within { place ≤ length (names_in self.old table) }
        requires may { MayDeclare self.old table name.now }
        ensures { Makes self.old
            (next_symbol self.old) (declared_in self.old table place name.now what)
            self.new result }
    {
        let key = key_of(self.alloc, name)?;
        let own = Name::new(self.alloc, name.bytes())?;
        reserve(&mut self.symbols)?;
        let symbol = SymId(self.symbols.len() as u32);
        insert_name(&mut self.tables, table, place, key, symbol)?;
        self.symbols.push_reserved(Some(Symbol {
            name: own,
            table,
            owned: None,
            what,
        }));
        self.live += 1;
        Ok(symbol)
    }

    /// Declares a symbol together with an empty table that it owns, whose parent is the table in
    /// which the symbol stands. It is refused as `declare` is.
    pub fn declare_owner(
        &mut self,
        table: TableId,
        name: &Name,
        what: K,
    ) -> Result<(SymId, TableId), ArenaFault>
        requires { HasTable self.old table }
        ensures { let place = length (names_in self.old table) in
            Declares self.old table name.now
            (next_symbol self.old, next_table self.old)
            (owner_declared_in self.old table place name.now what)
            self.new result }
    {
        let place = self.size(table);
        self.declare_owner_at(table, place, name, what)
    }

    /// Declares a symbol as `declare_owner` does, at a place of the declaration order. Later symbols
    /// move up by one.
    pub fn declare_owner_at(
        &mut self,
        table: TableId,
        place: usize,
        name: &Name,
        what: K,
    ) -> Result<(SymId, TableId), ArenaFault>
        requires there { HasTable self.old table }
        requires within { place ≤ length (names_in self.old table) }
        ensures { Declares self.old table name.now
            (next_symbol self.old, next_table self.old)
            (owner_declared_in self.old table place name.now what)
            self.new result }
    {
        self.admit(table, name)?;
        Ok(self.add_owner(table, place, name, what)?)
    }

    fn add_owner(
        &mut self,
        table: TableId,
        place: usize,
        name: &Name,
        what: K,
    ) -> Result<(SymId, TableId), Memory>
        requires there { HasTable self.old table }
        requires within { place ≤ length (names_in self.old table) }
        requires may { MayDeclare self.old table name.now }
        ensures { Makes self.old
            (next_symbol self.old, next_table self.old)
            (owner_declared_in self.old table place name.now what)
            self.new result }
    {
        let key = key_of(self.alloc, name)?;
        let own = Name::new(self.alloc, name.bytes())?;
        reserve(&mut self.symbols)?;
        reserve(&mut self.tables)?;
        let symbol = SymId(self.symbols.len() as u32);
        let owned = TableId(self.tables.len() as u32);
        insert_name(&mut self.tables, table, place, key, symbol)?;
        self.tables.push_reserved(Some(Table {
            parent: Some(table),
            owner: Some(symbol),
            names: Names::new(self.alloc, self.key),
        }));
        self.symbols.push_reserved(Some(Symbol {
            name: own,
            table,
            owned: Some(owned),
            what,
        }));
        self.live += 1;
        Ok((symbol, owned))
    }
}
