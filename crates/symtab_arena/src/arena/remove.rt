//! Removals.
ghost use Rattle.std.specs.Prelude.{◌≡◌, ◌↔◌, Some, None, IsSome, IsTrue, All};
ghost use Rattle.symtab_arena.specs.Changes.{removed_from, removed_each, IsPlainIn, IsShallowIn, OwnsNoOwner};
ghost use Rattle.symtab_arena.specs.Names.{those_there};
ghost use Rattle.symtab_arena.specs.Scopes.{HasTable, IsLive, names_in, owned_by, what_of};

use super::Arena;
use crate::entries::take;
use crate::table::{Symbol, clear_each, clear_owners, drop_scope, keep_there, remove_name};
use lf_base::{SymId, TableId};

impl<K> Arena<K> {
    /// Takes out a live symbol that owns no table, and hands back what it stood for. Its number is
    /// not given again, and later symbols of its table move down by one.
    pub fn remove(&mut self, symbol: SymId) -> K
        requires live { IsLive self.old symbol }
        requires owns_none { owned_by self.old symbol ≡ None }
        ensures what { what_of self.old symbol ≡ Some result }
        ensures removed { self.new ≡ removed_from self.old symbol }
    {
        let Symbol {
            name,
            table,
            owned: _,
            what,
        } = take(&mut self.symbols, symbol.0);
        remove_name(&mut self.tables, table, name.bytes());
        self.live -= 1;
        what
    }

    /// Whether no symbol of the table that a symbol owns owns a table, as `remove_owned` and
    /// `remove_all_owned` ask. It is so of a symbol that owns none. It takes time in the number of
    /// that table's symbols.
    pub fn owns_no_owner(&self, symbol: SymId) -> bool
        ensures { IsTrue result ↔ OwnsNoOwner self.now symbol }
    {
        self.linked();
        let Some(table) = self.owned(symbol) else {
            return true;
        };
        for place in 0..self.table_len(table) {
            if self.owned(self.nth(table, place)).is_some() {
                return false;
            }
        }
        true
    }
}

impl<K: Drop> Arena<K> {
    /// Takes out a live symbol with the table that it owns and the symbols in that table, none of
    /// which owns a table. It hands back what the symbol stood for. None of the numbers is given
    /// again.
    pub fn remove_owned(&mut self, symbol: SymId) -> K
        requires live { IsLive self.old symbol }
        requires owns { IsSome (owned_by self.old symbol) }
        requires childless { OwnsNoOwner self.old symbol }
        ensures what { what_of self.old symbol ≡ Some result }
        ensures removed { self.new ≡ removed_from self.old symbol }
    {
        let Symbol {
            name,
            table,
            owned,
            what,
        } = take(&mut self.symbols, symbol.0);
        let inside = drop_scope(&mut self.tables, &mut self.symbols, owned.unwrap());
        remove_name(&mut self.tables, table, name.bytes());
        self.live -= 1 + inside;
        what
    }

    /// Takes out symbols of one table that own no table, all at once. Those that are not live are
    /// passed over. It leaves what removing them one by one leaves, and the others of the table stay
    /// in their order. It takes time in the number of the table's symbols and of those that are listed.
    pub fn remove_all(&mut self, table: TableId, gone: &[SymId])
        requires there { HasTable self.old table }
        requires plain { All (IsPlainIn self.old table) gone.now }
        ensures removed { self.new ≡ removed_each self.old gone.now }
        ensures order { names_in self.new table ≡ those_there self.new.symbols (names_in self.old table) }
    {
        let count = clear_each(&mut self.symbols, gone);
        keep_there(&mut self.tables, table, &self.symbols);
        self.live -= count;
    }
    /// Takes out symbols of one table all at once, with the tables that they own and the symbols in
    /// those tables, none of which owns a table. Those that are not live are passed over, and those
    /// that own no table are taken out as `remove_all` does. It leaves what removing them one by one
    /// leaves, and the others of the table stay in their order. It takes time in the number of the
    /// table's symbols, of those that are listed, and of those in the tables that they own.
    pub fn remove_all_owned(&mut self, table: TableId, gone: &[SymId])
        requires there { HasTable self.old table }
        requires shallow { All (IsShallowIn self.old table) gone.now }
        ensures removed { self.new ≡ removed_each self.old gone.now }
        ensures order { names_in self.new table ≡ those_there self.new.symbols (names_in self.old table) }
    {
        let count = clear_owners(&mut self.tables, &mut self.symbols, gone);
        keep_there(&mut self.tables, table, &self.symbols);
        self.live -= count;
    }
}
