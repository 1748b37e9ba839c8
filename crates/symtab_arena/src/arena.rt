ghost use Rattle.std.specs.Prelude.{◌≡◌, ◌↔◌, ◌<◌, ◌≤◌, Some, IfOk, IsTrue, length};
ghost use Rattle.symtab_arena.specs.Changes.{replaced_in};
ghost use Rattle.std.specs.Borrow.{sem};
ghost use Rattle.symtab_arena.specs.Lends.{lends_what};
ghost use Rattle.symtab_arena.specs.Links.{Linked};
ghost use Rattle.symtab_arena.specs.Scopes.{the_root, symbol_numbers, names_in, next_table as table_next, HasTable, IsLive, live_count, symbol_in, symbol_in_place, symbol_seen, parent_of, owner_of, owned_by, table_of, name_of, what_of};

mod declare;
mod remove;

use crate::entries::{entry, there};
use crate::key::NameKey;
use crate::names::Names;
use crate::table::{Symbol, Table, replace_what, what_there};
use lf_base::{Memory, Name, SymId, TableId};
use std::alloc::Global;
use std::marker::Model;

/// The key of an arena that was given none.
const KNOWN_KEY: [u64; 2] = [0, 0];

/// Tables of symbols by number, for the scopes of a program (ISO/IEC 1539-1:2018, 19.1).
///
/// A table names its parent and the symbol that owns it. A symbol names its table and may own
/// another. The root is table 0. Every other table has one owner, and its parent is the table in
/// which that owner stands. Names in a table are distinct, and each table keeps the order in which
/// its names were declared. Numbers are given in rising order and never again.
///
/// Looking a name up and declaring one last take expected constant time in the size of a table:
/// names are hashed with a key (see `keyed`). A single removal and a declaration before others take
/// time in the number of the table's symbols, and so do `remove_all`, `remove_all_owned` and
/// `declare_all_at` for as many as they are given.
#[derive(Drop)]
pub struct Arena<K> {
    alloc: Global,
    key: NameKey,
    tables: Vec<Option<Table>>,
    symbols: Vec<Option<Symbol<K>>>,
    live: usize,
}

impl<K> Model for Arena<K> {
    ghost use Rattle.std.specs.Prelude.{◌≡◌};
    ghost use Rattle.symtab_arena.specs.Scopes.{Scopes, live_count};
    ghost use Rattle.symtab_arena.specs.Links.{Linked};

    ghost Value = { Scopes K };

    ghost view = { λ a. record { tables = a.tables.items; symbols = a.symbols.items } };

    ghost invariant = { λ a. Linked (record { tables = a.tables.items; symbols = a.symbols.items })
        × (a.live
        ≡ live_count (record { tables = a.tables.items; symbols = a.symbols.items })) };
}

impl<K> Arena<K> {
    /// The root table 0, with no symbol. It fails only for want of memory. Its names are hashed with
    /// a key that everybody knows: where names may be chosen to collide, take `keyed`.
    pub fn new(alloc: Global) -> Result<Arena<K>, Memory>
        ensures { IfOk result (λ a. a ≡ the_root) }
    {
        Arena::keyed(alloc, KNOWN_KEY)
    }

    /// The root table 0, as `new`, whose names are hashed with this key. No answer and no order
    /// depends on the key, only the time that look-ups take. The key must be one that whoever chose
    /// the names could not choose them by, such as a digest of the whole source.
    pub fn keyed(alloc: Global, key: [u64; 2]) -> Result<Arena<K>, Memory>
        ensures { IfOk result (λ a. a ≡ the_root) }
    {
        let [first, second] = key;
        let key = NameKey { first, second };
        let mut tables = Vec::new(alloc);
        let root = Table {
            parent: None,
            owner: None,
            names: Names::new(alloc, key),
        };
        match tables.push(Some(root)) {
            Ok(()) => Ok(Arena {
                alloc,
                key,
                tables,
                symbols: Vec::new(alloc),
                live: 0,
            }),
            Err(_) => Err(Memory),
        }
    }

    /// The links of tables and symbols, which hold of every arena. It does nothing when it runs.
    pub fn linked(&self)
        ensures { Linked self.now }
    {
        let _ = &self.tables;
    }

    /// How many symbol numbers have been given, those of removed symbols among them. It is the next
    /// symbol's number.
    pub fn given(&self) -> usize
        ensures { result ≡ length self.now.symbols }
    {
        self.symbols.len()
    }

    /// The number that the next table gets.
    pub fn next_table(&self) -> TableId
        ensures { result ≡ table_next self.now }
    {
        TableId(self.tables.len() as u32)
    }

    /// How many symbols are live.
    pub fn len(&self) -> usize
        ensures { result ≡ live_count self.now }
    {
        self.live
    }

    /// Whether a number is that of a live symbol. It may be any number.
    pub fn live(&self, symbol: SymId) -> bool
        ensures { IsTrue result ↔ IsLive self.now symbol }
    {
        entry(&self.symbols, symbol.0).is_some()
    }

    /// Whether a number is that of a table that is there. It may be any number.
    pub fn has_table(&self, table: TableId) -> bool
        ensures { IsTrue result ↔ HasTable self.now table }
    {
        entry(&self.tables, table.0).is_some()
    }

    /// The table around a table. The root has none.
    pub fn parent(&self, table: TableId) -> Option<TableId>
        ensures { result ≡ parent_of self.now table }
    {
        entry(&self.tables, table.0)?.parent
    }

    /// The symbol that owns a table. The root has none.
    pub fn owner(&self, table: TableId) -> Option<SymId>
        ensures { result ≡ owner_of self.now table }
    {
        entry(&self.tables, table.0)?.owner
    }

    /// The table that a symbol owns, if it owns one.
    pub fn owned(&self, symbol: SymId) -> Option<TableId>
        ensures { result ≡ owned_by self.now symbol }
    {
        entry(&self.symbols, symbol.0)?.owned
    }

    /// The table in which a live symbol stands.
    pub fn table_of(&self, symbol: SymId) -> TableId
        requires { IsLive self.now symbol }
        ensures { table_of self.now symbol ≡ Some result }
    {
        there(&self.symbols, symbol.0).table
    }

    /// The name of a live symbol.
    pub fn name_of(&self, symbol: SymId) -> &Name
        requires { IsLive self.now symbol }
        ensures { name_of self.now symbol ≡ Some result.now }
    {
        &there(&self.symbols, symbol.0).name
    }

    /// What a live symbol stands for.
    pub fn what(&self, symbol: SymId) -> &K
        requires { IsLive self.now symbol }
        ensures { what_of self.now symbol ≡ Some result.now }
    {
        &there(&self.symbols, symbol.0).what
    }

    /// The symbol of a name in a table.
    pub fn lookup_here(&self, table: TableId, name: &Name) -> Option<SymId>
        ensures { result ≡ symbol_in self.now table name.now }
    {
        entry(&self.tables, table.0)?.names.find(name.bytes())
    }

    /// The symbol that a name means in a table: the one of the table, else of its parent, and so on
    /// up to the root, as host association has it (ISO/IEC 1539-1:2018, 19.5.1.4). It takes time in
    /// the depth of the table.
    pub fn lookup_up(&self, table: TableId, name: &Name) -> Option<SymId>
        ensures { result ≡ symbol_seen self.now table name.now }
    {
        self.linked();
        let mut here = Some(table);
        while let Some(at) = here {
            if let Some(symbol) = self.lookup_here(at, name) {
                return Some(symbol);
            }
            here = self.parent(at);
        }
        None
    }

    /// The symbol at a place of a table's declaration order, from 0.
    pub fn at(&self, table: TableId, place: usize) -> Option<SymId>
        ensures { result ≡ symbol_in_place self.now table place }
    {
        entry(&self.tables, table.0)?.names.at(place)
    }

    /// How many symbols stand in a table.
    pub fn table_len(&self, table: TableId) -> usize
        ensures len { result ≡ length (names_in self.now table) }
        ensures live { result ≤ live_count self.now }
        ensures small { result ≤ symbol_numbers }
    {
        self.linked();
        self.size(table)
    }

    fn size(&self, table: TableId) -> usize
        ensures { result ≡ length (names_in self.now table) }
    {
        match entry(&self.tables, table.0) {
            Some(there) => there.names.len(),
            None => 0,
        }
    }

    /// The symbol at a place of a table's declaration order, of those below `table_len`.
    pub fn nth(&self, table: TableId, place: usize) -> SymId
        requires { place < length (names_in self.now table) }
        ensures listed { symbol_in_place self.now table place ≡ Some result }
        ensures stands { table_of self.now result ≡ Some table }
    {
        self.linked();
        self.at(table, place).unwrap()
    }

    /// What a live symbol stands for, to be changed.
    pub fn what_mut(&mut self, symbol: SymId) -> &mut K
        requires { IsLive self.old symbol }
        ensures* writes_back { sem 𝓛 (lends_what K.row self.entry symbol result) }
        ensures value { what_of self.old symbol ≡ Some result.now }
    {
        what_there(&mut self.symbols[symbol.0 as usize])
    }

    /// Changes what a live symbol stands for, and hands the old one back.
    pub fn replace_what(&mut self, symbol: SymId, with: K) -> K
        requires { IsLive self.old symbol }
        ensures old { what_of self.old symbol ≡ Some result }
        ensures new { self.new ≡ replaced_in self.old symbol with }
    {
        replace_what(&mut self.symbols, symbol, with)
    }
}
