ghost use Rattle.std.specs.Prelude.{◌≡◌, ◌≤◌, ◌+◌, Some, None, IsSome, OnOk, OnErr, length, insert, slice_set, vec_capacity, is_some, count_by};
ghost use Rattle.std.specs.Option.{option_map, option_and_then};
ghost use Rattle.symtab_arena.specs.Changes.{standing_for, with_names};
ghost use Rattle.symtab_arena.specs.Entries.{entry_at, IsThere};
ghost use Rattle.std.specs.Borrow.{sem};
ghost use Rattle.symtab_arena.specs.Lends.{lends_place};
ghost use Rattle.symtab_arena.specs.Names.{named, without, those_there, moved_before};
ghost use Rattle.symtab_arena.specs.Scopes.{scopes_of};
ghost use Rattle.symtab_arena.specs.Tables.{names_at, cleared, without_each, taken_out, taken_out_each};

use crate::entries::{entry, take};
use crate::names::Names;
use lf_base::{Memory, Name, SymId, TableId};
use std::mem;

/// A table of symbols, which stands for a scope.
#[derive(Drop)]
pub struct Table {
    /// The table in which its owner stands. The root has none.
    pub parent: Option<TableId>,
    /// The symbol that owns it. The root has none.
    pub owner: Option<SymId>,
    /// Its names with their symbols, in declaration order.
    pub names: Names,
}

/// A symbol, with what was declared of it.
#[derive(Drop)]
pub struct Symbol<K> {
    pub name: Name,
    /// The table in which it stands.
    pub table: TableId,
    /// The table that it owns.
    pub owned: Option<TableId>,
    /// What the name stands for.
    pub what: K,
}

/// Puts a new name at a place of a table.
pub(crate) fn insert_name(
    tables: &mut Vec<Option<Table>>,
    table: TableId,
    place: usize,
    name: Vec<u8>,
    symbol: SymId,
) -> Result<(), Memory>
    requires there { IsThere tables.old.items table.0 }
    requires within { place ≤ length (names_at tables.old.items table.0) }
    requires absent { named name.items (names_at tables.old.items table.0) ≡ None }
    ensures ok { OnOk result (tables.new.items
        ≡ with_names tables.old.items table (λ names. insert names place (name.items, symbol))) }
    ensures err { OnErr result (tables.new.items ≡ tables.old.items) }
    ensures capacity { vec_capacity tables.new ≡ vec_capacity tables.old }
{
    match &mut tables[table.0 as usize] {
        Some(there) => there.names.insert(place, name, symbol),
        None => Ok(()),
    }
}

/// Takes a name out of a table.
pub(crate) fn remove_name(tables: &mut Vec<Option<Table>>, table: TableId, name: &[u8])
    requires { IsThere tables.old.items table.0 }
    ensures { tables.new.items ≡ with_names tables.old.items table (without name.now) }
{
    if let Some(there) = &mut tables[table.0 as usize] {
        there.names.remove(name);
    }
}

/// Moves the names of a table from one place on before those that stand between an earlier place and
/// it.
pub(crate) fn move_names(tables: &mut Vec<Option<Table>>, table: TableId, from: usize, to: usize)
    requires there { IsThere tables.old.items table.0 }
    requires order { to ≤ from }
    requires within { from ≤ length (names_at tables.old.items table.0) }
    ensures { tables.new.items ≡ with_names tables.old.items table (moved_before from to) }
{
    if let Some(there) = &mut tables[table.0 as usize] {
        there.names.move_before(from, to);
    }
}

/// What the symbol at a place stands for, to be changed.
pub(crate) fn what_there<K>(place: &mut Option<Symbol<K>>) -> &mut K
    requires { IsSome place.old }
    ensures* writes_back { sem 𝓛 (lends_place K.row place.entry result) }
    ensures value { option_map (λ y. y.what) place.old ≡ Some result.now }
{
    match place {
        Some(there) => &mut there.what,
        None => unreachable!(),
    }
}

/// Changes what a symbol stands for, and hands the old one back.
pub(crate) fn replace_what<K>(symbols: &mut Vec<Option<Symbol<K>>>, symbol: SymId, with: K) -> K
    requires { IsThere symbols.old.items symbol.0 }
    ensures old { option_map (λ y. y.what) (entry_at symbols.old.items symbol.0) ≡ Some result }
    ensures new { symbols.new.items ≡ slice_set symbols.old.items symbol.0
        (option_map (standing_for with) (entry_at symbols.old.items symbol.0)) }
{
    match &mut symbols[symbol.0 as usize] {
        Some(there) => mem::replace(&mut there.what, with),
        None => with,
    }
}

/// Takes out a symbol if it is there, and counts it.
fn clear_one<K: Drop>(symbols: &mut Vec<Option<Symbol<K>>>, symbol: SymId) -> usize
    ensures left { symbols.new.items ≡ slice_set symbols.old.items symbol.0 None }
    ensures count { count_by is_some symbols.new.items + result
        ≡ count_by is_some symbols.old.items }
    ensures one { result ≤ 1 }
{
    match entry(symbols, symbol.0) {
        Some(_) => {}
        None => return 0,
    }
    let _ = take(symbols, symbol.0);
    1
}

/// Takes out the symbols that are listed, and counts those that were there.
fn clear<K: Drop>(symbols: &mut Vec<Option<Symbol<K>>>, names: &Names) -> usize
    ensures left { symbols.new.items ≡ cleared names.now symbols.old.items }
    ensures count { count_by is_some symbols.new.items + result
        ≡ count_by is_some symbols.old.items }
{
    let mut gone = 0;
    for place in 0..names.len() {
        if let Some(symbol) = names.at(place) {
            gone += clear_one(symbols, symbol);
        }
    }
    gone
}

/// Takes out the symbols at these numbers, and counts those that were there.
pub(crate) fn clear_each<K: Drop>(symbols: &mut Vec<Option<Symbol<K>>>, gone: &[SymId]) -> usize
    ensures left { symbols.new.items ≡ without_each gone.now symbols.old.items }
    ensures count { count_by is_some symbols.new.items + result
        ≡ count_by is_some symbols.old.items }
{
    let mut count = 0;
    for symbol in gone {
        count += clear_one(symbols, *symbol);
    }
    count
}

/// Keeps the names of a table whose symbols are there.
pub(crate) fn keep_there<X>(tables: &mut Vec<Option<Table>>, table: TableId, symbols: &[Option<X>])
    requires { IsThere tables.old.items table.0 }
    ensures { tables.new.items ≡ with_names tables.old.items table (those_there symbols.now) }
{
    if let Some(there) = &mut tables[table.0 as usize] {
        there.names.keep_there(symbols);
    }
}

/// Takes out a table and the symbols that it lists, and counts those that were there.
pub(crate) fn drop_scope<K: Drop>(
    tables: &mut Vec<Option<Table>>,
    symbols: &mut Vec<Option<Symbol<K>>>,
    table: TableId,
) -> usize
    requires { IsThere tables.old.items table.0 }
    ensures table { tables.new.items ≡ slice_set tables.old.items table.0 None }
    ensures left { symbols.new.items ≡ cleared (names_at tables.old.items table.0) symbols.old.items }
    ensures count { count_by is_some symbols.new.items + result
        ≡ count_by is_some symbols.old.items }
{
    let scope = take(tables, table.0);
    clear(symbols, &scope.names)
}

/// Takes out a table, if it is there, and the symbols that it lists, and counts those that were there.
fn clear_scope<K: Drop>(
    tables: &mut Vec<Option<Table>>,
    symbols: &mut Vec<Option<Symbol<K>>>,
    table: TableId,
) -> usize
    ensures table { tables.new.items ≡ slice_set tables.old.items table.0 None }
    ensures left { symbols.new.items ≡ cleared (names_at tables.old.items table.0) symbols.old.items }
    ensures count { count_by is_some symbols.new.items + result
        ≡ count_by is_some symbols.old.items }
{
    match entry(tables, table.0) {
        Some(_) => {}
        None => return 0,
    }
    drop_scope(tables, symbols, table)
}

/// The table that a symbol owns.
pub(crate) fn owned<K>(symbols: &[Option<Symbol<K>>], symbol: SymId) -> Option<TableId>
    ensures { result ≡ option_and_then (λ y. y.owned) (entry_at symbols.now symbol.0) }
{
    entry(symbols, symbol.0)?.owned
}

/// Takes out a symbol, if it is there, with the table that it owns and the symbols in that table,
/// and counts all these symbols.
fn clear_owner<K: Drop>(
    tables: &mut Vec<Option<Table>>,
    symbols: &mut Vec<Option<Symbol<K>>>,
    symbol: SymId,
) -> usize
    ensures left { scopes_of tables.new.items symbols.new.items
        ≡ taken_out (scopes_of tables.old.items symbols.old.items) symbol }
    ensures count { count_by is_some symbols.new.items + result
        ≡ count_by is_some symbols.old.items }
{
    let owned = owned(symbols, symbol);
    let gone = clear_one(symbols, symbol);
    match owned {
        Some(table) => gone + clear_scope(tables, symbols, table),
        None => gone,
    }
}

/// Takes out the symbols at these numbers, with the tables that they own and the symbols in those
/// tables, and counts the symbols that were there.
pub(crate) fn clear_owners<K: Drop>(
    tables: &mut Vec<Option<Table>>,
    symbols: &mut Vec<Option<Symbol<K>>>,
    gone: &[SymId],
) -> usize
    ensures left { scopes_of tables.new.items symbols.new.items
        ≡ taken_out_each (scopes_of tables.old.items symbols.old.items) gone.now }
    ensures count { count_by is_some symbols.new.items + result
        ≡ count_by is_some symbols.old.items }
{
    let mut count = 0;
    for symbol in gone {
        count += clear_owner(tables, symbols, *symbol);
    }
    count
}
