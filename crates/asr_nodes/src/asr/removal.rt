//! Taking symbols out.
ghost use Rattle.std.specs.Prelude.{◌≡◌, All};
ghost use Rattle.symtab_arena.specs.Changes.{removed_each, IsShallowIn};
ghost use Rattle.symtab_arena.specs.Names.{those_there};
ghost use Rattle.symtab_arena.specs.Scopes.{HasTable, names_in};

use super::Asr;
use lf_base::{SymId, TableId};

impl Asr {
    /// Takes out symbols of one table all at once, with the tables that they own and the symbols in those tables,
    /// none of which owns a table. Those that are not live are passed over. Their numbers are not given again, and the
    /// others of the table stay in their order. All expressions and statements stay; those that only a symbol named
    /// that is gone stand in no tree any more. It takes no memory, and time in the number of the table's symbols, of
    /// those that are listed, and of those in the tables that they own.
    pub fn remove_all(&mut self, table: TableId, gone: &[SymId])
        requires there { HasTable self.old.scopes table }
        requires shallow { All (IsShallowIn self.old.scopes table) gone.now }
        ensures removed { self.new ≡ record self.old { scopes = removed_each self.old.scopes gone.now } }
        ensures order { names_in self.new.scopes table ≡ those_there self.new.scopes.symbols (names_in self.old.scopes table) }
    {
        self.arena.remove_all_owned(table, gone)
    }
}
