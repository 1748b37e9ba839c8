//! Building: each call adds one node whose parts are there.
ghost use Rattle.std.specs.Prelude.{◌≡◌, true, false, [], ◌∷◌, ◌++◌, Some, is_some, IfSome, OnOk, OnErr};
ghost use Rattle.asr_nodes.specs.Keys.{expr, stmt};
ghost use Rattle.asr_nodes.specs.Nodes.{Extends, BuildsExpr, BuildsStmt, ExprStandsFor, StmtStandsFor, there};
ghost use Rattle.asr_nodes.specs.Parts.{expr_parts, stmt_parts};
ghost use Rattle.asr_nodes.specs.Symbols.{IsLike, KeepsPaths, is_root, is_unit, symbol_parts, table_in, with_symbol};
ghost use Rattle.symtab_arena.specs.Answers.{Declares};
ghost use Rattle.symtab_arena.specs.Changes.{replaced_in};
ghost use Rattle.symtab_arena.specs.Scopes.{HasTable, IsLive, next_symbol, what_of};

use super::Asr;
use crate::node::{Expr, Stmt, Symbol};
use lf_base::{ExprId, Memory, Name, StmtId, SymId, TableId};
use symtab_arena::ArenaFault;

/// Puts a node last.
fn push<X: Drop>(nodes: &mut Vec<X>, node: X) -> Result<(), Memory>
    ensures ok { OnOk result (nodes.new.items ≡ nodes.old.items ++ node ∷ []) }
    ensures err { OnErr result (nodes.new.items ≡ nodes.old.items) }
{
    match nodes.push(node) {
        Ok(()) => Ok(()),
        Err(_) => Err(Memory),
    }
}

impl Asr {
    fn build_plain(
        &mut self,
        table: TableId,
        name: &Name,
        symbol: Symbol,
    ) -> Result<SymId, ArenaFault>
        requires there { HasTable self.old.scopes table }
        requires root { is_unit symbol ≡ is_root table }
        requires parts { there self.old (symbol_parts symbol) ≡ true }
        requires plain { is_some (table_in symbol) ≡ false }
        ensures declares { Declares self.old.scopes table name.now
            (next_symbol self.old.scopes) (with_symbol self.old.scopes table name.now symbol)
            self.new.scopes result }
        ensures rest { self.new ≡ record self.old { scopes = self.new.scopes } }
    {
        self.arena.linked();
        self.arena.declare(table, name, symbol)
    }

    fn build_owner(
        &mut self,
        table: TableId,
        name: &Name,
        symbol: Symbol,
    ) -> Result<SymId, ArenaFault>
        requires there { HasTable self.old.scopes table }
        requires root { is_unit symbol ≡ is_root table }
        requires parts { there self.old (symbol_parts symbol) ≡ true }
        requires owner { is_some (table_in symbol) ≡ true }
        ensures declares { Declares self.old.scopes table name.now
            (next_symbol self.old.scopes) (with_symbol self.old.scopes table name.now symbol)
            self.new.scopes result }
        ensures rest { self.new ≡ record self.old { scopes = self.new.scopes } }
    {
        self.arena.linked();
        let symbol = symbol.with_table(self.arena.next_table());
        match self.arena.declare_owner(table, name, symbol) {
            Ok((id, _)) => Ok(id),
            Err(fault) => Err(fault),
        }
    }

    /// Declares a symbol whose parts are there, last in a table: a unit in the root table and every other symbol in
    /// another one. A unit, a function and a derived type get a new empty table, whatever table they named.
    ///
    /// All trees stay, and every live symbol keeps its path.
    /// The answer is `Twice` where the table has the name (ISO/IEC 1539-1:2018, 19.3.1), else `Full` where all
    /// 1,048,576 numbers were given, and else it fails only for want of memory. A refused call changes nothing.
    pub fn build_symbol(
        &mut self,
        table: TableId,
        name: &Name,
        symbol: Symbol,
    ) -> Result<SymId, ArenaFault>
        requires there { HasTable self.old.scopes table }
        requires root { is_unit symbol ≡ is_root table }
        requires parts { there self.old (symbol_parts symbol) ≡ true }
        ensures declares { Declares self.old.scopes table name.now
            (next_symbol self.old.scopes) (with_symbol self.old.scopes table name.now symbol)
            self.new.scopes result }
        ensures rest { self.new ≡ record self.old { scopes = self.new.scopes } }
        ensures paths { KeepsPaths self.old.scopes self.new.scopes }
    {
        self.arena.linked();
        if symbol.owns_table() {
            self.build_owner(table, name, symbol)
        } else {
            self.build_plain(table, name, symbol)
        }
    }

    /// Puts another node in the place of what a live symbol stands for, and hands the old one back. Its parts are
    /// there, it names the same table of its own or none as the old one, and it is a main program or a module exactly
    /// where the old one is (ISO/IEC 1539-1:2018, 19.1). All trees stay, and every live symbol keeps its path. It
    /// takes no memory.
    pub fn replace_symbol(&mut self, id: SymId, with: Symbol) -> Symbol
        requires live { IsLive self.old.scopes id }
        requires like { IfSome (what_of self.old.scopes id) (λ old. IsLike old with) }
        requires parts { there self.old (symbol_parts with) ≡ true }
        ensures old { what_of self.old.scopes id ≡ Some result }
        ensures new { self.new ≡ record self.old { scopes = replaced_in self.old.scopes id with } }
        ensures paths { KeepsPaths self.old.scopes self.new.scopes }
    {
        self.arena.replace_what(id, with)
    }

    /// Adds an expression whose parts are there. It gets the next number, and all trees that stood stay. It fails
    /// only for want of memory, and then nothing is changed.
    pub fn build_expr(&mut self, e: Expr) -> Result<ExprId, Memory>
        requires { there self.old (expr_parts e) ≡ true }
        ensures builds { BuildsExpr self.old self.new e result }
        ensures tree { ExprStandsFor self.old self.new e result }
        ensures extends { Extends self.old self.new }
    {
        let id = ExprId(self.exprs.len() as u64);
        push(&mut self.exprs, e)?;
        Ok(id)
    }

    /// Adds a statement whose parts are there. It gets the next number, and all trees that stood stay. It fails only
    /// for want of memory, and then nothing is changed.
    pub fn build_stmt(&mut self, s: Stmt) -> Result<StmtId, Memory>
        requires { there self.old (stmt_parts s) ≡ true }
        ensures builds { BuildsStmt self.old self.new s result }
        ensures tree { StmtStandsFor self.old self.new s result }
        ensures extends { Extends self.old self.new }
    {
        let id = StmtId(self.stmts.len() as u64);
        push(&mut self.stmts, s)?;
        Ok(id)
    }
}
