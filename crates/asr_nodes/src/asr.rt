ghost use Rattle.std.specs.Prelude.{◌≡◌, ◌↔◌, ◌<◌, IsTrue, true, [], ◌∷◌, ◌++◌, length, Some, Ok, IfOk, OnOk, OnErr};
ghost use Rattle.asr_nodes.specs.Keys.{Key};
ghost use Rattle.asr_nodes.specs.Keys.{expr, stmt};
ghost use Rattle.lf_base.specs.declared.id.SymId.{SymId as SymbolId};
ghost use Rattle.asr_nodes.specs.Nodes.{Sound, Extends, BuildsExpr, BuildsStmt, StandsFor, HasExpr, HasStmt, node_at, expr_tree, stmt_tree, reads, there, empty};
ghost use Rattle.asr_nodes.specs.Parts.{expr_parts, stmt_parts};
ghost use Rattle.asr_nodes.specs.Reading.{Path, expr_node, stmt_node};
ghost use Rattle.asr_nodes.specs.Symbols.{symbol_parts, table_in};
ghost use Rattle.asr_nodes.specs.Units.{IsUnit};
ghost use Rattle.symtab_arena.specs.Scopes.{IsLive, the_root, what_of, owned_by};

mod ambiguous;
mod build;
mod edit;
mod removal;
mod splice;

use crate::node::{Expr, Stmt, Symbol};
use crate::noted::NameSet;
use lf_base::{ExprId, Memory, StmtId, SymId};
use std::alloc::Global;
use std::collections::BTreeMap;
use std::marker::Model;
use symtab_arena::Arena;

/// The typed tree of a program by numbers: symbols in their tables, expressions and statements in lists.
///
/// A node names its parts by number, and every walk from part to part ends. A main program, a module, a function, a
/// subroutine and a derived type own a table and name it, and no other symbol does (ISO/IEC 1539-1:2018, 19.1).
#[derive(Drop)]
pub struct Asr {
    alloc: Global,
    arena: Arena<Symbol>,
    exprs: Vec<Expr>,
    stmts: Vec<Stmt>,
    // The ambiguous names of tables, by the tables' numbers.
    noted: BTreeMap<u32, NameSet>,
}

impl Model for Asr {
    ghost use Rattle.asr_nodes.specs.Nodes.{Nodes, Sound};
    ghost use Rattle.asr_nodes.specs.contracts.node.ArrayItem as item;
    ghost use Rattle.asr_nodes.specs.contracts.node.PrintItem as printed;
    ghost use Rattle.std.specs.Coded.{codes};

    ghost Value = { Nodes };

    ghost coded = { Prim.hlevel (codes, item.the_row.coded, printed.the_row.coded) };

    ghost view = { λ a. record { scopes = a.arena; exprs = a.exprs.items; stmts = a.stmts.items; noted = a.noted.entries } };

    ghost invariant = { λ a. Sound (record { scopes = a.arena; exprs = a.exprs.items; stmts = a.stmts.items; noted = a.noted.entries }) };
}

impl Asr {
    fn over(alloc: Global, arena: Arena<Symbol>) -> Asr
        requires { arena ≡ the_root }
        ensures { result ≡ empty }
    {
        Asr {
            alloc,
            arena,
            exprs: Vec::new(alloc),
            stmts: Vec::new(alloc),
            noted: BTreeMap::new(alloc),
        }
    }

    /// No nodes, and the root table with no symbol. It fails only for want of memory. Names are hashed with a key
    /// that everybody knows: where names may be chosen to collide, take `keyed`.
    pub fn new(alloc: Global) -> Result<Asr, Memory>
        ensures { IfOk result (λ a. a ≡ empty) }
    {
        Ok(Asr::over(alloc, Arena::new(alloc)?))
    }

    /// The same, as `new`, whose names are hashed with this key, such as a digest of the whole source. No answer and
    /// no order depends on it, only the time that look-ups take.
    pub fn keyed(alloc: Global, key: [u64; 2]) -> Result<Asr, Memory>
        ensures { IfOk result (λ a. a ≡ empty) }
    {
        Ok(Asr::over(alloc, Arena::keyed(alloc, key)?))
    }

    /// What holds of every tree: each walk ends, and tables are owned as they are named. It does nothing when it
    /// runs.
    pub fn sound(&self)
        ensures { Sound self.now }
    {
        let _ = &self.exprs;
    }

    /// The allocator that the tree was made with, for what is built beside it.
    pub fn allocator(&self) -> Global {
        self.alloc
    }

    /// The symbols in their tables.
    pub fn arena(&self) -> &Arena<Symbol>
        ensures { result.now ≡ self.now.scopes }
    {
        &self.arena
    }

    fn symbol_there(&self, id: SymId) -> &Symbol
        requires { IsLive self.now.scopes id }
        ensures { what_of self.now.scopes id ≡ Some result.now }
    {
        self.arena.what(id)
    }

    /// What a live symbol stands for. Exactly where it names a table it owns one, which is that one.
    pub fn symbol(&self, id: SymId) -> &Symbol
        requires { IsLive self.now.scopes id }
        ensures node { what_of self.now.scopes id ≡ Some result.now }
        ensures table { owned_by self.now.scopes id ≡ table_in result.now }
        ensures parts { there self.now (symbol_parts result.now) ≡ true }
    {
        self.sound();
        self.symbol_there(id)
    }

    /// Whether a number is that of a live main program or module. It may be any number.
    pub fn is_unit(&self, id: SymId) -> bool
        ensures { IsTrue result ↔ IsUnit self.now id }
    {
        self.arena.live(id) && self.symbol_there(id).is_unit()
    }

    /// Whether an expression stands at a number. It may be any number.
    pub fn has_expr(&self, id: ExprId) -> bool
        ensures { IsTrue result ↔ HasExpr self.now id }
    {
        id.0 < self.exprs.len() as u64
    }

    /// Whether a statement stands at a number. It may be any number.
    pub fn has_stmt(&self, id: StmtId) -> bool
        ensures { IsTrue result ↔ HasStmt self.now id }
    {
        id.0 < self.stmts.len() as u64
    }

    fn expr_there(&self, id: ExprId) -> &Expr
        requires { HasExpr self.now id }
        ensures { node_at self.now (expr id) ≡ Some result.now }
    {
        &self.exprs[id.0 as usize]
    }

    /// The expression at a number that was given. Its tree is made of the trees at the numbers that it names.
    pub fn expr(&self, id: ExprId) -> &Expr
        requires { HasExpr self.now id }
        ensures node { node_at self.now (expr id) ≡ Some result.now }
        ensures parts { there self.now (expr_parts result.now) ≡ true }
        ensures tree { (path : SymbolId → Path) → expr_tree self.now path id ≡ expr_node (reads self.now path) result.now }
    {
        self.sound();
        self.expr_there(id)
    }

    fn stmt_there(&self, id: StmtId) -> &Stmt
        requires { HasStmt self.now id }
        ensures { node_at self.now (stmt id) ≡ Some result.now }
    {
        &self.stmts[id.0 as usize]
    }

    /// The statement at a number that was given. Its tree is made of the trees at the numbers that it names.
    pub fn stmt(&self, id: StmtId) -> &Stmt
        requires { HasStmt self.now id }
        ensures node { node_at self.now (stmt id) ≡ Some result.now }
        ensures parts { there self.now (stmt_parts result.now) ≡ true }
        ensures tree { (path : SymbolId → Path) → stmt_tree self.now path id ≡ stmt_node (reads self.now path) result.now }
    {
        self.sound();
        self.stmt_there(id)
    }
}
