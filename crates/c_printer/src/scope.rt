//! The unit that is lowered: the types and the names of entities in it.
ghost use Rattle.std.specs.Prelude.{◌≡◌, ◌↔◌, Some, IfOk, IsTrue};
ghost use Rattle.lf_base.specs.declared.id.SymId.{SymId as SymbolId};
ghost use Rattle.symtab_arena.specs.Scopes.{IsLive, table_id, name_of, table_of, owned_by, what_of};
ghost use Rattle.asr_nodes.specs.Reading.{Path, elem_node};
ghost use Rattle.asr_nodes.specs.Units.{IsUnit, path};
ghost use Rattle.c_printer.specs.Files.{element_type};
ghost use Rattle.c_printer.specs.Manners.{kind_type};
ghost use Rattle.c_printer.specs.Names.{entity_name};
ghost use Rattle.c_printer.specs.Units.{types_of, symbol_type};

use crate::names;
use crate::scalar::ScalarType;
use asr_nodes::{Asr, Symbol};
use lf_base::{Memory, Name, SymId, TableId};
use std::alloc::Global;
use std::marker::Model;
use type_rules::Elem;

/// The unit that is lowered, which stands in the root table, with its name and its table.
#[derive(Drop)]
pub(crate) struct Scope<'a> {
    asr: &'a Asr,
    id: SymId,
    unit: &'a Name,
    table: TableId,
}

impl<'a> Model for Scope<'a> {
    ghost use Rattle.c_printer.specs.Units.{UnitScope, IsUnitScope};
    ghost use Rattle.asr_nodes.specs.contracts.node.ArrayItem as item;
    ghost use Rattle.asr_nodes.specs.contracts.node.PrintItem as printed;
    ghost use Rattle.std.specs.Coded.{codes};

    ghost Value = { UnitScope };

    ghost coded = { Prim.hlevel (codes, item.the_row.coded, printed.the_row.coded) };

    ghost view = { λ s. record { asr = s.asr.now; id = s.id; unit = s.unit.now; table = s.table } };

    ghost invariant = { λ s. IsUnitScope (record { asr = s.asr.now; id = s.id; unit = s.unit.now; table = s.table }) };
}

// The integers of a kind.
pub(crate) fn kind_type(kind: u8) -> ScalarType
    ensures { result ≡ kind_type kind }
{
    if kind == 8 {
        ScalarType::Integer8
    } else {
        ScalarType::Integer4
    }
}

pub(crate) fn element_type(elem: Elem) -> ScalarType
    ensures { (path : SymbolId → Path) → result ≡ element_type (elem_node path elem) }
{
    match elem {
        Elem::Integer { kind } => kind_type(kind),
        Elem::Logical => ScalarType::Logical,
        Elem::Character { .. } | Elem::Derived { .. } => ScalarType::Integer4,
    }
}

fn symbol_type(symbol: &Symbol) -> ScalarType
    ensures { (path : SymbolId → Path) → result ≡ symbol_type path symbol.now }
{
    match symbol {
        Symbol::Variable { ty, .. } => element_type(ty.elem),
        _ => ScalarType::Integer4,
    }
}

impl<'a> Scope<'a> {
    /// The scope of a main program or a module, which owns this table.
    pub(crate) fn of(asr: &'a Asr, id: SymId, table: TableId) -> Scope<'a>
        requires unit { IsUnit asr.now id }
        requires owns { owned_by asr.now.scopes id ≡ Some table }
        ensures asr { result.asr ≡ asr.now }
        ensures id { result.id ≡ id }
        ensures name { name_of asr.now.scopes id ≡ Some result.unit }
        ensures table { result.table ≡ table }
    {
        asr.sound();
        asr.arena().linked();
        Scope {
            asr,
            id,
            unit: asr.arena().name_of(id),
            table,
        }
    }

    /// The tree in which the unit stands.
    pub(crate) fn asr(&self) -> &'a Asr
        ensures { result.now ≡ self.now.asr }
    {
        self.asr
    }

    /// The name of the unit.
    pub(crate) fn unit(&self) -> &'a Name
        ensures { result.now ≡ self.now.unit }
    {
        self.unit
    }

    /// The table of the unit.
    pub(crate) fn table(&self) -> TableId
        ensures { result ≡ self.now.table }
    {
        self.table
    }

    // Whether an entity stands in the unit's table.
    fn has(&self, symbol: SymId) -> bool
        ensures own { IsTrue result ↔ (table_of self.now.asr.scopes symbol ≡ Some self.now.table) }
    {
        let arena = self.asr.arena();
        arena.live(symbol) && arena.table_of(symbol) == self.table
    }

    /// The type of an entity: that of the variable, where it is one of the unit, and else an integer of kind 4.
    pub(crate) fn type_of(&self, symbol: SymId) -> ScalarType
        ensures { result ≡ types_of self.now (path self.now.asr symbol) }
    {
        self.asr.sound();
        self.asr.arena().linked();
        if self.has(symbol) {
            symbol_type(self.asr.symbol(symbol))
        } else {
            ScalarType::Integer4
        }
    }

    /// The name in C of an entity. It fails only for want of memory.
    pub(crate) fn entity_name(&self, alloc: Global, symbol: SymId) -> Result<Name, Memory>
        ensures { IfOk result (λ n. n ≡ entity_name (path self.now.asr symbol)) }
    {
        names::entity_name(alloc, self.asr.arena(), symbol)
    }
}
