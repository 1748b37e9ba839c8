//! The saved variables of a unit, which are objects outside functions in C (ISO/IEC 9899:1999, 6.9.2).
ghost use Rattle.std.specs.Prelude.{◌≡◌, false, [], ◌∷◌, ◌++◌, map, IfOk, OnOk};
ghost use Rattle.c_nodes.specs.declared.tree.CItem.TheVariants.{Object};
ghost use Rattle.c_nodes.specs.declared.tree.CObject.TheVariants.{Single};
ghost use Rattle.asr_nodes.specs.Nodes.{Nodes};
ghost use Rattle.c_printer.specs.Files.{object_type, saved, variable_item};
ghost use Rattle.c_printer.specs.Names.{entity_name};
ghost use Rattle.c_printer.specs.UnitTrees.{found, saved_of};
ghost use Rattle.c_printer.specs.Units.{symbol_variable, variable_at};

use crate::names;
use crate::scalar::ScalarType;
use crate::scope::{Scope, element_type};
use asr_nodes::code::SAVED;
use asr_nodes::{Asr, Symbol};
use c_nodes::{CItem, CObject, CType};
use lf_base::{ExprId, Memory, Name, SymId};
use sqlite_items::Items;
use std::alloc::Global;

/// A variable that is saved (ISO/IEC 1539-1:2018, 8.5.16), with its initial value, if it has one.
#[derive(Clone, Copy)]
pub(crate) struct SavedVariable<'a> {
    pub name: &'a Name,
    pub ty: ScalarType,
    pub init: &'a [ExprId],
}

fn saved_symbol<'a>(name: &'a Name, symbol: &'a Symbol) -> Option<SavedVariable<'a>>
    ensures { (a : Nodes) → found a result ≡ saved (symbol_variable a name.now symbol.now ∷ []) }
{
    match symbol {
        Symbol::Variable {
            ty,
            storage,
            init,
            ..
        } => {
            if *storage == SAVED {
                Some(SavedVariable {
                    name,
                    ty: element_type(ty.elem),
                    init: init.as_slice(),
                })
            } else {
                None
            }
        }
        _ => None,
    }
}

/// The saved variable that a symbol is, if it is one. It may be any symbol.
pub(crate) fn saved_variable(asr: &Asr, symbol: SymId) -> Option<SavedVariable<'_>>
    ensures { found asr.now result ≡ saved (variable_at asr.now symbol ∷ []) }
{
    let arena = asr.arena();
    if arena.live(symbol) {
        saved_symbol(arena.name_of(symbol), asr.symbol(symbol))
    } else {
        None
    }
}

fn object_type(ty: ScalarType) -> CType
    ensures { result ≡ object_type ty }
{
    match ty {
        ScalarType::Integer4 | ScalarType::Logical => CType::Int32,
        ScalarType::Integer8 => CType::Int64,
    }
}

// The object of a variable.
fn object(alloc: Global, unit: &Name, name: &Name, ty: ScalarType) -> Result<CItem, Memory>
    ensures { IfOk result (λ item. item ≡ Object false (Single (object_type ty) (entity_name (unit.now ∷ name.now ∷ [])))) }
{
    Ok(CItem::Object {
        is_extern: false,
        object: CObject::Single {
            kind: object_type(ty),
            name: names::variable_name(alloc, unit, name)?,
        },
    })
}

fn push_object(
    alloc: Global,
    scope: &Scope<'_>,
    symbol: SymId,
    items: &mut Items<CItem>,
) -> Result<(), Memory>
    ensures { OnOk result (items.new ≡ items.old ++ map (variable_item scope.now.unit) (saved (variable_at scope.now.asr symbol ∷ []))) }
{
    match saved_variable(scope.asr(), symbol) {
        Some(variable) => {
            items.push(object(alloc, scope.unit(), variable.name, variable.ty)?)?;
            Ok(())
        }
        None => Ok(()),
    }
}

/// Puts the objects of the saved variables of a unit last, in the order of their declaration. It fails only for want of
/// memory.
pub(crate) fn push_objects(
    alloc: Global,
    scope: &Scope<'_>,
    items: &mut Items<CItem>,
) -> Result<(), Memory>
    ensures { OnOk result (items.new ≡ items.old ++ map (variable_item scope.now.unit) (saved_of scope.now)) }
{
    let arena = scope.asr().arena();
    let table = scope.table();
    for place in 0..arena.table_len(table) {
        push_object(alloc, scope, arena.nth(table, place), items)?;
    }
    Ok(())
}
