//! The C file of the units of a program (ISO/IEC 9899:1999, 6.9).
ghost use Rattle.std.specs.Prelude.{◌≡◌, [], ◌∷◌, ◌++◌, map, IfOk, IfSome, IfNone, OnOk};
ghost use Rattle.c_nodes.specs.declared.tree.CItem.TheVariants.{Prototype};
ghost use Rattle.c_nodes.specs.declared.tree.CResult.TheVariants.{Void};
ghost use Rattle.c_nodes.specs.declared.tree.CStmt.TheVariants.{Call};
ghost use Rattle.asr_nodes.specs.Units.{IsUnit};
ghost use Rattle.c_printer.specs.Files.{c_file, init_function, main_function, unit_items, variable_item};
ghost use Rattle.c_printer.specs.Names.{init_name};
ghost use Rattle.c_printer.specs.Units.{types_of};
ghost use Rattle.c_printer.specs.UnitTrees.{function_items, saved_of, statement_trees, unit_trees};

use crate::first::write_first_values;
use crate::names;
use crate::saved::push_objects;
use crate::scope::Scope;
use crate::statements::statements;
use crate::writer::Writer;
use asr_nodes::{Asr, Symbol};
use c_nodes::{CExpr, CFile, CItem, CResult, CStmt};
use c_prelude::prelude;
use lf_base::{Memory, Name, StmtId, SymId};
use sqlite_items::Items;
use std::alloc::Global;

fn init_prototype(alloc: Global, unit: &Name) -> Result<CItem, Memory>
    ensures { IfOk result (λ item. item ≡ Prototype Void (init_name unit.now) []) }
{
    Ok(CItem::Prototype {
        result: CResult::Void,
        name: names::init_name(alloc, unit)?,
        parameters: Items::new(alloc),
    })
}

// The function that gives the saved variables of a unit their first values.
fn init_function(alloc: Global, scope: &Scope<'_>, source: &[u8]) -> Result<CItem, Memory>
    ensures { IfOk result (λ item. item ≡ init_function scope.now.unit source.now (types_of scope.now) (saved_of scope.now)) }
{
    let mut writer = Writer::new(alloc);
    write_first_values(scope, &mut writer, source)?;
    let mut lines = writer.into_lines();
    lines.push(CStmt::Return)?;
    Ok(CItem::Function {
        is_static: false,
        result: CResult::Void,
        name: names::init_name(alloc, scope.unit())?,
        parameters: Items::new(alloc),
        body: lines,
    })
}

fn init_call(alloc: Global, unit: &Name) -> Result<CStmt, Memory>
    ensures { IfOk result (λ line. line ≡ Call (init_name unit.now) []) }
{
    Ok(CStmt::Call {
        callee: names::init_name(alloc, unit)?,
        arguments: Items::new(alloc),
    })
}

// The function with which the program begins (ISO/IEC 9899:1999, 5.1.2.2.1).
fn main_function(
    alloc: Global,
    scope: &Scope<'_>,
    source: &[u8],
    body: &[StmtId],
) -> Result<CItem, Memory>
    ensures { IfOk result (λ item. item ≡ main_function scope.now.unit source.now (types_of scope.now) (statement_trees scope.now body.now)) }
{
    let mut writer = Writer::new(alloc);
    writer.line(init_call(alloc, scope.unit())?)?;
    statements(scope, &mut writer, source, body)?;
    let mut lines = writer.into_lines();
    lines.push(CStmt::ReturnValue {
        value: CExpr::Constant { value: 0 },
    })?;
    Ok(CItem::Function {
        is_static: false,
        result: CResult::Int,
        name: Name::new(alloc, b"main")?,
        parameters: Items::new(alloc),
        body: lines,
    })
}

fn push_functions(
    alloc: Global,
    scope: &Scope<'_>,
    source: &[u8],
    body: &[StmtId],
    items: &mut Items<CItem>,
) -> Result<(), Memory>
    ensures { OnOk result (items.new ≡ items.old ++ function_items scope.now source.now body.now) }
{
    items.push(init_prototype(alloc, scope.unit())?)?;
    items.push(init_function(alloc, scope, source)?)?;
    items.push(main_function(alloc, scope, source, body)?)?;
    Ok(())
}

fn push_program(
    alloc: Global,
    scope: &Scope<'_>,
    source: &[u8],
    body: &[StmtId],
    items: &mut Items<CItem>,
) -> Result<(), Memory>
    ensures { OnOk result (items.new ≡ items.old ++ (map (variable_item scope.now.unit) (saved_of scope.now) ++ function_items scope.now source.now body.now)) }
{
    push_objects(alloc, scope, items)?;
    push_functions(alloc, scope, source, body, items)
}

fn push_unit(alloc: Global, asr: &Asr, unit: SymId, items: &mut Items<CItem>) -> Result<(), Memory>
    requires { IsUnit asr.now unit }
    ensures { OnOk result (items.new ≡ items.old ++ unit_items (unit_trees asr.now (unit ∷ []))) }
{
    asr.sound();
    asr.arena().linked();
    match asr.symbol(unit) {
        Symbol::Program {
            source,
            table,
            body,
            ..
        } => {
            let scope = Scope::of(asr, unit, *table);
            push_program(alloc, &scope, source.as_slice(), body.as_slice(), items)
        }
        _ => Ok(()),
    }
}

// The one unit among symbols. Where there is none, or more than one, the file has no items of its own.
fn only_unit(asr: &Asr, ids: &[SymId]) -> Option<SymId>
    ensures unit { IfSome result (λ id. IsUnit asr.now id) }
    ensures only { IfSome result (λ id. unit_trees asr.now ids.now ≡ unit_trees asr.now (id ∷ [])) }
    ensures none { IfNone result (unit_items (unit_trees asr.now ids.now) ≡ []) }
{
    let mut only = None;
    for id in ids {
        if asr.is_unit(*id) {
            if only.is_some() {
                return None;
            }
            only = Some(*id);
        }
    }
    only
}

/// The C file of units: a main program alone has its items behind those of the prelude, which are the objects of its
/// saved variables, the function that gives them their first values, and `main`. A module and several units have no
/// items of their own yet, and symbols that are no units are passed over.
///
/// It recurses on the depth of statements and expressions, and fails only for want of memory.
pub fn lower_to_c(alloc: Global, asr: &Asr, units: &[SymId]) -> Result<CFile, Memory>
    ensures { IfOk result (λ file. file ≡ c_file (unit_trees asr.now units.now)) }
{
    let mut items = prelude(alloc)?.items;
    if let Some(unit) = only_unit(asr, units) {
        push_unit(alloc, asr, unit, &mut items)?;
    }
    Ok(CFile { items })
}
