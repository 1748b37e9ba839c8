//! The first values of the saved variables of a unit (ISO/IEC 1539-1:2018, 8.4).
ghost use Rattle.std.specs.Prelude.{◌≡◌, [], ◌∷◌, map, IfOk};
ghost use Rattle.c_printer.specs.Files.{first_value, first_values, saved};
ghost use Rattle.c_printer.specs.Lowered.{expression_of};
ghost use Rattle.c_printer.specs.Lowering.{line};
ghost use Rattle.c_printer.specs.UnitTrees.{place_of_variable, saved_of};
ghost use Rattle.c_printer.specs.Units.{types_of, variable_at};
ghost use Rattle.c_printer.specs.Values.{stored};
ghost use Rattle.c_printer.specs.Writing.{Writes, location};

use crate::located::Located;
use crate::places::{is_narrow, stored_value};
use crate::saved::{SavedVariable, saved_variable};
use crate::scope::Scope;
use crate::writer::Writer;
use crate::{names, values};
use c_nodes::{CExpr, CStmt};
use lf_base::{Memory, Name, SymId};
use std::alloc::Global;

/// The line of what is in no source.
const NO_LINE: u32 = 0;

// The object of a variable.
fn target(alloc: Global, unit: &Name, variable: SavedVariable<'_>) -> Result<CExpr, Memory>
    ensures { IfOk result (λ x. x ≡ (place_of_variable unit.now variable.entry).object) }
{
    Ok(CExpr::Variable {
        name: names::variable_name(alloc, unit, variable.name)?,
    })
}

fn store(
    writer: &mut Writer,
    unit: &Name,
    variable: SavedVariable<'_>,
    number: u64,
) -> Result<(), Memory>
    ensures { Writes writer.old writer.new result (line (stored (place_of_variable unit.now variable.entry) number)) }
{
    let alloc = writer.allocator();
    let target = target(alloc, unit, variable)?;
    let value = stored_value(alloc, is_narrow(variable.ty), number)?;
    writer.line(CStmt::Assign { target, value })
}

fn store_zero(
    writer: &mut Writer,
    unit: &Name,
    variable: SavedVariable<'_>,
    here: Located<'_>,
) -> Result<(), Memory>
    ensures { Writes writer.old writer.new result (first_value (location here.entry) (place_of_variable unit.now variable.entry) []) }
{
    let target = target(writer.allocator(), unit, variable)?;
    writer.line(CStmt::Assign {
        target,
        value: CExpr::Constant { value: 0 },
    })
}

#[tactic(auto, using(crate::proofs::Writes::writes_bind))]
fn write_first(
    scope: &Scope<'_>,
    writer: &mut Writer,
    here: Located<'_>,
    variable: SavedVariable<'_>,
) -> Result<(), Memory>
    ensures { Writes writer.old writer.new result (first_value (location here.entry) (place_of_variable scope.now.unit variable.entry) (map (expression_of scope.now) variable.entry.init.now)) }
{
    match variable.init {
        [] => store_zero(writer, scope.unit(), variable, here),
        [first, ..] => {
            let value = values::value(scope, writer, here, *first)?;
            store(writer, scope.unit(), variable, value.number)
        }
    }
}

fn write_first_of(
    scope: &Scope<'_>,
    writer: &mut Writer,
    source: &[u8],
    symbol: SymId,
) -> Result<(), Memory>
    ensures { Writes writer.old writer.new result (first_values scope.now.unit source.now (types_of scope.now) (saved (variable_at scope.now.asr symbol ∷ []))) }
{
    let here = Located {
        source,
        line: NO_LINE,
    };
    match saved_variable(scope.asr(), symbol) {
        Some(variable) => write_first(scope, writer, here, variable),
        None => Ok(()),
    }
}

/// Writes the lines that give the saved variables of a unit their first values, in the order of their declaration. It
/// fails only for want of memory.
pub(crate) fn write_first_values(
    scope: &Scope<'_>,
    writer: &mut Writer,
    source: &[u8],
) -> Result<(), Memory>
    ensures { Writes writer.old writer.new result (first_values scope.now.unit source.now (types_of scope.now) (saved_of scope.now)) }
{
    let arena = scope.asr().arena();
    let table = scope.table();
    for place in 0..arena.table_len(table) {
        write_first_of(scope, writer, source, arena.nth(table, place))?;
    }
    Ok(())
}
