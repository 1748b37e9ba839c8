//! The modules that a file holds, and those that it uses.
ghost use Rattle.std.specs.Prelude.{◌≡◌, ◌++◌, ◌∷◌, [], OnOk, IfOk};
ghost use Rattle.file_order.specs.Modules.{names_of, held_by, used_by_decls, used_by_procedures, used_by_unit, used_by};

use ast_nodes::{Decl, File, Procedure, Unit};
use lf_base::Memory;
use std::alloc::Global;

/// The names of the modules that a file holds (ISO/IEC 1539-1:2018, 14.2.1).
pub(crate) fn held(alloc: Global, file: &File) -> Result<Vec<&[u8]>, Memory>
    ensures { IfOk result (λ names. names_of names.items ≡ held_by file.now) }
{
    let mut names = Vec::new(alloc);
    for unit in file.units.as_slice() {
        if let Unit::Module { name, .. } = unit {
            names.push(name.bytes())?;
        }
    }
    Ok(names)
}

/// The names of the modules that a file uses, as often as it names them (ISO/IEC 1539-1:2018, 14.2.2).
pub(crate) fn used(alloc: Global, file: &File) -> Result<Vec<&[u8]>, Memory>
    ensures { IfOk result (λ names. names_of names.items ≡ used_by file.now) }
{
    let mut names = Vec::new(alloc);
    for unit in file.units.as_slice() {
        add_unit(&mut names, unit)?;
    }
    Ok(names)
}

fn add_unit<'a>(names: &mut Vec<&'a [u8]>, unit: &'a Unit) -> Result<(), Memory>
    ensures { OnOk result (names_of names.new.items ≡ names_of names.old.items ++ used_by_unit unit.now) }
{
    match unit {
        Unit::Program { decls, procs, .. } | Unit::Module { decls, procs, .. } => {
            add_decls(names, decls.as_slice())?;
            add_procedures(names, procs.as_slice())
        }
    }
}

fn add_procedures<'a>(names: &mut Vec<&'a [u8]>, procedures: &'a [Procedure]) -> Result<(), Memory>
    ensures { OnOk result (names_of names.new.items ≡ names_of names.old.items ++ used_by_procedures procedures.now) }
{
    for procedure in procedures {
        add_decls(names, procedure.decls.as_slice())?;
    }
    Ok(())
}

fn add_decls<'a>(names: &mut Vec<&'a [u8]>, decls: &'a [Decl]) -> Result<(), Memory>
    ensures { OnOk result (names_of names.new.items ≡ names_of names.old.items ++ used_by_decls decls.now) }
{
    for decl in decls {
        if let Decl::Use { used } = decl {
            names.push(used.module.bytes())?;
        }
    }
    Ok(())
}
