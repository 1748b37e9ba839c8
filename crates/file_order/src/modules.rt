//! Which places hold each module, and which modules each place holds and uses.
ghost use Rattle.std.specs.Prelude.{◌≡◌, ◌<◌, ℕ, length, OnOk, IfOk};
ghost use Rattle.std.specs.List.{Contains};
ghost use Rattle.file_order.specs.Search.{IsListed};
ghost use Rattle.file_order.specs.Tables.{IsNoted, IsInverse, IsTableOf};

use crate::numbers::{held_rows, numbers_of, used_rows};
use crate::rows::Rows;
use ast_nodes::File;
use lf_base::Memory;
use std::alloc::Global;

/// The modules of a project, as numbers: who holds them, and who uses them. What no file holds is
/// left out.
#[derive(Drop)]
pub(crate) struct Modules {
    /// The places that hold each module, each once and the least last. A search may take those out
    /// that are no longer open.
    pub holders: Rows,
    /// The modules that each place holds, as often as its file does.
    pub held: Rows,
    /// The modules that each place uses, as often as its file names them. A search may take those
    /// out that no other open place holds.
    pub uses: Rows,
}

/// Notes that a place holds a module, where that is not the last that was noted.
fn note(holders: &mut Rows, module: usize, place: usize) -> Result<(), Memory>
    requires { «module» < length holders.old }
    ensures { OnOk result (IsNoted place (λ m. m ≡ «module») holders.old holders.new) }
{
    if holders.last(module) == Some(place) {
        return Ok(());
    }
    holders.push(module, place)
}

/// Notes that a place holds modules.
fn note_all(holders: &mut Rows, modules: &[usize], place: usize) -> Result<(), Memory>
    requires { (m : ℕ) → Contains modules.now m → m < length holders.old }
    ensures { OnOk result (IsNoted place (Contains modules.now) holders.old holders.new) }
{
    for module in modules {
        note(holders, *module, place)?;
    }
    Ok(())
}

/// The places that hold each module, by the modules that each place holds.
fn holders_of(alloc: Global, held: &Rows, count: usize) -> Result<Rows, Memory>
    requires { (m p : ℕ) → IsListed held.now m p → m < count }
    ensures { IfOk result (IsInverse held.now count) }
{
    let mut holders = Rows::new(alloc, count)?;
    for place in (0..held.len()).rev() {
        note_all(&mut holders, held.row(place), place)?;
    }
    Ok(holders)
}

/// The modules of files.
pub(crate) fn modules_of(alloc: Global, files: &[File]) -> Result<Modules, Memory>
    ensures { IfOk result (IsTableOf files.now) }
{
    let numbers = numbers_of(alloc, files)?;
    let held = held_rows(alloc, &numbers, files)?;
    let uses = used_rows(alloc, &numbers, files)?;
    let holders = holders_of(alloc, &held, numbers.len())?;
    Ok(Modules {
        holders,
        held,
        uses,
    })
}
