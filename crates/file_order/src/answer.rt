ghost use Rattle.std.specs.Prelude.{◌≡◌, ◌≤◌, ℕ, false, IfSome, IfNone};
ghost use Rattle.file_order.specs.Answers.{IsAnswer};
ghost use Rattle.file_order.specs.Cycles.{IsLeastOf};
ghost use Rattle.file_order.specs.Search.{IsOpen, is_open};

use crate::cycle::cycle_from;
use crate::fault::OrderFault;
use crate::modules::modules_of;
use crate::search::search_from;
use ast_nodes::File;
use std::alloc::Global;

/// The first open place.
fn first_open(marks: &[bool]) -> Option<usize>
    ensures some { IfSome result (IsLeastOf (IsOpen marks.now)) }
    ensures none { IfNone result ((p : ℕ) → is_open marks.now p ≡ false) }
{
    for place in 0..marks.len() {
        if marks[place] {
            return Some(place);
        }
    }
    None
}

/// The order in which files compile, by their places: the least one in which a file that holds a
/// module stands before every other file that uses it (ISO/IEC 1539-1:2018, 14.2.2). A module that
/// no file holds is no fault here.
///
/// Where there is no such order, files wait for one another, and it names a cycle of them: the one to
/// which a walk comes that begins at the first of the stuck files, and goes each time to the first
/// stuck file that must stand before the present one.
///
/// It takes time and memory in the files and the names that they hold and use, up to a logarithm.
pub fn order(alloc: Global, files: &[File]) -> Result<Vec<usize>, OrderFault>
    ensures { IsAnswer files.now result }
{
    let modules = modules_of(alloc, files)?;
    let mut search = search_from(alloc, modules)?;
    match first_open(&search.marks) {
        None => Ok(search.order),
        Some(start) => {
            let left = &mut search.modules;
            let cycle = cycle_from(alloc, &search.marks, &mut left.holders, &left.uses, start)?;
            Err(OrderFault::Cycle(cycle))
        }
    }
}
