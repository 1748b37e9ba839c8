//! The walk that names a cycle.
ghost use Rattle.std.specs.Prelude.{◌≡◌, ◌<◌, ◌≤◌, ◌∷◌, ◌++◌, ℕ, [], List, Option, length, drop, IfOk, OnOk};
ghost use Rattle.std.specs.List.{Contains};
ghost use Rattle.file_order.specs.Cycles.{IsLeastOf, IsCycle};
ghost use Rattle.file_order.specs.Search.{row_at, IsListed, IsOpen, AreFalling, IsTrimmed, IsLeastIf, is_open, IsBefore};
ghost use Rattle.file_order.specs.Walks.{lesser_of};

use crate::open_places::other_open;
use crate::rows::Rows;
use lf_base::Memory;
use std::alloc::Global;

/// The lesser of two places, or the one that there is.
fn lesser(a: Option<usize>, b: Option<usize>) -> Option<usize>
    ensures { result ≡ lesser_of a b }
{
    match (a, b) {
        (Some(p), Some(q)) => Some(p.min(q)),
        (Some(p), None) => Some(p),
        (None, q) => q,
    }
}

/// The least open place that must stand before a place, if there is one.
fn least_before(
    holders: &mut Rows,
    uses: &Rows,
    marks: &[bool],
    here: usize,
) -> Result<Option<usize>, Memory>
    requires within { here < length uses.now }
    requires used { (m : ℕ) → IsListed uses.now m here → m < length holders.old }
    requires falling { AreFalling holders.old }
    ensures trimmed { OnOk result (IsTrimmed marks.now holders.old holders.new) }
    ensures found { IfOk result (IsLeastIf (λ a. IsOpen marks.now a × IsBefore holders.old uses.now a here)) }
{
    let mut least = None;
    for module in uses.row(here) {
        least = lesser(least, other_open(holders, marks, *module, here)?);
    }
    Ok(least)
}

/// A list without its first places.
fn cut(alloc: Global, places: &[usize], first: usize) -> Result<Vec<usize>, Memory>
    requires { first ≤ length places.now }
    ensures { IfOk result (λ rest. rest.items ≡ drop first places.now) }
{
    Ok(Vec::from_slice(alloc, &places[first..])?)
}

/// The least open place that must stand before a place, of which there is one.
fn next(holders: &mut Rows, uses: &Rows, marks: &[bool], here: usize) -> Result<usize, Memory>
    requires within { here < length uses.now }
    requires used { (m : ℕ) → IsListed uses.now m here → m < length holders.old }
    requires falling { AreFalling holders.old }
    requires some { (a : ℕ) × IsOpen marks.now a × IsBefore holders.old uses.now a here }
    ensures trimmed { OnOk result (IsTrimmed marks.now holders.old holders.new) }
    ensures found { IfOk result (IsLeastOf (λ a. IsOpen marks.now a × IsBefore holders.old uses.now a here)) }
{
    let least = least_before(holders, uses, marks, here)?;
    Ok(least.unwrap())
}

/// The cycle to which the walk from the least open place comes, where for each open place there is
/// an open one that must stand before it.
pub(crate) fn cycle_from(
    alloc: Global,
    marks: &[bool],
    holders: &mut Rows,
    uses: &Rows,
    start: usize,
) -> Result<Vec<usize>, Memory>
    requires start { IsLeastOf (IsOpen marks.now) start }
    requires rows { length uses.now ≡ length marks.now }
    requires used { (m p : ℕ) → IsListed uses.now m p → m < length holders.old }
    requires falling { AreFalling holders.old }
    requires waits { (p : ℕ) → IsOpen marks.now p → (a : ℕ) × IsOpen marks.now a × IsBefore holders.old uses.now a p }
    ensures { IfOk result (λ cycle. IsCycle (IsOpen marks.now) (IsBefore holders.old uses.now) cycle.items) }
{
    let mut seen: Vec<Option<usize>> = vec![in alloc; None; marks.len()]?;
    let mut walk = Vec::new(alloc);
    let mut here = start;
    loop {
        if let Some(first) = seen[here] {
            return cut(alloc, &walk, first);
        }
        seen[here] = Some(walk.len());
        walk.push(here)?;
        here = next(holders, uses, marks, here)?;
    }
}
