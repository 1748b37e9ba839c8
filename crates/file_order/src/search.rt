//! The search for the least order.
ghost use Rattle.std.specs.Prelude.{◌≡◌, ◌↔◌, ◌⊎◌, ◌<◌, ◌≢◌, ℕ, [], ◌∷◌, List, length, slice_set, false, IfOk, OnOk, IfSome, IfNone, count_by};
ghost use Rattle.std.specs.List.{Contains};
ghost use Rattle.file_order.specs.Cycles.{IsLeastOf};
ghost use Rattle.file_order.specs.Search.{row_at, is_open, IsListed, IsOpen, AreFalling, IsTrimmed, IsTable, IsLeft, IsBlocking, IsReleased, IsSettled, AreSettled, IsReady, IsSearchWith, IsSound, Finds, Takes, Ends};
ghost use Rattle.file_order.specs.declared.modules.Modules.{Modules};

use crate::candidates::Candidates;
use crate::modules::Modules;
use crate::open_places::{has_two_open, opened, other_open};
use crate::rows::Rows;
use lf_base::Memory;
use std::alloc::Global;

/// A search for the least order.
///
/// An open place, which has no place in the order yet, is among the candidates, or it waits for a
/// module that it uses and that another open place holds. So those that may come next are
/// candidates, and the least candidate that need not wait comes next.
#[derive(Drop)]
pub(crate) struct Search {
    /// Whether each place is open.
    pub marks: Vec<bool>,
    /// What is left of who holds and who uses the modules.
    pub modules: Modules,
    /// The places that wait for each module.
    pub waiting: Rows,
    pub candidates: Candidates,
    /// The order up to here.
    pub order: Vec<usize>,
}

/// A module that a place uses and that another open place holds, if there is one.
fn blocker(modules: &mut Modules, marks: &[bool], place: usize) -> Result<Option<usize>, Memory>
    requires within { place < length modules.old.uses }
    requires falling { AreFalling modules.old.holders }
    requires used { (m : ℕ) → IsListed modules.old.uses m place → m < length modules.old.holders }
    ensures left { OnOk result (IsLeft marks.now modules.old modules.new) }
    ensures found { IfOk result (IsBlocking marks.now modules.old modules.new place) }
{
    while let Some(module) = modules.uses.last(place) {
        if other_open(&mut modules.holders, marks, module, place)?.is_some() {
            return Ok(Some(module));
        }
        modules.uses.pop(place);
    }
    Ok(None)
}

/// Makes those who wait for a module candidates.
fn release(waiting: &mut Rows, candidates: &mut Candidates, module: usize) -> Result<(), Memory>
    requires { «module» < length waiting.old }
    ensures released { OnOk result (IsReleased waiting.old waiting.new candidates.old candidates.new) }
    ensures none { OnOk result (row_at waiting.new «module» ≡ []) }
{
    while let Some(later) = waiting.pop(module) {
        candidates.push(later)?;
    }
    Ok(())
}

/// Makes those who wait for a module candidates, unless two open places hold it.
fn settle(
    holders: &mut Rows,
    marks: &[bool],
    waiting: &mut Rows,
    candidates: &mut Candidates,
    module: usize,
) -> Result<(), Memory>
    requires within { «module» < length holders.old }
    requires row { «module» < length waiting.old }
    requires falling { AreFalling holders.old }
    ensures trimmed { OnOk result (IsTrimmed marks.now holders.old holders.new) }
    ensures released { OnOk result (IsReleased waiting.old waiting.new candidates.old candidates.new) }
    ensures settled { OnOk result (IsSettled marks.now holders.old waiting.new «module») }
{
    if has_two_open(holders, marks, module)? {
        return Ok(());
    }
    release(waiting, candidates, module)
}

/// Makes those candidates who wait for one of the modules, unless two open places hold it.
fn settle_all(
    holders: &mut Rows,
    marks: &[bool],
    waiting: &mut Rows,
    candidates: &mut Candidates,
    modules: &[usize],
) -> Result<(), Memory>
    requires within { (m : ℕ) → Contains modules.now m → m < length holders.old }
    requires rows { length waiting.old ≡ length holders.old }
    requires falling { AreFalling holders.old }
    ensures trimmed { OnOk result (IsTrimmed marks.now holders.old holders.new) }
    ensures released { OnOk result (IsReleased waiting.old waiting.new candidates.old candidates.new) }
    ensures settled { OnOk result (AreSettled marks.now holders.old waiting.new modules.now) }
{
    for module in modules {
        settle(holders, marks, waiting, candidates, *module)?;
    }
    Ok(())
}

impl Search {
    /// The place that comes next. There is none only where each open place waits for another.
    fn next(&mut self) -> Result<Option<usize>, Memory>
        requires { IsSound self.old }
        ensures order { OnOk result (self.new.order.items ≡ self.old.order.items) }
        ensures marks { OnOk result (self.new.marks.items ≡ self.old.marks.items) }
        ensures found { (all : Modules) → Finds all self.old self.new result }
    {
        while let Some(place) = self.candidates.pop() {
            if opened(&self.marks, place) {
                match blocker(&mut self.modules, &self.marks, place)? {
                    Some(module) => self.waiting.push(module, place)?,
                    None => return Ok(Some(place)),
                }
            }
        }
        Ok(None)
    }

    /// Puts a place last into the order.
    fn take(&mut self, place: usize) -> Result<(), Memory>
        requires within { place < length self.old.marks.items }
        requires held { place < length self.old.modules.held }
        requires modules { (m : ℕ) → IsListed self.old.modules.held m place → m < length self.old.modules.holders }
        requires rows { length self.old.waiting ≡ length self.old.modules.holders }
        requires falling { AreFalling self.old.modules.holders }
        ensures marks { OnOk result (self.new.marks.items ≡ slice_set self.old.marks.items place false) }
        ensures taken { (all : Modules) → Takes all place self.old self.new result }
    {
        self.marks[place] = false;
        self.order.push(place)?;
        settle_all(
            &mut self.modules.holders,
            &self.marks,
            &mut self.waiting,
            &mut self.candidates,
            self.modules.held.row(place),
        )
    }

    /// Searches on to the end.
    fn run(&mut self) -> Result<(), Memory>
        requires { IsSound self.old }
        ensures { (all : Modules) → Ends all self.old self.new result }
    {
        while let Some(place) = self.next()? {
            self.take(place)?;
        }
        Ok(())
    }
}

/// All places.
fn all_places(alloc: Global, count: usize) -> Result<Candidates, Memory>
    ensures { IfOk result (λ c. (p : ℕ) → Contains c p ↔ (p < count)) }
{
    let mut places = Candidates::new(alloc);
    for place in 0..count {
        places.push(place)?;
    }
    Ok(places)
}

/// Searches the least order, as far as there is one.
pub(crate) fn search_from(alloc: Global, modules: Modules) -> Result<Search, Memory>
    requires { IsTable modules }
    ensures { IfOk result (λ s. IsSearchWith modules s []) }
{
    let count = modules.uses.len();
    let waiting = Rows::new(alloc, modules.holders.len())?;
    let mut search = Search {
        marks: vec![in alloc; true; count]?,
        modules,
        waiting,
        candidates: all_places(alloc, count)?,
        order: Vec::new(alloc),
    };
    search.run()?;
    Ok(search)
}
