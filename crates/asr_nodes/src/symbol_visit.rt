//! Visits of the symbols of a table.
ghost use Rattle.std.specs.Prelude.{◌≡◌, ◌++◌, IfOk, OnOk};
ghost use Rattle.asr_nodes.specs.Visiting.{own_symbols, symbols_from, turn_list, turn_or_none};
ghost use Rattle.asr_nodes.specs.Visits.{TakesSymbol, symbols_below};

use crate::asr::Asr;
use crate::stack::{replace_top, top_of};
use lf_base::{Memory, SymId, TableId};
use std::alloc::Global;
use std::marker::Model;

// A symbol, and the place behind it in its table.
#[derive(Clone, Copy)]
pub(crate) struct Turn {
    pub symbol: SymId,
    pub table: TableId,
    pub place: usize,
}

/// A visit of the symbols of a table in the order of their declaration, each with those of its own table directly
/// behind it (ISO/IEC 1539-1:2018, 19.1). It is seen as the list of those that are still to come.
///
/// It does not recurse. Its memory goes by the depth of the tables, and its time by the number of the symbols.
#[derive(Drop)]
pub struct SymbolVisit<'a> {
    asr: &'a Asr,
    // What is to come, the next on top.
    stack: Vec<Turn>,
    // What comes in the place of the top one, while it is listed.
    turns: Vec<Turn>,
}

impl<'a> Model for SymbolVisit<'a> {
    ghost use Rattle.std.specs.Prelude.{List};
    ghost use Rattle.lf_base.specs.declared.id.SymId.{SymId};
    ghost use Rattle.asr_nodes.specs.Visiting.{turns_to_come};

    ghost Value = { List SymId };

    ghost view = { λ v. turns_to_come v.asr.now v.stack.items };
}

// The symbols of a table from a place on.
fn turn_at(asr: &Asr, table: TableId, place: usize) -> Option<Turn>
    ensures { turn_or_none asr.now result ≡ symbols_from asr.now table place }
{
    if place < asr.arena().table_len(table) {
        Some(Turn {
            symbol: asr.arena().nth(table, place),
            table,
            place: place + 1,
        })
    } else {
        None
    }
}

// The symbols of the table that a symbol owns.
fn own_turn(asr: &Asr, symbol: SymId) -> Option<Turn>
    ensures { turn_or_none asr.now result ≡ own_symbols asr.now symbol }
{
    asr.sound();
    asr.arena().linked();
    match asr.arena().owned(symbol) {
        Some(table) => turn_at(asr, table, 0),
        None => None,
    }
}

fn push(list: &mut Vec<Turn>, turn: Option<Turn>) -> Result<(), Memory>
    ensures { OnOk result (list.new.items ≡ list.old.items ++ turn_list turn) }
{
    let Some(turn) = turn else {
        return Ok(());
    };
    match list.push(turn) {
        Ok(()) => Ok(()),
        Err(_) => Err(Memory),
    }
}

impl<'a> SymbolVisit<'a> {
    /// The symbols below a table, which may be any: where none is there, there are none. It fails only for want of
    /// memory.
    pub fn below(alloc: Global, asr: &'a Asr, table: TableId) -> Result<SymbolVisit<'a>, Memory>
        ensures { IfOk result (λ v. v ≡ symbols_below asr.now table) }
    {
        asr.sound();
        asr.arena().linked();
        let mut stack = Vec::new(alloc);
        push(&mut stack, turn_at(asr, table, 0))?;
        Ok(SymbolVisit {
            asr,
            stack,
            turns: Vec::new(alloc),
        })
    }

    /// The next one, and none where none is left. It fails only for want of memory, and then nothing is changed.
    pub fn next(&mut self) -> Result<Option<SymId>, Memory>
        ensures { TakesSymbol self.old self.new result }
    {
        let Some(top) = top_of(self.stack.as_slice()) else {
            return Ok(None);
        };
        self.turns.clear();
        push(&mut self.turns, turn_at(self.asr, top.table, top.place))?;
        push(&mut self.turns, own_turn(self.asr, top.symbol))?;
        replace_top(&mut self.stack, &mut self.turns)?;
        Ok(Some(top.symbol))
    }
}
