//! Visits of the typed tree: the order of a small program's nodes and symbols, a long chain and a deep expression.

use crate::asr::{ARMS, DEPTH, chain, literal, one, parenthesised, program, stop, sum};
use crate::there::there;
use asr_nodes::{Asr, Expr, NodeId, Stmt, Symbol, SymbolVisit, Visit, code};
use lf_base::{ExprId, Name, StmtId, SymId, TableId};
use sqlite_items::Items;
use std::alloc::Global;
use std::test::Fail;

/// No visit here is longer.
const MANY: u32 = 100_000;

/// The nodes of a visit, in its order.
fn listed(alloc: Global, visit: Visit<'_>) -> Result<Vec<NodeId>, Fail> {
    let mut visit = visit;
    let mut nodes = Vec::new(alloc);
    for _ in 0..MANY {
        match visit.next()? {
            Some(node) => nodes.push(node)?,
            None => break,
        }
    }
    Ok(nodes)
}

fn nodes_below(alloc: Global, asr: &Asr, stmt: StmtId) -> Result<Vec<NodeId>, Fail> {
    there(asr.has_stmt(stmt))?;
    let stmts = one(alloc, stmt)?;
    listed(alloc, Visit::below(alloc, asr, stmts.as_slice())?)
}

/// `if (.true.) then; stop 2 + 3; else; exit; end if`
fn small(alloc: Global, asr: &mut Asr) -> Result<StmtId, Fail> {
    let two = literal(asr, 2)?;
    let three = literal(asr, 3)?;
    let five = sum(asr, two, three)?;
    let first = stop(asr, 2, five)?;
    let last = asr.build_stmt(Stmt::Exit { line: 4, id: 1 })?;
    let condition = asr.build_expr(Expr::LogConst { value: code::TRUE })?;
    let then_block = one(alloc, first)?;
    let else_block = one(alloc, last)?;
    there(asr.has_stmt(first))?;
    there(asr.has_stmt(last))?;
    there(asr.has_expr(condition))?;
    Ok(asr.build_stmt(Stmt::If {
        line: 1,
        condition,
        then_block,
        else_block,
    })?)
}

fn is_small_visited(alloc: Global, asr: &mut Asr) -> Result<bool, Fail> {
    let whole = small(alloc, asr)?;
    let expected = [
        NodeId::Stmt(StmtId(2)),
        NodeId::Expr(ExprId(3)),
        NodeId::Stmt(StmtId(0)),
        NodeId::Expr(ExprId(2)),
        NodeId::Expr(ExprId(0)),
        NodeId::Expr(ExprId(1)),
        NodeId::Stmt(StmtId(1)),
    ];
    Ok(nodes_below(alloc, asr, whole)?.as_slice() == expected.as_slice())
}

fn chain_nodes(alloc: Global, asr: &mut Asr) -> Result<usize, Fail> {
    let seven = literal(asr, 7)?;
    let end = stop(asr, ARMS, seven)?;
    let first = chain(alloc, asr, end)?;
    Ok(nodes_below(alloc, asr, first)?.len())
}

fn deep_nodes(alloc: Global, asr: &mut Asr) -> Result<usize, Fail> {
    let seven = literal(asr, 7)?;
    let deep = parenthesised(asr, seven)?;
    there(asr.has_expr(deep))?;
    Ok(listed(alloc, Visit::expr(alloc, asr, deep)?)?.len())
}

/// The symbols of a visit, in its order.
fn symbols(alloc: Global, visit: SymbolVisit<'_>) -> Result<Vec<SymId>, Fail> {
    let mut visit = visit;
    let mut symbols = Vec::new(alloc);
    for _ in 0..MANY {
        match visit.next()? {
            Some(symbol) => symbols.push(symbol)?,
            None => break,
        }
    }
    Ok(symbols)
}

/// Declares a derived type, which owns a table.
fn declare_struct(alloc: Global, asr: &mut Asr, table: TableId, name: &[u8]) -> Result<(), Fail> {
    let name = Name::new(alloc, name)?;
    there(table.0 != 0)?;
    there(asr.arena().has_table(table))?;
    let symbol = Symbol::Struct {
        access: 0,
        table: TableId(0),
    };
    there(asr.build_symbol(table, &name, symbol).is_ok())?;
    Ok(())
}

/// Symbols 1 and 3 stand in the program's table, and symbol 2 in that of symbol 1.
fn are_symbols_visited(alloc: Global, asr: &mut Asr) -> Result<bool, Fail> {
    let seven = literal(asr, 7)?;
    let end = stop(asr, 2, seven)?;
    let _ = program(alloc, asr, end)?;
    declare_struct(alloc, asr, TableId(1), b"a")?;
    declare_struct(alloc, asr, TableId(2), b"b")?;
    declare_struct(alloc, asr, TableId(1), b"c")?;
    let expected = [SymId(0), SymId(1), SymId(2), SymId(3)];
    Ok(
        symbols(alloc, SymbolVisit::below(alloc, asr, TableId(0))?)?.as_slice()
            == expected.as_slice(),
    )
}

/// A name that was noted twice in one table, and another one.
fn is_ambiguity_told(alloc: Global, asr: &mut Asr) -> Result<bool, Fail> {
    let twice = Name::new(alloc, b"twice")?;
    let other = Name::new(alloc, b"other")?;
    asr.note_ambiguous(TableId(1), &twice)?;
    asr.note_ambiguous(TableId(1), &twice)?;
    asr.note_ambiguous(TableId(2), &other)?;
    Ok(
        asr.is_ambiguous(TableId(1), &twice)
            && asr.is_ambiguous(TableId(2), &other)
            && !asr.is_ambiguous(TableId(1), &other)
            && !asr.is_ambiguous(TableId(0), &twice),
    )
}

#[test]
fn nodes_and_symbols_are_visited(rt: HostRuntime) -> Result<(), Fail> {
    let mut asr = Asr::new(rt.alloc())?;
    assert!(rt; is_small_visited(rt.alloc(), &mut asr)?);
    let mut asr = Asr::new(rt.alloc())?;
    assert_eq!(rt; chain_nodes(rt.alloc(), &mut asr)?, 2 * ARMS as usize + 2);
    let mut asr = Asr::new(rt.alloc())?;
    assert_eq!(rt; deep_nodes(rt.alloc(), &mut asr)?, DEPTH as usize + 1);
    let mut asr = Asr::new(rt.alloc())?;
    assert!(rt; are_symbols_visited(rt.alloc(), &mut asr)?);
    assert!(rt; is_ambiguity_told(rt.alloc(), &mut asr)?);
    Ok(())
}
