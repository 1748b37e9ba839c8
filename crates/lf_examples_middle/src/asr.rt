//! The typed tree: small programs and their texts, edits in place, and trees that are deep.
ghost use Rattle.std.specs.Prelude.{◌≡◌, [], ◌∷◌, IfOk};

use crate::there::there;
use asr_nodes::{Asr, Expr, ExprIds, PrintItem, Stmt, Symbol, code, print_asr};
use lf_base::operator::ADD;
use lf_base::{ExprId, Name, Sink, StmtId, SureSink, SymId, TableId};
use sqlite_items::Items;
use std::alloc::Global;
use std::test::Fail;
use type_rules::{Dim, Elem, Len, Ty};

const ROOT: TableId = TableId(0);

/// How many `else if` a chain has.
pub(crate) const ARMS: u32 = 10_000;

/// The line of the statement at the end of a chain.
const STOP_LINE: u32 = ARMS + 1;

/// How deep an expression is.
pub(crate) const DEPTH: u32 = 4_000;

fn bytes(alloc: Global, text: &[u8]) -> Result<Items<u8>, Fail> {
    Ok(Items::from_slice(alloc, text)?)
}

pub(crate) fn one(alloc: Global, id: StmtId) -> Result<Items<StmtId>, Fail>
    ensures { IfOk result (λ ids. ids ≡ id ∷ []) }
{
    let mut ids = Items::new(alloc);
    ids.push(id)?;
    Ok(ids)
}

fn integer(alloc: Global) -> Ty {
    Ty {
        elem: Elem::Integer { kind: 4 },
        dims: Items::new(alloc),
    }
}

pub(crate) fn literal(asr: &mut Asr, value: i64) -> Result<ExprId, Fail> {
    Ok(asr.build_expr(Expr::IntConst { kind: 4, value })?)
}

pub(crate) fn sum(asr: &mut Asr, left: ExprId, right: ExprId) -> Result<ExprId, Fail> {
    there(asr.has_expr(left))?;
    there(asr.has_expr(right))?;
    Ok(asr.build_expr(Expr::Binary {
        operator: ADD,
        left,
        right,
    })?)
}

pub(crate) fn stop(asr: &mut Asr, line: u32, code: ExprId) -> Result<StmtId, Fail> {
    there(asr.has_expr(code))?;
    Ok(asr.build_stmt(Stmt::Stop {
        line,
        error: code::FALSE,
        code,
    })?)
}

/// `if (.true.) then; else REST; end if`
fn arm(alloc: Global, asr: &mut Asr, line: u32, rest: StmtId) -> Result<StmtId, Fail> {
    let condition = asr.build_expr(Expr::LogConst { value: code::TRUE })?;
    let else_block = one(alloc, rest)?;
    there(asr.has_stmt(rest))?;
    there(asr.has_expr(condition))?;
    Ok(asr.build_stmt(Stmt::If {
        line,
        condition,
        then_block: Items::new(alloc),
        else_block,
    })?)
}

/// Puts `stop VALUE` in the place of a statement.
fn stop_there(asr: &mut Asr, at: StmtId, value: i64) -> Result<Stmt, Fail> {
    let line = STOP_LINE;
    let code = asr.build_expr(Expr::IntConst { kind: 4, value })?;
    there(asr.has_stmt(at))?;
    asr.sound();
    Ok(asr.replace(
        at,
        Stmt::Stop {
            line,
            error: code::FALSE,
            code,
        },
    ))
}

/// Puts a block of `exit` and `stop VALUE` in the place of a statement.
fn block_there(alloc: Global, asr: &mut Asr, at: StmtId, value: i64) -> Result<(), Fail> {
    let line = STOP_LINE;
    let code = asr.build_expr(Expr::IntConst { kind: 4, value })?;
    there(asr.has_stmt(at))?;
    asr.sound();
    let mut with = Vec::new(alloc);
    with.push(Stmt::Exit { line, id: 1 })?;
    with.push(Stmt::Stop {
        line,
        error: code::FALSE,
        code,
    })?;
    asr.splice(at, with)?;
    Ok(())
}

pub(crate) fn program(alloc: Global, asr: &mut Asr, stmt: StmtId) -> Result<SymId, Fail> {
    there(asr.has_stmt(stmt))?;
    there(asr.arena().has_table(ROOT))?;
    let name = Name::new(alloc, b"p")?;
    let unit = Symbol::Program {
        source: bytes(alloc, b"p.f90")?,
        deps: Items::new(alloc),
        table: ROOT,
        body: one(alloc, stmt)?,
    };
    Ok(asr.build_symbol(ROOT, &name, unit)?)
}

fn shown(alloc: Global, asr: &Asr, unit: SymId) -> Result<SureSink, Fail> {
    there(asr.is_unit(unit))?;
    let mut sink = SureSink::new(alloc)?;
    print_asr(asr, unit, &mut sink)?;
    Ok(sink)
}

fn is_small_shown(alloc: Global, asr: &mut Asr) -> Result<bool, Fail> {
    let two = literal(asr, 2)?;
    let three = literal(asr, 3)?;
    let five = sum(asr, two, three)?;
    let last = stop(asr, 2, five)?;
    let unit = program(alloc, asr, last)?;
    Ok(
        shown(alloc, asr, unit)?.bytes()
            == b"(Program p \"p.f90\" [] [\n] [(Stop 2 0 (Binary 0 (IntConst 4 2) (IntConst 4 3)))])\n".as_slice(),
    )
}

#[test]
fn small_program_is_shown(rt: HostRuntime) -> Result<(), Fail> {
    let alloc = rt.alloc();
    let mut asr = Asr::new(alloc)?;
    assert!(rt; is_small_shown(alloc, &mut asr)?);
    Ok(())
}

/// The front of a chain's text.
fn open_arms(sink: &mut SureSink) -> Result<(), Fail> {
    for line in 1..STOP_LINE {
        sink.put(b"(If ")?;
        sink.put(itoa::Buffer::new().format(line).as_bytes())?;
        sink.put(b" (LogConst 1) [] [")?;
    }
    Ok(())
}

fn close_arms(sink: &mut SureSink) -> Result<(), Fail> {
    for _ in 0..ARMS {
        sink.put(b"])")?;
    }
    Ok(())
}

/// The program with this statement at the end of the chain.
fn chain_text(alloc: Global, last: &[u8]) -> Result<SureSink, Fail> {
    let mut sink = SureSink::new(alloc)?;
    sink.put(b"(Program p \"p.f90\" [] [\n] [")?;
    open_arms(&mut sink)?;
    sink.put(last)?;
    close_arms(&mut sink)?;
    sink.put(b"])\n")?;
    Ok(sink)
}

/// A chain of `else if` with this statement at its end.
pub(crate) fn chain(alloc: Global, asr: &mut Asr, end: StmtId) -> Result<StmtId, Fail> {
    let mut first = end;
    for place in 0..ARMS {
        first = arm(alloc, asr, ARMS - place, first)?;
    }
    Ok(first)
}

/// Whether the text of the unit is that of the chain with this statement at its end.
fn ends_in(alloc: Global, asr: &Asr, unit: SymId, last: &[u8]) -> Result<bool, Fail> {
    Ok(shown(alloc, asr, unit)?.bytes() == chain_text(alloc, last)?.bytes())
}

/// Builds a chain and edits the statement at its end, twice.
fn is_chain_edited(alloc: Global, asr: &mut Asr) -> Result<(bool, bool, bool), Fail> {
    let seven = literal(asr, 7)?;
    let end = stop(asr, STOP_LINE, seven)?;
    let first = chain(alloc, asr, end)?;
    let unit = program(alloc, asr, first)?;
    let built = ends_in(alloc, asr, unit, b"(Stop 10001 0 (IntConst 4 7))")?;
    let _ = stop_there(asr, end, 8)?;
    let replaced = ends_in(alloc, asr, unit, b"(Stop 10001 0 (IntConst 4 8))")?;
    block_there(alloc, asr, end, 9)?;
    let block = b"(Block 10001 [(Exit 10001 1) (Stop 10001 0 (IntConst 4 9))])";
    Ok((built, replaced, ends_in(alloc, asr, unit, block)?))
}

#[test]
fn long_chain_is_edited_at_its_end(rt: HostRuntime) -> Result<(), Fail> {
    let alloc = rt.alloc();
    let mut asr = Asr::new(alloc)?;
    assert_eq!(rt; is_chain_edited(alloc, &mut asr)?, (true, true, true));
    Ok(())
}

/// An expression in so many parentheses.
pub(crate) fn parenthesised(asr: &mut Asr, inner: ExprId) -> Result<ExprId, Fail> {
    let mut e = inner;
    for _ in 0..DEPTH {
        there(asr.has_expr(e))?;
        e = asr.build_expr(Expr::Paren { inner: e })?;
    }
    Ok(e)
}

fn repeat(sink: &mut SureSink, piece: &[u8]) -> Result<(), Fail> {
    for _ in 0..DEPTH {
        sink.put(piece)?;
    }
    Ok(())
}

fn deep_text(alloc: Global) -> Result<SureSink, Fail> {
    let mut sink = SureSink::new(alloc)?;
    sink.put(b"(Program p \"p.f90\" [] [\n] [(Stop 2 0 ")?;
    repeat(&mut sink, b"(Paren ")?;
    sink.put(b"(IntConst 4 7)")?;
    repeat(&mut sink, b")")?;
    sink.put(b")])\n")?;
    Ok(sink)
}

fn is_deep_shown(alloc: Global, asr: &mut Asr) -> Result<bool, Fail> {
    let seven = literal(asr, 7)?;
    let deep = parenthesised(asr, seven)?;
    let end = stop(asr, 2, deep)?;
    let unit = program(alloc, asr, end)?;
    Ok(shown(alloc, asr, unit)?.bytes() == deep_text(alloc)?.bytes())
}

#[test]
fn deep_expression_is_shown(rt: HostRuntime) -> Result<(), Fail> {
    let alloc = rt.alloc();
    let mut asr = Asr::new(alloc)?;
    assert!(rt; is_deep_shown(alloc, &mut asr)?);
    Ok(())
}
