//! The lines of statements that hold no others: assignment (ISO/IEC 1539-1:2018, 10.2.1.3), branches out of loops (11.1.12
//! and 11.1.7.4.4), `stop` (11.4) and output (12.6.3). They fail only for want of memory.
ghost use Rattle.std.specs.Prelude.{◌≡◌, Some, [], ◌∷◌, map, option_map, IfOk};
ghost use Rattle.c_nodes.specs.declared.tree.CStmt.TheVariants.{Goto};
ghost use Rattle.c_printer.specs.declared.scalar.ScalarType.TheVariants.{Integer8, Logical};
ghost use Rattle.c_printer.specs.Laid.{gap, item_of, one_value, output_stmt, plain_stmt};
ghost use Rattle.c_printer.specs.Lowering.{bind, line};
ghost use Rattle.c_printer.specs.Lowered.{expression_of};
ghost use Rattle.c_printer.specs.Names.{cycle_label, exit_label};
ghost use Rattle.c_printer.specs.Statements.{assigned, begin_record, called, declare_temp, end_record, end_where, print_digits, printed, put, put_character, put_value, stopped};
ghost use Rattle.c_printer.specs.Writing.{Writes, location};

use crate::located::Located;
use crate::places::{place, store};
use crate::scalar::{ScalarType, Value};
use crate::scope::Scope;
use crate::values::{constant, value};
use crate::writer::Writer;
use crate::{cexpr, names};
use asr_nodes::code::{FALSE, FORMAT_INTEGER};
use asr_nodes::{PrintItem, Stmt};
use c_nodes::{CExpr, CStmt, CType};
use lf_base::{ExprId, Memory, Name};
use sqlite_items::Items;
use std::alloc::Global;

/// Stop codes count modulo this number.
const STATUSES: i64 = 256;

/// Assigns a value to what a designator designates. The value is computed first.
pub(crate) fn assigned(
    scope: &Scope<'_>,
    writer: &mut Writer,
    here: Located<'_>,
    target: ExprId,
    given: ExprId,
) -> Result<(), Memory>
    ensures { Writes writer.old writer.new result (assigned (location here.entry) (expression_of scope.now target) (expression_of scope.now given)) }
{
    let v = value(scope, writer, here, given)?;
    store(scope, writer, place(scope, target), v.number)
}

/// Gives a temporary of the tree its value.
pub(crate) fn let_temp(
    scope: &Scope<'_>,
    writer: &mut Writer,
    here: Located<'_>,
    number: u64,
    given: ExprId,
) -> Result<(), Memory>
    ensures { Writes writer.old writer.new result (bind ((expression_of scope.now given).value (location here.entry)) (declare_temp number)) }
{
    let v = value(scope, writer, here, given)?;
    writer.declare_temp(number, v)
}

fn go_to(writer: &mut Writer, label: Name) -> Result<(), Memory>
    ensures { Writes writer.old writer.new result (line (Goto label)) }
{
    writer.line(CStmt::Goto { label })
}

/// Leaves the loop of this number.
pub(crate) fn exit(writer: &mut Writer, id: u64) -> Result<(), Memory>
    ensures { Writes writer.old writer.new result (line (Goto (exit_label id))) }
{
    let label = names::exit_label(writer.allocator(), id)?;
    go_to(writer, label)
}

/// Leaves the turn of the loop of this number.
pub(crate) fn cycle(writer: &mut Writer, id: u64) -> Result<(), Memory>
    ensures { Writes writer.old writer.new result (line (Goto (cycle_label id))) }
{
    let label = names::cycle_label(writer.allocator(), id)?;
    go_to(writer, label)
}

// A call of a function that gives no value.
fn called(writer: &mut Writer, name: &[u8], arguments: Items<CExpr>) -> Result<(), Memory>
    ensures { Writes writer.old writer.new result (called name.now arguments) }
{
    let callee = Name::new(writer.allocator(), name)?;
    writer.line(CStmt::Call { callee, arguments })
}

fn stop_with(writer: &mut Writer, code: i64) -> Result<(), Memory>
    ensures { Writes writer.old writer.new result (stopped (Some code)) }
{
    let status = code.rem_euclid(STATUSES).unsigned_abs();
    let arguments = cexpr::one(writer.allocator(), CExpr::Constant { value: status })?;
    called(writer, b"exit", arguments)
}

/// Ends the program with a stop code.
pub(crate) fn stopped(scope: &Scope<'_>, writer: &mut Writer, code: ExprId) -> Result<(), Memory>
    ensures { Writes writer.old writer.new result (stopped (expression_of scope.now code).constant) }
{
    match constant(scope, code) {
        Some(code) => stop_with(writer, code),
        None => Ok(()),
    }
}

fn put_character(alloc: Global, character: u8) -> Result<CStmt, Memory>
    ensures { IfOk result (λ s. s ≡ put_character character) }
{
    let code = CExpr::Constant {
        value: u64::from(character),
    };
    Ok(CStmt::Call {
        callee: Name::new(alloc, b"putchar")?,
        arguments: cexpr::one(alloc, code)?,
    })
}

fn one_character(alloc: Global, character: u8) -> Result<Items<CStmt>, Memory>
    ensures { IfOk result (λ ss. ss ≡ put_character character ∷ []) }
{
    let mut lines = Items::new(alloc);
    lines.push(put_character(alloc, character)?)?;
    Ok(lines)
}

/// Ends a record.
pub(crate) fn end_record(writer: &mut Writer) -> Result<(), Memory>
    ensures { Writes writer.old writer.new result end_record }
{
    let end = put_character(writer.allocator(), b'\n')?;
    writer.line(end)
}

/// Begins a list-directed record: with a blank, and with the temporary that knows what was written last (13.10.4).
pub(crate) fn begin_record(writer: &mut Writer, number: u64) -> Result<(), Memory>
    ensures { Writes writer.old writer.new result (begin_record number) }
{
    let name = names::temp_name(writer.allocator(), number)?;
    writer.line(CStmt::DeclareValue {
        kind: CType::Int64,
        name,
        value: CExpr::Constant { value: 0 },
    })?;
    let blank = put_character(writer.allocator(), b' ')?;
    writer.line(blank)
}

fn put_letter(alloc: Global, number: u64) -> Result<CStmt, Memory>
    ensures { IfOk result (λ s. s ≡ put_value Logical number) }
{
    Ok(CStmt::IfElse {
        test: cexpr::value_of(alloc, number)?,
        then_body: one_character(alloc, b'T')?,
        else_body: one_character(alloc, b'F')?,
    })
}

fn put_digits(alloc: Global, number: u64) -> Result<CStmt, Memory>
    ensures { IfOk result (λ s. s ≡ put_value Integer8 number) }
{
    Ok(CStmt::Call {
        callee: Name::new(alloc, b"lf_int")?,
        arguments: cexpr::one_value(alloc, number)?,
    })
}

// The line that writes a value: an integer in its fewest digits, a logical as a letter.
fn put_value(alloc: Global, given: Value) -> Result<CStmt, Memory>
    ensures { IfOk result (λ s. s ≡ put_value given.ty given.number) }
{
    match given.ty {
        ScalarType::Integer4 | ScalarType::Integer8 => put_digits(alloc, given.number),
        ScalarType::Logical => put_letter(alloc, given.number),
    }
}

// What the prelude writes between values.
fn gap(writer: &mut Writer, number: u64) -> Result<(), Memory>
    ensures { Writes writer.old writer.new result (gap number) }
{
    let alloc = writer.allocator();
    let last = cexpr::address_of_temp(alloc, number)?;
    let arguments = cexpr::two(alloc, last, CExpr::Constant { value: 1 })?;
    called(writer, b"lf_gap", arguments)
}

/// Puts a value into a list-directed record.
pub(crate) fn put(
    scope: &Scope<'_>,
    writer: &mut Writer,
    here: Located<'_>,
    number: u64,
    given: ExprId,
) -> Result<(), Memory>
    ensures { Writes writer.old writer.new result (put (location here.entry) number (expression_of scope.now given)) }
{
    let v = value(scope, writer, here, given)?;
    gap(writer, number)?;
    let shown = put_value(writer.allocator(), v)?;
    writer.line(shown)
}

// The value of an output list that has no other item.
fn one_value(items: &[PrintItem]) -> Option<ExprId>
    ensures { result ≡ one_value items.now }
{
    match items {
        [PrintItem::Value { value }] => Some(*value),
        _ => None,
    }
}

fn end_where(writer: &mut Writer, ends: bool) -> Result<(), Memory>
    ensures { Writes writer.old writer.new result (end_where ends) }
{
    if ends { end_record(writer) } else { Ok(()) }
}

// A record of one integer in its fewest digits (13.7.2.2), or a part of one.
fn print_digits(
    scope: &Scope<'_>,
    writer: &mut Writer,
    here: Located<'_>,
    advance: u8,
    given: ExprId,
) -> Result<(), Memory>
    ensures { Writes writer.old writer.new result (print_digits (location here.entry) advance (Some (expression_of scope.now given) ∷ [])) }
{
    let v = value(scope, writer, here, given)?;
    let arguments = cexpr::one_value(writer.allocator(), v.number)?;
    called(writer, b"lf_int", arguments)?;
    end_where(writer, advance == FALSE)
}

/// Writes one integer.
pub(crate) fn printed(
    scope: &Scope<'_>,
    writer: &mut Writer,
    here: Located<'_>,
    form: u8,
    advance: u8,
    items: &[PrintItem],
) -> Result<(), Memory>
    ensures { Writes writer.old writer.new result (printed (location here.entry) form advance (map (item_of scope.now) items.now)) }
{
    if form != FORMAT_INTEGER {
        return Ok(());
    }
    match one_value(items) {
        Some(given) => print_digits(scope, writer, here, advance, given),
        None => Ok(()),
    }
}

// The lines of a statement that writes. Any other statement has none here.
fn output(scope: &Scope<'_>, writer: &mut Writer, source: &[u8], node: &Stmt) -> Result<(), Memory>
    ensures { Writes writer.old writer.new result (output_stmt scope.now node.now source.now) }
{
    match node {
        Stmt::Print {
            line,
            form,
            advance,
            items,
        } => printed(
            scope,
            writer,
            Located {
                source,
                line: *line,
            },
            *form,
            *advance,
            items.as_slice(),
        ),
        Stmt::Begin { number, .. } => begin_record(writer, *number),
        Stmt::Put {
            line,
            number,
            value,
        } => put(
            scope,
            writer,
            Located {
                source,
                line: *line,
            },
            *number,
            *value,
        ),
        Stmt::End { .. } => end_record(writer),
        _ => Ok(()),
    }
}

/// Writes the lines of a statement that holds no others. Any other statement has none here.
pub(crate) fn plain(
    scope: &Scope<'_>,
    writer: &mut Writer,
    source: &[u8],
    node: &Stmt,
) -> Result<(), Memory>
    ensures { Writes writer.old writer.new result (plain_stmt scope.now node.now source.now) }
{
    match node {
        Stmt::Assign {
            line,
            target,
            value,
        } => assigned(
            scope,
            writer,
            Located {
                source,
                line: *line,
            },
            *target,
            *value,
        ),
        Stmt::Exit { id, .. } => exit(writer, *id),
        Stmt::Cycle { id, .. } => cycle(writer, *id),
        Stmt::Stop { code, .. } => stopped(scope, writer, *code),
        Stmt::Let {
            line,
            number,
            value,
        } => let_temp(
            scope,
            writer,
            Located {
                source,
                line: *line,
            },
            *number,
            *value,
        ),
        _ => output(scope, writer, source, node),
    }
}
