ghost use Rattle.std.specs.Prelude.{◌≡◌, true};
ghost use Rattle.std.specs.List.{list_all};
ghost use Rattle.lf_base.specs.declared.rule.Rule.TheVariants.{E202};
ghost use Rattle.lf_driver.specs.OnePrint.Built.{is_name_byte, printed_in, seen, line_seen, value_seen, printing, body_in, unit_in, program_in};
ghost use Rattle.lf_driver.specs.OnePrint.Emits.{EmitsPrint, EndsProgram, Lowers, location_at};

use crate::one_print::built::{declaration_line, has_print, is_name, line_behind, line_of};
use crate::one_print::lower::{Located, print_value, program_file};
use ast_nodes::code::FORMAT_LIST;
use ast_nodes::{Expr, File, Procedure, Statement, Unit};
use c_nodes::{CFile, CStmt};
use c_prelude::prelude;
use lf_base::{Memory, Rule, SyntaxFault};
use sqlite_items::Items;
use std::alloc::Global;

fn refused(line: u32) -> SyntaxFault
    ensures { result ≡ SyntaxFault.At line E202 }
{
    SyntaxFault::At {
        line,
        rule: Rule::E202,
    }
}

fn print_items(
    alloc: Global,
    at: Located,
    form: u8,
    advance: u8,
    items: &[Expr],
) -> Result<Option<Items<CStmt>>, Memory>
    ensures { EmitsPrint (location_at at.entry) result (printed_in form advance items.now) }
{
    match items {
        [item] => {
            if form == FORMAT_LIST && advance == 0 {
                print_value(alloc, at, item)
            } else {
                Ok(None)
            }
        }
        [] => Ok(None),
        [_, _, ..] => Ok(None),
    }
}

// The statements of C of a statement, if it is built.
fn print_statement(
    alloc: Global,
    at: Located,
    statement: &Statement,
) -> Result<Option<Items<CStmt>>, Memory>
    ensures { EmitsPrint (location_at at.entry) result (value_seen (seen statement.now)) }
{
    match statement {
        Statement::Print {
            form,
            advance,
            items,
            ..
        } => print_items(alloc, at, *form, *advance, items.as_slice()),
        Statement::Assign { .. }
        | Statement::If { .. }
        | Statement::Do { .. }
        | Statement::While { .. }
        | Statement::Select { .. }
        | Statement::Call { .. }
        | Statement::Read { .. }
        | Statement::Stop { .. }
        | Statement::Exit { .. }
        | Statement::Cycle { .. }
        | Statement::Return { .. }
        | Statement::Continue { .. } => Ok(None),
    }
}

// A program with the statements that print, behind which the next form stands on this line.
fn end_program(
    alloc: Global,
    name: &[u8],
    statements: Items<CStmt>,
    behind: Option<u32>,
) -> Result<CFile, SyntaxFault>
    ensures { EndsProgram name.now statements result behind }
{
    match behind {
        Some(line) => Err(refused(line)),
        None => match program_file(alloc, name, statements) {
            Ok(file) => Ok(file),
            Err(Memory) => Err(SyntaxFault::Memory),
        },
    }
}

// A program with this first statement.
fn lower_print(
    alloc: Global,
    source: &[u8],
    name: &[u8],
    statement: &Statement,
    behind: Option<u32>,
) -> Result<CFile, SyntaxFault>
    requires { list_all is_name_byte name.now ≡ true }
    ensures { Lowers source.now result (printing name.now (line_seen (seen statement.now)) (value_seen (seen statement.now)) behind) }
{
    let line = line_of(statement);
    match print_statement(alloc, Located { source, line }, statement) {
        Ok(Some(statements)) => end_program(alloc, name, statements, behind),
        Ok(None) => Err(refused(line)),
        Err(Memory) => Err(SyntaxFault::Memory),
    }
}

fn lower_body(
    alloc: Global,
    source: &[u8],
    line: u32,
    name: &[u8],
    statements: &[Statement],
    procedures: &[Procedure],
    units: &[Unit],
) -> Result<CFile, SyntaxFault>
    requires { list_all is_name_byte name.now ≡ true }
    ensures { Lowers source.now result (body_in line name.now statements.now procedures.now units.now) }
{
    match statements {
        [] => Err(refused(line)),
        [statement, rest @ ..] => lower_print(
            alloc,
            source,
            name,
            statement,
            line_behind(rest, procedures, units),
        ),
    }
}

fn lower_unit(
    alloc: Global,
    source: &[u8],
    unit: &Unit,
    units: &[Unit],
) -> Result<CFile, SyntaxFault>
    ensures { Lowers source.now result (unit_in unit.now units.now) }
{
    match unit {
        Unit::Module { line, .. } => Err(refused(*line)),
        Unit::Program {
            line,
            name,
            decls,
            stmts,
            procs,
        } => {
            if is_name(name.bytes()) && has_print(stmts.as_slice()) {
                match decls.as_slice() {
                    [] => lower_body(
                        alloc,
                        source,
                        *line,
                        name.bytes(),
                        stmts.as_slice(),
                        procs.as_slice(),
                        units,
                    ),
                    [declaration, ..] => Err(refused(declaration_line(declaration))),
                }
            } else {
                Err(refused(*line))
            }
        }
    }
}

/// The C file of what is built of the file of this name. Where a form is not built, E202 is told at the line of the first
/// statement that holds one.
pub(crate) fn lower(alloc: Global, source: &[u8], file: &File) -> Result<CFile, SyntaxFault>
    ensures { Lowers source.now result (program_in file.now) }
{
    match file.units.as_slice() {
        [] => match prelude(alloc) {
            Ok(file) => Ok(file),
            Err(Memory) => Err(SyntaxFault::Memory),
        },
        [unit, units @ ..] => lower_unit(alloc, source, unit, units),
    }
}
