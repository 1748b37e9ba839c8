//! Which files are built, and the lines of the forms that are not.

ghost use Rattle.std.specs.Prelude.{◌≡◌, ◌∷◌};
ghost use Rattle.std.specs.List.{list_all, list_any};
ghost use Rattle.lf_driver.specs.OnePrint.Built.{is_name_byte, value_behind, small_value, literal_of, operator_of, seen, is_print, line_seen, declaration_line, unit_line, line_of_unit, line_of_procedure, line_behind};

use ast_nodes::{Decl, Procedure, Statement, Unit};
use lf_base::operator::{ADD, MULTIPLY, SUBTRACT};

/// An operator of the value that is printed (ISO/IEC 1539-1:2018, 10.1.5.2.1).
#[derive(Clone, Copy)]
pub(crate) enum Operator {
    Add,
    Subtract,
    Multiply,
}

const GREATEST_LITERAL: u64 = 2_147_483_647;

/// Whether the bytes are letters, digits and underscores.
pub(crate) fn is_name(name: &[u8]) -> bool
    ensures { result ≡ list_all is_name_byte name.now }
{
    name.iter()
        .all(|byte| byte.is_ascii_alphanumeric() || *byte == b'_')
}

// The value of digits, unless it is greater than the greatest literal.
fn value(digits: &[u8]) -> Option<u64>
    ensures { result ≡ small_value digits.now }
{
    let mut value: u64 = 0;
    for digit in digits {
        if value > GREATEST_LITERAL {
            return None;
        }
        value = value * 10 + u64::from(digit.saturating_sub(b'0'));
    }
    if value > GREATEST_LITERAL {
        None
    } else {
        Some(value)
    }
}

/// The value of a literal of kind 4.
pub(crate) fn literal(digits: &[u8], suffix: u8) -> Option<u64>
    ensures { result ≡ literal_of digits.now suffix }
{
    if suffix == 0 || suffix == 4 {
        value(digits)
    } else {
        None
    }
}

/// The operator of a code, if it is built.
pub(crate) fn operator_of(code: u8) -> Option<Operator>
    ensures { result ≡ operator_of code }
{
    if code == ADD {
        Some(Operator::Add)
    } else if code == SUBTRACT {
        Some(Operator::Subtract)
    } else if code == MULTIPLY {
        Some(Operator::Multiply)
    } else {
        None
    }
}

fn is_print(statement: &Statement) -> bool
    ensures { result ≡ is_print (seen statement.now) }
{
    match statement {
        Statement::Print { .. } => true,
        Statement::Assign { .. }
        | Statement::If { .. }
        | Statement::Do { .. }
        | Statement::While { .. }
        | Statement::Select { .. }
        | Statement::Call { .. }
        | Statement::Read { .. }
        | Statement::Stop { .. }
        | Statement::Exit { .. }
        | Statement::Cycle { .. }
        | Statement::Return { .. }
        | Statement::Continue { .. } => false,
    }
}

/// Whether one of the statements is a `print`.
pub(crate) fn has_print(statements: &[Statement]) -> bool
    ensures { result ≡ list_any (λ statement. is_print (seen statement)) statements.now }
{
    for statement in statements {
        if is_print(statement) {
            return true;
        }
    }
    false
}

/// The line on which a statement begins.
pub(crate) fn line_of(statement: &Statement) -> u32
    ensures { result ≡ line_seen (seen statement.now) }
{
    match statement {
        Statement::Assign { line, .. }
        | Statement::If { line, .. }
        | Statement::Do { line, .. }
        | Statement::While { line, .. }
        | Statement::Select { line, .. }
        | Statement::Call { line, .. }
        | Statement::Print { line, .. }
        | Statement::Read { line, .. }
        | Statement::Stop { line, .. }
        | Statement::Exit { line, .. }
        | Statement::Cycle { line, .. }
        | Statement::Return { line }
        | Statement::Continue { line } => *line,
    }
}

/// The line of a declaration.
pub(crate) fn declaration_line(declaration: &Decl) -> u32
    ensures { result ≡ declaration_line declaration.now }
{
    match declaration {
        Decl::Use { used } => used.line,
        Decl::Variables { vars } => vars.line,
        Decl::ImplicitNone { line }
        | Decl::Access { line, .. }
        | Decl::TypeDef { line, .. }
        | Decl::Interface { line, .. } => *line,
    }
}

fn unit_line(unit: &Unit) -> u32
    ensures { result ≡ unit_line unit.now }
{
    match unit {
        Unit::Program { line, .. } | Unit::Module { line, .. } => *line,
    }
}

fn line_of_unit(units: &[Unit]) -> Option<u32>
    ensures { result ≡ line_of_unit units.now }
{
    match units {
        [] => None,
        [unit, ..] => Some(unit_line(unit)),
    }
}

fn line_of_procedure(procedures: &[Procedure], units: &[Unit]) -> Option<u32>
    ensures { result ≡ line_of_procedure procedures.now units.now }
{
    match procedures {
        [] => line_of_unit(units),
        [procedure, ..] => Some(procedure.line),
    }
}

/// The line of the first of the statements, the procedures and the units.
pub(crate) fn line_behind(
    statements: &[Statement],
    procedures: &[Procedure],
    units: &[Unit],
) -> Option<u32>
    ensures { result ≡ line_behind statements.now procedures.now units.now }
{
    match statements {
        [] => line_of_procedure(procedures, units),
        [statement, ..] => Some(line_of(statement)),
    }
}
