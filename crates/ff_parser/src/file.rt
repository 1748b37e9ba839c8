//! Statements to a file.
ghost use Rattle.std.specs.Prelude.{◌≡◌, ◌∷◌, List, ℕ, Ok, IfOk};
ghost use Rattle.ff_lexer.specs.Statements.{Spelled};
ghost use Rattle.ff_lexer.specs.Spans.{spelled_statement, spelled_statements, view};
ghost use Rattle.ff_parser.specs.Taken.{taken};
ghost use Rattle.ff_parser.specs.Files.{is_too_deep, broken, step, line_of_definition, line_of_open, closed_file, ended, file_behind, file_in, Answers, Leads, Parses};

use crate::allowed::is_allowed;
use crate::inner::{from_construct, from_definition};
use crate::names::{begins_construct, is_full, is_named};
use crate::nest::{Definition, Nest};
use crate::take::{from_outside, from_scope};
use ast_nodes::File;
use ff_forms::{Form, Formed, read_form};
use ff_lexer::Stmt;
use lf_base::{Memory, Rule, SyntaxFault};
use sqlite_items::Items;
use std::alloc::Global;

fn is_too_deep(nest: &Nest, formed: &Formed) -> bool
    ensures { result ≡ is_too_deep nest.now formed.now }
{
    formed.is_deep == 1 || (begins_construct(&formed.form) && is_full(nest))
}

fn broken(nest: &Nest, formed: &Formed) -> Option<Rule>
    ensures { result ≡ broken nest.now formed.now }
{
    if !is_allowed(nest, &formed.form) {
        return Some(Rule::E203);
    }
    if !is_named(nest, &formed.form) {
        return Some(Rule::E205);
    }
    if is_too_deep(nest, formed) {
        return Some(Rule::E206);
    }
    None
}

fn taken(alloc: Global, nest: Nest, line: u32, form: Form) -> Result<Nest, Memory>
    ensures { IfOk result (λ next. next ≡ taken nest line form) }
{
    match nest {
        Nest::Outside { units } => Ok(from_outside(alloc, units, line, form)),
        Nest::Scope { units, scope } => from_scope(alloc, units, scope, line, form),
        Nest::Definition {
            units,
            scope,
            definition,
        } => from_definition(units, scope, definition, form),
        Nest::Construct {
            units,
            scope,
            level,
            around,
        } => from_construct(alloc, units, scope, level, around, line, form),
    }
}

fn accepted(alloc: Global, nest: Nest, formed: Formed) -> Result<Nest, SyntaxFault>
    ensures { Answers (λ next. next) result (Ok (taken nest formed.line formed.form)) }
{
    let Formed {
        line,
        form,
        is_deep: _,
    } = formed;
    Ok(taken(alloc, nest, line, form)?)
}

fn step(alloc: Global, nest: Nest, formed: Formed) -> Result<Nest, SyntaxFault>
    ensures { Answers (λ next. next) result (step nest formed) }
{
    match broken(&nest, &formed) {
        Some(rule) => {
            drop(nest);
            let line = formed.line;
            drop(formed);
            Err(SyntaxFault::At { line, rule })
        }
        None => accepted(alloc, nest, formed),
    }
}

// What is open behind a statement.
fn next(alloc: Global, nest: Nest, source: &[u8], stmt: &Stmt) -> Result<Nest, SyntaxFault>
    ensures { (more : List (ℕ × List Spelled)) → Leads result (λ behind. file_behind behind more) (file_behind nest (spelled_statement source.now (view stmt.now) ∷ more)) }
{
    match read_form(alloc, source, stmt) {
        Ok(formed) => step(alloc, nest, formed),
        Err(SyntaxFault::At { line, rule }) => Err(SyntaxFault::At { line, rule }),
        Err(SyntaxFault::Memory) => Err(SyntaxFault::Memory),
    }
}

fn line_of_definition(definition: &Definition) -> u32
    ensures { result ≡ line_of_definition definition.now }
{
    match definition {
        Definition::Type { line, .. } | Definition::Interface { line, .. } => *line,
    }
}

// The line of the first statement of the innermost that is open, or 0.
fn line_of_open(nest: &Nest) -> u32
    ensures { result ≡ line_of_open nest.now }
{
    match nest {
        Nest::Outside { .. } => 0,
        Nest::Scope { scope, .. } => scope.line,
        Nest::Definition { definition, .. } => line_of_definition(definition),
        Nest::Construct { level, .. } => level.line,
    }
}

fn closed_file(nest: Nest, line: u32) -> Result<File, SyntaxFault>
    ensures { Answers (λ file. file) result (closed_file nest line) }
{
    match nest {
        Nest::Outside { units } => Ok(File { units }),
        other => {
            drop(other);
            Err(SyntaxFault::At {
                line,
                rule: Rule::E204,
            })
        }
    }
}

// The statements end.
fn ended(nest: Nest) -> Result<File, SyntaxFault>
    ensures { Answers (λ file. file) result (ended nest) }
{
    let line = line_of_open(&nest);
    closed_file(nest, line)
}

// The file, or the first fault.
fn file_of(alloc: Global, stmts: &[Stmt], source: &[u8]) -> Result<File, SyntaxFault>
    ensures { Answers (λ file. file) result (file_in (spelled_statements source.now stmts.now)) }
{
    let mut nest = Nest::Outside {
        units: Items::new(alloc),
    };
    for stmt in stmts {
        nest = next(alloc, nest, source, stmt)?;
    }
    ended(nest)
}

/// The file that the statements of a source are (ISO/IEC 1539-1:2018, 5.1), or the first statement that breaks a rule, with the least
/// of the rules that it breaks:
///
/// - E201 or E202, where it is in no form;
/// - E203, where it stands where it is not allowed;
/// - E205, where it is an end or a part and names another unit or construct than the innermost that is open;
/// - E206, where an expression of it is too deep, or where it begins the 65th of nested constructs.
///
/// Where no statement breaks one, and a unit, a procedure, a definition or a construct is open at the end, it is E204 with the line of
/// the first statement of the innermost.
///
/// A file is answered exactly where the grammar of units, procedures, definitions, constructs and blocks relates one to the statements;
/// at most one is.
pub fn parse(alloc: Global, stmts: &[Stmt], source: &[u8]) -> Result<File, SyntaxFault>
    ensures exact { Answers (λ file. file) result (file_in (spelled_statements source.now stmts.now)) }
    ensures grammar { Parses (spelled_statements source.now stmts.now) result }
{
    file_of(alloc, stmts, source)
}
