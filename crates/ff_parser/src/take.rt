//! What is open behind a statement.
ghost use Rattle.std.specs.Prelude.{◌≡◌, [], ◌∷◌, ◌++◌, Some, None, false, IfOk, OnOk};
ghost use Rattle.ff_parser.specs.Pieces.{unit_of, procedure_of};
ghost use Rattle.ff_parser.specs.Taken.{begun, from_outside, declared, executed, host_of, entered, resumed, closed, level, level_of, opened_in_scope, begun_in_scope, from_scope};

use crate::nest::{Definition, Header, Host, Level, Nest, Parts, Scope, ScopeKind, Stage};
use crate::stack::Stack;
use ast_nodes::{Decl, Expr, Procedure, Statement, Unit};
use ff_forms::Form;
use lf_base::{Memory, Name};
use sqlite_items::{Boxed, Items};
use std::alloc::Global;

pub fn push<T: Drop>(items: &mut Items<T>, item: T) -> Result<(), Memory>
    ensures { OnOk result (items.new ≡ items.old ++ item ∷ []) }
{
    items.push(item)?;
    Ok(())
}

fn begun(alloc: Global, line: u32, kind: ScopeKind) -> Scope
    ensures { result ≡ begun line kind }
{
    Scope {
        line,
        kind,
        stage: Stage::Uses,
        decls: Items::new(alloc),
        stmts: Items::new(alloc),
    }
}

fn begun_unit(alloc: Global, line: u32, name: Name, is_module: bool) -> Scope
    ensures { result ≡ begun line (ScopeKind.Unit name is_module []) }
{
    let procs = Items::new(alloc);
    let kind = ScopeKind::Unit {
        name,
        is_module,
        procs,
    };
    begun(alloc, line, kind)
}

pub fn from_outside(alloc: Global, units: Items<Unit>, line: u32, form: Form) -> Nest
    ensures { result ≡ from_outside units line form }
{
    match form {
        Form::Program { name } => Nest::Scope {
            units,
            scope: begun_unit(alloc, line, name, false),
        },
        Form::Module { name } => Nest::Scope {
            units,
            scope: begun_unit(alloc, line, name, true),
        },
        other => {
            drop(other);
            Nest::Outside { units }
        }
    }
}

pub fn declared(
    units: Items<Unit>,
    mut scope: Scope,
    stage: Stage,
    decl: Decl,
) -> Result<Nest, Memory>
    ensures { IfOk result (λ nest. nest ≡ declared units scope stage decl) }
{
    push(&mut scope.decls, decl)?;
    scope.stage = stage;
    Ok(Nest::Scope { units, scope })
}

pub fn executed(units: Items<Unit>, mut scope: Scope, statement: Statement) -> Result<Nest, Memory>
    ensures { IfOk result (λ nest. nest ≡ executed units scope statement) }
{
    push(&mut scope.stmts, statement)?;
    scope.stage = Stage::Statements;
    Ok(Nest::Scope { units, scope })
}

fn host_of(scope: Scope) -> Option<Host>
    ensures { result ≡ host_of scope }
{
    let Scope {
        line,
        kind,
        stage: _,
        decls,
        stmts,
    } = scope;
    match kind {
        ScopeKind::Unit {
            name,
            is_module,
            procs,
        } => Some(Host {
            line,
            name,
            is_module,
            decls,
            stmts,
            procs,
        }),
        other => {
            drop(other);
            None
        }
    }
}

fn boxed<T: Drop>(alloc: Global, value: T) -> Result<Boxed<T>, Memory>
    ensures { IfOk result (λ b. b ≡ value) }
{
    Ok(Boxed::new(alloc, value)?)
}

fn procedure_in(alloc: Global, host: Host, header: Header) -> Result<ScopeKind, Memory>
    ensures { IfOk result (λ kind. kind ≡ ScopeKind.Procedure header host) }
{
    let header = boxed(alloc, header)?;
    let host = boxed(alloc, host)?;
    Ok(ScopeKind::Procedure { header, host })
}

// A procedure begins.
fn entered(
    alloc: Global,
    units: Items<Unit>,
    host: Option<Host>,
    line: u32,
    header: Header,
) -> Result<Nest, Memory>
    ensures { IfOk result (λ nest. nest ≡ entered units host line header) }
{
    match host {
        Some(host) => {
            let kind = procedure_in(alloc, host, header)?;
            let scope = begun(alloc, line, kind);
            Ok(Nest::Scope { units, scope })
        }
        None => Ok(Nest::Outside { units }),
    }
}

// The unit goes on behind a procedure.
fn resumed(host: Host, procedure: Procedure) -> Result<Scope, Memory>
    ensures { IfOk result (λ scope. scope ≡ resumed host procedure) }
{
    let Host {
        line,
        name,
        is_module,
        decls,
        stmts,
        mut procs,
    } = host;
    push(&mut procs, procedure)?;
    Ok(Scope {
        line,
        kind: ScopeKind::Unit {
            name,
            is_module,
            procs,
        },
        stage: Stage::Procedures,
        decls,
        stmts,
    })
}

fn with_unit(mut units: Items<Unit>, unit: Unit) -> Result<Nest, Memory>
    ensures { IfOk result (λ nest. nest ≡ Nest.Outside (units ++ unit ∷ [])) }
{
    push(&mut units, unit)?;
    Ok(Nest::Outside { units })
}

fn unit_of(
    line: u32,
    name: Name,
    is_module: bool,
    decls: Items<Decl>,
    stmts: Items<Statement>,
    procs: Items<Procedure>,
) -> Unit
    ensures { result ≡ unit_of line name is_module decls stmts procs }
{
    if is_module {
        Unit::Module {
            line,
            name,
            decls,
            procs,
        }
    } else {
        Unit::Program {
            line,
            name,
            decls,
            stmts,
            procs,
        }
    }
}

// The unit or procedure ends.
fn closed(units: Items<Unit>, scope: Scope) -> Result<Nest, Memory>
    ensures { IfOk result (λ nest. nest ≡ closed units scope) }
{
    let Scope {
        line,
        kind,
        stage: _,
        decls,
        stmts,
    } = scope;
    match kind {
        ScopeKind::Unit {
            name,
            is_module,
            procs,
        } => with_unit(units, unit_of(line, name, is_module, decls, stmts, procs)),
        ScopeKind::Procedure { header, host } => {
            let procedure = procedure_of(line, header.into_inner(), decls, stmts);
            let scope = resumed(host.into_inner(), procedure)?;
            Ok(Nest::Scope { units, scope })
        }
    }
}

fn procedure_of(line: u32, header: Header, decls: Items<Decl>, stmts: Items<Statement>) -> Procedure
    ensures { result ≡ procedure_of line header decls stmts }
{
    let Header {
        name,
        is_function,
        type_spec,
        dummies,
        result,
    } = header;
    Procedure {
        line,
        name,
        is_function,
        type_spec,
        dummies,
        result,
        decls,
        stmts,
    }
}

pub fn level(alloc: Global, line: u32, construct: Option<Name>, parts: Parts) -> Level
    ensures { result ≡ level line construct parts }
{
    Level {
        line,
        construct,
        parts,
        stmts: Items::new(alloc),
    }
}

fn if_then(alloc: Global, line: u32, condition: Expr) -> Parts
    ensures { result ≡ Parts.If [] line (Some condition) }
{
    Parts::If {
        arms: Items::new(alloc),
        line,
        condition: Some(condition),
    }
}

fn select(alloc: Global, value: Boxed<Expr>) -> Parts
    ensures { result ≡ Parts.Select value [] None false }
{
    Parts::Select {
        value,
        cases: Items::new(alloc),
        label: None,
        has_default: false,
    }
}

// The construct that a statement of this form begins.
pub fn level_of(alloc: Global, line: u32, form: Form) -> Option<Level>
    ensures { result ≡ level_of line form }
{
    match form {
        Form::IfThen {
            construct,
            condition,
        } => { Some(level(alloc, line, construct, if_then(alloc, line, condition))) }
        Form::Do {
            construct,
            variable,
            lower,
            upper,
            step,
        } => {
            let parts = Parts::Do {
                variable,
                lower,
                upper,
                step,
            };
            Some(level(alloc, line, construct, parts))
        }
        Form::While {
            construct,
            condition,
        } => { Some(level(alloc, line, construct, Parts::While { condition })) }
        Form::Select { construct, value } => {
            Some(level(alloc, line, construct, select(alloc, value)))
        }
        other => {
            drop(other);
            None
        }
    }
}

fn opened_in_scope(alloc: Global, units: Items<Unit>, scope: Scope, inner: Option<Level>) -> Nest
    ensures { result ≡ opened_in_scope units scope inner }
{
    match inner {
        Some(level) => {
            let around = Stack::new(alloc);
            Nest::Construct {
                units,
                scope,
                level,
                around,
            }
        }
        None => Nest::Scope { units, scope },
    }
}

fn begun_in_scope(
    alloc: Global,
    units: Items<Unit>,
    mut scope: Scope,
    line: u32,
    form: Form,
) -> Result<Nest, Memory>
    ensures { IfOk result (λ nest. nest ≡ begun_in_scope units scope line form) }
{
    match form {
        Form::TypeDef { name, access } => {
            let definition = Definition::Type {
                line,
                name,
                access,
                components: Items::new(alloc),
            };
            Ok(Nest::Definition {
                units,
                scope,
                definition,
            })
        }
        Form::Interface { name } => {
            let definition = Definition::Interface {
                line,
                name,
                names: Items::new(alloc),
            };
            Ok(Nest::Definition {
                units,
                scope,
                definition,
            })
        }
        Form::Contains => {
            scope.stage = Stage::Procedures;
            Ok(Nest::Scope { units, scope })
        }
        Form::Procedure {
            name,
            is_function,
            type_spec,
            dummies,
            result,
        } => {
            let header = Header {
                name,
                is_function,
                type_spec,
                dummies,
                result,
            };
            entered(alloc, units, host_of(scope), line, header)
        }
        other => {
            let inner = level_of(alloc, line, other);
            Ok(opened_in_scope(alloc, units, scope, inner))
        }
    }
}

pub fn from_scope(
    alloc: Global,
    units: Items<Unit>,
    scope: Scope,
    line: u32,
    form: Form,
) -> Result<Nest, Memory>
    ensures { IfOk result (λ nest. nest ≡ from_scope units scope line form) }
{
    let declarations = Stage::Declarations;
    match form {
        Form::Use { used } => declared(units, scope, Stage::Uses, Decl::Use { used }),
        Form::ImplicitNone => declared(units, scope, declarations, Decl::ImplicitNone { line }),
        Form::Access { is_private, names } => {
            let decl = Decl::Access {
                line,
                is_private,
                names,
            };
            declared(units, scope, declarations, decl)
        }
        Form::Variables { vars } => {
            declared(units, scope, declarations, Decl::Variables { vars })
        }
        Form::Action { statement } => executed(units, scope, statement),
        Form::End { end: _, name } => {
            drop(name);
            closed(units, scope)
        }
        other => begun_in_scope(alloc, units, scope, line, other),
    }
}
