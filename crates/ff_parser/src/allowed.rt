//! Where a statement may stand.
ghost use Rattle.std.specs.Prelude.{◌≡◌};
ghost use Rattle.ff_parser.specs.Pieces.{is_return, returns_alone};
ghost use Rattle.ff_parser.specs.Allowed.{takes_uses, takes_declarations, takes_statements, takes_procedures, is_procedure, is_module, closes, in_scope, has_items, in_definition, has_block, takes_arm, takes_case, closes_construct, in_construct, begins_unit, is_allowed};

use crate::nest::{Definition, Level, Nest, Parts, Scope, ScopeKind, Stage};
use ast_nodes::Statement;
use ff_forms::{End, Form};
use sqlite_items::Items;

fn takes_uses(stage: Stage) -> bool
    ensures { result ≡ takes_uses stage }
{
    match stage {
        Stage::Uses => true,
        _ => false,
    }
}

fn takes_declarations(stage: Stage) -> bool
    ensures { result ≡ takes_declarations stage }
{
    match stage {
        Stage::Uses | Stage::Declarations => true,
        _ => false,
    }
}

fn takes_statements(stage: Stage) -> bool
    ensures { result ≡ takes_statements stage }
{
    match stage {
        Stage::Procedures => false,
        _ => true,
    }
}

fn takes_procedures(stage: Stage) -> bool
    ensures { result ≡ takes_procedures stage }
{
    match stage {
        Stage::Procedures => true,
        _ => false,
    }
}

fn is_procedure(kind: &ScopeKind) -> bool
    ensures { result ≡ is_procedure kind.now }
{
    match kind {
        ScopeKind::Procedure { .. } => true,
        _ => false,
    }
}

fn is_module(kind: &ScopeKind) -> bool
    ensures { result ≡ is_module kind.now }
{
    match kind {
        ScopeKind::Unit { is_module, .. } => *is_module,
        ScopeKind::Procedure { .. } => false,
    }
}

// Whether these words close a unit or a procedure of this kind.
fn closes(kind: &ScopeKind, end: End) -> bool
    ensures { result ≡ closes kind.now end }
{
    match (kind, end) {
        (_, End::Bare) => true,
        (ScopeKind::Unit { is_module, .. }, End::Program) => !*is_module,
        (ScopeKind::Unit { is_module, .. }, End::Module) => *is_module,
        (ScopeKind::Procedure { header, .. }, End::Subroutine) => header.get().is_function != 1,
        (ScopeKind::Procedure { header, .. }, End::Function) => header.get().is_function == 1,
        _ => false,
    }
}

// Whether the statement is `return`, and whether it is that or an `if` with it alone.
fn returns(statement: &Statement) -> bool
    ensures { result ≡ returns_alone statement.now }
{
    match statement {
        Statement::Return { .. } => true,
        _ => false,
    }
}

fn is_return(statement: &Statement) -> bool
    ensures { result ≡ is_return statement.now }
{
    match statement {
        Statement::Return { .. } => true,
        Statement::If { arms, .. } => match arms.as_slice() {
            [arm] => match arm.body.as_slice() {
                [action] => returns(action),
                _ => false,
            },
            _ => false,
        },
        _ => false,
    }
}

fn in_scope(scope: &Scope, form: &Form) -> bool
    ensures { result ≡ in_scope scope.now form.now }
{
    match form {
        Form::Use { .. } => takes_uses(scope.stage),
        Form::ImplicitNone | Form::Variables { .. } => takes_declarations(scope.stage),
        Form::Access { .. } => is_module(&scope.kind) && takes_declarations(scope.stage),
        Form::TypeDef { .. } | Form::Interface { .. } => {
            !is_procedure(&scope.kind) && takes_declarations(scope.stage)
        }
        Form::Action { statement } => {
            !is_module(&scope.kind)
                && takes_statements(scope.stage)
                && (is_procedure(&scope.kind) || !is_return(statement))
        }
        Form::IfThen { .. } | Form::Do { .. } | Form::While { .. } | Form::Select { .. } => {
            !is_module(&scope.kind) && takes_statements(scope.stage)
        }
        Form::Contains => !is_procedure(&scope.kind) && takes_statements(scope.stage),
        Form::Procedure { .. } => takes_procedures(scope.stage),
        Form::End { end, .. } => closes(&scope.kind, *end),
        _ => false,
    }
}

fn has_items<T>(items: &Items<T>) -> bool
    ensures { result ≡ has_items items.now }
{
    match items.as_slice() {
        [] => false,
        _ => true,
    }
}

fn in_definition(definition: &Definition, form: &Form) -> bool
    ensures { result ≡ in_definition definition.now form.now }
{
    match (definition, form) {
        (Definition::Type { .. }, Form::Variables { .. }) => true,
        (Definition::Type { components, .. }, Form::End { end: End::Type, .. }) => {
            has_items(components)
        }
        (Definition::Interface { .. }, Form::Specifics { .. }) => true,
        (
            Definition::Interface { names, .. },
            Form::End {
                end: End::Interface,
                ..
            },
        ) => { has_items(names) }
        _ => false,
    }
}

// Whether a block is open, so that statements may follow.
fn has_block(parts: &Parts) -> bool
    ensures { result ≡ has_block parts.now }
{
    match parts {
        Parts::Select { label: None, .. } => false,
        _ => true,
    }
}

fn takes_arm(parts: &Parts) -> bool
    ensures { result ≡ takes_arm parts.now }
{
    match parts {
        Parts::If {
            condition: Some(_),
            ..
        } => true,
        _ => false,
    }
}

fn takes_case(parts: &Parts, is_default: bool) -> bool
    ensures { result ≡ takes_case parts.now is_default }
{
    match parts {
        Parts::Select { has_default, .. } => !(is_default && *has_default),
        _ => false,
    }
}

// Whether these words close a construct of this kind.
fn closes_construct(parts: &Parts, end: End) -> bool
    ensures { result ≡ closes_construct parts.now end }
{
    match (parts, end) {
        (Parts::If { .. }, End::If) => true,
        (Parts::Do { .. }, End::Do) => true,
        (Parts::While { .. }, End::Do) => true,
        (Parts::Select { .. }, End::Select) => true,
        _ => false,
    }
}

fn in_construct(scope: &Scope, level: &Level, form: &Form) -> bool
    ensures { result ≡ in_construct scope.now level.now form.now }
{
    match form {
        Form::Action { statement } => {
            has_block(&level.parts) && (is_procedure(&scope.kind) || !is_return(statement))
        }
        Form::IfThen { .. } | Form::Do { .. } | Form::While { .. } | Form::Select { .. } => {
            has_block(&level.parts)
        }
        Form::ElseIf { .. } | Form::Else { .. } => takes_arm(&level.parts),
        Form::Case { is_default, .. } => takes_case(&level.parts, *is_default == 1),
        Form::End { end, .. } => closes_construct(&level.parts, *end),
        _ => false,
    }
}

fn begins_unit(form: &Form) -> bool
    ensures { result ≡ begins_unit form.now }
{
    match form {
        Form::Program { .. } | Form::Module { .. } => true,
        _ => false,
    }
}

/// Whether a statement of this form may stand here.
pub fn is_allowed(nest: &Nest, form: &Form) -> bool
    ensures { result ≡ is_allowed nest.now form.now }
{
    match nest {
        Nest::Outside { .. } => begins_unit(form),
        Nest::Scope { scope, .. } => in_scope(scope, form),
        Nest::Definition { definition, .. } => in_definition(definition, form),
        Nest::Construct { scope, level, .. } => in_construct(scope, level, form),
    }
}
