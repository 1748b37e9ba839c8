//! What is open behind a statement in a definition or a construct.
ghost use Rattle.std.specs.Prelude.{◌≡◌, [], ◌∷◌, ◌++◌, Some, IfOk};
ghost use Rattle.ff_parser.specs.Pieces.{arm};
ghost use Rattle.ff_parser.specs.Taken.{Follows, level, decl_of, with_component, with_specifics, from_definition, with_open, construct_of, statement_of, within, closed_construct, next_arm, next_case, next_block, opened_in_level, from_construct};

use crate::nest::{Definition, Label, Level, Nest, Parts, Scope, Stage};
use crate::stack::Stack;
use crate::take::{declared, executed, level, level_of, push};
use ast_nodes::{Arm, Case, Decl, Expr, Statement, Unit, Vars};
use ff_forms::Form;
use lf_base::{Memory, Name};
use sqlite_items::{Boxed, Items};
use std::alloc::Global;

fn decl_of(definition: Definition) -> Decl
    ensures { result ≡ decl_of definition }
{
    match definition {
        Definition::Type {
            line,
            name,
            access,
            components,
        } => Decl::TypeDef {
            line,
            name,
            access,
            components,
        },
        Definition::Interface { line, name, names } => Decl::Interface { line, name, names },
    }
}

fn with_vars(mut components: Items<Vars>, vars: Vars) -> Result<Items<Vars>, Memory>
    ensures { IfOk result (λ all. all ≡ components ++ vars ∷ []) }
{
    push(&mut components, vars)?;
    Ok(components)
}

fn with_names(mut names: Items<Name>, more: Items<Name>) -> Result<Items<Name>, Memory>
    ensures { IfOk result (λ all. all ≡ names ++ more) }
{
    names.append(more)?;
    Ok(names)
}

fn derived_type(
    line: u32,
    name: Name,
    access: u8,
    components: Result<Items<Vars>, Memory>,
) -> Result<Definition, Memory>
    ensures { Follows result components (λ all. Definition.Type line name access all) }
{
    match components {
        Ok(components) => Ok(Definition::Type {
            line,
            name,
            access,
            components,
        }),
        Err(memory) => Err(memory),
    }
}

fn interface(
    line: u32,
    name: Name,
    names: Result<Items<Name>, Memory>,
) -> Result<Definition, Memory>
    ensures { Follows result names (λ all. Definition.Interface line name all) }
{
    match names {
        Ok(names) => Ok(Definition::Interface { line, name, names }),
        Err(memory) => Err(memory),
    }
}

fn with_component(definition: Definition, vars: Vars) -> Result<Definition, Memory>
    ensures { IfOk result (λ more. more ≡ with_component definition vars) }
{
    match definition {
        Definition::Type {
            line,
            name,
            access,
            components,
        } => derived_type(line, name, access, with_vars(components, vars)),
        other => {
            drop(vars);
            Ok(other)
        }
    }
}

fn with_specifics(definition: Definition, specifics: Items<Name>) -> Result<Definition, Memory>
    ensures { IfOk result (λ more. more ≡ with_specifics definition specifics) }
{
    match definition {
        Definition::Interface { line, name, names } => {
            interface(line, name, with_names(names, specifics))
        }
        other => {
            drop(specifics);
            Ok(other)
        }
    }
}

// The definition goes on.
fn defining(
    units: Items<Unit>,
    scope: Scope,
    definition: Result<Definition, Memory>,
) -> Result<Nest, Memory>
    ensures { Follows result definition (λ d. Nest.Definition units scope d) }
{
    match definition {
        Ok(definition) => Ok(Nest::Definition {
            units,
            scope,
            definition,
        }),
        Err(memory) => Err(memory),
    }
}

/// Behind a statement in a type or an interface.
pub fn from_definition(
    units: Items<Unit>,
    scope: Scope,
    definition: Definition,
    form: Form,
) -> Result<Nest, Memory>
    ensures { IfOk result (λ nest. nest ≡ from_definition units scope definition form) }
{
    match form {
        Form::Variables { vars } => defining(units, scope, with_component(definition, vars)),
        Form::Specifics { names } => defining(units, scope, with_specifics(definition, names)),
        Form::End { end: _, name } => {
            drop(name);
            declared(units, scope, Stage::Declarations, decl_of(definition))
        }
        other => {
            drop(other);
            Ok(Nest::Definition {
                units,
                scope,
                definition,
            })
        }
    }
}

fn with_case(
    mut cases: Items<Case>,
    label: Label,
    stmts: Items<Statement>,
) -> Result<Items<Case>, Memory>
    ensures { IfOk result (λ all. all ≡ with_open cases (Some label) stmts) }
{
    let Label {
        line,
        is_default,
        ranges,
    } = label;
    let case = Case {
        line,
        is_default,
        ranges,
        body: stmts,
    };
    push(&mut cases, case)?;
    Ok(cases)
}

// The cases with the open one.
fn with_open(
    cases: Items<Case>,
    label: Option<Label>,
    stmts: Items<Statement>,
) -> Result<Items<Case>, Memory>
    ensures { IfOk result (λ all. all ≡ with_open cases label stmts) }
{
    match label {
        Some(label) => with_case(cases, label, stmts),
        None => {
            drop(stmts);
            Ok(cases)
        }
    }
}

fn with_arm(
    mut arms: Items<Arm>,
    line: u32,
    condition: Option<Expr>,
    stmts: Items<Statement>,
) -> Result<Items<Arm>, Memory>
    ensures { IfOk result (λ all. all ≡ arms ++ arm line condition stmts ∷ []) }
{
    let arm = Arm {
        line,
        condition,
        body: stmts,
    };
    push(&mut arms, arm)?;
    Ok(arms)
}

fn conditional(
    line: u32,
    construct: Option<Name>,
    arms: Result<Items<Arm>, Memory>,
) -> Result<Statement, Memory>
    ensures { Follows result arms (λ all. Statement.If line construct all) }
{
    match arms {
        Ok(arms) => Ok(Statement::If {
            line,
            construct,
            arms,
        }),
        Err(memory) => Err(memory),
    }
}

fn selection(
    line: u32,
    construct: Option<Name>,
    value: Boxed<Expr>,
    cases: Result<Items<Case>, Memory>,
) -> Result<Statement, Memory>
    ensures { Follows result cases (λ all. Statement.Select line construct value all) }
{
    match cases {
        Ok(cases) => Ok(Statement::Select {
            line,
            construct,
            value,
            cases,
        }),
        Err(memory) => Err(memory),
    }
}

// The construct whose last block these statements are.
fn construct_of(
    line: u32,
    construct: Option<Name>,
    parts: Parts,
    stmts: Items<Statement>,
) -> Result<Statement, Memory>
    ensures { IfOk result (λ statement. statement ≡ construct_of line construct parts stmts) }
{
    match parts {
        Parts::If {
            arms,
            line: arm_line,
            condition,
        } => conditional(line, construct, with_arm(arms, arm_line, condition, stmts)),
        Parts::Do {
            variable,
            lower,
            upper,
            step,
        } => Ok(Statement::Do {
            line,
            construct,
            variable,
            lower,
            upper,
            step,
            body: stmts,
        }),
        Parts::While { condition } => Ok(Statement::While {
            line,
            construct,
            condition,
            body: stmts,
        }),
        Parts::Select {
            value,
            cases,
            label,
            has_default: _,
        } => selection(line, construct, value, with_open(cases, label, stmts)),
    }
}

fn statement_of(level: Level) -> Result<Statement, Memory>
    ensures { IfOk result (λ statement. statement ≡ statement_of level) }
{
    let Level {
        line,
        construct,
        parts,
        stmts,
    } = level;
    construct_of(line, construct, parts, stmts)
}

fn within(mut level: Level, statement: Statement) -> Result<Level, Memory>
    ensures { IfOk result (λ more. more ≡ within level statement) }
{
    push(&mut level.stmts, statement)?;
    Ok(level)
}

// The construct goes on.
fn constructing(
    units: Items<Unit>,
    scope: Scope,
    level: Result<Level, Memory>,
    around: Stack<Level>,
) -> Result<Nest, Memory>
    ensures { Follows result level (λ l. Nest.Construct units scope l around) }
{
    match level {
        Ok(level) => Ok(Nest::Construct {
            units,
            scope,
            level,
            around,
        }),
        Err(memory) => Err(memory),
    }
}

// The innermost construct is a statement of what is around it.
fn closed_construct(
    units: Items<Unit>,
    scope: Scope,
    statement: Statement,
    mut around: Stack<Level>,
) -> Result<Nest, Memory>
    ensures { IfOk result (λ nest. nest ≡ closed_construct units scope statement around) }
{
    match around.pop() {
        Some(outer) => constructing(units, scope, within(outer, statement), around),
        None => executed(units, scope, statement),
    }
}

fn ended_construct(
    units: Items<Unit>,
    scope: Scope,
    level: Level,
    around: Stack<Level>,
) -> Result<Nest, Memory>
    ensures { IfOk result (λ nest. nest ≡ closed_construct units scope (statement_of level) around) }
{
    match statement_of(level) {
        Ok(statement) => closed_construct(units, scope, statement, around),
        Err(memory) => Err(memory),
    }
}

fn armed(
    arms: Result<Items<Arm>, Memory>,
    line: u32,
    condition: Option<Expr>,
) -> Result<Parts, Memory>
    ensures { Follows result arms (λ all. Parts.If all line condition) }
{
    match arms {
        Ok(arms) => Ok(Parts::If {
            arms,
            line,
            condition,
        }),
        Err(memory) => Err(memory),
    }
}

// `else if` and `else` begin a block of an `if`.
fn next_arm(
    parts: Parts,
    stmts: Items<Statement>,
    line: u32,
    next: Option<Expr>,
) -> Result<Parts, Memory>
    ensures { IfOk result (λ more. more ≡ next_arm parts stmts line next) }
{
    match parts {
        Parts::If {
            arms,
            line: arm_line,
            condition,
        } => armed(with_arm(arms, arm_line, condition, stmts), line, next),
        other => {
            drop(stmts);
            drop(next);
            Ok(other)
        }
    }
}

fn labelled(
    value: Boxed<Expr>,
    cases: Result<Items<Case>, Memory>,
    next: Label,
    has_default: bool,
) -> Result<Parts, Memory>
    ensures { Follows result cases (λ all. Parts.Select value all (Some next) has_default) }
{
    match cases {
        Ok(cases) => Ok(Parts::Select {
            value,
            cases,
            label: Some(next),
            has_default,
        }),
        Err(memory) => Err(memory),
    }
}

// `case` begins a block of a `select case`.
fn next_case(parts: Parts, stmts: Items<Statement>, next: Label) -> Result<Parts, Memory>
    ensures { IfOk result (λ more. more ≡ next_case parts stmts next) }
{
    match parts {
        Parts::Select {
            value,
            cases,
            label,
            has_default,
        } => {
            let has_default = has_default || next.is_default == 1;
            labelled(value, with_open(cases, label, stmts), next, has_default)
        }
        other => {
            drop(stmts);
            drop(next);
            Ok(other)
        }
    }
}

fn behind_part(
    alloc: Global,
    line: u32,
    construct: Option<Name>,
    parts: Result<Parts, Memory>,
) -> Result<Level, Memory>
    ensures { Follows result parts (λ next. level line construct next) }
{
    match parts {
        Ok(parts) => Ok(level(alloc, line, construct, parts)),
        Err(memory) => Err(memory),
    }
}

fn with_next_arm(
    alloc: Global,
    current: Level,
    line: u32,
    next: Option<Expr>,
) -> Result<Level, Memory>
    ensures { IfOk result (λ more. more ≡ next_block current (next_arm current.parts current.stmts line next)) }
{
    let Level {
        line: first,
        construct,
        parts,
        stmts,
    } = current;
    behind_part(alloc, first, construct, next_arm(parts, stmts, line, next))
}

fn with_next_case(alloc: Global, current: Level, next: Label) -> Result<Level, Memory>
    ensures { IfOk result (λ more. more ≡ next_block current (next_case current.parts current.stmts next)) }
{
    let Level {
        line,
        construct,
        parts,
        stmts,
    } = current;
    behind_part(alloc, line, construct, next_case(parts, stmts, next))
}

fn deeper(
    inner: Level,
    outer: Level,
    mut around: Stack<Level>,
) -> Result<(Level, Stack<Level>), Memory>
    ensures { IfOk result (λ levels. levels ≡ (inner, outer ∷ around)) }
{
    around.push(outer)?;
    Ok((inner, around))
}

fn deepened(
    units: Items<Unit>,
    scope: Scope,
    levels: Result<(Level, Stack<Level>), Memory>,
) -> Result<Nest, Memory>
    ensures { Follows result levels (λ all. Nest.Construct units scope all.0 all.1) }
{
    match levels {
        Ok((level, around)) => Ok(Nest::Construct {
            units,
            scope,
            level,
            around,
        }),
        Err(memory) => Err(memory),
    }
}

// A construct begins in another one.
fn opened_in_level(
    units: Items<Unit>,
    scope: Scope,
    outer: Level,
    around: Stack<Level>,
    inner: Option<Level>,
) -> Result<Nest, Memory>
    ensures { IfOk result (λ nest. nest ≡ opened_in_level units scope outer around inner) }
{
    match inner {
        Some(level) => deepened(units, scope, deeper(level, outer, around)),
        None => Ok(Nest::Construct {
            units,
            scope,
            level: outer,
            around,
        }),
    }
}

/// Behind a statement in a construct.
pub fn from_construct(
    alloc: Global,
    units: Items<Unit>,
    scope: Scope,
    level: Level,
    around: Stack<Level>,
    line: u32,
    form: Form,
) -> Result<Nest, Memory>
    ensures { IfOk result (λ nest. nest ≡ from_construct units scope level around line form) }
{
    match form {
        Form::Action { statement } => {
            constructing(units, scope, within(level, statement), around)
        }
        Form::ElseIf {
            construct,
            condition,
        } => {
            drop(construct);
            let level = with_next_arm(alloc, level, line, Some(condition));
            constructing(units, scope, level, around)
        }
        Form::Else { construct } => {
            drop(construct);
            let level = with_next_arm(alloc, level, line, None);
            constructing(units, scope, level, around)
        }
        Form::Case {
            construct,
            is_default,
            ranges,
        } => {
            drop(construct);
            let next = Label {
                line,
                is_default,
                ranges,
            };
            constructing(units, scope, with_next_case(alloc, level, next), around)
        }
        Form::End { end: _, name } => {
            drop(name);
            ended_construct(units, scope, level, around)
        }
        other => {
            let inner = level_of(alloc, line, other);
            opened_in_level(units, scope, level, around, inner)
        }
    }
}
