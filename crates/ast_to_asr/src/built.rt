//! Which forms have a tree so far.
ghost use Rattle.std.specs.Prelude.{◌≡◌, map};
ghost use Rattle.std.specs.List.{list_all};
ghost use Rattle.ast_to_asr.specs.Built.{is_function, is_named, names_function, groups_built, part_of, is_built, may_be_built, is_name_alone, first_of, first_in, unless_built, is_form, unbuilt_in, unbuilt_arm, is_built_type, is_built_attribute, is_built_entity, are_built, unbuilt_declaration, unbuilt_procedures, unbuilt_unit, unit_line, unbuilt_file, parts_are_built};

use ast_nodes::code::{FORMAT_INTEGER, FORMAT_LIST};
use ast_nodes::{
    Arm, Attribute, Decl, Designator, Entity, Expr, File, Procedure, RefPart, Statement, TypeSpec,
    Unit, Vars,
};
use lf_base::operator::CONCATENATE;
use sqlite_items::Boxed;

/// Whether a name is that of a function of scalars (ISO/IEC 1539-1:2018, 16.9).
fn is_function(name: &[u8]) -> bool
    ensures { result ≡ is_function name.now }
{
    name == b"abs".as_slice()
        || name == b"mod".as_slice()
        || name == b"modulo".as_slice()
        || name == b"min".as_slice()
        || name == b"max".as_slice()
        || name == b"sign".as_slice()
        || name == b"int".as_slice()
        || name == b"huge".as_slice()
}

#[cycle(built)]
fn are_built_expressions(exprs: &[Expr]) -> bool
    ensures { result ≡ list_all is_built exprs.now }
{
    for expr in exprs {
        if !is_built(expr) {
            return false;
        }
    }
    true
}

fn is_named(part: &RefPart) -> bool
    ensures { result ≡ is_named (part_of part.now) }
{
    match part {
        RefPart::Part { .. } => true,
        RefPart::Group { .. } => false,
    }
}

fn names_function(part: &RefPart) -> bool
    ensures { result ≡ names_function (part_of part.now) }
{
    match part {
        RefPart::Part { name } => is_function(name.bytes()),
        RefPart::Group { .. } => false,
    }
}

#[cycle(built)]
#[tactic(auto, using(crate::proofs::Arguments::grouped))]
fn groups_built(part: &RefPart) -> bool
    ensures { result ≡ groups_built (part_of part.now) }
{
    match part {
        RefPart::Part { .. } => false,
        RefPart::Group { arguments } => are_built_expressions(arguments.as_slice()),
    }
}

#[cycle(built)]
fn is_built_designator(designator: &Designator) -> bool
    ensures { result ≡ parts_are_built designator.now.parts }
{
    match designator.parts.as_slice() {
        [] => false,
        [name] => is_named(name),
        [name, group] => names_function(name) && groups_built(group),
        [_, _, _, ..] => false,
    }
}

/// Whether an expression has a tree so far, where it breaks no rule.
#[cycle(built)]
fn is_built(expr: &Expr) -> bool
    ensures { result ≡ is_built expr.now }
{
    match expr {
        Expr::Int { .. } | Expr::Log { .. } => true,
        Expr::Ref { designator } => is_built_designator(designator),
        Expr::Unary { operand, .. } => is_built(operand.get()),
        Expr::Binary {
            operator,
            left,
            right,
        } => *operator != CONCATENATE && is_built(left.get()) && is_built(right.get()),
        Expr::Paren { inner } => is_built(inner.get()),
        Expr::Char { .. } | Expr::Triple { .. } | Expr::Array { .. } | Expr::Loop { .. } => false,
    }
}

/// The same of an expression that may be missing.
fn may_be_built(expr: &Option<Expr>) -> bool
    ensures { result ≡ may_be_built expr.now }
{
    match expr {
        None => true,
        Some(expr) => is_built(expr),
    }
}

fn may_be_built_operand(expr: &Option<Boxed<Expr>>) -> bool
    ensures { result ≡ may_be_built expr.now }
{
    match expr {
        None => true,
        Some(expr) => is_built(expr.get()),
    }
}

fn first_of(first: Option<u32>, later: Option<u32>) -> Option<u32>
    ensures { result ≡ first_of first later }
{
    match first {
        Some(line) => Some(line),
        None => later,
    }
}

fn is_name_alone(target: &Designator) -> bool
    ensures { result ≡ is_name_alone target.now.parts }
{
    matches!(target.parts.as_slice(), [RefPart::Part { .. }])
}

/// The line of a statement, unless it is built.
fn unless_built(is_built: bool, line: u32) -> Option<u32>
    ensures { result ≡ unless_built is_built line }
{
    if is_built { None } else { Some(line) }
}

#[cycle(statement)]
fn unbuilt_block(statements: &[Statement]) -> Option<u32>
    ensures { result ≡ first_in (map unbuilt_in statements.now) }
{
    for statement in statements {
        if let Some(line) = unbuilt_statement(statement) {
            return Some(line);
        }
    }
    None
}

#[cycle(statement)]
fn unbuilt_arms(arms: &[Arm]) -> Option<u32>
    ensures { result ≡ first_in (map unbuilt_arm arms.now) }
{
    for arm in arms {
        if let Some(line) = unbuilt_arm(arm) {
            return Some(line);
        }
    }
    None
}

#[cycle(statement)]
fn unbuilt_arm(arm: &Arm) -> Option<u32>
    ensures { result ≡ unbuilt_arm arm.now }
{
    if may_be_built(&arm.condition) {
        unbuilt_block(arm.body.as_slice())
    } else {
        Some(arm.line)
    }
}

fn is_form(form: u8) -> bool
    ensures { result ≡ is_form form }
{
    form == FORMAT_LIST || form == FORMAT_INTEGER
}

#[cycle(statement)]
fn unbuilt_statement(statement: &Statement) -> Option<u32>
    ensures { result ≡ unbuilt_in statement.now }
{
    match statement {
        Statement::Assign {
            line,
            target,
            value,
        } => unless_built(is_name_alone(target) && is_built(value), *line),
        Statement::If { arms, .. } => unbuilt_arms(arms.as_slice()),
        Statement::Do {
            line,
            lower,
            upper,
            step,
            body,
            ..
        } => {
            if is_built(lower.get()) && is_built(upper.get()) && may_be_built_operand(step) {
                unbuilt_block(body.as_slice())
            } else {
                Some(*line)
            }
        }
        Statement::While {
            line,
            condition,
            body,
            ..
        } => {
            if may_be_built_operand(condition) {
                unbuilt_block(body.as_slice())
            } else {
                Some(*line)
            }
        }
        Statement::Print {
            line,
            form,
            items,
            ..
        } => unless_built(
            is_form(*form) && are_built_expressions(items.as_slice()),
            *line,
        ),
        Statement::Stop { line, code, .. } => unless_built(may_be_built(code), *line),
        Statement::Exit { .. } | Statement::Cycle { .. } | Statement::Continue { .. } => None,
        Statement::Select { line, .. }
        | Statement::Call { line, .. }
        | Statement::Read { line, .. }
        | Statement::Return { line } => Some(*line),
    }
}

fn is_built_type(ty: &TypeSpec) -> bool
    ensures { result ≡ is_built_type ty.now }
{
    match ty {
        TypeSpec::Integer { .. } | TypeSpec::Logical => true,
        TypeSpec::Character { .. } | TypeSpec::Derived { .. } => false,
    }
}

fn is_built_attribute(attribute: &Attribute) -> bool
    ensures { result ≡ is_built_attribute attribute.now }
{
    match attribute {
        Attribute::Parameter | Attribute::Save => true,
        Attribute::Private
        | Attribute::Public
        | Attribute::Dimension { .. }
        | Attribute::Intent { .. } => false,
    }
}

fn are_built_attributes(attributes: &[Attribute]) -> bool
    ensures { result ≡ list_all is_built_attribute attributes.now }
{
    for attribute in attributes {
        if !is_built_attribute(attribute) {
            return false;
        }
    }
    true
}

fn are_built_entities(entities: &[Entity]) -> bool
    ensures { result ≡ list_all is_built_entity entities.now }
{
    for entity in entities {
        if !entity.bounds.is_empty() || !may_be_built(&entity.init) {
            return false;
        }
    }
    true
}

fn are_built(vars: &Vars) -> bool
    ensures { result ≡ are_built vars.now }
{
    is_built_type(&vars.type_spec)
        && are_built_attributes(vars.attributes.as_slice())
        && are_built_entities(vars.entities.as_slice())
}

fn unbuilt_declaration(declaration: &Decl) -> Option<u32>
    ensures { result ≡ unbuilt_declaration declaration.now }
{
    match declaration {
        Decl::Variables { vars } => unless_built(are_built(vars), vars.line),
        Decl::ImplicitNone { .. } => None,
        Decl::Use { used } => Some(used.line),
        Decl::Access { line, .. } | Decl::TypeDef { line, .. } | Decl::Interface { line, .. } => {
            Some(*line)
        }
    }
}

fn unbuilt_declarations(declarations: &[Decl]) -> Option<u32>
    ensures { result ≡ first_in (map unbuilt_declaration declarations.now) }
{
    for declaration in declarations {
        if let Some(line) = unbuilt_declaration(declaration) {
            return Some(line);
        }
    }
    None
}

fn unbuilt_procedures(procedures: &[Procedure]) -> Option<u32>
    ensures { result ≡ unbuilt_procedures procedures.now }
{
    match procedures {
        [] => None,
        [procedure, ..] => Some(procedure.line),
    }
}

fn unbuilt_unit(unit: &Unit) -> Option<u32>
    ensures { result ≡ unbuilt_unit unit.now }
{
    match unit {
        Unit::Program {
            decls,
            stmts,
            procs,
            ..
        } => {
            let behind = first_of(
                unbuilt_block(stmts.as_slice()),
                unbuilt_procedures(procs.as_slice()),
            );
            first_of(unbuilt_declarations(decls.as_slice()), behind)
        }
        Unit::Module { line, .. } => Some(*line),
    }
}

fn unit_line(unit: &Unit) -> u32
    ensures { result ≡ unit_line unit.now }
{
    match unit {
        Unit::Program { line, .. } | Unit::Module { line, .. } => *line,
    }
}

/// The line of the first statement in reading order that holds a form which has no tree yet, if there is one: of a file with
/// one main program of scalar integers and logicals and its control, and of a file without units, there is none. It takes no
/// memory.
pub fn unbuilt(file: &File) -> Option<u32>
    ensures { result ≡ unbuilt_file file.now }
{
    match file.units.as_slice() {
        [] => None,
        [unit] => unbuilt_unit(unit),
        [unit, second, ..] => first_of(unbuilt_unit(unit), Some(unit_line(second))),
    }
}
