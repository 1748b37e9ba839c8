//! The names that ends and parts say, and how deep constructs are nested.
ghost use Rattle.std.specs.Prelude.{◌≡◌};
ghost use Rattle.std.specs.Option.{option_copied};
ghost use Rattle.ff_parser.specs.Pieces.{agrees};
ghost use Rattle.ff_parser.specs.Names.{name_of, name_of_definition, said, own_name, is_named, begins_construct, is_full};

use crate::nest::{Definition, Nest, ScopeKind};
use ff_forms::Form;
use lf_base::Name;

// With the innermost one they are 64.
const GREATEST_AROUND: usize = 63;

fn name_of(kind: &ScopeKind) -> &Name
    ensures { result.now ≡ name_of kind.now }
{
    match kind {
        ScopeKind::Unit { name, .. } => name,
        ScopeKind::Procedure { header, .. } => &header.get().name,
    }
}

fn name_of_definition(definition: &Definition) -> &Name
    ensures { result.now ≡ name_of_definition definition.now }
{
    match definition {
        Definition::Type { name, .. } | Definition::Interface { name, .. } => name,
    }
}

fn said(form: &Form) -> Option<&Name>
    ensures { option_copied result ≡ said form.now }
{
    match form {
        Form::End { name, .. } => name.as_ref(),
        Form::ElseIf { construct, .. } => construct.as_ref(),
        Form::Else { construct } => construct.as_ref(),
        Form::Case { construct, .. } => construct.as_ref(),
        _ => None,
    }
}

fn own_name(nest: &Nest) -> Option<&Name>
    ensures { option_copied result ≡ own_name nest.now }
{
    match nest {
        Nest::Outside { .. } => None,
        Nest::Scope { scope, .. } => Some(name_of(&scope.kind)),
        Nest::Definition { definition, .. } => Some(name_of_definition(definition)),
        Nest::Construct { level, .. } => level.construct.as_ref(),
    }
}

fn agrees(said: Option<&Name>, own: Option<&Name>) -> bool
    ensures { result ≡ agrees (option_copied said.entry) (option_copied own.entry) }
{
    match (said, own) {
        (None, _) => true,
        (Some(_), None) => false,
        (Some(said), Some(own)) => said.bytes() == own.bytes(),
    }
}

/// Whether a statement says no name, or that of what it stands in.
pub fn is_named(nest: &Nest, form: &Form) -> bool
    ensures { result ≡ is_named nest.now form.now }
{
    agrees(said(form), own_name(nest))
}

/// Whether a statement of this form begins a construct.
pub fn begins_construct(form: &Form) -> bool
    ensures { result ≡ begins_construct form.now }
{
    match form {
        Form::IfThen { .. } | Form::Do { .. } | Form::While { .. } | Form::Select { .. } => true,
        _ => false,
    }
}

/// Whether as many constructs are open as may be.
pub fn is_full(nest: &Nest) -> bool
    ensures { result ≡ is_full nest.now }
{
    match nest {
        Nest::Construct { around, .. } => GREATEST_AROUND <= around.len(),
        _ => false,
    }
}
