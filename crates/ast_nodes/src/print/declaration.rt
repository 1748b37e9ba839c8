//! Declarations.

ghost use Rattle.std.specs.Prelude.{[], ◌∷◌, codes, option_map};
ghost use Rattle.std.specs.Fmt.{decimal};
ghost use Rattle.lf_base.specs.Contents.{joined};
ghost use Rattle.ast_nodes.specs.Prints.{Prints};
ghost use Rattle.ast_nodes.specs.Node.{behind_blank, node, listed, optional};
ghost use Rattle.ast_nodes.specs.Text.{bound_text, bound_texts, length_text, type_text, attribute_text, attribute_texts, entity_text, entity_texts, vars_text, component_texts, rename_text, rename_texts, use_text, decl_text, decl_texts};

use crate::declaration::{Attribute, Bound, Decl, Entity, Length, Rename, TypeSpec, UseStmt, Vars};
use crate::print::expression::put_operand;
use crate::print::field::{Field, put_node, put_optional_expr};
use crate::print::piece::{Ended, put, put_missing, put_name, put_number, put_tag};
use lf_base::{Name, Sink};

#[tactic(auto, using(crate::proofs::Chains::chains))]
fn put_led_bound<O: Sink>(before: Ended, out: &mut O, lead: &[u8], bound: &Bound) -> Ended
    ensures { Prints O.contents O.faults O.may_fail O.takes_memory O.keeps before result out.old out.new (joined (lead.now ∷ bound_text bound.now ∷ [])) }
{
    let ended = put(before, out, lead);
    put_node(
        ended,
        out,
        b"Bound",
        &[
            Field::OptionalValue(&bound.lower),
            Field::OptionalValue(&bound.upper),
        ],
    )
}

#[tactic(auto, using(crate::proofs::Chains::lists))]
fn put_bounds<O: Sink>(before: Ended, out: &mut O, bounds: &[Bound]) -> Ended
    ensures { Prints O.contents O.faults O.may_fail O.takes_memory O.keeps before result out.old out.new (behind_blank (listed (bound_texts bounds.now))) }
{
    let mut ended = put(before, out, b" [");
    let mut lead: &[u8] = b"";
    for bound in bounds {
        ended = put_led_bound(ended, out, lead, bound);
        lead = b" ";
    }
    put(ended, out, b"]")
}

#[tactic(auto, using(crate::proofs::Chains::chains))]
fn put_star<O: Sink>(before: Ended, out: &mut O) -> Ended
    ensures { Prints O.contents O.faults O.may_fail O.takes_memory O.keeps before result out.old out.new (behind_blank (node (codes "Star") [])) }
{
    let ended = put(before, out, b" ");
    put_node(ended, out, b"Star", &[])
}

fn put_optional_length<O: Sink>(before: Ended, out: &mut O, length: &Option<Length>) -> Ended
    ensures { Prints O.contents O.faults O.may_fail O.takes_memory O.keeps before result out.old out.new (behind_blank (optional (option_map length_text length.now))) }
{
    match length {
        None => put_missing(before, out),
        Some(Length::Star) => put_star(before, out),
        Some(Length::Given { value }) => put_operand(before, out, value),
    }
}

#[tactic(auto, using(crate::proofs::Chains::chains))]
fn put_character<O: Sink>(before: Ended, out: &mut O, length: &Option<Length>) -> Ended
    ensures { Prints O.contents O.faults O.may_fail O.takes_memory O.keeps before result out.old out.new (node (codes "Character") (optional (option_map length_text length.now) ∷ [])) }
{
    let ended = put_tag(before, out, b"Character");
    let ended = put_optional_length(ended, out, length);
    put(ended, out, b")")
}

fn put_type<O: Sink>(before: Ended, out: &mut O, type_spec: &TypeSpec) -> Ended
    ensures { Prints O.contents O.faults O.may_fail O.takes_memory O.keeps before result out.old out.new (type_text type_spec.now) }
{
    match type_spec {
        TypeSpec::Integer { kind } => put_node(
            before,
            out,
            b"Integer",
            &[Field::Number(u32::from(*kind))],
        ),
        TypeSpec::Logical => put_node(before, out, b"Logical", &[]),
        TypeSpec::Character { length } => put_character(before, out, length),
        TypeSpec::Derived { name } => put_node(before, out, b"Derived", &[Field::Word(name)]),
    }
}

#[tactic(auto, using(crate::proofs::Chains::chains))]
fn put_led_type<O: Sink>(before: Ended, out: &mut O, lead: &[u8], type_spec: &TypeSpec) -> Ended
    ensures { Prints O.contents O.faults O.may_fail O.takes_memory O.keeps before result out.old out.new (joined (lead.now ∷ type_text type_spec.now ∷ [])) }
{
    let ended = put(before, out, lead);
    put_type(ended, out, type_spec)
}

pub(crate) fn put_optional_type<O: Sink>(
    before: Ended,
    out: &mut O,
    type_spec: &Option<TypeSpec>,
) -> Ended
    ensures { Prints O.contents O.faults O.may_fail O.takes_memory O.keeps before result out.old out.new (behind_blank (optional (option_map type_text type_spec.now))) }
{
    match type_spec {
        Some(type_spec) => put_led_type(before, out, b" ", type_spec),
        None => put_missing(before, out),
    }
}

#[tactic(auto, using(crate::proofs::Chains::chains))]
fn put_dimension<O: Sink>(before: Ended, out: &mut O, bounds: &[Bound]) -> Ended
    ensures { Prints O.contents O.faults O.may_fail O.takes_memory O.keeps before result out.old out.new (node (codes "Dimension") (listed (bound_texts bounds.now) ∷ [])) }
{
    let ended = put_tag(before, out, b"Dimension");
    let ended = put_bounds(ended, out, bounds);
    put(ended, out, b")")
}

fn put_attribute<O: Sink>(before: Ended, out: &mut O, attribute: &Attribute) -> Ended
    ensures { Prints O.contents O.faults O.may_fail O.takes_memory O.keeps before result out.old out.new (attribute_text attribute.now) }
{
    match attribute {
        Attribute::Parameter => put_node(before, out, b"Parameter", &[]),
        Attribute::Save => put_node(before, out, b"Save", &[]),
        Attribute::Private => put_node(before, out, b"Private", &[]),
        Attribute::Public => put_node(before, out, b"Public", &[]),
        Attribute::Dimension { bounds } => put_dimension(before, out, bounds.as_slice()),
        Attribute::Intent { code } => put_node(
            before,
            out,
            b"Intent",
            &[Field::Number(u32::from(*code))],
        ),
    }
}

#[tactic(auto, using(crate::proofs::Chains::chains))]
fn put_led_attribute<O: Sink>(
    before: Ended,
    out: &mut O,
    lead: &[u8],
    attribute: &Attribute,
) -> Ended
    ensures { Prints O.contents O.faults O.may_fail O.takes_memory O.keeps before result out.old out.new (joined (lead.now ∷ attribute_text attribute.now ∷ [])) }
{
    let ended = put(before, out, lead);
    put_attribute(ended, out, attribute)
}

#[tactic(auto, using(crate::proofs::Chains::lists))]
fn put_attributes<O: Sink>(before: Ended, out: &mut O, attributes: &[Attribute]) -> Ended
    ensures { Prints O.contents O.faults O.may_fail O.takes_memory O.keeps before result out.old out.new (behind_blank (listed (attribute_texts attributes.now))) }
{
    let mut ended = put(before, out, b" [");
    let mut lead: &[u8] = b"";
    for attribute in attributes {
        ended = put_led_attribute(ended, out, lead, attribute);
        lead = b" ";
    }
    put(ended, out, b"]")
}

#[tactic(auto, using(crate::proofs::Chains::chains))]
fn put_entity<O: Sink>(before: Ended, out: &mut O, entity: &Entity) -> Ended
    ensures { Prints O.contents O.faults O.may_fail O.takes_memory O.keeps before result out.old out.new (entity_text entity.now) }
{
    let ended = put_tag(before, out, b"Entity");
    let ended = put_name(ended, out, &entity.name);
    let ended = put_bounds(ended, out, entity.bounds.as_slice());
    let ended = put_optional_expr(ended, out, &entity.init);
    put(ended, out, b")")
}

#[tactic(auto, using(crate::proofs::Chains::chains))]
fn put_led_entity<O: Sink>(before: Ended, out: &mut O, lead: &[u8], entity: &Entity) -> Ended
    ensures { Prints O.contents O.faults O.may_fail O.takes_memory O.keeps before result out.old out.new (joined (lead.now ∷ entity_text entity.now ∷ [])) }
{
    let ended = put(before, out, lead);
    put_entity(ended, out, entity)
}

#[tactic(auto, using(crate::proofs::Chains::lists))]
fn put_entities<O: Sink>(before: Ended, out: &mut O, entities: &[Entity]) -> Ended
    ensures { Prints O.contents O.faults O.may_fail O.takes_memory O.keeps before result out.old out.new (behind_blank (listed (entity_texts entities.now))) }
{
    let mut ended = put(before, out, b" [");
    let mut lead: &[u8] = b"";
    for entity in entities {
        ended = put_led_entity(ended, out, lead, entity);
        lead = b" ";
    }
    put(ended, out, b"]")
}

#[tactic(auto, using(crate::proofs::Chains::chains))]
fn put_vars<O: Sink>(before: Ended, out: &mut O, vars: &Vars) -> Ended
    ensures { Prints O.contents O.faults O.may_fail O.takes_memory O.keeps before result out.old out.new (vars_text vars.now) }
{
    let ended = put_tag(before, out, b"Vars");
    let ended = put_number(ended, out, vars.line);
    let ended = put_led_type(ended, out, b" ", &vars.type_spec);
    let ended = put_attributes(ended, out, vars.attributes.as_slice());
    let ended = put_entities(ended, out, vars.entities.as_slice());
    put(ended, out, b")")
}

#[tactic(auto, using(crate::proofs::Chains::chains))]
fn put_component<O: Sink>(before: Ended, out: &mut O, lead: &[u8], vars: &Vars) -> Ended
    ensures { Prints O.contents O.faults O.may_fail O.takes_memory O.keeps before result out.old out.new (joined (lead.now ∷ vars_text vars.now ∷ [])) }
{
    let ended = put(before, out, lead);
    put_vars(ended, out, vars)
}

#[tactic(auto, using(crate::proofs::Chains::lists))]
fn put_components<O: Sink>(before: Ended, out: &mut O, components: &[Vars]) -> Ended
    ensures { Prints O.contents O.faults O.may_fail O.takes_memory O.keeps before result out.old out.new (behind_blank (listed (component_texts components.now))) }
{
    let mut ended = put(before, out, b" [");
    let mut lead: &[u8] = b"";
    for vars in components {
        ended = put_component(ended, out, lead, vars);
        lead = b" ";
    }
    put(ended, out, b"]")
}

#[tactic(auto, using(crate::proofs::Chains::chains))]
fn put_led_rename<O: Sink>(before: Ended, out: &mut O, lead: &[u8], rename: &Rename) -> Ended
    ensures { Prints O.contents O.faults O.may_fail O.takes_memory O.keeps before result out.old out.new (joined (lead.now ∷ rename_text rename.now ∷ [])) }
{
    let ended = put(before, out, lead);
    put_node(
        ended,
        out,
        b"Rename",
        &[Field::Word(&rename.local), Field::Word(&rename.original)],
    )
}

#[tactic(auto, using(crate::proofs::Chains::lists))]
fn put_renames<O: Sink>(before: Ended, out: &mut O, renames: &[Rename]) -> Ended
    ensures { Prints O.contents O.faults O.may_fail O.takes_memory O.keeps before result out.old out.new (behind_blank (listed (rename_texts renames.now))) }
{
    let mut ended = put(before, out, b" [");
    let mut lead: &[u8] = b"";
    for rename in renames {
        ended = put_led_rename(ended, out, lead, rename);
        lead = b" ";
    }
    put(ended, out, b"]")
}

#[tactic(auto, using(crate::proofs::Chains::chains))]
fn put_use<O: Sink>(before: Ended, out: &mut O, used: &UseStmt) -> Ended
    ensures { Prints O.contents O.faults O.may_fail O.takes_memory O.keeps before result out.old out.new (use_text used.now) }
{
    let ended = put_tag(before, out, b"Use");
    let ended = put_number(ended, out, used.line);
    let ended = put_name(ended, out, &used.module);
    let ended = put_number(ended, out, u32::from(used.only));
    let ended = put_renames(ended, out, used.renames.as_slice());
    put(ended, out, b")")
}

#[tactic(auto, using(crate::proofs::Chains::chains))]
fn put_type_definition<O: Sink>(
    before: Ended,
    out: &mut O,
    line: u32,
    name: &Name,
    access: u8,
    components: &[Vars],
) -> Ended
    ensures { Prints O.contents O.faults O.may_fail O.takes_memory O.keeps before result out.old out.new (node (codes "TypeDef") (decimal line ∷ name.now ∷ decimal access ∷ listed (component_texts components.now) ∷ [])) }
{
    let ended = put_tag(before, out, b"TypeDef");
    let ended = put_number(ended, out, line);
    let ended = put_name(ended, out, name);
    let ended = put_number(ended, out, u32::from(access));
    let ended = put_components(ended, out, components);
    put(ended, out, b")")
}

fn put_decl<O: Sink>(before: Ended, out: &mut O, decl: &Decl) -> Ended
    ensures { Prints O.contents O.faults O.may_fail O.takes_memory O.keeps before result out.old out.new (decl_text decl.now) }
{
    match decl {
        Decl::Use { used } => put_use(before, out, used),
        Decl::ImplicitNone { line } => put_node(
            before,
            out,
            b"ImplicitNone",
            &[Field::Number(*line)],
        ),
        Decl::Access {
            line,
            is_private,
            names,
        } => put_node(
            before,
            out,
            b"Access",
            &[
                Field::Number(*line),
                Field::Number(u32::from(*is_private)),
                Field::Names(names),
            ],
        ),
        Decl::Variables { vars } => put_vars(before, out, vars),
        Decl::TypeDef {
            line,
            name,
            access,
            components,
        } => put_type_definition(before, out, *line, name, *access, components.as_slice()),
        Decl::Interface { line, name, names } => put_node(
            before,
            out,
            b"Interface",
            &[Field::Number(*line), Field::Word(name), Field::Names(names)],
        ),
    }
}

#[tactic(auto, using(crate::proofs::Chains::chains))]
fn put_led_decl<O: Sink>(before: Ended, out: &mut O, lead: &[u8], decl: &Decl) -> Ended
    ensures { Prints O.contents O.faults O.may_fail O.takes_memory O.keeps before result out.old out.new (joined (lead.now ∷ decl_text decl.now ∷ [])) }
{
    let ended = put(before, out, lead);
    put_decl(ended, out, decl)
}

#[tactic(auto, using(crate::proofs::Chains::lists))]
pub(crate) fn put_decls<O: Sink>(before: Ended, out: &mut O, decls: &[Decl]) -> Ended
    ensures { Prints O.contents O.faults O.may_fail O.takes_memory O.keeps before result out.old out.new (behind_blank (listed (decl_texts decls.now))) }
{
    let mut ended = put(before, out, b" [");
    let mut lead: &[u8] = b"";
    for decl in decls {
        ended = put_led_decl(ended, out, lead, decl);
        lead = b" ";
    }
    put(ended, out, b"]")
}
