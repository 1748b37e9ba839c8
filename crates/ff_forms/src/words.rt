ghost use Rattle.std.specs.Prelude.{◌≡◌, IfOk, List, map, ◌∷◌, [], slice_get};
ghost use Rattle.ff_lexer.specs.Spans.{spelled};
ghost use Rattle.ff_expressions.specs.Items.{items_of};
ghost use Rattle.ff_forms.specs.Words.{is_type_word, is_attribute_word, is_linkage_word, is_storage_word, is_allocation_word, is_jump_word, is_block_word, is_file_word, is_record_word, is_unit_word, is_prefix_word, is_specification_word, is_executable_word, is_other_word, is_word_in, is_colon_in, spells_in, is_other, is_other_in, is_name_front, is_concurrent, is_unbuilt, rule_at, rule_of};

use crate::shape::{is, is_colon_at, is_word_at, spells_at};
use ff_expressions::{Item, Queue};
use ff_lexer::Token;
use lf_base::{Memory, Rule};
use std::alloc::Global;

#[tactic(auto, unfolding(crate::specs::Words::is_type_word))]
fn is_type_word(name: &[u8]) -> bool
    ensures { result ≡ is_type_word name.now }
{
    is(name, b"real")
        || is(name, b"complex")
        || is(name, b"double")
        || is(name, b"doubleprecision")
        || is(name, b"class")
        || is(name, b"enum")
}

#[tactic(auto, unfolding(crate::specs::Words::is_attribute_word))]
fn is_attribute_word(name: &[u8]) -> bool
    ensures { result ≡ is_attribute_word name.now }
{
    is(name, b"allocatable")
        || is(name, b"pointer")
        || is(name, b"target")
        || is(name, b"dimension")
        || is(name, b"optional")
}

#[tactic(auto, unfolding(crate::specs::Words::is_linkage_word))]
fn is_linkage_word(name: &[u8]) -> bool
    ensures { result ≡ is_linkage_word name.now }
{
    is(name, b"external") || is(name, b"intrinsic") || is(name, b"save") || is(name, b"parameter")
}

#[tactic(auto, unfolding(crate::specs::Words::is_storage_word))]
fn is_storage_word(name: &[u8]) -> bool
    ensures { result ≡ is_storage_word name.now }
{
    is(name, b"data") || is(name, b"common") || is(name, b"equivalence") || is(name, b"namelist")
}

#[tactic(auto, unfolding(crate::specs::Words::is_allocation_word))]
fn is_allocation_word(name: &[u8]) -> bool
    ensures { result ≡ is_allocation_word name.now }
{
    is(name, b"allocate") || is(name, b"deallocate") || is(name, b"nullify")
}

#[tactic(auto, unfolding(crate::specs::Words::is_jump_word))]
fn is_jump_word(name: &[u8]) -> bool
    ensures { result ≡ is_jump_word name.now }
{
    is(name, b"entry") || is(name, b"go") || is(name, b"goto")
}

#[tactic(auto, unfolding(crate::specs::Words::is_block_word))]
fn is_block_word(name: &[u8]) -> bool
    ensures { result ≡ is_block_word name.now }
{
    is(name, b"where")
        || is(name, b"forall")
        || is(name, b"associate")
        || is(name, b"block")
        || is(name, b"critical")
}

#[tactic(auto, unfolding(crate::specs::Words::is_file_word))]
fn is_file_word(name: &[u8]) -> bool
    ensures { result ≡ is_file_word name.now }
{
    is(name, b"open")
        || is(name, b"close")
        || is(name, b"inquire")
        || is(name, b"rewind")
        || is(name, b"backspace")
}

#[tactic(auto, unfolding(crate::specs::Words::is_record_word))]
fn is_record_word(name: &[u8]) -> bool
    ensures { result ≡ is_record_word name.now }
{
    is(name, b"endfile") || is(name, b"format")
}

#[tactic(auto, unfolding(crate::specs::Words::is_unit_word))]
fn is_unit_word(name: &[u8]) -> bool
    ensures { result ≡ is_unit_word name.now }
{
    is(name, b"blockdata")
        || is(name, b"submodule")
        || is(name, b"include")
        || is(name, b"import")
        || is(name, b"abstract")
        || is(name, b"generic")
}

#[tactic(auto, unfolding(crate::specs::Words::is_prefix_word))]
fn is_prefix_word(name: &[u8]) -> bool
    ensures { result ≡ is_prefix_word name.now }
{
    is(name, b"pure") || is(name, b"elemental") || is(name, b"impure") || is(name, b"non_recursive")
}

#[tactic(auto, unfolding(crate::specs::Words::is_specification_word))]
fn is_specification_word(name: &[u8]) -> bool
    ensures { result ≡ is_specification_word name.now }
{
    is_type_word(name) || is_attribute_word(name) || is_linkage_word(name) || is_storage_word(name)
}

#[tactic(auto, unfolding(crate::specs::Words::is_executable_word))]
fn is_executable_word(name: &[u8]) -> bool
    ensures { result ≡ is_executable_word name.now }
{
    is_allocation_word(name)
        || is_jump_word(name)
        || is_block_word(name)
        || is_file_word(name)
        || is_record_word(name)
}

#[tactic(auto, unfolding(crate::specs::Words::is_other_word))]
fn is_other_word(name: &[u8]) -> bool
    ensures { result ≡ is_other_word name.now }
{
    is_specification_word(name)
        || is_executable_word(name)
        || is_unit_word(name)
        || is_prefix_word(name)
}

// A token by itself.
fn alone(alloc: Global, source: &[u8], token: Token) -> Result<Option<Queue<Item>>, Memory>
    ensures { IfOk result (λ items. items ≡ items_of (spelled source.now token ∷ [])) }
{
    ff_expressions::items(alloc, source, &[token])
}

#[tactic(auto, unfolding(crate::specs::Words::is_word_in))]
fn is_word_token(alloc: Global, source: &[u8], token: Token) -> Result<bool, Memory>
    ensures { IfOk result (λ b. b ≡ is_word_in (items_of (spelled source.now token ∷ []))) }
{
    match alone(alloc, source, token)? {
        None => Ok(false),
        Some(items) => Ok(is_word_at(&items, 0)),
    }
}

#[tactic(auto, unfolding(crate::specs::Words::is_colon_in))]
fn is_colon_token(alloc: Global, source: &[u8], token: Token) -> Result<bool, Memory>
    ensures { IfOk result (λ b. b ≡ is_colon_in (items_of (spelled source.now token ∷ []))) }
{
    match alone(alloc, source, token)? {
        None => Ok(false),
        Some(items) => Ok(is_colon_at(&items, 0)),
    }
}

#[tactic(auto, unfolding(crate::specs::Words::is_other))]
fn is_other(items: &Queue<Item>) -> bool
    ensures { result ≡ is_other (slice_get items.now 0) }
{
    match items.get(0) {
        Some(Item::Word { name }) => is_other_word(name.bytes()),
        _ => false,
    }
}

#[tactic(auto, unfolding(crate::specs::Words::is_other_in))]
fn is_other_token(alloc: Global, source: &[u8], token: Token) -> Result<bool, Memory>
    ensures { IfOk result (λ b. b ≡ is_other_in (items_of (spelled source.now token ∷ []))) }
{
    match alone(alloc, source, token)? {
        None => Ok(false),
        Some(items) => Ok(is_other(&items)),
    }
}

#[tactic(auto, unfolding(crate::specs::Words::spells_in))]
fn spells_token(alloc: Global, source: &[u8], token: Token, text: &[u8]) -> Result<bool, Memory>
    ensures { IfOk result (λ b. b ≡ spells_in text.now (items_of (spelled source.now token ∷ []))) }
{
    match alone(alloc, source, token)? {
        None => Ok(false),
        Some(items) => Ok(spells_at(&items, 0, text)),
    }
}

#[tactic(auto, unfolding(crate::specs::Words::is_name_front))]
fn is_name_front(alloc: Global, source: &[u8], name: Token, colon: Token) -> Result<bool, Memory>
    ensures { IfOk result (λ b. b ≡ is_name_front (spelled source.now name) (spelled source.now colon)) }
{
    if is_word_token(alloc, source, name)? {
        return is_colon_token(alloc, source, colon);
    }
    Ok(false)
}

#[tactic(auto, unfolding(crate::specs::Words::is_concurrent))]
fn is_concurrent(
    alloc: Global,
    source: &[u8],
    first: Token,
    tokens: &[Token],
) -> Result<bool, Memory>
    ensures { IfOk result (λ b. b ≡ is_concurrent (spelled source.now first) (map (spelled source.now) tokens.now)) }
{
    match tokens {
        [] => Ok(false),
        [second, ..] => {
            if spells_token(alloc, source, first, b"do")? {
                return spells_token(alloc, source, *second, b"concurrent");
            }
            Ok(false)
        }
    }
}

#[tactic(auto, unfolding(crate::specs::Words::is_unbuilt))]
fn is_unbuilt(alloc: Global, source: &[u8], tokens: &[Token]) -> Result<bool, Memory>
    ensures { IfOk result (λ b. b ≡ is_unbuilt (map (spelled source.now) tokens.now)) }
{
    match tokens {
        [] => Ok(false),
        [first, rest @ ..] => {
            if is_other_token(alloc, source, *first)? {
                return Ok(true);
            }
            is_concurrent(alloc, source, *first, rest)
        }
    }
}

#[tactic(auto, unfolding(crate::specs::Words::rule_at))]
fn rule_at(alloc: Global, source: &[u8], tokens: &[Token]) -> Result<Rule, Memory>
    ensures { IfOk result (λ rule. rule ≡ rule_at (map (spelled source.now) tokens.now)) }
{
    if is_unbuilt(alloc, source, tokens)? {
        return Ok(Rule::E202);
    }
    Ok(Rule::E201)
}

// The rule that a statement in no form breaks.
#[tactic(auto, unfolding(crate::specs::Words::rule_of))]
pub fn rule(alloc: Global, source: &[u8], tokens: &[Token]) -> Result<Rule, Memory>
    ensures { IfOk result (λ rule. rule ≡ rule_of (map (spelled source.now) tokens.now)) }
{
    match tokens {
        [name, colon, rest @ ..] => {
            if is_name_front(alloc, source, *name, *colon)? {
                return rule_at(alloc, source, rest);
            }
            rule_at(alloc, source, tokens)
        }
        _ => rule_at(alloc, source, tokens),
    }
}
