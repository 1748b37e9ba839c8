ghost use Rattle.std.specs.Prelude.{◌≡◌, Some};
ghost use Rattle.ff_forms.specs.Answers.{Gives, all};
ghost use Rattle.ff_forms.specs.Shapes.{only_word, name_part};
ghost use Rattle.ff_forms.specs.Names.{names_of, listed_names, dummies_of, renamed, rename_of, only_behind, only_item, only_list, use_stmt, only_use, rename_use, list_use, use_behind, bare_use, use_of};

use crate::refusal::Refusal;
use crate::shape::{
    arrow, colon, comma, double_colon, is_colon_at, is_double_colon_first, name_part, only_word,
    past_double_colon, pieces_at, spells_at, word_first,
};
use ast_nodes::{Rename, UseStmt};
use ff_expressions::{Item, Mark, Part, Queue};
use lf_base::Name;
use sqlite_items::Items;
use std::alloc::Global;

#[tactic(auto, using(crate::proofs::Lists::lists))]
fn each_word(alloc: Global, mut pieces: Queue<Queue<Item>>) -> Result<Items<Name>, Refusal>
    ensures { Gives (λ names. names) result (all only_word pieces) }
{
    let mut names = Items::new(alloc);
    while let Some(piece) = pieces.take() {
        let name = only_word(piece)?;
        names.push(name)?;
    }
    Ok(names)
}

#[tactic(auto, unfolding(crate::specs::Names::names_of))]
fn names(alloc: Global, items: Queue<Item>) -> Result<Items<Name>, Refusal>
    ensures { Gives (λ names. names) result (names_of items) }
{
    let pieces = pieces_at(alloc, items, Mark::Comma)?;
    each_word(alloc, pieces)
}

#[tactic(auto, unfolding(crate::specs::Names::listed_names))]
pub fn listed_names(alloc: Global, mut items: Queue<Item>) -> Result<Items<Name>, Refusal>
    ensures { Gives (λ names. names) result (listed_names items) }
{
    past_double_colon(&mut items)?;
    names(alloc, items)
}

#[tactic(auto, using(crate::proofs::Lists::lists), unfolding(crate::specs::Names::dummies_of))]
pub fn dummies(alloc: Global, mut parts: Queue<Part>) -> Result<Items<Name>, Refusal>
    ensures { Gives (λ names. names) result (dummies_of parts) }
{
    let mut names = Items::new(alloc);
    while let Some(part) = parts.take() {
        let name = name_part(alloc, part)?;
        names.push(name)?;
    }
    Ok(names)
}

#[tactic(auto, unfolding(crate::specs::Names::renamed))]
fn renamed(local: Name, mut items: Queue<Item>) -> Result<Rename, Refusal>
    ensures { Gives (λ rename. rename) result (renamed local items) }
{
    arrow(&mut items)?;
    let original = only_word(items)?;
    Ok(Rename { local, original })
}

#[tactic(auto, unfolding(crate::specs::Names::rename_of))]
fn rename(mut items: Queue<Item>) -> Result<Rename, Refusal>
    ensures { Gives (λ rename. rename) result (rename_of items) }
{
    let local = word_first(&mut items)?;
    renamed(local, items)
}

#[tactic(auto, unfolding(crate::specs::Names::only_behind))]
fn only_behind(alloc: Global, name: Name, items: Queue<Item>) -> Result<Rename, Refusal>
    ensures { Gives (λ rename. rename) result (only_behind name items) }
{
    if items.len() == 0 {
        let original = Name::new(alloc, name.bytes())?;
        return Ok(Rename {
            local: name,
            original,
        });
    }
    renamed(name, items)
}

#[tactic(auto, unfolding(crate::specs::Names::only_item))]
fn only_item(alloc: Global, mut items: Queue<Item>) -> Result<Rename, Refusal>
    ensures { Gives (λ rename. rename) result (only_item items) }
{
    let name = word_first(&mut items)?;
    only_behind(alloc, name, items)
}

#[tactic(auto, using(crate::proofs::Lists::lists))]
fn each_only(alloc: Global, mut pieces: Queue<Queue<Item>>) -> Result<Items<Rename>, Refusal>
    ensures { Gives (λ renames. renames) result (all only_item pieces) }
{
    let mut renames = Items::new(alloc);
    while let Some(piece) = pieces.take() {
        let one = only_item(alloc, piece)?;
        renames.push(one)?;
    }
    Ok(renames)
}

#[tactic(auto, using(crate::proofs::Lists::lists))]
fn each_rename(alloc: Global, mut pieces: Queue<Queue<Item>>) -> Result<Items<Rename>, Refusal>
    ensures { Gives (λ renames. renames) result (all rename_of pieces) }
{
    let mut renames = Items::new(alloc);
    while let Some(piece) = pieces.take() {
        let one = rename(piece)?;
        renames.push(one)?;
    }
    Ok(renames)
}

#[tactic(auto, unfolding(crate::specs::Names::only_list))]
fn only_list(alloc: Global, items: Queue<Item>) -> Result<Items<Rename>, Refusal>
    ensures { Gives (λ renames. renames) result (only_list items) }
{
    if items.len() == 0 {
        return Ok(Items::new(alloc));
    }
    let pieces = pieces_at(alloc, items, Mark::Comma)?;
    each_only(alloc, pieces)
}

#[tactic(auto, unfolding(crate::specs::Names::use_stmt))]
fn use_stmt(line: u32, module: Name, only: u8, renames: Items<Rename>) -> UseStmt
    ensures { result ≡ use_stmt line «module» only renames }
{
    UseStmt {
        line,
        module,
        only,
        renames,
    }
}

#[tactic(auto, unfolding(crate::specs::Names::only_use))]
fn only_use(
    alloc: Global,
    line: u32,
    name: Name,
    mut items: Queue<Item>,
) -> Result<UseStmt, Refusal>
    ensures { Gives (λ used. used) result (only_use line name items) }
{
    word_first(&mut items)?;
    colon(&mut items)?;
    let renames = only_list(alloc, items)?;
    Ok(use_stmt(line, name, 1, renames))
}

#[tactic(auto, unfolding(crate::specs::Names::rename_use))]
fn rename_use(alloc: Global, line: u32, name: Name, items: Queue<Item>) -> Result<UseStmt, Refusal>
    ensures { Gives (λ used. used) result (rename_use line name items) }
{
    let pieces = pieces_at(alloc, items, Mark::Comma)?;
    let renames = each_rename(alloc, pieces)?;
    Ok(use_stmt(line, name, 0, renames))
}

#[tactic(auto, unfolding(crate::specs::Names::list_use))]
fn list_use(alloc: Global, line: u32, name: Name, items: Queue<Item>) -> Result<UseStmt, Refusal>
    ensures { Gives (λ used. used) result (list_use line name items) }
{
    if spells_at(&items, 0, b"only") && is_colon_at(&items, 1) {
        return only_use(alloc, line, name, items);
    }
    rename_use(alloc, line, name, items)
}

#[tactic(auto, unfolding(crate::specs::Names::use_behind))]
fn use_behind(
    alloc: Global,
    line: u32,
    name: Name,
    mut items: Queue<Item>,
) -> Result<UseStmt, Refusal>
    ensures { Gives (λ used. used) result (use_behind line name items) }
{
    if items.len() == 0 {
        return Ok(use_stmt(line, name, 0, Items::new(alloc)));
    }
    comma(&mut items)?;
    list_use(alloc, line, name, items)
}

#[tactic(auto, unfolding(crate::specs::Names::bare_use))]
fn bare_use(alloc: Global, line: u32, mut items: Queue<Item>) -> Result<UseStmt, Refusal>
    ensures { Gives (λ used. used) result (bare_use line items) }
{
    double_colon(&mut items)?;
    let name = only_word(items)?;
    Ok(use_stmt(line, name, 0, Items::new(alloc)))
}

#[tactic(auto, unfolding(crate::specs::Names::use_of))]
pub fn used(alloc: Global, line: u32, mut items: Queue<Item>) -> Result<UseStmt, Refusal>
    ensures { Gives (λ used. used) result (use_of line items) }
{
    if is_double_colon_first(&items) {
        return bare_use(alloc, line, items);
    }
    let name = word_first(&mut items)?;
    use_behind(alloc, line, name, items)
}
