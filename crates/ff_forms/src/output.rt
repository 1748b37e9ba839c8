ghost use Rattle.std.specs.Prelude.{◌≡◌, Some, ◌++◌};
ghost use Rattle.std.specs.Option.{option_copied};
ghost use Rattle.ff_forms.specs.Answers.{Gives, each};
ghost use Rattle.ff_forms.specs.Shapes.{output_in};
ghost use Rattle.ff_forms.specs.Output.{is_blank, squeezed_one, squeezed, format_of_squeezed, format_of, all_blank, is_letter, is_no, text_in, star_format, text_format, format_first, format_part, one_item, listed_of, none_listed, written, comma_listed, printed, print_row, is_no_advance, no_advance, advance_part, advance_first, advance_of, format_next, format_behind, write_controls, write_row, ref_in, iostat_word, iostat_named, iostat_part, one_iostat, iostat_of, read_controls, read_row};

use crate::refusal::Refusal;
use crate::shape::{
    comma, designator, expression, first, group_first, is, nothing, only_one, output, pieces_at,
    refused, star,
};
use ast_nodes::{Designator, Expr, Statement, code};
use ff_expressions::{Item, Mark, Parsed, Part, Queue};
use lf_base::{Name, operator};
use sqlite_items::Items;
use std::alloc::Global;

#[tactic(auto, unfolding(crate::specs::Output::is_blank))]
fn is_blank(byte: u8) -> bool
    ensures { result ≡ is_blank byte }
{
    byte == b' ' || byte == b'\t'
}

#[tactic(auto, unfolding(crate::specs::Output::squeezed_one))]
fn push_squeezed(text: &mut Vec<u8>, byte: u8) -> Result<(), Refusal>
    ensures { Gives (λ _. text.new.items) result (Some (text.old.items ++ squeezed_one byte)) }
{
    if is_blank(byte) {
        return Ok(());
    }
    match text.push(byte.to_ascii_lowercase()) {
        Ok(()) => Ok(()),
        Err(_) => Err(Refusal::Memory),
    }
}

fn squeezed(alloc: Global, bytes: &[u8]) -> Result<Vec<u8>, Refusal>
    ensures { Gives (λ text. text.items) result (Some (squeezed bytes.now)) }
{
    let mut text = Vec::new(alloc);
    for byte in bytes {
        push_squeezed(&mut text, *byte)?;
    }
    Ok(text)
}

#[tactic(auto, unfolding(crate::specs::Output::format_of_squeezed))]
fn format_of_squeezed(text: &[u8]) -> Result<u8, Refusal>
    ensures { Gives (λ form. form) result (format_of_squeezed text.now) }
{
    if is(text, b"(a)") {
        return Ok(code::FORMAT_CHARACTER);
    }
    if is(text, b"(i0)") {
        return Ok(code::FORMAT_INTEGER);
    }
    Err(Refusal::Unformed)
}

#[tactic(auto, unfolding(crate::specs::Output::format_of))]
fn format(alloc: Global, bytes: &[u8]) -> Result<u8, Refusal>
    ensures { Gives (λ form. form) result (format_of bytes.now) }
{
    let text = squeezed(alloc, bytes)?;
    format_of_squeezed(text.as_slice())
}

fn all_blank(bytes: &[u8]) -> bool
    ensures { result ≡ all_blank bytes.now }
{
    for byte in bytes {
        if !is_blank(*byte) {
            return false;
        }
    }
    true
}

#[tactic(auto, unfolding(crate::specs::Output::is_letter))]
fn is_letter(byte: u8, letter: u8) -> bool
    ensures { result ≡ is_letter byte letter }
{
    byte.to_ascii_lowercase() == letter
}

#[tactic(auto, unfolding(crate::specs::Output::is_no))]
fn is_no(bytes: &[u8]) -> bool
    ensures { result ≡ is_no bytes.now }
{
    match bytes {
        [n, o, rest @ ..] => is_letter(*n, b'n') && is_letter(*o, b'o') && all_blank(rest),
        _ => false,
    }
}

#[tactic(auto, unfolding(crate::specs::Output::text_in, crate::specs::Output::text_layer))]
fn text_in(e: &Expr) -> Option<&Items<u8>>
    ensures { option_copied result ≡ text_in e.now }
{
    match e {
        Expr::Char { bytes } => Some(bytes),
        _ => None,
    }
}

#[tactic(auto, unfolding(crate::specs::Output::format_first))]
fn format_first(alloc: Global, items: &mut Queue<Item>) -> Result<u8, Refusal>
    ensures { Gives (λ form. (form, items.new)) result (format_first items.old) }
{
    match items.take() {
        Some(
            Item::Mark {
                mark: Mark::Operator { code },
            },
        ) => star_format(code),
        Some(Item::Text { bytes }) => format(alloc, bytes.as_slice()),
        _ => Err(Refusal::Unformed),
    }
}

#[tactic(auto, unfolding(crate::specs::Output::star_format))]
fn star_format(code: u8) -> Result<u8, Refusal>
    ensures { Gives (λ form. form) result (star_format code) }
{
    if code == operator::MULTIPLY {
        return Ok(code::FORMAT_LIST);
    }
    Err(Refusal::Unformed)
}

#[tactic(auto, unfolding(crate::specs::Output::text_format, crate::specs::Output::format_layer))]
fn text_format(alloc: Global, e: &Expr) -> Result<u8, Refusal>
    ensures { Gives (λ form. form) result (text_format e.now) }
{
    match e {
        Expr::Char { bytes } => format(alloc, bytes.as_slice()),
        _ => Err(Refusal::Unformed),
    }
}

#[tactic(auto, unfolding(crate::specs::Output::format_part))]
fn format_part(alloc: Global, part: Part) -> Result<u8, Refusal>
    ensures { Gives (λ form. form) result (format_part part) }
{
    match part {
        Part::Star => Ok(code::FORMAT_LIST),
        Part::Plain {
            value: Parsed { tree, depth: _ },
        } => text_format(alloc, &tree),
        other => Err(refused(other)),
    }
}

#[tactic(auto, unfolding(crate::specs::Output::one_item))]
fn one_item(alloc: Global, pieces: Queue<Queue<Item>>) -> Result<(Items<Expr>, u32), Refusal>
    ensures { Gives (λ x. (x.0, x.1)) result (one_item pieces) }
{
    let piece = only_one(pieces)?;
    let (e, depth) = expression(alloc, piece)?;
    let mut list = Items::new(alloc);
    list.push(e)?;
    Ok((list, depth))
}

#[tactic(auto, using(crate::proofs::Lists::lists))]
fn each_output(alloc: Global, mut pieces: Queue<Queue<Item>>) -> Result<(Items<Expr>, u32), Refusal>
    ensures { Gives (λ x. (x.0, x.1)) result (each output_in pieces) }
{
    let mut list = Items::new(alloc);
    let mut depth = 0;
    while let Some(piece) = pieces.take() {
        let (e, its_depth) = output(alloc, piece)?;
        list.push(e)?;
        depth = depth.max(its_depth);
    }
    Ok((list, depth))
}

#[tactic(auto, unfolding(crate::specs::Output::listed_of))]
fn listed(alloc: Global, form: u8, items: Queue<Item>) -> Result<(Items<Expr>, u32), Refusal>
    ensures { Gives (λ x. (x.0, x.1)) result (listed_of form items) }
{
    let pieces = pieces_at(alloc, items, Mark::Comma)?;
    if form == code::FORMAT_LIST {
        return each_output(alloc, pieces);
    }
    one_item(alloc, pieces)
}

#[tactic(auto, unfolding(crate::specs::Output::none_listed))]
fn none_listed(alloc: Global, form: u8) -> Result<(Items<Expr>, u32), Refusal>
    ensures { Gives (λ x. (x.0, x.1)) result (none_listed form) }
{
    if form == code::FORMAT_LIST {
        return Ok((Items::new(alloc), 0));
    }
    Err(Refusal::Unformed)
}

#[tactic(auto, unfolding(crate::specs::Output::written))]
fn written(alloc: Global, form: u8, items: Queue<Item>) -> Result<(Items<Expr>, u32), Refusal>
    ensures { Gives (λ x. (x.0, x.1)) result (written form items) }
{
    if items.len() == 0 {
        return none_listed(alloc, form);
    }
    listed(alloc, form, items)
}

#[tactic(auto, unfolding(crate::specs::Output::comma_listed))]
fn comma_listed(
    alloc: Global,
    form: u8,
    mut items: Queue<Item>,
) -> Result<(Items<Expr>, u32), Refusal>
    ensures { Gives (λ x. (x.0, x.1)) result (comma_listed form items) }
{
    comma(&mut items)?;
    listed(alloc, form, items)
}

#[tactic(auto, unfolding(crate::specs::Output::printed))]
fn printed(alloc: Global, form: u8, items: Queue<Item>) -> Result<(Items<Expr>, u32), Refusal>
    ensures { Gives (λ x. (x.0, x.1)) result (printed form items) }
{
    if items.len() == 0 {
        return none_listed(alloc, form);
    }
    comma_listed(alloc, form, items)
}

#[tactic(auto, unfolding(crate::specs::Output::print_row))]
pub fn print_row(
    alloc: Global,
    line: u32,
    mut items: Queue<Item>,
) -> Result<(Statement, u32), Refusal>
    ensures { Gives (λ x. (x.0, x.1)) result (print_row line items) }
{
    let form = format_first(alloc, &mut items)?;
    let (items, depth) = printed(alloc, form, items)?;
    let statement = Statement::Print {
        line,
        form,
        advance: 0,
        items,
    };
    Ok((statement, depth))
}

#[tactic(auto, unfolding(crate::specs::Output::is_no_advance))]
fn is_no_advance(name: &[u8], e: &Expr) -> bool
    ensures { result ≡ is_no_advance name.now (text_in e.now) }
{
    match text_in(e) {
        Some(bytes) => is(name, b"advance") && is_no(bytes.as_slice()),
        None => false,
    }
}

#[tactic(auto, unfolding(crate::specs::Output::no_advance))]
fn no_advance(part: &Part) -> bool
    ensures { result ≡ no_advance part.now }
{
    match part {
        Part::Keyed {
            name,
            value: Some(value),
        } => is_no_advance(name.bytes(), &value.tree),
        _ => false,
    }
}

#[tactic(auto, unfolding(crate::specs::Output::advance_part))]
fn advance_part(form: u8, part: &Part) -> Result<u8, Refusal>
    ensures { Gives (λ advance. advance) result (advance_part form part.now) }
{
    if form == code::FORMAT_LIST {
        return Err(Refusal::Unformed);
    }
    if no_advance(part) {
        return Ok(1);
    }
    Err(Refusal::Unformed)
}

#[tactic(auto, unfolding(crate::specs::Output::advance_first))]
fn advance_first(form: u8, part: Option<&Part>) -> Result<u8, Refusal>
    ensures { Gives (λ advance. advance) result (advance_first form (option_copied part.entry)) }
{
    match part {
        Some(part) => advance_part(form, part),
        None => Ok(0),
    }
}

#[tactic(auto, unfolding(crate::specs::Output::advance_of))]
fn advance(form: u8, parts: &Queue<Part>) -> Result<u8, Refusal>
    ensures { Gives (λ advance. advance) result (advance_of form parts.now) }
{
    if 1 < parts.len() {
        return Err(Refusal::Unformed);
    }
    advance_first(form, parts.get(0))
}

#[tactic(auto, unfolding(crate::specs::Output::format_next))]
fn format_next(alloc: Global, parts: &mut Queue<Part>) -> Result<u8, Refusal>
    ensures { Gives (λ form. (form, parts.new)) result (format_next parts.old) }
{
    let part = first(parts)?;
    let form = format_part(alloc, part)?;
    Ok(form)
}

#[tactic(auto, unfolding(crate::specs::Output::format_behind))]
fn format_behind(alloc: Global, parts: &mut Queue<Part>) -> Result<u8, Refusal>
    ensures { Gives (λ form. (form, parts.new)) result (format_behind parts.old) }
{
    star(parts)?;
    format_next(alloc, parts)
}

#[tactic(auto, unfolding(crate::specs::Output::write_controls))]
fn write_controls(alloc: Global, mut parts: Queue<Part>) -> Result<(u8, u8), Refusal>
    ensures { Gives (λ x. (x.0, x.1)) result (write_controls parts) }
{
    let form = format_behind(alloc, &mut parts)?;
    let advance = advance(form, &parts)?;
    Ok((form, advance))
}

#[tactic(auto, unfolding(crate::specs::Output::write_row))]
pub fn write_row(
    alloc: Global,
    line: u32,
    mut items: Queue<Item>,
) -> Result<(Statement, u32), Refusal>
    ensures { Gives (λ x. (x.0, x.1)) result (write_row line items) }
{
    let parts = group_first(&mut items)?;
    let (form, advance) = write_controls(alloc, parts)?;
    let (items, depth) = written(alloc, form, items)?;
    let statement = Statement::Print {
        line,
        form,
        advance,
        items,
    };
    Ok((statement, depth))
}

#[tactic(auto, unfolding(crate::specs::Output::ref_in, crate::specs::Output::ref_layer))]
fn ref_in(e: Expr) -> Result<Designator, Refusal>
    ensures { Gives (λ designator. designator) result (ref_in e) }
{
    match e {
        Expr::Ref { designator } => Ok(designator),
        other => Err(refused(other)),
    }
}

#[tactic(auto, unfolding(crate::specs::Output::iostat_word))]
fn iostat_word(name: &[u8]) -> Result<(), Refusal>
    ensures { Gives (λ _. tt) result (iostat_word name.now) }
{
    if is(name, b"iostat") {
        return Ok(());
    }
    Err(Refusal::Unformed)
}

#[tactic(auto, unfolding(crate::specs::Output::iostat_named))]
fn iostat_named(name: &[u8], value: Option<Parsed>) -> Result<(Option<Designator>, u32), Refusal>
    ensures { Gives (λ x. (x.0, x.1)) result (iostat_named name.now value) }
{
    match value {
        Some(Parsed { tree, depth }) => {
            iostat_word(name)?;
            let designator = ref_in(tree)?;
            Ok((Some(designator), depth))
        }
        None => Err(Refusal::Unformed),
    }
}

#[tactic(auto, unfolding(crate::specs::Output::iostat_part))]
fn iostat_part(part: Part) -> Result<(Option<Designator>, u32), Refusal>
    ensures { Gives (λ x. (x.0, x.1)) result (iostat_part part) }
{
    match part {
        Part::Keyed { name, value } => iostat_named(name.bytes(), value),
        other => Err(refused(other)),
    }
}

#[tactic(auto, unfolding(crate::specs::Output::one_iostat))]
fn one_iostat(parts: Queue<Part>) -> Result<(Option<Designator>, u32), Refusal>
    ensures { Gives (λ x. (x.0, x.1)) result (one_iostat parts) }
{
    let part = only_one(parts)?;
    iostat_part(part)
}

#[tactic(auto, unfolding(crate::specs::Output::iostat_of))]
fn iostat(parts: Queue<Part>) -> Result<(Option<Designator>, u32), Refusal>
    ensures { Gives (λ x. (x.0, x.1)) result (iostat_of parts) }
{
    if parts.len() == 0 {
        return Ok((None, 0));
    }
    one_iostat(parts)
}

#[tactic(auto, unfolding(crate::specs::Output::read_controls))]
fn read_controls(
    alloc: Global,
    mut parts: Queue<Part>,
) -> Result<(Option<Designator>, u32), Refusal>
    ensures { Gives (λ x. (x.0, x.1)) result (read_controls parts) }
{
    let form = format_behind(alloc, &mut parts)?;
    if form == code::FORMAT_CHARACTER {
        return iostat(parts);
    }
    Err(Refusal::Unformed)
}

#[tactic(auto, unfolding(crate::specs::Output::read_row))]
pub fn read_row(
    alloc: Global,
    line: u32,
    mut items: Queue<Item>,
) -> Result<(Statement, u32), Refusal>
    ensures { Gives (λ x. (x.0, x.1)) result (read_row line items) }
{
    let parts = group_first(&mut items)?;
    let (iostat, depth) = read_controls(alloc, parts)?;
    let (target, its_depth) = designator(alloc, items)?;
    let statement = Statement::Read {
        line,
        target,
        iostat,
    };
    Ok((statement, depth.max(its_depth)))
}
