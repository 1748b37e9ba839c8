ghost use Rattle.std.specs.Prelude.{◌≡◌, Some, List, ℕ, Option};
ghost use Rattle.ff_forms.specs.Answers.{Gives, each};
ghost use Rattle.ff_forms.specs.Constructs.{else_if_row, else_word, else_behind, else_row, while_row, step_of, next_expression, counted_by, counted_row, do_word, do_behind, do_row, select_case_row, select_row, section_range, range_of, ranges_of, ranged_case, default_case, case_row, ended_unit, ended_by, ended_unit_at_once, ended_at_once, end_behind, end_words, end_row};

use crate::form::{End, Form};
use crate::refusal::Refusal;
use crate::shape::{
    equals, expression, first, group_first, is, is_group_first, maybe_word, nothing,
    one_expression, only_group, pieces_at, refused, something, word, word_first,
};
use ast_nodes::{CaseRange, Expr};
use ff_expressions::{Item, Mark, Parsed, Part, Queue, Stride};
use lf_base::Name;
use sqlite_items::{Boxed, Items};
use std::alloc::Global;

#[tactic(auto, unfolding(crate::specs::Constructs::else_if_row))]
pub fn else_if_row(mut items: Queue<Item>) -> Result<(Form, u32), Refusal>
    ensures { Gives (λ x. (x.0, x.1)) result (else_if_row items) }
{
    let parts = group_first(&mut items)?;
    let (condition, depth) = one_expression(parts)?;
    word(&mut items, b"then")?;
    let construct = maybe_word(items)?;
    Ok((
        Form::ElseIf {
            construct,
            condition,
        },
        depth,
    ))
}

#[tactic(auto, unfolding(crate::specs::Constructs::else_word))]
fn else_word(name: Name, items: Queue<Item>) -> Result<(Form, u32), Refusal>
    ensures { Gives (λ x. (x.0, x.1)) result (else_word name items) }
{
    if items.len() == 0 {
        return Ok((
            Form::Else {
                construct: Some(name),
            },
            0,
        ));
    }
    if is(name.bytes(), b"if") {
        return else_if_row(items);
    }
    Err(Refusal::Unformed)
}

#[tactic(auto, unfolding(crate::specs::Constructs::else_behind))]
fn else_behind(mut items: Queue<Item>) -> Result<(Form, u32), Refusal>
    ensures { Gives (λ x. (x.0, x.1)) result (else_behind items) }
{
    let name = word_first(&mut items)?;
    else_word(name, items)
}

#[tactic(auto, unfolding(crate::specs::Constructs::else_row))]
pub fn else_row(items: Queue<Item>) -> Result<(Form, u32), Refusal>
    ensures { Gives (λ x. (x.0, x.1)) result (else_row items) }
{
    if items.len() == 0 {
        return Ok((Form::Else { construct: None }, 0));
    }
    else_behind(items)
}

#[tactic(auto, unfolding(crate::specs::Constructs::while_row))]
fn while_row(
    alloc: Global,
    construct: Option<Name>,
    items: Queue<Item>,
) -> Result<(Form, u32), Refusal>
    ensures { Gives (λ x. (x.0, x.1)) result (while_row construct items) }
{
    let parts = only_group(items)?;
    let (condition, depth) = one_expression(parts)?;
    let form = Form::While {
        construct,
        condition: Some(Boxed::new(alloc, condition)?),
    };
    Ok((form, depth))
}

#[tactic(auto, unfolding(crate::specs::Constructs::step_of))]
fn step(
    alloc: Global,
    mut pieces: Queue<Queue<Item>>,
) -> Result<(Option<Boxed<Expr>>, u32), Refusal>
    ensures { Gives (λ x. (x.0, x.1)) result (step_of pieces) }
{
    match pieces.take() {
        None => Ok((None, 0)),
        Some(piece) => {
            nothing(pieces)?;
            let (e, depth) = expression(alloc, piece)?;
            Ok((Some(Boxed::new(alloc, e)?), depth))
        }
    }
}

#[tactic(auto, unfolding(crate::specs::Constructs::next_expression))]
fn next_expression(
    alloc: Global,
    pieces: &mut Queue<Queue<Item>>,
) -> Result<(Boxed<Expr>, u32), Refusal>
    ensures { Gives (λ x. (x.0, x.1, pieces.new)) result (next_expression pieces.old) }
{
    let piece = first(pieces)?;
    let (e, depth) = expression(alloc, piece)?;
    Ok((Boxed::new(alloc, e)?, depth))
}

#[tactic(auto, unfolding(crate::specs::Constructs::counted_by))]
fn counted_by(
    alloc: Global,
    construct: Option<Name>,
    variable: Name,
    mut pieces: Queue<Queue<Item>>,
) -> Result<(Form, u32), Refusal>
    ensures { Gives (λ x. (x.0, x.1)) result (counted_by construct variable pieces) }
{
    let (lower, depth) = next_expression(alloc, &mut pieces)?;
    let (upper, upper_depth) = next_expression(alloc, &mut pieces)?;
    let (step, step_depth) = step(alloc, pieces)?;
    let form = Form::Do {
        construct,
        variable,
        lower,
        upper,
        step,
    };
    Ok((form, depth.max(upper_depth).max(step_depth)))
}

#[tactic(auto, unfolding(crate::specs::Constructs::counted_row))]
fn counted_row(
    alloc: Global,
    construct: Option<Name>,
    variable: Name,
    mut items: Queue<Item>,
) -> Result<(Form, u32), Refusal>
    ensures { Gives (λ x. (x.0, x.1)) result (counted_row construct variable items) }
{
    equals(&mut items)?;
    let pieces = pieces_at(alloc, items, Mark::Comma)?;
    counted_by(alloc, construct, variable, pieces)
}

#[tactic(auto, unfolding(crate::specs::Constructs::do_word))]
fn do_word(
    alloc: Global,
    construct: Option<Name>,
    name: Name,
    items: Queue<Item>,
) -> Result<(Form, u32), Refusal>
    ensures { Gives (λ x. (x.0, x.1)) result (do_word construct name items) }
{
    if is(name.bytes(), b"while") && is_group_first(&items) {
        return while_row(alloc, construct, items);
    }
    counted_row(alloc, construct, name, items)
}

#[tactic(auto, unfolding(crate::specs::Constructs::do_behind))]
fn do_behind(
    alloc: Global,
    construct: Option<Name>,
    mut items: Queue<Item>,
) -> Result<(Form, u32), Refusal>
    ensures { Gives (λ x. (x.0, x.1)) result (do_behind construct items) }
{
    let name = word_first(&mut items)?;
    do_word(alloc, construct, name, items)
}

#[tactic(auto, unfolding(crate::specs::Constructs::do_row))]
pub fn do_row(
    alloc: Global,
    construct: Option<Name>,
    items: Queue<Item>,
) -> Result<(Form, u32), Refusal>
    ensures { Gives (λ x. (x.0, x.1)) result (do_row construct items) }
{
    if items.len() == 0 {
        return Ok((
            Form::While {
                construct,
                condition: None,
            },
            0,
        ));
    }
    do_behind(alloc, construct, items)
}

#[tactic(auto, unfolding(crate::specs::Constructs::select_case_row))]
pub fn select_case_row(
    alloc: Global,
    construct: Option<Name>,
    items: Queue<Item>,
) -> Result<(Form, u32), Refusal>
    ensures { Gives (λ x. (x.0, x.1)) result (select_case_row construct items) }
{
    let parts = only_group(items)?;
    let (value, depth) = one_expression(parts)?;
    let value = Boxed::new(alloc, value)?;
    Ok((Form::Select { construct, value }, depth))
}

#[tactic(auto, unfolding(crate::specs::Constructs::select_row))]
pub fn select_row(
    alloc: Global,
    construct: Option<Name>,
    mut items: Queue<Item>,
) -> Result<(Form, u32), Refusal>
    ensures { Gives (λ x. (x.0, x.1)) result (select_row construct items) }
{
    word(&mut items, b"case")?;
    select_case_row(alloc, construct, items)
}

#[tactic(auto, unfolding(crate::specs::Constructs::section_range))]
fn range_from(lower: Parsed, upper: Option<Parsed>) -> (CaseRange, u32)
    ensures { Some (result.0, result.1) ≡ section_range (Some lower) upper }
{
    match upper {
        None => (
            CaseRange::Range {
                lower: Some(lower.tree),
                upper: None,
            },
            lower.depth,
        ),
        Some(upper) => {
            let depth = lower.depth.max(upper.depth);
            let range = CaseRange::Range {
                lower: Some(lower.tree),
                upper: Some(upper.tree),
            };
            (range, depth)
        }
    }
}

#[tactic(auto, unfolding(crate::specs::Constructs::section_range))]
fn range_to(upper: Option<Parsed>) -> Result<(CaseRange, u32), Refusal>
    ensures { Gives (λ x. (x.0, x.1)) result (section_range None upper) }
{
    match upper {
        None => Err(Refusal::Unformed),
        Some(upper) => {
            let Parsed { tree, depth } = upper;
            let range = CaseRange::Range {
                lower: None,
                upper: Some(tree),
            };
            Ok((range, depth))
        }
    }
}

#[tactic(auto, unfolding(crate::specs::Constructs::section_range))]
fn section_range(lower: Option<Parsed>, upper: Option<Parsed>) -> Result<(CaseRange, u32), Refusal>
    ensures { Gives (λ x. (x.0, x.1)) result (section_range lower upper) }
{
    match lower {
        Some(lower) => Ok(range_from(lower, upper)),
        None => range_to(upper),
    }
}

#[tactic(auto, unfolding(crate::specs::Constructs::range_of))]
fn range(part: Part) -> Result<(CaseRange, u32), Refusal>
    ensures { Gives (λ x. (x.0, x.1)) result (range_of part) }
{
    match part {
        Part::Plain {
            value: Parsed { tree, depth },
        } => Ok((CaseRange::One { value: tree }, depth)),
        Part::Section {
            lower,
            upper,
            step: Stride::Absent,
        } => section_range(lower, upper),
        other => Err(refused(other)),
    }
}

#[tactic(auto, using(crate::proofs::Lists::lists))]
fn each_range(alloc: Global, mut parts: Queue<Part>) -> Result<(Items<CaseRange>, u32), Refusal>
    ensures { Gives (λ x. (x.0, x.1)) result (each range_of parts) }
{
    let mut ranges = Items::new(alloc);
    let mut depth = 0;
    while let Some(part) = parts.take() {
        let (one, its_depth) = range(part)?;
        ranges.push(one)?;
        depth = depth.max(its_depth);
    }
    Ok((ranges, depth))
}

#[tactic(auto, unfolding(crate::specs::Constructs::ranges_of))]
fn ranges(alloc: Global, parts: Queue<Part>) -> Result<(Items<CaseRange>, u32), Refusal>
    ensures { Gives (λ x. (x.0, x.1)) result (ranges_of parts) }
{
    something(&parts)?;
    each_range(alloc, parts)
}

#[tactic(auto, unfolding(crate::specs::Constructs::ranged_case))]
fn ranged_case(alloc: Global, mut items: Queue<Item>) -> Result<(Form, u32), Refusal>
    ensures { Gives (λ x. (x.0, x.1)) result (ranged_case items) }
{
    let parts = group_first(&mut items)?;
    let (ranges, depth) = ranges(alloc, parts)?;
    let construct = maybe_word(items)?;
    let form = Form::Case {
        construct,
        is_default: 0,
        ranges,
    };
    Ok((form, depth))
}

#[tactic(auto, unfolding(crate::specs::Constructs::default_case))]
fn default_case(alloc: Global, mut items: Queue<Item>) -> Result<(Form, u32), Refusal>
    ensures { Gives (λ x. (x.0, x.1)) result (default_case items) }
{
    word(&mut items, b"default")?;
    let construct = maybe_word(items)?;
    let form = Form::Case {
        construct,
        is_default: 1,
        ranges: Items::new(alloc),
    };
    Ok((form, 0))
}

#[tactic(auto, unfolding(crate::specs::Constructs::case_row))]
pub fn case_row(alloc: Global, items: Queue<Item>) -> Result<(Form, u32), Refusal>
    ensures { Gives (λ x. (x.0, x.1)) result (case_row items) }
{
    if is_group_first(&items) {
        return ranged_case(alloc, items);
    }
    default_case(alloc, items)
}

#[tactic(auto, unfolding(crate::specs::Constructs::ended_unit))]
fn ended_unit(name: &[u8]) -> Option<End>
    ensures { result ≡ ended_unit name.now }
{
    if is(name, b"program") {
        return Some(End::Program);
    }
    if is(name, b"module") {
        return Some(End::Module);
    }
    if is(name, b"subroutine") {
        return Some(End::Subroutine);
    }
    if is(name, b"function") {
        return Some(End::Function);
    }
    None
}

#[tactic(auto, unfolding(crate::specs::Constructs::ended_by))]
fn ended_by(name: &[u8]) -> Option<End>
    ensures { result ≡ ended_by name.now }
{
    if is(name, b"type") {
        return Some(End::Type);
    }
    if is(name, b"interface") {
        return Some(End::Interface);
    }
    if is(name, b"if") {
        return Some(End::If);
    }
    if is(name, b"do") {
        return Some(End::Do);
    }
    if is(name, b"select") {
        return Some(End::Select);
    }
    ended_unit(name)
}

#[tactic(auto, unfolding(crate::specs::Constructs::ended_unit_at_once))]
fn ended_unit_at_once(name: &[u8]) -> Option<End>
    ensures { result ≡ ended_unit_at_once name.now }
{
    if is(name, b"endprogram") {
        return Some(End::Program);
    }
    if is(name, b"endmodule") {
        return Some(End::Module);
    }
    if is(name, b"endsubroutine") {
        return Some(End::Subroutine);
    }
    if is(name, b"endfunction") {
        return Some(End::Function);
    }
    None
}

#[tactic(auto, unfolding(crate::specs::Constructs::ended_at_once))]
pub fn ended_at_once(name: &[u8]) -> Option<End>
    ensures { result ≡ ended_at_once name.now }
{
    if is(name, b"endtype") {
        return Some(End::Type);
    }
    if is(name, b"endinterface") {
        return Some(End::Interface);
    }
    if is(name, b"endif") {
        return Some(End::If);
    }
    if is(name, b"enddo") {
        return Some(End::Do);
    }
    if is(name, b"endselect") {
        return Some(End::Select);
    }
    ended_unit_at_once(name)
}

#[tactic(auto, unfolding(crate::specs::Constructs::end_behind))]
pub fn end_behind(words: Option<End>, items: Queue<Item>) -> Result<(Form, u32), Refusal>
    ensures { Gives (λ x. (x.0, x.1)) result (end_behind words items) }
{
    match words {
        Some(end) => {
            let name = maybe_word(items)?;
            Ok((Form::End { end, name }, 0))
        }
        None => Err(Refusal::Unformed),
    }
}

#[tactic(auto, unfolding(crate::specs::Constructs::end_words))]
fn end_words(mut items: Queue<Item>) -> Result<(Form, u32), Refusal>
    ensures { Gives (λ x. (x.0, x.1)) result (end_words items) }
{
    let name = word_first(&mut items)?;
    end_behind(ended_by(name.bytes()), items)
}

#[tactic(auto, unfolding(crate::specs::Constructs::end_row))]
pub fn end_row(items: Queue<Item>) -> Result<(Form, u32), Refusal>
    ensures { Gives (λ x. (x.0, x.1)) result (end_row items) }
{
    if items.len() == 0 {
        return Ok((
            Form::End {
                end: End::Bare,
                name: None,
            },
            0,
        ));
    }
    end_words(items)
}
