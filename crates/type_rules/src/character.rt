//! Operations on characters.
ghost use Rattle.std.specs.Prelude.{◌≡◌, ◌≤◌, ◌++◌, get_or, length};
ghost use Rattle.type_rules.specs.Values.{Gives, Characters};
ghost use Rattle.type_rules.specs.Characters.{padded, first_difference, text_order, concatenated, trimmed, place_from, number_of_byte, byte_of_number};
ghost use Rattle.type_rules.specs.Operations.{on_texts, of_text, of_texts, number, numbered};
ghost use Rattle.type_rules.specs.Folds.{Folds};

use crate::answer::{Folded, fitted, no_rule};
use crate::code::Intrinsic;
use crate::constant::{Const, TypeFault};
use crate::scalar::relation;
use lf_base::Rule;
use lf_base::operator::Operator;
use sqlite_items::Items;
use std::alloc::Global;
use std::cmp::Ordering;

pub const BLANK: u8 = b' ';

/// A character value has at most as many bytes.
pub const LENGTH_LIMIT: usize = 65_535;

/// A character value.
pub fn text(alloc: Global, bytes: &[u8]) -> Folded
    ensures { Folds result (Gives (Characters bytes.now)) }
{
    Ok(Const::CharConst {
        bytes: Items::from_slice(alloc, bytes)?,
    })
}

/// A number of kind 4.
fn number(n: usize) -> Folded
    ensures { Folds result (number n) }
{
    fitted(4, Ok(n as i128))
}

/// The byte at a place, or a blank behind the end.
fn byte_or_blank(text: &[u8], at: usize) -> u8
    ensures { result ≡ get_or text.now at 32 }
{
    if at < text.len() { text[at] } else { BLANK }
}

/// The bytes at the first place where the texts differ, both padded with blanks to this length.
fn first_difference(a: &[u8], b: &[u8], width: usize) -> Option<(u8, u8)>
    requires first { length a.now ≤ width }
    requires second { length b.now ≤ width }
    ensures { result ≡ first_difference (padded width a.now) (padded width b.now) }
{
    for i in 0..width {
        let x = byte_or_blank(a, i);
        let y = byte_or_blank(b, i);
        if x != y {
            return Some((x, y));
        }
    }
    None
}

/// The order of two texts, of which the shorter one is padded with blanks.
fn text_order(a: &[u8], b: &[u8]) -> Ordering
    ensures { result ≡ text_order a.now b.now }
{
    let longer = if a.len() < b.len() { b.len() } else { a.len() };
    match first_difference(a, b, longer) {
        Some((x, y)) => x.cmp(&y),
        None => Ordering::Equal,
    }
}

/// The two texts, one behind the other.
fn concatenated(alloc: Global, a: &[u8], b: &[u8]) -> Folded
    ensures { Folds result (concatenated a.now b.now) }
{
    if a.len() > LENGTH_LIMIT || b.len() > LENGTH_LIMIT - a.len() {
        return Err(TypeFault::Rule(Rule::E416));
    }
    joined(alloc, a, b)
}

fn joined(alloc: Global, a: &[u8], b: &[u8]) -> Folded
    ensures { Folds result (Gives (Characters (a.now ++ b.now))) }
{
    let mut bytes = Vec::from_slice(alloc, a)?;
    bytes.extend_from_slice(b)?;
    Ok(Const::CharConst {
        bytes: Items::from_vec(bytes),
    })
}

/// How many bytes are left without the blanks at the end.
fn trimmed_length(text: &[u8]) -> usize
    ensures { result ≡ length (trimmed text.now) }
{
    let mut kept = 0;
    for i in 0..text.len() {
        if text[i] != BLANK {
            kept = i + 1;
        }
    }
    kept
}

/// The text without the blanks at its end.
fn trimmed<'a>(text: &'a [u8]) -> &'a [u8]
    ensures { result.now ≡ trimmed text.now }
{
    &text[..trimmed_length(text)]
}

/// The first place, counted from 1, at which the part stands in the text, or 0.
fn place(text: &[u8], part: &[u8]) -> usize
    ensures { result ≡ place_from 1 part.now text.now }
{
    if part.is_empty() {
        return 1;
    }
    for i in 0..text.len() {
        if text[i..].starts_with(part) {
            return i + 1;
        }
    }
    0
}

/// The one byte of a number.
pub fn byte_of_number(alloc: Global, number: i64) -> Folded
    ensures { Folds result (byte_of_number number) }
{
    if number < 0 || 255 < number {
        return Err(TypeFault::Rule(Rule::E415));
    }
    text(alloc, &[number as u8])
}

/// An operator on two texts.
pub fn on_texts(alloc: Global, op: Operator, a: &[u8], b: &[u8]) -> Folded
    ensures { Folds result (on_texts op a.now b.now) }
{
    match op {
        Operator::Concatenate => concatenated(alloc, a, b),
        _ => relation(op, text_order(a, b)),
    }
}

/// An intrinsic function of one text.
pub fn of_text(alloc: Global, which: Intrinsic, bytes: &[u8]) -> Folded
    ensures { Folds result (of_text which bytes.now) }
{
    match which {
        Intrinsic::Iachar => number_of_byte(bytes),
        Intrinsic::Len => number(bytes.len()),
        Intrinsic::LenTrim => number(trimmed_length(bytes)),
        Intrinsic::Trim => text(alloc, trimmed(bytes)),
        _ => no_rule(),
    }
}

/// The number of the one byte.
fn number_of_byte(bytes: &[u8]) -> Folded
    ensures { Folds result (numbered (number_of_byte bytes.now)) }
{
    match bytes {
        [byte] => number(usize::from(*byte)),
        _ => Err(TypeFault::Rule(Rule::E415)),
    }
}

/// An intrinsic function of two texts.
pub fn of_texts(which: Intrinsic, text: &[u8], part: &[u8]) -> Folded
    ensures { Folds result (of_texts which text.now part.now) }
{
    match which {
        Intrinsic::Index => number(place(text, part)),
        _ => no_rule(),
    }
}
