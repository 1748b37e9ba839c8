//! The open places in a row of places.
ghost use Rattle.std.specs.Prelude.{◌≡◌, ◌≢◌, ◌<◌, ◌++◌, ◌∷◌, [], ℕ, List, length, IfOk, OnOk, IfSome, IfNone};
ghost use Rattle.file_order.specs.Search.{row_at, is_open, IsListed, IsOpen, AreFalling, IsTrimmed, IsLeastIf, HasTwoIf};

use crate::rows::Rows;
use lf_base::Memory;

/// Whether a place is open, which means that it has no place in the order yet.
pub(crate) fn opened(marks: &[bool], place: usize) -> bool
    ensures { result ≡ is_open marks.now place }
{
    match marks.get(place) {
        Some(mark) => *mark,
        None => false,
    }
}

/// The last place of a row, after those that are not open are taken out from its end.
fn last_open(rows: &mut Rows, marks: &[bool], row: usize) -> Option<usize>
    requires { row < length rows.old }
    ensures trimmed { IsTrimmed marks.now rows.old rows.new }
    ensures is_open { IfSome result (IsOpen marks.now) }
    ensures last { IfSome result (λ p. (front : List ℕ) × (row_at rows.new row ≡ front ++ p ∷ [])) }
    ensures none { IfNone result (row_at rows.new row ≡ []) }
{
    while let Some(place) = rows.last(row) {
        if opened(marks, place) {
            return Some(place);
        }
        rows.pop(row);
    }
    None
}

/// The last open place but one of a row, of which the last one is given.
fn second_open(
    rows: &mut Rows,
    marks: &[bool],
    row: usize,
    last: usize,
) -> Result<Option<usize>, Memory>
    requires within { row < length rows.old }
    requires falling { AreFalling rows.old }
    requires last { (front : List ℕ) × (row_at rows.old row ≡ front ++ last ∷ []) }
    ensures trimmed { OnOk result (IsTrimmed marks.now rows.old rows.new) }
    ensures found { IfOk result (IsLeastIf (λ a. (a ≢ last) × IsOpen marks.now a × IsListed rows.old a row)) }
{
    rows.pop(row);
    let second = last_open(rows, marks, row);
    rows.push(row, last)?;
    Ok(second)
}

/// The least open place of a row other than this one.
pub(crate) fn other_open(
    rows: &mut Rows,
    marks: &[bool],
    row: usize,
    place: usize,
) -> Result<Option<usize>, Memory>
    requires within { row < length rows.old }
    requires falling { AreFalling rows.old }
    ensures trimmed { OnOk result (IsTrimmed marks.now rows.old rows.new) }
    ensures found { IfOk result (IsLeastIf (λ a. (a ≢ place) × IsOpen marks.now a × IsListed rows.old a row)) }
{
    let last = last_open(rows, marks, row);
    if last != Some(place) {
        return Ok(last);
    }
    second_open(rows, marks, row, place)
}

/// Whether there are two open places in a row.
pub(crate) fn has_two_open(rows: &mut Rows, marks: &[bool], row: usize) -> Result<bool, Memory>
    requires within { row < length rows.old }
    requires falling { AreFalling rows.old }
    ensures trimmed { OnOk result (IsTrimmed marks.now rows.old rows.new) }
    ensures two { IfOk result (HasTwoIf (λ a. IsOpen marks.now a × IsListed rows.old a row)) }
{
    let Some(last) = last_open(rows, marks, row) else {
        return Ok(false);
    };
    let second = second_open(rows, marks, row, last)?;
    Ok(second.is_some())
}
