//! The modules that files hold, as numbers.
ghost use Rattle.std.specs.Prelude.{◌≡◌, ℕ, List, IfOk, OnOk, map};
ghost use Rattle.file_order.specs.Modules.{names_of, at_place, held_by, used_by};
ghost use Rattle.file_order.specs.Numbers.{IsGrown, IsNumbering, HasNumber, HaveNumbers, numbers_in};

use crate::rows::Rows;
use crate::uses::{held, used};
use ast_nodes::File;
use lf_base::Memory;
use std::alloc::Global;
use std::collections::BTreeMap;

/// The number of each module that a file holds, by the module's name.
pub(crate) type Numbers<'a> = BTreeMap<&'a [u8], usize>;

/// Gives a module the next number, unless it has one.
fn add<'a>(numbers: &mut Numbers<'a>, name: &'a [u8]) -> Result<(), Memory>
    ensures grown { OnOk result (IsGrown numbers.old numbers.new) }
    ensures named { OnOk result (HasNumber numbers.new name.now) }
{
    if numbers.contains_key(name) {
        return Ok(());
    }
    let next = numbers.len();
    numbers.insert(name, next)?;
    Ok(())
}

/// Gives numbers to the modules that a file holds.
fn add_file<'a>(alloc: Global, numbers: &mut Numbers<'a>, file: &'a File) -> Result<(), Memory>
    ensures grown { OnOk result (IsGrown numbers.old numbers.new) }
    ensures named { OnOk result (HaveNumbers numbers.new (held_by file.now)) }
{
    let names = held(alloc, file)?;
    for name in &names {
        add(numbers, *name)?;
    }
    Ok(())
}

/// The number of each module that a file holds.
pub(crate) fn numbers_of<'a>(alloc: Global, files: &'a [File]) -> Result<Numbers<'a>, Memory>
    ensures numbering { IfOk result IsNumbering }
    ensures named { IfOk result (λ n. (p : ℕ) → HaveNumbers n (at_place held_by files.now p)) }
{
    let mut numbers = BTreeMap::new(alloc);
    for place in 0..files.len() {
        add_file(alloc, &mut numbers, &files[place])?;
    }
    Ok(numbers)
}

/// The numbers of those of the names that have one.
fn row_of(alloc: Global, numbers: &Numbers<'_>, names: &[&[u8]]) -> Result<Vec<usize>, Memory>
    ensures { IfOk result (λ row. row.items ≡ numbers_in numbers.now (names_of names.now)) }
{
    let mut row = Vec::new(alloc);
    for name in names {
        if let Some(number) = numbers.get(*name) {
            row.push(*number)?;
        }
    }
    Ok(row)
}

/// The numbers of the modules that each file holds.
pub(crate) fn held_rows(
    alloc: Global,
    numbers: &Numbers<'_>,
    files: &[File],
) -> Result<Rows, Memory>
    ensures { IfOk result (λ rows. rows ≡ map (λ file. numbers_in numbers.now (held_by file)) files.now) }
{
    let mut rows = Rows::new(alloc, 0)?;
    for file in files {
        let names = held(alloc, file)?;
        rows.add(row_of(alloc, numbers, &names)?)?;
    }
    Ok(rows)
}

/// The numbers of the modules that each file uses, without those that no file holds.
pub(crate) fn used_rows(
    alloc: Global,
    numbers: &Numbers<'_>,
    files: &[File],
) -> Result<Rows, Memory>
    ensures { IfOk result (λ rows. rows ≡ map (λ file. numbers_in numbers.now (used_by file)) files.now) }
{
    let mut rows = Rows::new(alloc, 0)?;
    for file in files {
        let names = used(alloc, file)?;
        rows.add(row_of(alloc, numbers, &names)?)?;
    }
    Ok(rows)
}
