//! Rows of numbers: of places for each module, and of modules for each place.
ghost use Rattle.std.specs.Prelude.{◌≡◌, ◌<◌, [], ◌∷◌, ◌++◌, ℕ, List, length, replicate, slice_set, IfOk, OnOk, IfSome, IfNone, Some, None};
ghost use Rattle.std.specs.Option.{option_to_list};
ghost use Rattle.file_order.specs.Search.{row_at};

use lf_base::Memory;
use std::alloc::Global;
use std::marker::Model;

/// A row of numbers for each number up to a count.
#[derive(Drop)]
pub(crate) struct Rows {
    rows: Vec<Vec<usize>>,
}

impl Model for Rows {
    ghost use Rattle.std.specs.Prelude.{List, ℕ, map};

    ghost Value = { List (List ℕ) };

    ghost view = { λ r. map (λ v. v.items) r.rows.items };
}

impl Rows {
    /// So many empty rows.
    pub fn new(alloc: Global, count: usize) -> Result<Rows, Memory>
        ensures { IfOk result (λ r. r ≡ replicate count []) }
    {
        let mut rows = Vec::with_capacity(alloc, count)?;
        for _place in 0..count {
            rows.push(Vec::new(alloc))?;
        }
        Ok(Rows { rows })
    }

    /// How many rows there are.
    pub fn len(&self) -> usize
        ensures { result ≡ length self.now }
    {
        self.rows.len()
    }

    /// Adds a row behind the others.
    pub fn add(&mut self, row: Vec<usize>) -> Result<(), Memory>
        ensures { OnOk result (self.new ≡ self.old ++ row.items ∷ []) }
    {
        self.rows.push(row)?;
        Ok(())
    }

    /// The row of a number.
    pub fn row(&self, index: usize) -> &[usize]
        requires { index < length self.now }
        ensures { result.now ≡ row_at self.now index }
    {
        self.rows[index].as_slice()
    }

    /// The last in the row of a number.
    pub fn last(&self, index: usize) -> Option<usize>
        requires { index < length self.now }
        ensures some { IfSome result (λ x. (front : List ℕ) × (row_at self.now index ≡ front ++ x ∷ [])) }
        ensures none { IfNone result (row_at self.now index ≡ []) }
    {
        self.row(index).last().copied()
    }

    /// Puts a number last into the row of another.
    pub fn push(&mut self, index: usize, last: usize) -> Result<(), Memory>
        requires { index < length self.old }
        ensures { OnOk result (self.new ≡ slice_set self.old index (row_at self.old index ++ last ∷ [])) }
    {
        self.rows[index].push(last)?;
        Ok(())
    }

    /// Takes the last out of the row of a number.
    pub fn pop(&mut self, index: usize) -> Option<usize>
        requires { index < length self.old }
        ensures row { row_at self.old index ≡ row_at self.new index ++ option_to_list result }
        ensures others { self.new ≡ slice_set self.old index (row_at self.new index) }
        ensures none { IfNone result (row_at self.old index ≡ []) }
    {
        self.rows[index].pop()
    }
}
