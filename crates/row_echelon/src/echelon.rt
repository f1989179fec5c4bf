//! Rows in echelon form, each beside a right side.

ghost use Rattle.std.specs.Prelude.{◌≡◌, ◌≢◌, ℕ, ◌<◌, ◌≤◌, [], true, false, IfNone, IfOk, IfSome, OnErr, length, map, slice_index};
ghost use Rattle.limits.specs.Limits.{column_limit};
ghost use Rattle.row_echelon.specs.Echelons.{EchelonState, JoinsEchelon, IsRowCombined, IsEchelon, IsRowReduced, SolvesRows};

use crate::pivot_row::{PivotRow, divided};
use crate::row::{add_entries, entries_sum, number_at, put_at, zeros};
use out_of_memory::NoMemory;
use residue_field::Field;
use std::alloc::Global;
use std::marker::Model;

/// Rows over at most 8,192 columns, each with a right side: every row has a 1 at a column of its own, its lead, and the rows
/// after it have 0 there. Of the columns at which a row may lead the one of the least weight is taken, so that rows that
/// come later fill less.
#[derive(Drop)]
pub struct Echelon<F: Field> {
    alloc: Global,
    weights: Vec<usize>,
    rows: Vec<PivotRow<F>>,
}

impl<F: Field> Model for Echelon<F> {
    ghost use Rattle.std.specs.Prelude.{length, map};
    ghost use Rattle.row_entries.specs.Rows.{items};
    ghost use Rattle.row_echelon.specs.Echelons.{EchelonState, IsEchelon};

    ghost Value = { EchelonState };

    ghost view = { λ e. record {
      width = length e.weights.items;
      rows = map (λ r. record { lead = r.lead; right = F.number r.right; items = items F.number r.entries.items })
          e.rows.items;
    } };

    ghost invariant = { λ e. IsEchelon F.modulus (record {
      width = length e.weights.items;
      rows = map (λ r. record { lead = r.lead; right = F.number r.right; items = items F.number r.entries.items })
          e.rows.items;
    }) };
}

impl<F: Field> Echelon<F> {
    /// No row yet, over as many columns as there are weights.
    pub fn open(alloc: Global, weights: Vec<usize>) -> Echelon<F>
        requires { length weights.items ≤ column_limit }
        ensures { result ≡ record { width = length weights.items; rows = [] } }
    {
        Echelon {
            alloc,
            weights,
            rows: Vec::new(alloc),
        }
    }

    /// Tells a proof that the rows are in echelon form. It does nothing when it runs.
    pub fn is_echelon(&self)
        ensures { IsEchelon F.modulus self.now }
    {
        // a proof knows what the type keeps once a field is read
        let _ = &self.rows;
    }

    // Adds multiples of the rows to a row, so that it is 0 at all their leads, and gives its right side then.
    fn reduced(&self, row: &mut [F], right: F) -> F
        requires { length row.old ≡ self.now.width }
        ensures { IsRowReduced F.modulus self.now (length self.now.rows) (map F.number row.old) (F.number right)
            (map F.number row.new) (F.number result) }
    {
        let mut right = right;
        for pivot in &self.rows {
            let factor = number_at(row, pivot.lead).neg();
            add_entries(row, &pivot.entries, factor);
            right = right.plus_multiple(factor, pivot.right);
        }
        right
    }

    // Whether a column has less weight than the one that is the best so far.
    fn is_lighter(&self, column: usize, best: Option<usize>) -> bool
        requires column { column < self.now.width }
        requires best { IfSome best (λ other. other < self.now.width) }
        ensures { IfNone best (result ≡ true) }
    {
        match best {
            Some(other) => self.weights[column] < self.weights[other],
            None => true,
        }
    }

    // The column of the least weight at which a row is not 0.
    fn lead(&self, row: &[F]) -> Option<usize>
        requires { length row.now ≡ self.now.width }
        ensures none { IfNone result ((j : ℕ) → j < self.now.width → slice_index (map F.number row.now) j ≡ 0) }
        ensures below { IfSome result (λ lead. lead < self.now.width) }
        ensures some { IfSome result (λ lead. slice_index (map F.number row.now) lead ≢ 0) }
    {
        let mut best = None;
        for column in 0..row.len() {
            if !row[column].is_zero() && self.is_lighter(column, best) {
                best = Some(column);
            }
        }
        best
    }

    /// Puts a row with its right side behind the last one, reduced by all of them: false where it is a combination of
    /// them, so that nothing is left of it. What it leaves in `row` is of no use.
    pub fn join(&mut self, row: &mut [F], right: F) -> Result<bool, NoMemory>
        requires { length row.old ≡ self.old.width }
        ensures err { OnErr result (self.new ≡ self.old) }
        ensures joined { IfOk result (λ joined. joined ≡ true →
            JoinsEchelon F.modulus self.old self.new (map F.number row.old) (F.number right)) }
        ensures same { IfOk result (λ joined. joined ≡ false → self.new ≡ self.old) }
        ensures combined { IfOk result (λ joined. joined ≡ false →
            IsRowCombined F.modulus self.old (map F.number row.old)) }
    {
        let right = self.reduced(row, right);
        let Some(lead) = self.lead(row) else {
            return Ok(false);
        };
        let pivot = divided(self.alloc, row, lead, right)?;
        self.rows.push(pivot)?;
        Ok(true)
    }

    /// Numbers for the columns with which each row gives its right side; 0 at the columns that are no row's lead.
    pub fn solution(&self) -> Result<Vec<F>, NoMemory>
        ensures { IfOk result (λ x. SolvesRows F.modulus self.now 0 (map F.number x.items)) }
    {
        let mut x = zeros(self.alloc, self.weights.len())?;
        self.solve(&mut x);
        Ok(x)
    }

    // Puts the numbers at the leads, from the last row to the first.
    fn solve(&self, x: &mut [F])
        requires width { length x.old ≡ self.now.width }
        requires zero { (j : ℕ) → slice_index (map F.number x.old) j ≡ 0 }
        ensures { SolvesRows F.modulus self.now 0 (map F.number x.new) }
    {
        for t in (0..self.rows.len()).rev() {
            let pivot = &self.rows[t];
            let value = pivot.right.sub(entries_sum(&pivot.entries, x));
            put_at(x, pivot.lead, value);
        }
    }
}
