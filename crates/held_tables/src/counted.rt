//! A tableau that counts the calls of `pivot`, and hands all calls on.

use out_of_memory::NoMemory;
use residue_field::Field;
use row_entries::EntryMat;
use row_transform::{Base, Tableau, TableauParts, Which};
use std::alloc::Global;

#[derive(Drop)]
pub(crate) struct Counted<T: Drop> {
    tableau: T,
    pub(crate) calls: u64,
}

impl<F: Field, T: Tableau<F>> Tableau<F> for Counted<T> {
    ghost state = { λ t. T.state t.tableau };

    ghost pivots = { λ t. T.pivots t.tableau };

    ghost room_of = { λ t. T.room_of t.tableau };

    fn open(alloc: Global, q: &EntryMat<F>) -> Result<Self, NoMemory> {
        Ok(Counted {
            tableau: T::open(alloc, q)?,
            calls: 0,
        })
    }

    fn base(&self) -> &Base {
        self.tableau.base()
    }

    fn rows(&self) -> usize {
        self.tableau.rows()
    }

    fn columns(&self) -> usize {
        self.tableau.columns()
    }

    fn entry(&self, row: usize, col: usize) -> F {
        self.tableau.entry(row, col)
    }

    fn next_candidate(&self, col: usize, from: usize) -> Option<usize> {
        self.tableau.next_candidate(col, from)
    }

    fn pivot(&mut self, row: usize, col: usize) {
        self.calls = self.calls.saturating_add(1);
        self.tableau.pivot(row, col);
    }

    fn drop_base(&mut self, col: usize) {
        self.tableau.drop_base(col);
    }

    fn entry_of(&self, which: Which, row: usize, col: usize) -> F {
        self.tableau.entry_of(which, row, col)
    }

    fn parts(&self) -> Result<TableauParts<F>, NoMemory> {
        self.tableau.parts()
    }

    fn room(&mut self, rows: usize, cols: usize) -> Result<(), NoMemory> {
        self.tableau.room(rows, cols)
    }

    fn insert_row(&mut self, at: usize, items: &[F]) {
        self.tableau.insert_row(at, items);
    }

    fn remove_row(&mut self, at: usize) -> Option<usize> {
        self.tableau.remove_row(at)
    }

    fn insert_column(&mut self, at: usize) {
        self.tableau.insert_column(at);
    }

    fn remove_column(&mut self, at: usize) {
        self.tableau.remove_column(at);
    }
}
