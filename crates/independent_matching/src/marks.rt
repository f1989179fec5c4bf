//! What makes a column an end, kept up to date from pivot to pivot.

ghost use Rattle.std.specs.Prelude.{◌≡◌, ◌≢◌, ℕ, ◌+◌, ◌<◌, Bool, true, false, Some, IfOk, IfSome, is_some, length};
ghost use Rattle.sparse_t.specs.Incidences.{incidence_rows, touches};
ghost use Rattle.exchange_graph.specs.Marks.{members_of};
ghost use Rattle.mixed_augmentation_laws.specs.Moves.{IsFreeRow};
ghost use Rattle.mixed_matrices.specs.Arcs.{is_end, is_free};
ghost use Rattle.independent_matching.specs.Marks.{AreMarks, AreMarksOfQ, AreNoted, AreTouchedByRow, IsChangedAt};
ghost use Rattle.independent_matching.specs.Marks.{IsEndMark, AreKeptMarks, IsQMark, IsTMark, IsTouched, touched_at};
ghost use Rattle.independent_matching.specs.Sides.{in_q, layers_of, number, tableau_of_pair};

use crate::pair::Pair;
use crate::resting::Resting;
use crate::row::Row;
use out_of_memory::NoMemory;
use residue_field::Field;
use row_transform::{Tableau, Which};
use std::alloc::Global;

// Marks of the ends, and the Q row that makes a column one, if there is one: what a pivot may change. The first `count`
// items of `touched` are the columns that it does change. No column before `first` is free and an end.
#[derive(Drop)]
pub struct Marks {
    pub ends: Vec<bool>,
    pub by_q: Vec<Option<usize>>,
    pub touched: Vec<usize>,
    pub count: usize,
    pub first: usize,
}

impl Marks {
    /// So many free columns, none of them an end: room for the marks of a pair with so many columns.
    pub fn empty(alloc: Global, columns: usize) -> Result<(Resting, Self), NoMemory>
        ensures { IfOk result (λ (r, m). AreKeptMarks columns r m) }
    {
        let resting = Resting {
            free: vec![in alloc; true; columns]?,
            by_t: vec![in alloc; false; columns]?,
        };
        let marks = Marks {
            ends: vec![in alloc; false; columns]?,
            by_q: vec![in alloc; None; columns]?,
            touched: vec![in alloc; 0; columns]?,
            count: 0,
            first: 0,
        };
        Ok((resting, marks))
    }

    /// The marks of a pair.
    pub fn open<F: Field, T: Tableau<F>>(
        alloc: Global,
        pair: &Pair<F, T>,
    ) -> Result<(Resting, Self), NoMemory>
        requires width { pair.now.mates.pattern.width ≡ (T.state pair.now.tableau).columns }
        ensures { IfOk result (λ (r, m). AreMarks F.modulus (T.state pair.now.tableau) pair.now.mates r m) }
    {
        let (mut resting, mut marks) = Marks::empty(alloc, pair.tableau.columns())?;
        marks.look(&mut resting, pair);
        Ok((resting, marks))
    }

    /// Looks at each column of a pair.
    pub fn look<F: Field, T: Tableau<F>>(&mut self, resting: &mut Resting, pair: &Pair<F, T>)
        requires width { pair.now.mates.pattern.width ≡ (T.state pair.now.tableau).columns }
        requires sized { AreKeptMarks (T.state pair.now.tableau).columns resting.old self.old }
        ensures { AreMarks F.modulus (T.state pair.now.tableau) pair.now.mates resting.new self.new }
    {
        self.first = 0;
        resting.mark_free(pair);
        self.look_for_rows(resting, pair);
    }

    // Looks for rows of each column that no column has.
    fn look_for_rows<F: Field, T: Tableau<F>>(&mut self, resting: &mut Resting, pair: &Pair<F, T>)
        requires width { pair.now.mates.pattern.width ≡ (T.state pair.now.tableau).columns }
        requires sized { AreKeptMarks (T.state pair.now.tableau).columns resting.old self.old }
        requires free { (x : ℕ) → x < (T.state pair.now.tableau).columns → members_of resting.old.free.items x
            ≡ is_free (tableau_of_pair (T.state pair.now.tableau) pair.now.mates) x }
        ensures { AreMarks F.modulus (T.state pair.now.tableau) pair.now.mates resting.new self.new }
    {
        for x in 0..pair.tableau.columns() {
            self.find_t_row(resting, pair, x);
            self.find_q_row(resting, pair, x, 0);
        }
    }

    // Marks x as an end, or as none.
    fn mark_end(&mut self, resting: &Resting, x: usize, end: bool)
        requires sized { AreKeptMarks (length resting.now.free.items) resting.now self.old }
        requires x { x < length resting.now.free.items }
        ensures here { members_of self.new.ends.items x ≡ end }
        ensures others { (y : ℕ) → y ≢ x → members_of self.new.ends.items y ≡ members_of self.old.ends.items y }
        ensures rest { self.new ≡ record self.old { ends = self.new.ends; first = self.new.first } }
        ensures sized { AreKeptMarks (length resting.now.free.items) resting.now self.new }
    {
        self.ends[x] = end;
        if end && x < self.first && resting.free[x] {
            self.first = x;
        }
    }

    // Looks whether x touches a T row that no column has.
    fn find_t_row<F: Field, T: Tableau<F>>(
        &mut self,
        resting: &mut Resting,
        pair: &Pair<F, T>,
        x: usize,
    )
        requires sized { AreKeptMarks pair.now.mates.pattern.width resting.old self.old }
        requires x { x < pair.now.mates.pattern.width }
        ensures found { IsTMark pair.now.mates resting.new.by_t.items x }
        ensures end { IsEndMark resting.new self.new x }
        ensures free { resting.new.free ≡ resting.old.free }
        ensures by_q { self.new.by_q ≡ self.old.by_q }
        ensures others { IsChangedAt resting.old resting.new self.old self.new x }
        ensures sized { AreKeptMarks pair.now.mates.pattern.width resting.new self.new }
    {
        let by_t = pair.free_t_row(x).is_some();
        resting.by_t[x] = by_t;
        let end = by_t || self.by_q[x].is_some();
        self.mark_end(resting, x, end);
    }

    // Looks for a Q row that no column has and where P has an entry in x: first at the one that is told, then at those
    // from `from` on.
    fn find_q_row<F: Field, T: Tableau<F>>(
        &mut self,
        resting: &Resting,
        pair: &Pair<F, T>,
        x: usize,
        from: usize,
    )
        requires sized { AreKeptMarks (T.state pair.now.tableau).columns resting.now self.old }
        requires x { x < (T.state pair.now.tableau).columns }
        ensures found { IsQMark F.modulus (T.state pair.now.tableau) self.new.by_q.items x }
        ensures end { IsEndMark resting.now self.new x }
        ensures touched { self.new.touched ≡ self.old.touched }
        ensures count { self.new.count ≡ self.old.count }
        ensures others { IsChangedAt resting.now resting.now self.old self.new x }
        ensures sized { AreKeptMarks (T.state pair.now.tableau).columns resting.now self.new }
    {
        let by_q = match self.by_q[x] {
            Some(row) if pair.is_free_q_row(row, x) => Some(row),
            _ => pair.free_q_row(x, from),
        };
        self.by_q[x] = by_q;
        let end = resting.by_t[x] || by_q.is_some();
        self.mark_end(resting, x, end);
    }

    /// A row that x may take and that no column has; one of T comes first, since it needs no pivot.
    pub fn free_row<F: Field, T: Tableau<F>>(&self, pair: &Pair<F, T>, x: usize) -> Option<Row>
        requires width { pair.now.mates.pattern.width ≡ (T.state pair.now.tableau).columns }
        requires x { x < (T.state pair.now.tableau).columns }
        requires count { length self.now.by_q.items ≡ (T.state pair.now.tableau).columns }
        requires marks { (y : ℕ) → y < (T.state pair.now.tableau).columns →
            IsQMark F.modulus (T.state pair.now.tableau) self.now.by_q.items y }
        ensures free { IfSome result (λ row. IsFreeRow F.modulus (layers_of (T.state pair.now.tableau) pair.now.mates)
            (tableau_of_pair (T.state pair.now.tableau) pair.now.mates) x (in_q row) (number row)) }
        ensures end { is_some result ≡ is_end F.modulus (layers_of (T.state pair.now.tableau) pair.now.mates)
            (tableau_of_pair (T.state pair.now.tableau) pair.now.mates) x }
    {
        match (pair.free_t_row(x), self.by_q[x]) {
            (Some(row), _) => Some(Row::T(row)),
            (None, Some(row)) => Some(Row::Q(row)),
            (None, None) => None,
        }
    }

    /// A free column that is an end: a walk of one column. The columns that were passed over before are not looked at
    /// again.
    pub fn free_end(&mut self, resting: &Resting) -> Option<usize>
        requires sized { AreKeptMarks (length resting.now.free.items) resting.now self.old }
        ensures below { IfSome result (λ x. x < length resting.now.free.items) }
        ensures free { IfSome result (λ x. members_of resting.now.free.items x ≡ true) }
        ensures end { IfSome result (λ x. members_of self.old.ends.items x ≡ true) }
        ensures rest { self.new ≡ record self.old { first = self.new.first } }
        ensures sized { AreKeptMarks (length resting.now.free.items) resting.now self.new }
    {
        while self.first < resting.free.len() {
            let x = self.first;
            if resting.free[x] && self.ends[x] {
                return Some(x);
            }
            self.first = x + 1;
        }
        None
    }

    // Notes one column more as touched.
    fn note(&mut self, x: usize)
        requires count { self.old.count < length self.old.touched.items }
        ensures here { touched_at self.new self.old.count ≡ x }
        ensures others { (i : ℕ) → i ≢ self.old.count → touched_at self.new i ≡ touched_at self.old i }
        ensures length { length self.new.touched.items ≡ length self.old.touched.items }
        ensures rest { self.new ≡ record self.old { touched = self.new.touched; count = self.old.count + 1 } }
    {
        self.touched[self.count] = x;
        self.count += 1;
    }

    /// Before a pivot at a Q row: notes the columns in which P has an entry there, since it changes no other ones.
    pub fn touch<F: Field, T: Tableau<F>>(&mut self, pair: &Pair<F, T>, row: usize)
        requires row { row < (T.state pair.now.tableau).rows }
        requires room { length self.old.touched.items ≡ (T.state pair.now.tableau).columns }
        ensures touched { AreTouchedByRow F.modulus (T.state pair.now.tableau) self.new row }
        ensures noted { AreNoted (T.state pair.now.tableau).columns self.new }
        ensures rest { self.new ≡ record self.old { touched = self.new.touched; count = self.new.count } }
    {
        // there are at most 8,192 columns, so that the sum below fits
        pair.tableau.is_tableau();
        self.count = 0;
        let mut from = 0;
        while let Some(entry) = pair.tableau.next_in_row(Which::P, row, from) {
            self.note(entry.0);
            from = entry.0 + 1;
        }
    }

    /// After the pivot: looks anew at the columns that it touched. Rows from `row` on are looked at first.
    pub fn settle<F: Field, T: Tableau<F>>(
        &mut self,
        resting: &Resting,
        pair: &Pair<F, T>,
        row: usize,
    )
        requires sized { AreKeptMarks (T.state pair.now.tableau).columns resting.now self.old }
        requires others { (x : ℕ) → x < (T.state pair.now.tableau).columns → (IsTouched self.old x → ⊥) →
            IsQMark F.modulus (T.state pair.now.tableau) self.old.by_q.items x }
        requires ends { (x : ℕ) → x < (T.state pair.now.tableau).columns → IsEndMark resting.now self.old x }
        ensures { AreMarksOfQ F.modulus (T.state pair.now.tableau) resting.now self.new }
    {
        for at in 0..self.count {
            let x = self.touched[at];
            self.find_q_row(resting, pair, x, row);
        }
    }

    /// After a walk from the column `first`, which took the row `end`.
    pub fn close<F: Field, T: Tableau<F>>(
        &mut self,
        resting: &mut Resting,
        pair: &Pair<F, T>,
        first: usize,
        end: Row,
    )
        requires width { pair.now.mates.pattern.width ≡ (T.state pair.now.tableau).columns }
        requires first { first < (T.state pair.now.tableau).columns }
        requires row { in_q end ≡ false → number end < incidence_rows pair.now.mates.pattern }
        requires of_q { AreMarksOfQ F.modulus (T.state pair.now.tableau) resting.old self.old }
        requires by_t { (x : ℕ) → x < (T.state pair.now.tableau).columns →
            (in_q end ≡ false → touches pair.now.mates.pattern (number end) x ≡ false) →
            IsTMark pair.now.mates resting.old.by_t.items x }
        requires taken { is_free (tableau_of_pair (T.state pair.now.tableau) pair.now.mates) first ≡ false }
        requires free { (x : ℕ) → x < (T.state pair.now.tableau).columns → x ≢ first →
            members_of resting.old.free.items x ≡ is_free (tableau_of_pair (T.state pair.now.tableau) pair.now.mates)
            x }
        ensures { AreMarks F.modulus (T.state pair.now.tableau) pair.now.mates resting.new self.new }
    {
        resting.free[first] = false;
        if let Row::T(row) = end {
            self.take_t_row(resting, pair, row);
        }
    }

    // Looks anew at the columns that touch the T row, which a column has now.
    fn take_t_row<F: Field, T: Tableau<F>>(
        &mut self,
        resting: &mut Resting,
        pair: &Pair<F, T>,
        row: usize,
    )
        requires row { row < incidence_rows pair.now.mates.pattern }
        requires width { pair.now.mates.pattern.width ≡ (T.state pair.now.tableau).columns }
        requires of_q { AreMarksOfQ F.modulus (T.state pair.now.tableau) resting.old self.old }
        requires others { (x : ℕ) → x < pair.now.mates.pattern.width → touches pair.now.mates.pattern row x ≡ false →
            IsTMark pair.now.mates resting.old.by_t.items x }
        ensures of_q { AreMarksOfQ F.modulus (T.state pair.now.tableau) resting.new self.new }
        ensures by_t { (x : ℕ) → x < pair.now.mates.pattern.width → IsTMark pair.now.mates resting.new.by_t.items x }
        ensures free { resting.new.free ≡ resting.old.free }
    {
        for x in pair.mates.pattern().row(row) {
            self.find_t_row(resting, pair, *x as usize);
        }
    }
}
