//! Edits of a pair: its matrix loses the rows and the auxiliary column of an equation, gains empty columns, and gains
//! the rows and the auxiliary column of an equation. Columns of the pair that stay are of the pair still.

ghost use Rattle.std.specs.Prelude.{◌≡◌, ℕ, ◌+◌, ◌-◌, ◌<◌, ◌≤◌, length, map, slice_index, IfSome, OnOk, OnErr};
ghost use Rattle.limits.specs.Limits.{column_limit};
ghost use Rattle.sparse_t.specs.Incidences.{incidence_rows, touches};
ghost use Rattle.bipartite_matching.specs.Matchings.{IsRowFree};
ghost use Rattle.mixed_matrices.specs.LayeredMatrices.{LayeredMatrix};
ghost use Rattle.mixed_edit_laws.specs.Removed.{IsEmptyColumnOut};
ghost use Rattle.mixed_model.specs.Layers.{layered_matrix_of};
ghost use Rattle.independent_matching.specs.Edits.{AreRowItems, HasPairRoom, KeepsRoom};
ghost use Rattle.independent_matching.specs.Edits.{IsEdited, IsEmptyColumnAt, IsWidened};
ghost use Rattle.independent_matching.specs.Edits.{IsColumnOutAt, IsQRowOutAt, IsTRowOutAt, IsThinned, IsChain};
ghost use Rattle.independent_matching.specs.Edits.{IsTakingOut, IsPuttingIn, IsFollowing};

use crate::pair::Pair;
use crate::places::{EquationPlaces, Places};
use mixed_model::Layered;
use out_of_memory::NoMemory;
use residue_field::Field;
use row_transform::Tableau;

impl<F: Field, T: Tableau<F>> Pair<F, T> {
    /// Takes room for so many Q rows, T rows and columns. It changes nothing else, and where it is refused the matching
    /// stays as it is.
    pub fn room(&mut self, q_rows: usize, t_rows: usize, cols: usize) -> Result<(), NoMemory>
        requires rows { q_rows ≤ column_limit }
        requires cols { cols ≤ column_limit }
        ensures tableau { T.state self.new.tableau ≡ T.state self.old.tableau }
        ensures counted { T.pivots self.new.tableau ≡ T.pivots self.old.tableau }
        ensures pattern { self.new.mates.pattern ≡ self.old.mates.pattern }
        ensures mates { self.new.mates.mates ≡ self.old.mates.mates }
        ensures room { OnOk result (HasPairRoom q_rows t_rows cols (T.room_of self.new.tableau) self.new.mates) }
        ensures err { OnErr result (self.new.mates ≡ self.old.mates) }
    {
        self.tableau.room(q_rows, cols)?;
        self.mates.room(t_rows, cols)
    }

    /// Follows the places of an edit, in room that is taken before. The Q row that is put in has these items.
    pub fn follow(&mut self, new: &Layered<F>, at: Places, items: &[F])
        requires following { IsFollowing F.modulus (layered_matrix_of new.now) at (T.state self.old.tableau)
            self.old.mates }
        requires items { IfSome at.put.q (λ row. AreRowItems new.now.q row (map F.number items.now)) }
        requires room { HasPairRoom (length new.now.q.rows) (length new.now.t.rows) new.now.q.width
            (T.room_of self.old.tableau) self.old.mates }
        ensures edited { (L : LayeredMatrix) (least : ℕ) → IsChain F.modulus L (layered_matrix_of new.now) at →
            IsEdited F.modulus L least (T.state self.old.tableau) self.old.mates →
            IsEdited F.modulus (layered_matrix_of new.now) (least - 2) (T.state self.new.tableau) self.new.mates }
        ensures counted { T.pivots self.new.tableau ≡ T.pivots self.old.tableau }
    {
        new.q.is_matrix();
        self.take_out(at.out);
        self.widen(at.unknowns, at.unknowns_after);
        self.put_in(new, at.put, items);
    }

    // Takes the rows and the auxiliary column of an equation out.
    fn take_out(&mut self, at: EquationPlaces)
        requires { IsTakingOut F.modulus at (T.state self.old.tableau) self.old.mates }
        ensures edited { (L K : LayeredMatrix) (least : ℕ) → IsThinned F.modulus L K at →
            IsEdited F.modulus L least (T.state self.old.tableau) self.old.mates →
            IsEdited F.modulus K (least - 2) (T.state self.new.tableau) self.new.mates }
        ensures counted { T.pivots self.new.tableau ≡ T.pivots self.old.tableau }
        ensures room { KeepsRoom (T.room_of self.old.tableau) (T.room_of self.new.tableau) self.old.mates
            self.new.mates }
    {
        self.remove_q_row(at.q);
        self.remove_t_row(at.t);
        self.remove_column(at.column);
    }

    // Puts the rows and the auxiliary column of an equation in.
    fn put_in(&mut self, new: &Layered<F>, at: EquationPlaces, items: &[F])
        requires putting { IsPuttingIn F.modulus (layered_matrix_of new.now) at (T.state self.old.tableau)
            self.old.mates }
        requires items { IfSome at.q (λ row. AreRowItems new.now.q row (map F.number items.now)) }
        requires room { HasPairRoom (length new.now.q.rows) (length new.now.t.rows) new.now.q.width
            (T.room_of self.old.tableau) self.old.mates }
        ensures edited { (L : LayeredMatrix) (least : ℕ) → IsThinned F.modulus (layered_matrix_of new.now) L at →
            IsEdited F.modulus L least (T.state self.old.tableau) self.old.mates →
            IsEdited F.modulus (layered_matrix_of new.now) least (T.state self.new.tableau) self.new.mates }
        ensures counted { T.pivots self.new.tableau ≡ T.pivots self.old.tableau }
    {
        new.are_layers();
        new.q.is_matrix();
        new.t.is_pattern();
        self.insert_column(at.column);
        self.insert_t_row(new, at.t);
        self.insert_q_row(at.q, items);
    }

    // Takes the Q row out, if one is told.
    fn remove_q_row(&mut self, at: Option<usize>)
        requires { IfSome at (λ row. row < (T.state self.old.tableau).rows) }
        ensures edited { (L K : LayeredMatrix) (least : ℕ) → IsQRowOutAt F.modulus at L K →
            IsEdited F.modulus L least (T.state self.old.tableau) self.old.mates →
            IsEdited F.modulus K (least - 1) (T.state self.new.tableau) self.new.mates }
        ensures counted { T.pivots self.new.tableau ≡ T.pivots self.old.tableau }
        ensures room { KeepsRoom (T.room_of self.old.tableau) (T.room_of self.new.tableau) self.old.mates
            self.new.mates }
    {
        if let Some(row) = at {
            self.tableau.remove_row(row);
        }
    }

    // Takes the T row out, if one is told, and its column out of the matching.
    fn remove_t_row(&mut self, at: Option<usize>)
        requires { IfSome at (λ row. row < incidence_rows self.old.mates.pattern) }
        ensures edited { (L K : LayeredMatrix) (least : ℕ) → IsTRowOutAt F.modulus at L K →
            IsEdited F.modulus L least (T.state self.old.tableau) self.old.mates →
            IsEdited F.modulus K (least - 1) (T.state self.new.tableau) self.new.mates }
        ensures counted { T.pivots self.new.tableau ≡ T.pivots self.old.tableau }
        ensures room { KeepsRoom (T.room_of self.old.tableau) (T.room_of self.new.tableau) self.old.mates
            self.new.mates }
    {
        if let Some(row) = at {
            self.part_t_row(row);
            self.mates.remove_row(row);
        }
    }

    // Parts the T row from its column, if it has one.
    fn part_t_row(&mut self, row: usize)
        requires { row < incidence_rows self.old.mates.pattern }
        ensures free { IsRowFree self.new.mates row }
        ensures edited { (L : LayeredMatrix) (least : ℕ) →
            IsEdited F.modulus L least (T.state self.old.tableau) self.old.mates →
            IsEdited F.modulus L (least - 1) (T.state self.new.tableau) self.new.mates }
        ensures pattern { self.new.mates.pattern ≡ self.old.mates.pattern }
        ensures tableau { self.new.tableau ≡ self.old.tableau }
        ensures room { KeepsRoom (T.room_of self.old.tableau) (T.room_of self.new.tableau) self.old.mates
            self.new.mates }
    {
        if self.mates.mate_of_row(row).is_some() {
            self.mates.unlink(row);
        }
    }

    // Takes the column out, if one is told. It is empty.
    fn remove_column(&mut self, at: Option<usize>)
        requires empty { IfSome at (IsEmptyColumnAt F.modulus (T.state self.old.tableau) self.old.mates) }
        requires width { self.old.mates.pattern.width ≡ (T.state self.old.tableau).columns }
        ensures edited { (L K : LayeredMatrix) (least : ℕ) → IsColumnOutAt F.modulus at L K →
            IsEdited F.modulus L least (T.state self.old.tableau) self.old.mates →
            IsEdited F.modulus K least (T.state self.new.tableau) self.new.mates }
        ensures counted { T.pivots self.new.tableau ≡ T.pivots self.old.tableau }
        ensures room { KeepsRoom (T.room_of self.old.tableau) (T.room_of self.new.tableau) self.old.mates
            self.new.mates }
    {
        if let Some(col) = at {
            self.tableau.is_tableau();
            // the pairs are a matching
            let _pattern = self.mates.pattern();
            self.mates.remove_column(col);
            self.tableau.remove_column(col);
        }
    }

    // Puts empty columns in, from column `from` to the one before `to`.
    fn widen(&mut self, from: usize, to: usize)
        requires from { from ≤ (T.state self.old.tableau).columns }
        requires to { from ≤ to }
        requires few { (T.state self.old.tableau).columns + to ≤ column_limit + from }
        requires width { self.old.mates.pattern.width ≡ (T.state self.old.tableau).columns }
        requires room { HasPairRoom (T.state self.old.tableau).rows (incidence_rows self.old.mates.pattern)
            ((T.state self.old.tableau).columns + to - from) (T.room_of self.old.tableau) self.old.mates }
        ensures edited { (L K : LayeredMatrix) (least : ℕ) → IsWidened F.modulus L K from to →
            IsEdited F.modulus L least (T.state self.old.tableau) self.old.mates →
            IsEdited F.modulus K least (T.state self.new.tableau) self.new.mates }
        ensures counted { T.pivots self.new.tableau ≡ T.pivots self.old.tableau }
        ensures room { KeepsRoom (T.room_of self.old.tableau) (T.room_of self.new.tableau) self.old.mates
            self.new.mates }
    {
        for at in from..to {
            self.insert_column_at(at);
        }
    }

    // Puts an empty column in, if one is told.
    fn insert_column(&mut self, at: Option<usize>)
        requires at { IfSome at (λ col. col ≤ (T.state self.old.tableau).columns) }
        requires few { IfSome at (λ col. (T.state self.old.tableau).columns < column_limit) }
        requires width { self.old.mates.pattern.width ≡ (T.state self.old.tableau).columns }
        requires room { IfSome at (λ col. HasPairRoom (T.state self.old.tableau).rows
            (incidence_rows self.old.mates.pattern) ((T.state self.old.tableau).columns + 1)
            (T.room_of self.old.tableau) self.old.mates) }
        ensures edited { (L K : LayeredMatrix) (least : ℕ) → IsColumnOutAt F.modulus at K L →
            IsEdited F.modulus L least (T.state self.old.tableau) self.old.mates →
            IsEdited F.modulus K least (T.state self.new.tableau) self.new.mates }
        ensures counted { T.pivots self.new.tableau ≡ T.pivots self.old.tableau }
        ensures room { KeepsRoom (T.room_of self.old.tableau) (T.room_of self.new.tableau) self.old.mates
            self.new.mates }
    {
        if let Some(col) = at {
            self.insert_column_at(col);
        }
    }

    // Puts an empty column in.
    fn insert_column_at(&mut self, col: usize)
        requires col { col ≤ (T.state self.old.tableau).columns }
        requires few { (T.state self.old.tableau).columns < column_limit }
        requires width { self.old.mates.pattern.width ≡ (T.state self.old.tableau).columns }
        requires room { HasPairRoom (T.state self.old.tableau).rows (incidence_rows self.old.mates.pattern)
            ((T.state self.old.tableau).columns + 1) (T.room_of self.old.tableau) self.old.mates }
        ensures edited { (L K : LayeredMatrix) (least : ℕ) → IsEmptyColumnOut F.modulus K L col →
            IsEdited F.modulus L least (T.state self.old.tableau) self.old.mates →
            IsEdited F.modulus K least (T.state self.new.tableau) self.new.mates }
        ensures rows { (T.state self.new.tableau).rows ≡ (T.state self.old.tableau).rows }
        ensures t_rows { incidence_rows self.new.mates.pattern ≡ incidence_rows self.old.mates.pattern }
        ensures columns { (T.state self.new.tableau).columns ≡ (T.state self.old.tableau).columns + 1 }
        ensures width { self.new.mates.pattern.width ≡ (T.state self.new.tableau).columns }
        ensures counted { T.pivots self.new.tableau ≡ T.pivots self.old.tableau }
        ensures room { KeepsRoom (T.room_of self.old.tableau) (T.room_of self.new.tableau) self.old.mates
            self.new.mates }
    {
        // the pairs are a matching
        let _pattern = self.mates.pattern();
        self.mates.insert_column(col);
        self.tableau.insert_column(col);
    }

    // Puts the T row in, if one is told, as it stands in the new matrix.
    fn insert_t_row(&mut self, new: &Layered<F>, at: Option<usize>)
        requires at { IfSome at (λ row. row ≤ incidence_rows self.old.mates.pattern) }
        requires there { IfSome at (λ row. row < incidence_rows new.now.t) }
        requires few { IfSome at (λ row. incidence_rows self.old.mates.pattern < column_limit) }
        requires width { IfSome at (λ row. self.old.mates.pattern.width ≡ new.now.t.width) }
        requires room { IfSome at (λ row. HasPairRoom 0 (incidence_rows self.old.mates.pattern + 1)
            self.old.mates.pattern.width (T.room_of self.old.tableau) self.old.mates) }
        ensures edited { (L K : LayeredMatrix) (least : ℕ) → IsTRowOutAt F.modulus at K L →
            IfSome at (λ row. (j : ℕ) → j < K.columns → K.t row j ≡ touches new.now.t row j) →
            IsEdited F.modulus L least (T.state self.old.tableau) self.old.mates →
            IsEdited F.modulus K least (T.state self.new.tableau) self.new.mates }
        ensures counted { T.pivots self.new.tableau ≡ T.pivots self.old.tableau }
        ensures room { KeepsRoom (T.room_of self.old.tableau) (T.room_of self.new.tableau) self.old.mates
            self.new.mates }
    {
        if let Some(row) = at {
            self.mates.insert_row(row, new.t.row(row));
        }
    }

    // Puts the Q row of these items in, if one is told.
    fn insert_q_row(&mut self, at: Option<usize>, items: &[F])
        requires at { IfSome at (λ row. row ≤ (T.state self.old.tableau).rows) }
        requires few { IfSome at (λ row. (T.state self.old.tableau).rows < column_limit) }
        requires count { IfSome at (λ row. length items.now ≡ (T.state self.old.tableau).columns) }
        requires room { IfSome at (λ row. HasPairRoom ((T.state self.old.tableau).rows + 1) 0
            (T.state self.old.tableau).columns (T.room_of self.old.tableau) self.old.mates) }
        ensures edited { (L K : LayeredMatrix) (least : ℕ) → IsQRowOutAt F.modulus at K L →
            IfSome at (λ row. (j : ℕ) → j < K.columns → K.q row j ≡ slice_index (map F.number items.now) j) →
            IsEdited F.modulus L least (T.state self.old.tableau) self.old.mates →
            IsEdited F.modulus K least (T.state self.new.tableau) self.new.mates }
        ensures counted { T.pivots self.new.tableau ≡ T.pivots self.old.tableau }
    {
        if let Some(row) = at {
            self.tableau.insert_row(row, items);
        }
    }
}
