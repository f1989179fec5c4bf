//! Layered mixed matrices.

ghost use Rattle.std.specs.Prelude.{◌≡◌, ◌<◌, length, slice_get, Some};
ghost use Rattle.dense_q.specs.Tables.{height};
ghost use Rattle.mixed_model.specs.Layers.{Layers, AreLayers, split_of};

use crate::origin::Origin;
use residue_field::Field;
use row_entries::EntryMat;
use sparse_t::Pattern;
use std::marker::Model;

/// A layered mixed matrix over F: rows of constants above rows of symbols, on the same columns. It keeps for each row
/// the equation, and for each column the unknown or the split equation, from which it comes. (Murota, chapter 4.)
#[derive(Drop)]
pub struct Layered<F: Field> {
    /// The constants, Q rows x columns.
    pub q: EntryMat<F>,
    /// The places of the symbols, T rows x columns.
    pub t: Pattern,
    q_origins: Vec<usize>,
    t_origins: Vec<usize>,
    column_origins: Vec<Origin>,
}

impl<F: Field> Model for Layered<F> {
    ghost use Rattle.mixed_model.specs.Layers.{Layers, AreLayers};

    ghost Value = { Layers };

    ghost view = { λ l. record {
      q = l.q;
      t = l.t;
      q_origins = l.q_origins.items;
      t_origins = l.t_origins.items;
      column_origins = l.column_origins.items;
    } };

    ghost invariant = { λ l. AreLayers (record {
      q = l.q;
      t = l.t;
      q_origins = l.q_origins.items;
      t_origins = l.t_origins.items;
      column_origins = l.column_origins.items;
    }) };
}

impl<F: Field> Layered<F> {
    /// The layered matrix of these parts: an equation for each Q row and for each T row, and an origin for each column.
    pub fn new(
        q: EntryMat<F>,
        t: Pattern,
        q_origins: Vec<usize>,
        t_origins: Vec<usize>,
        column_origins: Vec<Origin>,
    ) -> Layered<F>
        requires columns { t.width ≡ q.width }
        requires q_rows { length q_origins.items ≡ height q }
        requires t_rows { length t_origins.items ≡ length t.rows }
        requires origins { length column_origins.items ≡ q.width }
        ensures { result ≡ record {
          q = q;
          t = t;
          q_origins = q_origins.items;
          t_origins = t_origins.items;
          column_origins = column_origins.items;
        } }
    {
        Layered {
            q,
            t,
            q_origins,
            t_origins,
            column_origins,
        }
    }

    /// How many Q rows there are.
    pub fn q_rows(&self) -> usize
        ensures { result ≡ height self.now.q }
    {
        self.q.rows()
    }

    /// How many T rows there are.
    pub fn t_rows(&self) -> usize
        ensures { result ≡ length self.now.t.rows }
    {
        self.t.rows()
    }

    /// How many columns there are: one for each unknown, and one for each split equation.
    pub fn columns(&self) -> usize
        ensures { result ≡ self.now.q.width }
    {
        self.q.cols()
    }

    /// The equation from which Q row `row` comes.
    pub fn q_origin(&self, row: usize) -> usize
        requires { row < height self.now.q }
        ensures { slice_get self.now.q_origins row ≡ Some result }
    {
        self.q_origins[row]
    }

    /// The equation from which T row `row` comes.
    pub fn t_origin(&self, row: usize) -> usize
        requires { row < length self.now.t.rows }
        ensures { slice_get self.now.t_origins row ≡ Some result }
    {
        self.t_origins[row]
    }

    /// The unknown or the split equation from which column `col` comes.
    pub fn column_origin(&self, col: usize) -> Origin
        requires { col < self.now.q.width }
        ensures { slice_get self.now.column_origins col ≡ Some result }
    {
        self.column_origins[col]
    }

    /// Tells a proof that both parts have the same columns, and that each row and each column has its origin. It does
    /// nothing when it runs.
    pub fn are_layers(&self)
        ensures { AreLayers self.now }
    {
        // a proof knows what the type keeps once a field is read
        let _ = &self.column_origins;
    }

    /// How many columns are auxiliary: one for each split equation.
    pub fn split(&self) -> usize
        ensures count { result ≡ split_of self.now }
        ensures layers { AreLayers self.now }
    {
        self.column_origins
            .iter()
            .filter(|origin| matches!(origin, Origin::Split(_)))
            .count()
    }
}
