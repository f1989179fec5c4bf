//! What stands at the places of an equation.

ghost use Rattle.std.specs.Prelude.{◌≡◌};
ghost use Rattle.std.specs.Iterator.{YieldsFirst, item_count};

use residue_field::Field;
use std::alloc::AllocError;
use std::marker::Model;

/// What stands at a place of an equation: a constant other than 0, a symbol, or both; and the column of its unknown,
/// from 0. Contracts see the number of the constant.
#[derive(Drop)]
pub struct Entry<F: Field> {
    pub column: usize,
    pub constant: Option<F>,
    pub symbol: bool,
}

impl<F: Field> Model for Entry<F> {
    ghost use Rattle.std.specs.Option.{option_map};
    ghost use Rattle.mixed_model.specs.Entries.{RowEntry};

    ghost Value = { RowEntry };

    ghost view = { λ e. record { column = e.column; constant = option_map F.number e.constant; symbol = e.symbol } };
}

impl<F: Field> Entry<F> {
    /// The same entry once more.
    pub fn copy(&self) -> Entry<F>
        ensures { result ≡ self.now }
    {
        Entry {
            column: self.column,
            constant: self.constant,
            symbol: self.symbol,
        }
    }
}

impl<F: Field> Clone for Entry<F> {
    ghost is_clone = { λ entry copy. copy ≡ entry };

    fn clone(&self) -> Result<Entry<F>, AllocError> {
        Ok(self.copy())
    }
}

/// The entries of an equation that are left, seen by contracts as a list.
#[derive(Drop)]
pub struct Entries<'a, F: Field> {
    rest: &'a [Entry<F>],
}

impl<'a, F: Field> Model for Entries<'a, F> {
    ghost use Rattle.std.specs.Prelude.{List};
    ghost use Rattle.mixed_model.specs.Entries.{RowEntry};

    ghost Value = { List RowEntry };

    ghost view = { λ e. e.rest.now };
}

impl<'a, F: Field> Entries<'a, F> {
    pub(crate) fn new(row: &'a [Entry<F>]) -> Self
        ensures { result ≡ row.now }
    {
        Entries { rest: row }
    }
}

impl<F: Field> Iterator for Entries<'_, F> {
    type Item = Entry<F>;

    ghost next_gives = { YieldsFirst (λ left. left) };

    ghost remaining = { item_count (λ left. left) };

    fn next(&mut self) -> Option<Entry<F>> {
        let (first, rest) = self.rest.split_first()?;
        self.rest = rest;
        Some(first.copy())
    }
}
