//! The rules of a form, each by itself.

ghost use Rattle.std.specs.Prelude.{◌≡◌, ◌+◌, ◌↔◌, ℕ, IfOk, IsTrue, MatchOption, length};
ghost use Rattle.linear_algebra.specs.Products.{IsInverse};
ghost use Rattle.mixed_model.specs.Layers.{layered_matrix_of};
ghost use Rattle.mixed_model.specs.Models.{mixed_matrix_of};
ghost use Rattle.cert_text.specs.Contents.{numbered_rows};
ghost use Rattle.cert_text.specs.Printing.{PrintsMatrix};
ghost use Rattle.cert_text.specs.Readings.{matrix_of, ColumnsDiffer, StandsOnce, column_lists};
ghost use Rattle.cert_text.specs.Right.{HasShape, HasProduct, HasUnitColumns};
ghost use Rattle.cert_text.specs.Rules.{HasMatching, HasPlacedRows};
ghost use Rattle.cert_checker.specs.Checking.{HasSizes, IsCounted, IsTransformed, PrintsSymbols};
ghost use Rattle.cert_checker.specs.Standing.{Not, TellsPlaces};

use crate::matching::{are_symbols, columns_differ};
use crate::matrices::{rows_of, unit_rows};
use crate::placing::stand_with_columns;
use crate::products::is_product;
use crate::standing::{Member, places_of};
use crate::symbols::has_symbols;
use crate::units::are_units;
use cert_text::{Ccf, Items, Shape};
use mixed_model::{Layered, Mixed};
use out_of_memory::NoMemory;
use residue_field::Field;
use sparse_t::Pattern;
use std::alloc::Global;

/// Rule 2: the printed sizes are those of the model and of its layered matrix.
pub fn has_shape<F: Field>(model: &Mixed<F>, layered: &Layered<F>, form: &Ccf<F>) -> bool
    ensures { IsTrue result ↔ HasShape (mixed_matrix_of model.now) (layered_matrix_of layered.now) form.now }
{
    let found = Shape {
        equations: model.equations(),
        unknowns: model.unknowns(),
        q_rows: layered.q_rows(),
        t_rows: layered.t_rows(),
        columns: layered.columns(),
    };
    form.shape() == found
}

/// Rule 3: the product of S and U is the unit matrix.
pub fn has_inverse<F: Field>(
    alloc: Global,
    layered: &Layered<F>,
    form: &Ccf<F>,
) -> Result<bool, NoMemory>
    requires { HasSizes (layered_matrix_of layered.now) form.now }
    ensures { IfOk result (λ answer. IsTrue answer ↔ IsInverse F.modulus (layered_matrix_of layered.now).q_rows
        (matrix_of form.now.s) (matrix_of form.now.u)) }
{
    let n = layered.q_rows();
    let unit = unit_rows(alloc, n)?;
    is_product(
        alloc,
        form.s().as_slice(),
        form.u().as_slice(),
        n,
        unit.as_slice(),
    )
}

// The rows of symbols.
fn symbols<F: Field>(layered: &Layered<F>) -> &Pattern
    ensures { result.now ≡ layered.now.t }
{
    &layered.t
}

// The printed rows of the constants.
fn constants_of<F: Field>(
    alloc: Global,
    layered: &Layered<F>,
) -> Result<Items<Items<(usize, F)>>, NoMemory>
    ensures { IfOk result (λ rows. PrintsMatrix F.modulus (layered_matrix_of layered.now).q_rows
        (layered_matrix_of layered.now).columns (layered_matrix_of layered.now).q (numbered_rows F.number rows)) }
{
    rows_of(alloc, &layered.q)
}

// Whether P is S times the constants.
fn is_transformed<F: Field>(
    alloc: Global,
    layered: &Layered<F>,
    form: &Ccf<F>,
) -> Result<bool, NoMemory>
    requires { HasSizes (layered_matrix_of layered.now) form.now }
    ensures { IfOk result (λ answer. IsTrue answer ↔ IsTransformed F.modulus (layered_matrix_of layered.now) form.now) }
{
    let constants = constants_of(alloc, layered)?;
    is_product(
        alloc,
        form.s().as_slice(),
        constants.as_slice(),
        layered.columns(),
        form.p().as_slice(),
    )
}

// Whether the T lines are the rows of symbols.
fn prints_symbols<F: Field>(layered: &Layered<F>, form: &Ccf<F>) -> bool
    requires { HasSizes (layered_matrix_of layered.now) form.now }
    ensures { IsTrue result ↔ PrintsSymbols (layered_matrix_of layered.now) form.now }
{
    layered.are_layers();
    has_symbols(form.t().as_slice(), symbols(layered))
}

/// Rule 4: P is S times the constants, and the T lines are the rows of symbols.
pub fn has_product<F: Field>(
    alloc: Global,
    layered: &Layered<F>,
    form: &Ccf<F>,
) -> Result<bool, NoMemory>
    requires { HasSizes (layered_matrix_of layered.now) form.now }
    ensures { IfOk result (λ answer.
        IsTrue answer ↔ HasProduct F.modulus (layered_matrix_of layered.now) form.now) }
{
    if !is_transformed(alloc, layered, form)? {
        return Ok(false);
    }
    Ok(prints_symbols(layered, form))
}

/// Rule 5: for each item of the base, its column of P is 1 at its row and 0 elsewhere.
pub fn has_unit_columns<F: Field>(
    alloc: Global,
    layered: &Layered<F>,
    form: &Ccf<F>,
) -> Result<bool, NoMemory>
    requires { HasSizes (layered_matrix_of layered.now) form.now }
    ensures { IfOk result (λ answer.
        IsTrue answer ↔ HasUnitColumns F.modulus (layered_matrix_of layered.now) form.now) }
{
    are_units(
        alloc,
        form.p().as_slice(),
        form.base().as_slice(),
        layered.columns(),
    )
}

/// Rule 6: each matched row has a symbol at its column, and all columns of base and match differ.
pub fn has_matching<F: Field>(
    alloc: Global,
    layered: &Layered<F>,
    form: &Ccf<F>,
) -> Result<bool, NoMemory>
    requires { HasSizes (layered_matrix_of layered.now) form.now }
    ensures { IfOk result (λ answer. IsTrue answer ↔ HasMatching (layered_matrix_of layered.now) form.now) }
{
    layered.are_layers();
    let mates = form.mates().as_slice();
    if !are_symbols(symbols(layered), mates) {
        return Ok(false);
    }
    columns_differ(alloc, form.base().as_slice(), mates, layered.columns())
}

/// Rule 7: the rank with the number of columns is the number of unknowns with that of the items of base and match.
pub fn is_counted<F: Field>(model: &Mixed<F>, layered: &Layered<F>, form: &Ccf<F>) -> bool
    requires { HasSizes (layered_matrix_of layered.now) form.now }
    ensures { IsTrue result ↔ IsCounted (mixed_matrix_of model.now) (layered_matrix_of layered.now) form.now }
{
    let items = form.base().as_slice().len() + form.mates().as_slice().len();
    form.rank() + layered.columns() == model.unknowns() + items
}

/// Rule 8: the part in which each column stands, counted from 1, if each stands in exactly one.
pub fn column_places<F: Field>(
    alloc: Global,
    layered: &Layered<F>,
    form: &Ccf<F>,
) -> Result<Option<Vec<usize>>, NoMemory>
    requires { HasSizes (layered_matrix_of layered.now) form.now }
    ensures { IfOk result (λ found. MatchOption found
        (Not (StandsOnce (layered_matrix_of layered.now).columns (column_lists form.now)))
        (λ places. TellsPlaces (layered_matrix_of layered.now).columns (column_lists form.now) places.items)) }
{
    places_of(alloc, form, Member::Column, layered.columns())
}

/// Rule 9: each row of base or match stands in the part of its column, each other row in the last tail, and nowhere
/// else. `columns` has the part of each column.
pub fn has_placed_rows<F: Field>(
    alloc: Global,
    layered: &Layered<F>,
    form: &Ccf<F>,
    columns: &[usize],
) -> Result<bool, NoMemory>
    requires sizes { HasSizes (layered_matrix_of layered.now) form.now }
    requires differ { ColumnsDiffer form.now.base form.now.mates }
    requires places { TellsPlaces (layered_matrix_of layered.now).columns (column_lists form.now) columns.now }
    ensures { IfOk result (λ answer. IsTrue answer ↔ HasPlacedRows (layered_matrix_of layered.now) form.now) }
{
    let Some(q_rows) = places_of(alloc, form, Member::QRow, layered.q_rows())? else {
        return Ok(false);
    };
    let Some(t_rows) = places_of(alloc, form, Member::TRow, layered.t_rows())? else {
        return Ok(false);
    };
    let last = form.blocks().as_slice().len() + 2;
    if !stand_with_columns(alloc, &q_rows, form.base().as_slice(), columns, last)? {
        return Ok(false);
    }
    stand_with_columns(alloc, &t_rows, form.mates().as_slice(), columns, last)
}
