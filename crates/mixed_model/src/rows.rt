//! Rows: the entries of each equation by rising column.

ghost use Rattle.std.specs.Prelude.{◌≡◌, ◌≢◌, ◌<◌, ◌≤◌, ℕ, false, Some, None, is_some, length, All, slice_index_or, vec_len};
ghost use Rattle.std.specs.Prelude.{MatchResult, IfSome, IfOk, OnOk, OnErr};
ghost use Rattle.std.specs.List.{insert, list_any};
ghost use Rattle.std.specs.Option.{option_map};
ghost use Rattle.mixed_model.specs.Names.{AnswersAdd};
ghost use Rattle.mixed_model.specs.Rows.{IsNotEmpty, IsRow, PutsEntry, PutsConstant, PutsSymbol, SetsColumn, FitsBetween};
ghost use Rattle.mixed_model.specs.Rows.{StandsAt, ChangesRow, row_entries_at, rows_of, entry_in, constant_in, symbol_in};
ghost use Rattle.mixed_model.specs.Rows.{putting, putting_symbol};

use crate::entry::Entry;
use crate::errors::AddError;
use out_of_memory::NoMemory;
use residue_field::Field;
use std::alloc::AllocFailed;

// The entry of row `i` at a column.
pub(crate) fn entry_in_row<F: Field>(
    rows: &[Vec<Entry<F>>],
    i: usize,
    column: usize,
) -> Option<Entry<F>>
    requires within { i < length rows.now }
    requires rows { All (λ row. IsRow F.modulus row.items) rows.now }
    ensures { result ≡ entry_in (row_entries_at rows.now i) column }
{
    entry(&rows[i], column)
}

// The entry of a row at a column.
fn entry<F: Field>(row: &[Entry<F>], column: usize) -> Option<Entry<F>>
    requires { IsRow F.modulus row.now }
    ensures { result ≡ entry_in row.now column }
{
    match place_of(row, column) {
        Ok(place) => Some(row[place].copy()),
        Err(_) => None,
    }
}

// Whether row `i` has a constant.
pub(crate) fn any_constant<F: Field>(rows: &[Vec<Entry<F>>], i: usize) -> bool
    requires { i < length rows.now }
    ensures { result ≡ list_any (λ entry. is_some entry.constant) (row_entries_at rows.now i) }
{
    holds_constant(&rows[i])
}

// Whether row `i` has a symbol.
pub(crate) fn any_symbol<F: Field>(rows: &[Vec<Entry<F>>], i: usize) -> bool
    requires { i < length rows.now }
    ensures { result ≡ list_any (λ entry. entry.symbol) (row_entries_at rows.now i) }
{
    holds_symbol(&rows[i])
}

// Whether a row has a constant.
fn holds_constant<F: Field>(row: &[Entry<F>]) -> bool
    ensures { result ≡ list_any (λ entry. is_some entry.constant) row.now }
{
    row.iter().any(|entry| entry.constant.is_some())
}

// Whether a row has a symbol.
fn holds_symbol<F: Field>(row: &[Entry<F>]) -> bool
    ensures { result ≡ list_any (λ entry. entry.symbol) row.now }
{
    row.iter().any(|entry| entry.symbol)
}

// Puts a constant other than 0 into row `i`. A refusal changes nothing.
pub(crate) fn put_constant_in_row<F: Field>(
    rows: &mut Vec<Vec<Entry<F>>>,
    i: usize,
    column: usize,
    constant: F,
) -> Result<(), AddError>
    requires within { i < vec_len rows.old }
    requires rows { All (λ row. IsRow F.modulus row.items) rows.old.items }
    requires constant { F.number constant ≢ 0 }
    ensures put { OnOk result
        (ChangesRow (PutsConstant F.modulus column (F.number constant)) i (rows_of rows.old) (rows_of rows.new)) }
    ensures answer { AnswersAdd result (putting (row_entries_at rows.old.items i) column) }
    ensures kept { OnErr result (rows_of rows.new ≡ rows_of rows.old) }
{
    let row = &mut rows[i];
    put_constant(row, column, constant)?;
    Ok(())
}

// Puts a symbol into row `i`. A refusal changes nothing.
pub(crate) fn put_symbol_in_row<F: Field>(
    rows: &mut Vec<Vec<Entry<F>>>,
    i: usize,
    column: usize,
) -> Result<(), AddError>
    requires within { i < vec_len rows.old }
    requires rows { All (λ row. IsRow F.modulus row.items) rows.old.items }
    ensures put { OnOk result (ChangesRow (PutsSymbol F.modulus column) i (rows_of rows.old) (rows_of rows.new)) }
    ensures answer { AnswersAdd result (putting_symbol (row_entries_at rows.old.items i) column) }
    ensures kept { OnErr result (rows_of rows.new ≡ rows_of rows.old) }
{
    let row = &mut rows[i];
    put_symbol(row, column)?;
    Ok(())
}

// Leaves just this constant, which is not 0, and this symbol at a column of row `i`. Where memory runs out nothing
// changes.
pub(crate) fn set_in_row<F: Field>(
    rows: &mut Vec<Vec<Entry<F>>>,
    i: usize,
    column: usize,
    constant: Option<F>,
    symbol: bool,
) -> Result<(), NoMemory>
    requires within { i < vec_len rows.old }
    requires rows { All (λ row. IsRow F.modulus row.items) rows.old.items }
    requires constant { option_map F.number constant ≢ Some 0 }
    ensures set { OnOk result (ChangesRow (SetsColumn F.modulus column (option_map F.number constant) symbol) i
        (rows_of rows.old) (rows_of rows.new)) }
    ensures kept { OnErr result (rows_of rows.new ≡ rows_of rows.old) }
{
    let row = &mut rows[i];
    set_column(row, column, constant, symbol)?;
    Ok(())
}

// The same rows once more.
pub(crate) fn copy_rows<F: Field>(rows: &Vec<Vec<Entry<F>>>) -> Result<Vec<Vec<Entry<F>>>, NoMemory>
    ensures { IfOk result (λ copy. rows_of copy ≡ rows_of rows.now) }
{
    Ok(rows.clone()?)
}

// Puts a constant other than 0 into a row. A refusal changes nothing.
fn put_constant<F: Field>(
    row: &mut Vec<Entry<F>>,
    column: usize,
    constant: F,
) -> Result<(), AddError>
    requires row { IsRow F.modulus row.old.items }
    requires constant { F.number constant ≢ 0 }
    ensures put { OnOk result (PutsConstant F.modulus column (F.number constant) row.old.items row.new.items) }
    ensures answer { AnswersAdd result (putting row.old.items column) }
    ensures kept { OnErr result (row.new.items ≡ row.old.items) }
{
    constant.in_field();
    let constant = Some(constant);
    match place_of(row, column) {
        Ok(place) => {
            let entry = &row[place];
            if entry.constant.is_some() {
                return Err(AddError::Twice);
            }
            row[place] = Entry { constant, ..*entry };
        }
        Err(place) => put_entry(
            row,
            place,
            Entry {
                column,
                constant,
                symbol: false,
            },
        )?,
    }
    Ok(())
}

// Puts a symbol into a row. A refusal changes nothing.
fn put_symbol<F: Field>(row: &mut Vec<Entry<F>>, column: usize) -> Result<(), AddError>
    requires row { IsRow F.modulus row.old.items }
    ensures put { OnOk result (PutsSymbol F.modulus column row.old.items row.new.items) }
    ensures answer { AnswersAdd result (putting_symbol row.old.items column) }
    ensures kept { OnErr result (row.new.items ≡ row.old.items) }
{
    match place_of(row, column) {
        Ok(place) => {
            let entry = &row[place];
            if entry.symbol {
                return Err(AddError::Twice);
            }
            row[place] = Entry {
                symbol: true,
                ..*entry
            };
        }
        Err(place) => put_entry(
            row,
            place,
            Entry {
                column,
                constant: None,
                symbol: true,
            },
        )?,
    }
    Ok(())
}

// Leaves just this constant, which is not 0, and this symbol at a column. Where memory runs out nothing changes.
fn set_column<F: Field>(
    row: &mut Vec<Entry<F>>,
    column: usize,
    constant: Option<F>,
    symbol: bool,
) -> Result<(), NoMemory>
    requires row { IsRow F.modulus row.old.items }
    requires constant { option_map F.number constant ≢ Some 0 }
    ensures set { OnOk result
        (SetsColumn F.modulus column (option_map F.number constant) symbol row.old.items row.new.items) }
    ensures kept { OnErr result (row.new.items ≡ row.old.items) }
{
    if constant.is_none() && !symbol {
        empty_column(row, column);
        return Ok(());
    }
    in_field(constant);
    let entry = Entry {
        column,
        constant,
        symbol,
    };
    set_entry(row, entry)
}

// Tells a proof that a constant is below the modulus.
fn in_field<F: Field>(constant: Option<F>)
    ensures { IfSome constant (λ value. F.number value < F.modulus) }
{
    if let Some(value) = constant {
        value.in_field();
    }
}

// Takes out what stands at a column.
fn empty_column<F: Field>(row: &mut Vec<Entry<F>>, column: usize)
    requires { IsRow F.modulus row.old.items }
    ensures { SetsColumn F.modulus column None false row.old.items row.new.items }
{
    if let Ok(place) = place_of(row, column) {
        row.remove(place);
    }
}

// Puts an entry at its column, in the place of what stands there. Where memory runs out nothing changes.
fn set_entry<F: Field>(row: &mut Vec<Entry<F>>, entry: Entry<F>) -> Result<(), NoMemory>
    requires row { IsRow F.modulus row.old.items }
    requires entry { IsNotEmpty F.modulus entry }
    ensures set { OnOk result (PutsEntry F.modulus row.old.items row.new.items entry) }
    ensures kept { OnErr result (row.new.items ≡ row.old.items) }
{
    match place_of(row, entry.column) {
        Ok(place) => row[place] = entry,
        Err(place) => put_entry(row, place, entry)?,
    }
    Ok(())
}

// Puts an entry at a place of a row: the entries of a list mostly rise, and go last. A refusal changes nothing.
#[tactic(auto, using(std::proofs::lemmas::List::Edits::insert_end))]
#[inline(always)]
fn put_entry<F: Field>(
    row: &mut Vec<Entry<F>>,
    place: usize,
    entry: Entry<F>,
) -> Result<(), AllocFailed<Entry<F>>>
    requires { place ≤ vec_len row.old }
    ensures items { OnOk result (row.new.items ≡ insert row.old.items place entry) }
    ensures kept { OnErr result (row.new.items ≡ row.old.items) }
{
    if place == row.len() {
        row.push(entry)
    } else {
        row.insert(place, entry)
    }
}

// Where a column stands in a row, or else where it belongs. One past all others takes one comparison.
fn place_of<F: Field>(row: &[Entry<F>], column: usize) -> Result<usize, usize>
    requires { IsRow F.modulus row.now }
    ensures { MatchResult result
        (λ place. StandsAt row.now place column)
        (λ place. (entry_in row.now column ≡ None) × FitsBetween row.now place column) }
{
    match row.last() {
        Some(last) if column <= last.column => {
            row.binary_search_by_key(&column, |entry| entry.column)
        }
        _ => Err(row.len()),
    }
}
