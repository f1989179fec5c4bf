//! The numbers of a layered matrix: those of its symbols, and the right sides of its rows.

ghost use Rattle.std.specs.Prelude.{◌≡◌, List, ℕ, ◌+◌, ◌^◌, ◌<◌, IfOk, length, map, slice_index};
ghost use Rattle.std.specs.List.{All};
ghost use Rattle.std.specs.List.Sorted.{IsStrictlyIncreasing};
ghost use Rattle.residue_theory.specs.Sets.{has};
ghost use Rattle.residue_theory.specs.Sums.{size_on};
ghost use Rattle.dense_q.specs.Tables.{height};
ghost use Rattle.cert_text.specs.Contents.{numbered, numbered_rows};
ghost use Rattle.block_solver.specs.Numbers.{AreSidesAt, AreSymbolItems, AreSymbolRows, LacksOrigins, symbols_above};

use cert_text::Items;
use mixed_model::Layered;
use out_of_memory::NoMemory;
use residue_field::Field;
use std::alloc::Global;

// How many of the columns are unknowns, of which there are so many.
fn unknowns_among(columns: &[usize], unknowns: usize) -> usize
    requires { IsStrictlyIncreasing columns.now }
    ensures { result ≡ size_on (has columns.now) unknowns }
{
    match columns.binary_search(&unknowns) {
        Ok(place) => place,
        Err(place) => place,
    }
}

// The columns of a T row with their numbers: the values from `first` on at the unknowns, and -1 at an auxiliary column.
fn symbol_row<F: Field>(
    alloc: Global,
    columns: &[usize],
    unknowns: usize,
    values: &[F],
    first: usize,
) -> Result<Items<(usize, F)>, NoMemory>
    requires { (h : ℕ) → h < length columns.now → slice_index columns.now h < unknowns → first + h < length values.now }
    ensures { IfOk result (λ row. AreSymbolItems F.modulus unknowns first (length columns.now) columns.now
        (map F.number values.now) (numbered F.number row)) }
{
    let auxiliary = F::one().neg();
    let mut row = Vec::with_capacity(alloc, columns.len())?;
    for place in 0..columns.len() {
        let column = columns[place];
        let number = if column < unknowns {
            values[first + place]
        } else {
            auxiliary
        };
        row.push((column, number))?;
    }
    Ok(Items::from_vec(row))
}

/// The T rows with their numbers: the values in order at the unknowns, and -1 at the auxiliary columns.
pub fn symbol_rows<F: Field>(
    alloc: Global,
    t: &[Items<usize>],
    unknowns: usize,
    values: &[F],
) -> Result<Vec<Items<(usize, F)>>, NoMemory>
    requires rising { All IsStrictlyIncreasing t.now }
    requires values { length values.now ≡ symbols_above t.now unknowns (length t.now) }
    requires few { length values.now < 2 ^ 32 }
    ensures { IfOk result (λ rows. AreSymbolRows F.modulus unknowns (length t.now) t.now (map F.number values.now)
        (numbered_rows F.number rows.items)) }
{
    let mut rows = Vec::with_capacity(alloc, t.len())?;
    let mut first = 0;
    for columns in t {
        let columns = columns.as_slice();
        rows.push(symbol_row(alloc, columns, unknowns, values, first)?)?;
        first += unknowns_among(columns, unknowns);
    }
    Ok(rows)
}

/// The right sides of the Q rows: those of their equations.
pub fn q_sides<F: Field>(
    alloc: Global,
    layered: &Layered<F>,
    right: &[F],
) -> Result<Vec<F>, NoMemory>
    requires { All (λ equation. equation < length right.now) layered.now.q_origins }
    ensures { IfOk result (λ sides. AreSidesAt (height layered.now.q) layered.now.q_origins (map F.number right.now)
        (map F.number sides.items)) }
{
    // each row has its origin
    layered.are_layers();
    let mut sides = Vec::with_capacity(alloc, layered.q_rows())?;
    for row in 0..layered.q_rows() {
        sides.push(right[layered.q_origin(row)])?;
    }
    Ok(sides)
}

// The right sides, but 0 for each equation with a Q row.
fn without_q<F: Field>(alloc: Global, layered: &Layered<F>, right: &[F]) -> Result<Vec<F>, NoMemory>
    requires { All (λ equation. equation < length right.now) layered.now.q_origins }
    ensures { IfOk result (λ rest. LacksOrigins (height layered.now.q) layered.now.q_origins (map F.number right.now)
        (map F.number rest.items)) }
{
    // each row has its origin
    layered.are_layers();
    let mut rest = Vec::from_slice(alloc, right)?;
    for row in 0..layered.q_rows() {
        rest[layered.q_origin(row)] = F::zero();
    }
    Ok(rest)
}

// The numbers of the equations of the T rows.
fn t_sides_of<F: Field>(alloc: Global, layered: &Layered<F>, rest: &[F]) -> Result<Vec<F>, NoMemory>
    requires { All (λ equation. equation < length rest.now) layered.now.t_origins }
    ensures { IfOk result (λ sides. AreSidesAt (length layered.now.t.rows) layered.now.t_origins (map F.number rest.now)
        (map F.number sides.items)) }
{
    // each row has its origin
    layered.are_layers();
    let mut sides = Vec::with_capacity(alloc, layered.t_rows())?;
    for row in 0..layered.t_rows() {
        sides.push(rest[layered.t_origin(row)])?;
    }
    Ok(sides)
}

/// The right sides of the T rows: those of their equations, but 0 where an equation has a Q row too.
pub fn t_sides<F: Field>(
    alloc: Global,
    layered: &Layered<F>,
    right: &[F],
) -> Result<Vec<F>, NoMemory>
    requires q_origins { All (λ equation. equation < length right.now) layered.now.q_origins }
    requires t_origins { All (λ equation. equation < length right.now) layered.now.t_origins }
    ensures { IfOk result (λ sides. (rest : List ℕ) × LacksOrigins (height layered.now.q) layered.now.q_origins
        (map F.number right.now) rest × AreSidesAt (length layered.now.t.rows) layered.now.t_origins rest
        (map F.number sides.items)) }
{
    let rest = without_q(alloc, layered, right)?;
    t_sides_of(alloc, layered, &rest)
}
