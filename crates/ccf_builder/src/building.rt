//! The canonical form of a layered matrix.

ghost use Rattle.std.specs.Prelude.{◌≡◌, ◌≤◌, ◌+◌, ◌-◌, length, IfOk};
ghost use Rattle.limits.specs.Limits.{column_limit};
ghost use Rattle.exchange_graph.specs.Results.{vain_of};
ghost use Rattle.mixed_model.specs.Layers.{layered_matrix_of, split_of};
ghost use Rattle.cert_checker.specs.Answers.{IsRightFor};
ghost use Rattle.cert_text.specs.Contents.{numbered_rows};
ghost use Rattle.cert_text.specs.Right.{HasShape, HasTransform, HasPairAndRank, HasForm, HasIdeals, HasCanonicalListing, IsRightCcf};
ghost use Rattle.minimiser_lattice.specs.Views.{parts_in};
ghost use Rattle.ccf_builder.specs.Finest.{IsFinest};
ghost use Rattle.ccf_builder.specs.Printings.{IsDecomposed, IsPrinted};
ghost use Rattle.ccf_builder.specs.Promises.{IsOfModel, OfEachModel};

use crate::choice::has_few_entries;
use crate::decomposition::decompose;
use crate::matrices::{PrintedTableau, symbols_of, tableau_of};
use crate::pairs::{PairLists, pair_of};
use crate::printed_parts::{PrintedParts, parts_of};
use crate::solution::solve;
use cert_text::{Ccf, Items, Shape};
use independent_matching::Engine;
use minimiser_lattice::Lattice;
use mixed_model::Layered;
use out_of_memory::NoMemory;
use residue_field::Field;
use row_transform::{DenseTableau, Tableau};
use sparse_tableau::SparseTableau;
use std::alloc::Global;

/// The canonical form of the layered matrix of a model: it is right for each model of which this is the layered matrix, its
/// parts are at least as fine as those of every form, and `cert_checker::check` accepts it. Q is pivoted as a sparse matrix
/// where it has few entries, else as a dense one. The premise is met by the clause of `mixed_layering::layer`, and by that of
/// `Mixed::is_model` called on the model. (Murota, chapters 2 and 4.)
pub fn build<F: Field>(alloc: Global, l: &Layered<F>) -> Result<Ccf<F>, NoMemory>
    requires { IsOfModel F.modulus l.now }
    ensures shape { IfOk result (λ c.
        OfEachModel F.modulus l.now (λ M O. HasShape M (layered_matrix_of l.now) c)) }
    ensures transform { IfOk result (HasTransform F.modulus (layered_matrix_of l.now)) }
    ensures pair_and_rank { IfOk result (λ c.
        OfEachModel F.modulus l.now (λ M O. HasPairAndRank F.modulus M (layered_matrix_of l.now) O c)) }
    ensures block_triangular_form { IfOk result (HasForm F.modulus (layered_matrix_of l.now)) }
    ensures ideals { IfOk result (HasIdeals F.modulus (layered_matrix_of l.now)) }
    ensures canonical_listing { IfOk result (HasCanonicalListing F.modulus (layered_matrix_of l.now)) }
    ensures finest { IfOk result (IsFinest F.modulus (layered_matrix_of l.now)) }
    ensures accepted { IfOk result (λ c. OfEachModel F.modulus l.now (λ M O. IsRightFor F.modulus M c)) }
{
    let form = built(alloc, l)?;
    form.is_in_form();
    Ok(form)
}

// The same, with all that makes it right in one.
fn built<F: Field>(alloc: Global, l: &Layered<F>) -> Result<Ccf<F>, NoMemory>
    requires { IsOfModel F.modulus l.now }
    ensures { IfOk result (λ c.
        OfEachModel F.modulus l.now (λ M O. IsRightCcf F.modulus M (layered_matrix_of l.now) O c)) }
{
    if has_few_entries(&l.q) {
        built_over::<F, SparseTableau<F>>(alloc, l)
    } else {
        built_over::<F, DenseTableau<F>>(alloc, l)
    }
}

// The same, over a tableau of this type.
fn built_over<F: Field, T: Tableau<F>>(alloc: Global, l: &Layered<F>) -> Result<Ccf<F>, NoMemory>
    requires { IsOfModel F.modulus l.now }
    ensures { IfOk result (λ c.
        OfEachModel F.modulus l.now (λ M O. IsRightCcf F.modulus M (layered_matrix_of l.now) O c)) }
{
    let solved = decomposed::<F, T>(alloc, l)?;
    let printed = print(alloc, l, &solved)?;
    Ok(assembled(l, solved, printed))
}

// An engine with a best pair, the parts of its arcs, and the lists of the pair.
#[derive(Drop)]
struct Solved<F: Field, T: Tableau<F>> {
    engine: Engine<F, T>,
    lattice: Lattice,
    pair: PairLists,
}

// The lines of the matrices, of the symbols and of the parts.
#[derive(Drop)]
struct Printed<F: Field> {
    tableau: PrintedTableau<F>,
    symbols: Items<Items<usize>>,
    parts: PrintedParts,
}

// Runs the engine, and decomposes its arcs.
fn decomposed<F: Field, T: Tableau<F>>(
    alloc: Global,
    l: &Layered<F>,
) -> Result<Solved<F, T>, NoMemory>
    ensures { IfOk result (λ s.
        IsDecomposed F.modulus l.now (T.state s.engine.tableau) s.engine.matching (vain_of s.engine.found)
        (parts_in s.lattice) s.pair.base.items s.pair.mates.items) }
{
    let engine = solve(alloc, l)?;
    let lattice = decompose(alloc, &engine)?;
    let pair = pair_of(alloc, &engine, l.t.rows())?;
    Ok(Solved {
        engine,
        lattice,
        pair,
    })
}

// Prints what was found.
fn print<F: Field, T: Tableau<F>>(
    alloc: Global,
    l: &Layered<F>,
    solved: &Solved<F, T>,
) -> Result<Printed<F>, NoMemory>
    requires { IsDecomposed F.modulus l.now (T.state solved.now.engine.tableau) solved.now.engine.matching
        (vain_of solved.now.engine.found) (parts_in solved.now.lattice)
        solved.now.pair.base.items solved.now.pair.mates.items }
    ensures { IfOk result (λ c.
        IsPrinted F.modulus l.now (T.state solved.now.engine.tableau) (parts_in solved.now.lattice)
        solved.now.pair.base.items solved.now.pair.mates.items
        (numbered_rows F.number c.tableau.s) (numbered_rows F.number c.tableau.u)
        (numbered_rows F.number c.tableau.p) c.symbols c.parts.first c.parts.blocks c.parts.last) }
{
    let tableau = solved.engine.tableau();
    Ok(Printed {
        tableau: tableau_of(alloc, tableau)?,
        symbols: symbols_of(alloc, &l.t)?,
        parts: parts_of(
            alloc,
            &solved.lattice,
            tableau.columns(),
            tableau.rows(),
            l.t.rows(),
            &solved.pair,
        )?,
    })
}

// The form with these lines.
fn assembled<F: Field, T: Tableau<F>>(
    l: &Layered<F>,
    solved: Solved<F, T>,
    printed: Printed<F>,
) -> Ccf<F>
    requires model { IsOfModel F.modulus l.now }
    requires decomposed { IsDecomposed F.modulus l.now (T.state solved.engine.tableau) solved.engine.matching
        (vain_of solved.engine.found) (parts_in solved.lattice) solved.pair.base.items solved.pair.mates.items }
    requires lines { IsPrinted F.modulus l.now (T.state solved.engine.tableau) (parts_in solved.lattice)
        solved.pair.base.items solved.pair.mates.items
        (numbered_rows F.number printed.tableau.s) (numbered_rows F.number printed.tableau.u)
        (numbered_rows F.number printed.tableau.p) printed.symbols
        printed.parts.first printed.parts.blocks printed.parts.last }
    ensures { OfEachModel F.modulus l.now (λ M O. IsRightCcf F.modulus M (layered_matrix_of l.now) O result) }
{
    let split = l.split();
    let q_rows = solved.engine.tableau().rows();
    let columns = solved.engine.tableau().columns();
    Ccf::new(
        shape_of(l, q_rows, columns),
        solved.engine.size() - split,
        Items::from_vec(solved.pair.base),
        Items::from_vec(solved.pair.mates),
        printed.tableau.s,
        printed.tableau.u,
        printed.tableau.p,
        printed.symbols,
        printed.parts.first,
        printed.parts.blocks,
        printed.parts.last,
    )
}

// The sizes of a layered matrix with so many Q rows and columns, and of its model.
fn shape_of<F: Field>(l: &Layered<F>, q_rows: usize, columns: usize) -> Shape
    requires few { q_rows ≤ column_limit }
    requires rows { split_of l.now ≤ q_rows + length l.now.t.rows }
    requires columns { split_of l.now ≤ columns }
    ensures { result ≡ record {
      equations = (q_rows + length l.now.t.rows) - split_of l.now;
      unknowns = columns - split_of l.now;
      q_rows = q_rows;
      t_rows = length l.now.t.rows;
      columns = columns;
    } }
{
    let (t_rows, split) = (l.t.rows(), l.split());
    Shape {
        equations: q_rows + t_rows - split,
        unknowns: columns - split,
        q_rows,
        t_rows,
        columns,
    }
}
