//! The conflict sets of all surplus equations, from one greedy choice by rising number.

ghost use Rattle.std.specs.Prelude.{◌≡◌, ℕ, ◌<◌, length, map, IfNone, IfOk, IfSome, IsFalse, IsTrue};
ghost use Rattle.std.specs.List.{All};
ghost use Rattle.residue_theory.specs.Sets.{has};
ghost use Rattle.exchange_graph.specs.Marks.{members_of};
ghost use Rattle.mixed_matrices.specs.Layerings.{has_symbol};
ghost use Rattle.mixed_matrices.specs.Removals.{IsSurplus};
ghost use Rattle.mixed_model.specs.Models.{mixed_matrix_of};
ghost use Rattle.equation_choice.specs.ConflictLists.{AreConflictLists, AreListsBelow, HasNoneWith, IsConflictList, IsFirstWith};
ghost use Rattle.equation_choice.specs.ConflictLists.{TellsConflicts, set_at};
ghost use Rattle.equation_choice.specs.Choosers.{AreRowsIn, HasBeenRefused, HasJoined, IsReadyChooser};
ghost use Rattle.equation_choice.specs.Told.{TellsCircuit};

use crate::chooser::Chooser;
use crate::first_sets::first_sets;
use crate::list::{marked_numbers, no_marks};
use crate::places::{EquationPlaces, EquationRows};
use mixed_layering::layer;
use mixed_model::{Layered, Mixed};
use out_of_memory::NoMemory;
use residue_field::Field;
use row_transform::Tableau;
use sparse_tableau::SparseTableau;
use std::alloc::Global;
use std::marker::Model;

/// The conflict sets of the surplus equations of a model. Several equations may have one.
#[derive(Drop)]
pub struct Conflicts {
    sets: Vec<Vec<usize>>,
    // for each equation the first set that holds it
    first: Vec<Option<usize>>,
}

impl Model for Conflicts {
    ghost use Rattle.std.specs.Prelude.{List, ℕ, map};
    ghost use Rattle.equation_choice.specs.ConflictLists.{TellsFirst};

    ghost Value = { List (List ℕ) };

    ghost view = { λ c. map (λ set. set.items) c.sets.items };

    ghost invariant = { λ c. TellsFirst (map (λ set. set.items) c.sets.items) c.first.items };
}

impl Conflicts {
    // Sets of equations below n.
    fn of(alloc: Global, sets: Vec<Vec<usize>>, n: usize) -> Result<Conflicts, NoMemory>
        requires { AreListsBelow n (map (λ set. set.items) sets.items) }
        ensures { IfOk result (λ conflicts. conflicts ≡ map (λ set. set.items) sets.items) }
    {
        let first = first_sets(alloc, sets.as_slice(), n)?;
        Ok(Conflicts { sets, first })
    }

    /// The first of the sets that holds the equation, rising.
    pub fn set_of(&self, equation: usize) -> Option<&[usize]>
        ensures none { IfNone result (HasNoneWith self.now equation) }
        ensures some { IfSome result (λ set. (k : ℕ) × IsFirstWith self.now equation k
            × (set.now ≡ set_at self.now k)) }
    {
        match self.first.get(equation) {
            Some(Some(k)) => Some(self.sets[*k].as_slice()),
            _ => None,
        }
    }
}

/// The conflict sets of a model: each surplus equation has for its conflict set the first one that holds it, and no other
/// equation is held (Murota 2000, chapter 2: fundamental circuits). Equations are counted from 0. They come from one greedy
/// choice of the equations by rising number.
pub fn conflict_sets<F: Field>(alloc: Global, model: &Mixed<F>) -> Result<Conflicts, NoMemory>
    ensures { IfOk result (AreConflictLists F.modulus (mixed_matrix_of model.now)) }
{
    let layered = layer(alloc, model)?;
    // each row has its origin
    layered.are_layers();
    let symbols = symbols_of(alloc, model)?;
    let equations = model.equations();
    let sets = conflicts_over::<F, SparseTableau<F>>(alloc, &layered, equations, &symbols)?;
    Conflicts::of(alloc, sets, equations)
}

/// The conflict set of an equation, rising, or `None` exactly where the equation is not surplus.
pub fn conflict_set<F: Field>(
    alloc: Global,
    model: &Mixed<F>,
    equation: usize,
) -> Result<Option<Vec<usize>>, NoMemory>
    requires { equation < length model.now.equations }
    ensures none { IfOk result (λ answer. IfNone answer (IsSurplus F.modulus (mixed_matrix_of model.now) equation
        → ⊥)) }
    ensures some { IfOk result (λ answer. IfSome answer (λ set.
        IsConflictList F.modulus (mixed_matrix_of model.now) equation set.items)) }
{
    let conflicts = conflict_sets(alloc, model)?;
    match conflicts.set_of(equation) {
        Some(set) => Ok(Some(copied(alloc, set)?)),
        None => Ok(None),
    }
}

// The same numbers once more.
fn copied(alloc: Global, list: &[usize]) -> Result<Vec<usize>, NoMemory>
    ensures { IfOk result (λ copy. copy.items ≡ list.now) }
{
    let mut copy = Vec::new(alloc);
    for number in list {
        copy.push(*number)?;
    }
    Ok(copy)
}

// The equations with symbols.
fn symbols_of<F: Field>(alloc: Global, model: &Mixed<F>) -> Result<Vec<bool>, NoMemory>
    ensures count { IfOk result (λ marks. length marks.items ≡ length model.now.equations) }
    ensures marks { IfOk result (λ marks. (x : ℕ) → x < length model.now.equations → members_of marks.items x
        ≡ has_symbol (mixed_matrix_of model.now) x) }
{
    let mut marks = Vec::new(alloc);
    for equation in 0..model.equations() {
        marks.push(model.has_symbol(equation))?;
    }
    Ok(marks)
}

// The circuits of the equations that may not join those before them, of n equations of which this is the layered matrix.
fn conflicts_over<F: Field, T: Tableau<F>>(
    alloc: Global,
    layered: &Layered<F>,
    n: usize,
    symbols: &[bool],
) -> Result<Vec<Vec<usize>>, NoMemory>
    requires q_origins { All (λ equation. equation < n) layered.now.q_origins }
    requires t_origins { All (λ equation. equation < n) layered.now.t_origins }
    requires symbols { length symbols.now ≡ n }
    ensures { IfOk result (λ sets. TellsConflicts F.modulus layered.now n symbols.now
        (map (λ set. set.items) sets.items)) }
{
    let mut chooser = Chooser::<F, T>::open(alloc, layered)?;
    let places = EquationPlaces::open(alloc, layered, n)?;
    let mut told = no_marks(alloc, n)?;
    let mut sets = Vec::new(alloc);
    for equation in 0..n {
        let rows = places.of(layered, equation);
        if !join_marking(&mut chooser, layered, equation, rows, symbols, &mut told) {
            sets.push(marked_numbers(alloc, &told, n)?)?;
        }
    }
    Ok(sets)
}

// Lets an equation join where it may; else its circuit is marked.
fn join_marking<F: Field, T: Tableau<F>>(
    chooser: &mut Chooser<F, T>,
    layered: &Layered<F>,
    equation: usize,
    rows: EquationRows,
    symbols: &[bool],
    told: &mut Vec<bool>,
) -> bool
    requires ready { IsReadyChooser F.modulus layered.now (T.state chooser.old.pair.tableau) chooser.old.pair.mates
        chooser.old.search chooser.old.starts.items chooser.old.free.items }
    requires rows { AreRowsIn layered.now equation rows.q rows.t rows.auxiliary }
    requires equation { equation < length told.old.items }
    requires q_origins { All (λ equation. equation < length told.old.items) layered.now.q_origins }
    requires t_origins { All (λ equation. equation < length told.old.items) layered.now.t_origins }
    requires symbols { length symbols.now ≡ length told.old.items }
    ensures ready { IsReadyChooser F.modulus layered.now (T.state chooser.new.pair.tableau) chooser.new.pair.mates
        chooser.new.search chooser.new.starts.items chooser.new.free.items }
    ensures count { length told.new.items ≡ length told.old.items }
    ensures joined { IsTrue result → HasJoined F.modulus layered.now (T.state chooser.old.pair.tableau)
        (T.state chooser.new.pair.tableau) chooser.old.pair.mates chooser.new.pair.mates equation }
    ensures refused { IsFalse result → HasBeenRefused F.modulus layered.now (T.state chooser.old.pair.tableau)
        (T.state chooser.new.pair.tableau) chooser.old.pair.mates chooser.new.pair.mates equation }
    ensures told { IsFalse result → TellsCircuit F.modulus layered.now (T.state chooser.old.pair.tableau)
        chooser.old.pair.mates symbols.now told.new.items equation }
{
    chooser.join_telling(layered, equation, rows, symbols, told)
}
