//! A model that is edited once.

ghost use Rattle.std.specs.Prelude.{◌≡◌, ◌<◌, IfOk, OnOk, length};
ghost use Rattle.mixed_edit_laws.specs.Changes.{IsAdded, IsChanged, IsRemoved};
ghost use Rattle.mixed_model.specs.Models.{mixed_matrix_of};
ghost use Rattle.model_edit_laws.specs.Edits.{IsEditedAt};

use edit_desk::Held;
use exchange_graph::Steps;
use independent_matching::Change;
use mixed_model::Mixed;
use refusals::Fault;
use residue_field::Res;
use row_transform::Tableau;
use std::alloc::Global;
use std::marker::Brand;
use std::sync::ledger::{Blank, Ledger};

/// What is done to the model.
#[derive(Clone, Copy)]
pub enum Edit {
    Nothing,
    Added,
    Removed,
    Changed,
}

impl Edit {
    pub(crate) fn named(name: &str) -> Option<Edit> {
        match name {
            "nothing" => Some(Edit::Nothing),
            "added" => Some(Edit::Added),
            "removed" => Some(Edit::Removed),
            "changed" => Some(Edit::Changed),
            _ => None,
        }
    }
}

/// The rank of the model, and how many searches, looks and pivots the engine made since the last edit.
#[derive(Drop)]
pub struct Told {
    pub rank: usize,
    pub searches: usize,
    pub looks: usize,
    pub pivots: usize,
}

/// What is told of a model after an edit.
pub(crate) fn tell<T: Tableau<Res>>(
    alloc: Global,
    model: Mixed<Res>,
    edit: Edit,
) -> Result<Told, Fault> {
    edited::<T, Brand, Brand>(alloc, model, edit, Blank::new(1), Blank::new(1))
}

// The same, with its searches and steps counted in ledgers.
fn edited<T: Tableau<Res>, L: Ledger, M: Ledger>(
    alloc: Global,
    model: Mixed<Res>,
    edit: Edit,
    searches: Blank,
    steps: Blank,
) -> Result<Told, Fault>
    requires searches { (searches.name ≡ L.name) × (searches.parts ≡ L.parts) × (0 < searches.parts) }
    requires steps { (steps.name ≡ M.name) × (steps.parts ≡ M.parts) × (0 < steps.parts) }
{
    let mut searches = Steps::<L>::new(searches);
    let mut steps = Steps::<M>::new(steps);
    let mut held = Held::<Res, T>::open(alloc, model)?;
    follow(&mut held, edit, &mut searches, &mut steps)?;
    let engine = held.engine();
    Ok(Told {
        rank: held.rank(),
        searches: engine.searches(),
        looks: engine.looks(),
        pivots: engine.pivots(),
    })
}

fn follow<T: Tableau<Res>, L: Ledger, M: Ledger>(
    held: &mut Held<Res, T>,
    edit: Edit,
    searches: &mut Steps<L>,
    steps: &mut Steps<M>,
) -> Result<(), Fault> {
    let middle = held.model().equations() / 2;
    match edit {
        Edit::Added => {
            let more = with_equation(held.model())?;
            held.follow(more, Change::Added, searches, steps)?;
        }
        Edit::Removed if middle < held.model().equations() => {
            let less = without_equation(held.model(), middle)?;
            held.follow(less, Change::Removed(middle), searches, steps)?;
        }
        Edit::Changed if middle < held.model().equations() => {
            let other = with_symbols(held.model(), middle)?;
            held.follow(other, Change::Changed(middle), searches, steps)?;
        }
        _ => {}
    }
    Ok(())
}

// A copy with an equation more, which has a symbol at the first unknown, at one in the middle and at the last.
fn with_equation(model: &Mixed<Res>) -> Result<Mixed<Res>, Fault>
    ensures { IfOk result (λ more. IsAdded (mixed_matrix_of model.now) (mixed_matrix_of more)) }
{
    let mut more = model.copy()?;
    let i = more.add_equation("edited")?;
    put_symbols(&mut more, i)?;
    Ok(more)
}

fn without_equation(model: &Mixed<Res>, i: usize) -> Result<Mixed<Res>, Fault>
    requires { i < length model.now.equations }
    ensures { IfOk result (λ less. IsRemoved (mixed_matrix_of model.now) (mixed_matrix_of less) i) }
{
    let mut less = model.copy()?;
    less.remove_equation(i);
    Ok(less)
}

// A copy in which an equation has just a symbol at the first unknown, at one in the middle and at the last.
fn with_symbols(model: &Mixed<Res>, i: usize) -> Result<Mixed<Res>, Fault>
    requires { i < length model.now.equations }
    ensures { IfOk result (λ other. IsChanged (mixed_matrix_of model.now) (mixed_matrix_of other) i) }
{
    let mut other = model.copy()?;
    put_symbols(&mut other, i)?;
    Ok(other)
}

fn put_symbols(model: &mut Mixed<Res>, i: usize) -> Result<(), Fault>
    requires { i < length model.old.equations }
    ensures { OnOk result (IsEditedAt model.old model.new i) }
{
    let unknowns = model.unknowns();
    if 0 < unknowns {
        put_symbol(model, i, 0)?;
        put_symbol(model, i, unknowns / 2)?;
        put_symbol(model, i, unknowns - 1)?;
    }
    Ok(())
}

// Leaves just a symbol at a place.
fn put_symbol(model: &mut Mixed<Res>, i: usize, j: usize) -> Result<(), Fault>
    requires i { i < length model.old.equations }
    requires j { j < length model.old.unknowns }
    ensures edited { OnOk result (IsEditedAt model.old model.new i) }
    ensures unknowns { model.new.unknowns ≡ model.old.unknowns }
{
    model.set_place(i, j, None, true)?;
    Ok(())
}
