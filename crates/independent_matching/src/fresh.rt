//! What an edit of an engine takes memory for, before its first change.

ghost use Rattle.std.specs.Prelude.{◌≡◌, ◌<◌, map, IfOk, IfSome};
ghost use Rattle.dense_q.specs.Tables.{height};
ghost use Rattle.independent_matching.specs.Edits.{AreRowItems};
ghost use Rattle.independent_matching.specs.Engines.{IsFresh};
ghost use Rattle.independent_matching.specs.Marks.{AreKeptMarks};

use crate::marks::Marks;
use crate::resting::Resting;
use exchange_graph::Search;
use mixed_model::Layered;
use out_of_memory::NoMemory;
use residue_field::Field;
use std::alloc::Global;

// The items of a Q row, a search, and room for marks.
#[derive(Drop)]
pub struct Fresh<F: Field> {
    pub items: Vec<F>,
    pub search: Search,
    pub resting: Resting,
    pub marks: Marks,
}

impl<F: Field> Fresh<F> {
    /// For an edit that makes `new`, and puts its Q row `row` in, if one is told.
    pub fn take(alloc: Global, new: &Layered<F>, row: Option<usize>) -> Result<Self, NoMemory>
        requires { IfSome row (λ i. i < height new.now.q) }
        ensures items { IfOk result (λ f. IfSome row (λ i. AreRowItems new.now.q i (map F.number f.items.items))) }
        ensures places { IfOk result (λ f. f.search.places ≡ new.now.q.width) }
        ensures search { IfOk result (λ f. IsFresh f.search) }
        ensures marks { IfOk result (λ f. AreKeptMarks new.now.q.width f.resting f.marks) }
    {
        let columns = new.columns();
        let items = items_of(alloc, new, row)?;
        let (resting, marks) = Marks::empty(alloc, columns)?;
        Ok(Fresh {
            items,
            search: Search::open(alloc, columns)?,
            resting,
            marks,
        })
    }
}

fn items_of<F: Field>(
    alloc: Global,
    new: &Layered<F>,
    row: Option<usize>,
) -> Result<Vec<F>, NoMemory>
    requires { IfSome row (λ i. i < height new.now.q) }
    ensures { IfOk result (λ items. IfSome row (λ i. AreRowItems new.now.q i (map F.number items.items))) }
{
    match row {
        None => Ok(Vec::new(alloc)),
        Some(row) => row_items(alloc, new, row),
    }
}

fn row_items<F: Field>(alloc: Global, new: &Layered<F>, row: usize) -> Result<Vec<F>, NoMemory>
    requires { row < height new.now.q }
    ensures { IfOk result (λ items. AreRowItems new.now.q row (map F.number items.items)) }
{
    let mut items = Vec::with_capacity(alloc, new.columns())?;
    for col in 0..new.columns() {
        items.push(new.q.get(row, col))?;
    }
    Ok(items)
}
