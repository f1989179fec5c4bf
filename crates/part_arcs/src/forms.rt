//! The arcs of a form, its free columns and its ends.

ghost use Rattle.std.specs.Prelude.{◌≡◌, ℕ, IfOk, length};
ghost use Rattle.cert_text.specs.Readings.{ColumnsDiffer};
ghost use Rattle.part_arcs.specs.FormArcs.{AreArcsOf};
ghost use Rattle.part_arcs.specs.Forms.{AreArcsFrom, AreEndsFrom, AreFreeFrom};

use crate::leading::{put_entries, put_symbols};
use crate::marking::{mark_columns, mark_entries, mark_keys, mark_symbols, others};
use cert_text::Ccf;
use out_of_memory::NoMemory;
use residue_field::Field;
use std::alloc::Global;

/// The arcs between the columns of a form, as pairs of which the first column leads to the second, and for each column
/// whether it is free, and whether it is an end (Murota, chapter 4).
#[derive(Drop)]
pub struct FormArcs {
    pub arcs: Vec<(usize, usize)>,
    pub free: Vec<bool>,
    pub ends: Vec<bool>,
}

// The arcs that lead to columns of base and match.
fn arcs_in<F: Field>(alloc: Global, form: &Ccf<F>) -> Result<Vec<(usize, usize)>, NoMemory>
    ensures { IfOk result (λ arcs. AreArcsFrom form.now arcs.items) }
{
    let mut arcs = Vec::new(alloc);
    put_entries(&mut arcs, form.base().as_slice(), form.p().as_slice())?;
    put_symbols(&mut arcs, form.mates().as_slice(), form.t().as_slice())?;
    Ok(arcs)
}

// The columns that stand neither in base nor in match.
fn free_in<F: Field>(alloc: Global, form: &Ccf<F>) -> Result<Vec<bool>, NoMemory>
    ensures { IfOk result (λ free. AreFreeFrom form.now free.items) }
{
    let mut taken = vec![in alloc; false; form.shape().columns]?;
    mark_columns(&mut taken, form.base().as_slice());
    mark_columns(&mut taken, form.mates().as_slice());
    others(alloc, &taken)
}

// The columns with an entry in a row without base, or a symbol in a row without match.
fn ends_in<F: Field>(alloc: Global, form: &Ccf<F>) -> Result<Vec<bool>, NoMemory>
    ensures { IfOk result (λ ends. AreEndsFrom form.now ends.items) }
{
    let mut with_base = vec![in alloc; false; form.shape().q_rows]?;
    mark_keys(&mut with_base, form.base().as_slice());
    let mut with_match = vec![in alloc; false; form.shape().t_rows]?;
    mark_keys(&mut with_match, form.mates().as_slice());
    let mut ends = vec![in alloc; false; form.shape().columns]?;
    mark_entries(&mut ends, &with_base, form.p().as_slice());
    mark_symbols(&mut ends, &with_match, form.t().as_slice());
    Ok(ends)
}

/// The arcs of a form, its free columns and its ends.
pub fn arcs_of<F: Field>(alloc: Global, form: &Ccf<F>) -> Result<FormArcs, NoMemory>
    requires { ColumnsDiffer form.now.base form.now.mates }
    ensures { IfOk result (λ told. AreArcsOf F.modulus form.now told.arcs.items told.free.items told.ends.items) }
{
    form.is_in_form();
    Ok(FormArcs {
        arcs: arcs_in(alloc, form)?,
        free: free_in(alloc, form)?,
        ends: ends_in(alloc, form)?,
    })
}
