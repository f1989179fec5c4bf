//! The rules of the parts of a form, one by one.

ghost use Rattle.std.specs.Prelude.{◌≡◌, ◌↔◌, IfOk, IsTrue, length};
ghost use Rattle.cert_text.specs.Rules.{HasLowerLists, HasReasons, LeadsDown};
ghost use Rattle.mixed_matrices.specs.LayeredMatrices.{LayeredMatrix};
ghost use Rattle.part_checker.specs.Told.{AreTold, IsPrintedBy, TellsParts};

use crate::telling::PartsTold;
use cert_text::Ccf;
use out_of_memory::NoMemory;
use part_orders::{are_covers, is_least_first};
use part_search::{arcs_are_down, are_met};
use residue_field::Field;
use std::alloc::Global;

/// Whether each free column stands first and each end last, and each column leads where it may.
pub fn leads_down<F: Field>(form: &Ccf<F>, parts: &[usize], told: &PartsTold) -> bool
    requires parts { TellsParts form.now parts.now }
    requires told { AreTold F.modulus form.now parts.now told.now }
    ensures { (L : LayeredMatrix) → IsPrintedBy L form.now → IsTrue result ↔ LeadsDown F.modulus L form.now }
{
    let last = form.blocks().as_slice().len() + 2;
    let arcs = &told.arcs;
    arcs_are_down(&arcs.arcs, &arcs.free, &arcs.ends, parts, last, &told.below)
}

/// Whether each column of the first tail is free or reached from a free one, each of the last an end or reaches one, and
/// any two of a block reach each other, where columns lead where they may.
pub fn has_reasons<F: Field>(
    alloc: Global,
    form: &Ccf<F>,
    parts: &[usize],
    told: &PartsTold,
) -> Result<bool, NoMemory>
    requires parts { TellsParts form.now parts.now }
    requires told { AreTold F.modulus form.now parts.now told.now }
    ensures { IfOk result (λ answer. (L : LayeredMatrix) → IsPrintedBy L form.now → LeadsDown F.modulus L form.now →
        IsTrue answer ↔ HasReasons F.modulus L form.now) }
{
    let last = form.blocks().as_slice().len() + 2;
    let arcs = &told.arcs;
    are_met(
        alloc,
        &arcs.arcs,
        &arcs.free,
        &arcs.ends,
        parts,
        last,
        &told.heads,
    )
}

/// Whether each lower list holds exactly the blocks right below, and the blocks are listed with the least column first,
/// where the rules before are kept.
pub fn has_lower_lists<F: Field>(
    alloc: Global,
    form: &Ccf<F>,
    parts: &[usize],
    told: &PartsTold,
) -> Result<bool, NoMemory>
    requires parts { TellsParts form.now parts.now }
    requires told { AreTold F.modulus form.now parts.now told.now }
    ensures { IfOk result (λ answer. (L : LayeredMatrix) → IsPrintedBy L form.now → LeadsDown F.modulus L form.now →
        HasReasons F.modulus L form.now → IsTrue answer ↔ HasLowerLists F.modulus L form.now) }
{
    let blocks = form.blocks().as_slice().len();
    if !is_least_first(alloc, &told.lower, &told.heads)? {
        return Ok(false);
    }
    are_covers(
        alloc,
        &told.arcs.arcs,
        parts,
        blocks,
        &told.lower,
        &told.below,
    )
}
