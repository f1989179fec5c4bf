//! The form of one small model.

use ccf_builder::build;
use cert_text::Ccf;
use matrix_reader::read;
use mixed_layering::layer;
use mixed_model::Mixed;
use residue_field::Res;
use std::alloc::Global;
use std::test::Fail;

// The canonical form of a model.
fn form_of(alloc: Global, model: &Mixed<Res>) -> Result<Ccf<Res>, Fail> {
    model.is_model();
    let layered = layer(alloc, model)?;
    Ok(build(alloc, &layered)?)
}

// One equation with a constant and a symbol at its one unknown is one block, with an auxiliary column.
#[test]
fn a_split_entry_is_one_block(rt: HostRuntime) -> Result<(), Fail> {
    let form = form_of(rt.alloc(), &read(rt.alloc(), b"eq a x=1+?\n")?)?;
    assert_eq!(rt; form.rank(), 1);
    assert_eq!(rt; form.shape().columns, 2);
    assert_eq!(rt; form.blocks().as_slice().len(), 1);
    Ok(())
}
