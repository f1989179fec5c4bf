//! What a desk says of a few lines.

use crate::say;
use residue_field::Res;
use sparse_tableau::SparseTableau;
use std::test::Fail;

const LINES: &[u8] =
    b"add 1 a x=? y=?\nadd 2 a x=1\nadd 1 b x=?\nask 1\nset 1 b y=?\nask 1\nset 2 a y=?\nask 2\n\
    drop 1 c\r\n\n # none\ndrop 1 b\nask 1\nadd 17 a";

const REPLIES: &[u8] = b"changed 1\nchanged 1\nchanged 2\n\
    rank 2\nfirst\nblock 1: y |\nblock 2: x | 1\nlast\nend\n\
    changed 2\n\
    rank 2\nfirst\nblock 1: x y |\nlast\nend\n\
    changed 1\n\
    rank 1\nfirst x y *a\nlast\nend\n\
    refused undeclared\nchanged 1\n\
    rank 1\nfirst x y\nlast\nend\n\
    refused bad number\n";

#[test]
fn each_line_is_replied_to(rt: HostRuntime) -> Result<(), Fail> {
    let said = say::<Res, SparseTableau<Res>>(rt.alloc(), LINES)?;
    assert_eq!(rt; said.as_slice(), REPLIES);
    Ok(())
}
